ghost use Rattle.std.specs.Prelude.{◌≡◌, ◌≢◌, IfNone, IfOk, IfSome, drop, filter_map, length, map};
ghost use Rattle.vp_hub.specs.Calls.{entry_indexes, is_own, opened_in, sessions_opened};

use crate::pass::HandedBack;
use std::alloc::{AllocError, Global};
use vp_answer::SessionId;
use vp_history::History;
use vp_text::Sequence;
use vp_world::{Entry, Log, LoggedEvent, World};

/// What is left of a hub: its world, with the log, and, for contracts alone, the passes that were handed back.
#[derive(Drop)]
pub struct Closed {
    pub world: World,
    pub passes: History<HandedBack>,
}

impl Closed {
    /// What has happened, in order, since entries were last handed out.
    pub fn log(&self) -> &Log
        ensures { result.now.entries ≡ drop self.now.world.handed_out self.now.world.log }
    {
        self.world.log()
    }

    /// How many entries the log has, those that were handed out among them.
    pub fn entry_count(&self) -> u64
        ensures { result ≡ length self.now.world.log }
    {
        self.world.entry_count()
    }

    /// The indexes of each session's calls in the log, rising; of the sessions in the order in which they were opened. None where entries
    /// were handed out. Takes memory.
    pub fn receipts(&self, alloc: Global) -> Result<Option<Sequence<Sequence<usize>>>, AllocError>
        ensures receipts { IfOk result (λ lists. IfSome lists (λ lists. lists
            ≡ map (entry_indexes self.now.world.log) (sessions_opened self.now.world.log))) }
        ensures whole { IfOk result (λ lists. IfSome lists (λ _. self.now.world.handed_out ≡ 0)) }
        ensures gone { IfOk result (λ lists. IfNone lists (self.now.world.handed_out ≢ 0)) }
    {
        if self.world.handed_out() != 0 {
            return Ok(None);
        }
        Ok(Some(receipts(alloc, self.log())?))
    }
}

/// The indexes of each session's calls in a log, rising; of the sessions in the order in which they were opened. Takes memory.
fn receipts(alloc: Global, log: &Log) -> Result<Sequence<Sequence<usize>>, AllocError>
    ensures { IfOk result (λ lists. lists
        ≡ map (entry_indexes log.now.entries) (sessions_opened log.now.entries)) }
{
    let mut lists = Vec::new(alloc);
    for index in 0..log.len() {
        let mut made = Entry::blank();
        if let Some(session) = session_opened(log.entry(index, &mut made)) {
            lists.push(entry_indexes(alloc, log, session)?)?;
        }
    }
    Ok(Sequence::from_vec(lists))
}

/// The session that an entry opened, if it opened one.
fn session_opened(entry: &Entry) -> Option<SessionId>
    ensures { result ≡ opened_in entry.now.event entry.now.reply }
{
    match &entry.happening {
        LoggedEvent::Open { session, .. } => Some(*session),
        _ => None,
    }
}

/// An entry is of a session.
fn is_own(entry: &Entry, session: SessionId) -> bool
    ensures { result ≡ is_own session entry.now }
{
    match entry.happening.session() {
        Some(own) => own.is_same(session),
        None => false,
    }
}

/// The indexes of a session's entries in a log, rising. Takes memory.
fn entry_indexes(
    alloc: Global,
    log: &Log,
    session: SessionId,
) -> Result<Sequence<usize>, AllocError>
    ensures { IfOk result (λ indexes. indexes ≡ entry_indexes log.now.entries session) }
{
    let mut indexes = Vec::new(alloc);
    for index in 0..log.len() {
        let mut made = Entry::blank();
        let entry = log.entry(index, &mut made);
        if is_own(entry, session) {
            indexes.push(index)?;
        }
    }
    Ok(Sequence::from_vec(indexes))
}
