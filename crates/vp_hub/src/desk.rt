ghost use Rattle.std.specs.Prelude.{◌≡◌, ◌≢◌, ◌⊎◌, ◌<◌, ◌^◌, false, ◌+◌, ◌++◌, ◌∷◌, [], All, drop, IfErr, IfOk, OnErr, OnOk, None, Some, length, true};
ghost use Rattle.std.specs.Prelude.{IfNone, IfSome, slice_get};
ghost use Rattle.std.specs.Arc.{arc_value};
ghost use mathlib.Core.List.{IsPrefix};
ghost use Rattle.vp_answer.specs.declared.reply.Reply.TheVariants as replies;
ghost use Rattle.vp_text.specs.Refusals.{Explains};
ghost use Rattle.vp_world.specs.declared.event.Event.TheVariants as event;
ghost use Rattle.vp_world.specs.declared.error.WorldError.TheVariants.{NoMemory};
ghost use Rattle.vp_world.specs.Events.{IsWellFormed};
ghost use Rattle.vp_world.specs.History.{IsLegal, answered_by, most_entries, refused_by};
ghost use Rattle.vp_hub.specs.declared.error.HubError.TheVariants.{Mismatch, Receipt};
ghost use Rattle.vp_hub.specs.Calls.{is_of_session, session_entries};
ghost use Rattle.vp_hub.specs.Closing.{HaveAll, IsClosed};
ghost use Rattle.vp_world.specs.Status.{status_of};
ghost use Rattle.vp_hub.specs.Desks.{Calls, IsOther, WithPass, WithPassBack, bad_operator, handed_out, is_due, is_open_in, is_operators, out_of_memory, refusal_of, with_call, with_event};

use crate::archive::LogArchive;
use crate::close::Closed;
use crate::entries::event_of;
use crate::error::HubError;
use crate::opens::NamesOpening;
use crate::pass::{AsItIs, HandedBack, Index, Pass};
use std::alloc::{AllocError, Global};
use std::marker::Model;
use std::sync::Arc;
use std::sync::ledger::{Blank, Book, Share};
use vp_answer::{Call, Reply, SessionId, WorldStatus};
use vp_history::{Front, History, Shows};
use vp_race::{Finding, Segment, SimError};
use vp_text::{Shared, Text};
use vp_world::{Entry, Event, KeepingArchive, Log, World, WorldError};

/// What stands behind the lock of a hub: a world, the total of the ledger of its sessions' calls, and whose passes are out. A contract sees
/// these, how many parts of the ledger are left for passes to come, and the passes that were handed back.
#[derive(Drop)]
pub struct Desk<L: NamesOpening> {
    alloc: Global,
    world: World,
    archive: LogArchive,
    /// The number of the log's entries of sessions.
    calls: Book<L>,
    /// The parts for passes to come, and the amounts of those that were handed back.
    rest: Share<L>,
    /// The log, of which passes have seen fronts; for contracts alone.
    history: History<Entry>,
    /// The sessions whose passes are out.
    passes_out: Vec<SessionId>,
    /// The passes that were handed back, for contracts alone.
    handed_back: History<HandedBack>,
}

impl<L: NamesOpening> Model for Desk<L> {
    ghost use Rattle.vp_hub.specs.Desks.{Desked, IsDesk, IsLogOf, KeepsPasses};

    ghost Value = { Desked };

    ghost view = { λ d. record {
      world = d.world;
      total = d.calls.total;
      parts = d.rest.parts;
      passes_out = d.passes_out.items;
      handed_back = d.handed_back.entries;
      archive = d.archive;
    } };

    ghost invariant = { λ d. record {
      desk : IsDesk L.opening L.parts (record {
        world = d.world;
        total = d.calls.total;
        parts = d.rest.parts;
        passes_out = d.passes_out.items;
        handed_back = d.handed_back.entries;
        archive = d.archive;
      }) d.rest.amount;
      history : IsLogOf L.history d.world d.history.name d.history.entries;
      passes : KeepsPasses d.world.log d.passes_out.items d.handed_back.entries;
    } };
}

/// So many entries are handed out at once.
const HANDED_OUT_AT: usize = 65_536;

/// And so many bytes of texts in them.
const BYTES_HANDED_OUT_AT: u64 = 16_777_216;

/// A world shows its log.
struct ShownLog;

impl Shows<World, Entry> for ShownLog {
    ghost entries = { λ world. world.log };
}

/// The place of a session among others, if it is there.
fn place_of(sessions: &[SessionId], session: SessionId) -> Option<usize>
    ensures found { IfSome result (λ place. slice_get sessions.now place ≡ Some session) }
    ensures missing { IfNone result (All (λ s. s ≢ session) sessions.now) }
{
    for place in 0..sessions.len() {
        if sessions[place] == session {
            return Some(place);
        }
    }
    None
}

impl<L: NamesOpening> Desk<L> {
    /// A desk with a world in which nothing has happened, a new ledger with a part for each entry that a log may get, and one
    /// more, a new history, and an archive.
    pub fn new(
        alloc: Global,
        blank: Blank,
        history: History<Entry>,
        world: World,
        archive: LogArchive,
    ) -> Desk<L>
        requires name { blank.name ≡ L.name }
        requires parts { blank.parts ≡ L.parts }
        requires room { most_entries < blank.parts }
        requires opening { world.opening ≡ L.opening }
        requires empty { world.log ≡ [] }
        requires history { history.name ≡ L.history }
        requires begins { history.entries ≡ [] }
        ensures { result ≡ record {
          world = world;
          total = 0;
          parts = blank.parts;
          passes_out = [];
          handed_back = [];
          archive = archive;
        } }
    {
        let (calls, rest) = blank.open::<L>();
        Desk {
            alloc,
            world,
            archive,
            calls,
            rest,
            history,
            passes_out: Vec::new(alloc),
            handed_back: History::new(),
        }
    }

    /// What has happened, in order, since entries were last handed out. The log, all that has happened, is legal, and the total of the ledger
    /// is the number of its entries of sessions.
    pub fn log(&self) -> &Log
        ensures log { result.now.entries ≡ drop self.now.world.handed_out self.now.world.log }
        ensures legal { IsLegal L.opening [] self.now.world.log }
        ensures opening { self.now.world.opening ≡ L.opening }
        ensures counted { self.now.total ≡ session_entries self.now.world.log }
    {
        self.world.log()
    }

    /// How many entries the log has, which goes on from a front of its history.
    fn length_from(&mut self, seen: &Front<Entry>) -> u64
        requires { seen.now.name ≡ L.history }
        ensures same { self.new ≡ self.old }
        ensures seen { IsPrefix seen.now.entries self.old.world.log }
        ensures length { result ≡ length self.old.world.log }
    {
        self.history.compare(seen);
        self.world.entry_count()
    }

    /// Lets an event of a session happen, counts it in a share, and gives what is to be seen of the log with the reply; else the world's
    /// refusal.
    fn count(
        &mut self,
        share: &mut Share<L>,
        event: Event,
    ) -> Result<(Reply, Front<Entry>), WorldError>
        requires backed { 0 < share.old.parts }
        requires well_formed { IsWellFormed self.old.world.opening.design event }
        requires session { is_of_session event ≡ true }
        ensures accepted { OnOk result (refused_by self.old.world event ≡ None) }
        ensures desk { OnOk result (self.new ≡ with_call self.old event) }
        ensures reply { IfOk result (λ a. a.0 ≡ answered_by self.old.world event) }
        ensures seen { IfOk result
            (λ a. (a.1.name ≡ L.history) × (a.1.entries ≡ self.new.world.log)) }
        ensures amount { OnOk result (share.new.amount ≡ share.old.amount + 1) }
        ensures few { OnOk result (share.new.amount < 2 ^ 64) }
        ensures refused { IfErr result (Explains NoMemory (refused_by self.old.world event)) }
        ensures unchanged { OnErr result (self.new ≡ self.old) }
        ensures kept { OnErr result (share.new.amount ≡ share.old.amount) }
        ensures parts { share.new.parts ≡ share.old.parts }
    {
        let reply = self.world.apply(event)?;
        self.calls.add(share, 1);
        self.history.advance::<World, ShownLog>(&self.world);
        // Read, so that the check knows that they are few.
        self.calls.audit(share);
        let _entries = self.world.entry_count();
        Ok((reply, self.history.front()))
    }

    /// Opens a session for a user, and gives its pass. Refused by the world (1403: 1302, 1301, 1304, then out of memory), which leaves the
    /// desk as it was.
    pub fn open(&mut self, user: Text, token: Text) -> Result<Pass<L>, HubError>
        ensures accepted { OnOk result
            (refused_by self.old.world (event.Open user token) ≡ None) }
        ensures desk { IfOk result (λ p. WithPass self.old (event.Open user token) p.session self.new) }
        ensures session { IfOk result (λ p. answered_by self.old.world (event.Open user token)
            ≡ replies.Opened p.session) }
        ensures indexes { IfOk result (λ p. p.indexes ≡ length self.old.world.log ∷ []) }
        ensures seen { IfOk result (λ p. p.seen ≡ self.new.world.log) }
        ensures share { IfOk result (λ p. (p.amount ≡ 1) × (p.parts ≡ 1)) }
        ensures refused { IfErr result
            (Explains out_of_memory (refusal_of self.old (event.Open user token))) }
        ensures unchanged { OnErr result (self.new ≡ self.old) }
    {
        if let Err(error) = self.passes_out.reserve(1) {
            self.world.check_open(user.as_str(), token.as_str())?;
            return Err(HubError::from(error));
        }
        let index = self.world.entry_count();
        let reply = self.world.apply(Event::Open { user, token })?;
        let Reply::Opened(session) = reply else {
            unreachable!()
        };
        let mut share = self.rest.split_off(1, 0);
        self.calls.add(&mut share, 1);
        self.history.advance::<World, ShownLog>(&self.world);
        self.passes_out.push_reserved(session);
        let mut indexes = History::new();
        indexes.push::<u64, Index>(&index);
        Ok(Pass {
            session,
            calls: 1,
            indexes,
            seen: self.history.front(),
            share,
        })
    }

    /// Answers a call of a session, and gives its pass back, which has made it. Refused by the world (1403: 1303, 1304), or out of memory:
    /// then desk and pass are as they were.
    pub fn call(&mut self, pass: Pass<L>, call: Call) -> (Pass<L>, Result<Reply, HubError>)
        ensures called { Calls self.old pass call result.1 self.new result.0 }
        ensures legal { IsLegal L.opening [] self.new.world.log }
    {
        let mut pass = pass;
        let answer = self.answer(&mut pass, call);
        // Read, so that the check knows that it is legal.
        let _log = self.log();
        (pass, answer)
    }

    /// The same of a pass that is lent.
    fn answer(&mut self, pass: &mut Pass<L>, call: Call) -> Result<Reply, HubError>
        ensures { Calls self.old pass.old call result self.new pass.new }
    {
        let index = self.length_from(&pass.seen);
        let event = event_of(pass.session, call);
        let (reply, seen) = self.count(&mut pass.share, event)?;
        pass.calls += 1;
        pass.indexes.push::<u64, Index>(&index);
        pass.seen = seen;
        Ok(reply)
    }

    /// Lets an event happen that is of no session; else the world's refusal (1403), or out of memory, which leave the desk as it
    /// was.
    pub fn event(&mut self, event: Event) -> Result<Reply, HubError>
        requires other { IsOther event }
        requires well_formed { IsWellFormed self.old.world.opening.design event }
        ensures accepted { OnOk result (refused_by self.old.world event ≡ None) }
        ensures desk { OnOk result (self.new ≡ with_event self.old event) }
        ensures reply { IfOk result (λ a. a ≡ answered_by self.old.world event) }
        ensures refused { IfErr result (Explains out_of_memory (refusal_of self.old event)) }
        ensures unchanged { OnErr result (self.new ≡ self.old) }
    {
        let reply = self.world.apply(event)?;
        self.history.advance::<World, ShownLog>(&self.world);
        Ok(reply)
    }
}

impl<L: NamesOpening> Desk<L> {
    /// The log holds as many entries, or as many bytes of texts in them, as are handed out at once.
    fn is_due(&self) -> bool
        ensures { result ≡ is_due self.now }
    {
        self.world.log().len() >= HANDED_OUT_AT || self.world.held_bytes() >= BYTES_HANDED_OUT_AT
    }

    /// Hands out the entries that the log holds, once they are 65,536 or have 16 MiB of texts, unless the archive is to leave them to the log.
    pub fn hand_out(&mut self)
        ensures { self.new ≡ handed_out self.old }
    {
        if !self.is_due() {
            return;
        }
        match &mut self.archive {
            LogArchive::Keeping => self.world.hand_out(&mut KeepingArchive),
            LogArchive::Counting(archive) => self.world.hand_out(archive),
        };
    }

    /// A token is the operator's; else the refusal (1403: 1310).
    pub fn check_operator(&self, token: &str) -> Result<(), HubError>
        ensures operator { OnOk result (is_operators self.now.world token.now ≡ true) }
        ensures other { OnErr result (is_operators self.now.world token.now ≡ false) }
        ensures refused { IfErr result (λ e. e ≡ bad_operator) }
    {
        if self.world.is_operator(token) {
            Ok(())
        } else {
            Err(HubError::World(WorldError::BadOperator))
        }
    }

    /// How the world stands, which its operator may know. Refused to another token (1403: 1310), and when out of memory (1403: 1307).
    pub fn status(&self, token: &str) -> Result<WorldStatus, HubError>
        ensures status { IfOk result (λ status. status ≡ status_of self.now.world) }
        ensures operator { OnOk result (is_operators self.now.world token.now ≡ true) }
        ensures refused { IfErr result (λ e. ((e ≡ bad_operator)
            × (is_operators self.now.world token.now ≡ false)) ⊎ (e ≡ out_of_memory)) }
    {
        self.check_operator(token)?;
        Ok(self.world.status()?)
    }

    /// A session is open.
    pub fn is_open(&self, session: SessionId) -> bool
        ensures { result ≡ is_open_in self.now.world session }
    {
        self.world.is_open(session)
    }

    /// The name of the process that goes round in a time slot with as many steps as it takes, as the world has it.
    pub(crate) fn going_round(&self) -> Result<Option<Text>, AllocError> {
        self.world.going_round()
    }

    /// Lets the next event of the simulation happen: the first that a step can take, or, where nothing is left to do at the current
    /// time, or the time slot has as many steps as it takes, an advance; else its refusal, which leaves the desk as it was.
    pub(crate) fn run_next(&mut self) -> Result<(), HubError>
        ensures { OnErr result (self.new ≡ self.old) }
    {
        let next = if self.world.is_slot_full() {
            Event::Advance
        } else {
            Event::Step(0)
        };
        match self.event(next) {
            Err(HubError::World(WorldError::Sim(SimError::Idle))) => self.event(Event::Advance)?,
            happened => happened?,
        };
        Ok(())
    }

    /// Takes the oldest kept segment that was not handed out; none where there is none. Refused by a full log, or out of memory.
    pub(crate) fn take_job(&mut self) -> Result<Option<Arc<Segment>>, HubError>
        ensures { IfOk result (λ job. IfSome job
            (λ s. (arc_value s).start.design ≡ L.opening.design)) }
    {
        let segment = self.next_segment()?;
        match self.event(Event::TakeJob) {
            Ok(_) => Ok(segment),
            Err(HubError::World(WorldError::NoJob)) => Ok(None),
            Err(error) => Err(error),
        }
    }

    /// The segment of the next job, to be shared, if there is one. Takes memory.
    fn next_segment(&self) -> Result<Option<Arc<Segment>>, AllocError>
        ensures { IfOk result (λ job. IfSome job
            (λ s. (arc_value s).start.design ≡ L.opening.design)) }
    {
        let Some(segment) = self.world.next_job() else {
            return Ok(None);
        };
        let segment = segment.try_clone(self.alloc)?;
        Ok(Some(Arc::new(self.alloc, segment)?))
    }

    /// Books a race, and reports whether it was: the book may refuse it. Refused by a full log, or out of memory.
    pub(crate) fn book(&mut self, finding: Finding) -> Result<bool, HubError>
        requires { finding.segment.start.design ≡ L.opening.design }
    {
        // Read, so that the check knows that it is a race.
        let _segment = finding.segment();
        let finding = Shared::new(self.alloc, finding)?;
        match self.event(Event::Book(finding)) {
            Ok(_) => Ok(true),
            Err(HubError::World(WorldError::Race(_))) => Ok(false),
            Err(error) => Err(error),
        }
    }
}

impl<L: NamesOpening> Desk<L> {
    /// Takes a pass back. Refused where its session's pass is not out (1401), which leaves the desk as it was; the pass is lost.
    pub fn hand_back(&mut self, pass: Pass<L>) -> Result<(), HubError>
        ensures returned { OnOk result (WithPassBack self.old pass self.new) }
        ensures refused { IfErr result (λ e. e ≡ Receipt) }
        ensures missing { OnErr result (All (λ s. s ≢ pass.session) self.old.passes_out) }
        ensures unchanged { OnErr result (self.new ≡ self.old) }
    {
        let Some(place) = place_of(self.passes_out.as_slice(), pass.session) else {
            return Err(HubError::Receipt);
        };
        self.history.compare(&pass.seen);
        self.passes_out.remove(place);
        self.handed_back.push::<Pass<L>, AsItIs>(&pass);
        self.rest.merge(pass.share);
        Ok(())
    }

    /// Shows that the passes that were handed back have all calls of the log, if none is out.
    fn settle(&mut self)
        requires { self.old.passes_out ≡ [] }
        ensures same { self.new ≡ self.old }
        ensures passes { HaveAll self.old.world.log self.old.handed_back }
        ensures legal { IsLegal L.opening [] self.old.world.log }
        ensures opening { self.old.world.opening ≡ L.opening }
    {
        // Read, so that the check knows that it is legal.
        let _log = self.log();
        self.calls.audit(&mut self.rest);
    }

    /// Ends, with the world and the passes that were handed back. Refused while a pass is out (1402).
    pub fn close(self) -> Result<Closed, HubError>
        ensures closed { IfOk result (λ closed. IsClosed L.opening closed) }
        ensures world { IfOk result (λ closed. closed.world ≡ self.world) }
        ensures passes { IfOk result (λ closed. closed.passes.entries ≡ self.handed_back) }
        ensures accepted { OnOk result (self.passes_out ≡ []) }
        ensures refused { IfErr result (λ e. e ≡ Mismatch) }
        ensures out { OnErr result (self.passes_out ≢ []) }
    {
        let mut desk = self;
        if !desk.passes_out.is_empty() {
            // Dropped by a call, so that how a desk is dropped is no part of this function's proof.
            drop(desk);
            return Err(HubError::Mismatch);
        }
        desk.settle();
        Ok(Closed {
            world: desk.world,
            passes: desk.handed_back,
        })
    }
}
