//! What was shown, beside the log.
ghost use Rattle.std.specs.Prelude.{◌≡◌, IfOk};
ghost use Rattle.std.specs.Arc.{arc_value};
ghost use Rattle.vp_world.specs.declared.event.Event.TheVariants as event;
ghost use Rattle.vp_world.specs.Events.{IsWellFormed};
ghost use Rattle.vp_load.specs.Logs.{AreWellFormed, IsFoundAgain, Repeats};

use crate::difference::Difference;
use crate::happening::{event_of, line_of};
use crate::kinds::{WANTED, count};
use crate::load::Transcripts;
use crate::operator::Order;
use crate::talk::OK;
use crate::texts::world_of;
use std::alloc::Global;
use std::sync::Arc;
use vp_answer::{GrantChange, Reply, Request, SessionId};
use vp_expr::Checked;
use vp_race::{BookedFinding, Finding, RaceError, check};
use vp_text::{Same, Shared};
use vp_wire::{reply_line, request};
use vp_world::{Entry, Event, Limits, Log, LoggedEvent, World};

/// What a world answers to the event of the entry at an index of a log; or by which number it refuses it.
fn answer(world: &mut World, index: usize, event: Event) -> Result<Reply, Difference>
    requires { IsWellFormed world.old.opening.design event }
    ensures { world.new.opening ≡ world.old.opening }
{
    match world.apply(event) {
        Ok(reply) => Ok(reply),
        Err(error) => {
            let code = error.code();
            Err(Difference::Refusal { index, code })
        }
    }
}

/// The line of a reply is that of the entry at an index of a log, byte by byte.
fn check_reply(
    alloc: Global,
    reply: &Reply,
    index: usize,
    entry: &Entry,
) -> Result<(), Difference> {
    let own = reply_line(alloc, reply)?;
    let line = line_of(alloc, &entry.happening)?;
    if own.as_slice() != line.as_slice() {
        return Err(Difference::Reply { index });
    }
    Ok(())
}

/// The last that has happened to a world has left it at the time, and as finished, as the entry at an index of a log has it.
fn check_time(world: &World, index: usize, entry: &Entry) -> Result<(), Difference> {
    let log = world.log();
    let Some(last) = log.len().checked_sub(1) else {
        return Err(Difference::Time { index });
    };
    let mut made = Entry::blank();
    let own = log.entry(last, &mut made);
    if own.time == entry.time && own.finished == entry.finished {
        Ok(())
    } else {
        Err(Difference::Time { index })
    }
}

/// A booked race, found again in a world by its order in the kept segment of its number; or why there is none.
fn found_again(
    alloc: Global,
    world: &World,
    booked: &BookedFinding,
) -> Result<Shared<Finding>, RaceError>
    ensures well { IfOk result (λ f. IsWellFormed world.now.opening.design (event.Book f)) }
    ensures again { IfOk result (λ f. IsFoundAgain (event.Book booked.now) (event.Book f)) }
{
    let Some(segment) = world.kept(booked.number()) else {
        return Err(RaceError::SegmentGone);
    };
    let segment = Arc::new(alloc, segment.try_clone(alloc)?)?;
    let order = Vec::from_slice(alloc, booked.orders().second())?;
    let finding = check(alloc, &segment, order, booked.object())?;
    let _race = finding.segment();
    Ok(Shared::new(alloc, finding)?)
}

/// The event of the entry at an index of a log, for a world to which all that stands before it has happened.
fn event_at(alloc: Global, world: &World, index: usize, entry: &Entry) -> Result<Event, Difference>
    requires { IsWellFormed world.now.opening.design entry.now.event }
    ensures well { IfOk result (λ e. IsWellFormed world.now.opening.design e) }
    ensures repeats { IfOk result (Repeats entry.now.event) }
{
    if let LoggedEvent::Book { finding } = &entry.happening {
        return match found_again(alloc, world, finding.value()) {
            Ok(finding) => Ok(Event::Book(finding)),
            Err(error) => {
                let code = error.code();
                Err(Difference::Refusal { index, code })
            }
        };
    }
    match event_of(alloc, &entry.happening)? {
        Some(event) => Ok(event),
        None => Err(Difference::Race { index }),
    }
}

/// What the book keeps of two findings is the same.
fn are_alike(finding: &BookedFinding, other: &BookedFinding) -> bool {
    let (own, others) = (finding.orders(), other.orders());
    finding.number() == other.number()
        && finding.time() == other.time()
        && finding.object() == other.object()
        && finding.values() == other.values()
        && own.second() == others.second()
        && own.first_sources() == others.first_sources()
        && own.second_sources() == others.second_sources()
}

/// Where the entry at an index of a log booked a race, the last race in a world's book is that one.
fn check_race(world: &World, index: usize, entry: &Entry) -> Result<(), Difference> {
    let LoggedEvent::Book { finding } = &entry.happening else {
        return Ok(());
    };
    match world.book().last() {
        Some(own) if are_alike(own.value(), finding.value()) => Ok(()),
        _ => Err(Difference::Race { index }),
    }
}

/// Lets the event of the entry at an index of a log happen to a world, which is to answer it as the entry has it, and to come to the same.
fn repeat(alloc: Global, world: &mut World, index: usize, entry: &Entry) -> Result<(), Difference>
    requires { IsWellFormed world.old.opening.design entry.now.event }
    ensures { world.new.opening ≡ world.old.opening }
{
    let event = event_at(alloc, world, index, entry)?;
    let reply = answer(world, index, event)?;
    check_reply(alloc, &reply, index, entry)?;
    check_race(world, index, entry)?;
    check_time(world, index, entry)
}

/// The events of a log, one by one, come to the same in a fresh world.
pub fn compare_world(alloc: Global, world: World, log: &Log) -> Result<(), Difference>
    requires { AreWellFormed world.opening.design log.now.entries }
{
    let mut world = world;
    for index in 0..log.len() {
        let mut made = Entry::blank();
        let entry = log.entry(index, &mut made);
        repeat(alloc, &mut world, index, entry)?;
    }
    drop(world);
    Ok(())
}

/// Takes a line from what is left of what a user was shown, and reports whether it was the next there.
fn is_next(own: &mut &[u8], line: &[u8]) -> bool {
    match own.strip_prefix(line) {
        Some(rest) => {
            *own = rest;
            true
        }
        None => false,
    }
}

/// The line of the entry at an index of a log, which is of a session, is the next that its user was shown; it is taken from what is left of what
/// the users were shown.
fn take_line(
    alloc: Global,
    rests: &mut [&[u8]],
    session: SessionId,
    index: usize,
    entry: &Entry,
) -> Result<(), Difference> {
    let line = line_of(alloc, &entry.happening)?;
    if session.opens != 1 {
        return Err(Difference::Stranger { index });
    }
    let Some(own) = rests.get_mut(session.user.0) else {
        return Err(Difference::Stranger { index });
    };
    if !is_next(own, line.as_slice()) {
        let number = session.user.0.saturating_add(1);
        return Err(Difference::Transcript { index, number });
    }
    Ok(())
}

/// What is left of these transcripts at first, which is all.
fn whole_rests<'a>(alloc: Global, transcripts: &'a [Vec<u8>]) -> Result<Vec<&'a [u8]>, Difference> {
    let mut rests = Vec::new(alloc);
    for transcript in transcripts {
        rests.push(transcript.as_slice())?;
    }
    Ok(rests)
}

/// Nothing is left of what the users were shown.
fn check_no_rest(rests: &[&[u8]]) -> Result<(), Difference> {
    for (index, own) in rests.iter().enumerate() {
        if !own.is_empty() {
            let number = index.saturating_add(1);
            return Err(Difference::Excess { number });
        }
    }
    Ok(())
}

/// What each user was shown are the lines of the replies to his session's events in a log from an index on, in order.
fn compare_users(
    alloc: Global,
    users: &[Vec<u8>],
    log: &Log,
    first: usize,
) -> Result<(), Difference> {
    let mut rests = whole_rests(alloc, users)?;
    for index in first..log.len() {
        let mut made = Entry::blank();
        let entry = log.entry(index, &mut made);
        if let Some(session) = entry.happening.session() {
            take_line(alloc, &mut rests, session, index, entry)?;
        }
    }
    check_no_rest(&rests)
}

/// The change of a grant that the order of a number asks.
fn change_of(alloc: Global, number: usize, order: &Order) -> Result<GrantChange, Difference> {
    match request(alloc, order.line.as_bytes()) {
        Ok(Request::Grant(change)) => Ok(change),
        _ => Err(Difference::NoOrder { number }),
    }
}

/// The changes of grants of which the operator was answered that they are done, in order, each with the number of its order.
fn changes_of(alloc: Global, orders: &[Order]) -> Result<Vec<(usize, GrantChange)>, Difference> {
    let mut changes = Vec::new(alloc);
    for (index, order) in orders.iter().enumerate() {
        if order.reply.as_slice() == OK {
            let number = index.saturating_add(1);
            changes.push((number, change_of(alloc, number, order)?))?;
        }
    }
    Ok(changes)
}

/// The changes of grants in a log from an index on are those of which the operator was answered that they are done: each once, in order.
fn compare_grants(
    alloc: Global,
    orders: &[Order],
    log: &Log,
    first: usize,
) -> Result<(), Difference> {
    let changes = changes_of(alloc, orders)?;
    let mut next = 0usize;
    for index in first..log.len() {
        let mut made = Entry::blank();
        let entry = log.entry(index, &mut made);
        if let LoggedEvent::Grant { change } = &entry.happening {
            match changes.get(next) {
                Some((_, own)) if own.is_same(change) => next = next.saturating_add(1),
                _ => return Err(Difference::Grant { index }),
            }
        }
    }
    match changes.get(next) {
        Some((number, _)) => Err(Difference::LostOrder { number: *number }),
        None => Ok(()),
    }
}

/// A log has something of each kind that is wanted.
fn check_kinds(log: &Log) -> Result<(), Difference> {
    for kind in WANTED {
        if count(log, kind) == 0 {
            return Err(Difference::NoneOf(kind));
        }
    }
    Ok(())
}

/// Compares the entries of a log from an index on with what the clients and the operator were shown.
pub fn compare_transcripts(
    alloc: Global,
    log: &Log,
    first: usize,
    transcripts: &Transcripts,
) -> Result<(), Difference> {
    compare_users(alloc, transcripts.users.as_slice(), log, first)?;
    compare_grants(alloc, transcripts.orders.as_slice(), log, first)?;
    check_kinds(log)
}

/// Compares a log with what comes of its events in a fresh world, and with what the clients and the operator were shown.
pub fn compare(
    alloc: Global,
    checked: &Arc<Checked>,
    log: &Log,
    transcripts: &Transcripts,
) -> Result<(), Difference>
    requires { AreWellFormed (arc_value checked.now) log.now.entries }
{
    let Some(world) = world_of(alloc, checked, Limits::GREATEST) else {
        return Err(Difference::NoWorld);
    };
    compare_world(alloc, world, log)?;
    compare_transcripts(alloc, log, 0, transcripts)
}
