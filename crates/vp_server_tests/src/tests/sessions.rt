//! Two sessions of one user on two threads.
ghost use Rattle.std.specs.Prelude.{◌≡◌, ◌<◌, []};
ghost use Rattle.vp_world.specs.History.{most_entries};

use crate::tests::calls::{find, open, order, put, read, rest};
use crate::tests::hubs::{CLOCKED, USERS, blank, world_of};
use crate::tests::stage::Stage;
use std::alloc::Global;
use std::marker::Brand;
use std::sync::Wait;
use std::sync::ledger::Blank;
use std::thread;
use std::thread::Threads;
use std::time::Clock;
use vp_answer::{Query, Reply, SessionId};
use vp_bits::Bits;
use vp_elab::ObjectId;
use vp_hub::{Closed, Desk, History, Hub, LogArchive, NamesOpening, Pass};
use vp_text::Sequence;
use vp_vpi::PutValue;
use vp_world::{Entry, Log, LoggedEvent, World};

/// The log holds so many entries.
const ENTRIES: u32 = 16_384;

/// The object `top.c`.
const CLOCK: ObjectId = ObjectId(1);

/// A session's pass, and what it read, in order.
#[derive(Drop)]
struct Readings<L: NamesOpening> {
    pass: Pass<L>,
    values: Vec<Bits>,
}

/// What is left of a hub of two sessions, the sessions, and what each read.
#[derive(Drop)]
struct Ended {
    closed: Closed,
    sessions: [SessionId; 2],
    values: [Vec<Bits>; 2],
}

/// A session gives `c` a value, lets the design run as far as it may, rests, and reads `c`.
fn turn<L: NamesOpening, R: Wait + Clock>(
    rt: &R,
    hub: &Hub<L>,
    alloc: Global,
    pass: Pass<L>,
    digits: &str,
) -> Option<(Pass<L>, Bits)> {
    let pass = put(rt, hub, alloc, pass, digits)?;
    hub.run_sim(rt, 32).ok()?;
    rest(rt);
    read(rt, hub, pass)
}

/// A session does so 100 times, with two values by turns.
fn turns<L: NamesOpening, R: Wait + Clock>(
    rt: &R,
    hub: &Hub<L>,
    alloc: Global,
    pass: Pass<L>,
    digits: [&str; 2],
) -> Option<Readings<L>> {
    let mut pass = pass;
    let mut values = Vec::new(alloc);
    for number in 0..100usize {
        let (back, value) = turn(rt, hub, alloc, pass, digits[number % 2])?;
        pass = back;
        values.push(value).ok()?;
    }
    Some(Readings { pass, values })
}

/// Ann has a session with a handle of `c`.
fn begin<L: NamesOpening, R: Wait>(rt: &R, hub: &Hub<L>, alloc: Global) -> Option<Pass<L>> {
    let pass = open(rt, hub, alloc, "ann", "t1")?;
    find(rt, hub, alloc, pass, "top.c")
}

/// What each of two sessions on two threads reads. None gives `c` the value 1, which the design gives it at time 5.
fn beside<L: NamesOpening + Send + Sync, R: Threads + Wait + Clock + Sync>(
    rt: &R,
    stage: &Stage<L>,
    first: Pass<L>,
    second: Pass<L>,
) -> Option<(Readings<L>, Readings<L>)> {
    let (first, second) = thread::join(
        rt,
        move || {
            stage.start.wait(rt);
            turns(rt, &stage.hub, stage.alloc, first, ["0", "x"])
        },
        move || {
            stage.start.wait(rt);
            turns(rt, &stage.hub, stage.alloc, second, ["z", "0"])
        },
    );
    Some((first?, second?))
}

/// The same of two sessions of Ann, of which the first lets the design run until 10.
fn of_ann<L: NamesOpening + Send + Sync, R: Threads + Wait + Clock + Sync>(
    rt: &R,
    stage: &Stage<L>,
) -> Option<(Readings<L>, Readings<L>)> {
    let (hub, alloc) = (&stage.hub, stage.alloc);
    let first = begin(rt, hub, alloc)?;
    let second = begin(rt, hub, alloc)?;
    let first = order(rt, hub, first, Query::Run { until: 10 })?;
    beside(rt, stage, first, second)
}

/// What is left of a hub after them.
fn end<L: NamesOpening>(
    hub: Hub<L>,
    alloc: Global,
    first: Readings<L>,
    second: Readings<L>,
) -> Option<Ended> {
    let sessions = [first.pass.session(), second.pass.session()];
    let values = [first.values, second.values];
    let mut passes = Vec::new(alloc);
    passes.push(first.pass).ok()?;
    passes.push(second.pass).ok()?;
    Some(Ended {
        closed: hub.close(passes).ok()?,
        sessions,
        values,
    })
}

/// The same of a hub of a world.
fn end_anew_of<L: NamesOpening + Send + Sync, R: Threads + Wait + Clock + Sync>(
    rt: &R,
    alloc: Global,
    blank: Blank,
    history: History<Entry>,
    world: World,
) -> Option<Ended>
    requires name { blank.name ≡ L.name }
    requires parts { blank.parts ≡ L.parts }
    requires room { most_entries < blank.parts }
    requires opening { world.opening ≡ L.opening }
    requires empty { world.log ≡ [] }
    requires history { history.name ≡ L.history }
    requires begins { history.entries ≡ [] }
{
    let stage = Stage::new(
        alloc,
        Hub::<L>::new(
            alloc,
            Desk::<L>::new(alloc, blank, history, world, LogArchive::Keeping),
        ),
    );
    let (first, second) = of_ann(rt, &stage)?;
    end(stage.into_hub(), alloc, first, second)
}

/// The same of a new hub.
fn end_anew<R: Threads + Wait + Clock + Sync>(rt: &R, alloc: Global) -> Option<Ended> {
    let world = world_of(alloc, CLOCKED, USERS, ENTRIES)?;
    end_anew_of::<Brand, R>(rt, alloc, blank(), History::new(), world)
}

/// The value that a query gives `c`, if it is a put.
fn value_put(query: &Query) -> Option<Bits> {
    match query {
        Query::Put {
            value: PutValue::Digits(digits),
            ..
        } => Bits::from_bin(digits.as_str().as_bytes()).ok(),
        _ => None,
    }
}

/// The value that `c` is given by an entry: of a put, or of a change by the design.
fn value_given(entry: &Entry) -> Option<Bits> {
    match &entry.happening {
        LoggedEvent::Ask { asked, .. } | LoggedEvent::Put { asked, .. } => value_put(&asked.query),
        LoggedEvent::StepWithChange { change, .. } if change.object == CLOCK => Some(change.value),
        _ => None,
    }
}

/// The value that an entry shows a session, if it asked for one there.
fn value_told(entry: &Entry, session: SessionId) -> Option<Bits> {
    match &entry.happening {
        LoggedEvent::Ask {
            asked,
            reply: Reply::Value(bits),
        } if asked.session == session => Some(*bits),
        _ => None,
    }
}

/// A session read these values, each the one that `c` was given last before it in the log.
fn are_those_given(log: &Log, session: SessionId, values: &[Bits]) -> bool {
    let mut given = None;
    let mut count = 0;
    for index in 0..log.len() {
        let mut made = Entry::blank();
        let entry = log.entry(index, &mut made);
        if let Some(told) = value_told(entry, session) {
            if given != Some(told) || values.get(count) != Some(&told) {
                return false;
            }
            count += 1;
        }
        given = value_given(entry).or(given);
    }
    count == values.len()
}

/// The design changed `c` after the first put in a log.
fn is_changed_by_design(log: &Log) -> bool {
    let mut is_put = false;
    for index in 0..log.len() {
        let mut made = Entry::blank();
        let entry = log.entry(index, &mut made);
        match &entry.happening {
            LoggedEvent::Put { .. } => is_put = true,
            LoggedEvent::StepWithChange { change, .. } if is_put && change.object == CLOCK => {
                return true;
            }
            _ => {}
        }
    }
    false
}

/// An entry is of a session.
fn is_own(entry: &Entry, session: SessionId) -> bool {
    match &entry.happening {
        LoggedEvent::Open {
            session: opened,
            ..
        } => *opened == session,
        LoggedEvent::Close { session: closed } => *closed == session,
        LoggedEvent::Ask { asked, .. } | LoggedEvent::Put { asked, .. } => asked.session == session,
        _ => false,
    }
}

/// These are the indexes of a session's entries in a log, in order, and no others.
fn are_own_indexes(log: &Log, session: SessionId, indexes: &[usize]) -> bool {
    let mut count = 0;
    for index in 0..log.len() {
        let mut made = Entry::blank();
        let entry = log.entry(index, &mut made);
        if is_own(entry, session) {
            if indexes.get(count) != Some(&index) {
                return false;
            }
            count += 1;
        }
    }
    count == indexes.len()
}

/// What a session read is what `c` was given, and these receipts are of its entries; how many it read, and how many entries it has.
fn counts(ended: &Ended, receipts: &[Sequence<usize>], number: usize) -> Option<(usize, usize)> {
    let log = ended.closed.log();
    let session = *ended.sessions.get(number)?;
    let values = ended.values.get(number)?.as_slice();
    let indexes = receipts.get(number)?.as_slice();
    if !are_those_given(log, session, values) || !are_own_indexes(log, session, indexes) {
        return None;
    }
    Some((values.len(), indexes.len()))
}

/// The same of both sessions, in the order in which they were opened, and whether the design changed `c` beside them.
fn all_counts(alloc: Global, ended: &Ended) -> Option<([(usize, usize); 2], bool)> {
    let is_changed = is_changed_by_design(ended.closed.log());
    let receipts = ended.closed.receipts(alloc).ok()??;
    let receipts = receipts.as_slice();
    if receipts.len() != 2 {
        return None;
    }
    let counts = [counts(ended, receipts, 0)?, counts(ended, receipts, 1)?];
    Some((counts, is_changed))
}

#[test]
fn two_sessions(rt: HostRuntime) {
    let ended = end_anew(&rt, rt.alloc()).expect(&rt, "a hub");
    let counts = all_counts(rt.alloc(), &ended);
    drop(ended);
    assert_eq!(rt; counts, Some(([(100, 203), (100, 202)], true)));
}
