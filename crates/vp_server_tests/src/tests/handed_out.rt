//! A log that is handed out, and a time slot without an end.
ghost use Rattle.std.specs.Prelude.{◌≡◌, ◌<◌, []};
ghost use Rattle.vp_world.specs.History.{most_entries};

use crate::tests::calls::{find, open, order, put};
use crate::tests::hubs::{SPINNING, TWO_USERS, blank, world_of};
use std::alloc::Global;
use std::marker::Brand;
use std::sync::Wait;
use std::sync::ledger::Blank;
use vp_answer::Query;
use vp_hub::{Closed, Desk, History, Hub, LogArchive, NamesOpening, Pass, Ran};
use vp_world::{CountingArchive, Entry, World};

/// The log holds so many entries.
const ENTRIES: u32 = 4_194_304;

/// So many steps a time slot takes.
const SLOT: u64 = 4_194_304;

/// The archive of a server that does not keep its log.
const COUNTING: LogArchive = LogArchive::Counting(CountingArchive { entries: 0 });

/// Ann opens a session, has a handle of the reg, and lets the design run.
fn begin<L: NamesOpening, R: Wait>(rt: &R, hub: &Hub<L>, alloc: Global) -> Option<Pass<L>> {
    let pass = open(rt, hub, alloc, "ann", "t1")?;
    let pass = find(rt, hub, alloc, pass, "top.r")?;
    order(rt, hub, pass, Query::Run { until: 10 })
}

/// How far a simulation runs in a time slot without an end: for so many events, and then on after a put.
fn run_on<L: NamesOpening, R: Wait>(
    rt: &R,
    hub: &Hub<L>,
    alloc: Global,
    pass: Pass<L>,
    events: u64,
) -> Option<(Pass<L>, [Ran; 2])> {
    let first = hub.run_sim(rt, events).ok()?;
    let pass = put(rt, hub, alloc, pass, "1")?;
    let second = hub.run_sim(rt, 100).ok()?;
    Some((pass, [first, second]))
}

/// What is left of a hub after that, and how far its simulation ran.
#[derive(Drop)]
struct Ended {
    closed: Closed,
    ran: [Ran; 2],
}

/// The same of a hub of a world.
fn end_of<L: NamesOpening, R: Wait>(
    rt: &R,
    alloc: Global,
    blank: Blank,
    history: History<Entry>,
    world: World,
    archive: LogArchive,
    events: u64,
) -> Option<Ended>
    requires name { blank.name ≡ L.name }
    requires parts { blank.parts ≡ L.parts }
    requires room { most_entries < blank.parts }
    requires opening { world.opening ≡ L.opening }
    requires empty { world.log ≡ [] }
    requires history { history.name ≡ L.history }
    requires begins { history.entries ≡ [] }
{
    let hub = Hub::<L>::new(alloc, Desk::<L>::new(alloc, blank, history, world, archive));
    let pass = begin(rt, &hub, alloc)?;
    let (pass, ran) = run_on(rt, &hub, alloc, pass, events)?;
    hub.hand_back(rt, pass).ok()?;
    let closed = hub.close(Vec::new(alloc)).ok()?;
    Some(Ended { closed, ran })
}

/// There are receipts of what is left of a hub.
fn has_receipts(alloc: Global, closed: &Closed) -> Option<bool> {
    let receipts = closed.receipts(alloc).ok()?;
    Some(receipts.is_some())
}

/// How far a simulation ran, how many entries the log of its hub has and how many it holds, and whether there are receipts.
fn counts<R: Wait>(
    rt: &R,
    alloc: Global,
    archive: LogArchive,
    events: u64,
) -> Option<([Ran; 2], u64, usize, bool)> {
    let world = world_of(alloc, SPINNING, TWO_USERS, ENTRIES)?;
    let history = History::new();
    let ended = end_of::<Brand, R>(rt, alloc, blank(), history, world, archive, events)?;
    let count = ended.closed.entry_count();
    let held = ended.closed.log().len();
    let has_receipts = has_receipts(alloc, &ended.closed);
    let ran = ended.ran;
    drop(ended);
    Some((ran, count, held, has_receipts?))
}

/// So many events happened.
fn some(events: u64) -> Ran {
    Ran {
        events,
        idle: false,
    }
}

/// The log is handed out after the events under one lock, which are 64, with which it holds 65,536 entries. Three are of requests before them.
#[test]
fn a_log_is_handed_out(rt: HostRuntime) {
    let wanted = Some(([some(70_000), some(100)], 70_104, 4_565, false));
    assert!(rt; counts(&rt, rt.alloc(), COUNTING, 70_000) == wanted);
}

#[test]
fn a_log_is_kept(rt: HostRuntime) {
    let wanted = Some(([some(70_000), some(100)], 70_104, 70_104, true));
    assert!(rt; counts(&rt, rt.alloc(), LogArchive::Keeping, 70_000) == wanted);
}

/// All steps of the slot are handed out when it is full. A put begins the segment anew, and the simulation runs on.
#[test]
fn a_time_slot_is_bounded(rt: HostRuntime) {
    let idle = Ran {
        events: SLOT,
        idle: true,
    };
    let wanted = Some(([idle, some(100)], 4_194_408, 101, false));
    assert!(rt; counts(&rt, rt.alloc(), COUNTING, 5_000_000) == wanted);
}
