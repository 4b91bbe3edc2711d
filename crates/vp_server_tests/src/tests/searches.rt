//! A search for races beside a session.
ghost use Rattle.std.specs.Prelude.{◌≡◌, ◌<◌, []};
ghost use Rattle.vp_world.specs.History.{most_entries};

use crate::tests::calls::{close, find, open, order, read};
use crate::tests::hubs::{SWAPPED, TWO_USERS, blank, world_of};
use std::alloc::Global;
use std::marker::Brand;
use std::sync::Wait;
use std::sync::atomic::{AtomicU64, Ordering};
use std::sync::ledger::Blank;
use std::thread;
use std::thread::Threads;
use std::time::{Clock, Duration};
use vp_answer::Query;
use vp_bits::Bits;
use vp_hub::{Desk, History, Hub, LogArchive, NamesOpening, Pass, Ran, Worked};
use vp_race::{Gate, OpenGate};
use vp_world::{Entry, World};

/// The log holds so many entries.
const ENTRIES: u32 = 256;

/// A gate whose first turn, and again its second, lasts until a request that was made since is answered.
#[derive(Drop)]
struct HeldGate<R> {
    clock: R,
    /// So many of its turns have begun.
    turns: AtomicU64,
    /// Requests made in so many of them are answered.
    answered: AtomicU64,
    /// So many of them were not answered in time.
    late: AtomicU64,
}

impl<R: Clock> Gate for HeldGate<R> {
    ghost stays_open = { λ _. Unit {0} };

    fn turn(&self) -> bool {
        let turn = self.turns.fetch_add(1, Ordering::SeqCst).saturating_add(1);
        if turn <= 2 && !comes_to(&self.clock, &self.answered, turn) {
            self.late.fetch_add(1, Ordering::SeqCst);
        }
        true
    }
}

/// A count comes to a number within 10,000 turns of a millisecond.
fn comes_to<R: Clock>(clock: &R, count: &AtomicU64, number: u64) -> bool {
    for _turn in 0..10_000 {
        if count.load(Ordering::SeqCst) >= number {
            return true;
        }
        thread::sleep(clock, Duration::from_millis(1));
    }
    false
}

/// A gate at which nothing was asked.
fn held_gate<R: Clock>(clock: R) -> HeldGate<R> {
    HeldGate {
        clock,
        turns: AtomicU64::new(0),
        answered: AtomicU64::new(0),
        late: AtomicU64::new(0),
    }
}

/// A hub, and the gate of its first search.
#[derive(Drop)]
struct HeldSearch<L: NamesOpening, R> {
    hub: Hub<L>,
    gate: HeldGate<R>,
}

/// In the first turn of a gate, and again in its second, a session reads that `a` is 1.
fn read_in_turns<L: NamesOpening, R: Wait + Clock>(
    rt: &R,
    search: &HeldSearch<L, R>,
    pass: Pass<L>,
) -> Option<Pass<L>> {
    let gate = &search.gate;
    let mut pass = pass;
    for turn in 1..3 {
        if !comes_to(rt, &gate.turns, turn) {
            return None;
        }
        let (back, value) = read(rt, &search.hub, pass)?;
        if value != Bits::of_number(1, 1) {
            return None;
        }
        gate.answered.store(turn, Ordering::SeqCst);
        pass = back;
    }
    Some(pass)
}

/// What a job comes to whose search is held while a session reads.
fn first_job<L: NamesOpening + Send + Sync, R: Threads + Wait + Clock + Copy + Send + Sync>(
    rt: &R,
    search: &HeldSearch<L, R>,
    pass: Pass<L>,
) -> Option<(Pass<L>, Worked)> {
    let (worked, pass) = thread::join(
        rt,
        move || search.hub.work_once(rt, &search.gate),
        move || read_in_turns(rt, search, pass),
    );
    if search.gate.late.load(Ordering::SeqCst) != 0 {
        return None;
    }
    Some((pass?, worked.ok()?))
}

/// Ann has a session with a handle of `a`, and lets the design run until 10.
fn begin<L: NamesOpening, R: Wait>(rt: &R, hub: &Hub<L>, alloc: Global) -> Option<Pass<L>> {
    let pass = open(rt, hub, alloc, "ann", "t1")?;
    let pass = find(rt, hub, alloc, pass, "top.a")?;
    order(rt, hub, pass, Query::Run { until: 10 })
}

/// How far the design runs by at most 100 events, and what three jobs come to.
fn work<L: NamesOpening + Send + Sync, R: Threads + Wait + Clock + Copy + Send + Sync>(
    rt: &R,
    search: &HeldSearch<L, R>,
    alloc: Global,
) -> Option<(Pass<L>, Ran, [Worked; 3])> {
    let hub = &search.hub;
    let pass = begin(rt, hub, alloc)?;
    let ran = hub.run_sim(rt, 100).ok()?;
    let (pass, first) = first_job(rt, search, pass)?;
    let second = hub.work_once(rt, &OpenGate).ok()?;
    let third = hub.work_once(rt, &OpenGate).ok()?;
    Some((pass, ran, [first, second, third]))
}

/// The same in a hub of a world, which is closed then.
fn work_of<L: NamesOpening + Send + Sync, R: Threads + Wait + Clock + Copy + Send + Sync>(
    rt: &R,
    alloc: Global,
    blank: Blank,
    history: History<Entry>,
    world: World,
) -> Option<(Ran, [Worked; 3])>
    requires name { blank.name ≡ L.name }
    requires parts { blank.parts ≡ L.parts }
    requires room { most_entries < blank.parts }
    requires opening { world.opening ≡ L.opening }
    requires empty { world.log ≡ [] }
    requires history { history.name ≡ L.history }
    requires begins { history.entries ≡ [] }
{
    let search = HeldSearch {
        hub: Hub::<L>::new(
            alloc,
            Desk::<L>::new(alloc, blank, history, world, LogArchive::Keeping),
        ),
        gate: held_gate(*rt),
    };
    let (pass, ran, jobs) = work(rt, &search, alloc)?;
    drop(close(search.hub, alloc, pass)?);
    Some((ran, jobs))
}

/// The same in a new hub.
fn work_anew<R: Threads + Wait + Clock + Copy + Send + Sync>(
    rt: &R,
    alloc: Global,
) -> Option<(Ran, [Worked; 3])> {
    let world = world_of(alloc, SWAPPED, TWO_USERS, ENTRIES)?;
    work_of::<Brand, R>(rt, alloc, blank(), History::new(), world)
}

/// What a job comes to.
fn worked(job: Option<u64>, booked: u32) -> Worked {
    Worked { job, booked }
}

#[test]
fn a_session_is_answered_during_a_search(rt: HostRuntime) {
    let ran = Ran {
        events: 12,
        idle: true,
    };
    let jobs = [worked(Some(1), 0), worked(Some(2), 2), worked(None, 0)];
    assert_eq!(rt; work_anew(&rt, rt.alloc()), Some((ran, jobs)));
}
