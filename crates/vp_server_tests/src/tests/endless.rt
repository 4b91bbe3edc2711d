//! A session beside a simulation that never ends.
ghost use Rattle.std.specs.Prelude.{◌≡◌, ◌<◌, []};
ghost use Rattle.vp_world.specs.History.{most_entries};

use crate::tests::calls::{close, open, order, refusal_of};
use crate::tests::hubs::{ENDLESS, TWO_USERS, blank, world_of};
use crate::tests::stage::Stage;
use std::alloc::Global;
use std::marker::Brand;
use std::sync::Wait;
use std::sync::ledger::Blank;
use std::thread;
use std::thread::Threads;
use vp_answer::{Call, Query};
use vp_hub::{Closed, Desk, History, Hub, LogArchive, NamesOpening, Pass};
use vp_world::{Entry, Log, LoggedEvent, World};

/// The log holds so many entries: enough that the simulation is not over before a thread that was woken comes to run.
const ENTRIES: u32 = 262_144;

/// So far a session lets the design run.
const UNTIL: u64 = 1_000_000;

/// What is left of a hub, and the numbers of the refusals by which a simulation ended and two calls.
#[derive(Drop)]
struct Ended {
    closed: Closed,
    run: (u32, u32),
    call: (u32, u32),
    later_call: (u32, u32),
}

/// A session asks for the time until it is refused: its pass, and the numbers of the refusal.
fn call_on<L: NamesOpening, R: Wait>(rt: &R, hub: &Hub<L>, pass: Pass<L>) -> (Pass<L>, (u32, u32)) {
    let mut pass = pass;
    for _call in 0..ENTRIES {
        let (back, answer) = hub.call(rt, pass, Call::Query(Query::Time));
        pass = back;
        if answer.is_err() {
            return (pass, refusal_of(answer));
        }
    }
    (pass, (0, 0))
}

/// A session asks so on one thread while the design runs on another: its pass, and the refusals' numbers of the run and of a call.
fn beside<L: NamesOpening + Send + Sync, R: Threads + Wait + Sync>(
    rt: &R,
    stage: &Stage<L>,
    pass: Pass<L>,
) -> (Pass<L>, (u32, u32), (u32, u32)) {
    let (run, (pass, call)) = thread::join(
        rt,
        move || {
            stage.start.wait(rt);
            refusal_of(stage.hub.run_sim(rt, u64::MAX))
        },
        move || {
            stage.start.wait(rt);
            call_on(rt, &stage.hub, pass)
        },
    );
    (pass, run, call)
}

/// What is left of a hub of a world after that, and another call.
fn end_anew_of<L: NamesOpening + Send + Sync, R: Threads + Wait + Sync>(
    rt: &R,
    alloc: Global,
    blank: Blank,
    history: History<Entry>,
    world: World,
) -> Option<Ended>
    requires name { blank.name ≡ L.name }
    requires parts { blank.parts ≡ L.parts }
    requires room { most_entries < blank.parts }
    requires opening { world.opening ≡ L.opening }
    requires empty { world.log ≡ [] }
    requires history { history.name ≡ L.history }
    requires begins { history.entries ≡ [] }
{
    let hub = Hub::<L>::new(
        alloc,
        Desk::<L>::new(alloc, blank, history, world, LogArchive::Keeping),
    );
    let pass = open(rt, &hub, alloc, "ann", "t1")?;
    let pass = order(rt, &hub, pass, Query::Run { until: UNTIL })?;
    let stage = Stage::new(alloc, hub);
    let (pass, run, call) = beside(rt, &stage, pass);
    let hub = stage.into_hub();
    let (pass, answer) = hub.call(rt, pass, Call::Query(Query::Time));
    Some(Ended {
        closed: close(hub, alloc, pass)?,
        run,
        call,
        later_call: refusal_of(answer),
    })
}

/// The same of a new hub.
fn end_anew<R: Threads + Wait + Sync>(rt: &R, alloc: Global) -> Option<Ended> {
    let world = world_of(alloc, ENDLESS, TWO_USERS, ENTRIES)?;
    end_anew_of::<Brand, R>(rt, alloc, blank(), History::new(), world)
}

/// An entry is of the simulation.
fn is_of_simulation(entry: &Entry) -> bool {
    matches!(
        entry.happening,
        LoggedEvent::Step { .. } | LoggedEvent::StepWithChange { .. } | LoggedEvent::Advance
    )
}

/// How many entries of a log are of requests that stand between two entries of the simulation.
fn count_between(log: &Log) -> usize {
    let mut has_begun = false;
    let mut waiting = 0usize;
    let mut count = 0usize;
    for index in 0..log.len() {
        let mut made = Entry::blank();
        let entry = log.entry(index, &mut made);
        if is_of_simulation(entry) {
            has_begun = true;
            count = count.saturating_add(waiting);
            waiting = 0;
        } else if has_begun {
            waiting = waiting.saturating_add(1);
        }
    }
    count
}

/// The same of a new hub, if its log is full then, and for that the run, the session and a call after them were refused.
fn between<R: Threads + Wait + Sync>(rt: &R, alloc: Global) -> Option<usize> {
    let ended = end_anew(rt, alloc)?;
    let full = (1403, 1304);
    let are_refused = ended.run == full && ended.call == full && ended.later_call == full;
    let count = count_between(ended.closed.log());
    drop(ended);
    if are_refused { Some(count) } else { None }
}

/// How many they are in the first of ten hubs in which they are some: a thread may come too late in one.
fn some_between<R: Threads + Wait + Sync>(rt: &R, alloc: Global) -> Option<usize> {
    for _hub in 0..10 {
        let count = between(rt, alloc)?;
        if count >= 2 {
            return Some(count);
        }
    }
    None
}

#[test]
fn each_event_takes_the_lock(rt: HostRuntime) {
    assert!(rt; some_between(&rt, rt.alloc()).is_some());
}
