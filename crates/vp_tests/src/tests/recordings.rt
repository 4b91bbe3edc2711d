//! Simulations whose time slots are recorded as segments.

use std::alloc::Global;
use std::sync::Arc;
use vp_design::shared_of;
use vp_race::{Recording, Segment};

/// Regs `top.a` (1), `top.b` (2) and `top.c` (3), and two processes that race for `a` and `b` at time 5.
pub const SWAPPED: &str = "module top;\n  reg a, b, c;\n\
      initial begin a = 0; b = 1; c = 0; #5 c = 1; end\n\
      always @(posedge c) a = b;\n  always @(posedge c) b = a;\nendmodule\n";

/// A new recorded simulation of a text.
pub fn recording(alloc: Global, text: &str) -> Option<Recording> {
    Recording::new(alloc, shared_of(alloc, text)?).ok()
}

/// The run takes the first of its events.
fn step(run: &mut Recording) -> Option<()> {
    if run.count() > 1000 {
        return None;
    }
    run.step(0).ok()?;
    Some(())
}

/// The run takes the first of its events, so often.
pub fn steps(run: &mut Recording, count: u64) -> Option<()> {
    for _step in 0..count {
        step(run)?;
    }
    Some(())
}

/// The run goes on to the time of the next event.
fn advance(run: &mut Recording) -> Option<()> {
    run.advance().ok()
}

/// The run ends the slot of time 0, and goes on to the time at which the processes race.
fn begin_race(run: &mut Recording) -> Option<()> {
    steps(run, 6)?;
    advance(run)
}

/// A kept segment, to be shared.
pub fn segment_of(alloc: Global, run: &Recording, number: u64) -> Option<Arc<Segment>> {
    let segment = run.kept(number)?.try_clone(alloc).ok()?;
    Arc::new(alloc, segment).ok()
}

/// The segment in which the processes race, as the run goes through it.
fn race_in(alloc: Global, run: &mut Recording) -> Option<Arc<Segment>> {
    begin_race(run)?;
    steps(run, 5)?;
    segment_of(alloc, run, 2)
}

/// The same of a new run.
pub fn race(alloc: Global) -> Option<Arc<Segment>> {
    let mut run = recording(alloc, SWAPPED)?;
    let segment = race_in(alloc, &mut run);
    drop(run);
    segment
}

/// The segment of the race has the number, the time and the choices that are expected.
fn race_is(alloc: Global, number: u64, time: u64, order: &[u32]) -> Option<bool> {
    let segment = race(alloc)?;
    let is_expected = (
        segment.number(),
        segment.time(),
        segment.order(alloc).ok()?.as_slice(),
    ) == (number, time, order);
    drop(segment);
    Some(is_expected)
}

#[test]
fn segment_of_a_slot(rt: HostRuntime) {
    assert_eq!(rt; race_is(rt.alloc(), 2, 5, &[0, 0, 0, 0, 0]), Some(true));
}

/// The number of the job that is handed out next, and the number that is handed out.
fn next_jobs(run: &mut Recording) -> (Option<u64>, Option<u64>) {
    let next = run.next_job().map(|segment| segment.number());
    (next, run.take_job())
}

/// What is handed out after the first slot, twice, and after the second.
fn jobs_in(run: &mut Recording) -> Option<[(Option<u64>, Option<u64>); 3]> {
    begin_race(run)?;
    let first = next_jobs(run);
    let none = next_jobs(run);
    steps(run, 5)?;
    Some([first, none, next_jobs(run)])
}

/// The same of a new run.
fn jobs(alloc: Global) -> Option<[(Option<u64>, Option<u64>); 3]> {
    let mut run = recording(alloc, SWAPPED)?;
    let jobs = jobs_in(&mut run);
    drop(run);
    jobs
}

#[test]
fn jobs_in_order(rt: HostRuntime) {
    let wanted = [(Some(1), Some(1)), (None, None), (Some(2), Some(2))];
    assert_eq!(rt; jobs(rt.alloc()), Some(wanted));
}

/// A reg that changes at each time.
const CLOCK: &str = "module top; reg a; always #1 a = 1; endmodule";

/// The run ends so many slots more, of two events each.
fn next_slots(run: &mut Recording, count: u64) -> Option<()> {
    for _slot in 0..count {
        advance(run)?;
        steps(run, 2)?;
    }
    Some(())
}

/// Whether the first two segments are kept, after the first slot and so many more.
fn are_kept_in(run: &mut Recording, slots: u64) -> Option<(bool, bool)> {
    steps(run, 1)?;
    next_slots(run, slots)?;
    Some((run.kept(1).is_some(), run.kept(2).is_some()))
}

/// The same of a new run.
fn are_kept(alloc: Global, slots: u64) -> Option<(bool, bool)> {
    let mut run = recording(alloc, CLOCK)?;
    let are_kept = are_kept_in(&mut run, slots);
    drop(run);
    are_kept
}

#[test]
fn last_segments_are_kept(rt: HostRuntime) {
    assert_eq!(rt; are_kept(rt.alloc(), 255), Some((true, true)));
    assert_eq!(rt; are_kept(rt.alloc(), 256), Some((false, true)));
}
