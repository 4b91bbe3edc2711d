//! Time slots of a world that are kept as segments, and what a race of one is answered that is no longer kept. A value is put in one of them, by
//! the same calls of `vp_race` that its own tests would make, so that they have no put.
ghost use Rattle.std.specs.Prelude.{◌≡◌, IfSome};
ghost use Rattle.std.specs.Arc.{arc_value};

use crate::tests::sessions::{ann_world, find_in, of_ann, open, order_in, put_in};
use std::alloc::Global;
use std::sync::Arc;
use vp_answer::Query;
use vp_elab::ObjectId;
use vp_race::{Finding, Segment, check};
use vp_text::Shared;
use vp_world::{Event, World, WorldError};

/// Regs `top.a` (1), `top.b` (2) and `top.c` (3), and two processes that race for `a` and `b` at time 5.
const SWAPPED: &str = "module top;\n  reg a, b, c;\n\
      initial begin a = 0; b = 1; c = 0; #5 c = 1; end\n\
      always @(posedge c) a = b;\n  always @(posedge c) b = a;\nendmodule\n";

/// The simulation takes the first of its events.
fn step(world: &mut World) -> Option<()> {
    world.apply(Event::Step(0)).ok().and(Some(()))
}

/// The simulation takes the first of its events, so often.
fn steps(world: &mut World, count: u64) -> Option<()> {
    for _step in 0..count {
        step(world)?;
    }
    Some(())
}

/// Ann opens a session and asks for a run until a time.
fn begin_run(alloc: Global, world: &mut World, until: u64) -> Option<()> {
    open(alloc, world)?;
    order_in(world, of_ann(1), Query::Run { until })
}

/// The simulation goes on to the time of the race, and takes its first step.
fn go_to_race(world: &mut World) -> Option<()> {
    steps(world, 6)?;
    world.apply(Event::Advance).ok().and(Some(()))?;
    steps(world, 1)
}

/// After that Ann gives `top.a` a value.
fn put_in_race(alloc: Global, world: &mut World) -> Option<()> {
    go_to_race(world)?;
    find_in(alloc, world, of_ann(1), "top.a")?;
    put_in(alloc, world, of_ann(1), "1")?;
    steps(world, 4)
}

/// The kept segment of a number, to be shared.
fn segment_of(alloc: Global, world: &World, number: u64) -> Option<Arc<Segment>> {
    let segment = world.kept(number)?.try_clone(alloc).ok()?;
    Arc::new(alloc, segment).ok()
}

/// The segment of the race after Ann gave `top.a` a value in it.
fn race_in(alloc: Global, world: &mut World) -> Option<Arc<Segment>> {
    begin_run(alloc, world, 10)?;
    put_in_race(alloc, world)?;
    segment_of(alloc, world, 2)
}

/// The same in a new world.
fn race(alloc: Global) -> Option<Arc<Segment>> {
    let mut world = ann_world(alloc, SWAPPED)?;
    let segment = race_in(alloc, &mut world);
    drop(world);
    segment
}

/// How that segment begins: its number, its time, and whether these are its choices, of which the first comes after the put.
fn beginning_after_put(alloc: Global, order: &[u32]) -> Option<(u64, u64, bool)> {
    let segment = race(alloc)?;
    let beginning = (
        segment.number(),
        segment.time(),
        segment.order(alloc).ok()?.as_slice() == order,
    );
    drop(segment);
    Some(beginning)
}

#[test]
fn a_segment_begins_anew_with_a_put(rt: HostRuntime) {
    assert_eq!(rt;
        beginning_after_put(rt.alloc(), &[0, 0, 0, 0]),
        Some((2, 5, true))
    );
}

/// A reg `top.a` (1) for which two processes race at time 0, and one that changes at each time.
const RACED: &str =
    "module top; reg a, t; initial a = 0; initial a = 1; always #1 t = 1; endmodule";

/// The first segment, to be shared.
fn first_segment(alloc: Global, world: &World) -> Option<Arc<Segment>>
    ensures { IfSome result (λ s. (arc_value s).start.design ≡ world.now.opening.design) }
{
    let segment = world.next_job()?.try_clone(alloc).ok()?;
    Arc::new(alloc, segment).ok()
}

/// The race for `top.a` in that segment, to be booked.
fn race_of(alloc: Global, segment: &Arc<Segment>) -> Option<Shared<Finding>>
    ensures { IfSome result (λ f. f.segment ≡ arc_value segment.now) }
{
    let choices = Vec::from_slice(alloc, &[1, 0, 0]).ok()?;
    let finding = check(alloc, segment, choices, ObjectId(1)).ok()?;
    Shared::new(alloc, finding).ok()
}

/// The simulation takes its first event, or goes on, if the world lets it.
fn go_on(world: &mut World)
    ensures { world.new.opening ≡ world.old.opening }
{
    if world.step(0).is_err() {
        let _gone = world.advance().is_ok();
    }
}

/// So many events of the simulation.
fn events(world: &mut World, count: u64)
    ensures { world.new.opening ≡ world.old.opening }
{
    for _event in 0..count {
        go_on(world);
    }
}

/// What is answered where a race is booked: the number of the refusal, and that of the book; twice 0 where it is booked.
fn booking(world: &mut World, race: Shared<Finding>) -> (u32, u32)
    requires { race.segment.start.design ≡ world.old.opening.design }
{
    // Read, so that the check knows that it is a race.
    let _segment = race.value().segment();
    match world.apply(Event::Book(race)).err() {
        None => (0, 0),
        Some(WorldError::Race(error)) => (WorldError::Race(error).code(), error.code()),
        Some(error) => (error.code(), 0),
    }
}

/// What is answered where the race of the first time slot is booked after so many more, of three events each.
fn booking_in(alloc: Global, world: &mut World, slots: u64) -> Option<(u32, u32)> {
    begin_run(alloc, world, 1_000)?;
    steps(world, 3)?;
    let segment = first_segment(alloc, world)?;
    events(world, slots.saturating_mul(3));
    let race = race_of(alloc, &segment);
    drop(segment);
    Some(booking(world, race?))
}

/// The same of a new world.
fn booking_after(alloc: Global, slots: u64) -> Option<(u32, u32)> {
    let mut world = ann_world(alloc, RACED)?;
    let answer = booking_in(alloc, &mut world, slots);
    drop(world);
    answer
}

#[test]
fn race_of_a_segment_that_is_gone(rt: HostRuntime) {
    assert_eq!(rt; booking_after(rt.alloc(), 255), Some((0, 0)));
    assert_eq!(rt; booking_after(rt.alloc(), 256), Some((1309, 1204)));
}
