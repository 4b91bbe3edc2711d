//! Steps, advances and puts of a simulation, their refusals, and copies of it.
ghost use Rattle.std.specs.Prelude.{◌≡◌, IfSome, OnSome};

use std::alloc::Global;
use vp_bits::Bits;
use vp_design::shared_of;
use vp_elab::ObjectId;
use vp_sim::{Sim, SimCheckpoint};

/// A reg `top.a` (1) and a process (2) with two assignments.
const TWICE: &str = "module top; reg a; initial begin a = 1; a = 0; end endmodule";

/// The same with nonblocking assignments.
const DEFERRED: &str = "module top; reg a; initial begin a <= 0; a <= 1; end endmodule";

/// A reg, and a process that ends the simulation.
const FINISHES: &str = "module top; reg a; initial $finish; endmodule";

/// What a call answers that changes nothing.
const NOTHING: u32 = u32::MAX;

/// A simulation of a text.
fn simulation(alloc: Global, text: &str) -> Option<Sim> {
    Sim::new(alloc, shared_of(alloc, text)?).ok()
}

/// The object that a step changes, or the number of its refusal.
fn step(simulation: &mut Sim, k: usize) -> u32 {
    match simulation.step(k) {
        Ok(stepped) => match stepped.changed {
            Some(object) => object.0,
            None => NOTHING,
        },
        Err(error) => error.code(),
    }
}

/// The number of the refusal of an advance.
fn advance(simulation: &mut Sim) -> u32 {
    match simulation.advance() {
        Ok(()) => NOTHING,
        Err(error) => error.code(),
    }
}

/// The object that a put of 1 on `top.a` changes, or the number of its refusal.
fn put(simulation: &mut Sim) -> u32 {
    match simulation.put(ObjectId(1), Bits::of_number(1, 1)) {
        Ok(Some(change)) => change.object.0,
        Ok(None) => NOTHING,
        Err(error) => error.code(),
    }
}

/// What comes of a step and an advance that are refused, of steps until nothing is left, and of two more calls.
fn turns_of(simulation: &mut Sim) -> [u32; 8] {
    [
        step(simulation, 9),
        advance(simulation),
        step(simulation, 0),
        step(simulation, 0),
        step(simulation, 0),
        step(simulation, 0),
        step(simulation, 0),
        advance(simulation),
    ]
}

/// The same of a new simulation of a text.
fn turns(alloc: Global, text: &str) -> Option<[u32; 8]> {
    let mut simulation = simulation(alloc, text)?;
    let turns = turns_of(&mut simulation);
    drop(simulation);
    Some(turns)
}

#[test]
fn steps_and_advances(rt: HostRuntime) {
    let wanted = [802, 803, 1, 1, 801, 801, 801, 801];
    assert_eq!(rt; turns(rt.alloc(), TWICE), Some(wanted));
}

#[test]
fn nonblocking_updates(rt: HostRuntime) {
    let wanted = [802, 803, NOTHING, NOTHING, 1, 1, 801, 801];
    assert_eq!(rt; turns(rt.alloc(), DEFERRED), Some(wanted));
}

/// What comes of two puts of one value, a step, and what is asked after `$finish`.
fn answers_of(simulation: &mut Sim) -> [u32; 6] {
    [
        put(simulation),
        put(simulation),
        step(simulation, 0),
        put(simulation),
        step(simulation, 0),
        advance(simulation),
    ]
}

/// The same of a new simulation.
fn answers(alloc: Global) -> Option<[u32; 6]> {
    let mut simulation = simulation(alloc, FINISHES)?;
    let answers = answers_of(&mut simulation);
    drop(simulation);
    Some(answers)
}

#[test]
fn puts_and_finish(rt: HostRuntime) {
    let wanted = [1, NOTHING, NOTHING, 804, 804, 804];
    assert_eq!(rt; answers(rt.alloc()), Some(wanted));
}

/// The process whose event comes first in a simulation.
fn first_source_of(simulation: &Sim) -> Option<ObjectId> {
    if simulation.eligible() > 0 {
        Some(simulation.source(0))
    } else {
        None
    }
}

/// The process whose event comes first.
fn first_source(alloc: Global) -> Option<ObjectId> {
    let simulation = simulation(alloc, TWICE)?;
    let source = first_source_of(&simulation);
    drop(simulation);
    source
}

#[test]
fn source_of_the_first_event(rt: HostRuntime) {
    assert_eq!(rt; first_source(rt.alloc()), Some(ObjectId(2)));
}

/// Two processes, the second of which waits for a time and for a change, a net and a nonblocking assignment.
const MIXED: &str = "module top; reg a, b; wire w; assign w = ~a; \
    initial begin a = 1; b <= 1; #3 a = 0; end always @(negedge w) b = 0; endmodule";

/// The simulation takes the first of its events, if there is one.
#[tactic(auto, using(vp_sim::specs::laws::Designs::after_step))]
fn take(simulation: &mut Sim)
    ensures { simulation.new.design ≡ simulation.old.design }
{
    let _taken = simulation.step(0).is_ok();
}

/// The simulation takes the first of its events until its time slot is done.
fn finish_slot(simulation: &mut Sim)
    ensures { simulation.new.design ≡ simulation.old.design }
{
    for _step in 0..100 {
        take(simulation);
    }
}

/// What is compared of a simulation: the values of `top.a` and `top.b`, how many events can be taken, and the time of the next future event.
type State = (Bits, Bits, usize, Option<u64>);

/// The state of a simulation.
fn state_of(simulation: &Sim) -> State {
    (
        simulation.value(ObjectId(1)),
        simulation.value(ObjectId(2)),
        simulation.eligible(),
        simulation.next_time(),
    )
}

/// The state at the start.
fn at_start() -> State {
    (Bits::unknown(1), Bits::unknown(1), 3, None)
}

/// The state at the end of the first time slot.
fn at_end() -> State {
    (Bits::of_number(1, 1), Bits::of_number(1, 1), 0, Some(3))
}

/// A simulation that goes on from a copy of another.
fn copy_of(simulation: &mut Sim) -> Option<Sim> {
    let copy = simulation.checkpoint().ok()?;
    let other = Sim::of_kept(&copy).ok();
    drop(copy);
    other
}

/// A simulation that goes on from a copy is what the original was; it runs to the end of its slot, and the original is as before.
fn is_alone(original: &Sim, copy: &mut Sim) -> bool {
    let same = state_of(copy) == at_start();
    finish_slot(copy);
    same && state_of(copy) == at_end() && state_of(original) == at_start()
}

/// The same of a simulation and its copy.
fn copy_is_alone(simulation: &mut Sim) -> Option<bool> {
    let mut copy = copy_of(simulation)?;
    let is_alone = is_alone(simulation, &mut copy);
    drop(copy);
    Some(is_alone)
}

/// The same of a new simulation and its copy.
fn copy_of_new_is_alone(alloc: Global) -> Option<bool> {
    let mut simulation = simulation(alloc, MIXED)?;
    let is_alone = copy_is_alone(&mut simulation);
    drop(simulation);
    is_alone
}

#[test]
fn copy_of_a_simulation(rt: HostRuntime) {
    assert_eq!(rt; copy_of_new_is_alone(rt.alloc()), Some(true));
}

/// A copy of a simulation that is restored later.
fn copy_to_restore(simulation: &mut Sim) -> Option<SimCheckpoint>
    ensures copy { IfSome result (λ k. k.design ≡ simulation.old.design) }
    ensures same { simulation.new ≡ simulation.old }
{
    simulation.checkpoint().ok()
}

/// The state of a simulation that goes on from a copy.
fn state_from(simulation: &mut Sim, copy: &SimCheckpoint) -> Option<State>
    requires { simulation.old.design ≡ copy.now.design }
    ensures { OnSome result (simulation.new.design ≡ simulation.old.design) }
{
    simulation.restore(copy).ok()?;
    Some(state_of(simulation))
}

/// The states of a simulation that goes on from a copy and then from another.
fn states_from(
    simulation: &mut Sim,
    first: &SimCheckpoint,
    second: &SimCheckpoint,
) -> Option<[State; 2]>
    requires first { simulation.old.design ≡ first.now.design }
    requires second { simulation.old.design ≡ second.now.design }
{
    let at_first = state_from(simulation, first)?;
    let at_second = state_from(simulation, second)?;
    Some([at_first, at_second])
}

/// The states of a simulation that runs to the end of its slot, and goes on from a copy that was made before and from one that is made then.
fn states_after_slot(simulation: &mut Sim, first: &SimCheckpoint) -> Option<[State; 2]>
    requires { simulation.old.design ≡ first.now.design }
{
    finish_slot(simulation);
    let second = copy_to_restore(simulation)?;
    let states = states_from(simulation, first, &second);
    drop(second);
    states
}

/// The same of a simulation of which the first copy is made now.
fn states_from_copies(simulation: &mut Sim) -> Option<[State; 2]> {
    let first = copy_to_restore(simulation)?;
    let states = states_after_slot(simulation, &first);
    drop(first);
    states
}

/// The same of a new simulation.
fn states_of_new(alloc: Global) -> Option<[State; 2]> {
    let mut simulation = simulation(alloc, MIXED)?;
    let states = states_from_copies(&mut simulation);
    drop(simulation);
    states
}

#[test]
fn simulation_that_goes_on_from_copies(rt: HostRuntime) {
    assert_eq!(rt; states_of_new(rt.alloc()), Some([at_start(), at_end()]));
}
