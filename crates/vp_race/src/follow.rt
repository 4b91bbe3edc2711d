ghost use Rattle.std.specs.Prelude.{◌≡◌, ◌++◌, length, replicate, Some, IfErr, IfOk, OnOk, IsOkUnless};
ghost use Rattle.vp_race.specs.Segments.{choices_refusal};
ghost use Rattle.vp_text.specs.Refusals.{MayExplain};
ghost use Rattle.vp_race.specs.declared.error.RaceError.TheVariants.{NoMemory};
ghost use Rattle.vp_race.specs.Orders.{HasEnd, after_choices, is_over, is_signal, reached, sources_of};
ghost use Rattle.vp_sim.specs.States.{source_of, step};

use crate::error::RaceError;
use crate::first_choice::FirstChoice;
use std::alloc::Global;
use vp_elab::{Kind, ObjectId};
use vp_sim::{Sim, SimError};

/// An order of a segment's events: its choices, and whose events they take.
#[derive(Drop)]
pub struct Order {
    pub choices: Vec<u32>,
    pub sources: Vec<ObjectId>,
}

/// Nothing is left to do in the time slot of a simulation.
pub fn is_over(simulation: &Sim) -> bool
    ensures { result ≡ is_over simulation.now }
{
    simulation.finished() || simulation.slot_done()
}

/// An object is a net or a reg of a simulation's design.
pub fn is_signal(simulation: &Sim, object: ObjectId) -> bool
    ensures { result ≡ is_signal simulation.now object.0 }
{
    match simulation.design().kind(object) {
        Some(Kind::Net | Kind::Reg) => true,
        _ => false,
    }
}

/// Takes the event of a choice, and reports whose it is. Refused where the choice is no step's (1201), or out of memory (1207).
fn take(simulation: &mut Sim, choice: u32) -> Result<ObjectId, RaceError>
    ensures ok { OnOk result (reached (step simulation.old choice) ≡ Some simulation.new) }
    ensures source { IfOk result (λ source. source ≡ source_of simulation.old choice) }
    ensures refused { IfErr result (MayExplain NoMemory
        (choices_refusal (reached (step simulation.old choice)))) }
{
    match simulation.step(choice as usize) {
        Ok(stepped) => Ok(stepped.source),
        Err(SimError::NoMemory) => Err(RaceError::NoMemory),
        Err(_) => Err(RaceError::NotAnOrder),
    }
}

/// Takes the events of these choices, one after another, and appends whose they are. Refused where a choice is no step's (1201), or for want of
/// memory (1207).
pub fn follow(
    simulation: &mut Sim,
    choices: &[u32],
    sources: &mut Vec<ObjectId>,
) -> Result<(), RaceError>
    ensures leads { OnOk result (after_choices simulation.old choices.now ≡ Some simulation.new) }
    ensures sources { OnOk result (sources.new.items
        ≡ sources.old.items ++ sources_of simulation.old choices.now) }
    ensures refused { IfErr result (MayExplain NoMemory
        (choices_refusal (after_choices simulation.old choices.now))) }
{
    for choice in choices {
        let source = take(simulation, *choice)?;
        sources.push(source)?;
    }
    Ok(())
}

/// The order that the run took in a segment, with its sources, from its first choice, at which a simulation stands; or out of memory (1207).
pub fn run_order(
    alloc: Global,
    choice: &FirstChoice,
    simulation: &mut Sim,
) -> Result<Order, RaceError>
    requires end { HasEnd choice.now.state choice.now.order }
    requires stands { simulation.old ≡ choice.now.state }
    ensures leads { OnOk result
        (after_choices choice.now.state choice.now.order ≡ Some simulation.new) }
    ensures choices { IfOk result (λ o. o.choices.items
        ≡ replicate (length choice.now.sources) 0 ++ choice.now.order) }
    ensures sources { IfOk result (λ o. o.sources.items
        ≡ choice.now.sources ++ sources_of choice.now.state choice.now.order) }
    ensures refused { IsOkUnless result NoMemory }
{
    let choices = choice.whole_order(alloc)?;
    let mut sources = Vec::from_slice(alloc, choice.sources())?;
    follow(simulation, choice.order(), &mut sources)?;
    Ok(Order { choices, sources })
}
