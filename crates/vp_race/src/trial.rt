ghost use Rattle.std.specs.Prelude.{◌≡◌, ◌++◌, ◌∷◌, [], if◌then◌else◌, false, true, None, Some, option_map, IfOk, IfSome, IsOkUnless};
ghost use Rattle.vp_race.specs.declared.error.RaceError.TheVariants.{NoMemory};
ghost use Rattle.vp_race.specs.Orders.{IsOrder, after_choices, reached, sources_of};
ghost use Rattle.vp_race.specs.Recording.{BeginsWith};
ghost use Rattle.vp_race.specs.Search.{choice, next_number, number_after, tried, tried_after, tried_from};
ghost use Rattle.vp_sim.specs.States.{State, source_of, step};

use crate::error::RaceError;
use crate::first_choice::FirstChoice;
use crate::follow::{Order, is_over};
use std::alloc::Global;
use vp_sim::{Sim, SimError};

/// The number after one, in the sequence that a seed begins (docs/FORMATS.md, "Races").
fn next_number(number: u64) -> u64
    ensures { result ≡ next_number number }
{
    number
        .wrapping_mul(6_364_136_223_846_793_005)
        .wrapping_add(1_442_695_040_888_963_407)
}

/// Which of so many events is taken, by the seed and its next number.
fn choice(seed: u64, number: u64, count: usize) -> u32
    ensures { result ≡ choice seed number count }
{
    if seed == 0 {
        u32::try_from(count.saturating_sub(1)).unwrap_or(u32::MAX)
    } else if count == 0 {
        // No step takes it.
        (number >> 33) as u32
    } else {
        ((number >> 33) % count as u64) as u32
    }
}

/// Takes the event of a choice, whose process and number are appended to an order; or reports that it is no step's, or out of memory (1207).
fn take_into(simulation: &mut Sim, order: &mut Order, choice: u32) -> Result<bool, RaceError>
    ensures taken { IfOk result (λ taken. taken ≡ true
        → reached (step simulation.old choice) ≡ Some simulation.new) }
    ensures choices { IfOk result (λ taken. taken ≡ true
        → order.new.choices.items ≡ order.old.choices.items ++ choice ∷ []) }
    ensures sources { IfOk result (λ taken. taken ≡ true
        → order.new.sources.items
        ≡ order.old.sources.items ++ source_of simulation.old choice ∷ []) }
    ensures refused { IfOk result (λ taken. taken ≡ false
        → reached (step simulation.old choice) ≡ None) }
    ensures design { simulation.new.design ≡ simulation.old.design }
    ensures memory { IsOkUnless result NoMemory }
{
    let source = match simulation.step(choice as usize) {
        Ok(stepped) => stepped.source,
        Err(SimError::NoMemory) => return Err(RaceError::NoMemory),
        Err(_) => return Ok(false),
    };
    order.sources.push(source)?;
    order.choices.push(choice)?;
    Ok(true)
}

/// The number so many turns after one.
fn number_after(turns: usize, number: u64) -> u64
    ensures { result ≡ number_after turns number }
{
    let mut after = number;
    for _turn in 0..turns {
        after = next_number(after);
    }
    after
}

/// Whether a simulation ends its time slot by at most so many steps, chosen by a seed and the numbers after this one; what it chooses is appended to an
/// order. Else a step was refused, or something is left to do after the last; or when out of memory (1207).
fn try_into(
    simulation: &mut Sim,
    order: &mut Order,
    limit: u64,
    seed: u64,
    number: u64,
) -> Result<bool, RaceError>
    ensures tried { IfOk result (λ ended. tried_after order.old.choices.items
        (tried_from limit seed number (Some simulation.old))
        ≡ (if ended then Some order.new.choices.items else None)) }
    ensures order { IfOk result (λ ended. ended ≡ true → (start : State)
        → after_choices start order.old.choices.items ≡ Some simulation.old
        → IsOrder start order.new.choices.items simulation.new) }
    ensures sources { IfOk result (λ ended. ended ≡ true → (start : State)
        → after_choices start order.old.choices.items ≡ Some simulation.old
        → order.old.sources.items ≡ sources_of start order.old.choices.items
        → order.new.sources.items ≡ sources_of start order.new.choices.items) }
    ensures design { simulation.new.design ≡ simulation.old.design }
    ensures memory { IsOkUnless result NoMemory }
{
    let mut number = number;
    for _turn in 0..limit {
        if is_over(simulation) {
            return Ok(true);
        }
        number = next_number(number);
        let choice = choice(seed, number, simulation.eligible());
        if !take_into(simulation, order, choice)? {
            return Ok(false);
        }
    }
    Ok(is_over(simulation))
}

/// The order of a seed from a segment's start on, if it has one of at most so many steps, by a simulation of its design, which stands after it then: before
/// the first choice there is but one. Or out of memory (1207).
pub fn try_order(
    alloc: Global,
    choice: &FirstChoice,
    simulation: &mut Sim,
    limit: u64,
    seed: u64,
) -> Result<Option<Order>, RaceError>
    requires { simulation.old.design ≡ choice.now.state.design }
    ensures tried { IfOk result (λ o. (start : State) → BeginsWith start choice.now
        → tried start limit seed ≡ option_map (λ order. order.choices.items) o) }
    ensures order { IfOk result (λ o. IfSome o (λ order. (start : State)
        → BeginsWith start choice.now → IsOrder start order.choices.items simulation.new)) }
    ensures sources { IfOk result (λ o. IfSome o (λ order. (start : State)
        → BeginsWith start choice.now
        → order.sources.items ≡ sources_of start order.choices.items)) }
    ensures design { simulation.new.design ≡ simulation.old.design }
    ensures memory { IsOkUnless result NoMemory }
{
    if simulation.restore(choice.state()).is_err() {
        return Err(RaceError::NoMemory);
    }
    let forced = choice.sources().len();
    let Some(limit) = limit.checked_sub(forced as u64) else {
        return Ok(None);
    };
    let mut order = Order {
        choices: vec![in alloc; 0u32; forced]?,
        sources: Vec::from_slice(alloc, choice.sources())?,
    };
    let number = number_after(forced, seed);
    if !try_into(simulation, &mut order, limit, seed, number)? {
        return Ok(None);
    }
    Ok(Some(order))
}
