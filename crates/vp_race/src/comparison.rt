ghost use Rattle.std.specs.Prelude.{◌≡◌, ◌++◌, ℕ, List, length, replicate, if◌then◌else◌, false, true, None, Some, IfErr, IfOk, OnOk, IsOkUnless};
ghost use Rattle.std.specs.Arc.{arc_value};
ghost use Rattle.vp_text.specs.Refusals.{MayExplain};
ghost use Rattle.vp_race.specs.declared.error.RaceError.TheVariants.{NoMemory};
ghost use Rattle.vp_elab.specs.declared.object.ObjectId.{ObjectId};
ghost use Rattle.vp_sim.specs.States.{State};
ghost use Rattle.vp_race.specs.Orders.{after_choices, differs, has_choice, is_over};
ghost use Rattle.vp_race.specs.Recording.{Forced, IsFirstOf};
ghost use Rattle.vp_race.specs.Search.{IsChecked, finding_of};
ghost use Rattle.vp_race.specs.Segments.{apart, check_refusal, order_refusal};

use crate::error::RaceError;
use crate::finding::Finding;
use crate::first_choice::FirstChoice;
use crate::follow::{Order, follow, is_over, is_signal, run_order};
use crate::pair::{OrderPair, SegmentOrders};
use crate::segment::Segment;
use std::alloc::Global;
use std::sync::Arc;
use vp_bits::Bits;
use vp_elab::ObjectId;
use vp_sim::Sim;

/// The values of a net or reg in two simulations of one design, if they are different.
fn values_apart(first: &Sim, second: &Sim, object: ObjectId) -> Option<(Bits, Bits)>
    ensures { result ≡ apart first.now second.now object.0 }
{
    if !is_signal(first, object) {
        return None;
    }
    let value = first.value(object);
    let other = second.value(object);
    if value == other {
        return None;
    }
    Some((value, other))
}

/// The finding of an object, if it is a net or reg that has different values in the simulations after two orders; or out of memory
/// (1207).
pub fn finding_at(
    beside: &SegmentOrders,
    first: &Sim,
    second: &Sim,
    object: ObjectId,
) -> Result<Option<Finding>, RaceError>
    requires first { let segment = beside.now.segment in
        after_choices segment.start segment.order ≡ Some first.now }
    requires second { let segment = beside.now.segment in
        after_choices segment.start beside.now.second ≡ Some second.now }
    ensures found { IfOk result (λ f. f ≡ (if differs first.now second.now object.0
        then Some (finding_of beside.now.segment beside.now.second object.0) else None)) }
    ensures memory { IsOkUnless result NoMemory }
{
    let _run = beside.segment();
    let _other = beside.orders();
    let Some(values) = values_apart(first, second, object) else {
        return Ok(None);
    };
    let beside = beside.try_clone()?;
    Ok(Some(Finding {
        beside,
        object,
        values,
    }))
}

/// What these choices have after as many steps as were the only ones there were. Refused where one of them takes another event (1201), or where they end
/// before (1202).
fn rest_after(choices: &[u32], forced: usize) -> Result<&[u32], RaceError>
    ensures rest { IfOk result (λ rest. choices.now ≡ replicate forced 0 ++ rest.now) }
    ensures refused { IfErr result (λ e. (start end : State) → (sources : List ObjectId)
        → length sources ≡ forced → Forced (Some start) sources end
        → order_refusal (after_choices start choices.now) ≡ Some e) }
{
    for index in 0..choices.len().min(forced) {
        if choices[index] != 0 {
            return Err(RaceError::NotAnOrder);
        }
    }
    match choices.get(forced..) {
        Some(rest) => Ok(rest),
        None => Err(RaceError::NotComplete),
    }
}

/// Why choices are no race of a segment in which the run never had a choice.
fn refusal_without_choice(segment: &Segment, choices: &[u32]) -> RaceError
    requires { has_choice segment.now.start segment.now.order ≡ false }
    ensures { (object : ℕ) → check_refusal segment.now choices.now object ≡ Some result }
{
    let _number = segment.number();
    match rest_after(choices, segment.forced() as usize) {
        Ok(rest) if rest.is_empty() => RaceError::SameValue,
        Ok(_) => RaceError::NotAnOrder,
        Err(error) => error,
    }
}

/// A segment with an order beside the run's, where these choices are one, by two simulations that stand at the segment's first choice: the first takes the
/// run's order, and the second the other. Refused where a choice is no step's (1201), where something is left to do after the last (1202), or
/// when out of memory (1207).
#[tactic(auto, using(crate::proofs::Refused::memory_refused, crate::proofs::Refused::choices_refused))]
fn pair_of(
    alloc: Global,
    segment: &Arc<Segment>,
    choice: &FirstChoice,
    first: &mut Sim,
    second: &mut Sim,
    choices: Vec<u32>,
) -> Result<SegmentOrders, RaceError>
    requires choice { IsFirstOf (arc_value segment.now) choice.now }
    requires first { first.old ≡ choice.now.state }
    requires second { second.old ≡ choice.now.state }
    ensures pair { IfOk result (λ p. p ≡ record {
      segment = arc_value segment.now;
      second = choices.items;
    }) }
    ensures first { let segment = arc_value segment.now in OnOk result
        (after_choices segment.start segment.order ≡ Some first.new) }
    ensures second { OnOk result
        (after_choices (arc_value segment.now).start choices.items ≡ Some second.new) }
    ensures over { OnOk result (is_over second.new ≡ true) }
    ensures refused { IfErr result (MayExplain NoMemory
        (order_refusal (after_choices (arc_value segment.now).start choices.items))) }
{
    let run = run_order(alloc, choice, first)?;
    let rest = rest_after(&choices, choice.sources().len())?;
    let mut sources = Vec::from_slice(alloc, choice.sources())?;
    follow(second, rest, &mut sources)?;
    if !is_over(second) {
        return Err(RaceError::NotComplete);
    }
    let orders = OrderPair {
        first: Arc::new(alloc, run)?,
        second: Arc::new(alloc, Order { choices, sources })?,
    };
    Ok(SegmentOrders {
        segment: Arc::try_clone(segment)?,
        orders,
    })
}

/// The same as `check`, by two simulations that stand at the segment's first choice.
fn check_by(
    alloc: Global,
    segment: &Arc<Segment>,
    choice: &FirstChoice,
    first: &mut Sim,
    second: &mut Sim,
    choices: Vec<u32>,
    object: ObjectId,
) -> Result<Finding, RaceError>
    requires choice { IsFirstOf (arc_value segment.now) choice.now }
    requires first { first.old ≡ choice.now.state }
    requires second { second.old ≡ choice.now.state }
    ensures found { IfOk result (λ f. f
        ≡ finding_of (arc_value segment.now) choices.items object.0) }
    ensures accepted { OnOk result
        (check_refusal (arc_value segment.now) choices.items object.0 ≡ None) }
    ensures refused { IfErr result (MayExplain NoMemory
        (check_refusal (arc_value segment.now) choices.items object.0)) }
{
    let _number = segment.number();
    let beside = pair_of(alloc, segment, choice, first, second, choices)?;
    match finding_at(&beside, first, second, object)? {
        Some(finding) => Ok(finding),
        None => Err(RaceError::SameValue),
    }
}

/// The same as `check`, from the segment's first choice, at which a simulation stands.
fn check_from(
    alloc: Global,
    segment: &Arc<Segment>,
    choice: &FirstChoice,
    first: &mut Sim,
    choices: Vec<u32>,
    object: ObjectId,
) -> Result<Finding, RaceError>
    requires choice { IsFirstOf (arc_value segment.now) choice.now }
    requires stands { first.old ≡ choice.now.state }
    ensures { IsChecked (arc_value segment.now) choices.items object.0 result }
{
    let Ok(mut second) = Sim::of_kept(choice.state()) else {
        return Err(RaceError::NoMemory);
    };
    check_by(alloc, segment, choice, first, &mut second, choices, object)
}

/// The finding of an object, where these choices are an order of the segment's time slot after which it has another value than after the
/// run's. Refused where a choice is no step's (1201), where something is left to do after the last (1202), where the object is no net or reg or has
/// the same value (1203), or out of memory (1207).
pub fn check(
    alloc: Global,
    segment: &Arc<Segment>,
    choices: Vec<u32>,
    object: ObjectId,
) -> Result<Finding, RaceError>
    ensures { IsChecked (arc_value segment.now) choices.items object.0 result }
{
    let Some(choice) = segment.first_choice() else {
        return Err(refusal_without_choice(segment, &choices));
    };
    let Ok(mut first) = Sim::of_kept(choice.state()) else {
        return Err(RaceError::NoMemory);
    };
    check_from(alloc, segment, choice, &mut first, choices, object)
}
