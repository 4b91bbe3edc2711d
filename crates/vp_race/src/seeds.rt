ghost use Rattle.std.specs.Prelude.{◌≡◌, ◌++◌, length, IfOk, OnOk, IsOkUnless};
ghost use Rattle.std.specs.Arc.{arc_value};
ghost use Rattle.std.specs.List.{All};
ghost use Rattle.vp_race.specs.declared.error.RaceError.TheVariants.{NoMemory};
ghost use Rattle.vp_race.specs.Recording.{IsFirstOf};
ghost use Rattle.vp_race.specs.Search.{IsRunOf, found, found_by, tried};

use crate::error::RaceError;
use crate::finding::Finding;
use crate::findings::Findings;
use crate::first_choice::FirstChoice;
use crate::follow::{Order, run_order};
use crate::gate::Gate;
use crate::pair::{OrderPair, SegmentOrders};
use crate::segment::Segment;
use crate::trial::try_order;
use std::alloc::Global;
use std::sync::Arc;
use vp_sim::Sim;

/// Tries the order of a seed by a simulation, and finds what differs after it from another that stands after the run's order; or out of memory
/// (1207).
fn try_seed(
    alloc: Global,
    segment: &Arc<Segment>,
    choice: &FirstChoice,
    run: &Arc<Order>,
    first: &Sim,
    simulation: &mut Sim,
    limit: u64,
    seed: u64,
    findings: &mut Findings,
) -> Result<(), RaceError>
    requires choice { IsFirstOf (arc_value segment.now) choice.now }
    requires run { let order = arc_value run.now in
        IsRunOf (arc_value segment.now) order.choices.items order.sources.items first.now }
    requires design { simulation.old.design ≡ choice.now.state.design }
    requires objects { findings.old.objects ≡ length first.now.design.tree.nodes }
    ensures found { OnOk result (findings.new.findings ≡ findings.old.findings
        ++ found_by (arc_value segment.now) first.now findings.old.findings
        (tried (arc_value segment.now).start limit seed)) }
    ensures objects { findings.new.objects ≡ findings.old.objects }
    ensures design { simulation.new.design ≡ simulation.old.design }
    ensures memory { IsOkUnless result NoMemory }
{
    let _number = segment.number();
    let Some(order) = try_order(alloc, choice, simulation, limit, seed)? else {
        return Ok(());
    };
    let orders = OrderPair {
        first: Arc::try_clone(run)?,
        second: Arc::new(alloc, order)?,
    };
    let beside = SegmentOrders {
        segment: Arc::try_clone(segment)?,
        orders,
    };
    findings.find_after(&beside, first, simulation)
}

/// The same as `search`, by a simulation after the run's order, which is given, and by one of the same design.
fn search_by<G: Gate>(
    alloc: Global,
    segment: &Arc<Segment>,
    choice: &FirstChoice,
    run: &Arc<Order>,
    first: &Sim,
    simulation: &mut Sim,
    seeds: u64,
    limit: u64,
    gate: &G,
) -> Result<Vec<Finding>, RaceError>
    requires choice { IsFirstOf (arc_value segment.now) choice.now }
    requires run { let order = arc_value run.now in
        IsRunOf (arc_value segment.now) order.choices.items order.sources.items first.now }
    requires design { simulation.old.design ≡ choice.now.state.design }
    ensures found { G.stays_open gate.now → IfOk result (λ findings. findings.items
        ≡ found (arc_value segment.now) limit seeds) }
    ensures segment { IfOk result (λ findings. All (λ f. f.segment ≡ arc_value segment.now)
        findings.items) }
    ensures memory { IsOkUnless result NoMemory }
{
    let mut findings = Findings::new(alloc, first.design().count())?;
    let mut is_open = gate.turn();
    for seed in 0..seeds {
        if !is_open {
            break;
        }
        try_seed(
            alloc,
            segment,
            choice,
            run,
            first,
            simulation,
            limit,
            seed,
            &mut findings,
        )?;
        is_open = gate.turn();
    }
    Ok(findings.into_vec())
}

/// The same as `search`, from the segment's first choice, at which a simulation stands.
fn search_from<G: Gate>(
    alloc: Global,
    segment: &Arc<Segment>,
    choice: &FirstChoice,
    first: &mut Sim,
    seeds: u64,
    limit: u64,
    gate: &G,
) -> Result<Vec<Finding>, RaceError>
    requires choice { IsFirstOf (arc_value segment.now) choice.now }
    requires stands { first.old ≡ choice.now.state }
    ensures found { G.stays_open gate.now → IfOk result (λ findings. findings.items
        ≡ found (arc_value segment.now) limit seeds) }
    ensures segment { IfOk result (λ findings. All (λ f. f.segment ≡ arc_value segment.now)
        findings.items) }
    ensures memory { IsOkUnless result NoMemory }
{
    let run = Arc::new(alloc, run_order(alloc, choice, first)?)?;
    let Ok(end) = first.checkpoint() else {
        return Err(RaceError::NoMemory);
    };
    // Made after the run's order, when most processes wait: so they are listeners in their order, and not as each order comes to them.
    let Ok(mut simulation) = Sim::of_kept(&end) else {
        return Err(RaceError::NoMemory);
    };
    search_by(
        alloc,
        segment,
        choice,
        &run,
        first,
        &mut simulation,
        seeds,
        limit,
        gate,
    )
}

/// The races of a segment that the orders of so many seeds show, each of at most so many steps: each net and reg once, by seed and then by number. The gate
/// is asked once before, and once after each order that was tried; where it answers no, what was found till then is the answer. A segment in
/// which the run never had a choice has one order, and none is tried. The only refusal is out of memory (1207).
pub fn search<G: Gate>(
    alloc: Global,
    segment: &Arc<Segment>,
    seeds: u64,
    limit: u64,
    gate: &G,
) -> Result<Vec<Finding>, RaceError>
    ensures found { G.stays_open gate.now → IfOk result (λ findings. findings.items
        ≡ found (arc_value segment.now) limit seeds) }
    ensures segment { IfOk result (λ findings. All (λ f. f.segment ≡ arc_value segment.now)
        findings.items) }
    ensures memory { IsOkUnless result NoMemory }
{
    let Some(choice) = segment.first_choice() else {
        gate.turn();
        return Ok(Vec::new(alloc));
    };
    let Ok(mut first) = Sim::of_kept(choice.state()) else {
        return Err(RaceError::NoMemory);
    };
    search_from(alloc, segment, choice, &mut first, seeds, limit, gate)
}
