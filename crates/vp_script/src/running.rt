// A world whose simulation runs, and what it does is searched for races.
ghost use Rattle.std.specs.Prelude.{◌≡◌, ◌++◌, ◌⊎◌, ℕ, [], None, Some, option_map, IfErr, IfOk, OnErr, OnOk, is_err, is_none, false, true};
ghost use Rattle.std.specs.Arc.{arc_value};
ghost use Rattle.std.specs.List.{All};
ghost use Rattle.vp_elab.specs.Built.{Elaborated};
ghost use Rattle.vp_race.specs.Search.{found};
ghost use Rattle.vp_world.specs.Events.{IsWellFormed};
ghost use Rattle.vp_world.specs.History.{Applies, IsLegal, refused_by, with_entry};
ghost use Rattle.vp_world.specs.declared.error.WorldError.TheVariants.{NoMemory};
ghost use Rattle.vp_world.specs.declared.event.Event.TheVariants as event;
ghost use Rattle.vp_script.specs.Pending.{ArePending, HappensTo, is_no_memory, pending, running_of};
ghost use Rattle.vp_script.specs.Scripts.{Applied, Runs, next_event, searched, step_limit, turned, with_event_if, with_world};

use std::alloc::{AllocError, Global};
use std::collections::VecDeque;
use std::marker::Model;
use std::sync::Arc;
use vp_answer::{Refusal, Reply};
use vp_race::{Finding, OpenGate, Segment, search};
use vp_sim::SimError;
use vp_text::Shared;
use vp_world::{Event, Log, World, WorldError};

/// A search tries orders of at most so many steps.
const STEP_LIMIT: u64 = 10_000;

/// What a world answers to the event of a request, or says where it refuses it; a request that is none is refused.
fn applied(world: &mut World, event: Result<Event, Refusal>) -> Reply
    requires { IfOk event (IsWellFormed world.old.opening.design) }
    ensures { Applied (is_no_memory result) event world.old result world.new }
{
    let event = match event {
        Ok(event) => event,
        Err(refusal) => return Reply::Error(refusal),
    };
    match world.apply(event) {
        Ok(reply) => reply,
        Err(error) => Reply::Error(Refusal::from(error)),
    }
}

/// Lets the next event of the simulation happen: the first that a step can take, or, where nothing is left to do at the current
/// time, an advance; or reports why not.
fn run_next(world: &mut World) -> Result<(), WorldError>
    ensures ok { OnOk result
        ((refused_by world.old (next_event world.old) ≡ None)
        × (world.new ≡ with_entry world.old (next_event world.old))) }
    ensures refused { IfErr result
        (λ e. (e ≡ NoMemory) ⊎ (is_none (refused_by world.old (next_event world.old)) ≡ false)) }
    ensures unchanged { OnErr result (world.new ≡ world.old) }
{
    match world.step(0) {
        Err(WorldError::Sim(SimError::Idle)) => world.advance(),
        ended => ended,
    }
}

/// Lets an event happen whose reply nobody needs; else its refusal, or out of memory, which leave the world as it was.
fn happens(world: &mut World, event: Event) -> Result<(), WorldError>
    requires { IsWellFormed world.old.opening.design event }
    ensures { Applies world.old event result world.new }
{
    world.apply(event)?;
    Ok(())
}

/// Lets an event happen if the world lets it, and reports whether it did; or out of memory, which leaves the world as it was.
fn tried(world: &mut World, event: Event) -> Result<bool, AllocError>
    requires { IsWellFormed world.old.opening.design event }
    ensures done { IfOk result (λ done. done ≡ true
        → (refused_by world.old event ≡ None) × (world.new ≡ with_entry world.old event)) }
    ensures refused { IfOk result (λ done. done ≡ false
        → (is_none (refused_by world.old event) ≡ false) × (world.new ≡ world.old)) }
    ensures unchanged { OnErr result (world.new ≡ world.old) }
{
    match happens(world, event) {
        Ok(()) => Ok(true),
        Err(WorldError::NoMemory) => Err(AllocError),
        Err(_) => Ok(false),
    }
}

/// Books a race that was found, unless the world refuses it; or out of memory, which leaves the world as it was.
fn book(world: &mut World, finding: Shared<Finding>) -> Result<(), AllocError>
    requires { finding.segment.start.design ≡ world.old.opening.design }
    ensures booked { OnOk result (world.new ≡ with_event_if world.old (event.Book finding)) }
    ensures unchanged { OnErr result (world.new ≡ world.old) }
{
    // Read, so that the check knows that it is a race.
    let _segment = finding.value().segment();
    tried(world, Event::Book(finding))?;
    Ok(())
}

/// Books these races, one after another, each unless the world refuses it; or as many as there is memory for.
fn book_all(world: &mut World, findings: &mut VecDeque<Shared<Finding>>) -> Result<(), AllocError>
    requires { All (λ f. f.segment.start.design ≡ world.old.opening.design) findings.old.items }
    ensures happened { (seeds : ℕ)
        → HappensTo (record { world = world.old; found = findings.old.items; seeds = seeds })
        (record { world = world.new; found = findings.new.items; seeds = seeds }) }
    ensures all { OnOk result (findings.new.items ≡ []) }
    ensures designs { All (λ f. f.segment.start.design ≡ world.new.opening.design)
        findings.new.items }
{
    while let Some(first) = findings.front() {
        let finding = first.try_clone()?;
        book(world, finding)?;
        let _booked = findings.pop_front();
    }
    Ok(())
}

/// The races of a segment that so many seeds show, to be booked; or out of memory.
fn races_of(
    alloc: Global,
    seeds: u64,
    segment: &Arc<Segment>,
) -> Result<VecDeque<Shared<Finding>>, AllocError>
    ensures found { IfOk result (λ races. races.items
        ≡ found (arc_value segment.now) step_limit seeds) }
    ensures segment { IfOk result (λ races. All (λ f. f.segment ≡ arc_value segment.now)
        races.items) }
{
    let Ok(findings) = search(alloc, segment, seeds, STEP_LIMIT, &OpenGate) else {
        return Err(AllocError);
    };
    let mut findings = VecDeque::from(findings);
    let mut races = VecDeque::new(alloc);
    while let Some(finding) = findings.pop_front() {
        races.push_back(Shared::new(alloc, finding)?)?;
    }
    Ok(races)
}

/// Searches the segment that is still to be searched, if there is one; or out of memory, which leaves all as it was.
fn find(
    alloc: Global,
    seeds: u64,
    segment: &mut Option<Arc<Segment>>,
    findings: &mut VecDeque<Shared<Finding>>,
) -> Result<(), AllocError>
    ensures found { OnOk result (findings.new.items
        ≡ pending seeds (option_map arc_value segment.old) findings.old.items) }
    ensures searched { OnOk result (segment.new ≡ None) }
    ensures designs { (design : Elaborated)
        → ArePending design (option_map arc_value segment.old) findings.old.items
        → OnOk result (All (λ f. f.segment.start.design ≡ design) findings.new.items) }
    ensures unchanged { OnErr result
        ((segment.new ≡ segment.old) × (findings.new ≡ findings.old)) }
{
    let Some(unsearched) = &*segment else {
        return Ok(());
    };
    *findings = races_of(alloc, seeds, unsearched)?;
    *segment = None;
    Ok(())
}

/// Books all races that are still to be booked; or as many as there is memory for.
fn book_pending(
    alloc: Global,
    seeds: u64,
    world: &mut World,
    segment: &mut Option<Arc<Segment>>,
    findings: &mut VecDeque<Shared<Finding>>,
) -> Result<(), AllocError>
    requires { ArePending world.old.opening.design (option_map arc_value segment.old)
        findings.old.items }
    ensures happened { HappensTo
        (running_of seeds world.old (option_map arc_value segment.old) findings.old.items)
        (running_of seeds world.new (option_map arc_value segment.new) findings.new.items) }
    ensures all { OnOk result ((segment.new ≡ None) × (findings.new.items ≡ [])) }
    ensures pending { ArePending world.new.opening.design (option_map arc_value segment.new)
        findings.new.items }
{
    find(alloc, seeds, segment, findings)?;
    book_all(world, findings)
}

/// A search by so many seeds may find a race in a segment: there is a seed, and the run had a choice there.
fn may_find(seeds: u64, segment: &Segment) -> bool
    ensures { result ≡ false → found segment.now step_limit seeds ≡ [] }
{
    seeds > 0 && segment.has_choice()
}

/// The segment of the next job, to be searched; none where there is no job, or where no search finds anything in it. Takes memory.
fn unsearched(alloc: Global, seeds: u64, world: &World) -> Result<Option<Arc<Segment>>, AllocError>
    ensures found { IfOk result
        (λ segment. pending seeds (option_map arc_value segment) [] ≡ searched seeds world.now) }
    ensures pending { IfOk result (λ segment.
        ArePending world.now.opening.design (option_map arc_value segment) []) }
{
    let Some(segment) = world.next_job() else {
        return Ok(None);
    };
    if !may_find(seeds, segment) {
        return Ok(None);
    }
    let segment = segment.try_clone(alloc)?;
    Ok(Some(Arc::new(alloc, segment)?))
}

/// Takes the next job, if there is one and no race is still to be booked, and reports whether there was one: its segment is then to be
/// searched. Or out of memory, which leaves all as it was.
fn take_job(
    alloc: Global,
    seeds: u64,
    world: &mut World,
    segment: &mut Option<Arc<Segment>>,
) -> Result<bool, AllocError>
    ensures none { IfOk result (λ taken. taken ≡ false
        → (is_none (refused_by world.old event.TakeJob) ≡ false) × (world.new ≡ world.old)
        × (segment.new ≡ segment.old)) }
    ensures some { IfOk result (λ taken. taken ≡ true
        → (turned (running_of seeds world.old None [])
        ≡ Some (running_of seeds world.new (option_map arc_value segment.new) []))
        × ArePending world.new.opening.design (option_map arc_value segment.new) []) }
    ensures unchanged { OnErr result ((world.new ≡ world.old) × (segment.new ≡ segment.old)) }
{
    let next = unsearched(alloc, seeds, world)?;
    if !tried(world, Event::TakeJob)? {
        return Ok(false);
    }
    *segment = next;
    Ok(true)
}

/// Lets the simulation run as far as the world lets it, and searches what it does for races; or until there is no memory.
fn run(
    alloc: Global,
    seeds: u64,
    world: &mut World,
    segment: &mut Option<Arc<Segment>>,
    findings: &mut VecDeque<Shared<Finding>>,
) -> Result<(), AllocError>
    requires { ArePending world.old.opening.design (option_map arc_value segment.old)
        findings.old.items }
    ensures runs { Runs (is_err result)
        (running_of seeds world.old (option_map arc_value segment.old) findings.old.items)
        (running_of seeds world.new (option_map arc_value segment.new) findings.new.items) }
    ensures pending { ArePending world.new.opening.design (option_map arc_value segment.new)
        findings.new.items }
{
    loop {
        book_pending(alloc, seeds, world, segment, findings)?;
        if take_job(alloc, seeds, world, segment)? {
            continue;
        }
        match run_next(world) {
            Ok(()) => {}
            Err(WorldError::NoMemory) => return Err(AllocError),
            Err(_) => return Ok(()),
        }
    }
}

/// A world whose simulation runs, and the races that were found in it and are still to be booked. A contract sees both. The world holds
/// its whole log.
#[derive(Drop)]
pub struct RunningWorld {
    alloc: Global,
    world: World,
    /// A search tries so many seeds.
    seeds: u64,
    /// The segment that is still to be searched.
    segment: Option<Arc<Segment>>,
    /// What was found in the last that was searched, and is still to be booked.
    findings: VecDeque<Shared<Finding>>,
}

impl Model for RunningWorld {
    ghost use Rattle.std.specs.Prelude.{◌≡◌, option_map};
    ghost use Rattle.std.specs.Arc.{arc_value};
    ghost use Rattle.vp_script.specs.Pending.{ArePending, running_of};
    ghost use Rattle.vp_script.specs.Scripts.{Running};

    ghost Value = { Running };

    ghost view = { λ r. running_of r.seeds r.world (option_map arc_value r.segment)
        r.findings.items };

    ghost invariant = { λ r. record {
      pending : ArePending r.world.opening.design (option_map arc_value r.segment)
          r.findings.items;
      whole : r.world.handed_out ≡ 0;
    } };
}

impl RunningWorld {
    /// A world of which no race is to be booked and no entry was handed out, and whose searches try so many seeds.
    pub fn new(alloc: Global, seeds: u64, world: World) -> RunningWorld
        requires { world.handed_out ≡ 0 }
        ensures { result ≡ record { world = world; found = []; seeds = seeds } }
    {
        RunningWorld {
            alloc,
            world,
            seeds,
            segment: None,
            findings: VecDeque::new(alloc),
        }
    }

    /// What has happened in the world, in order.
    pub fn log(&self) -> &Log
        ensures log { result.now.entries ≡ self.now.world.log }
        ensures legal { IsLegal self.now.world.opening [] self.now.world.log }
    {
        self.world.log()
    }

    /// What the world answers to the event of a request, or says where it refuses it; a request that is none is refused.
    pub fn apply(&mut self, event: Result<Event, Refusal>) -> Reply
        requires { IfOk event (IsWellFormed self.old.world.opening.design) }
        ensures applied { Applied (is_no_memory result) event self.old.world result self.new.world }
        ensures kept { self.new ≡ with_world self.old self.new.world }
    {
        applied(&mut self.world, event)
    }

    /// Lets the simulation run as far as the world lets it, and searches what it does for races; or until there is no memory.
    pub fn run(&mut self) -> Result<(), AllocError>
        ensures { Runs (is_err result) self.old self.new }
    {
        run(
            self.alloc,
            self.seeds,
            &mut self.world,
            &mut self.segment,
            &mut self.findings,
        )
    }
}
