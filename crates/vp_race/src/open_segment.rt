ghost use Rattle.std.specs.Prelude.{◌≡◌, ◌<◌, ◌+◌, ◌^◌, false, length, nat_le, true, None, Some, IfOk, IfSome, IsSome, OnOk, option_map};
ghost use Rattle.vp_sim.specs.States.{State, eligible};
ghost use Rattle.vp_race.specs.Orders.{is_over};
ghost use Rattle.vp_race.specs.Recording.{HasRoom, IsKept, Stands, opened_by, with_choice, with_closed};

use crate::first_choice::FirstChoice;
use crate::follow::is_over;
use crate::kept::KeptSegments;
use crate::segment::Segment;
use crate::start::Start;
use std::alloc::{AllocError, Global};
use std::marker::Model;
use std::mem::replace;
use std::sync::Arc;
use vp_elab::ObjectId;
use vp_sim::Sim;

/// An open segment. A contract sees nothing where the run took no step in it, and else the state with which it began, the processes of the steps where
/// none had a choice, and what is kept from the first choice on. The simulation is copied at the first choice alone: most segments have none.
#[derive(Drop)]
pub struct OpenSegment {
    alloc: Global,
    start: Option<Start>,
    /// Of a step without a choice it is enough to know whose event it took. The list keeps its room from one segment to the next.
    sources: Vec<ObjectId>,
    choice: Option<FirstChoice>,
}

impl Model for OpenSegment {
    ghost use Rattle.std.specs.Prelude.{◌-◌, Option, option_map};
    ghost use Rattle.std.specs.Vec.{vec_capacity, vec_len};
    ghost use Rattle.vp_sim.specs.States.{State};
    ghost use Rattle.vp_race.specs.Recording.{Begun};

    ghost Value = { Option Begun };

    ghost view = { λ o. option_map
        (λ (start : State). record {
          start = start;
          sources = o.sources.items;
          room = vec_capacity o.sources - vec_len o.sources;
          chosen = o.choice;
        })
        o.start };
}

impl OpenSegment {
    /// A segment in which the run took no step.
    pub fn new(alloc: Global) -> OpenSegment
        ensures { result ≡ None }
    {
        OpenSegment {
            alloc,
            start: None,
            sources: Vec::new(alloc),
            choice: None,
        }
    }

    /// A new segment, in which the run took no step.
    pub fn clear(&mut self)
        ensures { self.new ≡ None }
    {
        self.start = None;
        self.choice = None;
    }

    /// The run took at least so many steps in it.
    #[inline(always)]
    pub fn has_steps(&self, count: usize) -> bool
        ensures { (s : State) → result ≡ nat_le count (length (opened_by self.now s).order) }
    {
        if self.start.is_none() {
            return count == 0;
        }
        match &self.choice {
            Some(choice) => choice.has_steps(count),
            None => self.sources.len() >= count,
        }
    }

    /// It begins with a simulation as it is, if it is not begun.
    fn begin(&mut self, simulation: &Sim)
        requires { Stands self.old simulation.now }
        ensures seen { opened_by self.new simulation.now ≡ opened_by self.old simulation.now }
        ensures stands { Stands self.new simulation.now }
        ensures begun { IsSome self.new }
    {
        if self.start.is_some() {
            return;
        }
        self.sources.clear();
        self.choice = None;
        self.start = Some(Start::new(simulation));
    }

    /// Where the run has its first choice now, the simulation is kept; or an error where there is no memory.
    #[inline(always)]
    fn keep_choice(&mut self, simulation: &mut Sim) -> Result<(), AllocError>
        requires stands { Stands self.old simulation.old }
        requires begun { IsSome self.old }
        ensures seen { opened_by self.new simulation.old ≡ opened_by self.old simulation.old }
        ensures stands { Stands self.new simulation.old }
        ensures begun { IsSome self.new }
        ensures kept { OnOk result (IsKept self.new simulation.old) }
        ensures same { simulation.new ≡ simulation.old }
    {
        if self.choice.is_some() || simulation.eligible() <= 1 || is_over(simulation) {
            return Ok(());
        }
        self.keep(simulation)
    }

    /// Keeps the simulation where the run has its first choice; or an error where there is no memory.
    // Few steps come here: what it needs room for is not made ready at each.
    #[inline(never)]
    fn keep(&mut self, simulation: &mut Sim) -> Result<(), AllocError>
        requires stands { Stands self.old simulation.old }
        requires begun { IsSome self.old }
        requires first { IfSome self.old (λ begun. begun.chosen ≡ None) }
        requires choice { 1 < length (eligible simulation.old) }
        requires unfinished { is_over simulation.old ≡ false }
        ensures seen { opened_by self.new simulation.old ≡ opened_by self.old simulation.old }
        ensures stands { Stands self.new simulation.old }
        ensures begun { IsSome self.new }
        ensures kept { OnOk result (IsKept self.new simulation.old) }
        ensures same { simulation.new ≡ simulation.old }
    {
        // Each event that is eligible takes a step at least, and most take several.
        let order = Vec::with_capacity(self.alloc, simulation.eligible().max(16))?;
        let Ok(state) = simulation.checkpoint() else {
            return Err(AllocError);
        };
        let state = Arc::new(self.alloc, state)?;
        let sources = replace(&mut self.sources, Vec::new(self.alloc));
        self.choice = Some(FirstChoice::new(sources, state, order));
        Ok(())
    }

    /// Makes room for one choice more; or an error where there is no memory.
    fn make_room(&mut self) -> Result<(), AllocError>
        requires { IsSome self.old }
        ensures room { OnOk result (HasRoom self.new) }
        ensures seen { (s : State) → opened_by self.new s ≡ opened_by self.old s }
        ensures stands { (s : State) → Stands self.old s → Stands self.new s }
        ensures kept { (s : State) → IsKept self.old s → IsKept self.new s }
    {
        match &mut self.choice {
            Some(choice) => choice.make_room(),
            None => self.sources.reserve(1),
        }
    }

    /// Makes it ready for one choice more, with a simulation: it begins if it is not begun, and keeps the simulation where the run has its first choice;
    /// or an error where there is no memory. What is seen of it stays.
    pub fn make_ready(&mut self, simulation: &mut Sim) -> Result<(), AllocError>
        requires { Stands self.old simulation.old }
        ensures room { OnOk result (HasRoom self.new) }
        ensures kept { OnOk result (IsKept self.new simulation.old) }
        ensures seen { opened_by self.new simulation.old ≡ opened_by self.old simulation.old }
        ensures stands { Stands self.new simulation.old }
        ensures same { simulation.new ≡ simulation.old }
    {
        self.begin(simulation);
        self.keep_choice(simulation)?;
        self.make_room()
    }

    /// The run took the event of a choice, of a process, if it is begun.
    pub fn note(&mut self, choice: u32, source: ObjectId)
        requires { HasRoom self.old }
        ensures { self.new ≡ option_map (λ b. with_choice b choice source) self.old }
    {
        match &mut self.choice {
            Some(first) => first.note(choice),
            None => self.sources.push_reserved(source),
        }
    }

    /// Closes it, if it is begun, where a simulation has nothing left to do in the time slot. It gets the next number.
    pub fn close(&mut self, closed: &mut KeptSegments, simulation: &Sim)
        requires begun { IsSome self.old }
        requires stands { Stands self.old simulation.now }
        requires over { is_over simulation.now ≡ true }
        requires limit { closed.old.count + 1 < 2 ^ 64 }
        ensures begun { self.new ≡ None }
        ensures closed { closed.new ≡ with_closed closed.old (opened_by self.old simulation.now) }
    {
        let number = closed.count() + 1;
        let forced = self.sources.len() as u64;
        if let Some(start) = self.start.take() {
            closed.push(Segment::new(number, start, forced, self.choice.take()));
        }
    }
}
