ghost use Rattle.std.specs.Prelude.{◌≡◌, ◌<◌, ◌≤◌, ◌+◌, ◌-◌, ◌^◌, ◌∷◌, ◌++◌, [], true, length, nat_le, replicate, IfOk, OnOk};
ghost use Rattle.std.specs.Arc.{arc_value};
ghost use Rattle.std.specs.Vec.{vec_capacity, vec_len};

use std::alloc::{AllocError, Global};
use std::marker::Model;
use std::sync::Arc;
use vp_elab::ObjectId;
use vp_sim::SimCheckpoint;

/// Where the run first could have taken another event in a segment, and what it chose from there on. A contract sees the processes whose events it
/// took before, the state, the choices, and for how many more of these there is room.
#[derive(Drop)]
pub struct FirstChoice {
    sources: Vec<ObjectId>,
    state: Arc<SimCheckpoint>,
    order: Vec<u32>,
}

impl Model for FirstChoice {
    ghost use Rattle.std.specs.Prelude.{◌-◌};
    ghost use Rattle.std.specs.Arc.{arc_value};
    ghost use Rattle.std.specs.Vec.{vec_capacity, vec_len};
    ghost use Rattle.vp_race.specs.Recording.{Chosen};

    ghost Value = { Chosen };

    ghost view = { λ c. record {
      sources = c.sources.items;
      state = arc_value c.state;
      order = c.order.items;
      room = vec_capacity c.order - vec_len c.order;
    } };
}

impl FirstChoice {
    /// After events of these processes the run has its first choice in this state, and has chosen this since.
    pub fn new(sources: Vec<ObjectId>, state: Arc<SimCheckpoint>, order: Vec<u32>) -> FirstChoice
        ensures { result ≡ record {
          sources = sources.items;
          state = arc_value state;
          order = order.items;
          room = vec_capacity order - vec_len order;
        } }
    {
        FirstChoice {
            sources,
            state,
            order,
        }
    }

    /// The same again, which shares the state. Takes memory for its lists.
    pub fn try_clone(&self, alloc: Global) -> Result<FirstChoice, AllocError>
        ensures sources { IfOk result (λ c. c.sources ≡ self.now.sources) }
        ensures state { IfOk result (λ c. c.state ≡ self.now.state) }
        ensures order { IfOk result (λ c. c.order ≡ self.now.order) }
    {
        let sources = Vec::from_slice(alloc, self.sources.as_slice())?;
        let order = Vec::from_slice(alloc, self.order.as_slice())?;
        let state = Arc::try_clone(&self.state)?;
        Ok(FirstChoice {
            sources,
            state,
            order,
        })
    }

    /// The objects of the processes whose events the run took before.
    pub fn sources(&self) -> &[ObjectId]
        ensures { result.now ≡ self.now.sources }
    {
        self.sources.as_slice()
    }

    /// The simulation at the first choice.
    pub fn state(&self) -> &SimCheckpoint
        ensures { result.now ≡ self.now.state }
    {
        &self.state
    }

    /// What the run chose from there on.
    pub fn order(&self) -> &[u32]
        ensures { result.now ≡ self.now.order }
    {
        self.order.as_slice()
    }

    /// The run took at least so many steps since the segment's start.
    #[inline(always)]
    pub fn has_steps(&self, count: usize) -> bool
        ensures { result ≡ nat_le count (length self.now.sources + length self.now.order) }
    {
        let forced = self.sources.len();
        forced >= count || self.order.len() >= count - forced
    }

    /// How many steps the run took since the segment's start.
    pub fn step_count(&self) -> u64
        requires { length self.now.sources + length self.now.order < 2 ^ 64 }
        ensures { result ≡ length self.now.sources + length self.now.order }
    {
        self.sources.len() as u64 + self.order.len() as u64
    }

    /// What the run chose from the segment's start on. Takes memory for it.
    pub fn whole_order(&self, alloc: Global) -> Result<Vec<u32>, AllocError>
        ensures { IfOk result (λ choices. choices.items
            ≡ replicate (length self.now.sources) 0 ++ self.now.order) }
    {
        let mut choices = vec![in alloc; 0u32; self.sources.len()]?;
        choices.extend_from_slice(self.order.as_slice())?;
        Ok(choices)
    }

    /// Makes room for one choice more; or an error where there is no memory.
    pub fn make_room(&mut self) -> Result<(), AllocError>
        ensures room { OnOk result (1 ≤ self.new.room) }
        ensures sources { self.new.sources ≡ self.old.sources }
        ensures state { self.new.state ≡ self.old.state }
        ensures order { self.new.order ≡ self.old.order }
    {
        self.order.reserve(1)
    }

    /// The run made one choice more.
    pub fn note(&mut self, choice: u32)
        requires { 1 ≤ self.old.room }
        ensures { self.new ≡ record self.old {
          order = self.old.order ++ choice ∷ [];
          room = self.old.room - 1;
        } }
    {
        self.order.push_reserved(choice);
    }

    /// Two first choices of one design, and what was chosen from there on, are the same.
    pub fn is_same(&self, other: &FirstChoice) -> bool
        requires { self.now.state.design ≡ other.now.state.design }
        ensures sources { result ≡ true → self.now.sources ≡ other.now.sources }
        ensures state { result ≡ true → self.now.state ≡ other.now.state }
        ensures order { result ≡ true → self.now.order ≡ other.now.order }
        ensures differs { self.now.sources ≡ other.now.sources → self.now.state ≡ other.now.state
            → self.now.order ≡ other.now.order → result ≡ true }
    {
        if self.sources.as_slice() != other.sources.as_slice() {
            return false;
        }
        if self.order.as_slice() != other.order.as_slice() {
            return false;
        }
        self.state.is_same(&other.state)
    }
}
