ghost use Rattle.std.specs.Prelude.{◌≡◌, ◌+◌, length, true, IfErr, IfOk, IfSome};
ghost use Rattle.vp_strata.specs.declared.error.StrataError.TheVariants.{NoMemory};

use crate::error::StrataError;
use crate::future::FutureRegion;
use crate::strata::Strata;
use std::alloc::Global;
use std::marker::Model;
use vp_active_events::{Event, NonblockingUpdate};
use vp_text::are_same;

/// The events of a queue as they were when a copy of it was kept. Its future events are shared with the queue, chunk by chunk. A contract
/// sees the queue and the number of processes.
#[derive(Drop)]
pub struct StrataCheckpoint {
    /// The active updates of nonblocking assignments.
    pub(crate) assignments: Vec<NonblockingUpdate>,
    /// The other active events.
    pub(crate) active: Vec<Event>,
    pub(crate) inactive: Vec<usize>,
    pub(crate) nonblocking: Vec<NonblockingUpdate>,
    pub(crate) future: FutureRegion,
    pub(crate) processes: usize,
}

impl Model for StrataCheckpoint {
    ghost use Rattle.std.specs.Prelude.{◌++◌, map};
    ghost use Rattle.std.specs.List.{All};
    ghost use Rattle.vp_active_events.specs.declared.event.Event.TheVariants.{Nonblocking};
    ghost use Rattle.vp_strata.specs.Queues.{KeptQueue};
    ghost use Rattle.vp_active_events.specs.Slots.{IsPushed};

    ghost Value = { KeptQueue };

    ghost view = { λ k. record {
      queue = record {
        active = map Nonblocking k.assignments.items ++ k.active.items;
        inactive = k.inactive.items;
        nonblocking = k.nonblocking.items;
        future = k.future;
      };
      processes = k.processes;
    } };

    ghost invariant = { λ k. All (λ e. IsPushed k.processes e) k.active.items };
}

impl StrataCheckpoint {
    /// Whether two copies are the same: of as many processes, with the same events in the same order. It takes time for each event of one of
    /// them, and no memory.
    pub fn is_same(&self, other: &StrataCheckpoint) -> bool
        ensures same { result ≡ true → self.now ≡ other.now }
        ensures differs { self.now ≡ other.now → result ≡ true }
    {
        self.processes == other.processes
            && self.has_same_active(other)
            && are_same(&self.inactive, &other.inactive)
            && are_same(&self.nonblocking, &other.nonblocking)
            && self.future.is_same(&other.future)
    }

    /// Whether the active events of two copies are the same.
    fn has_same_active(&self, other: &StrataCheckpoint) -> bool
        ensures same { result ≡ true → self.now.queue.active ≡ other.now.queue.active }
        ensures differs { self.now.queue.active ≡ other.now.queue.active → result ≡ true }
    {
        if !are_same(&self.assignments, &other.assignments) {
            return false;
        }
        are_same(&self.active, &other.active)
    }

    /// How many events are active, inactive or nonblocking, if it is a number of the machine.
    pub fn count(&self) -> Option<usize>
        ensures total { IfSome result (λ count. count ≡ length self.now.queue.active
            + length self.now.queue.inactive + length self.now.queue.nonblocking) }
    {
        self.assignments
            .len()
            .checked_add(self.active.len())?
            .checked_add(self.inactive.len())?
            .checked_add(self.nonblocking.len())
    }

    /// A queue with these events. An `Err` is out of memory (701).
    pub fn to_strata(&self, alloc: Global) -> Result<Strata, StrataError>
        ensures queue { IfOk result (λ s. s.queue ≡ self.now.queue) }
        ensures processes { IfOk result (λ s. s.processes ≡ self.now.processes) }
        ensures memory { IfErr result (λ e. e ≡ NoMemory) }
    {
        let mut strata = Strata::new(alloc, self.processes)?;
        strata.restore(self)?;
        Ok(strata)
    }
}
