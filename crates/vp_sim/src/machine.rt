ghost use Rattle.std.specs.Prelude.{◌≡◌, ◌≤◌, ◌<◌, length, slice_index_or, slice_set, IfSome, OnErr, OnOk, IsOkUnless};
ghost use Rattle.std.specs.Arc.{arc_value};
ghost use Rattle.vp_expr.specs.Tables.{tables_of};
ghost use Rattle.vp_sim.specs.declared.error.SimError.TheVariants.{NoMemory};
ghost use Rattle.vp_waking.specs.Listening.{IsHeard, count_of};
ghost use Rattle.vp_sim.specs.States.{with_activation, with_change, without_event};
ghost use Rattle.vp_waking.specs.Waking.{awaited_by};

use crate::error::SimError;
use std::alloc::Global;
use std::marker::Model;
use std::sync::Arc;
use vp_bits::Bits;
use vp_cow_list::TrackedList;
use vp_expr::{Change, Checked, Values};
use vp_statement::Flow;
use vp_strata::Strata;
use vp_waking::{Listeners, Waiting, wake};

/// A simulation while an event happens. What takes memory comes before the first visible change. A contract sees the state, for how
/// many more events there is room, and the listeners of each object.
#[derive(Drop)]
pub struct Machine {
    pub(crate) alloc: Global,
    pub(crate) listeners: Listeners,
    /// In time units.
    pub(crate) time: u64,
    pub(crate) finished: bool,
    pub(crate) values: Values,
    /// What comes after each statement of the design.
    pub(crate) flow: Arc<Flow>,
    /// Of each process the statement with which it goes on, if one remains of it.
    pub(crate) remaining: TrackedList<Option<u32>>,
    /// Of each process what it waits for.
    pub(crate) waiting: TrackedList<Waiting>,
    pub(crate) queue: Strata,
}

impl Model for Machine {
    ghost use Rattle.std.specs.Arc.{arc_value};
    ghost use Rattle.vp_sim.specs.States.{IsWhole, Running};

    ghost Value = { Running };

    ghost view = { λ m. record {
      state = record {
        design = m.listeners.design;
        time = m.time;
        finished = m.finished;
        values = m.values;
        remaining = m.remaining;
        waiting = m.waiting;
        queue = m.queue.queue;
      };
      spare = m.queue.spare;
      lists = m.listeners.lists;
    } };

    ghost invariant = { λ m. IsWhole m.listeners.design (arc_value m.flow)
        m.values m.queue.processes m.waiting m.listeners.lists };
}

impl Machine {
    /// The design, checked.
    pub fn checked(&self) -> &Checked
        ensures { result.now ≡ self.now.state.design }
    {
        self.listeners.checked()
    }

    /// Makes room for so many events; or out of memory (806).
    pub fn room(&mut self, count: usize) -> Result<(), SimError>
        ensures room { OnOk result (count ≤ self.new.spare) }
        ensures state { self.new.state ≡ self.old.state }
        ensures lists { self.new.lists ≡ self.old.lists }
        ensures refused { IsOkUnless result NoMemory }
    {
        match self.queue.room(count) {
            Ok(()) => Ok(()),
            Err(_) => Err(SimError::NoMemory),
        }
    }

    /// Makes room for the evaluations of all that may wait for a change; or out of memory (806).
    pub fn room_for(&mut self, change: &Option<Change>) -> Result<(), SimError>
        ensures room { OnOk result (count_of self.old.lists change.now ≤ self.new.spare) }
        ensures state { self.new.state ≡ self.old.state }
        ensures lists { self.new.lists ≡ self.old.lists }
        ensures refused { IsOkUnless result NoMemory }
    {
        match change {
            Some(change) => {
                let count = self.listeners.processes_on(change.object.0 as usize).len();
                self.room(count)
            }
            None => Ok(()),
        }
    }

    /// A process can begin to wait so; or out of memory (806).
    pub fn listen(&mut self, process: usize, waiting: Waiting) -> Result<(), SimError>
        ensures heard { OnOk result (IsHeard self.new.lists
            (awaited_by (tables_of self.old.state.design) waiting process) process) }
        ensures state { self.new.state ≡ self.old.state }
        ensures refused { IsOkUnless result NoMemory }
    {
        self.listeners.listen(process, waiting)?;
        Ok(())
    }

    /// A process begins to wait so.
    pub fn wait(&mut self, process: usize, waiting: Waiting)
        requires { IsHeard self.old.lists
            (awaited_by (tables_of self.old.state.design) waiting process) process }
        ensures state { self.new.state ≡ record self.old.state
            { waiting = slice_set self.old.state.waiting process waiting } }
        ensures spare { self.new.spare ≡ self.old.spare }
        ensures lists { self.new.lists ≡ self.old.lists }
    {
        self.waiting.set(process, waiting);
    }

    /// The activation that a step begins with.
    #[inline(always)]
    pub fn activate(&mut self)
        ensures state { self.new.state ≡ with_activation self.old.state }
        ensures spare { self.new.spare ≡ self.old.spare }
        ensures lists { self.new.lists ≡ self.old.lists }
    {
        self.queue.activate();
    }

    /// The k-th of the eligible events is over.
    pub fn take(&mut self, k: usize)
        ensures state { self.new.state ≡ without_event self.old.state k }
        ensures spare { self.new.spare ≡ self.old.spare }
        ensures lists { self.new.lists ≡ self.old.lists }
    {
        self.queue.take(k);
    }

    /// An object has its new value, and what waits for the change is woken.
    fn wake(&mut self, change: &Change)
        requires fits { length (slice_index_or self.old.state.values change.now.object.0
            change.now.value) ≡ length change.now.value }
        requires room { count_of self.old.lists (Some change.now) ≤ self.old.spare }
        ensures { self.new.state ≡ with_change (tables_of self.old.state.design) self.old.state
            (Some change.now) }
    {
        let old = self.values.get(change.object);
        self.values.set(change.object, change.value);
        wake(
            &self.listeners,
            &mut self.queue,
            &mut self.waiting,
            old,
            change,
        );
    }

    /// A change happens, if there is one.
    pub fn change(&mut self, change: &Option<Change>)
        requires fits { IfSome change.now
            (λ c. length (slice_index_or self.old.state.values c.object.0 c.value)
            ≡ length c.value) }
        requires room { count_of self.old.lists change.now ≤ self.old.spare }
        ensures { self.new.state ≡ with_change (tables_of self.old.state.design) self.old.state
            change.now }
    {
        if let Some(change) = change {
            self.wake(change);
        }
    }

    /// An update that makes this change, if it makes one, is the k-th of the eligible events; or out of memory (806).
    pub fn update(&mut self, k: usize, change: &Option<Change>) -> Result<(), SimError>
        requires fits { IfSome change.now
            (λ c. length (slice_index_or self.old.state.values c.object.0 c.value)
            ≡ length c.value) }
        ensures ok { OnOk result (self.new.state
            ≡ with_change (tables_of self.old.state.design)
            (without_event (with_activation self.old.state) k)
            change.now) }
        ensures refused { IsOkUnless result NoMemory }
        ensures unchanged { OnErr result (self.new.state ≡ self.old.state) }
    {
        self.room_for(change)?;
        self.activate();
        self.take(k);
        self.change(change);
        Ok(())
    }
}
