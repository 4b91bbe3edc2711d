ghost use Rattle.std.specs.Prelude.{◌≡◌, length, slice_index_or, true, IfOk, OnErr, OnOk, IsOkUnless};
ghost use Rattle.vp_expr.specs.Tables.{tables_of};
ghost use Rattle.vp_operand.specs.Values.{no_value};
ghost use Rattle.vp_sim.specs.declared.error.SimError.TheVariants.{NoMemory};
ghost use Rattle.vp_waking.specs.Listening.{AreHeard};

use crate::error::SimError;
use crate::lists::{KeptLists, Lists};
use crate::machine::Machine;
use std::alloc::{AllocError, Global};
use std::marker::Model;
use std::sync::Arc;
use vp_bits::Bits;
use vp_cow_list::{SharedList, TrackedList};
use vp_elab::ObjectId;
use vp_expr::{Checked, Values, ValuesCheckpoint};
use vp_statement::Flow;
use vp_strata::{Strata, StrataCheckpoint};
use vp_waking::{Listeners, Waiting};

/// A simulation as it was when a copy of it was kept. Copies of one simulation share what did not change between them. A contract
/// sees its state.
#[derive(Drop)]
pub struct SimCheckpoint {
    alloc: Global,
    checked: Arc<Checked>,
    flow: Arc<Flow>,
    /// In time units.
    time: u64,
    finished: bool,
    values: ValuesCheckpoint,
    remaining: SharedList<Option<u32>>,
    waiting: SharedList<Waiting>,
    queue: StrataCheckpoint,
}

impl Model for SimCheckpoint {
    ghost use Rattle.std.specs.Arc.{arc_value};
    ghost use Rattle.vp_sim.specs.States.{FitsDesign, State};

    ghost Value = { State };

    ghost view = { λ k. record {
      design = arc_value k.checked;
      time = k.time;
      finished = k.finished;
      values = k.values;
      remaining = k.remaining;
      waiting = k.waiting;
      queue = k.queue.queue;
    } };

    ghost invariant = { λ k. FitsDesign (arc_value k.checked) (arc_value k.flow)
        k.values k.queue.processes k.waiting };
}

impl SimCheckpoint {
    /// The time when the copy was made, in time units.
    pub fn time(&self) -> u64
        ensures { result ≡ self.now.time }
    {
        self.time
    }

    /// The value of an object; one unknown bit for a number that is not there.
    pub fn value(&self, object: ObjectId) -> Bits
        ensures { result ≡ slice_index_or self.now.values object.0 no_value }
    {
        self.values.find(object).unwrap_or(Bits::unknown(1))
    }

    /// Whether two copies, of simulations of one design, are the same: their times, `$finish`, their events, what remains of each process,
    /// what each waits for, and all values. It takes time for each event, process and object at most, and no memory.
    pub fn is_same(&self, other: &SimCheckpoint) -> bool
        requires { self.now.design ≡ other.now.design }
        ensures same { result ≡ true → self.now ≡ other.now }
        ensures differs { self.now ≡ other.now → result ≡ true }
    {
        self.time == other.time
            && self.finished == other.finished
            && self.queue.is_same(&other.queue)
            && self.remaining.is_same(&other.remaining)
            && self.waiting.is_same(&other.waiting)
            && self.values.is_same(&other.values)
    }

    /// Its lists, to be written in place; or out of memory (806).
    fn lists(&self) -> Result<Lists, SimError>
        ensures values { IfOk result (λ l. l.values ≡ self.now.values) }
        ensures remaining { IfOk result (λ l. l.remaining ≡ self.now.remaining) }
        ensures waiting { IfOk result (λ l. l.waiting ≡ self.now.waiting) }
        ensures err { IsOkUnless result NoMemory }
    {
        let Ok(values) = Values::of_kept(self.alloc, &self.values) else {
            return Err(SimError::NoMemory);
        };
        let remaining = TrackedList::of_kept(self.alloc, &self.remaining)?;
        let waiting = TrackedList::of_kept(self.alloc, &self.waiting)?;
        Ok(Lists {
            values,
            remaining,
            waiting,
        })
    }

    /// A queue with its events; or out of memory (806).
    fn events(&self) -> Result<Strata, SimError>
        ensures queue { IfOk result (λ s. s.queue ≡ self.now.queue) }
        ensures processes { IfOk result (λ s. s.processes
            ≡ length (tables_of self.now.design).processes) }
        ensures err { IsOkUnless result NoMemory }
    {
        match self.queue.to_strata(self.alloc) {
            Ok(queue) => Ok(queue),
            Err(_) => Err(SimError::NoMemory),
        }
    }

    /// Listeners among which each process stands that waits so.
    fn listeners(&self, waiting: &[Waiting]) -> Result<Listeners, AllocError>
        ensures design { IfOk result (λ l. l.design ≡ self.now.design) }
        ensures heard { IfOk result (λ l.
            AreHeard (tables_of self.now.design) l.lists waiting.now) }
    {
        let checked = Arc::try_clone(&self.checked)?;
        let mut listeners = Listeners::new(self.alloc, checked)?;
        listeners.listen_all(waiting)?;
        Ok(listeners)
    }
}

impl Machine {
    /// A copy of its lists to be kept; or out of memory (806).
    fn keep_lists(&mut self) -> Result<KeptLists, SimError>
        ensures values { IfOk result (λ l. l.values ≡ self.old.state.values) }
        ensures remaining { IfOk result (λ l. l.remaining ≡ self.old.state.remaining) }
        ensures waiting { IfOk result (λ l. l.waiting ≡ self.old.state.waiting) }
        ensures same { self.new ≡ self.old }
        ensures err { IsOkUnless result NoMemory }
    {
        let Ok(values) = self.values.checkpoint() else {
            return Err(SimError::NoMemory);
        };
        let remaining = self.remaining.checkpoint()?;
        let waiting = self.waiting.checkpoint()?;
        Ok(KeptLists {
            values,
            remaining,
            waiting,
        })
    }

    /// A copy of the simulation to be kept; or out of memory (806).
    pub fn checkpoint(&mut self) -> Result<SimCheckpoint, SimError>
        ensures copy { IfOk result (λ copy. copy ≡ self.old.state) }
        ensures same { self.new.state ≡ self.old.state }
        ensures err { IsOkUnless result NoMemory }
    {
        let lists = self.keep_lists()?;
        let Ok(queue) = self.queue.checkpoint(self.alloc) else {
            return Err(SimError::NoMemory);
        };
        Ok(SimCheckpoint {
            alloc: self.alloc,
            checked: self.listeners.share()?,
            flow: Arc::try_clone(&self.flow)?,
            time: self.time,
            finished: self.finished,
            values: lists.values,
            remaining: lists.remaining,
            waiting: lists.waiting,
            queue,
        })
    }

    /// A simulation that goes on from a copy; or out of memory (806).
    pub fn of_kept(kept: &SimCheckpoint) -> Result<Machine, SimError>
        ensures state { IfOk result (λ m. m.state ≡ kept.now) }
        ensures err { IsOkUnless result NoMemory }
    {
        let flow = Arc::try_clone(&kept.flow)?;
        let lists = kept.lists()?;
        let listeners = kept.listeners(lists.waiting.as_slice())?;
        let queue = kept.events()?;
        Ok(Machine {
            alloc: kept.alloc,
            listeners,
            time: kept.time,
            finished: kept.finished,
            values: lists.values,
            flow,
            remaining: lists.remaining,
            waiting: lists.waiting,
            queue,
        })
    }

    /// All processes can wait so; or out of memory (806).
    fn listen_all(&mut self, waiting: &[Waiting]) -> Result<(), SimError>
        ensures heard { OnOk result (AreHeard (tables_of self.old.state.design) self.new.lists
            waiting.now) }
        ensures state { self.new.state ≡ self.old.state }
        ensures refused { IsOkUnless result NoMemory }
    {
        self.listeners.listen_all(waiting)?;
        Ok(())
    }

    /// The simulation goes on from a copy, whose lists these are, and whose processes can wait; or out of memory (806).
    fn go_on(&mut self, kept: &SimCheckpoint, lists: Lists) -> Result<(), SimError>
        requires design { self.old.state.design ≡ kept.now.design }
        requires values { lists.values ≡ kept.now.values }
        requires remaining { lists.remaining ≡ kept.now.remaining }
        requires waiting { lists.waiting ≡ kept.now.waiting }
        requires heard { AreHeard (tables_of self.old.state.design) self.old.lists
            kept.now.waiting }
        ensures ok { OnOk result (self.new.state ≡ kept.now) }
        ensures refused { IsOkUnless result NoMemory }
        ensures unchanged { OnErr result (self.new.state ≡ self.old.state) }
    {
        if self.queue.restore(&kept.queue).is_err() {
            return Err(SimError::NoMemory);
        }
        self.time = kept.time;
        self.finished = kept.finished;
        self.values = lists.values;
        self.remaining = lists.remaining;
        self.waiting = lists.waiting;
        Ok(())
    }

    /// The simulation goes on from a copy; or out of memory (806).
    pub fn restore(&mut self, kept: &SimCheckpoint) -> Result<(), SimError>
        requires { self.old.state.design ≡ kept.now.design }
        ensures ok { OnOk result (self.new.state ≡ kept.now) }
        ensures refused { IsOkUnless result NoMemory }
        ensures unchanged { OnErr result (self.new.state ≡ self.old.state) }
    {
        let lists = kept.lists()?;
        self.listen_all(lists.waiting.as_slice())?;
        self.go_on(kept, lists)
    }
}
