ghost use Rattle.std.specs.Option.{option_map_or};
ghost use Rattle.std.specs.Prelude.{◌≡◌, length, map, slice_get, slice_index_or, None, Some, IfErr, IfOk, IfSome, OnErr, OnOk, IsOkUnless};
ghost use Rattle.std.specs.Arc.{arc_value};
ghost use Rattle.vp_sim.specs.States.{refusal_in, Goes, IsStep, Refuses, advance, advanced_to, change_in, eligible, next_time, put, slot_done, source_of, start, step, with_activation, with_change, without_event};
ghost use Rattle.vp_sim.specs.laws.Changing.{changed_by};
ghost use Rattle.vp_text.specs.Refusals.{Explains};
ghost use Rattle.vp_elab.specs.Tree.{below};
ghost use Rattle.vp_active_events.specs.declared.event.Event.TheVariants.{Evaluation};
ghost use Rattle.vp_active_events.specs.Events.{process_of};
ghost use Rattle.vp_strata.specs.Queues.{no_events, with_active};
ghost use Rattle.vp_expr.specs.Tables.{process_object, tables_of};
ghost use Rattle.vp_statement.specs.Walking.{flow_of};
ghost use Rattle.vp_sim.specs.declared.error.SimError.TheVariants.{NoMemory};

use crate::error::SimError;
use crate::lists::first_lists;
use crate::machine::Machine;
use crate::stepped::Stepped;
use std::alloc::{AllocError, Global};
use std::sync::Arc;
use vp_bits::Bits;
use vp_elab::ObjectId;
use vp_expr::{Change, Checked, Values};
use vp_statement::Flow;
use vp_strata::{Event, Strata, StrataError};
use vp_waking::{Listeners, process_at};

/// The event queue at the start: so many processes are evaluated, in order.
fn first_queue(alloc: Global, processes: usize) -> Result<Strata, StrataError>
    ensures queue { IfOk result (λ q. q.queue
        ≡ with_active no_events (map Evaluation (below processes))) }
    ensures processes { IfOk result (λ q. q.processes ≡ processes) }
{
    let mut queue = Strata::new(alloc, processes)?;
    queue.room(processes)?;
    for process in 0..processes {
        queue.push_active(process)?;
    }
    Ok(queue)
}

/// What comes after each statement of a design.
fn flow_for(alloc: Global, checked: &Checked) -> Result<Arc<Flow>, AllocError>
    ensures { IfOk result (λ flow. arc_value flow
        ≡ flow_of checked.now.source (tables_of checked.now).actions) }
{
    let actions = checked.tables().actions.as_slice();
    let flow = Flow::new(alloc, checked.design().source(), actions)?;
    let flow = Arc::new(alloc, flow)?;
    Ok(flow)
}

/// The event of a process.
fn process_of(event: Event) -> usize
    ensures { result ≡ process_of event }
{
    match event {
        Event::Evaluation { process } | Event::NetUpdate { process, .. } => process,
        Event::Nonblocking { update } => update.process,
    }
}

/// The object of a change, if there is one.
fn changed_by(change: &Option<Change>) -> Option<ObjectId>
    ensures { result ≡ changed_by change.now }
{
    match change {
        Some(change) => Some(change.object),
        None => None,
    }
}

impl Machine {
    /// A simulation of a design in which nothing has happened; or out of memory (806).
    pub fn new(alloc: Global, checked: Arc<Checked>) -> Result<Machine, SimError>
        ensures state { IfOk result (λ m. m.state ≡ start (arc_value checked)) }
        ensures err { IsOkUnless result NoMemory }
    {
        let lists = first_lists(alloc, &checked)?;
        let flow = flow_for(alloc, &checked)?;
        let Ok(queue) = first_queue(alloc, checked.tables().processes.len()) else {
            return Err(SimError::NoMemory);
        };
        let listeners = Listeners::new(alloc, checked)?;
        Ok(Machine {
            alloc,
            listeners,
            time: 0,
            finished: false,
            values: lists.values,
            flow,
            remaining: lists.remaining,
            waiting: lists.waiting,
            queue,
        })
    }

    /// The values of the objects.
    pub fn values(&self) -> &Values
        ensures { result.now ≡ self.now.state.values }
    {
        &self.values
    }

    /// The current time, in time units.
    pub fn time(&self) -> u64
        ensures { result ≡ self.now.state.time }
    {
        self.time
    }

    /// The time of the next future event, in time units.
    pub fn next_time(&self) -> Option<u64>
        ensures { result ≡ next_time self.now.state }
    {
        self.queue.next_time()
    }

    /// `$finish` was executed.
    pub fn finished(&self) -> bool
        ensures { result ≡ self.now.state.finished }
    {
        self.finished
    }

    /// Nothing is left to do at the current time.
    pub fn slot_done(&self) -> bool
        ensures { result ≡ slot_done self.now.state }
    {
        self.queue.is_done()
    }

    /// How many events a step can take.
    pub fn eligible(&self) -> usize
        ensures { result ≡ length (eligible self.now.state) }
    {
        self.queue.choices()
    }

    /// The object of the process whose event is the k-th of those that a step can take; the first object where there is none.
    pub fn source(&self, k: usize) -> ObjectId
        ensures { result ≡ source_of self.now.state k }
    {
        match self.queue.peek(k) {
            Some(event) => self.object_of(process_of(event)),
            None => ObjectId(0),
        }
    }

    /// The object of a process; the first object where there is none.
    #[inline(always)]
    fn object_of(&self, process: usize) -> ObjectId
        ensures { result ≡ option_map_or process_object
            (slice_get (tables_of self.now.state.design).processes process) (record { 0 = 0 }) }
    {
        match process_at(self.listeners.checked(), process) {
            Some(process) => process.object(),
            None => ObjectId(0),
        }
    }

    /// An update that makes this change, if it makes one, is the k-th of the eligible events; it is of a process. Or out of memory (806).
    fn step_update(
        &mut self,
        k: usize,
        process: usize,
        change: Option<Change>,
    ) -> Result<Stepped, SimError>
        requires fits { IfSome change
            (λ c. length (slice_index_or self.old.state.values c.object.0 c.value)
            ≡ length c.value) }
        ensures ok { OnOk result (self.new.state
            ≡ with_change (tables_of self.old.state.design)
            (without_event (with_activation self.old.state) k) change) }
        ensures changed { IfOk result (λ stepped. stepped.changed ≡ changed_by change) }
        ensures source { IfOk result (λ stepped. stepped.source
            ≡ option_map_or process_object
            (slice_get (tables_of self.old.state.design).processes process) (record { 0 = 0 })) }
        ensures refused { IsOkUnless result NoMemory }
        ensures unchanged { OnErr result (self.new.state ≡ self.old.state) }
    {
        let source = self.object_of(process);
        self.update(k, &change)?;
        Ok(Stepped {
            changed: changed_by(&change),
            source,
        })
    }

    /// Takes the k-th of the events that a step can take, and reports what it changed and whose event that was; else the refusal (804,
    /// 801, 802, 805, 806).
    #[tactic(auto, using(crate::specs::laws::Changing::step_changes))]
    pub fn step(&mut self, k: usize) -> Result<Stepped, SimError>
        ensures ok { IfOk result (λ stepped. step self.old.state k
            ≡ Goes self.new.state (change_in self.new.state stepped.changed)) }
        ensures source { IfOk result (λ stepped. stepped.source ≡ source_of self.old.state k) }
        ensures refused { IfErr result (Explains NoMemory (refusal_in (step self.old.state k))) }
        ensures unchanged { OnErr result (self.new.state ≡ self.old.state) }
    {
        // Most events are evaluations that are found at once: no other event is handed on by value then.
        let process = match self.front_evaluation(k) {
            Some(process) => process,
            None => match self.event(k)? {
                Event::Evaluation { process } => process,
                Event::NetUpdate { process, value } => {
                    let change = self.change_by_net(process, value);
                    return self.step_update(k, process, change);
                }
                Event::Nonblocking { update } => {
                    let change = self.set_change(update.object, update.place, update.value);
                    return self.step_update(k, update.process, change);
                }
            },
        };
        let source = self.object_of(process);
        let change = self.evaluate(k, process)?;
        Ok(Stepped {
            changed: changed_by(&change),
            source,
        })
    }

    /// A step that takes the k-th of the events is legal; else its refusal (804, 801, 802, 805).
    #[cold]
    #[inline(never)]
    pub fn check_step(&self, k: usize) -> Result<(), SimError>
        ensures ok { OnOk result (IsStep (step self.now.state k)) }
        ensures refused { IfErr result (λ e. step self.now.state k ≡ Refuses e) }
    {
        match self.event(k)? {
            Event::Evaluation { process } => self.check_evaluation(process),
            Event::NetUpdate { .. } | Event::Nonblocking { .. } => Ok(()),
        }
    }

    /// The time to which an advance goes on; else its refusal (804, 803, 801).
    fn time_ahead(&self) -> Result<u64, SimError>
        ensures ok { IfOk result (λ time. advance self.now.state
            ≡ advanced_to self.now.state (Some time)) }
        ensures refused { IfErr result (λ e. advance self.now.state ≡ Refuses e) }
    {
        if self.finished {
            return Err(SimError::Finished);
        }
        if !self.queue.is_done() {
            return Err(SimError::SlotNotDone);
        }
        match self.queue.next_time() {
            Some(time) => Ok(time),
            None => Err(SimError::Idle),
        }
    }

    /// An advance is legal; else its refusal (804, 803, 801).
    pub fn check_advance(&self) -> Result<(), SimError>
        ensures ok { OnOk result (IsStep (advance self.now.state)) }
        ensures refused { IfErr result (λ e. advance self.now.state ≡ Refuses e) }
    {
        self.time_ahead()?;
        Ok(())
    }

    /// Goes on to the time of the next future event; else the refusal (804, 803, 801, 806).
    pub fn advance(&mut self) -> Result<(), SimError>
        ensures ok { OnOk result (advance self.old.state ≡ Goes self.new.state None) }
        ensures refused { IfErr result (Explains NoMemory (refusal_in (advance self.old.state))) }
        ensures unchanged { OnErr result (self.new.state ≡ self.old.state) }
    {
        let time = self.time_ahead()?;
        match self.queue.advance() {
            Ok(()) => {
                self.time = time;
                Ok(())
            }
            Err(_) => Err(SimError::NoMemory),
        }
    }

    /// Gives an object a value at once, and reports what changed; else the refusal (804, 806).
    pub fn put(&mut self, object: ObjectId, value: Bits) -> Result<Option<Change>, SimError>
        ensures ok { IfOk result (λ change. put self.old.state object.0 value
            ≡ Goes self.new.state change) }
        ensures refused { IfErr result (Explains NoMemory
            (refusal_in (put self.old.state object.0 value))) }
        ensures unchanged { OnErr result (self.new.state ≡ self.old.state) }
    {
        if self.finished {
            return Err(SimError::Finished);
        }
        let change = self.change_to(object, value);
        self.room_for(&change)?;
        self.change(&change);
        Ok(change)
    }
}
