ghost use Rattle.std.specs.Prelude.{◌≡◌, ◌<◌, ◌≤◌, ℕ, Bool, length, slice_get, slice_index_or, None, Some, IfErr, IfOk, IfSome, OnErr, OnOk, IsOkUnless};
ghost use Rattle.vp_sim.specs.States.{refusal_in, Goes, IsStep, Refuses, with_activation, driven, evaluated, happened, without_event, step, run_procedure, with_event};
ghost use Rattle.vp_text.specs.Refusals.{Explains};
ghost use Rattle.vp_expr.specs.Tables.{tables_of};
ghost use Rattle.vp_strata.specs.Queues.{peeked};
ghost use Rattle.vp_active_events.specs.declared.event.Event.TheVariants.{Evaluation, NetUpdate};
ghost use Rattle.vp_sim.specs.declared.error.SimError.TheVariants.{NoMemory};
ghost use Rattle.vp_expr.specs.Changes.{change_of, net_at, updated_by};

use crate::error::SimError;
use crate::machine::Machine;
use vp_bits::Bits;
use vp_elab::ObjectId;
use vp_expr::{Change, Process, change_of, eval};
use vp_strata::Event;
use vp_waking::{Waiting, net_at, process_at};

impl Machine {
    /// The event that a step takes, the k-th of the eligible ones; else the refusal (804, 801, 802).
    #[inline(always)]
    pub fn event(&self, k: usize) -> Result<Event, SimError>
        ensures ok { IfOk result (λ event. step self.now.state k
            ≡ happened (tables_of self.now.state.design) (with_activation self.now.state) k
            (Some event)) }
        ensures event { IfOk result (λ event. peeked self.now.state.queue k ≡ Some event) }
        ensures refused { IfErr result (λ e. step self.now.state k ≡ Refuses e) }
    {
        if self.finished {
            return Err(SimError::Finished);
        }
        if self.queue.is_done() {
            return Err(SimError::Idle);
        }
        match self.queue.peek(k) {
            Some(event) => Ok(event),
            None => Err(SimError::NoSuchChoice),
        }
    }

    /// The process whose evaluation a step takes as the k-th of the eligible events, where that is known without a search.
    #[inline(always)]
    pub fn front_evaluation(&self, k: usize) -> Option<usize>
        ensures step { IfSome result (λ process. step self.now.state k
            ≡ happened (tables_of self.now.state.design) (with_activation self.now.state) k
            (Some (Evaluation process))) }
        ensures event { IfSome result (λ process.
            peeked self.now.state.queue k ≡ Some (Evaluation process)) }
    {
        if k > 0 || self.finished {
            return None;
        }
        self.queue.front_evaluation()
    }

    /// What giving an object a value changes.
    pub fn change_to(&self, object: ObjectId, value: Bits) -> Option<Change>
        ensures change { result ≡ change_of object.0 (slice_get self.now.state.values object.0)
            value }
        ensures fits { IfSome result (λ c. length
            (slice_index_or self.now.state.values c.object.0 c.value) ≡ length c.value) }
    {
        change_of(object, self.values.find(object), value)
    }

    /// What an update of the net of a process changes.
    pub fn change_by_net(&self, process: usize, value: Bits) -> Option<Change>
        ensures change { result ≡ updated_by self.now.state.values
            (net_at (tables_of self.now.state.design).processes process) value }
        ensures fits { IfSome result (λ c. length
            (slice_index_or self.now.state.values c.object.0 c.value) ≡ length c.value) }
    {
        let net = net_at(self.checked(), process)?;
        self.change_to(net, value)
    }

    /// One more update of the net that a process drives is active.
    fn push_net_update(&mut self, process: usize, value: Bits)
        requires room { 1 ≤ self.old.spare }
        requires within { process < length (tables_of self.old.state.design).processes }
        ensures { self.new.state ≡ with_event self.old.state (NetUpdate process value) }
    {
        let _ = self.queue.push_net_update(process, value);
    }

    /// The evaluation of a continuous process, the k-th of the eligible events, with this value of what it drives the net with; or
    /// out of memory (806).
    fn drive(
        &mut self,
        k: usize,
        process: usize,
        net: ObjectId,
        value: Bits,
    ) -> Result<(), SimError>
        requires { process < length (tables_of self.old.state.design).processes }
        ensures ok { OnOk result (self.new.state
            ≡ driven (with_activation self.old.state) k process net value) }
        ensures refused { IsOkUnless result NoMemory }
        ensures unchanged { OnErr result (self.new.state ≡ self.old.state) }
    {
        self.listen(process, Waiting::Operands)?;
        self.room(1)?;
        let width = self.values.get(net).width();
        self.activate();
        self.take(k);
        self.wait(process, Waiting::Operands);
        self.push_net_update(process, value.resize(width));
        Ok(())
    }

    /// The k-th of the eligible events does nothing, and is over.
    fn pass(&mut self, k: usize)
        ensures { self.new.state ≡ without_event (with_activation self.old.state) k }
    {
        self.activate();
        self.take(k);
    }

    /// The evaluation of a procedure in an instance, the k-th of the eligible events, and what it changed; else the refusal (805, 806).
    fn run_procedure(
        &mut self,
        k: usize,
        process: usize,
        instance: ObjectId,
        repeats: bool,
        body: u32,
    ) -> Result<Option<Change>, SimError>
        ensures ok { IfOk result (λ change. run_procedure (tables_of self.old.state.design)
            (with_activation self.old.state) k process instance repeats body
            (slice_index_or self.old.state.remaining process None) ≡ Goes self.new.state change) }
        ensures refused { IfErr result (Explains NoMemory (refusal_in
            (run_procedure (tables_of self.old.state.design) (with_activation self.old.state) k
            process instance repeats body
            (slice_index_or self.old.state.remaining process None)))) }
        ensures unchanged { OnErr result (self.new.state ≡ self.old.state) }
    {
        let Some(next) = self.next_of(process) else {
            self.pass(k);
            return Ok(None);
        };
        let event = self.next_event(next);
        let effect = self.effect(instance, event);
        self.perform(k, process, repeats, body, event, effect)
    }

    /// The evaluation of this process, the k-th of the eligible events, and what it changed; else the refusal (805, 806).
    fn evaluate_as(
        &mut self,
        k: usize,
        process: usize,
        kind: Process,
    ) -> Result<Option<Change>, SimError>
        requires { process < length (tables_of self.old.state.design).processes }
        ensures ok { IfOk result (λ change. evaluated (tables_of self.old.state.design)
            (with_activation self.old.state) k process (Some kind) ≡ Goes self.new.state change) }
        ensures refused { IfErr result (Explains NoMemory (refusal_in
            (evaluated (tables_of self.old.state.design) (with_activation self.old.state) k process
            (Some kind)))) }
        ensures unchanged { OnErr result (self.new.state ≡ self.old.state) }
    {
        match kind {
            Process::Procedure {
                instance,
                repeats,
                body,
                ..
            } => self.run_procedure(k, process, instance, repeats, body),
            Process::Assignment {
                net,
                instance,
                value,
                ..
            } => {
                let value = eval(self.checked(), &self.values, instance, value);
                self.drive(k, process, net, value)?;
                Ok(None)
            }
            Process::Connection { port, net } => {
                let value = self.values.get(port);
                self.drive(k, process, net, value)?;
                Ok(None)
            }
        }
    }

    /// The evaluation of a process, the k-th of the eligible events, and what it changed; else the refusal (805, 806).
    pub fn evaluate(&mut self, k: usize, process: usize) -> Result<Option<Change>, SimError>
        ensures ok { IfOk result (λ change. evaluated (tables_of self.old.state.design)
            (with_activation self.old.state) k process
            (slice_get (tables_of self.old.state.design).processes process)
            ≡ Goes self.new.state change) }
        ensures refused { IfErr result (Explains NoMemory (refusal_in
            (evaluated (tables_of self.old.state.design) (with_activation self.old.state) k process
            (slice_get (tables_of self.old.state.design).processes process)))) }
        ensures unchanged { OnErr result (self.new.state ≡ self.old.state) }
    {
        match process_at(self.checked(), process) {
            Some(kind) => self.evaluate_as(k, process, kind),
            None => {
                self.pass(k);
                Ok(None)
            }
        }
    }

    /// The evaluation of a procedure in an instance is legal, whichever of the eligible events it is; else the refusal (805).
    #[cold]
    #[inline(never)]
    fn check_turn(&self, process: usize, instance: ObjectId) -> Result<(), SimError>
        ensures ok { OnOk result ((k : ℕ) → (repeats : Bool) → (body : ℕ)
            → IsStep (run_procedure (tables_of self.now.state.design)
            (with_activation self.now.state) k process instance repeats body
            (slice_index_or self.now.state.remaining process None))) }
        ensures refused { IfErr result (λ e. (k : ℕ) → (repeats : Bool) → (body : ℕ)
            → run_procedure (tables_of self.now.state.design)
            (with_activation self.now.state) k process instance repeats body
            (slice_index_or self.now.state.remaining process None)
            ≡ Refuses e) }
    {
        let Some(next) = self.next_of(process) else {
            return Ok(());
        };
        let event = self.next_event(next);
        let effect = self.effect(instance, event);
        if self.is_late(&effect) {
            return Err(SimError::TimeLimit);
        }
        Ok(())
    }

    /// The evaluation of a process is legal, whichever of the eligible events it is; else the refusal (805).
    pub fn check_evaluation(&self, process: usize) -> Result<(), SimError>
        ensures ok { OnOk result ((k : ℕ)
            → IsStep (evaluated (tables_of self.now.state.design) (with_activation self.now.state) k
            process (slice_get (tables_of self.now.state.design).processes process))) }
        ensures refused { IfErr result (λ e. (k : ℕ)
            → evaluated (tables_of self.now.state.design) (with_activation self.now.state) k process
            (slice_get (tables_of self.now.state.design).processes process) ≡ Refuses e) }
    {
        match process_at(self.checked(), process) {
            Some(Process::Procedure { instance, .. }) => self.check_turn(process, instance),
            _ => Ok(()),
        }
    }
}
