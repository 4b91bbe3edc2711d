ghost use Rattle.std.specs.Prelude.{◌≡◌, ◌≤◌, ◌<◌, ◌+◌, false, is_none, length, slice_index_or, slice_set, None, Some, IfErr, IfOk, IfSome, MatchOption, OnErr, OnOk, IsOkUnless};
ghost use Rattle.std.specs.Option.{option_or};
ghost use Rattle.vp_sim.specs.States.{refusal_in, Goes, restart_always, deferred, delay_of, delayed, is_late, next_effect, paused, performs, rest_of, taken_if, with_activation};
ghost use Rattle.vp_text.specs.Refusals.{Explains};
ghost use Rattle.vp_expr.specs.Tables.{tables_of};
ghost use Rattle.vp_sim.specs.declared.error.SimError.TheVariants.{NoMemory};
ghost use Rattle.vp_statement.specs.declared.effect.Effect.TheVariants as effect;
ghost use Rattle.vp_statement.specs.Walking.{after_at, next_event};
ghost use Rattle.vp_strata.specs.Queues.{taken};
ghost use Rattle.vp_expr.specs.Changes.{set_change};

use crate::error::SimError;
use crate::machine::Machine;
use crate::remaining::remaining_of;
use vp_bits::Bits;
use vp_elab::ObjectId;
use vp_expr::{Change, change_of};
use vp_operand::set_in;
use vp_statement::{Effect, effect_of, next_event};
use vp_strata::{Delayed, NonblockingUpdate, TIME_LIMIT};
use vp_waking::Waiting;

/// So much later the event of a procedure makes something happen.
fn delay_of(effect: &Effect) -> u32
    ensures { result ≡ delay_of effect.now }
{
    match effect {
        Effect::Defers { delay, .. } => *delay,
        Effect::Pauses { amount, .. } => *amount,
        Effect::Nothing
        | Effect::Assigns { .. }
        | Effect::Awaits { .. }
        | Effect::Proceeds { .. }
        | Effect::Finishes => 0,
    }
}

/// What happens so much later would happen at 2^62 or later.
fn is_late(time: u64, delay: u32) -> bool
    ensures { result ≡ is_late time delay }
{
    delay > 0 && time.saturating_add(u64::from(delay)) >= TIME_LIMIT
}

/// An `always` begins again where nothing remains of it (9.9.2).
fn restart_always(repeats: bool, body: u32, rest: Option<u32>) -> Option<u32>
    ensures { result ≡ restart_always repeats body rest }
{
    if repeats { rest.or(Some(body)) } else { rest }
}

impl Machine {
    /// The object of a number; none where there is no such object.
    fn object(&self, number: usize) -> Option<ObjectId>
        ensures { MatchOption result (length self.now.state.values ≤ number) (λ o. o.0 ≡ number) }
    {
        if number < self.listeners.checked().design().count() as usize {
            Some(ObjectId(number as u32))
        } else {
            None
        }
    }

    /// What setting bits of an object from a place on changes.
    pub fn set_change(&self, object: usize, place: Option<u32>, value: Bits) -> Option<Change>
        ensures change { result ≡ set_change self.now.state.values object place value }
        ensures fits { IfSome result (λ c. length
            (slice_index_or self.now.state.values c.object.0 c.value) ≡ length c.value) }
    {
        let object = self.object(object)?;
        let old = self.values.find(object)?;
        change_of(object, Some(old), set_in(old, place, value))
    }

    /// The statement with which a process goes on; none where nothing remains of it.
    pub fn next_of(&self, process: usize) -> Option<u32>
        ensures { result ≡ slice_index_or self.now.state.remaining process None }
    {
        remaining_of(self.remaining.as_slice(), process)
    }

    /// The place of the first event of a statement.
    pub fn next_event(&self, statement: u32) -> u32
        ensures { result ≡ next_event (tables_of self.now.state.design).actions statement }
    {
        next_event(self.checked().tables().actions.as_slice(), statement)
    }

    /// What the event at a place does in an instance.
    #[inline(always)]
    pub fn effect(&self, instance: ObjectId, event: u32) -> Effect
        ensures { result ≡ next_effect (tables_of self.now.state.design) self.now.state instance
            event }
    {
        effect_of(self.checked(), &self.values, instance, event)
    }

    /// The statement with which a procedure goes on after the event at a place: the one that the event chose, if it chose one.
    fn rest(&self, repeats: bool, body: u32, event: u32, chosen: Option<u32>) -> Option<u32>
        ensures { result ≡ restart_always repeats body (option_or chosen (after_at
            self.now.state.design.source (tables_of self.now.state.design).actions event)) }
    {
        restart_always(repeats, body, chosen.or(self.flow.next_after(event)))
    }

    /// What the event of a procedure does would happen at 2^62 or later.
    pub fn is_late(&self, effect: &Effect) -> bool
        ensures { result ≡ is_late self.now.state.time (delay_of effect.now) }
    {
        is_late(self.time, delay_of(effect))
    }

    /// A procedure goes on with a statement after its event, the k-th of the eligible ones, which is over where it goes on with none.
    #[inline(always)]
    fn resume_at(&mut self, k: usize, process: usize, rest: Option<u32>)
        ensures state { self.new.state ≡ record (with_activation self.old.state) {
          remaining = slice_set self.old.state.remaining process rest;
          queue = taken_if (is_none rest) (with_activation self.old.state).queue k;
        } }
        ensures spare { self.new.spare ≡ self.old.spare }
        ensures lists { self.new.lists ≡ self.old.lists }
    {
        self.activate();
        self.remaining.set(process, rest);
        if rest.is_none() {
            self.queue.take(k);
        }
    }

    /// A procedure goes on with a statement when it goes on at all; its event, the k-th of the eligible ones, is over.
    #[inline(always)]
    fn suspend(&mut self, k: usize, process: usize, next: u32)
        ensures state { self.new.state ≡ record (with_activation self.old.state) {
          remaining = slice_set self.old.state.remaining process (Some next);
          queue = taken (with_activation self.old.state).queue k;
        } }
        ensures spare { self.new.spare ≡ self.old.spare }
        ensures lists { self.new.lists ≡ self.old.lists }
    {
        self.activate();
        self.remaining.set(process, Some(next));
        self.queue.take(k);
    }

    /// This happens so much later; or out of memory (806).
    fn schedule(&mut self, delay: u32, event: Delayed) -> Result<(), SimError>
        requires on_time { self.old.state.time + delay < TIME_LIMIT }
        ensures ok { OnOk result (self.new.state ≡ delayed self.old.state delay event) }
        ensures refused { IsOkUnless result NoMemory }
        ensures unchanged { OnErr result (self.new.state ≡ self.old.state) }
    {
        match self.queue.push_future(self.time + u64::from(delay), event) {
            Ok(()) => Ok(()),
            Err(_) => Err(SimError::NoMemory),
        }
    }

    /// A process is inactive.
    fn push_inactive(&mut self, process: usize)
        requires { 1 ≤ self.old.spare }
        ensures { self.new.state ≡ paused self.old.state process 0 }
    {
        let _ = self.queue.push_inactive(process);
    }

    /// An update of a nonblocking assignment is made at the end of this time.
    fn push_nonblocking(&mut self, update: NonblockingUpdate)
        requires { 1 ≤ self.old.spare }
        ensures { self.new.state ≡ deferred self.old.state 0 update }
    {
        let _ = self.queue.push_nba(update);
    }

    /// A blocking assignment, the k-th of the eligible events, and what it changes; or out of memory (806).
    fn assign(
        &mut self,
        k: usize,
        process: usize,
        rest: Option<u32>,
        object: usize,
        place: Option<u32>,
        value: Bits,
    ) -> Result<Option<Change>, SimError>
        ensures ok { IfOk result (λ change. performs self.old.state k process rest
            (effect.Assigns object place value) ≡ Goes self.new.state change) }
        ensures refused { IfErr result (Explains NoMemory (refusal_in
            (performs self.old.state k process rest
            (effect.Assigns object place value)))) }
        ensures unchanged { OnErr result (self.new.state ≡ self.old.state) }
    {
        let change = self.set_change(object, place, value);
        self.room_for(&change)?;
        self.resume_at(k, process, rest);
        self.change(&change);
        Ok(change)
    }

    /// A nonblocking assignment, the k-th of the eligible events, whose update is made so much later; else the refusal (805, 806).
    #[tactic(auto, using(crate::proofs::Scheduling::delayed_first))]
    fn assign_later(
        &mut self,
        k: usize,
        rest: Option<u32>,
        update: NonblockingUpdate,
        delay: u32,
    ) -> Result<(), SimError>
        ensures ok { OnOk result (performs self.old.state k update.process rest
            (effect.Defers update.object update.place update.value delay)
            ≡ Goes self.new.state None) }
        ensures refused { IfErr result (Explains NoMemory (refusal_in
            (performs self.old.state k update.process rest
            (effect.Defers update.object update.place update.value delay)))) }
        ensures unchanged { OnErr result (self.new.state ≡ self.old.state) }
    {
        if is_late(self.time, delay) {
            return Err(SimError::TimeLimit);
        }
        let process = update.process;
        if delay > 0 {
            self.schedule(delay, Delayed::Nonblocking { update })?;
            self.resume_at(k, process, rest);
            return Ok(());
        }
        self.room(1)?;
        self.resume_at(k, process, rest);
        self.push_nonblocking(update);
        Ok(())
    }

    /// A delay control, the k-th of the eligible events: the procedure goes on with a statement so much later; else the refusal (805,
    /// 806).
    #[tactic(auto, using(crate::proofs::Scheduling::delayed_first))]
    fn delay(&mut self, k: usize, process: usize, amount: u32, next: u32) -> Result<(), SimError>
        ensures ok { OnOk result (performs self.old.state k process (Some next)
            (effect.Pauses amount next) ≡ Goes self.new.state None) }
        ensures refused { IfErr result (Explains NoMemory (refusal_in
            (performs self.old.state k process (Some next)
            (effect.Pauses amount next)))) }
        ensures unchanged { OnErr result (self.new.state ≡ self.old.state) }
    {
        if is_late(self.time, amount) {
            return Err(SimError::TimeLimit);
        }
        if amount > 0 {
            self.schedule(amount, Delayed::Evaluation { process })?;
            self.suspend(k, process, next);
            return Ok(());
        }
        self.room(1)?;
        self.suspend(k, process, next);
        self.push_inactive(process);
        Ok(())
    }

    /// An event control, or a wait that goes on waiting, the k-th of the eligible events: the procedure goes on with a statement at a
    /// change for which the one at a place waits; or out of memory (806).
    fn control(&mut self, k: usize, process: usize, place: u32, next: u32) -> Result<(), SimError>
        ensures ok { OnOk result (performs self.old.state k process (Some next)
            (effect.Awaits place next) ≡ Goes self.new.state None) }
        ensures refused { IfErr result (Explains NoMemory (refusal_in
            (performs self.old.state k process (Some next)
            (effect.Awaits place next)))) }
        ensures unchanged { OnErr result (self.new.state ≡ self.old.state) }
    {
        self.listen(process, Waiting::Statement(place))?;
        self.suspend(k, process, next);
        self.wait(process, Waiting::Statement(place));
        Ok(())
    }

    /// The event at a place, of a procedure, the k-th of the eligible ones, does this, and what it changes; else the refusal (805, 806).
    #[tactic(auto, using(crate::proofs::Resting::again_some))]
    pub fn perform(
        &mut self,
        k: usize,
        process: usize,
        repeats: bool,
        body: u32,
        event: u32,
        effect: Effect,
    ) -> Result<Option<Change>, SimError>
        ensures ok { IfOk result (λ change. performs self.old.state k process
            (rest_of (tables_of self.old.state.design) self.old.state.design.source repeats body
            event effect) effect ≡ Goes self.new.state change) }
        ensures refused { IfErr result (Explains NoMemory (refusal_in
            (performs self.old.state k process
            (rest_of (tables_of self.old.state.design) self.old.state.design.source repeats body
            event effect) effect))) }
        ensures unchanged { OnErr result (self.new.state ≡ self.old.state) }
    {
        match effect {
            Effect::Assigns {
                object,
                place,
                value,
            } => {
                let rest = self.rest(repeats, body, event, None);
                return self.assign(k, process, rest, object, place, value);
            }
            Effect::Defers {
                object,
                place,
                value,
                delay,
            } => {
                let rest = self.rest(repeats, body, event, None);
                let update = NonblockingUpdate {
                    process,
                    object,
                    place,
                    value,
                };
                self.assign_later(k, rest, update, delay)?;
            }
            Effect::Pauses { amount, next } => self.delay(k, process, amount, next)?,
            Effect::Awaits { place, next } => self.control(k, process, place, next)?,
            Effect::Proceeds { next } => {
                let rest = self.rest(repeats, body, event, next);
                self.resume_at(k, process, rest);
            }
            Effect::Nothing => {
                let rest = self.rest(repeats, body, event, None);
                self.resume_at(k, process, rest);
            }
            Effect::Finishes => {
                let rest = self.rest(repeats, body, event, None);
                self.resume_at(k, process, rest);
                self.finished = true;
            }
        }
        Ok(None)
    }
}
