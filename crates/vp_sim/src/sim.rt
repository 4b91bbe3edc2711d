ghost use Rattle.std.specs.Prelude.{◌≡◌, length, slice_index_or, None, IfErr, IfOk, OnErr, OnOk, IsOkUnless};
ghost use Rattle.std.specs.Arc.{arc_value};
ghost use Rattle.vp_sim.specs.States.{refusal_in, Goes, IsStep, Refuses, advance, change_in, eligible, next_time, put, slot_done, source_of, start, step};
ghost use Rattle.vp_text.specs.Refusals.{Explains};
ghost use Rattle.vp_operand.specs.Values.{no_value};
ghost use Rattle.vp_sim.specs.declared.error.SimError.TheVariants.{NoMemory};

use crate::error::SimError;
use crate::kept::SimCheckpoint;
use crate::machine::Machine;
use crate::stepped::Stepped;
use std::alloc::Global;
use std::marker::Model;
use std::sync::Arc;
use vp_bits::Bits;
use vp_elab::{Design, ObjectId};
use vp_expr::{Change, Checked, Values};

/// A simulation of a design (IEEE Std 1364-2005, 11.3; docs/FORMATS.md, "Simulation"). A contract sees its state.
// Behind a pointer, so that to move a simulation is to move the pointer, and to let go of it one call.
#[derive(Drop)]
pub struct Sim {
    machine: Box<Machine>,
}

impl Model for Sim {
    ghost use Rattle.vp_sim.specs.States.{State};

    ghost Value = { State };

    ghost view = { λ s. s.machine.value.state };
}

impl Sim {
    /// A simulation of a design in which nothing has happened; or out of memory (806).
    pub fn new(alloc: Global, checked: Arc<Checked>) -> Result<Sim, SimError>
        ensures state { IfOk result (λ sim. sim ≡ start (arc_value checked)) }
        ensures err { IsOkUnless result NoMemory }
    {
        let machine = Machine::new(alloc, checked)?;
        Ok(Sim {
            machine: Box::new(alloc, machine)?,
        })
    }

    /// A copy of the simulation to be kept, which shares what was not written since the last one; or out of memory (806).
    pub fn checkpoint(&mut self) -> Result<SimCheckpoint, SimError>
        ensures copy { IfOk result (λ copy. copy ≡ self.old) }
        ensures same { self.new ≡ self.old }
        ensures err { IsOkUnless result NoMemory }
    {
        self.machine.checkpoint()
    }

    /// A simulation that goes on from a copy; or out of memory (806).
    pub fn of_kept(kept: &SimCheckpoint) -> Result<Sim, SimError>
        ensures state { IfOk result (λ sim. sim ≡ kept.now) }
        ensures err { IsOkUnless result NoMemory }
    {
        let machine = Machine::of_kept(kept)?;
        Ok(Sim {
            machine: Box::new(machine.alloc, machine)?,
        })
    }

    /// The simulation goes on from a copy of one of the same design; or out of memory (806), which leaves it as it was.
    pub fn restore(&mut self, kept: &SimCheckpoint) -> Result<(), SimError>
        requires { self.old.design ≡ kept.now.design }
        ensures ok { OnOk result (self.new ≡ kept.now) }
        ensures refused { IsOkUnless result NoMemory }
        ensures unchanged { OnErr result (self.new ≡ self.old) }
    {
        self.machine.restore(kept)
    }

    /// The design.
    pub fn design(&self) -> &Design
        ensures { result.now ≡ self.now.design }
    {
        self.machine.checked().design()
    }

    /// The values of the objects.
    pub fn values(&self) -> &Values
        ensures { result.now ≡ self.now.values }
    {
        self.machine.values()
    }

    /// The value of an object; one unknown bit for a number that is not there.
    pub fn value(&self, object: ObjectId) -> Bits
        ensures { result ≡ slice_index_or self.now.values object.0 no_value }
    {
        self.machine.values().get(object)
    }

    /// The current time, in time units.
    pub fn time(&self) -> u64
        ensures { result ≡ self.now.time }
    {
        self.machine.time()
    }

    /// The time of the next future event, in time units.
    pub fn next_time(&self) -> Option<u64>
        ensures { result ≡ next_time self.now }
    {
        self.machine.next_time()
    }

    /// `$finish` was executed.
    pub fn finished(&self) -> bool
        ensures { result ≡ self.now.finished }
    {
        self.machine.finished()
    }

    /// Nothing is left to do at the current time.
    pub fn slot_done(&self) -> bool
        ensures { result ≡ slot_done self.now }
    {
        self.machine.slot_done()
    }

    /// How many events a step can take.
    pub fn eligible(&self) -> usize
        ensures { result ≡ length (eligible self.now) }
    {
        self.machine.eligible()
    }

    /// The object of the process whose event is the k-th of those that a step can take; of a connection its port.
    pub fn source(&self, k: usize) -> ObjectId
        ensures { result ≡ source_of self.now k }
    {
        self.machine.source(k)
    }

    /// Takes the k-th of the events that a step can take, and reports what it changed and whose event that was. Refused where `$finish` was executed (804), where
    /// nothing is left to do at the current time (801), where there are not so many events (802), where something would happen at
    /// 2^62 or later (805), or out of memory (806). A refusal leaves the simulation as it was.
    pub fn step(&mut self, k: usize) -> Result<Stepped, SimError>
        ensures ok { IfOk result
            (λ stepped. step self.old k ≡ Goes self.new (change_in self.new stepped.changed)) }
        ensures source { IfOk result (λ stepped. stepped.source ≡ source_of self.old k) }
        ensures refused { IfErr result (Explains NoMemory (refusal_in (step self.old k))) }
        ensures unchanged { OnErr result (self.new ≡ self.old) }
    {
        self.machine.step(k)
    }

    /// What the object has become that a step changed, if it changed one.
    #[inline(always)]
    pub fn change_in(&self, changed: Option<ObjectId>) -> Option<Change>
        ensures { result ≡ change_in self.now changed }
    {
        let object = changed?;
        let value = self.value(object);
        Some(Change { object, value })
    }

    /// A step that takes the k-th of the events is legal; else its refusal (804, 801, 802, 805).
    pub fn check_step(&self, k: usize) -> Result<(), SimError>
        ensures ok { OnOk result (IsStep (step self.now k)) }
        ensures refused { IfErr result (λ e. step self.now k ≡ Refuses e) }
    {
        self.machine.check_step(k)
    }

    /// An advance is legal; else its refusal (804, 803, 801).
    pub fn check_advance(&self) -> Result<(), SimError>
        ensures ok { OnOk result (IsStep (advance self.now)) }
        ensures refused { IfErr result (λ e. advance self.now ≡ Refuses e) }
    {
        self.machine.check_advance()
    }

    /// Goes on to the time of the next future event. Refused where `$finish` was executed (804), where something is left to do at the
    /// current time (803), where there is no future event (801), or out of memory (806). A refusal leaves the simulation as it was.
    pub fn advance(&mut self) -> Result<(), SimError>
        ensures ok { OnOk result (advance self.old ≡ Goes self.new None) }
        ensures refused { IfErr result (Explains NoMemory (refusal_in (advance self.old))) }
        ensures unchanged { OnErr result (self.new ≡ self.old) }
    {
        self.machine.advance()
    }

    /// Gives an object a value at once, at the object's width, wakes what waits for the change, and reports what changed. Refused where
    /// `$finish` was executed (804), or out of memory (806). A refusal leaves the simulation as it was.
    pub fn put(&mut self, object: ObjectId, value: Bits) -> Result<Option<Change>, SimError>
        ensures ok { IfOk result (λ change. put self.old object.0 value ≡ Goes self.new change) }
        ensures refused { IfErr result (Explains NoMemory
            (refusal_in (put self.old object.0 value))) }
        ensures unchanged { OnErr result (self.new ≡ self.old) }
    {
        self.machine.put(object, value)
    }
}
