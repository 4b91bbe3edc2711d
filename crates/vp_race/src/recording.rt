ghost use Rattle.std.specs.Prelude.{◌≡◌, ◌<◌, ◌+◌, ◌^◌, None, length, nat_le, option_copied, option_map, IfErr, IfOk, IsOkUnless, MatchOption, OnErr, OnOk};
ghost use Rattle.std.specs.Arc.{arc_value};
ghost use Rattle.vp_sim.specs.States.{refusal_in, Goes, advance, change_in, put, start, step};
ghost use Rattle.vp_text.specs.Refusals.{Explains};
ghost use Rattle.vp_sim.specs.declared.error.SimError.TheVariants.{NoMemory};
ghost use Rattle.vp_race.specs.Recording.{first_segments, jobs_waiting, kept_of, next_job, with_anew, with_job, with_step};

use crate::follow::is_over;
use crate::kept::KeptSegments;
use crate::open_segment::OpenSegment;
use crate::segment::Segment;
use std::alloc::Global;
use std::marker::Model;
use std::sync::Arc;
use vp_bits::Bits;
use vp_elab::ObjectId;
use vp_sim::{Change, Checked, Sim, SimError};

/// A simulation whose time slots are recorded as segments (docs/FORMATS.md, "Races"). A contract sees the state of the simulation, and the
/// segments.
#[derive(Drop)]
pub struct Recording {
    simulation: Sim,
    /// Puts alone keep nothing: it begins with a step.
    begun: OpenSegment,
    closed: KeptSegments,
    /// The number of the segment that was handed out last; 0 before the first.
    last_job: u64,
}

impl Model for Recording {
    ghost use Rattle.vp_race.specs.Recording.{Recorded, Stands, opened_by};

    ghost Value = { Recorded };

    ghost view = { λ r. record {
      simulation = r.simulation;
      segments = record {
        opened = opened_by r.begun r.simulation;
        count = r.closed.count;
        kept = r.closed.kept;
        last_job = r.last_job;
      };
    } };

    ghost invariant = { λ r. Stands r.begun r.simulation };
}

impl Recording {
    /// A simulation of a design in which nothing has happened; or out of memory (806).
    pub fn new(alloc: Global, checked: Arc<Checked>) -> Result<Recording, SimError>
        ensures simulation { IfOk result (λ r. r.simulation ≡ start (arc_value checked)) }
        ensures segments { IfOk result (λ r. r.segments ≡ first_segments r.simulation) }
        ensures err { IsOkUnless result NoMemory }
    {
        let closed = KeptSegments::new(alloc)?;
        let simulation = Sim::new(alloc, checked)?;
        Ok(Recording {
            simulation,
            begun: OpenSegment::new(alloc),
            closed,
            last_job: 0,
        })
    }

    /// The simulation.
    pub fn simulation(&self) -> &Sim
        ensures { result.now ≡ self.now.simulation }
    {
        &self.simulation
    }

    /// How many segments closed.
    pub fn count(&self) -> u64
        ensures { result ≡ self.now.segments.count }
    {
        self.closed.count()
    }

    /// The open segment has at least so many steps.
    #[inline(always)]
    pub fn has_steps(&self, count: usize) -> bool
        ensures { result ≡ nat_le count (length self.now.segments.opened.order) }
    {
        self.begun.has_steps(count)
    }

    /// Takes the k-th of the events that a step can take, and reports which net or reg it changed. It belongs to the open segment, which closes where nothing
    /// is left to do in the time slot after it. Refused where `$finish` was executed (804), where nothing is left to do at the current time (801), where
    /// there are not so many events (802), where something would happen at 2^62 or later (805), or out of memory (806). A refusal leaves
    /// all as it was.
    pub fn step(&mut self, k: u32) -> Result<Option<ObjectId>, SimError>
        requires { self.old.segments.count + 1 < 2 ^ 64 }
        ensures ok { IfOk result (λ changed. step self.old.simulation k
            ≡ Goes self.new.simulation (change_in self.new.simulation changed)) }
        ensures segments { OnOk result
            (self.new.segments ≡ with_step self.old.segments k self.new.simulation) }
        ensures refused { IfErr result (Explains NoMemory
            (refusal_in (step self.old.simulation k))) }
        ensures unchanged { OnErr result (self.new ≡ self.old) }
    {
        if self.begun.make_ready(&mut self.simulation).is_err() {
            // The simulation's own refusal comes before out of memory.
            self.simulation.check_step(k as usize)?;
            return Err(SimError::NoMemory);
        }
        let stepped = self.simulation.step(k as usize)?;
        self.begun.note(k, stepped.source);
        if is_over(&self.simulation) {
            self.begun.close(&mut self.closed, &self.simulation);
        }
        Ok(stepped.changed)
    }

    /// Goes on to the time of the next future event, where a segment begins. Refused where `$finish` was executed (804), where something is left
    /// to do at the current time (803), where there is no future event (801), or out of memory (806). A refusal leaves all as it was.
    pub fn advance(&mut self) -> Result<(), SimError>
        ensures ok { OnOk result (advance self.old.simulation ≡ Goes self.new.simulation None) }
        ensures segments { OnOk result
            (self.new.segments ≡ with_anew self.old.segments self.new.simulation) }
        ensures refused { IfErr result (Explains NoMemory
            (refusal_in (advance self.old.simulation))) }
        ensures unchanged { OnErr result (self.new ≡ self.old) }
    {
        self.simulation.advance()?;
        self.begun.clear();
        Ok(())
    }

    /// Gives an object a value at once, at the object's width, wakes what waits for the change, and reports what changed; the segment begins anew. Refused
    /// where `$finish` was executed (804), or out of memory (806). A refusal leaves all as it was.
    pub fn put(&mut self, object: ObjectId, value: Bits) -> Result<Option<Change>, SimError>
        ensures ok { IfOk result
            (λ change. put self.old.simulation object.0 value ≡ Goes self.new.simulation change) }
        ensures segments { OnOk result
            (self.new.segments ≡ with_anew self.old.segments self.new.simulation) }
        ensures refused { IfErr result (Explains NoMemory
            (refusal_in (put self.old.simulation object.0 value))) }
        ensures unchanged { OnErr result (self.new ≡ self.old) }
    {
        let change = self.simulation.put(object, value)?;
        self.begun.clear();
        Ok(change)
    }

    /// The kept segment of a number; none where it is not kept.
    pub fn kept(&self, number: u64) -> Option<&Segment>
        ensures { option_copied result ≡ kept_of self.now.segments number }
    {
        self.closed.find(number)
    }

    /// The oldest kept segment that was not handed out, if there is one.
    pub fn next_job(&self) -> Option<&Segment>
        ensures { option_copied result ≡ next_job self.now.segments }
    {
        self.closed.next(self.last_job)
    }

    /// How many kept segments were not handed out.
    pub fn jobs_waiting(&self) -> usize
        ensures { result ≡ jobs_waiting self.now.segments }
    {
        self.closed.count_after(self.last_job)
    }

    /// Hands out the oldest kept segment that was not handed out, and reports its number; none where there is none, and nothing changes.
    pub fn take_job(&mut self) -> Option<u64>
        ensures number { result ≡ option_map (λ run. run.number) (next_job self.old.segments) }
        ensures simulation { self.new.simulation ≡ self.old.simulation }
        ensures segments { MatchOption (next_job self.old.segments)
            (self.new.segments ≡ self.old.segments)
            (λ run. self.new.segments ≡ with_job self.old.segments run) }
    {
        let number = self.next_job()?.number();
        self.last_job = number;
        Some(number)
    }
}
