ghost use Rattle.std.specs.Prelude.{◌≡◌, IfOk};
ghost use Rattle.vp_race.specs.Recording.{state_seen};

use std::alloc::{AllocError, Global};
use std::marker::Model;
use std::snapshot::Snapshot;
use std::sync::Arc;
use vp_sim::Sim;

/// A simulation as contracts see it. It takes no memory until it is copied.
#[derive(Drop)]
pub enum Seen {
    /// As it was when it was seen.
    First(Snapshot<Sim>),
    /// The same again, for all who copied it.
    Again(Arc<Snapshot<Snapshot<Sim>>>),
}

impl Seen {
    /// The same again; or an error where there is no memory.
    fn try_clone(&self, alloc: Global) -> Result<Seen, AllocError>
        ensures { IfOk result (λ s. state_seen s ≡ state_seen self.now) }
    {
        let again = match self {
            Seen::First(first) => Arc::new(alloc, Snapshot::of(first))?,
            Seen::Again(again) => Arc::try_clone(again)?,
        };
        Ok(Seen::Again(again))
    }
}

/// The state with which a segment began, as contracts see it: it takes no memory but for its time.
#[derive(Drop)]
pub struct Start {
    simulation: Seen,
    /// In time units.
    time: u64,
}

impl Model for Start {
    ghost use Rattle.std.specs.Prelude.{◌≡◌};
    ghost use Rattle.vp_sim.specs.States.{State};
    ghost use Rattle.vp_race.specs.Recording.{state_seen};

    ghost Value = { State };

    ghost view = { λ s. state_seen s.simulation };

    ghost invariant = { λ s. s.time ≡ (state_seen s.simulation).time };
}

impl Start {
    /// A segment begins with a simulation as it is.
    pub fn new(simulation: &Sim) -> Start
        ensures { result ≡ simulation.now }
    {
        Start {
            simulation: Seen::First(Snapshot::of(simulation)),
            time: simulation.time(),
        }
    }

    /// The same again; or an error where there is no memory.
    pub fn try_clone(&self, alloc: Global) -> Result<Start, AllocError>
        ensures { IfOk result (λ s. s ≡ self.now) }
    {
        Ok(Start {
            simulation: self.simulation.try_clone(alloc)?,
            time: self.time,
        })
    }

    /// The time of the segment's slot, in time units.
    pub fn time(&self) -> u64
        ensures { result ≡ self.now.time }
    {
        self.time
    }
}
