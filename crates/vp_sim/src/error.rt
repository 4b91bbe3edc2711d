ghost use Rattle.std.specs.Prelude.{◌≡◌};
ghost use Rattle.vp_sim.specs.declared.error.SimError.TheVariants.{NoMemory};

use std::alloc::{AllocError, AllocFailed};
use thiserror::Error;

/// Why a call of a simulation is refused (docs/FORMATS.md, "Simulation").
#[derive(Clone, Copy, Debug, PartialEq, Eq, Error)]
pub enum SimError {
    /// `$finish` was executed (804).
    #[error("finished")]
    Finished,
    /// Nothing is left to do at the current time; of an advance, at any time (801).
    #[error("idle")]
    Idle,
    /// Something is left to do at the current time (803).
    #[error("slot not done")]
    SlotNotDone,
    /// There are not so many eligible events (802).
    #[error("no such choice")]
    NoSuchChoice,
    /// An event would come at 2^62 or later (805).
    #[error("time limit")]
    TimeLimit,
    /// Out of memory (806).
    #[error("no memory")]
    NoMemory,
}

impl SimError {
    ghost use Rattle.vp_sim.specs.Faults.{code_of};

    /// The number of the refusal, 801 to 806.
    pub fn code(&self) -> u32
        ensures { result ≡ code_of self.now }
    {
        match self {
            SimError::Finished => 804,
            SimError::Idle => 801,
            SimError::SlotNotDone => 803,
            SimError::NoSuchChoice => 802,
            SimError::TimeLimit => 805,
            SimError::NoMemory => 806,
        }
    }
}

impl From<AllocError> for SimError {
    ghost from_gives = { λ _ e. e ≡ NoMemory };

    fn from(_e: AllocError) -> SimError {
        SimError::NoMemory
    }
}

impl<T: Drop> From<AllocFailed<T>> for SimError {
    ghost from_gives = { λ _ e. e ≡ NoMemory };

    fn from(_e: AllocFailed<T>) -> SimError {
        SimError::NoMemory
    }
}
