ghost use Rattle.std.specs.Prelude.{◌≡◌};
ghost use Rattle.vp_strata.specs.declared.error.StrataError.TheVariants.{NoMemory};

use std::alloc::{AllocError, AllocFailed};
use thiserror::Error;

/// Why an event queue takes no event (docs/FORMATS.md, "Simulation").
#[derive(Clone, Copy, Debug, PartialEq, Eq, Error)]
pub enum StrataError {
    /// A time of 2^62 or more (702).
    #[error("time limit")]
    TimeLimit,
    /// Out of memory (701).
    #[error("no memory")]
    NoMemory,
}

impl StrataError {
    ghost use Rattle.vp_strata.specs.Faults.{code_of};

    /// The number of the refusal, 701 or 702.
    pub fn code(&self) -> u32
        ensures { result ≡ code_of self.now }
    {
        match self {
            StrataError::TimeLimit => 702,
            StrataError::NoMemory => 701,
        }
    }
}

impl From<AllocError> for StrataError {
    ghost from_gives = { λ _ e. e ≡ NoMemory };

    fn from(_e: AllocError) -> StrataError {
        StrataError::NoMemory
    }
}

impl<T: Drop> From<AllocFailed<T>> for StrataError {
    ghost from_gives = { λ _ e. e ≡ NoMemory };

    fn from(_e: AllocFailed<T>) -> StrataError {
        StrataError::NoMemory
    }
}
