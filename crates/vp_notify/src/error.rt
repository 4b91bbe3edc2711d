ghost use Rattle.std.specs.Prelude.{◌≡◌};
ghost use Rattle.vp_notify.specs.declared.error.NotifyError.TheVariants.{NoMemory};

use std::alloc::{AllocError, AllocFailed};
use thiserror::Error;

/// Why a registry refuses a call (docs/DEFINITIONS.md, "Callbacks").
#[derive(Clone, Copy, Debug, PartialEq, Eq, Error)]
pub enum NotifyError {
    /// As many callbacks as there may be, or every number given (1001).
    #[error("too many callbacks")]
    TooManyCallbacks,
    /// No callback has the number (1002).
    #[error("no such callback")]
    NoSuchCallback,
    /// Out of memory (1003).
    #[error("no memory")]
    NoMemory,
}

impl NotifyError {
    ghost use Rattle.vp_notify.specs.Faults.{code_of};

    /// The number of the refusal, 1001 to 1003.
    pub fn code(&self) -> u32
        ensures { result ≡ code_of self.now }
    {
        match self {
            NotifyError::TooManyCallbacks => 1001,
            NotifyError::NoSuchCallback => 1002,
            NotifyError::NoMemory => 1003,
        }
    }
}

impl From<AllocError> for NotifyError {
    ghost from_gives = { λ _ e. e ≡ NoMemory };

    fn from(_e: AllocError) -> NotifyError {
        NotifyError::NoMemory
    }
}

impl<T: Drop> From<AllocFailed<T>> for NotifyError {
    ghost from_gives = { λ _ e. e ≡ NoMemory };

    fn from(_e: AllocFailed<T>) -> NotifyError {
        NotifyError::NoMemory
    }
}
