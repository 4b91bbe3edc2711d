ghost use Rattle.std.specs.Prelude.{◌≡◌};
ghost use Rattle.vp_replay.specs.declared.error.AuditError.TheVariants.{NoMemory};

use std::alloc::{AllocError, AllocFailed};

/// Why a log is not projected, or what goes to a user of it is not replayed.
#[derive(Clone, Copy, Debug, PartialEq, Eq)]
pub enum AuditError {
    /// What is replayed goes to no user of any log: an event of a session that is not open, more sessions than can be numbered, or a
    /// change of grants under whose numbers the objects lose their order or a session its objects (1303).
    NotOpen,
    /// Out of memory (1307).
    NoMemory,
}

impl AuditError {
    ghost use Rattle.vp_replay.specs.Faults.{code_of};

    /// The number of the refusal: 1303 or 1307.
    pub fn code(self) -> u32
        ensures { result ≡ code_of self }
    {
        match self {
            AuditError::NotOpen => 1303,
            AuditError::NoMemory => 1307,
        }
    }
}

impl From<AllocError> for AuditError {
    ghost from_gives = { λ _ e. e ≡ NoMemory };

    fn from(_e: AllocError) -> AuditError {
        AuditError::NoMemory
    }
}

impl<T: Drop> From<AllocFailed<T>> for AuditError {
    ghost from_gives = { λ _ e. e ≡ NoMemory };

    fn from(_e: AllocFailed<T>) -> AuditError {
        AuditError::NoMemory
    }
}
