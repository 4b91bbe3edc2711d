ghost use Rattle.std.specs.Prelude.{◌≡◌};
ghost use Rattle.vp_vpi.specs.declared.error.VpiError.TheVariants.{NoMemory};

use std::alloc::{AllocError, AllocFailed};
use vp_notify::NotifyError;
use vp_policy::DenialText;

/// Why a session's call is refused. The refusals are tested in the order in which they stand here.
#[derive(Drop)]
pub enum VpiError {
    /// A number that is no handle of the session (1101).
    BadHandle,
    /// The user lacks the right that the call needs (1109).
    Denied(DenialText),
    /// The object is of a kind that the call does not take (1102).
    WrongKind,
    /// A put whose value does not have the object's width (1103).
    BadValue,
    /// A put after `$finish` (1104).
    Finished,
    /// 65,536 handles at once, or no number that was not used before (1105).
    TooManyHandles,
    /// Nothing of this name is there, and nothing is hidden there (1106).
    NoSuchName,
    /// 1,024 callbacks at once, or no number that was not used before (1001).
    TooManyCallbacks,
    /// A number that is no callback of the session (1002).
    NoSuchCallback,
    /// No race of this number is shown (1108).
    NoSuchRace,
    /// Out of memory (1107).
    NoMemory,
}

impl VpiError {
    ghost use Rattle.vp_vpi.specs.Faults.{code_of};

    /// The number of the refusal: 1101 to 1109, and of callbacks 1001 and 1002.
    pub fn code(&self) -> u32
        ensures { result ≡ code_of self.now }
    {
        match self {
            VpiError::BadHandle => 1101,
            VpiError::Denied(_) => 1109,
            VpiError::WrongKind => 1102,
            VpiError::BadValue => 1103,
            VpiError::Finished => 1104,
            VpiError::TooManyHandles => 1105,
            VpiError::NoSuchName => 1106,
            VpiError::TooManyCallbacks => 1001,
            VpiError::NoSuchCallback => 1002,
            VpiError::NoSuchRace => 1108,
            VpiError::NoMemory => 1107,
        }
    }
}

impl From<AllocError> for VpiError {
    ghost from_gives = { λ _ e. e ≡ NoMemory };

    fn from(_e: AllocError) -> VpiError {
        VpiError::NoMemory
    }
}

impl<T: Drop> From<AllocFailed<T>> for VpiError {
    ghost from_gives = { λ _ e. e ≡ NoMemory };

    fn from(_e: AllocFailed<T>) -> VpiError {
        VpiError::NoMemory
    }
}

impl From<NotifyError> for VpiError {
    ghost use Rattle.vp_vpi.specs.Faults.{error_of};

    ghost from_gives = { λ error refusal. refusal ≡ error_of error };

    fn from(error: NotifyError) -> VpiError {
        match error {
            NotifyError::TooManyCallbacks => VpiError::TooManyCallbacks,
            NotifyError::NoSuchCallback => VpiError::NoSuchCallback,
            NotifyError::NoMemory => VpiError::NoMemory,
        }
    }
}
