ghost use Rattle.std.specs.Prelude.{◌≡◌};
ghost use Rattle.vp_policy.specs.declared.error.PolicyError.TheVariants.{NoMemory};

use std::alloc::{AllocError, AllocFailed};
use thiserror::Error;

/// Why a policy file is refused.
#[derive(Debug, Drop, Error)]
pub enum PolicyError {
    /// It is no policy file (901).
    #[error("bad policy")]
    BadPolicy,
    /// Two users have one name (902).
    #[error("two users of one name")]
    DuplicateUser,
    /// A grant is for an envelope that the design does not have (903).
    #[error("no such envelope")]
    NoSuchEnvelope,
    /// There are more than 256 users (904).
    #[error("too many users")]
    TooManyUsers,
    /// Out of memory (905).
    #[error("no memory")]
    NoMemory,
}

impl PolicyError {
    ghost use Rattle.vp_policy.specs.Faults.{code_of};

    /// The number of the refusal, 901 to 905.
    pub fn code(&self) -> u32
        ensures { result ≡ code_of self.now }
    {
        match self {
            PolicyError::BadPolicy => 901,
            PolicyError::DuplicateUser => 902,
            PolicyError::NoSuchEnvelope => 903,
            PolicyError::TooManyUsers => 904,
            PolicyError::NoMemory => 905,
        }
    }
}

impl From<AllocError> for PolicyError {
    ghost from_gives = { λ _ e. e ≡ NoMemory };

    fn from(_e: AllocError) -> PolicyError {
        PolicyError::NoMemory
    }
}

impl<T: Drop> From<AllocFailed<T>> for PolicyError {
    ghost from_gives = { λ _ e. e ≡ NoMemory };

    fn from(_e: AllocFailed<T>) -> PolicyError {
        PolicyError::NoMemory
    }
}
