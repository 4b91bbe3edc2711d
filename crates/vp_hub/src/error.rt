ghost use Rattle.std.specs.Prelude.{◌≡◌};
ghost use Rattle.vp_world.specs.declared.error.WorldError.TheVariants as world_error;
ghost use Rattle.vp_hub.specs.declared.error.HubError.TheVariants.{World};

use std::alloc::{AllocError, AllocFailed};
use thiserror::Error;
use vp_answer::Refusal;
use vp_world::WorldError;

/// Why a call of a hub is refused.
#[derive(Clone, Copy, Debug, PartialEq, Eq, Error)]
pub enum HubError {
    /// A pass is handed back of a session whose pass is not out (1401).
    #[error("receipt")]
    Receipt,
    /// A hub is closed while a pass is out (1402).
    #[error("mismatch")]
    Mismatch,
    /// The world refuses the event (1403).
    #[error("world: {0}")]
    World(WorldError),
}

impl HubError {
    ghost use Rattle.vp_hub.specs.Faults.{code_of, refusal_of};

    /// The number of the refusal, 1401 to 1403.
    pub fn code(&self) -> u32
        ensures { result ≡ code_of self.now }
    {
        match self {
            HubError::Receipt => 1401,
            HubError::Mismatch => 1402,
            HubError::World(_) => 1403,
        }
    }

    /// What a line reports of the refusal: the world's own, else that a receipt is bad.
    pub fn refusal(self) -> Refusal
        ensures { result ≡ refusal_of self }
    {
        match self {
            HubError::World(error) => Refusal::from(error),
            HubError::Receipt | HubError::Mismatch => Refusal::BadReceipt,
        }
    }
}

impl From<WorldError> for HubError {
    ghost from_gives = { λ error refusal. refusal ≡ World error };

    fn from(error: WorldError) -> HubError {
        HubError::World(error)
    }
}

impl From<AllocError> for HubError {
    ghost from_gives = { λ _ refusal. refusal ≡ World world_error.NoMemory };

    fn from(_e: AllocError) -> HubError {
        HubError::World(WorldError::NoMemory)
    }
}

impl<T: Drop> From<AllocFailed<T>> for HubError {
    ghost from_gives = { λ _ refusal. refusal ≡ World world_error.NoMemory };

    fn from(_e: AllocFailed<T>) -> HubError {
        HubError::World(WorldError::NoMemory)
    }
}
