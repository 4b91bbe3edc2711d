ghost use Rattle.std.specs.Prelude.{◌≡◌};
ghost use Rattle.vp_script.specs.declared.error.ServeFault.TheVariants.{Design, NoMemory, Policy, World};

use std::alloc::{AllocError, AllocFailed};
use thiserror::Error;
use vp_design::DesignError;
use vp_policy::PolicyError;
use vp_wire::WireError;
use vp_world::WorldError;

/// Why a run has ended without success.
#[derive(Debug, Drop, Error)]
pub enum ServeFault {
    #[error(transparent)]
    Design(DesignError),
    #[error(transparent)]
    Policy(PolicyError),
    #[error(transparent)]
    World(WorldError),
    #[error(transparent)]
    Lines(WireError),
    /// A bundle without two lines `%%`, or whose design is no UTF-8 (1601).
    #[error("bad bundle")]
    BadBundle,
    /// A file or standard input that can't be read, or a design that is no UTF-8 (1602).
    #[error("reading failed")]
    ReadFailed,
    /// A policy, or a file of a design, of over 1,048,576 bytes, or a bundle of over 16,777,216 (1603).
    #[error("too long")]
    TooLong,
    /// A user who is not in the policy (1604).
    #[error("no such user")]
    NoSuchUser,
    /// Out of memory (1607).
    #[error("no memory")]
    NoMemory,
}

impl ServeFault {
    ghost use Rattle.vp_script.specs.Faults.{code_of, line_of};

    /// The number of the fault.
    pub fn code(&self) -> u32
        ensures { result ≡ code_of self.now }
    {
        match self {
            ServeFault::Design(error) => error.code(),
            ServeFault::Policy(error) => error.code(),
            ServeFault::World(error) => error.code(),
            ServeFault::Lines(error) => error.code(),
            ServeFault::BadBundle => 1601,
            ServeFault::ReadFailed => 1602,
            ServeFault::TooLong => 1603,
            ServeFault::NoSuchUser => 1604,
            ServeFault::NoMemory => 1607,
        }
    }

    /// The line of the design at fault, from 1; 0 where none is known.
    pub fn line(&self) -> u32
        ensures { result ≡ line_of self.now }
    {
        match self {
            ServeFault::Design(error) => error.line(),
            _ => 0,
        }
    }
}

impl From<DesignError> for ServeFault {
    ghost from_gives = { λ error fault. fault ≡ Design error };

    fn from(error: DesignError) -> ServeFault {
        ServeFault::Design(error)
    }
}

impl From<PolicyError> for ServeFault {
    ghost from_gives = { λ error fault. fault ≡ Policy error };

    fn from(error: PolicyError) -> ServeFault {
        ServeFault::Policy(error)
    }
}

impl From<WorldError> for ServeFault {
    ghost from_gives = { λ error fault. fault ≡ World error };

    fn from(error: WorldError) -> ServeFault {
        ServeFault::World(error)
    }
}

impl From<AllocError> for ServeFault {
    ghost from_gives = { λ _ e. e ≡ NoMemory };

    fn from(_e: AllocError) -> ServeFault {
        ServeFault::NoMemory
    }
}

impl<T: Drop> From<AllocFailed<T>> for ServeFault {
    ghost from_gives = { λ _ e. e ≡ NoMemory };

    fn from(_e: AllocFailed<T>) -> ServeFault {
        ServeFault::NoMemory
    }
}
