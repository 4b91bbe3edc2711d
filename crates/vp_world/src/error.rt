ghost use Rattle.std.specs.Prelude.{◌≡◌};
ghost use Rattle.vp_world.specs.declared.error.WorldError.TheVariants.{NoMemory};

use std::alloc::{AllocError, AllocFailed};
use std::error::Error;
use std::fmt;
use vp_answer::Refusal;
use vp_race::{RaceError, SimError};

/// Why an event is refused. Those of an event are tested in the order in which they stand here, but that a step and an advance
/// meet the log's limit first.
#[derive(Clone, Copy, Debug, PartialEq, Eq)]
pub enum WorldError {
    /// No user of this name has this token (1302).
    BadToken,
    /// As many sessions are open as the limit allows (1301).
    SessionsFull,
    /// The session is not open (1303).
    NotOpen,
    /// The token is not the operator's, or the policy has no operator (1310).
    BadOperator,
    /// No user has this name (1311).
    NoSuchUser,
    /// No envelope has this number (1312).
    NoSuchEnvelope,
    /// The log has as many entries as the limit allows (1304).
    LogFull,
    /// No run reaches so far (1305).
    BeyondGoal,
    /// No kept segment is left to be handed out (1306).
    NoJob,
    /// The simulation refuses it (1308).
    Sim(SimError),
    /// The book refuses it (1309).
    Race(RaceError),
    /// Out of memory (1307).
    NoMemory,
}

impl WorldError {
    ghost use Rattle.vp_world.specs.Faults.{code_of};

    /// The number of the refusal, 1301 to 1312.
    pub fn code(&self) -> u32
        ensures { result ≡ code_of self.now }
    {
        match self {
            WorldError::BadToken => 1302,
            WorldError::SessionsFull => 1301,
            WorldError::NotOpen => 1303,
            WorldError::BadOperator => 1310,
            WorldError::NoSuchUser => 1311,
            WorldError::NoSuchEnvelope => 1312,
            WorldError::LogFull => 1304,
            WorldError::BeyondGoal => 1305,
            WorldError::NoJob => 1306,
            WorldError::Sim(_) => 1308,
            WorldError::Race(_) => 1309,
            WorldError::NoMemory => 1307,
        }
    }
}

impl From<WorldError> for Refusal {
    ghost use Rattle.vp_world.specs.Refusals.{refusal_of_error};

    ghost from_gives = { λ error refusal. refusal ≡ refusal_of_error error };

    fn from(error: WorldError) -> Refusal {
        match error {
            WorldError::BadToken => Refusal::BadToken,
            WorldError::SessionsFull => Refusal::SessionsFull,
            WorldError::NotOpen => Refusal::NotOpen,
            WorldError::BadOperator => Refusal::BadOperator,
            WorldError::NoSuchUser => Refusal::NoSuchUser,
            WorldError::NoSuchEnvelope => Refusal::NoSuchEnvelope,
            WorldError::LogFull => Refusal::LogFull,
            WorldError::BeyondGoal => Refusal::BeyondGoal,
            WorldError::NoJob => Refusal::NoJob,
            WorldError::Sim(_) => Refusal::Simulation,
            WorldError::Race(_) => Refusal::Race,
            WorldError::NoMemory => Refusal::NoMemory,
        }
    }
}

impl fmt::Display for WorldError {
    fn fmt<W: fmt::Write>(&self, f: &mut fmt::Formatter<W>) -> fmt::Result {
        let text = Refusal::from(*self).text();
        match self {
            WorldError::Sim(error) => write!(f, "{text}: {error}"),
            WorldError::Race(error) => write!(f, "{text}: {error}"),
            _ => f.write_str(text),
        }
    }
}

impl Error for WorldError {}

impl From<SimError> for WorldError {
    ghost use Rattle.vp_world.specs.Faults.{error_of};

    ghost from_gives = { λ error refusal. refusal ≡ error_of error };

    fn from(error: SimError) -> WorldError {
        match error {
            SimError::NoMemory => WorldError::NoMemory,
            other => WorldError::Sim(other),
        }
    }
}

impl From<RaceError> for WorldError {
    ghost use Rattle.vp_world.specs.Faults.{error_of_race};

    ghost from_gives = { λ error refusal. refusal ≡ error_of_race error };

    fn from(error: RaceError) -> WorldError {
        match error {
            RaceError::NoMemory => WorldError::NoMemory,
            other => WorldError::Race(other),
        }
    }
}

impl From<AllocError> for WorldError {
    ghost from_gives = { λ _ e. e ≡ NoMemory };

    fn from(_e: AllocError) -> WorldError {
        WorldError::NoMemory
    }
}

impl<T: Drop> From<AllocFailed<T>> for WorldError {
    ghost from_gives = { λ _ e. e ≡ NoMemory };

    fn from(_e: AllocFailed<T>) -> WorldError {
        WorldError::NoMemory
    }
}
