ghost use Rattle.std.specs.Prelude.{◌≡◌};
ghost use Rattle.vp_wire.specs.declared.error.WireError.TheVariants.{NoMemory};

use std::alloc::{AllocError, AllocFailed};
use thiserror::Error;

/// What is wrong with a line, or with the reader or the writer of lines.
#[derive(Clone, Copy, Debug, PartialEq, Eq, Error)]
pub enum WireError {
    /// A line of over 65,536 bytes without its newline (1503).
    #[error("line too long")]
    LineTooLong,
    /// A line that is no JSON text (1501).
    #[error("bad json")]
    BadJson,
    /// A line that is no request (1502).
    #[error("bad request")]
    BadRequest,
    /// Out of memory (1507).
    #[error("no memory")]
    NoMemory,
    /// The reader failed (1504).
    #[error("the reader failed")]
    ReadFault,
    /// The writer failed (1505).
    #[error("the writer failed")]
    WriteFault,
    /// The reader was asked 16,777,216 times (1506).
    #[error("too many reads")]
    TurnLimit,
}

impl WireError {
    ghost use Rattle.vp_wire.specs.Faults.{code_of};

    /// The number of the fault, 1501 to 1507.
    pub fn code(&self) -> u32
        ensures { result ≡ code_of self.now }
    {
        match self {
            WireError::LineTooLong => 1503,
            WireError::BadJson => 1501,
            WireError::BadRequest => 1502,
            WireError::NoMemory => 1507,
            WireError::ReadFault => 1504,
            WireError::WriteFault => 1505,
            WireError::TurnLimit => 1506,
        }
    }
}

impl From<AllocError> for WireError {
    ghost from_gives = { λ _ e. e ≡ NoMemory };

    fn from(_e: AllocError) -> WireError {
        WireError::NoMemory
    }
}

impl<T: Drop> From<AllocFailed<T>> for WireError {
    ghost from_gives = { λ _ e. e ≡ NoMemory };

    fn from(_e: AllocFailed<T>) -> WireError {
        WireError::NoMemory
    }
}
