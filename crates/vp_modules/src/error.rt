ghost use Rattle.std.specs.Prelude.{◌≡◌};
ghost use Rattle.vp_modules.specs.declared.error.ElabError.TheVariants.{NoMemory};

use std::alloc::{AllocError, AllocFailed};
use thiserror::Error;

/// Why a source has no design. The refusals are tested over the whole text in the order in which they stand here.
#[derive(Debug, Drop, Error)]
pub enum ElabError {
    /// A name that is declared twice in one scope; the line is that of the later declaration (501).
    #[error("line {line}: declared twice")]
    Duplicate { line: u32 },
    /// An instance of a module that there is not (503).
    #[error("line {line}: no such module")]
    UnknownModule { line: u32 },
    /// A module that instantiates itself, at any depth; the line is that of its name (504).
    #[error("line {line}: the module instantiates itself")]
    Recursive { line: u32 },
    /// A name that is no net, reg or local parameter of its module, or in an event no net or reg (502).
    #[error("line {line}: not declared")]
    Undeclared { line: u32 },
    /// A procedure's target that is no reg, or a continuous assignment's that is no net, or is an input (509).
    #[error("line {line}: cannot be assigned so")]
    BadTarget { line: u32 },
    /// A connection to no port or to one that is connected before, or of an output to no whole net (506).
    #[error("line {line}: cannot be connected so")]
    BadConnection { line: u32 },
    /// A second driver of a net (505).
    #[error("line {line}: the net has a driver")]
    MultipleDrivers { line: u32 },
    /// More than 65,536 objects, or a path of more than 64 steps (507).
    #[error("too many objects")]
    TooManyObjects,
    /// A viewport that is on no item of its envelope (508).
    #[error("line {line}: no item of this name for a viewport")]
    ViewportUnknown { line: u32 },
    /// Out of memory (510).
    #[error("no memory")]
    NoMemory,
}

impl ElabError {
    ghost use Rattle.vp_modules.specs.Faults.{code_of, line_of};

    /// The number of the refusal, 501 to 510.
    pub fn code(&self) -> u32
        ensures { result ≡ code_of self.now }
    {
        match self {
            ElabError::Duplicate { .. } => 501,
            ElabError::Undeclared { .. } => 502,
            ElabError::UnknownModule { .. } => 503,
            ElabError::Recursive { .. } => 504,
            ElabError::MultipleDrivers { .. } => 505,
            ElabError::BadConnection { .. } => 506,
            ElabError::TooManyObjects => 507,
            ElabError::ViewportUnknown { .. } => 508,
            ElabError::BadTarget { .. } => 509,
            ElabError::NoMemory => 510,
        }
    }

    /// The line of the fault, from 1; 0 where there is none.
    pub fn line(&self) -> u32
        ensures { result ≡ line_of self.now }
    {
        match self {
            ElabError::Duplicate { line }
            | ElabError::UnknownModule { line }
            | ElabError::Recursive { line }
            | ElabError::Undeclared { line }
            | ElabError::BadTarget { line }
            | ElabError::BadConnection { line }
            | ElabError::MultipleDrivers { line }
            | ElabError::ViewportUnknown { line } => *line,
            ElabError::TooManyObjects | ElabError::NoMemory => 0,
        }
    }
}

impl From<AllocError> for ElabError {
    ghost from_gives = { λ _ e. e ≡ NoMemory };

    fn from(_e: AllocError) -> ElabError {
        ElabError::NoMemory
    }
}

impl<T: Drop> From<AllocFailed<T>> for ElabError {
    ghost from_gives = { λ _ e. e ≡ NoMemory };

    fn from(_e: AllocFailed<T>) -> ElabError {
        ElabError::NoMemory
    }
}
