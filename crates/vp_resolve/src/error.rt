ghost use Rattle.std.specs.Prelude.{◌≡◌};
ghost use Rattle.vp_resolve.specs.declared.error.ExprError.TheVariants.{NoMemory};

use std::alloc::{AllocError, AllocFailed};
use thiserror::Error;

/// Why a design's expressions are refused.
#[derive(Debug, Drop, Error)]
pub enum ExprError {
    /// Something is wider than 64 bits (601): a range, a literal, a part-select, a concatenation or a replication.
    #[error("line {line}: wider than 64 bits")]
    TooWide { line: u32 },
    /// A relational operator on two signed operands (602).
    #[error("line {line}: comparison of signed operands")]
    SignedCompare { line: u32 },
    /// A select of a scalar, a part-select that is not inside the declared range, or a replication of 0 (603).
    #[error("line {line}: bad select")]
    BadSelect { line: u32 },
    /// Out of memory (604).
    #[error("no memory")]
    NoMemory,
}

impl ExprError {
    ghost use Rattle.vp_resolve.specs.Faults.{code_of, line_of};

    /// The number of the refusal, 601 to 604.
    pub fn code(&self) -> u32
        ensures { result ≡ code_of self.now }
    {
        match self {
            ExprError::TooWide { .. } => 601,
            ExprError::SignedCompare { .. } => 602,
            ExprError::BadSelect { .. } => 603,
            ExprError::NoMemory => 604,
        }
    }

    /// The line of the fault, from 1; 0 where there is none.
    pub fn line(&self) -> u32
        ensures { result ≡ line_of self.now }
    {
        match self {
            ExprError::TooWide { line }
            | ExprError::SignedCompare { line }
            | ExprError::BadSelect { line } => *line,
            ExprError::NoMemory => 0,
        }
    }
}

impl From<AllocError> for ExprError {
    ghost from_gives = { λ _ e. e ≡ NoMemory };

    fn from(_e: AllocError) -> ExprError {
        ExprError::NoMemory
    }
}

impl<T: Drop> From<AllocFailed<T>> for ExprError {
    ghost from_gives = { λ _ e. e ≡ NoMemory };

    fn from(_e: AllocFailed<T>) -> ExprError {
        ExprError::NoMemory
    }
}
