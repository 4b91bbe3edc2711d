ghost use Rattle.std.specs.Prelude.{◌≡◌};
ghost use Rattle.vp_lex.specs.declared.error.LexError.TheVariants.{NoMemory};

use crate::piece::Fault;
use std::alloc::{AllocError, AllocFailed};
use thiserror::Error;

/// Why a text has no tokens. The first fault in the order of the text is reported, by its line.
#[derive(Debug, Drop, Error)]
pub enum LexError {
    /// No token begins with what stands here (201).
    #[error("line {line}: no token begins here")]
    BadCharacter { line: u32 },
    /// A block comment does not end (202), by the line on which it begins.
    #[error("line {line}: the comment does not end")]
    OpenComment { line: u32 },
    /// A string does not end on its line (203).
    #[error("line {line}: the string does not end")]
    OpenString { line: u32 },
    /// A compiler directive that is not read (204).
    #[error("line {line}: unknown directive")]
    UnknownDirective { line: u32 },
    /// A `` `timescale`` that is followed by other texts than the first of the text (205), by its own line.
    #[error("line {line}: the timescale is not the first one")]
    TimescaleDiffers { line: u32 },
    /// Out of memory (206).
    #[error("no memory")]
    NoMemory,
}

impl LexError {
    ghost use Rattle.vp_lex.specs.Faults.{code_of, line_of};
    ghost use Rattle.vp_lex.specs.Tokens.{error_of};

    /// The error of a fault on a line.
    pub(crate) fn at(fault: Fault, line: u32) -> LexError
        ensures { result ≡ error_of fault line }
    {
        match fault {
            Fault::BadCharacter => LexError::BadCharacter { line },
            Fault::OpenComment => LexError::OpenComment { line },
            Fault::OpenString => LexError::OpenString { line },
            Fault::UnknownDirective => LexError::UnknownDirective { line },
        }
    }

    /// The number of the refusal, 201 to 206.
    pub fn code(&self) -> u32
        ensures { result ≡ code_of self.now }
    {
        match self {
            LexError::BadCharacter { .. } => 201,
            LexError::OpenComment { .. } => 202,
            LexError::OpenString { .. } => 203,
            LexError::UnknownDirective { .. } => 204,
            LexError::TimescaleDiffers { .. } => 205,
            LexError::NoMemory => 206,
        }
    }

    /// The line of the fault, from 1; 0 where there is none.
    pub fn line(&self) -> u32
        ensures { result ≡ line_of self.now }
    {
        match self {
            LexError::BadCharacter { line }
            | LexError::OpenComment { line }
            | LexError::OpenString { line }
            | LexError::UnknownDirective { line }
            | LexError::TimescaleDiffers { line } => *line,
            LexError::NoMemory => 0,
        }
    }
}

impl From<AllocError> for LexError {
    ghost from_gives = { λ _ e. e ≡ NoMemory };

    fn from(_e: AllocError) -> LexError {
        LexError::NoMemory
    }
}

impl<T: Drop> From<AllocFailed<T>> for LexError {
    ghost from_gives = { λ _ e. e ≡ NoMemory };

    fn from(_e: AllocFailed<T>) -> LexError {
        LexError::NoMemory
    }
}
