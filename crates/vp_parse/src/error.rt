ghost use Rattle.std.specs.Prelude.{◌≡◌};
ghost use Rattle.vp_parse.specs.declared.error.ParseError.TheVariants.{NoMemory};

use std::alloc::{AllocError, AllocFailed};
use thiserror::Error;

/// Why a text has no source. The first fault in the order of the text is reported, by its line;
/// one at the end of the text by the line of the last token that the grammar sees.
#[derive(Debug, Drop, Error)]
pub enum ParseError {
    /// The grammar does not go on so (401).
    #[error("line {line}: syntax error")]
    Syntax { line: u32 },
    /// The grammar's whole language may go on so, and this profile or stage leaves it out (402).
    /// The word is named by its place.
    #[error("line {line}: left out")]
    LeftOut { word: u32, line: u32 },
    /// More than 64 statements nested (403).
    #[error("line {line}: nested too deep")]
    TooDeep { line: u32 },
    /// Out of memory (404).
    #[error("no memory")]
    NoMemory,
}

impl ParseError {
    ghost use Rattle.vp_parse.specs.Faults.{code_of, line_of};

    /// The number of the refusal, 401 to 404.
    pub fn code(&self) -> u32
        ensures { result ≡ code_of self.now }
    {
        match self {
            ParseError::Syntax { .. } => 401,
            ParseError::LeftOut { .. } => 402,
            ParseError::TooDeep { .. } => 403,
            ParseError::NoMemory => 404,
        }
    }

    /// The line of the fault, from 1; 0 where there is none.
    pub fn line(&self) -> u32
        ensures { result ≡ line_of self.now }
    {
        match self {
            ParseError::Syntax { line }
            | ParseError::LeftOut { line, .. }
            | ParseError::TooDeep { line } => *line,
            ParseError::NoMemory => 0,
        }
    }
}

impl From<AllocError> for ParseError {
    ghost from_gives = { λ _ e. e ≡ NoMemory };

    fn from(_e: AllocError) -> ParseError {
        ParseError::NoMemory
    }
}

impl<T: Drop> From<AllocFailed<T>> for ParseError {
    ghost from_gives = { λ _ e. e ≡ NoMemory };

    fn from(_e: AllocFailed<T>) -> ParseError {
        ParseError::NoMemory
    }
}
