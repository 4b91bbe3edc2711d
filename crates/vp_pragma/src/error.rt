ghost use Rattle.std.specs.Prelude.{◌≡◌};
ghost use Rattle.vp_pragma.specs.declared.error.PragmaError.TheVariants.{NoMemory};

use std::alloc::{AllocError, AllocFailed};
use thiserror::Error;

/// Why the pragmas of a text are refused. The first fault in the order of the text is reported, by its line;
/// an envelope that is left open is reported last.
#[derive(Debug, Drop, Error)]
pub enum PragmaError {
    /// A `begin` within an envelope (301).
    #[error("line {line}: an envelope begins within an envelope")]
    NestedBegin { line: u32 },
    /// An `end` outside of every envelope (302).
    #[error("line {line}: an envelope ends that did not begin")]
    EndWithoutBegin { line: u32 },
    /// An envelope that does not end; the line is that of its `begin` (303).
    #[error("line {line}: the envelope does not end")]
    OpenEnvelope { line: u32 },
    /// A `begin` or an `end` at a place that is not free, or the two in different modules (304).
    #[error("line {line}: an envelope may not begin or end here")]
    Unbalanced { line: u32 },
    /// A viewport outside of every envelope (305).
    #[error("line {line}: a viewport outside of every envelope")]
    ViewportOutside { line: u32 },
    /// A viewport whose access string names no rights (306).
    #[error("line {line}: bad access")]
    BadAccess { line: u32 },
    /// A keyword of encrypted envelopes (307).
    #[error("line {line}: decryption is needed")]
    NeedsDecryption { line: u32 },
    /// More than 255 envelopes (308).
    #[error("line {line}: more than 255 envelopes")]
    TooMany { line: u32 },
    /// A pragma that is not well formed (309).
    #[error("line {line}: bad pragma")]
    BadPragma { line: u32 },
    /// Out of memory (310).
    #[error("no memory")]
    NoMemory,
}

impl PragmaError {
    ghost use Rattle.vp_pragma.specs.Faults.{code_of, line_of};

    /// The number of the refusal, 301 to 310.
    pub fn code(&self) -> u32
        ensures { result ≡ code_of self.now }
    {
        match self {
            PragmaError::NestedBegin { .. } => 301,
            PragmaError::EndWithoutBegin { .. } => 302,
            PragmaError::OpenEnvelope { .. } => 303,
            PragmaError::Unbalanced { .. } => 304,
            PragmaError::ViewportOutside { .. } => 305,
            PragmaError::BadAccess { .. } => 306,
            PragmaError::NeedsDecryption { .. } => 307,
            PragmaError::TooMany { .. } => 308,
            PragmaError::BadPragma { .. } => 309,
            PragmaError::NoMemory => 310,
        }
    }

    /// The line of the fault, from 1; 0 where there is none.
    pub fn line(&self) -> u32
        ensures { result ≡ line_of self.now }
    {
        match self {
            PragmaError::NestedBegin { line }
            | PragmaError::EndWithoutBegin { line }
            | PragmaError::OpenEnvelope { line }
            | PragmaError::Unbalanced { line }
            | PragmaError::ViewportOutside { line }
            | PragmaError::BadAccess { line }
            | PragmaError::NeedsDecryption { line }
            | PragmaError::TooMany { line }
            | PragmaError::BadPragma { line } => *line,
            PragmaError::NoMemory => 0,
        }
    }
}

impl From<AllocError> for PragmaError {
    ghost from_gives = { λ _ e. e ≡ NoMemory };

    fn from(_e: AllocError) -> PragmaError {
        PragmaError::NoMemory
    }
}

impl<T: Drop> From<AllocFailed<T>> for PragmaError {
    ghost from_gives = { λ _ e. e ≡ NoMemory };

    fn from(_e: AllocFailed<T>) -> PragmaError {
        PragmaError::NoMemory
    }
}
