ghost use Rattle.std.specs.Prelude.{◌≡◌};
ghost use Rattle.vp_design.specs.declared.error.DesignError.TheVariants.{Envelopes, Expressions, Names, NoMemory, Source, Tokens};

use std::alloc::{AllocError, AllocFailed};
use thiserror::Error;
use vp_lex::LexError;
use vp_modules::ElabError;
use vp_parse::ParseError;
use vp_pragma::PragmaError;
use vp_resolve::ExprError;

/// Why a text has no design.
#[derive(Debug, Drop, Error)]
pub enum DesignError {
    #[error(transparent)]
    Tokens(LexError),
    #[error(transparent)]
    Envelopes(PragmaError),
    #[error(transparent)]
    Source(ParseError),
    #[error(transparent)]
    Names(ElabError),
    #[error(transparent)]
    Expressions(ExprError),
    /// A text of over 1,048,576 bytes (1603).
    #[error("too long")]
    TooLong,
    /// Out of memory (1607).
    #[error("no memory")]
    NoMemory,
}

impl DesignError {
    ghost use Rattle.vp_design.specs.Faults.{code_of, line_of};

    /// The number of the fault.
    pub fn code(&self) -> u32
        ensures { result ≡ code_of self.now }
    {
        match self {
            DesignError::Tokens(error) => error.code(),
            DesignError::Envelopes(error) => error.code(),
            DesignError::Source(error) => error.code(),
            DesignError::Names(error) => error.code(),
            DesignError::Expressions(error) => error.code(),
            DesignError::TooLong => 1603,
            DesignError::NoMemory => 1607,
        }
    }

    /// The line of the text at fault, from 1; 0 where none is known.
    pub fn line(&self) -> u32
        ensures { result ≡ line_of self.now }
    {
        match self {
            DesignError::Tokens(error) => error.line(),
            DesignError::Envelopes(error) => error.line(),
            DesignError::Source(error) => error.line(),
            DesignError::Names(error) => error.line(),
            DesignError::Expressions(error) => error.line(),
            DesignError::TooLong | DesignError::NoMemory => 0,
        }
    }
}

impl From<LexError> for DesignError {
    ghost from_gives = { λ error fault. fault ≡ Tokens error };

    fn from(error: LexError) -> DesignError {
        DesignError::Tokens(error)
    }
}

impl From<PragmaError> for DesignError {
    ghost from_gives = { λ error fault. fault ≡ Envelopes error };

    fn from(error: PragmaError) -> DesignError {
        DesignError::Envelopes(error)
    }
}

impl From<ParseError> for DesignError {
    ghost from_gives = { λ error fault. fault ≡ Source error };

    fn from(error: ParseError) -> DesignError {
        DesignError::Source(error)
    }
}

impl From<ElabError> for DesignError {
    ghost from_gives = { λ error fault. fault ≡ Names error };

    fn from(error: ElabError) -> DesignError {
        DesignError::Names(error)
    }
}

impl From<ExprError> for DesignError {
    ghost from_gives = { λ error fault. fault ≡ Expressions error };

    fn from(error: ExprError) -> DesignError {
        DesignError::Expressions(error)
    }
}

impl From<AllocError> for DesignError {
    ghost from_gives = { λ _ e. e ≡ NoMemory };

    fn from(_e: AllocError) -> DesignError {
        DesignError::NoMemory
    }
}

impl<T: Drop> From<AllocFailed<T>> for DesignError {
    ghost from_gives = { λ _ e. e ≡ NoMemory };

    fn from(_e: AllocFailed<T>) -> DesignError {
        DesignError::NoMemory
    }
}
