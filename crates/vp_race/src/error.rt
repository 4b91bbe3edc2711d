ghost use Rattle.std.specs.Prelude.{◌≡◌};
ghost use Rattle.vp_race.specs.declared.error.RaceError.TheVariants.{NoMemory};

use std::alloc::{AllocError, AllocFailed};
use thiserror::Error;

/// Why a race is not found or not booked (docs/FORMATS.md, "Races").
#[derive(Clone, Copy, Debug, PartialEq, Eq, Error)]
pub enum RaceError {
    /// The choices are no order of the time slot (1201).
    #[error("not an order")]
    NotAnOrder,
    /// Something is left to do in the time slot after the choices (1202).
    #[error("not complete")]
    NotComplete,
    /// The object has the same value after both orders (1203).
    #[error("same value")]
    SameValue,
    /// The time slot is no longer kept (1204).
    #[error("segment gone")]
    SegmentGone,
    /// The object is booked for this time slot (1205).
    #[error("booked")]
    Booked,
    /// The book has as many races as it may (1206).
    #[error("book full")]
    BookFull,
    /// Out of memory (1207).
    #[error("no memory")]
    NoMemory,
}

impl RaceError {
    ghost use Rattle.vp_race.specs.Faults.{code_of};

    /// The number of the refusal, 1201 to 1207.
    pub fn code(&self) -> u32
        ensures { result ≡ code_of self.now }
    {
        match self {
            RaceError::NotAnOrder => 1201,
            RaceError::NotComplete => 1202,
            RaceError::SameValue => 1203,
            RaceError::SegmentGone => 1204,
            RaceError::Booked => 1205,
            RaceError::BookFull => 1206,
            RaceError::NoMemory => 1207,
        }
    }
}

impl From<AllocError> for RaceError {
    ghost from_gives = { λ _ e. e ≡ NoMemory };

    fn from(_e: AllocError) -> RaceError {
        RaceError::NoMemory
    }
}

impl<T: Drop> From<AllocFailed<T>> for RaceError {
    ghost from_gives = { λ _ e. e ≡ NoMemory };

    fn from(_e: AllocFailed<T>) -> RaceError {
        RaceError::NoMemory
    }
}
