ghost use Rattle.std.specs.Prelude.{◌≡◌};
ghost use Rattle.vp_bits.specs.declared.error.BitsError.TheVariants.{NoMemory};
ghost use Rattle.vp_bits.specs.Codes.{code_of};

use std::alloc::AllocError;
use thiserror::Error;

/// Why a vector or its text was refused.
#[derive(Debug, Drop, Error)]
pub enum BitsError {
    #[error("a byte is none of the digits 0, 1, x and z")]
    BadDigit,
    #[error("there are not 1 to 64 digits")]
    BadWidth,
    #[error("out of memory")]
    NoMemory,
}

impl BitsError {
    /// The number of the refusal: 101 for `BadDigit`, 102 for `BadWidth`, 103 for `NoMemory`.
    pub fn code(&self) -> u32
        ensures { result ≡ code_of self.now }
    {
        match self {
            BitsError::BadDigit => 101,
            BitsError::BadWidth => 102,
            BitsError::NoMemory => 103,
        }
    }
}

impl From<AllocError> for BitsError {
    ghost from_gives = { λ _ e. e ≡ NoMemory };

    fn from(_e: AllocError) -> BitsError {
        BitsError::NoMemory
    }
}
