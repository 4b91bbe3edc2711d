//! Four-valued vectors of at most 64 bits, which contracts see as lists of bits.
#![tactic(auto)]

mod bit;
mod bits;
mod error;
mod same;

pub use bit::Bit;
pub use bits::Bits;
pub use error::BitsError;
