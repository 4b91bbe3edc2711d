// The value of a put (docs/FORMATS.md, "Lines").
ghost use Rattle.std.specs.Prelude.{◌≡◌, ◌+◌, ◌*◌, ◌^◌};
ghost use Rattle.vp_bits.specs.Vector.{IsWidth};
ghost use Rattle.vp_vpi.specs.Calls.{bits_of_vector, digits_vector, put_bits};

use crate::property::{PutValue, VectorWord};
use vp_bits::Bits;

/// The number that two words of 32 bits spell.
fn both(low: u32, high: u32) -> u64
    ensures { result ≡ low + 2 ^ 32 * high }
{
    u64::from(low) + 4_294_967_296 * u64::from(high)
}

/// The bits that words give a vector of a width: as many words as it needs, whose unused bits are 0.
fn words_bits(width: u8, words: &[VectorWord]) -> Option<Bits>
    requires { IsWidth width }
    ensures { result ≡ bits_of_vector width words.now }
{
    match words {
        [low] if width <= 32 => Bits::from_words(width, u64::from(low.aval), u64::from(low.bval)),
        [low, high] if width > 32 => {
            Bits::from_words(width, both(low.aval, high.aval), both(low.bval, high.bval))
        }
        _ => None,
    }
}

/// The bits that digits give a vector of a width: as many digits as it has bits.
fn digits_bits(width: u8, digits: &[u8]) -> Option<Bits>
    requires { IsWidth width }
    ensures { result ≡ digits_vector width digits.now }
{
    if digits.len() != width as usize {
        return None;
    }
    Bits::from_bin(digits).ok()
}

/// The bits that a put gives a vector of a width, in bits; none where its value does not have that width.
pub fn put_bits(width: u32, value: &PutValue) -> Option<Bits>
    ensures { result ≡ put_bits width value.now }
{
    if width < 1 || width > 64 {
        return None;
    }
    match value {
        PutValue::Digits(digits) => digits_bits(width as u8, digits.as_str().as_bytes()),
        PutValue::Words(words) => words_bits(width as u8, words.as_slice()),
    }
}
