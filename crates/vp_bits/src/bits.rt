ghost use Rattle.std.specs.Prelude.{◌≡◌, ◌<◌, ◌-◌, ◌%◌, ◌^◌, ◌↔◌, ◌⊎◌, ℕ, List, [], ◌∷◌, Some, bit_and, bit_xor, length, map, reverse, replicate, slice_get, string_bytes, IfOk, IsTrue, IsOk, IsSome, IsNone, IsErrOf, IsOkUnless};
ghost use Rattle.std.specs.Cmp.{partial_equiv_from_equiv};
ghost use Rattle.vp_bits.specs.declared.bit.Bit.TheVariants.{HighImpedance, Unknown, Zero};
ghost use Rattle.vp_bits.specs.Arithmetic.{bits_of_number};
ghost use Rattle.vp_bits.specs.Digits.{digits_bits, digit_of};
ghost use Rattle.vp_bits.specs.Vector.{IsWidth, aval_of, bits_of_words, bval_of, resized, same_bits};
ghost use Rattle.vp_bits.specs.laws.Words.{same_bits_equiv};

mod arithmetic;
mod bitwise;
mod comparing;
mod reducing;
mod shaping;

use crate::{Bit, BitsError};
use std::alloc::Global;
use std::marker::Model;

/// A vector of 1 to 64 four-valued bits (IEEE Std 1364-2005, 4.1 and 4.3). A contract sees the list
/// of its bits, the least significant first.
// Bits k of aval and bval are 0 and 0 for a 0, 1 and 0 for a 1, 0 and 1 for a z, 1 and 1 for an x, as
// in s_vpi_vecval (IEEE Std 1364-2005, 27). Above the width both words are 0.
#[derive(Clone, Copy, Debug)]
pub struct Bits {
    // As wide as the words, so that a copy of a vector has no padding.
    width: u64,
    aval: u64,
    bval: u64,
}

impl Model for Bits {
    ghost use Rattle.std.specs.Prelude.{List, length};
    ghost use Rattle.vp_bits.specs.declared.bit.Bit.{Bit};

    ghost Value = { List Bit };

    ghost use Rattle.vp_bits.specs.Vector.{bits_of, aval_of, bval_of, IsStored};

    ghost view = { λ v. bits_of v.width v.aval v.bval };

    ghost invariant = { λ v. IsStored v.width v.aval v.bval };

    ghost inverse = { λ bits. record {
      width = length bits;
      aval = aval_of bits;
      bval = bval_of bits;
    } };

    ghost use Rattle.vp_bits.specs.laws.Inverse.{inverse_of_view};

    ghost inverse_ok = { inverse_of_view };
}

impl Bits {
    /// The vector that its digits spell, greatest bit first: each is one of `01xzXZ` (IEEE Std
    /// 1364-2005, 3.5.1). Refuses with `BadWidth` where there are not 1 to 64 of them, and otherwise
    /// with `BadDigit` where a byte is no digit. Takes no memory.
    pub fn from_bin(digits: &[u8]) -> Result<Bits, BitsError>
        ensures ok { IfOk result (λ v. digits_bits digits.now ≡ Some (reverse v)) }
        ensures succeeds { IsOk result ↔
            (IsWidth (length digits.now) × IsSome (digits_bits digits.now)) }
        ensures bad_width { IsErrOf result BitsError.BadWidth ↔
            ((length digits.now ≡ 0) ⊎ (64 < length digits.now)) }
        ensures bad_digit { IsErrOf result BitsError.BadDigit ↔
            (IsWidth (length digits.now) × IsNone (digits_bits digits.now)) }
    {
        if digits.is_empty() || digits.len() > 64 {
            return Err(BitsError::BadWidth);
        }
        let mut aval = 0u64;
        let mut bval = 0u64;
        for digit in digits {
            match Bit::from_digit(*digit) {
                Some(bit) => {
                    aval = aval * 2 + bit.aval();
                    bval = bval * 2 + bit.bval();
                }
                None => return Err(BitsError::BadDigit),
            }
        }
        Ok(Bits {
            width: digits.len() as u64,
            aval,
            bval,
        })
    }

    /// The lower case digits, one of `01xz` for each bit, greatest bit first (IEEE Std 1364-2005,
    /// 3.5.1). Takes memory: refuses with `NoMemory` only where there is none.
    pub fn to_bin(&self, alloc: Global) -> Result<String, BitsError>
        ensures ok { IfOk result (λ s. string_bytes s ≡ map digit_of (reverse self.now)) }
        ensures err { IsOkUnless result BitsError.NoMemory }
    {
        let mut digits = String::new(alloc);
        let mut place = self.width as u8;
        while place > 0 {
            place -= 1;
            digits.push(self.bit(place).digit())?;
        }
        Ok(digits)
    }

    /// The vector with this width, in bits: cut at the greatest bits, or extended by zeros there
    /// (IEEE Std 1364-2005, 5.5.3 and 5.6, for unsigned vectors).
    pub fn resize(self, width: u8) -> Bits
        requires { IsWidth width }
        ensures { result ≡ resized width self }
    {
        Bits {
            width: width as u64,
            aval: lowest(self.aval, width as u64),
            bval: lowest(self.bval, width as u64),
        }
    }

    /// How many bits there are, 1 to 64.
    pub fn width(&self) -> u8
        ensures length { result ≡ length self.now }
        ensures in_range { IsWidth result }
    {
        self.width as u8
    }

    /// The vector of this width, in bits, whose every bit is x (IEEE Std 1364-2005, 4.1).
    pub fn unknown(width: u8) -> Bits
        requires { IsWidth width }
        ensures { result ≡ replicate width Unknown }
    {
        let all = ones(width as u64);
        Bits {
            width: width as u64,
            aval: all,
            bval: all,
        }
    }

    /// The vector of this width, in bits, whose every bit is z (IEEE Std 1364-2005, 4.1).
    pub fn high_impedance(width: u8) -> Bits
        requires { IsWidth width }
        ensures { result ≡ replicate width HighImpedance }
    {
        Bits {
            width: width as u64,
            aval: 0,
            bval: ones(width as u64),
        }
    }

    /// The vector of this width, in bits, whose every bit is 0 (IEEE Std 1364-2005, 4.1).
    pub fn zeros(width: u8) -> Bits
        requires { IsWidth width }
        ensures { result ≡ replicate width Zero }
    {
        Bits {
            width: width as u64,
            aval: 0,
            bval: 0,
        }
    }

    /// The vector of a number's lowest binary digits, as many as the width says, in bits (IEEE Std
    /// 1364-2005, 4.3.1).
    pub fn of_number(width: u8, number: u64) -> Bits
        requires { IsWidth width }
        ensures { result ≡ bits_of_number width number }
    {
        Bits {
            width: width as u64,
            aval: lowest(number, width as u64),
            bval: 0,
        }
    }

    /// The vector of these words aval and bval, in which bit k of each says what bit k of the vector is, as in
    /// s_vpi_vecval (IEEE Std 1364-2005, 27). None where a word has a bit above the width.
    pub fn from_words(width: u8, aval: u64, bval: u64) -> Option<Bits>
        requires { IsWidth width }
        ensures { result ≡ bits_of_words width aval bval }
    {
        let all = ones(width as u64);
        if aval <= all && bval <= all {
            Some(Bits {
                width: width as u64,
                aval,
                bval,
            })
        } else {
            None
        }
    }

    /// The words aval and bval of the vector, as in s_vpi_vecval (IEEE Std 1364-2005, 27): no word has a bit above
    /// the width.
    pub fn words(&self) -> (u64, u64)
        ensures aval { result.0 ≡ aval_of self.now }
        ensures bval { result.1 ≡ bval_of self.now }
    {
        (self.aval, self.bval)
    }

    // The vector of one bit.
    fn of_bit(bit: Bit) -> Bits
        ensures { result ≡ bit ∷ [] }
    {
        Bits {
            width: 1,
            aval: bit.aval(),
            bval: bit.bval(),
        }
    }

    /// The bit at a place, counted from 0 for the least significant one.
    pub fn bit(&self, place: u8) -> Bit
        requires { place < length self.now }
        ensures { slice_get self.now place ≡ Some result }
    {
        Bit::from_words((self.aval >> place) & 1, (self.bval >> place) & 1)
    }
}

impl PartialEq for Bits {
    ghost eq = { same_bits };

    ghost laws = { partial_equiv_from_equiv same_bits_equiv };

    /// Whether the two vectors have the same width and the same bits, x equal to x and z to z.
    fn eq(&self, other: &Bits) -> bool
        ensures gives { result ≡ same_bits self.now other.now }
        ensures same { IsTrue result ↔ (self.now ≡ other.now) }
    {
        (self.width, self.aval, self.bval) == (other.width, other.aval, other.bval)
    }
}

impl Eq for Bits {
    ghost laws = { same_bits_equiv };
}

// The word whose lowest bits are 1, as many as the width says.
fn ones(width: u64) -> u64
    requires { IsWidth width }
    ensures { result ≡ 2 ^ width - 1 }
{
    u64::MAX >> (64 - width)
}

// The lowest bits of a word, as many as the width says.
fn lowest(word: u64, width: u64) -> u64
    requires { IsWidth width }
    ensures { result ≡ word % 2 ^ width }
{
    word & ones(width)
}

// The bits of a word that are not in the other.
fn and_not(word: u64, other: u64) -> u64
    ensures { result ≡ bit_xor word (bit_and word other) }
{
    word & !other
}
