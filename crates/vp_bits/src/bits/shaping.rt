ghost use Rattle.std.specs.Prelude.{◌≡◌, ◌+◌, ◌*◌, ◌≤◌, length};
ghost use Rattle.vp_bits.specs.Arithmetic.{number_of};
ghost use Rattle.vp_bits.specs.Shaping.{shifted_left, shifted_right, concatenated, repeated, selected, with_selected};
ghost use Rattle.vp_bits.specs.Vector.{IsWidth};

use super::{and_not, lowest, ones};
use crate::Bits;

impl Bits {
    /// The left shift, `<<`, by an amount of any width, filled with 0; all x where a bit of the amount
    /// is x or z (IEEE Std 1364-2005, 5.1.12).
    pub fn shl(self, amount: Bits) -> Bits
        ensures { result ≡ shifted_left self amount }
    {
        let Some(places) = amount.number() else {
            return Bits::unknown(self.width as u8);
        };
        if places >= u64::from(self.width) {
            return Bits::zeros(self.width as u8);
        }
        Bits {
            width: self.width,
            aval: lowest(self.aval << places, self.width),
            bval: lowest(self.bval << places, self.width),
        }
    }

    /// The right shift, `>>`, by an amount of any width, filled with 0; all x where a bit of the amount
    /// is x or z (IEEE Std 1364-2005, 5.1.12).
    pub fn shr(self, amount: Bits) -> Bits
        ensures { result ≡ shifted_right self amount }
    {
        let Some(places) = amount.number() else {
            return Bits::unknown(self.width as u8);
        };
        if places >= u64::from(self.width) {
            return Bits::zeros(self.width as u8);
        }
        Bits {
            width: self.width,
            aval: self.aval >> places,
            bval: self.bval >> places,
        }
    }

    /// The number of a vector, as an unsigned one; none where a bit is x or z (IEEE Std 1364-2005, 4.3.1).
    pub fn number(self) -> Option<u64>
        ensures { result ≡ number_of self }
    {
        if self.bval != 0 {
            return None;
        }
        Some(self.aval)
    }

    /// The concatenation `{self, low}`: `self` has the more significant bits (IEEE Std 1364-2005,
    /// 5.1.14). The two have at most 64 bits together.
    pub fn concat(self, low: Bits) -> Bits
        requires { length self + length low ≤ 64 }
        ensures { result ≡ concatenated self low }
    {
        Bits {
            width: self.width + low.width,
            aval: (self.aval << low.width) | low.aval,
            bval: (self.bval << low.width) | low.bval,
        }
    }

    /// The replication `{count{self}}` (IEEE Std 1364-2005, 5.1.14): at least one copy, and at most 64
    /// bits in all.
    pub fn replicate(self, count: u8) -> Bits
        requires some { 1 ≤ count }
        requires fits { length self * count ≤ 64 }
        ensures { result ≡ repeated count self }
    {
        // One in the lowest place of each copy: times it, a word is copied.
        let width = self.width * count as u64;
        let places = ones(width) / ones(self.width);
        Bits {
            width,
            aval: self.aval * places,
            bval: self.bval * places,
        }
    }

    /// The part-select of the bits from place `low` on, as many as the width says; the least
    /// significant bit has place 0 (IEEE Std 1364-2005, 5.2.1). The part lies inside the vector.
    pub fn select(self, low: u8, width: u8) -> Bits
        requires width { IsWidth width }
        requires inside { low + width ≤ length self }
        ensures { result ≡ selected self low width }
    {
        Bits {
            width: width as u64,
            aval: lowest(self.aval >> low, width as u64),
            bval: lowest(self.bval >> low, width as u64),
        }
    }

    /// The vector with the part in place of as many bits from place `low` on, as an assignment to a
    /// part-select leaves it; the least significant bit has place 0 (IEEE Std 1364-2005, 5.2.1). The
    /// part lies inside the vector.
    pub fn with_select(self, low: u8, part: Bits) -> Bits
        requires { low + length part ≤ length self }
        ensures { result ≡ with_selected self low part }
    {
        let places = ones(part.width) << low;
        Bits {
            width: self.width,
            aval: and_not(self.aval, places) | (part.aval << low),
            bval: and_not(self.bval, places) | (part.bval << low),
        }
    }
}
