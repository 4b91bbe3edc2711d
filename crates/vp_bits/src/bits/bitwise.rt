ghost use Rattle.std.specs.Prelude.{◌≡◌, length};
ghost use Rattle.vp_bits.specs.Tables.{bitwise, and_bit, or_bit, xor_bit, merge_bit, negated};

use super::{and_not, ones};
use crate::Bits;

impl Bits {
    /// The bitwise and of two vectors of one width (IEEE Std 1364-2005, 5.1.10).
    pub fn and(self, other: Bits) -> Bits
        requires { length self ≡ length other }
        ensures { result ≡ bitwise and_bit self other }
    {
        // A bit that is not 0 in both operands is 1, or x where either is x or z.
        let ones = (self.aval | self.bval) & (other.aval | other.bval);
        Bits {
            width: self.width,
            aval: ones,
            bval: ones & (self.bval | other.bval),
        }
    }

    /// The bitwise or of two vectors of one width (IEEE Std 1364-2005, 5.1.10).
    pub fn or(self, other: Bits) -> Bits
        requires { length self ≡ length other }
        ensures { result ≡ bitwise or_bit self other }
    {
        // A bit that is 1 in either operand is 1; else it is x where either is x or z.
        let unknown = self.bval | other.bval;
        let ones = and_not(self.aval, self.bval) | and_not(other.aval, other.bval);
        Bits {
            width: self.width,
            aval: ones | unknown,
            bval: and_not(unknown, ones),
        }
    }

    /// The bitwise exclusive or of two vectors of one width (IEEE Std 1364-2005, 5.1.10).
    pub fn xor(self, other: Bits) -> Bits
        requires { length self ≡ length other }
        ensures { result ≡ bitwise xor_bit self other }
    {
        let unknown = self.bval | other.bval;
        Bits {
            width: self.width,
            aval: (self.aval ^ other.aval) | unknown,
            bval: unknown,
        }
    }

    /// The bitwise negation (IEEE Std 1364-2005, 5.1.10).
    pub fn not(self) -> Bits
        ensures { result ≡ negated self }
    {
        Bits {
            width: self.width,
            aval: (self.aval ^ ones(self.width)) | self.bval,
            bval: self.bval,
        }
    }

    /// The two arms of a conditional operator whose condition is unknown, merged bit by bit: the bit
    /// that both have where it is 0 or 1, and else x (IEEE Std 1364-2005, 5.1.13). The arms have one
    /// width.
    pub fn merge(self, other: Bits) -> Bits
        requires { length self ≡ length other }
        ensures { result ≡ bitwise merge_bit self other }
    {
        let unknown = (self.aval ^ other.aval) | self.bval | other.bval;
        Bits {
            width: self.width,
            aval: self.aval | unknown,
            bval: unknown,
        }
    }
}
