ghost use Rattle.std.specs.Prelude.{◌≡◌, [], ◌∷◌, Some, length};
ghost use Rattle.vp_bits.specs.Comparing.{less, equal, case_equal, casez_matches, bit_of_answer};

use super::and_not;
use crate::{Bit, Bits};

impl Bits {
    /// Logical equality, `==`, of two vectors of one width, as a vector of one bit: 0 where two known
    /// bits differ, and else x where any bit is x or z, and else 1 (IEEE Std 1364-2005, 5.1.8, with
    /// known differences first).
    pub fn eq(self, other: Bits) -> Bits
        requires { length self ≡ length other }
        ensures { result ≡ equal self other }
    {
        let unknown = self.bval | other.bval;
        if and_not(self.aval ^ other.aval, unknown) != 0 {
            return Bits::of_bit(Bit::Zero);
        }
        if unknown != 0 {
            return Bits::of_bit(Bit::Unknown);
        }
        Bits::of_bit(Bit::One)
    }

    /// Case equality, `===`, of two vectors of one width, as a vector of one bit: 1 where they have the
    /// same bits, x equal to x and z to z, and else 0 (IEEE Std 1364-2005, 5.1.8).
    pub fn case_eq(self, other: Bits) -> Bits
        requires { length self ≡ length other }
        ensures { result ≡ case_equal self other }
    {
        let differing = (self.aval ^ other.aval) | (self.bval ^ other.bval);
        Bits::of_test(differing == 0)
    }

    /// Whether two vectors of one width match where a z of either matches any bit (IEEE Std 1364-2005,
    /// 9.5.1, `casez`).
    pub fn casez_matches(self, other: Bits) -> bool
        requires { length self ≡ length other }
        ensures { result ≡ casez_matches self other }
    {
        let differing = (self.aval ^ other.aval) | (self.bval ^ other.bval);
        let z = and_not(self.bval, self.aval) | and_not(other.bval, other.aval);
        and_not(differing, z) == 0
    }

    /// The relation `<` on two vectors of one width, as unsigned numbers, as a vector of one bit: x
    /// where any bit is x or z (IEEE Std 1364-2005, 5.1.7).
    pub fn lt(self, other: Bits) -> Bits
        requires { length self ≡ length other }
        ensures { result ≡ less self other }
    {
        if self.bval | other.bval != 0 {
            return Bits::of_bit(Bit::Unknown);
        }
        Bits::of_test(self.aval < other.aval)
    }

    // The vector of one bit that is 1 where the test holds.
    fn of_test(test: bool) -> Bits
        ensures { result ≡ bit_of_answer (Some test) ∷ [] }
    {
        Bits {
            width: 1,
            aval: u64::from(test),
            bval: 0,
        }
    }
}
