ghost use Rattle.std.specs.Prelude.{◌≡◌};
ghost use Rattle.vp_bits.specs.Tables.{and_of_all, or_of_all, truth, xor_of_all};

use super::{and_not, ones};
use crate::{Bit, Bits};

impl Bits {
    /// The reduction `&`, as a vector of one bit: the and of 1 and all bits (IEEE Std 1364-2005,
    /// 5.1.11).
    pub fn reduce_and(self) -> Bits
        ensures { result ≡ and_of_all self }
    {
        let zeros = (self.aval | self.bval) ^ ones(self.width);
        if zeros != 0 {
            return Bits::of_bit(Bit::Zero);
        }
        if self.bval != 0 {
            return Bits::of_bit(Bit::Unknown);
        }
        Bits::of_bit(Bit::One)
    }

    /// The reduction `|`, as a vector of one bit: the or of 0 and all bits (IEEE Std 1364-2005, 5.1.11).
    pub fn reduce_or(self) -> Bits
        ensures { result ≡ or_of_all self }
    {
        if and_not(self.aval, self.bval) != 0 {
            return Bits::of_bit(Bit::One);
        }
        if self.bval != 0 {
            return Bits::of_bit(Bit::Unknown);
        }
        Bits::of_bit(Bit::Zero)
    }

    /// The truth of a vector: 1 where a bit is 1, 0 where all bits are 0, and else x (IEEE Std 1364-2005,
    /// 5.1.9, with a bit that is 1 first).
    pub fn truth(self) -> Bit
        ensures { result ≡ truth self }
    {
        self.reduce_or().bit(0)
    }

    /// The reduction `^`, as a vector of one bit: the exclusive or of 0 and all bits (IEEE Std
    /// 1364-2005, 5.1.11).
    pub fn reduce_xor(self) -> Bits
        ensures { result ≡ xor_of_all self }
    {
        if self.bval != 0 {
            return Bits::of_bit(Bit::Unknown);
        }
        Bits::of_number(1, u64::from(self.aval.count_ones()))
    }
}
