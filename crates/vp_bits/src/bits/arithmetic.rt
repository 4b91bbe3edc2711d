ghost use Rattle.std.specs.Prelude.{◌≡◌, length};
ghost use Rattle.vp_bits.specs.Arithmetic.{added, subtracted, multiplied};

use crate::Bits;

impl Bits {
    /// The sum modulo 2^width of two vectors of one width, as unsigned numbers; all x where any bit is
    /// x or z (IEEE Std 1364-2005, 5.1.5).
    pub fn add(self, other: Bits) -> Bits
        requires { length self ≡ length other }
        ensures { result ≡ added self other }
    {
        if self.bval | other.bval != 0 {
            return Bits::unknown(self.width as u8);
        }
        Bits::of_number(self.width as u8, self.aval.wrapping_add(other.aval))
    }

    /// The difference modulo 2^width of two vectors of one width, as unsigned numbers; all x where any
    /// bit is x or z (IEEE Std 1364-2005, 5.1.5).
    pub fn sub(self, other: Bits) -> Bits
        requires { length self ≡ length other }
        ensures { result ≡ subtracted self other }
    {
        if self.bval | other.bval != 0 {
            return Bits::unknown(self.width as u8);
        }
        Bits::of_number(self.width as u8, self.aval.wrapping_sub(other.aval))
    }

    /// The product modulo 2^width of two vectors of one width, as unsigned numbers; all x where any bit
    /// is x or z (IEEE Std 1364-2005, 5.1.5).
    pub fn mul(self, other: Bits) -> Bits
        requires { length self ≡ length other }
        ensures { result ≡ multiplied self other }
    {
        if self.bval | other.bval != 0 {
            return Bits::unknown(self.width as u8);
        }
        Bits::of_number(self.width as u8, self.aval.wrapping_mul(other.aval))
    }
}
