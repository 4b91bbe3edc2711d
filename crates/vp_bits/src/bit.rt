ghost use Rattle.std.specs.Prelude.{◌≡◌};
ghost use Rattle.vp_bits.specs.Digits.{bit_of, digit_of};
ghost use Rattle.vp_bits.specs.Vector.{aval_bit, bval_bit, bit_from};

/// One bit: a value of the value set (IEEE Std 1364-2005, 4.1).
#[derive(Clone, Copy, Debug, PartialEq, Eq)]
pub enum Bit {
    /// 0, a false condition.
    Zero,
    /// 1, a true condition.
    One,
    /// x, an unknown value.
    Unknown,
    /// z, a high-impedance state.
    HighImpedance,
}

impl Bit {
    /// The bit that a byte is the digit of: one of `01xzXZ` (IEEE Std 1364-2005, 3.5.1). `None` for
    /// every other byte.
    pub fn from_digit(digit: u8) -> Option<Bit>
        ensures { result ≡ bit_of digit }
    {
        match digit {
            b'0' => Some(Bit::Zero),
            b'1' => Some(Bit::One),
            b'x' | b'X' => Some(Bit::Unknown),
            b'z' | b'Z' => Some(Bit::HighImpedance),
            _ => None,
        }
    }

    /// The lower case digit: one of `01xz` (IEEE Std 1364-2005, 3.5.1).
    pub fn digit(self) -> char
        ensures { result ≡ digit_of self }
    {
        match self {
            Bit::Zero => '0',
            Bit::One => '1',
            Bit::Unknown => 'x',
            Bit::HighImpedance => 'z',
        }
    }

    // The bit of the word aval.
    pub(crate) fn aval(self) -> u64
        ensures { result ≡ aval_bit self }
    {
        match self {
            Bit::One | Bit::Unknown => 1,
            Bit::Zero | Bit::HighImpedance => 0,
        }
    }

    // The bit of the word bval.
    pub(crate) fn bval(self) -> u64
        ensures { result ≡ bval_bit self }
    {
        match self {
            Bit::HighImpedance | Bit::Unknown => 1,
            Bit::Zero | Bit::One => 0,
        }
    }

    // The bit for these bits of the words aval and bval, where each number above 0 counts as 1.
    pub(crate) fn from_words(aval: u64, bval: u64) -> Bit
        ensures { result ≡ bit_from aval bval }
    {
        match (aval, bval) {
            (0, 0) => Bit::Zero,
            (0, _) => Bit::HighImpedance,
            (_, 0) => Bit::One,
            _ => Bit::Unknown,
        }
    }
}
