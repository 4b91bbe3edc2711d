ghost use Rattle.std.specs.Prelude.{◌≡◌, ◌%◌, ◌^◌, drop, replicate, slice_get, IfSome};
ghost use Rattle.std.specs.List.{filter_map, fold};
ghost use Rattle.vp_bits.specs.Vector.{IsWidth};
ghost use Rattle.vp_operand.specs.Literals.{based_bits, decimal_of, digit_at, digit_bits, digit_value, digit_width, digits_value, literal_bits, number_bits, pad_of, sized_bits};
ghost use Rattle.vp_operand.specs.LiteralSteps.{number_with, pushed, with_byte};

use vp_bits::Bits;

/// How many bits a base part without a size and a number without a base have.
const UNSIZED_WIDTH: u8 = 32;

/// The greatest width of a vector, in bits.
const WIDTH_LIMIT: u32 = 64;

/// The digit that a byte after the base letter stands for.
fn digit_at(byte: u8) -> Option<u8>
    ensures { result ≡ digit_at byte }
{
    match byte {
        b'_' => None,
        b'?' => Some(b'z'),
        byte if byte.is_ascii_whitespace() => None,
        byte => Some(byte),
    }
}

/// The number of a digit 0 to 9, a to f or A to F.
fn digit_value(digit: u8) -> u8
    ensures { result ≡ digit_value digit }
{
    if digit < 58 {
        return digit.saturating_sub(48);
    }
    if digit < 71 {
        return digit - 55;
    }
    digit.saturating_sub(87)
}

/// How many bits a digit has, by the base letter; none in base 10.
fn digit_width(letter: u8) -> Option<u8>
    ensures value { result ≡ digit_width letter }
    ensures fits { IfSome result IsWidth }
{
    match letter {
        b'b' | b'B' => Some(1),
        b'o' | b'O' => Some(3),
        b'h' | b'H' => Some(4),
        _ => None,
    }
}

/// The bits of a digit, so many.
fn digit_bits(width: u8, digit: u8) -> Bits
    requires { IsWidth width }
    ensures { result ≡ digit_bits width digit }
{
    match digit {
        b'x' | b'X' => Bits::unknown(width),
        b'z' | b'Z' => Bits::high_impedance(width),
        _ => Bits::of_number(width, u64::from(digit_value(digit))),
    }
}

/// A vector moved to the left by the bits of a digit, which come in on the right.
fn pushed(value: Bits, digit: Bits) -> Bits
    ensures { result ≡ pushed value digit }
{
    if digit.width() >= value.width() {
        return digit.resize(value.width());
    }
    value.resize(value.width() - digit.width()).concat(digit)
}

/// A vector moved to the left by the digit of a byte, if it stands for one.
fn with_byte(width: u8, value: Bits, byte: u8) -> Bits
    requires { IsWidth width }
    ensures { result ≡ with_byte width value byte }
{
    match digit_at(byte) {
        Some(digit) => pushed(value, digit_bits(width, digit)),
        None => value,
    }
}

/// The first digit of some bytes.
fn first_digit(bytes: &[u8]) -> Option<u8>
    ensures { result ≡ slice_get (filter_map digit_at bytes.now) 0 }
{
    for byte in bytes {
        if let Some(digit) = digit_at(*byte) {
            return Some(digit);
        }
    }
    None
}

/// A vector of the bit that fills a literal on the left, of a size in bits.
fn padding(size: u8, bytes: &[u8]) -> Bits
    requires { IsWidth size }
    ensures { result ≡ replicate size (pad_of (filter_map digit_at bytes.now)) }
{
    match first_digit(bytes) {
        Some(b'x' | b'X') => Bits::unknown(size),
        Some(b'z' | b'Z') => Bits::high_impedance(size),
        _ => Bits::zeros(size),
    }
}

/// The value of digits with so many bits each, filled or cut on the left to a size in bits.
fn sized_bits(width: u8, size: u8, bytes: &[u8]) -> Bits
    requires width { IsWidth width }
    requires size { IsWidth size }
    ensures { result ≡ sized_bits width size (filter_map digit_at bytes.now) }
{
    let mut value = padding(size, bytes);
    for byte in bytes {
        value = with_byte(width, value, *byte);
    }
    value
}

/// A number modulo 2^64 with the digit of a byte after it, if it stands for one.
fn number_with(number: u64, byte: u8) -> u64
    ensures { result ≡ number_with number byte % 2 ^ 64 }
{
    match digit_at(byte) {
        Some(digit) => number
            .wrapping_mul(10)
            .wrapping_add(u64::from(digit_value(digit))),
        None => number,
    }
}

/// The number of decimal digits, modulo 2^64.
fn decimal_of(bytes: &[u8]) -> u64
    ensures { result ≡ decimal_of (filter_map digit_at bytes.now) % 2 ^ 64 }
{
    let mut number = 0u64;
    for byte in bytes {
        number = number_with(number, *byte);
    }
    number
}

/// The value of digits in a size in bits, by the base letter.
fn digits_value(size: u8, letter: u8, bytes: &[u8]) -> Bits
    requires { IsWidth size }
    ensures { result ≡ digits_value size (digit_width letter) (filter_map digit_at bytes.now) }
{
    match digit_width(letter) {
        Some(width) => sized_bits(width, size, bytes),
        None => Bits::of_number(size, decimal_of(bytes)),
    }
}

/// The value of a literal of a size in bits, by the text of its base part (IEEE Std 1364-2005, 3.5.1); one unknown bit for
/// a size that is not 1 to 64.
pub fn literal_bits(size: u32, text: &str) -> Bits
    ensures { result ≡ literal_bits size text.now }
{
    if size == 0 || size > WIDTH_LIMIT {
        return Bits::unknown(1);
    }
    match text.as_bytes() {
        [_, letter, digits @ ..] => digits_value(size as u8, *letter, digits),
        _ => digits_value(size as u8, 0, &[]),
    }
}

/// The value of a base part without a size, which is unsigned, by its text (IEEE Std 1364-2005, 3.5.1).
pub fn based_bits(text: &str) -> Bits
    ensures { result ≡ based_bits text.now }
{
    literal_bits(u32::from(UNSIZED_WIDTH), text)
}

/// The value of a number without a base, which is signed (IEEE Std 1364-2005, 3.5.1).
pub fn number_bits(number: u32) -> Bits
    ensures { result ≡ number_bits number }
{
    Bits::of_number(UNSIZED_WIDTH, u64::from(number))
}
