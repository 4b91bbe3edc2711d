ghost use Rattle.std.specs.Prelude.{◌≡◌, [], ◌∷◌, length};
ghost use Rattle.vp_bits.specs.Tables.{truth};
ghost use Rattle.vp_bits.specs.Vector.{IsWidth};
ghost use Rattle.vp_operand.specs.Terms.{applied, bit_at, combined, compared, index_place, joined, part_at, reduced, shifted_by, with_part_at, set_in};

use crate::operand::{Binary, Comparison, Logical, Reduction, Shift, Unary};
use vp_bits::Bits;

/// The value of an operator of one operand, as wide as that.
pub fn applied(operator: Unary, operand: Bits) -> Bits
    ensures { result ≡ applied operator operand }
{
    match operator {
        Unary::Plus => operand,
        Unary::Minus => Bits::zeros(operand.width()).sub(operand),
        Unary::Negation => operand.not(),
    }
}

/// The value of `!` or of a reduction, of one bit.
pub fn reduced(operator: Reduction, operand: Bits) -> Bits
    ensures { result ≡ reduced operator operand }
{
    match operator {
        Reduction::LogicalNegation | Reduction::Nor => operand.reduce_or().not(),
        Reduction::And => operand.reduce_and(),
        Reduction::Nand => operand.reduce_and().not(),
        Reduction::Or => operand.reduce_or(),
        Reduction::Xor => operand.reduce_xor(),
        Reduction::Xnor => operand.reduce_xor().not(),
    }
}

/// The value of an operator between two operands of one size, as wide as they.
pub fn combined(operator: Binary, left: Bits, right: Bits) -> Bits
    requires { length left ≡ length right }
    ensures { result ≡ combined operator left right }
{
    match operator {
        Binary::Add => left.add(right),
        Binary::Subtract => left.sub(right),
        Binary::Multiply => left.mul(right),
        Binary::And => left.and(right),
        Binary::Or => left.or(right),
        Binary::Xor => left.xor(right),
        Binary::Xnor => left.xor(right).not(),
    }
}

/// The value of a shift, as wide as the left operand.
pub fn shifted(operator: Shift, left: Bits, right: Bits) -> Bits
    ensures { result ≡ shifted_by operator left right }
{
    match operator {
        Shift::Left => left.shl(right),
        Shift::Right => left.shr(right),
    }
}

/// The value of a comparison of two operands of one size, of one bit.
pub fn compared(operator: Comparison, left: Bits, right: Bits) -> Bits
    requires { length left ≡ length right }
    ensures { result ≡ compared operator left right }
{
    match operator {
        Comparison::Less => left.lt(right),
        Comparison::LessOrEqual => right.lt(left).not(),
        Comparison::Greater => right.lt(left),
        Comparison::GreaterOrEqual => left.lt(right).not(),
        Comparison::Equal => left.eq(right),
        Comparison::Unequal => left.eq(right).not(),
        Comparison::CaseEqual => left.case_eq(right),
        Comparison::CaseUnequal => left.case_eq(right).not(),
    }
}

/// The value of a logical operator between two operands, of one bit.
pub fn joined(operator: Logical, left: Bits, right: Bits) -> Bits
    ensures { result ≡ joined operator (truth left) (truth right) ∷ [] }
{
    match operator {
        Logical::And => left.reduce_or().and(right.reduce_or()),
        Logical::Or => left.reduce_or().or(right.reduce_or()),
    }
}

/// The bit of a vector at an index, where the least significant bit has the lowest; x where the index is unknown or out of
/// range.
pub fn bit_at(bits: Bits, lowest: u32, index: Option<u64>) -> Bits
    ensures { result ≡ bit_at bits lowest index }
{
    let Some(index) = index else {
        return Bits::unknown(1);
    };
    let lowest = u64::from(lowest);
    if index < lowest || index - lowest >= u64::from(bits.width()) {
        return Bits::unknown(1);
    }
    bits.select((index - lowest) as u8, 1)
}

/// The part of a vector from a place on, as many bits as the width says; all x where it is not inside the vector.
pub fn part_at(bits: Bits, place: u32, width: u8) -> Bits
    requires { IsWidth width }
    ensures { result ≡ part_at bits place width }
{
    if u64::from(place) + u64::from(width) > u64::from(bits.width()) {
        return Bits::unknown(width);
    }
    bits.select(place as u8, width)
}

/// The place of the bit of a vector at an index, where the least significant bit has the lowest; none where the index is unknown
/// or out of range (IEEE Std 1364-2005, 5.2.1).
pub fn index_place(bits: Bits, lowest: u32, index: Option<u64>) -> Option<u32>
    ensures { result ≡ index_place bits lowest index }
{
    let index = index?;
    let lowest = u64::from(lowest);
    if index < lowest || index - lowest >= u64::from(bits.width()) {
        return None;
    }
    Some((index - lowest) as u32)
}

/// What an assignment to a part of a vector leaves of it, from a place on and as many bits as the width says; the vector
/// itself where the part is not inside it (IEEE Std 1364-2005, 5.2.1).
pub fn with_part_at(bits: Bits, place: u32, width: u8, part: Bits) -> Bits
    ensures { result ≡ with_part_at bits place width part }
{
    if width < 1 || u64::from(place) + u64::from(width) > u64::from(bits.width()) {
        return bits;
    }
    bits.with_select(place as u8, part.resize(width))
}

/// A vector with the bits of another from a place on; itself where there is no place, or where the other does not lie inside it
/// (IEEE Std 1364-2005, 5.2.1).
pub fn set_in(bits: Bits, place: Option<u32>, part: Bits) -> Bits
    ensures { result ≡ set_in bits place part }
{
    match place {
        Some(place) => with_part_at(bits, place, part.width(), part),
        None => bits,
    }
}
