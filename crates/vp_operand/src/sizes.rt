ghost use Rattle.std.specs.Prelude.{◌≡◌, ◌<◌, ◌^◌, false, if◌then◌else◌, None, Some, slice_index_or, IfOk};
ghost use Rattle.vp_operand.specs.Arena.{fitting, is_width, operand_sign, operand_size, pair_sign, pair_size, signs_in, sizes_in};

use crate::operand::{Infix, Operand};
use std::alloc::{AllocError, Global};
use vp_text::Sequence;

/// The greatest size of a vector, in bits.
const SIZE_LIMIT: u64 = 64;

/// The size of the operand at a place, in bits; 1 past the end.
pub fn size_at(sizes: &[u8], place: u32) -> u8
    ensures size { result ≡ slice_index_or sizes.now place 1 }
    ensures small { result < 2 ^ 8 }
{
    match sizes.get(place as usize) {
        Some(size) => *size,
        None => 1,
    }
}

/// The size of an operator between operands in bits, by the sizes of the operands before it (IEEE Std 1364-2005,
/// 5.4.1).
fn pair_size(sizes: &[u8], operator: Infix, left: u32, right: u32) -> u8
    ensures size { result ≡ pair_size sizes.now operator left right }
    ensures small { result < 2 ^ 8 }
{
    match operator {
        Infix::Combined(_) => size_at(sizes, left).max(size_at(sizes, right)),
        Infix::Shifted(_) => size_at(sizes, left),
        Infix::Compared(_) | Infix::Joined(_) => 1,
    }
}

/// The size of an operand in bits, by the sizes of the operands before it (IEEE Std 1364-2005, 5.4.1).
pub fn operand_size(sizes: &[u8], operand: Operand) -> u64
    ensures { result ≡ operand_size sizes.now operand }
{
    match operand {
        Operand::Constant { bits, .. } => u64::from(bits.width()),
        Operand::Object { width, .. } | Operand::PartSelect { width, .. } => u64::from(width),
        Operand::BitSelect { .. } | Operand::Reduced(_, _) => 1,
        Operand::Applied(_, part) => u64::from(size_at(sizes, part)),
        Operand::Concatenated(part) => u64::from(size_at(sizes, part)),
        Operand::Paired(operator, left, right) => {
            u64::from(pair_size(sizes, operator, left, right))
        }
        Operand::Conditional(_, first, second) => {
            u64::from(size_at(sizes, first).max(size_at(sizes, second)))
        }
        Operand::Appended { list, part } => {
            u64::from(size_at(sizes, list)) + u64::from(size_at(sizes, part))
        }
        Operand::Replicated { count, list } => u64::from(count) * u64::from(size_at(sizes, list)),
    }
}

/// A size, where it is that of a vector.
pub fn fitted(size: u64) -> Option<u8>
    ensures { result ≡ (if is_width size then Some size else None) }
{
    if size >= 1 && size <= SIZE_LIMIT {
        return Some(size as u8);
    }
    None
}

/// The sizes of operands, in bits; none where one is not 1 to 64. Takes memory.
pub fn sizes_of(alloc: Global, operands: &[Operand]) -> Result<Option<Sequence<u8>>, AllocError>
    ensures { IfOk result (λ sizes. sizes ≡ fitting (sizes_in operands.now)) }
{
    let mut sizes: Vec<u8> = Vec::new(alloc);
    for operand in operands {
        let Some(size) = fitted(operand_size(&sizes, *operand)) else {
            return Ok(None);
        };
        sizes.push(size)?;
    }
    Ok(Some(Sequence::from_vec(sizes)))
}

/// The operand at a place is signed; none is past the end.
pub fn sign_at(signs: &[bool], place: u32) -> bool
    ensures { result ≡ slice_index_or signs.now place false }
{
    match signs.get(place as usize) {
        Some(sign) => *sign,
        None => false,
    }
}

/// An operator between operands is signed, by the signs of the operands before it (IEEE Std 1364-2005, 5.5.1).
fn pair_sign(signs: &[bool], operator: Infix, left: u32, right: u32) -> bool
    ensures { result ≡ pair_sign signs.now operator left right }
{
    match operator {
        Infix::Combined(_) => sign_at(signs, left) && sign_at(signs, right),
        Infix::Shifted(_) => sign_at(signs, left),
        Infix::Compared(_) | Infix::Joined(_) => false,
    }
}

/// An operand is signed, by the signs of the operands before it (IEEE Std 1364-2005, 5.5.1).
fn operand_sign(signs: &[bool], operand: Operand) -> bool
    ensures { result ≡ operand_sign signs.now operand }
{
    match operand {
        Operand::Constant { is_signed, .. } => is_signed,
        Operand::Applied(_, part) => sign_at(signs, part),
        Operand::Paired(operator, left, right) => pair_sign(signs, operator, left, right),
        Operand::Conditional(_, first, second) => sign_at(signs, first) && sign_at(signs, second),
        _ => false,
    }
}

/// Which operands are signed. Takes memory.
pub fn signs_of(alloc: Global, operands: &[Operand]) -> Result<Sequence<bool>, AllocError>
    ensures { IfOk result (λ signs. signs ≡ signs_in operands.now) }
{
    let mut signs: Vec<bool> = Vec::new(alloc);
    for operand in operands {
        signs.push(operand_sign(&signs, *operand))?;
    }
    Ok(Sequence::from_vec(signs))
}
