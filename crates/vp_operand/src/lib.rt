//! Expressions as lists of operands: the values of literals, and sizes, signs, reads and operators by the standard's clause 5.
#![tactic(auto)]

mod id;
mod literal;
mod operand;
mod operators;
mod reads;
mod sizes;

pub use id::ExprId;
pub use literal::{based_bits, literal_bits, number_bits};
pub use operand::{
    Binary, Comparison, Infix, Logical, Operand, Reduction, Shift, Slot, Unary, operand_before,
};
pub use operators::{
    applied, bit_at, combined, compared, index_place, joined, part_at, reduced, set_in, shifted,
    with_part_at,
};
pub use reads::add_slots;
pub use sizes::{fitted, operand_size, sign_at, signs_of, size_at, sizes_of};
