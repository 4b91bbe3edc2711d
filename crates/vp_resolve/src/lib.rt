//! The expressions of a design resolved: slots in place of names, values in place of literals; and why they are refused.
#![tactic(auto)]

mod checks;
mod constants;
mod error;
mod refusing;
mod resolving;

pub use constants::constant_at;
pub use error::ExprError;
pub use refusing::refuse;
pub use resolving::{
    lowest_in, object_named, operands_of, part_place, scope_of, slot_in, width_in,
};
