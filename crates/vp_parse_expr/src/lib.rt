//! What the grammar sees of a text's tokens, and the expressions among them, in a flat list.
#![tactic(auto)]

mod arena;
mod bounds;
mod lookahead;
mod operator;
mod parsing;
mod reading;
mod symbol;

pub use bounds::range;
pub use parsing::{Found, Selected, expression, literal, selection};
pub use reading::{Stop, is_kind, is_next, name, skip, terminal, unexpected};
pub use symbol::symbols;
