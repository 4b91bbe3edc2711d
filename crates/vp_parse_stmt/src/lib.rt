//! The statements among the symbols of a text, in flat lists.
#![tactic(auto)]

mod arena;
mod delay;
mod event;
mod parsing;
mod values;

pub use arena::Arena;
pub use parsing::{statement, target};
pub use values::value;
