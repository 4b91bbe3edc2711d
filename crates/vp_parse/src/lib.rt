//! The source of a Verilog text, as the grammar derives it.
#![tactic(auto)]

mod arena;
mod error;
mod items;
mod parsing;
mod ports;

pub use error::ParseError;
pub use parsing::parse;
