//! The command line of the program: what its words ask, or what is wrong with them.
#![tactic(auto)]

mod parser;
mod words;

pub use parser::command;
pub use words::{Command, Misuse, VERSION};
