//! The tokens of a Verilog text: names, system names, keywords, numbers, base parts, strings, punctuators and directives.
#![tactic(auto)]

mod error;
mod keyword;
mod piece;
mod string;
mod symbol;
mod timescale;
mod token;

pub use error::LexError;
pub use keyword::Keyword;
pub use string::string_value;
pub use token::{Punctuator, TEXT_LIMIT, Token, TokenKind, tokens};
