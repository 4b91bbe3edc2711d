// The token of a text at which a fault stands.
ghost use Rattle.std.specs.Prelude.{◌≡◌, ◌<◌, length, slice_get, IfOk};
ghost use Rattle.vp_design.specs.Places.{IsTokenAmong, IsTokenAtFault, IsTokenOn, word_in, word_left_out};

use crate::error::DesignError;
use crate::one_token_lines::{number_at_fault, tokens_on};
use std::alloc::{AllocError, Global};
use vp_lex::Token;
use vp_parse::ParseError;

/// The token of a number, if there is one.
fn token_of(tokens: &[Token], number: usize) -> Option<Token>
    ensures { result ≡ slice_get tokens.now number }
{
    tokens.get(number).copied()
}

/// Of the tokens of a line the one that is at fault, if there are any.
fn token_among(
    alloc: Global,
    text: &str,
    line: u32,
    on: &[Token],
) -> Result<Option<Token>, AllocError>
    requires { length text.now < 4294967296 }
    ensures { IfOk result (IsTokenAmong text.now line on.now) }
{
    let number = number_at_fault(alloc, text, line, on)?;
    Ok(token_of(on, number))
}

/// The token of a line that is at fault, if the line has tokens.
fn token_on(
    alloc: Global,
    text: &str,
    tokens: &[Token],
    line: u32,
) -> Result<Option<Token>, AllocError>
    requires { length text.now < 4294967296 }
    ensures { IfOk result (IsTokenOn text.now tokens.now line) }
{
    let on = tokens_on(alloc, tokens, line)?;
    token_among(alloc, text, line, on.as_slice())
}

/// The place of the word that is left out, if one is.
fn word_in(error: &ParseError) -> Option<u32>
    ensures { result ≡ word_in error.now }
{
    match error {
        ParseError::LeftOut { word, .. } => Some(*word),
        ParseError::Syntax { .. } | ParseError::TooDeep { .. } | ParseError::NoMemory => None,
    }
}

/// The same of a fault of a design.
fn word_left_out(fault: &DesignError) -> Option<u32>
    ensures { result ≡ word_left_out fault.now }
{
    match fault {
        DesignError::Source(error) => word_in(error),
        DesignError::Tokens(_)
        | DesignError::Envelopes(_)
        | DesignError::Names(_)
        | DesignError::Expressions(_)
        | DesignError::TooLong
        | DesignError::NoMemory => None,
    }
}

/// The token at fault, if there is one.
pub fn token_at_fault(
    alloc: Global,
    text: &str,
    tokens: &[Token],
    fault: &DesignError,
) -> Result<Option<Token>, AllocError>
    requires { length text.now < 4294967296 }
    ensures { IfOk result (IsTokenAtFault text.now tokens.now fault.now) }
{
    match word_left_out(fault) {
        Some(word) => Ok(token_of(tokens, word as usize)),
        None => token_on(alloc, text, tokens, fault.line()),
    }
}
