// The diagnostic of a fault of a design.
ghost use Rattle.std.specs.Prelude.{◌≡◌, ◌≤◌, length, option_map, IfOk};
ghost use Rattle.vp_design.specs.Diagnostics.{AreGrammarNotes, AreNotes, IsAtFront, IsAtToken, IsDesignDiagnostic, IsFound, IsLocatedAmong, IsLocatedIn, fault_of_tokens};

use crate::error::DesignError;
use crate::expected::expected_note;
use crate::place::token_at_fault;
use crate::prefixes::offset_of;
use crate::reading::TEXT_LIMIT;
use crate::rendering::{Place, lineless, located};
use crate::unsupported::left_out_note;
use crate::words::design_words;
use std::alloc::{AllocError, Global};
use vp_lex::{LexError, Token, tokens};
use vp_parse::ParseError;
use vp_text::Text;

/// Where a fault stands, and what is noted of it.
#[derive(Drop)]
pub struct Located {
    pub place: Place,
    /// Lines, each with its newline.
    pub notes: Text,
}

/// The notes on a fault of the grammar at a token.
fn grammar_notes(
    alloc: Global,
    text: &str,
    token: Token,
    error: &ParseError,
) -> Result<Text, AllocError>
    ensures { IfOk result (AreGrammarNotes text.now token error.now) }
{
    match error {
        ParseError::Syntax { .. } => expected_note(alloc, text, token),
        ParseError::LeftOut { .. } => left_out_note(alloc, text, token),
        ParseError::TooDeep { .. } | ParseError::NoMemory => Text::copy(alloc, ""),
    }
}

/// The notes on a fault at a token.
fn notes(alloc: Global, text: &str, token: Token, fault: &DesignError) -> Result<Text, AllocError>
    ensures { IfOk result (AreNotes text.now token fault.now) }
{
    match fault {
        DesignError::Source(error) => grammar_notes(alloc, text, token, error),
        DesignError::Tokens(_)
        | DesignError::Envelopes(_)
        | DesignError::Names(_)
        | DesignError::Expressions(_)
        | DesignError::TooLong
        | DesignError::NoMemory => Text::copy(alloc, ""),
    }
}

/// A fault at a token.
fn at_token(
    alloc: Global,
    text: &str,
    token: Token,
    fault: &DesignError,
) -> Result<Located, AllocError>
    ensures { IfOk result (IsAtToken text.now token fault.now) }
{
    let place = Place {
        line: token.line,
        offset: (token.column as usize).saturating_sub(1),
    };
    let notes = notes(alloc, text, token, fault)?;
    Ok(Located { place, notes })
}

/// Where a fault of a text that has tokens stands.
fn located_among(
    alloc: Global,
    text: &str,
    tokens: &[Token],
    fault: &DesignError,
) -> Result<Option<Located>, AllocError>
    requires { length text.now ≤ TEXT_LIMIT }
    ensures { IfOk result (IsLocatedAmong text.now tokens.now fault.now) }
{
    match token_at_fault(alloc, text, tokens, fault)? {
        Some(token) => Ok(Some(at_token(alloc, text, token, fault)?)),
        None => Ok(None),
    }
}

/// A fault of tokens.
fn at_front(alloc: Global, text: &str, fault: &LexError) -> Result<Located, AllocError>
    requires { length text.now ≤ TEXT_LIMIT }
    ensures { IfOk result (IsAtFront text.now fault.now) }
{
    let place = Place {
        line: fault.line(),
        offset: offset_of(alloc, text, fault)?,
    };
    let notes = Text::copy(alloc, "")?;
    Ok(Located { place, notes })
}

/// Where a fault that is none of tokens stands.
fn located_in(alloc: Global, text: &str, fault: &DesignError) -> Result<Option<Located>, AllocError>
    requires { length text.now ≤ TEXT_LIMIT }
    ensures { IfOk result (IsLocatedIn text.now fault.now) }
{
    match tokens(alloc, text) {
        Ok(tokens) => located_among(alloc, text, tokens.as_slice(), fault),
        Err(LexError::NoMemory) => Err(AllocError),
        Err(_) => Ok(None),
    }
}

/// The fault of tokens that a fault is, if it is one.
fn fault_of_tokens(fault: &DesignError) -> Option<&LexError>
    ensures { option_map (λ e. e.now) result ≡ fault_of_tokens fault.now }
{
    match fault {
        DesignError::Tokens(error) => Some(error),
        DesignError::Envelopes(_)
        | DesignError::Source(_)
        | DesignError::Names(_)
        | DesignError::Expressions(_)
        | DesignError::TooLong
        | DesignError::NoMemory => None,
    }
}

/// Where a fault stands.
fn found(alloc: Global, text: &str, fault: &DesignError) -> Result<Option<Located>, AllocError>
    ensures { IfOk result (IsFound text.now fault.now) }
{
    if text.len() > TEXT_LIMIT || fault.line() == 0 {
        return Ok(None);
    }
    match fault_of_tokens(fault) {
        Some(error) => Ok(Some(at_front(alloc, text, error)?)),
        None => located_in(alloc, text, fault),
    }
}

/// The diagnostic of a fault of the text of a design, whose file has this name: where it stands, the line with a caret, and what would
/// be read there (401) or why it is left out (402).
pub fn design_diagnostic(
    alloc: Global,
    name: &str,
    text: &str,
    fault: &DesignError,
) -> Result<Text, AllocError>
    ensures { IfOk result (IsDesignDiagnostic name.now text.now fault.now) }
{
    let code = fault.code();
    let words = design_words(fault);
    match found(alloc, text, fault)? {
        Some(Located { place, notes }) => {
            located(alloc, name, text, place, code, words, notes.as_str())
        }
        None => lineless(alloc, name, code, words),
    }
}
