// Where the tokens of a text are at fault.
ghost use Rattle.std.specs.Prelude.{◌≡◌, ◌≤◌, length, take, IfOk, MatchBool};
ghost use Rattle.std.specs.Str.{IsCharBoundary};
ghost use Rattle.vp_lex.specs.Faults.{line_of};
ghost use Rattle.vp_design.specs.Fronts.{HasNoTokens, HasTokens, IsLongestFront, IsOffset, solidus_of};

use crate::lines::{line_of, line_start};
use std::alloc::{AllocError, Global};
use vp_lex::{LexError, TEXT_LIMIT, tokens};

/// So many bytes of a line are looked at.
const SOUGHT: usize = 1024;

/// A text has tokens; or out of memory.
fn has_tokens(alloc: Global, text: &str) -> Result<bool, AllocError>
    requires { length text.now ≤ TEXT_LIMIT }
    ensures { IfOk result (λ has. MatchBool has (HasTokens text.now) (HasNoTokens text.now)) }
{
    match tokens(alloc, text) {
        Ok(_) => Ok(true),
        Err(LexError::NoMemory) => Err(AllocError),
        Err(_) => Ok(false),
    }
}

/// The front of a length has tokens; no front has where no character ends there.
fn front_has_tokens(alloc: Global, text: &str, at: usize) -> Result<bool, AllocError>
    requires { length text.now ≤ TEXT_LIMIT }
    ensures { IfOk result (λ has. MatchBool has (HasTokens (take at text.now))
        (IsCharBoundary text.now at → HasNoTokens (take at text.now))) }
{
    match text.split_at_checked(at) {
        Some((front, _)) => has_tokens(alloc, front),
        None => Ok(false),
    }
}

/// The length of the longest front of a text that has tokens, of those from one length to another.
fn longest_front(alloc: Global, text: &str, start: usize, end: usize) -> Result<usize, AllocError>
    requires fits { length text.now ≤ TEXT_LIMIT }
    requires order { start ≤ end }
    ensures { IfOk result (IsLongestFront text.now start end) }
{
    for fewer in 0..end - start {
        let at = end - fewer;
        if front_has_tokens(alloc, text, at)? {
            return Ok(at);
        }
    }
    Ok(start)
}

/// How many bytes of a fault that a front ends with are tokens.
fn solidus_of(fault: &LexError) -> usize
    ensures { result ≡ solidus_of fault.now }
{
    match fault {
        LexError::OpenComment { .. } => 1,
        _ => 0,
    }
}

/// How many bytes of its line stand before a fault of tokens; sought in the first 1,024 of them.
pub fn offset_of(alloc: Global, text: &str, fault: &LexError) -> Result<usize, AllocError>
    requires { length text.now ≤ TEXT_LIMIT }
    ensures { IfOk result (IsOffset text.now fault.now (line_of fault.now)) }
{
    let line = fault.line();
    let start = line_start(text, line);
    let length = line_of(text, line).len().min(SOUGHT);
    let at = longest_front(alloc, text, start, start.saturating_add(length))?;
    Ok((at - start).saturating_sub(solidus_of(fault)))
}
