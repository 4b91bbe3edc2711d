// The token at fault on a line: the text is read again with each token of the line on a line of its own.
ghost use Rattle.std.specs.Prelude.{◌≡◌, ◌<◌, ◌+◌, ◌==◌, drop, filter, length, slice_get, string_bytes, IfOk, IfErr, OnOk};
ghost use Rattle.vp_lex.specs.Texts.{part_of};
ghost use Rattle.vp_design.specs.Spreading.{IsFaultLine, IsNumberAtFault, has_directive, number_among, spread, spread_from, tokens_on};

use crate::reading::read_design;
use std::alloc::{AllocError, Global};
use vp_lex::{Token, TokenKind};

/// The tokens that begin on a line.
pub fn tokens_on(alloc: Global, tokens: &[Token], line: u32) -> Result<Vec<Token>, AllocError>
    ensures { IfOk result (λ on. on.items ≡ tokens_on line tokens.now) }
{
    tokens
        .iter()
        .copied()
        .filter(|token| token.line == line)
        .collect(alloc)
}

/// The bytes of a text between two places, where they are there and are text; else nothing.
pub fn part_of(text: &str, start: u32, end: u32) -> &str
    ensures { result.now ≡ part_of text.now start end }
{
    let part = Token {
        kind: TokenKind::Name,
        start,
        end,
        line: 0,
        column: 0,
        directive: false,
    };
    part.text(text)
}

/// A text with a newline before each of these tokens.
fn spread_before(alloc: Global, text: &str, tokens: &[Token]) -> Result<String, AllocError>
    requires { length text.now < 4294967296 }
    ensures { IfOk result (λ lines. string_bytes lines ≡ spread_from text.now 0 tokens.now) }
{
    let mut lines = String::new(alloc);
    let mut at = 0;
    for token in tokens {
        lines.push_str(part_of(text, at, token.start))?;
        lines.push('\n')?;
        at = token.start;
    }
    lines.push_str(part_of(text, at, text.len() as u32))?;
    Ok(lines)
}

/// A text in which each of these tokens of a line has a line of its own.
fn spread(alloc: Global, text: &str, on: &[Token]) -> Result<String, AllocError>
    requires { length text.now < 4294967296 }
    ensures { IfOk result (λ lines. string_bytes lines ≡ spread text.now on.now) }
{
    match on {
        [] => spread_before(alloc, text, on),
        [_, others @ ..] => spread_before(alloc, text, others),
    }
}

/// The line of the fault of a text; 0 where it has none, or none is known.
fn fault_line(alloc: Global, text: &str) -> u32
    ensures { IsFaultLine text.now result }
{
    match read_design(alloc, text) {
        Ok(_) => 0,
        Err(fault) => fault.line(),
    }
}

/// A directive stands among these tokens.
fn has_directive(on: &[Token]) -> bool
    ensures { result ≡ has_directive on.now }
{
    on.iter().any(|token| token.directive)
}

/// Which of so many lines from one on a line is, from 0; the first where it is none of them.
fn number_among(line: u32, count: usize, other: u32) -> usize
    ensures { result ≡ number_among line count other }
{
    if line <= other && ((other - line) as usize) < count {
        (other - line) as usize
    } else {
        0
    }
}

/// Which of these tokens of a line is at fault, by its number from 0.
pub fn number_at_fault(
    alloc: Global,
    text: &str,
    line: u32,
    on: &[Token],
) -> Result<usize, AllocError>
    requires { length text.now < 4294967296 }
    ensures { IfOk result (IsNumberAtFault text.now line on.now) }
{
    if has_directive(on) {
        return Ok(0);
    }
    let lines = spread(alloc, text, on)?;
    Ok(number_among(line, on.len(), fault_line(alloc, lines.as_str())))
}
