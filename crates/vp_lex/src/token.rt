ghost use Rattle.std.specs.Prelude.{◌≡◌, ◌⊎◌, ◌<◌, ◌≤◌, ◌+◌, true, length, IfOk, IfErr, vec_len};
ghost use Rattle.vp_lex.specs.Texts.{part_of};
ghost use Rattle.vp_lex.specs.Tokens.{AreTokens, IsFaultOf, scan_of};

use crate::error::LexError;
use crate::keyword::Keyword;
use crate::piece::{Kind, piece_at, token_kind};
use crate::timescale::differing_line;
use std::alloc::{AllocError, Global};

/// The greatest length of a text, in bytes.
pub const TEXT_LIMIT: usize = 16_777_216;

/// A punctuator or an operator (clause 5.1 and annex A).
#[derive(Clone, Copy, Debug, PartialEq, Eq)]
pub enum Punctuator {
    ArithmeticShiftLeft,
    ArithmeticShiftRight,
    CaseEquality,
    CaseInequality,
    Power,
    ShiftLeft,
    ShiftRight,
    /// `<=`, also of a nonblocking assignment.
    LessOrEqual,
    GreaterOrEqual,
    LogicalEquality,
    LogicalInequality,
    LogicalAnd,
    LogicalOr,
    ReductionNand,
    ReductionNor,
    /// `~^` or `^~`, also of two operands.
    ReductionXnor,
    EventTrigger,
    Plus,
    Minus,
    /// `*`, also of an event.
    Asterisk,
    Divide,
    Modulus,
    And,
    Or,
    Xor,
    Negation,
    LogicalNegation,
    Conditional,
    LessThan,
    GreaterThan,
    Equals,
    LeftParenthesis,
    RightParenthesis,
    LeftBracket,
    RightBracket,
    LeftBrace,
    RightBrace,
    Comma,
    Semicolon,
    Colon,
    Period,
    Hash,
    At,
}

/// What a token is.
#[derive(Clone, Copy, Debug, PartialEq, Eq)]
pub enum TokenKind {
    /// An identifier that is no keyword (clause 3.7).
    Name,
    /// A keyword (clause 3.7.2).
    Keyword(Keyword),
    /// A dollar sign and a name (clause 3.7.3).
    SystemName,
    /// Decimal digits and `_` (clause 3.5.1).
    Number,
    /// An apostrophe, a base letter and digits (clause 3.5.1).
    Base,
    /// A string, with its quotes (clause 3.6).
    String,
    /// A punctuator or an operator (clause 3.4).
    Punctuator(Punctuator),
    /// An accent and the name of a compiler directive (clause 19).
    Directive,
}

/// A token of a text. Its place is its index in the list of tokens.
#[derive(Clone, Copy, Debug, PartialEq, Eq)]
pub struct Token {
    pub kind: TokenKind,
    /// Where it begins in the text, in bytes.
    pub start: u32,
    /// Where it ends, exclusive.
    pub end: u32,
    /// The line on which it begins, from 1.
    pub line: u32,
    /// The column at which it begins, in bytes from 1.
    pub column: u32,
    /// It stands on the line of a `` `pragma`` or a `` `timescale``, and the grammar does not see it.
    pub directive: bool,
}

impl Token {
    ghost use Rattle.vp_lex.specs.Texts.{text_of};

    /// The token's part of its text; empty where the text has no such part.
    pub fn text<'a>(&self, text: &'a str) -> &'a str
        ensures { result.now ≡ text_of text.now self.now }
    {
        part(text.as_bytes(), self.start as usize, self.end as usize)
    }
}

/// The bytes between two places, where they are there and are text; else nothing.
fn part(bytes: &[u8], start: usize, end: usize) -> &str
    ensures { result.now ≡ part_of bytes.now start end }
{
    let Some(part) = bytes.get(start..end) else {
        return "";
    };
    match str::from_utf8(part) {
        Ok(text) => text,
        Err(_) => "",
    }
}

/// A place in a text.
#[derive(Clone, Copy)]
struct Position {
    at: usize,
    line: usize,
    line_start: usize,
    directive: bool,
}

impl Position {
    ghost use Rattle.std.specs.Prelude.{◌&&◌, ◌||◌, not, take, option_map, slice_range, slice_index};
    ghost use Rattle.std.specs.List.{list_all};
    ghost use Rattle.vp_lex.specs.Bytes.{is_newline};
    ghost use Rattle.vp_lex.specs.Pieces.{is_piece};
    ghost use Rattle.vp_lex.specs.Positions.{IsPlace};
    ghost use Rattle.vp_lex.specs.Scanning.{kind_of};
    ghost use Rattle.vp_lex.specs.Tokens.{is_mark, token_kind, token_at};

    /// The token that a piece from here to this end is; white space is none.
    fn token(self, text: &str, end: usize, kind: Kind) -> Option<Token>
        requires within { (self.at < end) × (end ≤ length text.now)
            × (length text.now ≤ TEXT_LIMIT) }
        requires place { IsPlace text.now self }
        requires piece { is_piece (kind_of kind) (slice_range text.now self.at end) ≡ true }
        ensures { let bytes = slice_range text.now self.at end in result
            ≡ option_map (λ its. token_at (take self.at text.now) self.directive bytes its
            (is_mark (kind_of kind))) (token_kind (kind_of kind) bytes) }
    {
        match token_kind(text, self.at, end, kind) {
            None => None,
            Some(its) => Some(Token {
                kind: its,
                start: self.at as u32,
                end: end as u32,
                line: self.line as u32,
                column: (self.at - self.line_start + 1) as u32,
                directive: kind.is_mark() || self.directive,
            }),
        }
    }

    /// The place after a piece from here to this end.
    fn moved_on(self, bytes: &[u8], end: usize, kind: Kind) -> Position
        requires within { (self.at ≤ end) × (end ≤ length bytes.now) }
        requires place { IsPlace bytes.now self }
        ensures at { result.at ≡ end }
        ensures place { IsPlace bytes.now result }
        ensures directive { result.directive
            ≡ ((is_mark (kind_of kind) || self.directive) && list_all
            (λ byte. not (is_newline byte)) (slice_range bytes.now self.at end)) }
    {
        let mut here = Position {
            directive: kind.is_mark() || self.directive,
            ..self
        };
        while here.at < end {
            here = here.after_byte(bytes);
        }
        here
    }

    /// The place after the next byte. A newline begins a line, on which no directive stands yet.
    fn after_byte(self, bytes: &[u8]) -> Position
        requires within { self.at < length bytes.now }
        requires place { IsPlace bytes.now self }
        ensures at { result.at ≡ self.at + 1 }
        ensures place { IsPlace bytes.now result }
        ensures directive { result.directive
            ≡ (self.directive && not (is_newline (slice_index bytes.now self.at))) }
    {
        let at = self.at + 1;
        if bytes[self.at] == b'\n' {
            Position {
                at,
                line: self.line + 1,
                line_start: at,
                directive: false,
            }
        } else {
            Position { at, ..self }
        }
    }
}

/// What is read of a text: its tokens before its first fault, and the error of that, if there is one.
#[derive(Drop)]
struct ScannedText {
    tokens: Vec<Token>,
    fault: Option<LexError>,
}

/// Reads a text up to its first fault.
fn scan(alloc: Global, text: &str) -> Result<ScannedText, AllocError>
    requires { length text.now ≤ TEXT_LIMIT }
    ensures count { IfOk result (λ read. vec_len read.tokens ≤ length text.now) }
    ensures tokens { IfOk result (λ read. read.tokens.items ≡ (scan_of text.now).tokens) }
    ensures fault { IfOk result (λ read. read.fault ≡ (scan_of text.now).fault) }
{
    let bytes = text.as_bytes();
    let mut tokens = Vec::new(alloc);
    let mut here = Position {
        at: 0,
        line: 1,
        line_start: 0,
        directive: false,
    };
    while here.at < bytes.len() {
        let (kind, end) = match piece_at(bytes, here.at) {
            Ok(found) => found,
            Err(fault) => {
                let fault = Some(LexError::at(fault, here.line as u32));
                return Ok(ScannedText { tokens, fault });
            }
        };
        if let Some(token) = here.token(text, end, kind) {
            tokens.push(token)?;
        }
        here = here.moved_on(bytes, end, kind);
    }
    let fault = None;
    Ok(ScannedText { tokens, fault })
}

/// The tokens of a text, in order; or its first fault (201 to 205), or out of memory (206).
///
/// White space and comments separate tokens. A token is the longest piece that begins where it does. A timescale is at fault
/// at the end of its line, so another fault on that line comes first.
#[tactic(auto, using(crate::proofs::TokenLaws::tokens_of_are))]
pub fn tokens(alloc: Global, text: &str) -> Result<Vec<Token>, LexError>
    requires { length text.now ≤ TEXT_LIMIT }
    ensures count { IfOk result (λ tokens. vec_len tokens ≤ length text.now) }
    ensures ok { IfOk result (λ tokens. AreTokens text.now tokens.items) }
    ensures fault { IfErr result (λ error. IsFaultOf text.now error) }
{
    let read = scan(alloc, text)?;
    let limit = read.fault.as_ref().map(|fault| fault.line());
    if let Some(line) = differing_line(text, &read.tokens, limit) {
        return Err(LexError::TimescaleDiffers { line });
    }
    match read.fault {
        Some(fault) => Err(fault),
        None => Ok(read.tokens),
    }
}
