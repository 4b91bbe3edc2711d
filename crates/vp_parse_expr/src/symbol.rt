ghost use Rattle.std.specs.Prelude.{◌≡◌, ◌≤◌, ◌<◌, length, IfOk, vec_len};
ghost use Rattle.vp_lex.specs.Bytes.{is_any_digit};
ghost use Rattle.vp_lex.specs.declared.token.TheConstants.{TEXT_LIMIT};
ghost use Rattle.vp_parse_expr.specs.Symbols.{base_kind, base_value as value_of_digits, digit_of, digits_kind as kind_of_digits, unknown_kind as kind_of_unknown, known_kind as kind_of_known, has_unknown as any_unknown, radix_of, with_base_digit as one_more_of, with_digit as one_more, decimal_value, system_kind as kind_of_system, symbol_kind as kind_of, symbols_of};

use std::alloc::{AllocError, Global};
use vp_lex::{Token, TokenKind};
use vp_source::{NUMBER_LIMIT, Symbol, SymbolKind};

/// Values of base parts of this size and above are reported no further.
const VALUE_LIMIT: u64 = 1 << 32;

/// A value with one more decimal digit, at most `NUMBER_LIMIT`; `_` counts for nothing.
fn with_digit(value: u32, byte: u8) -> u32
    ensures { result ≡ one_more value byte }
{
    if !byte.is_ascii_digit() {
        return value;
    }
    value
        .saturating_mul(10)
        .saturating_add(u32::from(byte - b'0'))
        .min(NUMBER_LIMIT)
}

/// The value of decimal digits, among which `_` counts for nothing; at most `NUMBER_LIMIT`.
fn decimal(digits: &str) -> u32
    ensures { result ≡ decimal_value digits.now }
{
    let mut value = 0u32;
    for byte in digits.as_bytes() {
        value = with_digit(value, *byte);
    }
    value
}

/// How many digits the base has that a letter names.
fn radix(letter: u8) -> Option<u64>
    ensures { result ≡ radix_of letter }
{
    match letter {
        b'b' | b'B' => Some(2),
        b'o' | b'O' => Some(8),
        b'd' | b'D' => Some(10),
        b'h' | b'H' => Some(16),
        _ => None,
    }
}

/// The value of a digit of a base; none of `_`, of white space, and of x, z and ?.
fn digit(byte: u8) -> Option<u64>
    ensures { result ≡ digit_of byte }
{
    match byte {
        b'0'..=b'9' => Some(u64::from(byte - b'0')),
        b'a'..=b'f' => Some(u64::from(byte - b'a' + 10)),
        b'A'..=b'F' => Some(u64::from(byte - b'A' + 10)),
        _ => None,
    }
}

/// A value with one more digit of a base, at most `VALUE_LIMIT`.
fn with_base_digit(radix: u64, value: u64, byte: u8) -> u64
    ensures { result ≡ one_more_of radix value byte }
{
    match digit(byte) {
        Some(digit) => value
            .saturating_mul(radix)
            .saturating_add(digit)
            .min(VALUE_LIMIT),
        None => value,
    }
}

/// The value of digits of a base; at most `VALUE_LIMIT`.
fn base_value(radix: u64, digits: &[u8]) -> u64
    ensures { result ≡ value_of_digits radix digits.now }
{
    let mut value = 0u64;
    for byte in digits {
        value = with_base_digit(radix, value, *byte);
    }
    value
}

/// A byte is the digit x, z or ?.
fn is_unknown(byte: u8) -> bool
    ensures { result ≡ is_any_digit byte }
{
    matches!(byte, b'x' | b'X' | b'z' | b'Z' | b'?')
}

/// x, z or ? stands among digits.
fn has_unknown(digits: &[u8]) -> bool
    ensures { result ≡ any_unknown digits.now }
{
    digits.iter().any(|byte| is_unknown(*byte))
}

/// What the grammar sees of digits of a base, among which x, z or ? stands.
fn unknown_kind(radix: u64) -> SymbolKind
    ensures { result ≡ kind_of_unknown radix }
{
    if radix == 10 {
        SymbolKind::OtherBase
    } else {
        SymbolKind::Base
    }
}

/// What the grammar sees of digits of a base that are all known.
fn known_kind(radix: u64, digits: &[u8]) -> SymbolKind
    ensures { result ≡ kind_of_known radix digits.now }
{
    if base_value(radix, digits) < VALUE_LIMIT {
        SymbolKind::ShortBase
    } else {
        SymbolKind::Base
    }
}

/// What the grammar sees of digits of a base.
fn digits_kind(radix: u64, digits: &[u8]) -> SymbolKind
    ensures { result ≡ kind_of_digits radix digits.now }
{
    if has_unknown(digits) {
        unknown_kind(radix)
    } else {
        known_kind(radix, digits)
    }
}

/// What the grammar sees of a base part.
fn base_part_kind(part: &[u8]) -> SymbolKind
    ensures { result ≡ base_kind part.now }
{
    let [_, letter, digits @ ..] = part else {
        return SymbolKind::OtherBase;
    };
    match radix(*letter) {
        Some(radix) => digits_kind(radix, digits),
        None => SymbolKind::OtherBase,
    }
}

/// What the grammar sees of a system name.
fn system_kind(word: &str) -> SymbolKind
    ensures { result ≡ kind_of_system word.now }
{
    if word == "$finish" {
        SymbolKind::Finish
    } else {
        SymbolKind::SystemName
    }
}

/// What the grammar sees of a token; none of a directive.
fn symbol_kind(text: &str, token: Token) -> Option<SymbolKind>
    ensures { result ≡ kind_of text.now token }
{
    if token.directive {
        return None;
    }
    match token.kind {
        TokenKind::Name => Some(SymbolKind::Name),
        TokenKind::Keyword(keyword) => Some(SymbolKind::Keyword(keyword)),
        TokenKind::Number => Some(SymbolKind::Number(decimal(token.text(text)))),
        TokenKind::Base => Some(base_part_kind(token.text(text).as_bytes())),
        TokenKind::String => Some(SymbolKind::String),
        TokenKind::Punctuator(punctuator) => Some(SymbolKind::Punctuator(punctuator)),
        TokenKind::SystemName => Some(system_kind(token.text(text))),
        TokenKind::Directive => None,
    }
}

/// The tokens that the grammar sees, in order, each with its place.
pub fn symbols(alloc: Global, text: &str, tokens: &[Token]) -> Result<Vec<Symbol>, AllocError>
    requires { length tokens.now ≤ TEXT_LIMIT }
    ensures ok { IfOk result (λ symbols. symbols.items ≡ symbols_of text.now tokens.now) }
    ensures count { IfOk result (λ symbols. vec_len symbols ≤ length tokens.now) }
{
    let mut symbols = Vec::new(alloc);
    for (place, token) in tokens.iter().enumerate() {
        if let Some(kind) = symbol_kind(text, *token) {
            symbols.push(Symbol {
                kind,
                place: place as u32,
            })?;
        }
    }
    Ok(symbols)
}
