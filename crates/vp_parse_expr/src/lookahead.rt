// What is next among symbols, and what that reports.
ghost use Rattle.std.specs.Prelude.{◌≡◌, length, Some};
ghost use Rattle.vp_source.specs.Operators.{binds};
ghost use Rattle.vp_parse_expr.specs.Reading.{is_number as kind_is_number, is_base as kind_is_base, is_alone as kind_is_alone, is_base_next as base_is_next, is_number_before as number_is_before, is_part as part_is_next, is_bare as bare, is_size_of as size_of, is_choice as choice_is_next};
ghost use Rattle.vp_parse_expr.specs.Stopping.{Unexpected, stop_told};

use crate::bounds::SIZE_LIMIT;
use crate::operator::{binary_of, level};
use crate::reading::{Stop, is_next, unexpected};
use vp_lex::Punctuator;
use vp_source::{BinaryOperator, Symbol, SymbolKind};

// ---- kinds

/// A symbol of a kind is a number.
fn is_number(kind: SymbolKind) -> bool
    ensures { result ≡ kind_is_number kind }
{
    matches!(kind, SymbolKind::Number(_))
}

/// A symbol of a kind is a base part.
fn is_base(kind: SymbolKind) -> bool
    ensures { result ≡ kind_is_base kind }
{
    matches!(
        kind,
        SymbolKind::ShortBase | SymbolKind::Base | SymbolKind::OtherBase
    )
}

/// A symbol of a kind may be a literal without a size, or a number.
fn is_alone(kind: SymbolKind) -> bool
    ensures { result ≡ kind_is_alone kind }
{
    matches!(kind, SymbolKind::ShortBase | SymbolKind::Number(_))
}

/// A number of such a size is that of a literal whose digits are a symbol of this kind.
pub fn is_size_of(size: u32, kind: SymbolKind) -> bool
    ensures { result ≡ size_of size kind }
{
    matches!(kind, SymbolKind::ShortBase | SymbolKind::Base) && 0 < size && size <= SIZE_LIMIT
}

// ---- what is next

/// A base part is next, so that the number before it is a size.
pub fn is_base_next(symbols: &[Symbol]) -> bool
    ensures { result ≡ base_is_next symbols.now }
{
    match symbols {
        [first, ..] => is_base(first.kind),
        [] => false,
    }
}

/// A number is next, and then a symbol of this kind.
pub fn is_number_before(kind: SymbolKind, symbols: &[Symbol]) -> bool
    ensures { result ≡ number_is_before kind symbols.now }
{
    match symbols {
        [first, rest @ ..] => is_number(first.kind) && is_next(kind, rest),
        [] => false,
    }
}

/// From a bracket on, a part is selected: a number and a colon stand after it.
pub fn is_part(symbols: &[Symbol]) -> bool
    ensures { result ≡ part_is_next symbols.now }
{
    match symbols {
        [_, rest @ ..] => is_number_before(SymbolKind::Punctuator(Punctuator::Colon), rest),
        [] => false,
    }
}

/// Between these symbols and what follows them stands one, a literal without a size or a number.
pub fn is_bare(symbols: &[Symbol], rest: &[Symbol]) -> bool
    ensures { result ≡ bare symbols.now rest.now }
{
    match symbols {
        [first, following @ ..] => is_alone(first.kind) && following.len() == rest.len(),
        [] => false,
    }
}

/// The operator that is next, if it binds at least so tightly.
pub fn binding(least: u8, symbols: &[Symbol]) -> Option<BinaryOperator>
    ensures { result ≡ binds least symbols.now }
{
    let [first, ..] = symbols else {
        return None;
    };
    let SymbolKind::Punctuator(sign) = first.kind else {
        return None;
    };
    match binary_of(sign) {
        Some(operator) if level(operator) >= least => Some(operator),
        _ => None,
    }
}

/// `?:` binds at this level, and is next.
pub fn is_choice(least: u8, symbols: &[Symbol]) -> bool
    ensures { result ≡ choice_is_next least symbols.now }
{
    least == 0 && is_next(SymbolKind::Punctuator(Punctuator::Conditional), symbols)
}

// ---- where reading stops

/// Where no operand begins that is read.
pub fn no_operand(symbols: &[Symbol]) -> Stop
    ensures { stop_told result ≡ Some (Unexpected (length symbols.now)) }
{
    match symbols {
        [first, ..] if is_base(first.kind) => Stop::LeftOut(symbols.len()),
        _ => unexpected(symbols),
    }
}

/// The symbol is `+` or `-`.
fn is_sign(kind: SymbolKind) -> bool {
    matches!(
        kind,
        SymbolKind::Punctuator(Punctuator::Plus | Punctuator::Minus)
    )
}

/// With so many symbols left a colon is next, after `+` or `-`.
fn is_indexed_part(symbols: &[Symbol], left: usize) -> bool {
    let following = symbols.len().saturating_sub(left);
    match symbols.get(following.saturating_sub(1)..) {
        Some([sign, rest @ ..]) => {
            is_sign(sign.kind) && is_next(SymbolKind::Punctuator(Punctuator::Colon), rest)
        }
        _ => false,
    }
}

/// Where an index stops: `+:` and `-:` are left out, reported at their colon.
pub fn index_stop(stop: Stop, symbols: &[Symbol]) -> Stop
    ensures { stop_told result ≡ stop_told stop }
{
    match stop {
        Stop::Syntax(left) if is_indexed_part(symbols, left) => Stop::LeftOut(left),
        _ => stop,
    }
}
