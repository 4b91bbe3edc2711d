ghost use Rattle.std.specs.Prelude.{◌≡◌, ◌≢◌, ◌+◌, ◌∷◌, length, Some, IfOk, IfErr, OnErr};
ghost use Rattle.vp_parse_expr.specs.declared.reading.Stop.TheVariants.{NoMemory};
ghost use Rattle.vp_source.specs.declared.symbol.SymbolKind.TheVariants.{Name};
ghost use Rattle.vp_source.specs.Kinds.{same_kind, symbol_at};
ghost use Rattle.vp_parse_expr.specs.Meaning.{NoTerminal};
ghost use Rattle.vp_parse_expr.specs.Stopping.{Unexpected, Gives, stop_told, is_next as next_is, terminal as terminal_at, following};

use std::alloc::{AllocError, AllocFailed};
use vp_lex::{Keyword, Punctuator};
use vp_source::{Symbol, SymbolKind};

/// Where reading stops, by how many symbols are left.
#[derive(Clone, Copy)]
pub enum Stop {
    Syntax(usize),
    LeftOut(usize),
    TooDeep(usize),
    NoMemory,
}

impl From<AllocError> for Stop {
    ghost from_gives = { λ _ e. e ≡ NoMemory };

    fn from(_e: AllocError) -> Stop {
        Stop::NoMemory
    }
}

impl<T: Drop> From<AllocFailed<T>> for Stop {
    ghost from_gives = { λ _ e. e ≡ NoMemory };

    fn from(_e: AllocFailed<T>) -> Stop {
        Stop::NoMemory
    }
}

/// Where the grammar does not go on: at a keyword, an operator or a system name that is left out, or at anything else.
pub fn unexpected(symbols: &[Symbol]) -> Stop
    ensures { stop_told result ≡ Some (Unexpected (length symbols.now)) }
{
    match symbols {
        [
            Symbol {
                kind: SymbolKind::Keyword(Keyword::LeftOut | Keyword::Casex)
                | SymbolKind::SystemName
                | SymbolKind::Punctuator(
                    Punctuator::Divide
                    | Punctuator::Modulus
                    | Punctuator::Power
                    | Punctuator::ArithmeticShiftLeft
                    | Punctuator::ArithmeticShiftRight
                    | Punctuator::EventTrigger,
                ),
                ..
            },
            ..
        ] => Stop::LeftOut(symbols.len()),
        _ => Stop::Syntax(symbols.len()),
    }
}

/// A symbol is of the kind that is expected.
pub fn is_kind(expected: SymbolKind, kind: SymbolKind) -> bool
    ensures { result ≡ same_kind expected kind }
{
    expected == kind
}

/// The next symbol is of the kind that is expected.
pub fn is_next(expected: SymbolKind, symbols: &[Symbol]) -> bool
    ensures { result ≡ next_is expected symbols.now }
{
    match symbols {
        [first, ..] => is_kind(expected, first.kind),
        [] => false,
    }
}

/// What follows the symbol that is expected.
#[tactic(auto, using(crate::proofs::Told::told_stop), unfolding(crate::specs::Stopping::following))]
pub fn skip(expected: SymbolKind, symbols: &[Symbol]) -> Result<&[Symbol], Stop>
    ensures read { Gives (λ rest. rest.now) result (following expected symbols.now) }
    ensures told { IfErr result (λ stop. stop ≢ NoMemory) }
    ensures shorter { IfOk result (λ rest. length rest.now + 1 ≡ length symbols.now) }
{
    match symbols {
        [first, rest @ ..] if is_kind(expected, first.kind) => Ok(rest),
        _ => Err(unexpected(symbols)),
    }
}

/// The place of the name that is expected, and what follows.
#[tactic(auto, using(crate::proofs::Told::told_stop), unfolding(crate::specs::Stopping::terminal))]
pub fn name(symbols: &[Symbol]) -> Result<(u32, &[Symbol]), Stop>
    ensures read { Gives (λ found. (found.0, found.1.now)) result (terminal_at Name symbols.now) }
    ensures found { IfOk result (λ found. symbols.now ≡ symbol_at Name found.0 ∷ found.1.now) }
    ensures none { OnErr result (NoTerminal Name symbols.now) }
    ensures told { IfErr result (λ stop. stop ≢ NoMemory) }
    ensures shorter { IfOk result (λ found. length found.1.now + 1 ≡ length symbols.now) }
{
    match symbols {
        [
            Symbol {
                kind: SymbolKind::Name,
                place,
            },
            rest @ ..,
        ] => Ok((*place, rest)),
        _ => Err(unexpected(symbols)),
    }
}

/// The place of the symbol that is expected, and what follows.
#[tactic(auto, using(crate::proofs::Told::told_stop), unfolding(crate::specs::Stopping::terminal))]
pub fn terminal(expected: SymbolKind, symbols: &[Symbol]) -> Result<(u32, &[Symbol]), Stop>
    ensures read { Gives (λ found. (found.0, found.1.now)) result
        (terminal_at expected symbols.now) }
    ensures told { IfErr result (λ stop. stop ≢ NoMemory) }
    ensures shorter { IfOk result (λ found. length found.1.now + 1 ≡ length symbols.now) }
{
    match symbols {
        [first, rest @ ..] if is_kind(expected, first.kind) => Ok((first.place, rest)),
        _ => Err(unexpected(symbols)),
    }
}
