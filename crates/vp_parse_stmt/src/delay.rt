// Delays, read from left to right.
ghost use Rattle.std.specs.Prelude.{◌≡◌, ◌<◌, ◌≤◌, length, IfOk};
ghost use Rattle.vp_parse_expr.specs.Stopping.{Gives, stop_told};
ghost use Rattle.vp_parse_stmt.specs.Placing.{amount_into, grouped_delay_into, delay_into, hold_into};

use vp_lex::Punctuator;
use vp_parse_expr::{Stop, is_next, skip, unexpected};
use vp_source::{NUMBER_LIMIT, Symbol, SymbolKind};

// ---- where reading stops

/// A delay that is left out begins with a symbol of this kind.
fn begins_other_delay(kind: SymbolKind) -> bool {
    matches!(
        kind,
        SymbolKind::Name
            | SymbolKind::Base
            | SymbolKind::ShortBase
            | SymbolKind::OtherBase
            | SymbolKind::String
            | SymbolKind::Punctuator(
                Punctuator::LeftParenthesis
                    | Punctuator::LeftBrace
                    | Punctuator::Plus
                    | Punctuator::Minus
                    | Punctuator::LogicalNegation
                    | Punctuator::Negation
                    | Punctuator::And
                    | Punctuator::ReductionNand
                    | Punctuator::Or
                    | Punctuator::ReductionNor
                    | Punctuator::Xor
                    | Punctuator::ReductionXnor
            )
    )
}

/// Where no delay begins that is read: another one that begins there is left out.
fn no_delay(stop: Stop, symbols: &[Symbol]) -> Stop
    ensures { stop_told result ≡ stop_told stop }
{
    match (stop, symbols) {
        (Stop::Syntax(left), [first, ..]) if begins_other_delay(first.kind) => Stop::LeftOut(left),
        _ => stop,
    }
}

/// A delay that is left out goes on after a number with a symbol of this kind.
fn goes_on_otherwise(kind: SymbolKind) -> bool {
    matches!(
        kind,
        SymbolKind::Base
            | SymbolKind::ShortBase
            | SymbolKind::OtherBase
            | SymbolKind::Punctuator(
                Punctuator::Asterisk
                    | Punctuator::Plus
                    | Punctuator::Minus
                    | Punctuator::ShiftLeft
                    | Punctuator::ShiftRight
                    | Punctuator::LessThan
                    | Punctuator::LessOrEqual
                    | Punctuator::GreaterThan
                    | Punctuator::GreaterOrEqual
                    | Punctuator::LogicalEquality
                    | Punctuator::LogicalInequality
                    | Punctuator::CaseEquality
                    | Punctuator::CaseInequality
                    | Punctuator::And
                    | Punctuator::Xor
                    | Punctuator::ReductionXnor
                    | Punctuator::Or
                    | Punctuator::LogicalAnd
                    | Punctuator::LogicalOr
                    | Punctuator::Conditional
                    | Punctuator::Colon
            )
    )
}

/// Where a delay in parentheses does not end: expressions, and three delays of which one is taken, are left out.
fn delay_stop(stop: Stop, symbols: &[Symbol]) -> Stop
    ensures { stop_told result ≡ stop_told stop }
{
    match (stop, symbols) {
        (Stop::Syntax(left), [first, ..]) if goes_on_otherwise(first.kind) => Stop::LeftOut(left),
        _ => stop,
    }
}

/// A number that is no decimal one goes on after its first digits with a symbol of this kind.
fn goes_on_number(kind: SymbolKind) -> bool {
    matches!(
        kind,
        SymbolKind::Base
            | SymbolKind::ShortBase
            | SymbolKind::OtherBase
            | SymbolKind::Punctuator(Punctuator::Period)
    )
}

/// Where what follows a delay, from after its `#`, does not end: a delay of which only the first digits were read is left out.
pub fn after_delay(stop: Stop, delay: &[Symbol], rest: &[Symbol]) -> Stop
    ensures { stop_told result ≡ stop_told stop }
{
    match (stop, delay, rest) {
        (Stop::Syntax(left), [amount, ..], [first, ..])
            if matches!(amount.kind, SymbolKind::Number(_)) && goes_on_number(first.kind) => {
            Stop::LeftOut(left)
        }
        _ => stop,
    }
}

/// The same where a delay may be left out: these symbols begin with its `#`, if there is one.
pub fn after_hold(stop: Stop, symbols: &[Symbol], rest: &[Symbol]) -> Stop
    ensures { stop_told result ≡ stop_told stop }
{
    match symbols {
        [hash, delay @ ..] if matches!(hash.kind, SymbolKind::Punctuator(Punctuator::Hash)) => {
            after_delay(stop, delay, rest)
        }
        _ => stop,
    }
}

// ---- delays

/// A number without a base, and what follows.
#[tactic(auto, unfolding(crate::specs::Placing::amount_into, crate::specs::Placing::amount_by_into))]
pub fn number(symbols: &[Symbol]) -> Result<(u32, &[Symbol]), Stop>
    ensures read { Gives (λ found. (found.0, found.1.now)) result (amount_into symbols.now) }
    ensures shorter { IfOk result (λ found. length found.1.now < length symbols.now) }
{
    let [first, rest @ ..] = symbols else {
        return Err(unexpected(symbols));
    };
    match first.kind {
        SymbolKind::Number(number) if number < NUMBER_LIMIT => Ok((number, rest)),
        SymbolKind::Number(_) => Err(Stop::LeftOut(symbols.len())),
        _ => Err(unexpected(symbols)),
    }
}

/// How long a delay is, by its number, and what follows.
fn amount(symbols: &[Symbol]) -> Result<(u32, &[Symbol]), Stop>
    ensures read { Gives (λ found. (found.0, found.1.now)) result (amount_into symbols.now) }
    ensures shorter { IfOk result (λ found. length found.1.now < length symbols.now) }
{
    match number(symbols) {
        Ok(found) => Ok(found),
        Err(stop) => Err(no_delay(stop, symbols)),
    }
}

/// A number in parentheses, and what follows.
#[tactic(auto, unfolding(crate::specs::Placing::grouped_delay_into))]
fn grouped_delay(symbols: &[Symbol]) -> Result<(u32, &[Symbol]), Stop>
    ensures read { Gives (λ found. (found.0, found.1.now)) result (grouped_delay_into symbols.now) }
    ensures shorter { IfOk result (λ found. length found.1.now < length symbols.now) }
{
    let rest = skip(SymbolKind::Punctuator(Punctuator::LeftParenthesis), symbols)?;
    let (amount, rest) = amount(rest)?;
    match skip(SymbolKind::Punctuator(Punctuator::RightParenthesis), rest) {
        Ok(rest) => Ok((amount, rest)),
        Err(stop) => Err(delay_stop(stop, rest)),
    }
}

/// How long a delay is, from after its `#`, and what follows.
#[tactic(auto, unfolding(crate::specs::Placing::delay_into))]
pub fn delay(symbols: &[Symbol]) -> Result<(u32, &[Symbol]), Stop>
    ensures read { Gives (λ found. (found.0, found.1.now)) result (delay_into symbols.now) }
    ensures shorter { IfOk result (λ found. length found.1.now < length symbols.now) }
{
    if is_next(SymbolKind::Punctuator(Punctuator::LeftParenthesis), symbols) {
        grouped_delay(symbols)
    } else {
        amount(symbols)
    }
}

/// The delay of a nonblocking assignment, if it is next, and what follows.
#[tactic(auto, unfolding(crate::specs::Placing::hold_into, crate::specs::Placing::later_into))]
pub fn hold(symbols: &[Symbol]) -> Result<(Option<u32>, &[Symbol]), Stop>
    ensures read { Gives (λ found. (found.0, found.1.now)) result (hold_into symbols.now) }
    ensures no_longer { IfOk result (λ found. length found.1.now ≤ length symbols.now) }
{
    if !is_next(SymbolKind::Punctuator(Punctuator::Hash), symbols) {
        return Ok((None, symbols));
    }
    let rest = skip(SymbolKind::Punctuator(Punctuator::Hash), symbols)?;
    let (amount, rest) = delay(rest)?;
    Ok((Some(amount), rest))
}
