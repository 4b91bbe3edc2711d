// Events, read from left to right.
ghost use Rattle.std.specs.Prelude.{◌≡◌, ◌<◌, ◌≤◌, ◌+◌, ◌^◌, length, IfOk, vec_len};
ghost use Rattle.vp_source.specs.declared.symbol.SymbolKind.TheVariants.{Name};
ghost use Rattle.vp_parse_expr.specs.Stopping.{Gives};
ghost use Rattle.vp_parse_stmt.specs.Placing.{edged_into, term_into, separator_into, joined_into, further_terms_into, terms_into, terms_event_into, star_event_into, event_by_into, event_into};
ghost use Rattle.vp_parse_stmt.specs.Reading.{is_separator as separator_is_next};

use vp_lex::{Keyword, Punctuator};
use vp_parse_expr::{Stop, is_next, name, skip, unexpected};
use vp_source::{Edge, EventTerm, Span, Symbol, SymbolKind};

/// A term after an edge, which is of this kind, and what follows.
#[tactic(auto, unfolding(crate::specs::Placing::edged_into))]
fn edged(edge: Edge, kind: SymbolKind, symbols: &[Symbol]) -> Result<(EventTerm, &[Symbol]), Stop>
    ensures read { Gives (λ found. (found.0, found.1.now)) result
        (edged_into edge kind symbols.now) }
    ensures shorter { IfOk result (λ found. length found.1.now < length symbols.now) }
{
    let rest = skip(kind, symbols)?;
    let (name, rest) = name(rest)?;
    Ok((EventTerm { edge, name }, rest))
}

/// A term of an event, and what follows.
#[tactic(auto, unfolding(crate::specs::Placing::term_into))]
fn term(symbols: &[Symbol]) -> Result<(EventTerm, &[Symbol]), Stop>
    ensures read { Gives (λ found. (found.0, found.1.now)) result (term_into symbols.now) }
    ensures shorter { IfOk result (λ found. length found.1.now < length symbols.now) }
{
    if is_next(SymbolKind::Keyword(Keyword::Posedge), symbols) {
        return edged(
            Edge::Posedge,
            SymbolKind::Keyword(Keyword::Posedge),
            symbols,
        );
    }
    if is_next(SymbolKind::Keyword(Keyword::Negedge), symbols) {
        return edged(
            Edge::Negedge,
            SymbolKind::Keyword(Keyword::Negedge),
            symbols,
        );
    }
    let (name, rest) = name(symbols)?;
    let edge = Edge::Any;
    Ok((EventTerm { edge, name }, rest))
}

/// Terms of an event go on.
fn is_separator(symbols: &[Symbol]) -> bool
    ensures { result ≡ separator_is_next symbols.now }
{
    is_next(SymbolKind::Keyword(Keyword::Or), symbols)
        || is_next(SymbolKind::Punctuator(Punctuator::Comma), symbols)
}

/// What follows what stands between terms.
#[tactic(auto, unfolding(crate::specs::Placing::separator_into))]
fn separator(symbols: &[Symbol]) -> Result<&[Symbol], Stop>
    ensures read { Gives (λ rest. rest.now) result (separator_into symbols.now) }
    ensures shorter { IfOk result (λ rest. length rest.now < length symbols.now) }
{
    if is_next(SymbolKind::Punctuator(Punctuator::Comma), symbols) {
        skip(SymbolKind::Punctuator(Punctuator::Comma), symbols)
    } else {
        skip(SymbolKind::Keyword(Keyword::Or), symbols)
    }
}

/// One more term after the others, from what stands before it on; and what follows.
#[tactic(auto, unfolding(crate::specs::Placing::joined_into))]
fn joined<'a>(terms: &mut Vec<EventTerm>, symbols: &'a [Symbol]) -> Result<&'a [Symbol], Stop>
    ensures read { Gives (λ rest. (terms.new.items, rest.now)) result
        (joined_into terms.old.items symbols.now) }
    ensures lighter { IfOk result (λ rest. vec_len terms.new + length rest.now
        ≤ vec_len terms.old + length symbols.now) }
    ensures shorter { IfOk result (λ rest. length rest.now < length symbols.now) }
{
    let rest = separator(symbols)?;
    let (term, rest) = term(rest)?;
    terms.push(term)?;
    Ok(rest)
}

/// The terms after a first one, and what follows.
fn further_terms<'a>(
    terms: &mut Vec<EventTerm>,
    symbols: &'a [Symbol],
) -> Result<&'a [Symbol], Stop>
    ensures read { Gives (λ rest. (terms.new.items, rest.now)) result
        (further_terms_into (length symbols.now) terms.old.items symbols.now) }
    ensures lighter { IfOk result (λ rest. vec_len terms.new + length rest.now
        ≤ vec_len terms.old + length symbols.now) }
    ensures no_longer { IfOk result (λ rest. length rest.now ≤ length symbols.now) }
{
    let mut rest = symbols;
    while is_separator(rest) {
        rest = joined(terms, rest)?;
    }
    Ok(rest)
}

/// The terms of an event after others, and what follows.
#[tactic(auto, unfolding(crate::specs::Placing::terms_into))]
fn terms<'a>(terms: &mut Vec<EventTerm>, symbols: &'a [Symbol]) -> Result<&'a [Symbol], Stop>
    ensures read { Gives (λ rest. (terms.new.items, rest.now)) result
        (terms_into terms.old.items symbols.now) }
    ensures lighter { IfOk result (λ rest. vec_len terms.new + length rest.now
        ≤ vec_len terms.old + length symbols.now) }
    ensures shorter { IfOk result (λ rest. length rest.now < length symbols.now) }
{
    let (first, rest) = term(symbols)?;
    terms.push(first)?;
    further_terms(terms, rest)
}

/// Where the terms of an event lie, from after the parenthesis before them; and what follows.
#[tactic(auto, unfolding(crate::specs::Placing::terms_event_into))]
fn terms_event<'a>(
    terms: &mut Vec<EventTerm>,
    symbols: &'a [Symbol],
) -> Result<(Option<Span>, &'a [Symbol]), Stop>
    requires { vec_len terms.old + length symbols.now < 2 ^ 32 }
    ensures read { Gives (λ found. (found.0, terms.new.items, found.1.now)) result
        (terms_event_into terms.old.items symbols.now) }
    ensures lighter { IfOk result (λ found. vec_len terms.new + length found.1.now
        ≤ vec_len terms.old + length symbols.now) }
    ensures shorter { IfOk result (λ found. length found.1.now < length symbols.now) }
{
    let first = terms.len() as u32;
    let rest = crate::event::terms(terms, symbols)?;
    let rest = skip(SymbolKind::Punctuator(Punctuator::RightParenthesis), rest)?;
    let end = terms.len() as u32;
    Ok((Some(Span { first, end }), rest))
}

/// What follows a star, from after the parenthesis before it.
#[tactic(auto, unfolding(crate::specs::Placing::star_event_into))]
fn star_event<'a>(
    terms: &mut Vec<EventTerm>,
    symbols: &'a [Symbol],
) -> Result<(Option<Span>, &'a [Symbol]), Stop>
    ensures read { Gives (λ found. (found.0, terms.new.items, found.1.now)) result
        (star_event_into terms.old.items symbols.now) }
    ensures same { vec_len terms.new ≡ vec_len terms.old }
    ensures shorter { IfOk result (λ found. length found.1.now < length symbols.now) }
{
    let rest = skip(SymbolKind::Punctuator(Punctuator::Asterisk), symbols)?;
    let rest = skip(SymbolKind::Punctuator(Punctuator::RightParenthesis), rest)?;
    Ok((None, rest))
}

/// An event of any change of a name, and what follows.
#[tactic(auto, unfolding(crate::specs::Placing::event_by_into))]
fn change<'a>(
    terms: &mut Vec<EventTerm>,
    name: u32,
    symbols: &'a [Symbol],
) -> Result<(Option<Span>, &'a [Symbol]), Stop>
    requires { vec_len terms.old + 1 < 2 ^ 32 }
    ensures read { Gives (λ found. (found.0, terms.new.items, found.1.now)) result
        (event_by_into Name name terms.old.items symbols.now) }
    ensures len { IfOk result (λ found. vec_len terms.new ≡ vec_len terms.old + 1) }
    ensures rest { IfOk result (λ found. found.1.now ≡ symbols.now) }
{
    let first = terms.len() as u32;
    let edge = Edge::Any;
    terms.push(EventTerm { edge, name })?;
    let end = terms.len() as u32;
    Ok((Some(Span { first, end }), symbols))
}

/// An event, and what follows: where its terms lie after others, or none where any change counts.
#[tactic(auto, unfolding(crate::specs::Placing::event_into, crate::specs::Placing::event_by_into))]
pub fn event<'a>(
    terms: &mut Vec<EventTerm>,
    symbols: &'a [Symbol],
) -> Result<(Option<Span>, &'a [Symbol]), Stop>
    requires { vec_len terms.old + length symbols.now < 2 ^ 32 }
    ensures read { Gives (λ found. (found.0, terms.new.items, found.1.now)) result
        (event_into terms.old.items symbols.now) }
    ensures lighter { IfOk result (λ found. vec_len terms.new + length found.1.now
        ≤ vec_len terms.old + length symbols.now) }
    ensures shorter { IfOk result (λ found. length found.1.now < length symbols.now) }
{
    let [first, rest @ ..] = symbols else {
        return Err(unexpected(symbols));
    };
    match first.kind {
        SymbolKind::Name => change(terms, first.place, rest),
        SymbolKind::Punctuator(Punctuator::Asterisk) => Ok((None, rest)),
        SymbolKind::Punctuator(Punctuator::LeftParenthesis) => {
            if is_next(SymbolKind::Punctuator(Punctuator::Asterisk), rest) {
                star_event(terms, rest)
            } else {
                terms_event(terms, rest)
            }
        }
        _ => Err(unexpected(symbols)),
    }
}
