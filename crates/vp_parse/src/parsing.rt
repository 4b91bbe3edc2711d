// The grammar, read from left to right (docs/FORMATS.md, "Grammar").
ghost use Rattle.std.specs.Prelude.{◌≡◌, ◌<◌, ◌≤◌, ◌^◌, ◌⊎◌, [], length, Result, IfOk, IfErr};
ghost use Rattle.vp_lex.specs.declared.token.TheConstants.{TEXT_LIMIT};
ghost use Rattle.vp_parse_expr.specs.Stopping.{Gives, Fails, Stop as Reason};
ghost use Rattle.vp_parse_expr.specs.Symbols.{symbols_of};
ghost use Rattle.vp_source.specs.Grammar.{Derivation, IsDerivation};
ghost use Rattle.vp_source.specs.Layout.{IsSourceOf, lists_of};
ghost use Rattle.vp_parse.specs.Placing.{lists_in, module_into, modules_into};
ghost use Rattle.vp_parse.specs.Reading.{read};
ghost use Rattle.vp_source.specs.Standing.{ItemsStand};
ghost use Rattle.vp_parse.specs.declared.error.ParseError.TheVariants as error;
ghost use Rattle.vp_parse.specs.Told.{IsUnderivable, Tells, stopped_at as stop_at, place_told, line_told};
ghost use Rattle.vp_parse.specs.Weight.{weight};
ghost use Rattle.vp_source.specs.Whole.{AreWhole};

use crate::arena::Arena;
use crate::error::ParseError;
use crate::items::items;
use crate::ports::header;
use std::alloc::Global;
use vp_lex::{Keyword, Punctuator, Token};
use vp_parse_expr::{Stop, name, skip, symbols};
use vp_source::{DEPTH_LIMIT, Module, Source, Span, Symbol, SymbolKind};
use vp_text::{Sequence, Text};

/// The places of a list from one up to another.
fn span(first: u32, end: u32) -> Span
    ensures { result ≡ record { first = first; end = end } }
{
    Span { first, end }
}

/// A module, whose statements and expressions nest at most so deep.
#[tactic(auto, unfolding(crate::specs::Placing::module_into))]
fn module<'a>(
    arena: &mut Arena,
    limit: u32,
    symbols: &'a [Symbol],
) -> Result<(Module, &'a [Symbol]), Stop>
    requires { weight arena.old symbols.now < 2 ^ 32 }
    ensures read { Gives (λ found. (found.0, lists_in arena.new, found.1.now)) result
        (module_into limit (lists_in arena.old) symbols.now) }
    ensures lighter { IfOk result (λ found. weight arena.new found.1.now
        < weight arena.old symbols.now) }
    ensures shorter { IfOk result (λ found. length found.1.now < length symbols.now) }
{
    let before = arena.ends();
    let rest = skip(SymbolKind::Keyword(Keyword::Module), symbols)?;
    let (name, rest) = name(rest)?;
    let rest = header(arena, rest)?;
    let ports = arena.ends().items;
    let rest = skip(SymbolKind::Punctuator(Punctuator::Semicolon), rest)?;
    let rest = items(arena, limit, rest)?;
    let rest = skip(SymbolKind::Keyword(Keyword::Endmodule), rest)?;
    let after = arena.ends();
    let module = Module {
        name,
        items: span(before.items, after.items),
        ports,
        statements: span(before.statements, after.statements),
        expressions: span(before.expressions, after.expressions),
        terms: span(before.terms, after.terms),
        choices: span(before.choices, after.choices),
    };
    Ok((module, rest))
}

/// All modules of a text, whose statements and expressions nest at most so deep.
fn modules(
    alloc: Global,
    arena: &mut Arena,
    limit: u32,
    symbols: &[Symbol],
) -> Result<Vec<Module>, Stop>
    requires { weight arena.old symbols.now < 2 ^ 32 }
    ensures { Gives (λ found. (found.items, lists_in arena.new)) result
        (modules_into limit (length symbols.now) [] (lists_in arena.old) symbols.now) }
{
    let mut modules = Vec::new(alloc);
    let mut rest = symbols;
    while !rest.is_empty() {
        let (next, after) = module(arena, limit, rest)?;
        modules.push(next)?;
        rest = after;
    }
    Ok(modules)
}

/// The symbol at which reading stopped, with so many left; at the end of the text the last one.
fn stopped_at(symbols: &[Symbol], unread: usize) -> Option<Symbol>
    ensures { result ≡ stop_at symbols.now unread }
{
    symbols
        .get(symbols.len().saturating_sub(unread.max(1)))
        .copied()
}

/// The place of the symbol at which reading stopped, 0 where there is none.
fn place_of(symbols: &[Symbol], unread: usize) -> u32
    ensures { result ≡ place_told symbols.now unread }
{
    match stopped_at(symbols, unread) {
        Some(symbol) => symbol.place,
        None => 0,
    }
}

/// The line on which reading stopped, 0 where there is none.
fn line_of(symbols: &[Symbol], tokens: &[Token], unread: usize) -> u32
    ensures { result ≡ line_told tokens.now symbols.now unread }
{
    let Some(symbol) = stopped_at(symbols, unread) else {
        return 0;
    };
    match tokens.get(symbol.place as usize) {
        Some(token) => token.line,
        None => 0,
    }
}

/// The error of a stop, with its line.
fn error_of(stop: Stop, symbols: &[Symbol], tokens: &[Token]) -> ParseError
    ensures { (read : Result Derivation Reason) → Fails stop read
        → Tells tokens.now symbols.now result read }
{
    match stop {
        Stop::Syntax(unread) => ParseError::Syntax {
            line: line_of(symbols, tokens, unread),
        },
        Stop::LeftOut(unread) => ParseError::LeftOut {
            word: place_of(symbols, unread),
            line: line_of(symbols, tokens, unread),
        },
        Stop::TooDeep(unread) => ParseError::TooDeep {
            line: line_of(symbols, tokens, unread),
        },
        Stop::NoMemory => ParseError::NoMemory,
    }
}

/// The source of a text with its tokens, its modules and the lists that these name.
fn source_with(
    alloc: Global,
    text: &str,
    tokens: &[Token],
    modules: Vec<Module>,
    arena: Arena,
) -> Result<Source, ParseError>
    ensures text { IfOk result (λ source. source.text ≡ text.now) }
    ensures tokens { IfOk result (λ source. source.tokens ≡ tokens.now) }
    ensures modules { IfOk result (λ source. source.modules ≡ modules.items) }
    ensures lists { IfOk result (λ source. lists_of source ≡ lists_in arena) }
    ensures memory { IfErr result (λ e. e ≡ error.NoMemory) }
{
    Ok(Source {
        text: Text::copy(alloc, text)?,
        tokens: Sequence::from_vec(Vec::from_slice(alloc, tokens)?),
        modules: Sequence::from_vec(modules),
        items: Sequence::from_vec(arena.items),
        connections: Sequence::from_vec(arena.connections),
        statements: Sequence::from_vec(arena.parts.statements),
        expressions: Sequence::from_vec(arena.parts.expressions),
        terms: Sequence::from_vec(arena.parts.terms),
        choices: Sequence::from_vec(arena.parts.choices),
    })
}

/// The source of a text, of its tokens; or its first fault (401, 402, 403), or out of memory (404).
pub fn parse(alloc: Global, text: &str, tokens: &[Token]) -> Result<Source, ParseError>
    requires { length tokens.now ≤ TEXT_LIMIT }
    // What is found lies in the source as a derivation of the symbols says.
    ensures found { IfOk result (λ source. (d : Derivation)
        × IsDerivation d (symbols_of text.now tokens.now)
        × IsSourceOf text.now tokens.now d source) }
    // Its modules hold all expressions, statements, terms of events and choices of cases that are found.
    ensures whole { IfOk result (λ source. AreWhole source) }
    // Each item of what is found stands in its module: its statement, its value or its connections stand where the module's item says.
    ensures items { IfOk result (λ source.
        (d : Derivation) → IsSourceOf text.now tokens.now d source → ItemsStand source d) }
    // What is refused has no derivation, unless memory ran out.
    ensures none { IfErr result (λ e. IsUnderivable (symbols_of text.now tokens.now) e) }
    // The fault is the one at which reading stops.
    ensures fault { IfErr result (λ e. Tells tokens.now (symbols_of text.now tokens.now) e
        (read (symbols_of text.now tokens.now))) }
{
    let symbols = symbols(alloc, text, tokens)?;
    let mut arena = Arena::new(alloc);
    match modules(alloc, &mut arena, DEPTH_LIMIT, symbols.as_slice()) {
        Ok(modules) => source_with(alloc, text, tokens, modules, arena),
        Err(stop) => Err(error_of(stop, symbols.as_slice(), tokens)),
    }
}
