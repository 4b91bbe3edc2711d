// Ports, read from left to right (docs/FORMATS.md, "Grammar").
ghost use Rattle.std.specs.Prelude.{◌≡◌, ◌<◌, ◌≤◌, ◌^◌, length, Some, IfOk};
ghost use Rattle.vp_parse_expr.specs.Stopping.{Gives, Unexpected, stop_told};
ghost use Rattle.vp_source.specs.Layout.{put_port};
ghost use Rattle.vp_parse.specs.Placing.{direction_into, header_into, listed_into, lists_in, next_type_into, output_into, parentheses_into, port_into, port_type_into, ports_into, type_shown, wire_into};
ghost use Rattle.vp_parse.specs.Weight.{weight};

use crate::arena::Arena;
use crate::items::declared_range;
use vp_lex::{Keyword, Punctuator};
use vp_parse_expr::{Stop, is_next, name, skip, unexpected};
use vp_source::{DeclaredRange, Direction, Item, Symbol, SymbolKind};

/// The direction of a port and its range.
#[derive(Clone, Copy)]
struct PortType {
    direction: Direction,
    range: Option<DeclaredRange>,
}

/// What follows the keyword `wire`, if it is next.
#[tactic(auto, unfolding(crate::specs::Placing::wire_into))]
fn wire(symbols: &[Symbol]) -> Result<&[Symbol], Stop>
    ensures read { Gives (λ rest. rest.now) result (wire_into symbols.now) }
    ensures no_longer { IfOk result (λ rest. length rest.now ≤ length symbols.now) }
{
    if is_next(SymbolKind::Keyword(Keyword::Wire), symbols) {
        skip(SymbolKind::Keyword(Keyword::Wire), symbols)
    } else {
        Ok(symbols)
    }
}

/// An output, from after its keyword.
#[tactic(auto, unfolding(crate::specs::Placing::output_into))]
fn output(symbols: &[Symbol]) -> Result<(Direction, &[Symbol]), Stop>
    ensures read { Gives (λ found. (found.0, found.1.now)) result (output_into symbols.now) }
    ensures no_longer { IfOk result (λ found. length found.1.now ≤ length symbols.now) }
{
    if is_next(SymbolKind::Keyword(Keyword::Reg), symbols) {
        let rest = skip(SymbolKind::Keyword(Keyword::Reg), symbols)?;
        return Ok((Direction::OutputReg, rest));
    }
    let rest = wire(symbols)?;
    Ok((Direction::Output, rest))
}

/// Where no direction of a port is next. A list of bare names is left out.
fn no_direction(symbols: &[Symbol]) -> Stop
    ensures { stop_told result ≡ Some (Unexpected (length symbols.now)) }
{
    if is_next(SymbolKind::Name, symbols) {
        Stop::LeftOut(symbols.len())
    } else {
        unexpected(symbols)
    }
}

/// The direction of a port.
#[tactic(auto, unfolding(crate::specs::Placing::direction_into, crate::specs::Placing::direction_by_into))]
fn direction(symbols: &[Symbol]) -> Result<(Direction, &[Symbol]), Stop>
    ensures read { Gives (λ found. (found.0, found.1.now)) result (direction_into symbols.now) }
    ensures shorter { IfOk result (λ found. length found.1.now < length symbols.now) }
{
    let [first, rest @ ..] = symbols else {
        return Err(unexpected(symbols));
    };
    match first.kind {
        SymbolKind::Keyword(Keyword::Input) => Ok((Direction::Input, wire(rest)?)),
        SymbolKind::Keyword(Keyword::Output) => output(rest),
        _ => Err(no_direction(symbols)),
    }
}

/// The direction and the range of a port.
#[tactic(auto, unfolding(crate::specs::Placing::port_type_into))]
fn port_type(symbols: &[Symbol]) -> Result<(PortType, &[Symbol]), Stop>
    ensures read { Gives (λ found. (type_shown found.0, found.1.now)) result
        (port_type_into symbols.now) }
    ensures shorter { IfOk result (λ found. length found.1.now < length symbols.now) }
{
    let (direction, rest) = direction(symbols)?;
    let (range, rest) = declared_range(rest)?;
    Ok((PortType { direction, range }, rest))
}

/// The direction and the range of a port after another: those of that one, where a name is next.
#[tactic(auto, unfolding(crate::specs::Placing::next_type_into))]
fn next_type(before: PortType, symbols: &[Symbol]) -> Result<(PortType, &[Symbol]), Stop>
    ensures read { Gives (λ found. (type_shown found.0, found.1.now)) result
        (next_type_into (type_shown before) symbols.now) }
    ensures no_longer { IfOk result (λ found. length found.1.now ≤ length symbols.now) }
{
    if is_next(SymbolKind::Name, symbols) {
        Ok((before, symbols))
    } else {
        port_type(symbols)
    }
}

/// A port of a direction and a range, by its name.
#[tactic(auto, unfolding(crate::specs::Placing::port_into))]
fn port<'a>(arena: &mut Arena, of: PortType, symbols: &'a [Symbol]) -> Result<&'a [Symbol], Stop>
    requires { weight arena.old symbols.now < 2 ^ 32 }
    ensures read { Gives (λ rest. (lists_in arena.new, rest.now)) result
        (port_into (type_shown of) (lists_in arena.old) symbols.now) }
    ensures lighter { IfOk result (λ rest. weight arena.new rest.now
        < weight arena.old symbols.now) }
    ensures shorter { IfOk result (λ rest. length rest.now < length symbols.now) }
{
    let (name, rest) = name(symbols)?;
    let PortType { direction, range } = of;
    arena.items.push(Item::Port {
        name,
        direction,
        range,
    })?;
    Ok(rest)
}

/// Further ports, each after a comma.
fn further_ports<'a>(
    arena: &mut Arena,
    first: PortType,
    symbols: &'a [Symbol],
) -> Result<&'a [Symbol], Stop>
    requires { weight arena.old symbols.now < 2 ^ 32 }
    ensures read { Gives (λ rest. (lists_in arena.new, rest.now)) result
        (ports_into (type_shown first) (length symbols.now) (lists_in arena.old) symbols.now) }
    ensures lighter { IfOk result (λ rest. weight arena.new rest.now
        ≤ weight arena.old symbols.now) }
    ensures no_longer { IfOk result (λ rest. length rest.now ≤ length symbols.now) }
{
    let mut before = first;
    let mut rest = symbols;
    while is_next(SymbolKind::Punctuator(Punctuator::Comma), rest) {
        let after = skip(SymbolKind::Punctuator(Punctuator::Comma), rest)?;
        let (of, after) = next_type(before, after)?;
        rest = port(arena, of, after)?;
        before = of;
    }
    Ok(rest)
}

/// The ports of a module, from after their parenthesis, up to the other.
#[tactic(auto, unfolding(crate::specs::Placing::listed_into))]
fn listed<'a>(arena: &mut Arena, symbols: &'a [Symbol]) -> Result<&'a [Symbol], Stop>
    requires { weight arena.old symbols.now < 2 ^ 32 }
    ensures read { Gives (λ rest. (lists_in arena.new, rest.now)) result
        (listed_into (lists_in arena.old) symbols.now) }
    ensures lighter { IfOk result (λ rest. weight arena.new rest.now
        ≤ weight arena.old symbols.now) }
    ensures no_longer { IfOk result (λ rest. length rest.now ≤ length symbols.now) }
{
    if is_next(
        SymbolKind::Punctuator(Punctuator::RightParenthesis),
        symbols,
    ) {
        return Ok(symbols);
    }
    let (of, rest) = port_type(symbols)?;
    let rest = port(arena, of, rest)?;
    further_ports(arena, of, rest)
}

/// The parentheses of a module, with its ports.
#[tactic(auto, unfolding(crate::specs::Placing::parentheses_into))]
fn parentheses<'a>(arena: &mut Arena, symbols: &'a [Symbol]) -> Result<&'a [Symbol], Stop>
    requires { weight arena.old symbols.now < 2 ^ 32 }
    ensures read { Gives (λ rest. (lists_in arena.new, rest.now)) result
        (parentheses_into (lists_in arena.old) symbols.now) }
    ensures lighter { IfOk result (λ rest. weight arena.new rest.now
        ≤ weight arena.old symbols.now) }
    ensures no_longer { IfOk result (λ rest. length rest.now ≤ length symbols.now) }
{
    let rest = skip(SymbolKind::Punctuator(Punctuator::LeftParenthesis), symbols)?;
    let rest = listed(arena, rest)?;
    skip(SymbolKind::Punctuator(Punctuator::RightParenthesis), rest)
}

/// What stands after the name of a module: its ports in parentheses, or nothing.
#[tactic(auto, unfolding(crate::specs::Placing::header_into))]
pub fn header<'a>(arena: &mut Arena, symbols: &'a [Symbol]) -> Result<&'a [Symbol], Stop>
    requires { weight arena.old symbols.now < 2 ^ 32 }
    ensures read { Gives (λ rest. (lists_in arena.new, rest.now)) result
        (header_into (lists_in arena.old) symbols.now) }
    ensures lighter { IfOk result (λ rest. weight arena.new rest.now
        ≤ weight arena.old symbols.now) }
    ensures no_longer { IfOk result (λ rest. length rest.now ≤ length symbols.now) }
{
    if is_next(SymbolKind::Punctuator(Punctuator::LeftParenthesis), symbols) {
        parentheses(arena, symbols)
    } else {
        Ok(symbols)
    }
}
