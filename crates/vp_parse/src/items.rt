// Items, read from left to right (docs/FORMATS.md, "Grammar").
ghost use Rattle.std.specs.Prelude.{◌≡◌, ◌<◌, ◌≤◌, ◌+◌, ◌^◌, length, IfOk};
ghost use Rattle.vp_lex.specs.declared.token.Punctuator.TheVariants as punctuator;
ghost use Rattle.vp_source.specs.declared.symbol.SymbolKind.TheVariants as symbol;
ghost use Rattle.vp_parse_expr.specs.Stopping.{Gives, following, terminal};
ghost use Rattle.vp_parse_stmt.specs.Placing.{stmt_into, value_into};
ghost use Rattle.vp_source.specs.declared.source.Item.TheVariants as item_of;
ghost use Rattle.vp_source.specs.Layout.{first_place};
ghost use Rattle.vp_parse.specs.Placing.{connected_into, connection_into, connections_into, declarator_by_into, declarator_into, declarators_into, further_into, instance_into, item_into, items_into, lists_in, named_into, net_into, optional_into, ordered_into, procedure_into, sized_into, valued_into, width_into};
ghost use Rattle.vp_parse.specs.Reading.{is_end};
ghost use Rattle.vp_parse.specs.Weight.{weight};

use crate::arena::Arena;
use vp_lex::{Keyword, Punctuator};
use vp_parse_expr::{Stop, is_kind, is_next, literal, name, range, skip, unexpected};
use vp_parse_stmt::{statement, target, value};
use vp_source::{Connection, DeclaredRange, Item, Symbol, SymbolKind};

/// What the declarators of an item declare.
#[derive(Clone, Copy)]
pub enum Declaration {
    Nets(Option<DeclaredRange>),
    Regs(Option<DeclaredRange>),
    LocalParameters,
    Assignments,
    /// Instances of the module of this name, by its token.
    Instances(u32),
}

/// The place of the first symbol; 0 where there is none.
fn first_place(symbols: &[Symbol]) -> u32
    ensures { result ≡ first_place symbols.now }
{
    match symbols {
        [first, ..] => first.place,
        [] => 0,
    }
}

/// A connection ends here: a comma or a parenthesis is next.
fn is_end(symbols: &[Symbol]) -> bool
    ensures { result ≡ is_end symbols.now }
{
    is_next(SymbolKind::Punctuator(Punctuator::Comma), symbols)
        || is_next(
            SymbolKind::Punctuator(Punctuator::RightParenthesis),
            symbols,
        )
}

/// The range of a declaration, if one is next.
#[tactic(auto, unfolding(crate::specs::Placing::width_into))]
pub fn declared_range(symbols: &[Symbol]) -> Result<(Option<DeclaredRange>, &[Symbol]), Stop>
    ensures read { Gives (λ found. (found.0, found.1.now)) result (width_into symbols.now) }
    ensures no_longer { IfOk result (λ found. length found.1.now ≤ length symbols.now) }
{
    match symbols {
        [first, ..] if is_kind(SymbolKind::Punctuator(Punctuator::LeftBracket), first.kind) => {
            let bracket = first.place;
            let (range, rest) = range(symbols)?;
            Ok((Some(DeclaredRange { bracket, range }), rest))
        }
        _ => Ok((None, symbols)),
    }
}

// ---- connections

/// The expression of a connection, if it has one.
#[tactic(auto, unfolding(crate::specs::Placing::optional_into))]
fn optional<'a>(
    arena: &mut Arena,
    limit: u32,
    symbols: &'a [Symbol],
) -> Result<(Option<u32>, &'a [Symbol]), Stop>
    requires { weight arena.old symbols.now < 2 ^ 32 }
    ensures read { Gives (λ found. (found.0, lists_in arena.new, found.1.now)) result
        (optional_into limit (lists_in arena.old) symbols.now) }
    ensures lighter { IfOk result (λ found. weight arena.new found.1.now
        ≤ weight arena.old symbols.now) }
    ensures no_longer { IfOk result (λ found. length found.1.now ≤ length symbols.now) }
{
    if is_end(symbols) {
        return Ok((None, symbols));
    }
    let (value, rest) = value(&mut arena.parts, limit, symbols)?;
    Ok((Some(value), rest))
}

/// A connection by position.
#[tactic(auto, unfolding(crate::specs::Placing::ordered_into))]
fn ordered<'a>(arena: &mut Arena, limit: u32, symbols: &'a [Symbol]) -> Result<&'a [Symbol], Stop>
    requires { weight arena.old symbols.now + 1 < 2 ^ 32 }
    ensures read { Gives (λ rest. (lists_in arena.new, rest.now)) result
        (ordered_into limit (lists_in arena.old) symbols.now) }
    ensures lighter { IfOk result (λ rest. weight arena.new rest.now
        ≤ weight arena.old symbols.now + 1) }
    ensures no_longer { IfOk result (λ rest. length rest.now ≤ length symbols.now) }
{
    let place = first_place(symbols);
    let (value, rest) = optional(arena, limit, symbols)?;
    arena.connections.push(Connection {
        place,
        port: None,
        value,
    })?;
    Ok(rest)
}

/// A connection by name.
#[tactic(auto, unfolding(crate::specs::Placing::named_into))]
fn named<'a>(arena: &mut Arena, limit: u32, symbols: &'a [Symbol]) -> Result<&'a [Symbol], Stop>
    requires { weight arena.old symbols.now + 1 < 2 ^ 32 }
    ensures read { Gives (λ rest. (lists_in arena.new, rest.now)) result
        (named_into limit (lists_in arena.old) symbols.now) }
    ensures lighter { IfOk result (λ rest. weight arena.new rest.now
        ≤ weight arena.old symbols.now + 1) }
    ensures no_longer { IfOk result (λ rest. length rest.now ≤ length symbols.now) }
{
    let rest = skip(SymbolKind::Punctuator(Punctuator::Period), symbols)?;
    let (port, rest) = name(rest)?;
    let rest = skip(SymbolKind::Punctuator(Punctuator::LeftParenthesis), rest)?;
    let place = first_place(rest);
    let (value, rest) = optional(arena, limit, rest)?;
    let rest = skip(SymbolKind::Punctuator(Punctuator::RightParenthesis), rest)?;
    arena.connections.push(Connection {
        place,
        port: Some(port),
        value,
    })?;
    Ok(rest)
}

/// A connection, by name or by position.
#[tactic(auto, unfolding(crate::specs::Placing::connection_into))]
fn connection<'a>(
    arena: &mut Arena,
    limit: u32,
    by_name: bool,
    symbols: &'a [Symbol],
) -> Result<&'a [Symbol], Stop>
    requires { weight arena.old symbols.now + 1 < 2 ^ 32 }
    ensures read { Gives (λ rest. (lists_in arena.new, rest.now)) result
        (connection_into limit by_name (lists_in arena.old) symbols.now) }
    ensures lighter { IfOk result (λ rest. weight arena.new rest.now
        ≤ weight arena.old symbols.now + 1) }
    ensures no_longer { IfOk result (λ rest. length rest.now ≤ length symbols.now) }
{
    if by_name {
        named(arena, limit, symbols)
    } else {
        ordered(arena, limit, symbols)
    }
}

/// Further connections, each after a comma, by name or by position.
fn further_connections<'a>(
    arena: &mut Arena,
    limit: u32,
    by_name: bool,
    symbols: &'a [Symbol],
) -> Result<&'a [Symbol], Stop>
    requires { weight arena.old symbols.now < 2 ^ 32 }
    ensures read { Gives (λ rest. (lists_in arena.new, rest.now)) result
        (further_into (connection_into limit by_name) (length symbols.now) (lists_in arena.old)
        symbols.now) }
    ensures lighter { IfOk result (λ rest. weight arena.new rest.now
        ≤ weight arena.old symbols.now) }
    ensures no_longer { IfOk result (λ rest. length rest.now ≤ length symbols.now) }
{
    let mut rest = symbols;
    while is_next(SymbolKind::Punctuator(Punctuator::Comma), rest) {
        let after = skip(SymbolKind::Punctuator(Punctuator::Comma), rest)?;
        rest = connection(arena, limit, by_name, after)?;
    }
    Ok(rest)
}

/// The connections of an instance, up to its parenthesis: all by name or all by position, as the first.
#[tactic(auto, unfolding(crate::specs::Placing::connections_into, crate::specs::Placing::connected_into))]
fn connections<'a>(
    arena: &mut Arena,
    limit: u32,
    symbols: &'a [Symbol],
) -> Result<&'a [Symbol], Stop>
    requires { weight arena.old symbols.now + 1 < 2 ^ 32 }
    ensures read { Gives (λ rest. (lists_in arena.new, rest.now)) result
        (connections_into limit (lists_in arena.old) symbols.now) }
    ensures lighter { IfOk result (λ rest. weight arena.new rest.now
        ≤ weight arena.old symbols.now + 1) }
    ensures no_longer { IfOk result (λ rest. length rest.now ≤ length symbols.now) }
{
    if is_next(
        SymbolKind::Punctuator(Punctuator::RightParenthesis),
        symbols,
    ) {
        return Ok(symbols);
    }
    let by_name = is_next(SymbolKind::Punctuator(Punctuator::Period), symbols);
    let rest = connection(arena, limit, by_name, symbols)?;
    further_connections(arena, limit, by_name, rest)
}

// ---- declarators

/// The value of a name, from after the name.
#[tactic(auto, unfolding(crate::specs::Placing::valued_into))]
fn valued<'a>(
    arena: &mut Arena,
    limit: u32,
    symbols: &'a [Symbol],
) -> Result<(u32, &'a [Symbol]), Stop>
    requires { weight arena.old symbols.now < 2 ^ 32 }
    ensures read { Gives (λ found. (found.0, lists_in arena.new, found.1.now)) result
        (valued_into (value_into limit) (lists_in arena.old) symbols.now) }
    ensures lighter { IfOk result (λ found. weight arena.new found.1.now + 1
        < weight arena.old symbols.now) }
    ensures shorter { IfOk result (λ found. length found.1.now < length symbols.now) }
{
    let rest = skip(SymbolKind::Punctuator(Punctuator::Equals), symbols)?;
    value(&mut arena.parts, limit, rest)
}

/// The literal of a local parameter, from after its name.
#[tactic(auto, unfolding(crate::specs::Placing::valued_into))]
fn sized<'a>(arena: &mut Arena, symbols: &'a [Symbol]) -> Result<(u32, &'a [Symbol]), Stop>
    requires { weight arena.old symbols.now < 2 ^ 32 }
    ensures read { Gives (λ found. (found.0, lists_in arena.new, found.1.now)) result
        (valued_into sized_into (lists_in arena.old) symbols.now) }
    ensures lighter { IfOk result (λ found. weight arena.new found.1.now + 1
        < weight arena.old symbols.now) }
    ensures shorter { IfOk result (λ found. length found.1.now < length symbols.now) }
{
    let rest = skip(SymbolKind::Punctuator(Punctuator::Equals), symbols)?;
    let found = literal(&mut arena.parts.expressions, rest)?;
    Ok((found.place, found.rest))
}

/// A net, from after its name, with a continuous assignment where it has a value.
#[tactic(auto, unfolding(crate::specs::Placing::net_into))]
fn net<'a>(
    arena: &mut Arena,
    limit: u32,
    range: Option<DeclaredRange>,
    name: u32,
    symbols: &'a [Symbol],
) -> Result<&'a [Symbol], Stop>
    requires { weight arena.old symbols.now + 2 < 2 ^ 32 }
    ensures read { Gives (λ rest. (lists_in arena.new, rest.now)) result
        (net_into limit range name (lists_in arena.old) symbols.now) }
    ensures lighter { IfOk result (λ rest. weight arena.new rest.now
        ≤ weight arena.old symbols.now + 1) }
    ensures no_longer { IfOk result (λ rest. length rest.now ≤ length symbols.now) }
{
    if !is_next(SymbolKind::Punctuator(Punctuator::Equals), symbols) {
        arena.items.push(Item::Net { name, range })?;
        return Ok(symbols);
    }
    let (value, rest) = valued(arena, limit, symbols)?;
    arena.items.push(Item::Net { name, range })?;
    let target = name;
    arena.items.push(Item::Assignment { target, value })?;
    Ok(rest)
}

/// An instance of a module, from after its name.
#[tactic(auto, unfolding(crate::specs::Placing::instance_into))]
fn instance<'a>(
    arena: &mut Arena,
    limit: u32,
    definition: u32,
    name: u32,
    symbols: &'a [Symbol],
) -> Result<&'a [Symbol], Stop>
    requires { weight arena.old symbols.now < 2 ^ 32 }
    ensures read { Gives (λ rest. (lists_in arena.new, rest.now)) result
        (instance_into limit definition name (lists_in arena.old) symbols.now) }
    ensures lighter { IfOk result (λ rest. weight arena.new rest.now
        ≤ weight arena.old symbols.now) }
    ensures shorter { IfOk result (λ rest. length rest.now < length symbols.now) }
{
    let first = arena.connections.len() as u32;
    let rest = skip(SymbolKind::Punctuator(Punctuator::LeftParenthesis), symbols)?;
    let rest = connections(arena, limit, rest)?;
    let rest = skip(SymbolKind::Punctuator(Punctuator::RightParenthesis), rest)?;
    let end = arena.connections.len() as u32;
    arena.items.push(Item::Instance {
        name,
        definition,
        first,
        end,
    })?;
    Ok(rest)
}

/// A declarator of a declaration, from after its name.
#[tactic(auto, unfolding(crate::specs::Placing::declarator_by_into))]
fn declarator_after<'a>(
    arena: &mut Arena,
    limit: u32,
    declaration: Declaration,
    name: u32,
    symbols: &'a [Symbol],
) -> Result<&'a [Symbol], Stop>
    requires { weight arena.old symbols.now + 2 < 2 ^ 32 }
    ensures read { Gives (λ rest. (lists_in arena.new, rest.now)) result
        (declarator_by_into limit declaration name (lists_in arena.old) symbols.now) }
    ensures lighter { IfOk result (λ rest. weight arena.new rest.now
        ≤ weight arena.old symbols.now + 1) }
    ensures no_longer { IfOk result (λ rest. length rest.now ≤ length symbols.now) }
{
    match declaration {
        Declaration::Nets(range) => net(arena, limit, range, name, symbols),
        Declaration::Regs(range) => {
            arena.items.push(Item::Reg { name, range })?;
            Ok(symbols)
        }
        Declaration::LocalParameters => {
            let (value, rest) = sized(arena, symbols)?;
            arena.items.push(Item::LocalParameter { name, value })?;
            Ok(rest)
        }
        Declaration::Assignments => {
            let (value, rest) = valued(arena, limit, symbols)?;
            let target = name;
            arena.items.push(Item::Assignment { target, value })?;
            Ok(rest)
        }
        Declaration::Instances(definition) => instance(arena, limit, definition, name, symbols),
    }
}

/// The place of the name with which a declarator begins, of an assignment that of its target, and what follows.
fn declared(declaration: Declaration, symbols: &[Symbol]) -> Result<(u32, &[Symbol]), Stop>
    ensures read { Gives (λ found. (found.0, found.1.now)) result
        (terminal symbol.Name symbols.now) }
    ensures shorter { IfOk result (λ found. length found.1.now + 1 ≡ length symbols.now) }
{
    match declaration {
        Declaration::Assignments => target(symbols),
        _ => name(symbols),
    }
}

/// A declarator of a declaration.
#[tactic(auto, unfolding(crate::specs::Placing::declarator_into))]
fn declarator<'a>(
    arena: &mut Arena,
    limit: u32,
    declaration: Declaration,
    symbols: &'a [Symbol],
) -> Result<&'a [Symbol], Stop>
    requires { weight arena.old symbols.now < 2 ^ 32 }
    ensures read { Gives (λ rest. (lists_in arena.new, rest.now)) result
        (declarator_into limit declaration (lists_in arena.old) symbols.now) }
    ensures lighter { IfOk result (λ rest. weight arena.new rest.now
        < weight arena.old symbols.now) }
    ensures shorter { IfOk result (λ rest. length rest.now < length symbols.now) }
{
    let (name, rest) = declared(declaration, symbols)?;
    declarator_after(arena, limit, declaration, name, rest)
}

/// Further declarators of a declaration, each after a comma.
fn further_declarators<'a>(
    arena: &mut Arena,
    limit: u32,
    declaration: Declaration,
    symbols: &'a [Symbol],
) -> Result<&'a [Symbol], Stop>
    requires { weight arena.old symbols.now < 2 ^ 32 }
    ensures read { Gives (λ rest. (lists_in arena.new, rest.now)) result
        (further_into (declarator_into limit declaration) (length symbols.now) (lists_in arena.old)
        symbols.now) }
    ensures lighter { IfOk result (λ rest. weight arena.new rest.now
        ≤ weight arena.old symbols.now) }
    ensures no_longer { IfOk result (λ rest. length rest.now ≤ length symbols.now) }
{
    let mut rest = symbols;
    while is_next(SymbolKind::Punctuator(Punctuator::Comma), rest) {
        let after = skip(SymbolKind::Punctuator(Punctuator::Comma), rest)?;
        rest = declarator(arena, limit, declaration, after)?;
    }
    Ok(rest)
}

/// What follows a declaration's semicolon. A value of a reg is left out.
#[tactic(auto, unfolding(vp_parse_expr::specs::Stopping::following))]
fn declaration_end(declaration: Declaration, symbols: &[Symbol]) -> Result<&[Symbol], Stop>
    ensures read { Gives (λ rest. rest.now) result
        (following (symbol.Punctuator punctuator.Semicolon) symbols.now) }
    ensures shorter { IfOk result (λ rest. length rest.now + 1 ≡ length symbols.now) }
{
    match (declaration, symbols) {
        (
            Declaration::Regs(_),
            [
                Symbol {
                    kind: SymbolKind::Punctuator(Punctuator::Equals),
                    ..
                },
                ..
            ],
        ) => Err(Stop::LeftOut(symbols.len())),
        _ => skip(SymbolKind::Punctuator(Punctuator::Semicolon), symbols),
    }
}

/// The declarators of a declaration, and its semicolon.
#[tactic(auto, unfolding(crate::specs::Placing::declarators_into))]
fn declarators<'a>(
    arena: &mut Arena,
    limit: u32,
    declaration: Declaration,
    symbols: &'a [Symbol],
) -> Result<&'a [Symbol], Stop>
    requires { weight arena.old symbols.now < 2 ^ 32 }
    ensures read { Gives (λ rest. (lists_in arena.new, rest.now)) result
        (declarators_into limit declaration (lists_in arena.old) symbols.now) }
    ensures lighter { IfOk result (λ rest. weight arena.new rest.now
        < weight arena.old symbols.now) }
    ensures shorter { IfOk result (λ rest. length rest.now < length symbols.now) }
{
    let rest = declarator(arena, limit, declaration, symbols)?;
    let rest = further_declarators(arena, limit, declaration, rest)?;
    declaration_end(declaration, rest)
}

// ---- items

/// An `initial`, from after its keyword, whose statements and expressions nest at most so deep.
#[tactic(auto, unfolding(crate::specs::Placing::procedure_into))]
fn initial<'a>(
    arena: &mut Arena,
    limit: u32,
    keyword: u32,
    symbols: &'a [Symbol],
) -> Result<&'a [Symbol], Stop>
    requires { weight arena.old symbols.now < 2 ^ 32 }
    ensures read { Gives (λ rest. (lists_in arena.new, rest.now)) result
        (procedure_into (stmt_into limit limit) (item_of.Initial keyword) (lists_in arena.old)
        symbols.now) }
    ensures lighter { IfOk result (λ rest. weight arena.new rest.now
        ≤ weight arena.old symbols.now) }
    ensures shorter { IfOk result (λ rest. length rest.now < length symbols.now) }
{
    let (body, rest) = statement(&mut arena.parts, limit, limit, symbols)?;
    arena.items.push(Item::Initial { keyword, body })?;
    Ok(rest)
}

/// An `always`, from after its keyword, whose statements and expressions nest at most so deep.
#[tactic(auto, unfolding(crate::specs::Placing::procedure_into))]
fn always<'a>(
    arena: &mut Arena,
    limit: u32,
    keyword: u32,
    symbols: &'a [Symbol],
) -> Result<&'a [Symbol], Stop>
    requires { weight arena.old symbols.now < 2 ^ 32 }
    ensures read { Gives (λ rest. (lists_in arena.new, rest.now)) result
        (procedure_into (stmt_into limit limit) (item_of.Always keyword) (lists_in arena.old)
        symbols.now) }
    ensures lighter { IfOk result (λ rest. weight arena.new rest.now
        ≤ weight arena.old symbols.now) }
    ensures shorter { IfOk result (λ rest. length rest.now < length symbols.now) }
{
    let (body, rest) = statement(&mut arena.parts, limit, limit, symbols)?;
    arena.items.push(Item::Always { keyword, body })?;
    Ok(rest)
}

/// An item of a module.
#[tactic(auto, unfolding(crate::specs::Placing::item_into, crate::specs::Placing::item_by_into))]
fn item<'a>(arena: &mut Arena, limit: u32, symbols: &'a [Symbol]) -> Result<&'a [Symbol], Stop>
    requires { weight arena.old symbols.now < 2 ^ 32 }
    ensures read { Gives (λ rest. (lists_in arena.new, rest.now)) result
        (item_into limit (stmt_into limit limit) (lists_in arena.old) symbols.now) }
    ensures lighter { IfOk result (λ rest. weight arena.new rest.now
        < weight arena.old symbols.now) }
    ensures shorter { IfOk result (λ rest. length rest.now < length symbols.now) }
{
    let [first, rest @ ..] = symbols else {
        return Err(unexpected(symbols));
    };
    match first.kind {
        SymbolKind::Keyword(Keyword::Wire) => {
            let (range, rest) = declared_range(rest)?;
            declarators(arena, limit, Declaration::Nets(range), rest)
        }
        SymbolKind::Keyword(Keyword::Reg) => {
            let (range, rest) = declared_range(rest)?;
            declarators(arena, limit, Declaration::Regs(range), rest)
        }
        SymbolKind::Keyword(Keyword::Localparam) => {
            declarators(arena, limit, Declaration::LocalParameters, rest)
        }
        SymbolKind::Keyword(Keyword::Assign) => {
            declarators(arena, limit, Declaration::Assignments, rest)
        }
        SymbolKind::Name => declarators(arena, limit, Declaration::Instances(first.place), rest),
        SymbolKind::Keyword(Keyword::Initial) => initial(arena, limit, first.place, rest),
        SymbolKind::Keyword(Keyword::Always) => always(arena, limit, first.place, rest),
        _ => Err(unexpected(symbols)),
    }
}

/// The items of a module, up to its `endmodule`.
pub fn items<'a>(arena: &mut Arena, limit: u32, symbols: &'a [Symbol]) -> Result<&'a [Symbol], Stop>
    requires { weight arena.old symbols.now < 2 ^ 32 }
    ensures read { Gives (λ rest. (lists_in arena.new, rest.now)) result
        (items_into limit (stmt_into limit limit) (length symbols.now) (lists_in arena.old)
        symbols.now) }
    ensures lighter { IfOk result (λ rest. weight arena.new rest.now
        ≤ weight arena.old symbols.now) }
    ensures no_longer { IfOk result (λ rest. length rest.now ≤ length symbols.now) }
{
    let mut rest = symbols;
    while !is_next(SymbolKind::Keyword(Keyword::Endmodule), rest) {
        rest = item(arena, limit, rest)?;
    }
    Ok(rest)
}
