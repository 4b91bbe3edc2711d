ghost use Rattle.std.specs.Prelude.{◌≡◌, string_bytes, IfOk};
ghost use Rattle.vp_source.specs.Places.{column_at, line_at};
ghost use Rattle.vp_modules.specs.Items.{connections_of, expressions_in, is_input, is_net, is_operand, is_reg, is_signal, item_name, item_place, items_in, ports_in, process_name, statements_in, terms_in};

use std::alloc::{AllocError, Global};
use vp_source::{Connection, Direction, EventTerm, Expression, Item, Module, Source, Statement};

/// The items of a module, its ports first.
pub fn items_of(source: &Source, module: Module) -> &[Item]
    ensures { result.now ≡ items_in source.now «module» }
{
    let span = module.items;
    let items = source.items.as_slice();
    items
        .get(span.first as usize..span.end as usize)
        .unwrap_or(&[])
}

/// The ports of a module.
pub fn ports_of(source: &Source, module: Module) -> &[Item]
    ensures { result.now ≡ ports_in source.now «module» }
{
    let items = source.items.as_slice();
    items
        .get(module.items.first as usize..module.ports as usize)
        .unwrap_or(&[])
}

/// The statements of a module.
pub fn statements_of(source: &Source, module: Module) -> &[Statement]
    ensures { result.now ≡ statements_in source.now «module» }
{
    let span = module.statements;
    let statements = source.statements.as_slice();
    statements
        .get(span.first as usize..span.end as usize)
        .unwrap_or(&[])
}

/// The expressions of a module, those of its connections among them.
pub fn expressions_of(source: &Source, module: Module) -> &[Expression]
    ensures { result.now ≡ expressions_in source.now «module» }
{
    let span = module.expressions;
    let expressions = source.expressions.as_slice();
    expressions
        .get(span.first as usize..span.end as usize)
        .unwrap_or(&[])
}

/// The terms of a module's events.
pub fn terms_of(source: &Source, module: Module) -> &[EventTerm]
    ensures { result.now ≡ terms_in source.now «module» }
{
    let span = module.terms;
    let terms = source.terms.as_slice();
    terms
        .get(span.first as usize..span.end as usize)
        .unwrap_or(&[])
}

/// The place of an item's declaration.
pub fn place_of(item: Item) -> u32
    ensures { result ≡ item_place item }
{
    match item {
        Item::Port { name, .. }
        | Item::Net { name, .. }
        | Item::Reg { name, .. }
        | Item::LocalParameter { name, .. }
        | Item::Instance { name, .. } => name,
        Item::Assignment { target, .. } => target,
        Item::Initial { keyword, .. } | Item::Always { keyword, .. } => keyword,
    }
}

/// An item is a port that is an input.
pub fn is_input(item: Item) -> bool
    ensures { result ≡ is_input item }
{
    match item {
        Item::Port {
            direction: Direction::Input,
            ..
        } => true,
        _ => false,
    }
}

/// An item is a net.
pub fn is_net(item: Item) -> bool
    ensures { result ≡ is_net item }
{
    match item {
        Item::Port { direction, .. } => !matches!(direction, Direction::OutputReg),
        Item::Net { .. } => true,
        _ => false,
    }
}

/// An item is a reg.
pub fn is_reg(item: Item) -> bool
    ensures { result ≡ is_reg item }
{
    match item {
        Item::Port { direction, .. } => matches!(direction, Direction::OutputReg),
        Item::Reg { .. } => true,
        _ => false,
    }
}

/// An item can be waited for in an event: a net or a reg.
pub fn is_signal(item: Item) -> bool
    ensures { result ≡ is_signal item }
{
    is_net(item) || is_reg(item)
}

/// An item has a value: a net, a reg, or a local parameter.
pub fn is_operand(item: Item) -> bool
    ensures { result ≡ is_operand item }
{
    match item {
        Item::Port { .. } | Item::Net { .. } | Item::Reg { .. } | Item::LocalParameter { .. } =>
            true,
        _ => false,
    }
}

/// The line and the column of the token at a place; 0 past the end.
fn position_of(source: &Source, place: u32) -> (u32, u32)
    ensures line { result.0 ≡ line_at source.now place }
    ensures column { result.1 ≡ column_at source.now place }
{
    match source.token(place) {
        Some(token) => (token.line, token.column),
        None => (0, 0),
    }
}

/// The name of a process: its keyword, its line and its column.
fn process_name(
    alloc: Global,
    keyword: &str,
    source: &Source,
    place: u32,
) -> Result<String, AllocError>
    ensures { IfOk result (λ name. string_bytes name ≡ process_name keyword.now source.now place) }
{
    let (line, column) = position_of(source, place);
    format!(in alloc; "{keyword}@{line}:{column}")
}

/// The name of what an item declares.
pub fn name_of(alloc: Global, source: &Source, item: Item) -> Result<String, AllocError>
    ensures { IfOk result (λ name. string_bytes name ≡ item_name source.now item) }
{
    match item {
        Item::Assignment { target, .. } => process_name(alloc, "assign", source, target),
        Item::Initial { keyword, .. } => process_name(alloc, "initial", source, keyword),
        Item::Always { keyword, .. } => process_name(alloc, "always", source, keyword),
        _ => String::from_str(alloc, source.word(place_of(item))),
    }
}

/// The connections of an instance.
pub fn connections_of(source: &Source, item: Item) -> &[Connection]
    ensures { result.now ≡ connections_of source.now item }
{
    match item {
        Item::Instance { first, end, .. } => {
            let connections = source.connections.as_slice();
            connections.get(first as usize..end as usize).unwrap_or(&[])
        }
        _ => &[],
    }
}
