ghost use Rattle.std.specs.Prelude.{◌≡◌, [], false, map, slice_get, option_map, IfErr, IfOk, IfSome, OnOk};
ghost use Rattle.std.specs.Option.{option_map_or};
ghost use Rattle.vp_modules.specs.Refusals.{connection_fault, if_port, is_named_in, connections_fault, instance_fault, bad_connection, is_whole_net, port_of, suits, with_port};
ghost use Rattle.vp_modules.specs.Items.{connections_of, definition_of, items_in, module_named};
ghost use Rattle.vp_modules.specs.declared.error.ElabError.TheVariants.{NoMemory};
ghost use Rattle.vp_modules.specs.Tables.{scope_in, tables_in};

use crate::error::ElabError;
use crate::items::{connections_of, is_input, is_net, items_of, ports_of};
use crate::lookup::named_at;
use crate::names::Names;
use crate::tables::Tables;
use std::alloc::Global;
use vp_source::{Connection, Expression, Item, Module, Selection, Source, earlier};

/// A module, with the names of its items.
#[derive(Clone, Copy)]
pub struct Scope<'a> {
    pub module: Module,
    pub names: &'a Names,
}

/// The module of a name, with the names of its items.
pub fn scope_named<'a>(source: &Source, tables: &'a Tables, name: &str) -> Option<Scope<'a>>
    requires { tables.now ≡ tables_in source.now }
    ensures named { option_map (λ s. s.module) result ≡ module_named source.now name.now }
    ensures names { IfSome result (λ s. s.names.now ≡ scope_in source.now s.module) }
{
    let number = tables.modules.find(name)?;
    let module = source.modules.as_slice()[number];
    let names = &tables.scopes.as_slice()[number];
    Some(Scope { module, names })
}

/// The module that an item instantiates, with the names of its items.
pub fn definition_of<'a>(source: &Source, tables: &'a Tables, item: Item) -> Option<Scope<'a>>
    requires { tables.now ≡ tables_in source.now }
    ensures named { option_map (λ s. s.module) result ≡ definition_of source.now item }
    ensures names { IfSome result (λ s. s.names.now ≡ scope_in source.now s.module) }
{
    match item {
        Item::Instance { definition, .. } => scope_named(source, tables, source.word(definition)),
        _ => None,
    }
}

/// An item, if it is a port.
fn if_port(item: Item) -> Option<Item>
    ensures { result ≡ if_port item }
{
    match item {
        Item::Port { .. } => Some(item),
        _ => None,
    }
}

/// The port of a module to which a connection with so many before it connects.
pub fn port_of(
    source: &Source,
    scope: Scope<'_>,
    before: usize,
    connection: Connection,
) -> Option<Item>
    requires { scope.names.now ≡ scope_in source.now scope.module }
    ensures { result ≡ port_of source.now scope.entry.module before connection }
{
    match connection.port {
        Some(place) => if_port(named_at(source, scope.module, scope.names, place)?),
        None => ports_of(source, scope.module).get(before).copied(),
    }
}

/// An expression that begins at a place is a net of a module, whole and without parentheses.
fn is_whole_net(source: &Source, scope: Scope<'_>, place: u32, expression: Expression) -> bool
    requires { scope.names.now ≡ scope_in source.now scope.module }
    ensures { result ≡ is_whole_net source.now scope.entry.module place expression }
{
    match expression {
        Expression::Name {
            name,
            selection: Selection::Whole,
        } if place == name => {
            match named_at(source, scope.module, scope.names, name) {
                Some(item) => is_net(item),
                None => false,
            }
        }
        _ => false,
    }
}

/// The value of an output's connection is a whole net.
fn is_outward(source: &Source, scope: Scope<'_>, place: u32, value: u32) -> bool
    requires { scope.names.now ≡ scope_in source.now scope.module }
    ensures { result ≡ option_map_or (is_whole_net source.now scope.entry.module place)
        (slice_get source.now.expressions value) false }
{
    match source.expressions.as_slice().get(value as usize) {
        Some(expression) => is_whole_net(source, scope, place, *expression),
        None => false,
    }
}

/// A connection in a module may stand at this port: an output's value is a whole net, or there is none.
fn suits(source: &Source, scope: Scope<'_>, connection: Connection, port: Item) -> bool
    requires { scope.names.now ≡ scope_in source.now scope.module }
    ensures { result ≡ suits source.now scope.entry.module connection port }
{
    if is_input(port) {
        return true;
    }
    match connection.value {
        Some(value) => is_outward(source, scope, connection.place, value),
        None => true,
    }
}

/// A connection names one of these ports.
fn is_named_in(source: &Source, names: &Names, connection: Connection) -> bool
    ensures { result ≡ is_named_in source.now names.now connection }
{
    match connection.port {
        Some(place) => names.has(source.word(place)),
        None => false,
    }
}

/// The fault of a connection in `outer` to a port of `target`, after so many that name these ports.
fn connection_fault(
    source: &Source,
    outer: Scope<'_>,
    target: Scope<'_>,
    named: &Names,
    before: usize,
    connection: Connection,
) -> Option<u32>
    requires outer { outer.names.now ≡ scope_in source.now outer.module }
    requires target { target.names.now ≡ scope_in source.now target.module }
    ensures { result ≡ connection_fault source.now outer.entry.module target.entry.module named.now
        before connection }
{
    let first = connection.port.unwrap_or(connection.place);
    let Some(port) = port_of(source, target, before, connection) else {
        return Some(first);
    };
    if is_named_in(source, named, connection) {
        Some(first)
    } else if suits(source, outer, connection, port) {
        None
    } else {
        Some(connection.place)
    }
}

/// The name of the port that a connection names, after these.
fn add_port(
    alloc: Global,
    source: &Source,
    named: &mut Names,
    connection: Connection,
) -> Result<(), ElabError>
    ensures added { OnOk result (named.new ≡ with_port source.now named.old connection) }
    ensures failed { IfErr result (λ e. e ≡ NoMemory) }
{
    if let Some(place) = connection.port {
        named.add(String::from_str(alloc, source.word(place))?)?;
    }
    Ok(())
}

/// The first fault of connections in `outer` to the ports of `target`.
fn connections_fault(
    alloc: Global,
    source: &Source,
    outer: Scope<'_>,
    target: Scope<'_>,
    connections: &[Connection],
) -> Result<Option<u32>, ElabError>
    requires outer { outer.names.now ≡ scope_in source.now outer.module }
    requires target { target.names.now ≡ scope_in source.now target.module }
    ensures fault { IfOk result (λ fault. fault
        ≡ connections_fault source.now outer.entry.module target.entry.module [] 0
        connections.now) }
    ensures failed { IfErr result (λ e. e ≡ NoMemory) }
{
    let mut named = Names::new(alloc);
    let mut first = None;
    for (before, connection) in connections.iter().enumerate() {
        first = earlier(
            first,
            connection_fault(source, outer, target, &named, before, *connection),
        );
        add_port(alloc, source, &mut named, *connection)?;
    }
    Ok(first)
}

/// The first fault of an instance's connections, in the module in which it stands.
fn instance_fault(
    alloc: Global,
    source: &Source,
    tables: &Tables,
    outer: Scope<'_>,
    item: Item,
) -> Result<Option<u32>, ElabError>
    requires tables { tables.now ≡ tables_in source.now }
    requires outer { outer.names.now ≡ scope_in source.now outer.module }
    ensures fault { IfOk result (λ fault. fault
        ≡ instance_fault source.now outer.entry.module item) }
    ensures failed { IfErr result (λ e. e ≡ NoMemory) }
{
    match definition_of(source, tables, item) {
        Some(target) => {
            connections_fault(alloc, source, outer, target, connections_of(source, item))
        }
        None => Ok(None),
    }
}

/// The first connection in a module that may not stand so; none, or out of memory.
pub fn bad_connection(
    alloc: Global,
    source: &Source,
    tables: &Tables,
    outer: Scope<'_>,
) -> Result<Option<u32>, ElabError>
    requires tables { tables.now ≡ tables_in source.now }
    requires outer { outer.names.now ≡ scope_in source.now outer.module }
    ensures fault { IfOk result (λ fault. fault ≡ bad_connection source.now outer.entry.module) }
    ensures failed { IfErr result (λ e. e ≡ NoMemory) }
{
    let mut first = None;
    for item in items_of(source, outer.module) {
        first = earlier(first, instance_fault(alloc, source, tables, outer, *item)?);
    }
    Ok(first)
}
