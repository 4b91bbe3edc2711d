ghost use Rattle.std.specs.Prelude.{◌≡◌, [], ◌∷◌, ◌++◌, IfErr, IfOk, IfSome, OnOk};
ghost use Rattle.std.specs.List.{flat_map};
ghost use Rattle.vp_modules.specs.declared.error.ElabError.TheVariants.{NoMemory};
ghost use Rattle.vp_modules.specs.Items.{items_in};
ghost use Rattle.vp_modules.specs.ModuleRefusals.{driven_by, driven_from, driven_through, driven_twice, repeated};
ghost use Rattle.vp_modules.specs.Tables.{scope_in, tables_in};

use crate::connections::{Scope, definition_of, port_of};
use crate::error::ElabError;
use crate::items::{connections_of, is_input, items_of};
use crate::names::Names;
use crate::tables::Tables;
use std::alloc::{AllocError, Global};
use vp_source::{Connection, Direction, Item, Module, Source};

/// The place of the net that a connection to a module's port, after so many, drives.
fn driven_from(
    source: &Source,
    target: Scope<'_>,
    before: usize,
    connection: Connection,
) -> Option<u32>
    requires { target.names.now ≡ scope_in source.now target.module }
    ensures { result ≡ driven_from source.now target.entry.module before connection }
{
    let port = port_of(source, target, before, connection)?;
    connection.value?;
    if is_input(port) {
        None
    } else {
        Some(connection.place)
    }
}

/// The places of the nets that an instance drives, after others.
fn add_driven(
    source: &Source,
    target: Scope<'_>,
    connections: &[Connection],
    places: &mut Vec<u32>,
) -> Result<(), AllocError>
    requires { target.names.now ≡ scope_in source.now target.module }
    ensures { OnOk result (places.new.items ≡ places.old.items
        ++ driven_through source.now target.entry.module 0 connections.now) }
{
    for (before, connection) in connections.iter().enumerate() {
        if let Some(place) = driven_from(source, target, before, *connection) {
            places.push(place)?;
        }
    }
    Ok(())
}

/// The places at which an item drives nets, after others.
fn add_driven_by(
    source: &Source,
    tables: &Tables,
    item: Item,
    places: &mut Vec<u32>,
) -> Result<(), AllocError>
    requires { tables.now ≡ tables_in source.now }
    ensures { OnOk result (places.new.items ≡ places.old.items ++ driven_by source.now item) }
{
    match item {
        Item::Port {
            name,
            direction: Direction::Input,
            ..
        } => places.push(name)?,
        Item::Assignment { target, .. } => places.push(target)?,
        _ => match definition_of(source, tables, item) {
            Some(target) => add_driven(source, target, connections_of(source, item), places)?,
            None => (),
        },
    }
    Ok(())
}

/// The places at which a module drives nets, in the order of the text.
fn driven_in(
    alloc: Global,
    source: &Source,
    tables: &Tables,
    definition: Module,
) -> Result<Vec<u32>, AllocError>
    requires { tables.now ≡ tables_in source.now }
    ensures { IfOk result (λ places. places.items
        ≡ flat_map (driven_by source.now) (items_in source.now definition)) }
{
    let mut places = Vec::new(alloc);
    for item in items_of(source, definition) {
        add_driven_by(source, tables, *item, &mut places)?;
    }
    Ok(places)
}

/// The first of these places whose word is that of one before it.
fn repeated(alloc: Global, source: &Source, places: &[u32]) -> Result<Option<u32>, ElabError>
    ensures place { IfOk result (λ place. place ≡ repeated source.now [] places.now) }
    ensures failed { IfErr result (λ e. e ≡ NoMemory) }
{
    let mut words = Names::new(alloc);
    for place in places {
        if !words.add(String::from_str(alloc, source.word(*place))?)? {
            return Ok(Some(*place));
        }
    }
    Ok(None)
}

/// The first place in a module at which a net is driven that is driven before; none, or out of memory.
pub fn driven_twice(
    alloc: Global,
    source: &Source,
    tables: &Tables,
    definition: Module,
) -> Result<Option<u32>, ElabError>
    requires { tables.now ≡ tables_in source.now }
    ensures place { IfOk result (λ place. place ≡ driven_twice source.now definition) }
    ensures failed { IfErr result (λ e. e ≡ NoMemory) }
{
    let places = driven_in(alloc, source, tables, definition)?;
    repeated(alloc, source, places.as_slice())
}
