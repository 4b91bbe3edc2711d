ghost use Rattle.std.specs.Prelude.{◌≡◌, ℕ, List, [], ◌++◌, length, slice_get, IfOk, OnOk};
ghost use Rattle.std.specs.Str.{bytes_eq};
ghost use Rattle.vp_modules.specs.Items.{definition_of, ports_in};
ghost use Rattle.vp_expr.specs.Origins.{AreNamed, assignment_origin, by_first, connected, first_index, item_origins, listed, names_port, origin_at_port, origins_at, place_of_port, port_origin, port_origins, through_port};
ghost use Rattle.vp_expr.specs.Tables.{process_from, processes_from, processes_of};

use crate::tables::{Process, assignment_of};
use std::alloc::{AllocError, Global};
use vp_elab::{Design, ObjectId};
use vp_modules::{Names, connections_of, is_input, place_of, ports_of};
use vp_source::{Connection, Item, Module, Source};
use vp_text::Sequence;

/// The ports that connections name (clause 12.3.6): each name once, with the index of the first connection that has it.
#[derive(Drop)]
struct NamedPorts {
    names: Names,
    firsts: Vec<usize>,
}

impl NamedPorts {
    /// No port.
    fn new(alloc: Global) -> NamedPorts
        ensures names { result.names ≡ [] }
        ensures firsts { result.firsts.items ≡ [] }
    {
        NamedPorts {
            names: Names::new(alloc),
            firsts: Vec::new(alloc),
        }
    }

    /// One more name, which the connection of an index has; a name that is there keeps its index. Takes memory.
    fn add(&mut self, alloc: Global, name: &str, index: usize) -> Result<(), AllocError>
        requires { length self.old.names ≡ length self.old.firsts.items }
        ensures each { OnOk result (length self.new.names ≡ length self.new.firsts.items) }
        ensures first { OnOk result ((n : List ℕ)
            → first_index self.new.names self.new.firsts.items n
            ≡ by_first (first_index self.old.names self.old.firsts.items n) (bytes_eq n name.now)
            index) }
    {
        if self.names.add(String::from_str(alloc, name)?)? {
            self.firsts.push(index)?;
        }
        Ok(())
    }

    /// The index of the first connection that has a name.
    fn find(&self, name: &str) -> Option<usize>
        ensures { result ≡ first_index self.now.names self.now.firsts.items name.now }
    {
        let number = self.names.find(name)?;
        self.firsts.as_slice().get(number).copied()
    }
}

/// The port that the connection of an index names, after others. Takes memory.
fn add_port(
    alloc: Global,
    source: &Source,
    named: &mut NamedPorts,
    connection: Connection,
    index: usize,
) -> Result<(), AllocError>
    requires { length named.old.names ≡ length named.old.firsts.items }
    ensures each { OnOk result (length named.new.names ≡ length named.new.firsts.items) }
    ensures first { OnOk result ((n : List ℕ) → first_index named.new.names named.new.firsts.items n
        ≡ by_first (first_index named.old.names named.old.firsts.items n)
        (names_port source.now n connection) index) }
{
    match connection.port {
        Some(port) => named.add(alloc, source.word(port), index),
        None => Ok(()),
    }
}

/// The ports that these connections name.
fn named_ports(
    alloc: Global,
    source: &Source,
    connections: &[Connection],
) -> Result<NamedPorts, AllocError>
    ensures { IfOk result (λ named. AreNamed source.now connections.now named.names
        named.firsts.items) }
{
    let mut named = NamedPorts::new(alloc);
    for (index, connection) in connections.iter().enumerate() {
        add_port(alloc, source, &mut named, *connection, index)?;
    }
    Ok(named)
}

/// The index of the connection that is to the port of an index by its position; how many there are, where there is none.
fn place_of_port(connections: &[Connection], index: usize) -> usize
    ensures { result ≡ place_of_port connections.now index }
{
    match connections.get(index) {
        Some(Connection { port: None, .. }) => index,
        _ => connections.len(),
    }
}

/// The connection of an index.
fn connection_at(connections: &[Connection], index: usize) -> Option<Connection>
    ensures { result ≡ slice_get connections.now index }
{
    connections.get(index).copied()
}

/// The first of an instance's connections that is to the port of an index and a name, by the ports that they name.
fn connected(
    source: &Source,
    connections: &[Connection],
    named: &NamedPorts,
    index: usize,
    name: &str,
) -> Option<Connection>
    requires { AreNamed source.now connections.now named.now.names named.now.firsts.items }
    ensures { result ≡ connected source.now index name.now 0 connections.now }
{
    let by_name = named.find(name).unwrap_or(connections.len());
    let by_place = place_of_port(connections, index);
    connection_at(connections, by_name.min(by_place))
}

/// An object that is an item of the text, and the instance in which it stands.
#[derive(Clone, Copy)]
struct Placed {
    object: ObjectId,
    instance: ObjectId,
}

/// The process of a connection to a port of an instance, by the port's object.
fn through_port(
    design: &Design,
    sizes: &[u8],
    placed: Placed,
    port: ObjectId,
    item: Item,
    connection: Connection,
    value: u32,
) -> Option<Process>
    ensures { result ≡ process_from design.now sizes.now
        (through_port design.now.source design.now.tree.nodes placed.instance.0 port.0 item
        connection value) }
{
    let instance = placed.instance;
    if is_input(item) {
        return assignment_of(design, sizes, port, port, instance, value);
    }
    let net = design.find(Some(instance), design.source().word(connection.place))?;
    Some(Process::Connection { port, net })
}

/// The process of a connection to a port of an instance; a blank connection gives none.
fn port_process(
    design: &Design,
    sizes: &[u8],
    placed: Placed,
    item: Item,
    connection: Connection,
) -> Option<Process>
    ensures { result ≡ process_from design.now sizes.now
        (port_origin design.now.source design.now.tree.nodes placed.instance.0 placed.object.0 item
        connection) }
{
    let value = connection.value?;
    let name = design.source().word(place_of(item));
    let port = design.find(Some(placed.object), name)?;
    through_port(design, sizes, placed, port, item, connection, value)
}

/// The process of a port of an instance, by its index, and by the instance's connections with the ports that they name.
fn process_at_port(
    design: &Design,
    sizes: &[u8],
    placed: Placed,
    connections: &[Connection],
    named: &NamedPorts,
    index: usize,
    item: Item,
) -> Option<Process>
    requires { AreNamed design.now.source connections.now named.now.names named.now.firsts.items }
    ensures { result ≡ process_from design.now sizes.now
        (origin_at_port design.now.source design.now.tree.nodes placed.instance.0 placed.object.0
        connections.now index item) }
{
    let source = design.source();
    let name = source.word(place_of(item));
    let connection = connected(source, connections, named, index, name)?;
    port_process(design, sizes, placed, item, connection)
}

/// A process, or none, at the end. Takes memory.
fn add_process(process: Option<Process>, processes: &mut Vec<Process>) -> Result<(), AllocError>
    ensures { OnOk result (processes.new.items ≡ processes.old.items ++ listed process) }
{
    if let Some(process) = process {
        processes.push(process)?;
    }
    Ok(())
}

/// The processes of the ports of an instance of a module, at the end. Takes memory.
fn add_port_processes(
    alloc: Global,
    design: &Design,
    sizes: &[u8],
    placed: Placed,
    connections: &[Connection],
    module: Module,
    processes: &mut Vec<Process>,
) -> Result<(), AllocError>
    ensures { OnOk result (processes.new.items ≡ processes.old.items
        ++ processes_from design.now sizes.now
        (port_origins design.now.source design.now.tree.nodes placed.instance.0 placed.object.0
        connections.now 0 (ports_in design.now.source «module»))) }
{
    let named = named_ports(alloc, design.source(), connections)?;
    let ports = ports_of(design.source(), module);
    for (index, port) in ports.iter().enumerate() {
        let process = process_at_port(design, sizes, placed, connections, &named, index, *port);
        add_process(process, processes)?;
    }
    Ok(())
}

/// The process of a continuous assignment.
fn assignment_process(
    design: &Design,
    sizes: &[u8],
    placed: Placed,
    target: u32,
    value: u32,
) -> Option<Process>
    ensures { result ≡ process_from design.now sizes.now
        (assignment_origin design.now.source design.now.tree.nodes placed.instance.0
        placed.object.0 target value) }
{
    let Placed { object, instance } = placed;
    let net = design.find(Some(instance), design.source().word(target))?;
    assignment_of(design, sizes, object, net, instance, value)
}

/// The processes that an object gives, which is this item and instantiates this module or none, at the end. Takes memory.
#[tactic(auto, using(crate::proofs::PortSteps::from_listed))]
fn add_item_processes(
    alloc: Global,
    design: &Design,
    sizes: &[u8],
    placed: Placed,
    item: Item,
    module: Option<Module>,
    processes: &mut Vec<Process>,
) -> Result<(), AllocError>
    requires { «module» ≡ definition_of design.now.source item }
    ensures { OnOk result (processes.new.items ≡ processes.old.items
        ++ processes_from design.now sizes.now
        (item_origins design.now.source design.now.tree.nodes placed.instance.0 placed.object.0
        item)) }
{
    let Placed { object, instance } = placed;
    match item {
        Item::Initial { body, .. } => processes.push(Process::Procedure {
            object,
            instance,
            repeats: false,
            body,
        })?,
        Item::Always { body, .. } => processes.push(Process::Procedure {
            object,
            instance,
            repeats: true,
            body,
        })?,
        Item::Assignment { target, value } => {
            add_process(
                assignment_process(design, sizes, placed, target, value),
                processes,
            )?;
        }
        Item::Instance { .. } => {
            if let Some(module) = module {
                let connections = connections_of(design.source(), item);
                add_port_processes(alloc, design, sizes, placed, connections, module, processes)?;
            }
        }
        _ => (),
    }
    Ok(())
}

/// The processes that an object gives, at the end. Takes memory.
fn add_processes(
    alloc: Global,
    design: &Design,
    sizes: &[u8],
    object: ObjectId,
    processes: &mut Vec<Process>,
) -> Result<(), AllocError>
    ensures { OnOk result (processes.new.items ≡ processes.old.items
        ++ processes_from design.now sizes.now
        (origins_at design.now.source design.now.tree.nodes object.0)) }
{
    let Some(item) = design.item(object) else {
        return Ok(());
    };
    let Some(instance) = design.parent(object) else {
        return Ok(());
    };
    let placed = Placed { object, instance };
    add_item_processes(
        alloc,
        design,
        sizes,
        placed,
        item,
        design.instantiated(object),
        processes,
    )
}

/// What a simulator runs of a design, in order: of its objects in preorder the procedures, the continuous assignments, and
/// the connections of instances, before what stands below these; each value at the size of its context, by the sizes of the
/// expressions. One of which no vector has that size is left out. Takes memory.
pub fn processes_of(
    alloc: Global,
    design: &Design,
    sizes: &[u8],
) -> Result<Sequence<Process>, AllocError>
    ensures { IfOk result (λ processes. processes ≡ processes_of design.now sizes.now) }
{
    let mut processes = Vec::new(alloc);
    for id in 0..design.count() {
        add_processes(alloc, design, sizes, ObjectId(id), &mut processes)?;
    }
    Ok(Sequence::from_vec(processes))
}
