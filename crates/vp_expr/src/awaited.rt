// The changes for which statements wait.
ghost use Rattle.std.specs.Prelude.{◌≡◌, ◌++◌, [], map, option_map, IfOk, OnOk};
ghost use Rattle.std.specs.List.{filter_map, fold};
ghost use Rattle.vp_expr.specs.Awaits.{any_change, awaited_by, awaits_in, awaits_of, cut_at, end_at, laid_after, laid_of, reads_in, statements_of, term_change, terms_at};
ghost use Rattle.vp_resolve.specs.Names.{scope_of};

use crate::statement_reads::add_below;
use std::alloc::{AllocError, Global};
use vp_elab::{Design, ObjectId};
use vp_modules::statements_of;
use vp_operand::{Operand, Slot, add_slots};
use vp_resolve::{object_named, scope_of, slot_in};
use vp_source::{Edge, EventTerm, Module, Source, Span, Statement};

/// A change for which a statement waits: of the object at a slot, and which of its changes count (9.7.2).
#[derive(Clone, Copy)]
pub struct Awaited {
    pub edge: Edge,
    pub slot: Slot,
}

/// The changes for which statements wait, one statement's after the other's, and where those of each end.
#[derive(Drop)]
pub struct Awaits {
    pub awaited: Vec<Awaited>,
    pub ends: Vec<usize>,
}

/// The terms of an event.
fn terms_at(source: &Source, span: Span) -> &[EventTerm]
    ensures { result.now ≡ terms_at source.now span }
{
    let terms = source.terms.as_slice();
    terms
        .get(span.first as usize..span.end as usize)
        .unwrap_or(&[])
}

/// The change for which a term of an event waits, by the object of its module; none where its name is no object.
fn term_change(design: &Design, scope: Option<ObjectId>, term: EventTerm) -> Option<Awaited>
    ensures { result ≡ term_change design.now (option_map (λ o. o.0) scope) term }
{
    let object = object_named(design, scope, term.name)?;
    Some(Awaited {
        edge: term.edge,
        slot: slot_in(scope, object),
    })
}

/// Adds the changes for which terms of an event wait.
fn add_terms(
    design: &Design,
    scope: Option<ObjectId>,
    terms: &[EventTerm],
    awaited: &mut Vec<Awaited>,
) -> Result<(), AllocError>
    ensures { OnOk result (awaited.new.items ≡ awaited.old.items
        ++ filter_map (term_change design.now (option_map (λ o. o.0) scope)) terms.now) }
{
    for term in terms {
        if let Some(change) = term_change(design, scope, *term) {
            awaited.push(change)?;
        }
    }
    Ok(())
}

/// Adds any change of the objects at slots.
fn add_changes(slots: &[Slot], awaited: &mut Vec<Awaited>) -> Result<(), AllocError>
    ensures { OnOk result (awaited.new.items ≡ awaited.old.items ++ map any_change slots.now) }
{
    for slot in slots {
        awaited.push(Awaited {
            edge: Edge::Any,
            slot: *slot,
        })?;
    }
    Ok(())
}

/// Adds the changes for which a statement of a module waits, by the module's object and all statements of the design.
fn add_awaited(
    alloc: Global,
    design: &Design,
    scope: Option<ObjectId>,
    operands: &[Operand],
    statements: &[Statement],
    statement: Statement,
    awaited: &mut Vec<Awaited>,
) -> Result<(), AllocError>
    ensures { OnOk result (awaited.new.items ≡ awaited.old.items
        ++ awaited_by design.now (option_map (λ o. o.0) scope) operands.now
        (reads_in design.now.source operands.now statements.now) statement) }
{
    let source = design.source();
    match statement {
        Statement::Event { terms, .. } => {
            add_terms(design, scope, terms_at(source, terms), awaited)
        }
        Statement::AnyEvent { body } => {
            let mut slots = Vec::new(alloc);
            let end = statements.len();
            add_below(source, operands, statements, end, body, &mut slots)?;
            add_changes(&slots, awaited)
        }
        Statement::Wait { condition, .. } => {
            let mut slots = Vec::new(alloc);
            add_slots(operands, condition, &mut slots)?;
            add_changes(&slots, awaited)
        }
        _ => Ok(()),
    }
}

/// Adds the changes for which the statements of a module wait. Takes memory.
fn add_awaits(
    alloc: Global,
    design: &Design,
    scope: Option<ObjectId>,
    operands: &[Operand],
    statements: &[Statement],
    module: Module,
    awaits: &mut Awaits,
) -> Result<(), AllocError>
    requires { option_map (λ o. o.0) scope ≡ scope_of design.now «module» }
    ensures { OnOk result ((awaits.new.awaited.items, awaits.new.ends.items)
        ≡ fold laid_after (awaits.old.awaited.items, awaits.old.ends.items)
        (awaits_in design.now operands.now (reads_in design.now.source operands.now statements.now)
        «module»)) }
{
    for statement in statements_of(design.source(), module) {
        add_awaited(
            alloc,
            design,
            scope,
            operands,
            statements,
            *statement,
            &mut awaits.awaited,
        )?;
        awaits.ends.push(awaits.awaited.len())?;
    }
    Ok(())
}

/// The statements of a source, module by module. Takes memory.
fn all_statements(alloc: Global, source: &Source) -> Result<Vec<Statement>, AllocError>
    ensures { IfOk result (λ statements. statements.items ≡ statements_of source.now) }
{
    let mut statements = Vec::new(alloc);
    for module in source.modules.as_slice() {
        statements.extend_from_slice(statements_of(source, *module))?;
    }
    Ok(statements)
}

/// The changes for which the statements of a design wait, by its expressions as operands. Takes memory.
pub fn awaits_of(alloc: Global, design: &Design, operands: &[Operand]) -> Result<Awaits, AllocError>
    ensures { IfOk result (λ awaits. (awaits.awaited.items, awaits.ends.items)
        ≡ laid_of (awaits_of design.now operands.now)) }
{
    let statements = all_statements(alloc, design.source())?;
    let mut awaits = Awaits {
        awaited: Vec::new(alloc),
        ends: Vec::new(alloc),
    };
    for (number, module) in design.source().modules.as_slice().iter().enumerate() {
        let scope = scope_of(design, number);
        add_awaits(
            alloc,
            design,
            scope,
            operands,
            &statements,
            *module,
            &mut awaits,
        )?;
    }
    Ok(awaits)
}

/// The end at a place; 0 where there is none.
fn end_at(ends: &[usize], place: usize) -> usize
    ensures { result ≡ end_at ends.now place }
{
    match ends.get(place) {
        Some(end) => *end,
        None => 0,
    }
}

/// The changes of the statement at a place, cut out by the ends.
pub fn cut_at<'a>(awaited: &'a [Awaited], ends: &[usize], place: usize) -> &'a [Awaited]
    ensures { result.now ≡ cut_at awaited.now ends.now place }
{
    let from = match place.checked_sub(1) {
        Some(before) => end_at(ends, before),
        None => 0,
    };
    awaited.get(from..end_at(ends, place)).unwrap_or(&[])
}
