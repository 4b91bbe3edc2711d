// What statements read.
ghost use Rattle.std.specs.Prelude.{◌≡◌, ◌++◌, if◌then◌else◌, nat_lt, slice_get, None, take, OnOk};
ghost use Rattle.vp_expr.specs.Awaits.{body_reads, choice_reads, choices_at, index_slots, label_slots, optional_reads, reads_below, reads_in, reads_made};
ghost use Rattle.vp_operand.specs.Reads.{slots_at};

use std::alloc::AllocError;
use vp_operand::{Operand, Slot, add_slots};
use vp_source::{Choice, Selection, Source, Span, Statement};

/// The choices of a case.
pub fn choices_at(source: &Source, span: Span) -> &[Choice]
    ensures { result.now ≡ choices_at source.now span }
{
    let choices = source.choices.as_slice();
    choices
        .get(span.first as usize..span.end as usize)
        .unwrap_or(&[])
}

/// The statement at a place before an end; none elsewhere.
fn statement_below(statements: &[Statement], end: usize, place: u32) -> Option<Statement>
    ensures { result ≡ (if nat_lt place end then slice_get statements.now place else None) }
{
    if (place as usize) < end {
        statements.get(place as usize).copied()
    } else {
        None
    }
}

/// Adds the slots that are read to select a target.
fn add_index(
    operands: &[Operand],
    selection: Selection,
    slots: &mut Vec<Slot>,
) -> Result<(), AllocError>
    ensures { OnOk result (slots.new.items ≡ slots.old.items
        ++ index_slots operands.now selection) }
{
    match selection {
        Selection::Bit { index } => add_slots(operands, index, slots),
        Selection::Whole | Selection::Part(_) => Ok(()),
    }
}

/// Adds the slots that the label of a choice reads, if it has one.
fn add_label(
    operands: &[Operand],
    label: Option<u32>,
    slots: &mut Vec<Slot>,
) -> Result<(), AllocError>
    ensures { OnOk result (slots.new.items ≡ slots.old.items ++ label_slots operands.now label) }
{
    match label {
        Some(label) => add_slots(operands, label, slots),
        None => Ok(()),
    }
}

/// Adds the slots that an assignment to a selection reads.
fn add_assignment(
    operands: &[Operand],
    selection: Selection,
    value: u32,
    slots: &mut Vec<Slot>,
) -> Result<(), AllocError>
    ensures { OnOk result (slots.new.items ≡ slots.old.items
        ++ (index_slots operands.now selection ++ slots_at operands.now value)) }
{
    add_index(operands, selection, slots)?;
    add_slots(operands, value, slots)
}

/// Adds the slots that the statement at a place before an end reads.
#[cycle(statement_reads)]
pub fn add_below(
    source: &Source,
    operands: &[Operand],
    statements: &[Statement],
    end: usize,
    place: u32,
    slots: &mut Vec<Slot>,
) -> Result<(), AllocError>
    ensures { OnOk result (slots.new.items ≡ slots.old.items
        ++ reads_below source.now operands.now statements.now end place) }
{
    match statement_below(statements, end, place) {
        Some(statement) => add_of(
            source,
            operands,
            statements,
            place as usize,
            statement,
            slots,
        ),
        None => Ok(()),
    }
}

/// Adds the slots that a part before an end reads, if there is one.
#[cycle(statement_reads)]
fn add_optional(
    source: &Source,
    operands: &[Operand],
    statements: &[Statement],
    end: usize,
    part: Option<u32>,
    slots: &mut Vec<Slot>,
) -> Result<(), AllocError>
    ensures { OnOk result (slots.new.items ≡ slots.old.items
        ++ optional_reads (take end (reads_in source.now operands.now statements.now)) part) }
{
    match part {
        Some(place) => add_below(source, operands, statements, end, place, slots),
        None => Ok(()),
    }
}

/// Adds the slots that the statements of a block read, whose parts stand before an end, from the last one on. A block may be
/// long, so this goes down its chain by a loop.
#[cycle(statement_reads)]
fn add_block(
    source: &Source,
    operands: &[Operand],
    statements: &[Statement],
    end: usize,
    list: u32,
    last: u32,
    slots: &mut Vec<Slot>,
) -> Result<(), AllocError>
    ensures { OnOk result (slots.new.items ≡ slots.old.items
        ++ (reads_below source.now operands.now statements.now end last
        ++ reads_below source.now operands.now statements.now end list)) }
{
    add_below(source, operands, statements, end, last, slots)?;
    let mut below = end;
    let mut chain = list;
    while let Some(Statement::Then { list, last }) = statement_below(statements, below, chain) {
        below = chain as usize;
        chain = list;
        add_below(source, operands, statements, below, last, slots)?;
    }
    add_below(source, operands, statements, below, chain, slots)
}

/// Adds the slots that the body of a choice reads, which stands before an end, after a choice with a body, or none.
#[cycle(statement_reads)]
fn add_body(
    source: &Source,
    operands: &[Operand],
    statements: &[Statement],
    end: usize,
    before: Option<u32>,
    body: u32,
    slots: &mut Vec<Slot>,
) -> Result<(), AllocError>
    ensures { OnOk result (slots.new.items ≡ slots.old.items
        ++ body_reads (take end (reads_in source.now operands.now statements.now)) before body) }
{
    match before {
        Some(before) if before == body => Ok(()),
        _ => add_below(source, operands, statements, end, body, slots),
    }
}

/// Adds the slots that choices read, whose bodies stand before an end.
#[cycle(statement_reads)]
fn add_choices(
    source: &Source,
    operands: &[Operand],
    statements: &[Statement],
    end: usize,
    choices: &[Choice],
    slots: &mut Vec<Slot>,
) -> Result<(), AllocError>
    ensures { OnOk result (slots.new.items ≡ slots.old.items
        ++ choice_reads operands.now (take end (reads_in source.now operands.now statements.now))
        None choices.now) }
{
    let mut before = None;
    for choice in choices {
        add_label(operands, choice.label, slots)?;
        add_body(
            source,
            operands,
            statements,
            end,
            before,
            choice.body,
            slots,
        )?;
        before = Some(choice.body);
    }
    Ok(())
}

/// Adds the slots that a statement at a place reads.
#[cycle(statement_reads)]
fn add_of(
    source: &Source,
    operands: &[Operand],
    statements: &[Statement],
    place: usize,
    statement: Statement,
    slots: &mut Vec<Slot>,
) -> Result<(), AllocError>
    ensures { OnOk result (slots.new.items ≡ slots.old.items
        ++ reads_made source.now operands.now statements.now place statement) }
{
    match statement {
        Statement::Empty | Statement::Null | Statement::Finish => Ok(()),
        Statement::Assign {
            selection,
            value,
            ..
        }
        | Statement::Nonblocking {
            selection,
            value,
            ..
        } => add_assignment(operands, selection, value, slots),
        Statement::Delay { body, .. }
        | Statement::Event { body, .. }
        | Statement::AnyEvent { body }
        | Statement::Wait { body, .. }
        | Statement::Forever { body } => {
            add_below(source, operands, statements, place, body, slots)
        }
        Statement::Then { list, last } => {
            add_block(source, operands, statements, place, list, last, slots)
        }
        Statement::If {
            condition,
            first,
            second,
        } => {
            add_slots(operands, condition, slots)?;
            add_below(source, operands, statements, place, first, slots)?;
            add_optional(source, operands, statements, place, second, slots)
        }
        Statement::While {
            condition,
            body,
            step,
        } => {
            add_slots(operands, condition, slots)?;
            add_below(source, operands, statements, place, body, slots)?;
            add_optional(source, operands, statements, place, step, slots)
        }
        Statement::Case {
            selector,
            choices,
            ..
        } => {
            add_slots(operands, selector, slots)?;
            let choices = choices_at(source, choices);
            add_choices(source, operands, statements, place, choices, slots)
        }
        Statement::For { start, turns } => {
            add_below(source, operands, statements, place, start, slots)?;
            add_below(source, operands, statements, place, turns, slots)
        }
    }
}
