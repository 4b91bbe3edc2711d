// Statements as actions, with slots in place of names.
ghost use Rattle.std.specs.Prelude.{◌≡◌, ◌++◌, option_map, IfOk, OnOk};
ghost use Rattle.vp_expr.specs.Tables.{action_for, action_of, actions_in, actions_of, assigned, conditional_action, named_target, own_sized, selected_target, selector_for, sized_at, target_width, with_label};
ghost use Rattle.vp_resolve.specs.Names.{object_named, scope_of};

use crate::statement_reads::choices_at;
use crate::tables::{Action, Target};
use std::alloc::{AllocError, Global};
use vp_elab::{Design, ObjectId, range_width};
use vp_modules::statements_of;
use vp_operand::{ExprId, fitted, size_at};
use vp_resolve::{lowest_in, object_named, part_place, scope_of, slot_in, width_in};
use vp_source::{Choice, Module, Selection, Source, Span, Statement};
use vp_text::Sequence;

/// The expression at a place in a context of a size, in bits; none where no vector has that.
pub fn sized_at(place: u32, size: u32) -> Option<ExprId>
    ensures { result ≡ sized_at place size }
{
    Some(ExprId::new(place, fitted(u64::from(size))?))
}

/// What is selected of an object as a target; none where it is an object or a part that no vector can be.
fn selected_target(
    design: &Design,
    scope: Option<ObjectId>,
    object: ObjectId,
    selection: Selection,
) -> Option<Target>
    ensures { result ≡ selected_target design.now (option_map (λ o. o.0) scope) object.0 selection }
{
    let slot = slot_in(scope, object);
    match selection {
        Selection::Whole => Some(Target::Whole {
            slot,
            width: fitted(u64::from(width_in(design, object)))?,
        }),
        Selection::Bit { index } => Some(Target::Bit {
            slot,
            lowest: lowest_in(design, object),
            index,
        }),
        Selection::Part(range) => Some(Target::Part {
            slot,
            place: part_place(design, object, range),
            width: fitted(u64::from(range_width(range)))?,
        }),
    }
}

/// What is selected of a name as a target; none where there is no such object.
fn named_target(
    design: &Design,
    scope: Option<ObjectId>,
    name: u32,
    selection: Selection,
) -> Option<Target>
    ensures { let scope = option_map (λ o. o.0) scope in result
        ≡ named_target design.now scope (object_named design.now scope name) selection }
{
    match object_named(design, scope, name) {
        Some(object) => selected_target(design, scope, object, selection),
        None => None,
    }
}

/// How many bits a target has.
pub fn target_width(target: Target) -> u8
    ensures { result ≡ target_width target }
{
    match target {
        Target::Whole { width, .. } | Target::Part { width, .. } => width,
        Target::Bit { .. } => 1,
    }
}

/// An expression that sizes itself, as a condition does; none where no vector has its size.
fn own_sized(sizes: &[u8], place: u32) -> Option<ExprId>
    ensures { result ≡ own_sized sizes.now place }
{
    sized_at(place, u32::from(size_at(sizes, place)))
}

/// The target of an assignment to what is selected of a name, and the value at a place in its context; none where no vector
/// can be one of them.
fn assigned(
    design: &Design,
    scope: Option<ObjectId>,
    sizes: &[u8],
    name: u32,
    selection: Selection,
    value: u32,
) -> Option<(Target, ExprId)>
    ensures { result ≡ assigned design.now (option_map (λ o. o.0) scope) sizes.now name selection
        value }
{
    let target = named_target(design, scope, name, selection)?;
    let size = target_width(target).max(size_at(sizes, value));
    Some((target, sized_at(value, u32::from(size))?))
}

/// The greater of a size and that of a choice's label, if it has one.
fn with_label(sizes: &[u8], size: u8, choice: Choice) -> u8
    ensures { result ≡ with_label sizes.now size choice }
{
    match choice.label {
        Some(label) => size.max(size_at(sizes, label)),
        None => size,
    }
}

/// The selector of a case, in the context that it has with all labels; none where no vector has the size of that.
fn selector_for(source: &Source, sizes: &[u8], selector: u32, choices: Span) -> Option<ExprId>
    ensures { result ≡ selector_for source.now sizes.now selector choices }
{
    let mut size = size_at(sizes, selector);
    for choice in choices_at(source, choices) {
        size = with_label(sizes, size, *choice);
    }
    sized_at(selector, u32::from(size))
}

/// A statement that goes on by a condition or a selector; none where no vector can be that, and for any other statement.
fn conditional_action(source: &Source, sizes: &[u8], statement: Statement) -> Option<Action>
    ensures { result ≡ conditional_action source.now sizes.now statement }
{
    match statement {
        Statement::Wait { condition, body } => Some(Action::Wait {
            condition: own_sized(sizes, condition)?,
            body,
        }),
        Statement::If {
            condition,
            first,
            second,
        } => Some(Action::If {
            condition: own_sized(sizes, condition)?,
            first,
            second,
        }),
        Statement::While {
            condition,
            body,
            step,
        } => Some(Action::While {
            condition: own_sized(sizes, condition)?,
            body,
            step,
        }),
        Statement::Case {
            is_wild,
            selector,
            choices,
        } => Some(Action::Case {
            is_wild,
            selector: selector_for(source, sizes, selector, choices)?,
            choices,
        }),
        _ => None,
    }
}

/// A statement of a module as an action, by the module's object; none where no vector can be its target or one of its
/// expressions.
fn action_for(
    design: &Design,
    scope: Option<ObjectId>,
    sizes: &[u8],
    statement: Statement,
) -> Option<Action>
    ensures { result ≡ action_for design.now (option_map (λ o. o.0) scope) sizes.now statement }
{
    match statement {
        Statement::Empty => Some(Action::Nothing),
        Statement::Then { list, last } => Some(Action::Then { list, last }),
        Statement::Assign {
            target,
            selection,
            value,
        } => {
            let (target, value) = assigned(design, scope, sizes, target, selection, value)?;
            Some(Action::Assign { target, value })
        }
        Statement::Null => Some(Action::Null),
        Statement::Nonblocking {
            target,
            selection,
            value,
            delay,
        } => {
            let (target, value) = assigned(design, scope, sizes, target, selection, value)?;
            Some(Action::Nonblocking {
                target,
                value,
                delay,
            })
        }
        Statement::Delay { amount, body } => Some(Action::Delay { amount, body }),
        Statement::Event { body, .. } | Statement::AnyEvent { body } => Some(Action::Event {
            body,
        }),
        Statement::Wait { .. }
        | Statement::If { .. }
        | Statement::While { .. }
        | Statement::Case { .. } => conditional_action(design.source(), sizes, statement),
        Statement::Finish => Some(Action::Finish),
        Statement::Forever { body } => Some(Action::Forever { body }),
        Statement::For { start, turns } => Some(Action::For { start, turns }),
    }
}

/// A statement of a module as an action, by the module's object; nothing in place of one that no vector can be.
fn action_of(design: &Design, scope: Option<ObjectId>, sizes: &[u8], statement: Statement) -> Action
    ensures { result ≡ action_of design.now (option_map (λ o. o.0) scope) sizes.now statement }
{
    match action_for(design, scope, sizes, statement) {
        Some(action) => action,
        None => Action::Nothing,
    }
}

/// The statements of a module as actions, after others. Takes memory.
fn add_actions(
    design: &Design,
    scope: Option<ObjectId>,
    sizes: &[u8],
    module: Module,
    actions: &mut Vec<Action>,
) -> Result<(), AllocError>
    requires { option_map (λ o. o.0) scope ≡ scope_of design.now «module» }
    ensures { OnOk result (actions.new.items ≡ actions.old.items
        ++ actions_in design.now sizes.now «module») }
{
    for statement in statements_of(design.source(), module) {
        actions.push(action_of(design, scope, sizes, *statement))?;
    }
    Ok(())
}

/// The statements of a design as actions, module by module. Takes memory.
pub fn actions_of(
    alloc: Global,
    design: &Design,
    sizes: &[u8],
) -> Result<Sequence<Action>, AllocError>
    ensures { IfOk result (λ actions. actions ≡ actions_of design.now sizes.now) }
{
    let mut actions = Vec::new(alloc);
    for (number, module) in design.source().modules.as_slice().iter().enumerate() {
        let scope = scope_of(design, number);
        add_actions(design, scope, sizes, *module, &mut actions)?;
    }
    Ok(Sequence::from_vec(actions))
}
