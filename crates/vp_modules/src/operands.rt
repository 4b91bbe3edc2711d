ghost use Rattle.std.specs.Prelude.{◌≡◌, Some};
ghost use Rattle.vp_source.specs.Places.{earliest};
ghost use Rattle.vp_modules.specs.Items.{expressions_in, items_in, statements_in, terms_in};
ghost use Rattle.vp_modules.specs.Purposes.{fits};
ghost use Rattle.vp_modules.specs.Refusals.{assigned_by, bad_target, name_in, target_of, undeclared, unfit};
ghost use Rattle.vp_modules.specs.Tables.{scope_in};

use crate::items::{
    expressions_of, is_input, is_net, is_operand, is_reg, is_signal, items_of, statements_of,
    terms_of,
};
use crate::lookup::named_at;
use crate::names::Names;
use vp_source::{Expression, Item, Module, Source, Statement, earlier};

/// What a name is used for.
#[derive(Clone, Copy)]
pub enum Purpose {
    /// To be read, or only to be declared.
    Operand,
    /// To be assigned by a procedure.
    Variable,
    /// To be driven by a continuous assignment.
    Driven,
    /// To be waited for in an event (9.7.2).
    Event,
}

/// An item is of use for a purpose.
fn fits(purpose: Purpose, item: Item) -> bool
    ensures { result ≡ fits purpose item }
{
    match purpose {
        Purpose::Operand => is_operand(item),
        Purpose::Variable => is_reg(item),
        Purpose::Driven => is_net(item) && !is_input(item),
        Purpose::Event => is_signal(item),
    }
}

/// The place of a name, where a module declares nothing of it for a purpose.
fn unfit(
    source: &Source,
    module: Module,
    names: &Names,
    purpose: Purpose,
    place: Option<u32>,
) -> Option<u32>
    requires { names.now ≡ scope_in source.now «module» }
    ensures { result ≡ unfit source.now «module» (fits purpose) place }
{
    let place = place?;
    match named_at(source, module, names, place) {
        Some(item) if fits(purpose, item) => None,
        _ => Some(place),
    }
}

/// The place of the name in an expression that is one, or is selected from one.
fn name_in(expression: Expression) -> Option<u32>
    ensures { result ≡ name_in expression }
{
    match expression {
        Expression::Name { name, .. } => Some(name),
        _ => None,
    }
}

/// The place of the name to which a statement assigns, at once or later.
fn target_of(statement: Statement) -> Option<u32>
    ensures { result ≡ target_of statement }
{
    match statement {
        Statement::Assign { target, .. } | Statement::Nonblocking { target, .. } => Some(target),
        _ => None,
    }
}

/// The place of the name to which a continuous assignment assigns.
fn assigned_by(item: Item) -> Option<u32>
    ensures { result ≡ assigned_by item }
{
    match item {
        Item::Assignment { target, .. } => Some(target),
        _ => None,
    }
}

/// The first target of a module's statements that is of no use for a purpose.
fn unfit_target(source: &Source, module: Module, names: &Names, purpose: Purpose) -> Option<u32>
    requires { names.now ≡ scope_in source.now «module» }
    ensures { result ≡ earliest (λ s. unfit source.now «module» (fits purpose) (target_of s))
        (statements_in source.now «module») }
{
    let mut first = None;
    for statement in statements_of(source, module) {
        first = earlier(
            first,
            unfit(source, module, names, purpose, target_of(*statement)),
        );
    }
    first
}

/// The first name in a module's expressions that is of no use for a purpose.
fn unfit_operand(source: &Source, module: Module, names: &Names, purpose: Purpose) -> Option<u32>
    requires { names.now ≡ scope_in source.now «module» }
    ensures { result ≡ earliest (λ e. unfit source.now «module» (fits purpose) (name_in e))
        (expressions_in source.now «module») }
{
    let mut first = None;
    for expression in expressions_of(source, module) {
        first = earlier(
            first,
            unfit(source, module, names, purpose, name_in(*expression)),
        );
    }
    first
}

/// The first target of a module's continuous assignments that is of no use for a purpose.
fn unfit_assigned(source: &Source, module: Module, names: &Names, purpose: Purpose) -> Option<u32>
    requires { names.now ≡ scope_in source.now «module» }
    ensures { result ≡ earliest (λ i. unfit source.now «module» (fits purpose) (assigned_by i))
        (items_in source.now «module») }
{
    let mut first = None;
    for item in items_of(source, module) {
        first = earlier(
            first,
            unfit(source, module, names, purpose, assigned_by(*item)),
        );
    }
    first
}

/// The first name in a module's events that is of no use for a purpose.
fn unfit_term(source: &Source, module: Module, names: &Names, purpose: Purpose) -> Option<u32>
    requires { names.now ≡ scope_in source.now «module» }
    ensures { result ≡ earliest (λ t. unfit source.now «module» (fits purpose) (Some t.name))
        (terms_in source.now «module») }
{
    let mut first = None;
    for term in terms_of(source, module) {
        first = earlier(
            first,
            unfit(source, module, names, purpose, Some(term.name)),
        );
    }
    first
}

/// The first name in a module that is no net, reg or local parameter of it, or in an event no net or reg.
pub fn undeclared(source: &Source, module: Module, names: &Names) -> Option<u32>
    requires { names.now ≡ scope_in source.now «module» }
    ensures { result ≡ undeclared source.now «module» }
{
    let operand = unfit_operand(source, module, names, Purpose::Operand);
    let assigned = unfit_assigned(source, module, names, Purpose::Operand);
    let target = unfit_target(source, module, names, Purpose::Operand);
    let term = unfit_term(source, module, names, Purpose::Event);
    earlier(target, earlier(operand, earlier(assigned, term)))
}

/// The first target in a module that may not be assigned so.
pub fn bad_target(source: &Source, module: Module, names: &Names) -> Option<u32>
    requires { names.now ≡ scope_in source.now «module» }
    ensures { result ≡ bad_target source.now «module» }
{
    let target = unfit_target(source, module, names, Purpose::Variable);
    earlier(
        target,
        unfit_assigned(source, module, names, Purpose::Driven),
    )
}
