ghost use Rattle.std.specs.Prelude.{◌≡◌, [], drop, length, slice_index_or};
ghost use Rattle.vp_expr.specs.Awaits.{awaits_of};
ghost use Rattle.vp_expr.specs.Tables.{tables_of};
ghost use Rattle.vp_resolve.specs.Names.{scope_of};
ghost use Rattle.vp_resolve.specs.Operands.{operands_of};
ghost use Rattle.vp_source.specs.declared.source.Module.{Module};
ghost use Rattle.vp_source.specs.Standing.{StatementStandsAt};
ghost use Rattle.vp_source.specs.StmtGrammar.{Stmt};
ghost use Rattle.vp_statement.specs.Derived.{IsActionOf};
ghost use Rattle.vp_statement.specs.Effects.{assigned, choices_in, chosen, cut_to, default_of, deferred, effect_at, effect_by, holds, is_taken, matches, object_at, turned, waited};
ghost use Rattle.vp_statement.specs.Reads.{stmt_awaits};

use crate::walk::action_at;
use vp_bits::{Bit, Bits};
use vp_elab::ObjectId;
use vp_expr::{Action, Checked, Target, Values, eval, place_set, target_width};
use vp_operand::{ExprId, Slot};
use vp_source::{Choice, Source, Span};

/// What one event of a procedure does. A value goes to so many bits of an object as it has, from a place on, of which that of the
/// least significant bit is 0; where no bit is selected there is no place. Statements are named by their places.
#[derive(Clone, Copy)]
pub enum Effect {
    /// Nothing: an empty block, or a null statement.
    Nothing,
    /// A blocking assignment sets bits of an object (9.2.1).
    Assigns {
        object: usize,
        place: Option<u32>,
        value: Bits,
    },
    /// A nonblocking assignment sets them at the end of the current time, or a delay later, in time units (9.2.2).
    Defers {
        object: usize,
        place: Option<u32>,
        value: Bits,
        delay: u32,
    },
    /// A delay control: so many time units later the procedure goes on with a statement (9.7.1).
    Pauses {
        amount: u32,
        next: u32,
    },
    /// An event control, or a wait whose condition does not hold: at a change for which the statement at a place waits, the
    /// procedure goes on with another one (9.7.2, 9.7.6).
    Awaits {
        place: u32,
        next: u32,
    },
    /// A test: the procedure goes on with a statement, or else after the test (9.4 to 9.6).
    Proceeds {
        next: Option<u32>,
    },
    /// `$finish` (17.4.1).
    Finishes,
}

/// The number of the object at a slot of an instance.
fn object_at(instance: ObjectId, slot: Slot) -> usize
    ensures { result ≡ object_at instance slot.0 }
{
    instance.0 as usize + slot.0 as usize
}

/// A condition holds in an instance: its value is true, neither false nor unknown (9.4).
fn holds(checked: &Checked, values: &Values, instance: ObjectId, condition: ExprId) -> bool
    ensures { result ≡ holds (tables_of checked.now) (drop instance.0 values.now) condition }
{
    eval(checked, values, instance, condition).truth() == Bit::One
}

/// The choices that lie in a span of a source's list; none where it reaches past the end.
pub fn choices_in(source: &Source, span: Span) -> &[Choice]
    ensures { result.now ≡ choices_in source.now span }
{
    let choices = source.choices.as_slice();
    choices
        .get(span.first as usize..span.end as usize)
        .unwrap_or(&[])
}

/// A label matches what selects, of the same size: it has the same bits; in a casez a z of either matches any bit (9.5, 9.5.1).
fn matches(is_wild: bool, selected: Bits, label: Bits) -> bool
    requires { length selected ≡ length label }
    ensures { result ≡ matches is_wild selected label }
{
    if is_wild {
        selected.casez_matches(label)
    } else {
        selected == label
    }
}

/// The statement of the first choice that is for anything else, if there is one.
fn default_of(choices: &[Choice]) -> Option<u32>
    ensures { result ≡ default_of choices.now }
{
    for choice in choices {
        if choice.label.is_none() {
            return Some(choice.body);
        }
    }
    None
}

/// A choice is taken in an instance where the selector has this value: it has a label, which matches at the selector's size.
fn is_taken(
    checked: &Checked,
    values: &Values,
    instance: ObjectId,
    is_wild: bool,
    selected: Bits,
    choice: Choice,
) -> bool
    ensures { result ≡ is_taken (tables_of checked.now) (drop instance.0 values.now) is_wild
        selected choice }
{
    let Some(label) = choice.label else {
        return false;
    };
    let label = eval(
        checked,
        values,
        instance,
        ExprId::new(label, selected.width()),
    );
    matches(is_wild, selected, label)
}

/// The statement that a case takes in an instance where the selector has this value: that of the first label that matches, else that
/// for anything else (9.5).
fn chosen(
    checked: &Checked,
    values: &Values,
    instance: ObjectId,
    is_wild: bool,
    selected: Bits,
    choices: &[Choice],
) -> Option<u32>
    ensures { result ≡ chosen (tables_of checked.now) (drop instance.0 values.now) is_wild selected
        choices.now }
{
    for choice in choices {
        if is_taken(checked, values, instance, is_wild, selected, *choice) {
            return Some(choice.body);
        }
    }
    default_of(choices)
}

/// A value at a width, in bits; itself where no vector has that.
fn cut_to(width: u8, value: Bits) -> Bits
    ensures { result ≡ cut_to width value }
{
    if 1 <= width && width <= 64 {
        value.resize(width)
    } else {
        value
    }
}

/// What a blocking assignment in an instance does.
fn assigned(
    checked: &Checked,
    values: &Values,
    instance: ObjectId,
    target: Target,
    value: ExprId,
) -> Effect
    ensures { result ≡ assigned (tables_of checked.now) instance (drop instance.0 values.now) target
        value }
{
    Effect::Assigns {
        object: object_at(instance, target.slot()),
        place: place_set(checked, values, instance, target),
        value: cut_to(target_width(target), eval(checked, values, instance, value)),
    }
}

/// What a nonblocking assignment in an instance does.
fn deferred(
    checked: &Checked,
    values: &Values,
    instance: ObjectId,
    target: Target,
    value: ExprId,
    delay: u32,
) -> Effect
    ensures { result ≡ deferred (tables_of checked.now) instance (drop instance.0 values.now) target
        value delay }
{
    Effect::Defers {
        object: object_at(instance, target.slot()),
        place: place_set(checked, values, instance, target),
        value: cut_to(target_width(target), eval(checked, values, instance, value)),
        delay,
    }
}

/// A test of a loop: where its condition holds, the procedure goes on with the body (9.6).
fn turned(is_true: bool, body: u32) -> Effect
    ensures { result ≡ turned is_true body }
{
    Effect::Proceeds {
        next: if is_true { Some(body) } else { None },
    }
}

/// A test of a wait: where its condition does not hold, it is tested again at a change (9.7.6).
fn waited(is_true: bool, place: u32, body: u32) -> Effect
    ensures { result ≡ waited is_true place body }
{
    if is_true {
        Effect::Proceeds { next: Some(body) }
    } else {
        Effect::Awaits { place, next: place }
    }
}

/// What the statement at a place does in an instance, which is an event itself; a block or a loop with parts does nothing.
fn effect_by(
    checked: &Checked,
    values: &Values,
    instance: ObjectId,
    place: u32,
    action: Action,
) -> Effect
    ensures { result ≡ effect_by checked.now instance (drop instance.0 values.now) place action }
{
    match action {
        Action::Assign { target, value } => assigned(checked, values, instance, target, value),
        Action::Nonblocking {
            target,
            value,
            delay,
        } => deferred(checked, values, instance, target, value, delay.unwrap_or(0)),
        Action::Delay { amount, body } => Effect::Pauses { amount, next: body },
        Action::Event { body } => Effect::Awaits { place, next: body },
        Action::Wait { condition, body } => {
            waited(holds(checked, values, instance, condition), place, body)
        }
        Action::If {
            condition,
            first,
            second,
        } => {
            let is_true = holds(checked, values, instance, condition);
            Effect::Proceeds {
                next: if is_true { Some(first) } else { second },
            }
        }
        Action::While {
            condition,
            body,
            ..
        } => turned(holds(checked, values, instance, condition), body),
        Action::Case {
            is_wild,
            selector,
            choices,
        } => {
            let selected = eval(checked, values, instance, selector);
            let choices = choices_in(checked.design().source(), choices);
            Effect::Proceeds {
                next: chosen(checked, values, instance, is_wild, selected, choices),
            }
        }
        Action::Finish => Effect::Finishes,
        Action::Nothing
        | Action::Null
        | Action::Then { .. }
        | Action::For { .. }
        | Action::Forever { .. } => { Effect::Nothing }
    }
}

/// What the statement at a place does in an instance, from the values of the objects; it is an event itself. The tables have there
/// what the derivation says that stands at the place, and the statement waits for what that waits for.
#[tactic(auto, unfolding(crate::specs::Effects::effect_at))]
pub fn effect_of(checked: &Checked, values: &Values, instance: ObjectId, place: u32) -> Effect
    ensures effect { result ≡ effect_at checked.now instance (drop instance.0 values.now) place }
    ensures derived { (m : Module) (s : Stmt) → StatementStandsAt checked.now.source m place s
        → IsActionOf checked.now m place s }
    ensures awaits { (m : Module) (s : Stmt) → StatementStandsAt checked.now.source m place s
        → slice_index_or (awaits_of checked.now (operands_of checked.now)) place []
        ≡ stmt_awaits checked.now (scope_of checked.now m) s }
{
    checked.design().source_is_whole();
    let action = action_at(checked.tables().actions.as_slice(), place);
    effect_by(checked, values, instance, place, action)
}
