ghost use Rattle.std.specs.Prelude.{◌≡◌, ◌<◌, ◌++◌, Some, drop, length, map, IfSome, MatchOption, OnOk, OnSome};
ghost use Rattle.vp_bits.specs.Vector.{IsWidth};
ghost use Rattle.vp_operand.specs.Arena.{blank, term_at, term_below, term_made, value_in, IsSized};
ghost use Rattle.vp_operand.specs.Reads.{reads, slot_at};
ghost use Rattle.vp_source.specs.ExprGrammar.{Expr};
ghost use Rattle.vp_source.specs.declared.source.Module.{Module};
ghost use Rattle.vp_expr.specs.Derived.{IsInstanceOf, StandsAt, derived_value, expr_term};
ghost use Rattle.vp_expr.specs.Evaluation.{eval, own_eval, place_set};
ghost use Rattle.vp_expr.specs.Tables.{tables_of};
ghost use Rattle.vp_resolve.specs.Names.{scope_of};
ghost use Rattle.vp_operand.specs.Terms.{size, value};

use crate::checked::Checked;
use crate::tables::{Tables, Target};
use crate::values::{Values, value_in};
use std::alloc::AllocError;
use vp_bits::{Bit, Bits};
use vp_elab::ObjectId;
use vp_operand::{
    ExprId, Infix, Operand, Slot, add_slots, applied, bit_at, combined, compared, index_place,
    joined, operand_before, part_at, reduced, shifted, size_at,
};

/// The operand at a place before an end, whose size is that of a vector; none elsewhere.
fn operand_below(tables: &Tables, end: usize, place: u32) -> Option<Operand>
    requires { IsSized tables.now.operands tables.now.sizes }
    ensures below { OnSome result (place < end) }
    ensures term { MatchOption result (term_below tables.now.operands end place ≡ blank)
        (λ o. term_below tables.now.operands end place ≡ term_made tables.now.operands place o) }
    ensures fits { IfSome result (λ o. IsWidth (size (term_made tables.now.operands place o))) }
{
    operand_before(tables.operands.as_slice(), end, place)
}

/// The size of the operand at a place before an end, in bits; 1 elsewhere.
fn size_below(tables: &Tables, end: usize, place: u32) -> u8
    requires { IsSized tables.now.operands tables.now.sizes }
    ensures size { result ≡ size (term_below tables.now.operands end place) }
    ensures fits { IsWidth result }
{
    if place as usize >= end {
        return 1;
    }
    size_at(tables.sizes.as_slice(), place)
}

/// The value of the operand at a place before an end in a context of a size, in bits; of one unknown bit elsewhere.
#[cycle(evaluation)]
fn value_below(tables: &Tables, values: &[Bits], end: usize, place: u32, context: u8) -> Bits
    requires sized { IsSized tables.now.operands tables.now.sizes }
    requires fits { IsWidth context }
    ensures value { result ≡ value (value_in values.now) context
        (term_below tables.now.operands end place) }
    ensures width { length result ≡ context }
{
    match operand_below(tables, end, place) {
        Some(operand) => value_of(tables, values, place as usize, operand, context),
        None => Bits::unknown(1).resize(context),
    }
}

/// The value of the operand at a place before an end, at its own size.
#[cycle(evaluation)]
fn own_value(tables: &Tables, values: &[Bits], end: usize, place: u32) -> Bits
    requires { IsSized tables.now.operands tables.now.sizes }
    ensures value { let term = term_below tables.now.operands end place in result
        ≡ value (value_in values.now) (size term) term }
    ensures width { length result ≡ size (term_below tables.now.operands end place) }
{
    value_below(tables, values, end, place, size_below(tables, end, place))
}

/// The value of an operator between operands, which stands at a place, in a context of a size, in bits.
#[cycle(evaluation)]
fn value_of_pair(
    tables: &Tables,
    values: &[Bits],
    place: usize,
    operator: Infix,
    left: u32,
    right: u32,
    context: u8,
) -> Bits
    requires sized { IsSized tables.now.operands tables.now.sizes }
    requires fits { IsWidth context }
    ensures { result ≡ value (value_in values.now) context
        (term_made tables.now.operands place (Operand.Paired operator left right)) }
{
    match operator {
        Infix::Combined(operator) => {
            let left = value_below(tables, values, place, left, context);
            let right = value_below(tables, values, place, right, context);
            combined(operator, left, right)
        }
        Infix::Shifted(operator) => {
            let left = value_below(tables, values, place, left, context);
            shifted(operator, left, own_value(tables, values, place, right))
        }
        Infix::Compared(operator) => {
            let common = size_below(tables, place, left).max(size_below(tables, place, right));
            let left = value_below(tables, values, place, left, common);
            let right = value_below(tables, values, place, right, common);
            compared(operator, left, right).resize(context)
        }
        Infix::Joined(operator) => {
            let left = own_value(tables, values, place, left);
            let right = own_value(tables, values, place, right);
            joined(operator, left, right).resize(context)
        }
    }
}

/// The value of `?:`, which stands at a place, in a context of a size, in bits.
#[cycle(evaluation)]
fn value_of_choice(
    tables: &Tables,
    values: &[Bits],
    place: usize,
    condition: u32,
    first: u32,
    second: u32,
    context: u8,
) -> Bits
    requires sized { IsSized tables.now.operands tables.now.sizes }
    requires fits { IsWidth context }
    ensures { result ≡ value (value_in values.now) context
        (term_made tables.now.operands place (Operand.Conditional condition first second)) }
{
    match own_value(tables, values, place, condition).truth() {
        Bit::One => value_below(tables, values, place, first, context),
        Bit::Zero => value_below(tables, values, place, second, context),
        Bit::Unknown | Bit::HighImpedance => {
            let first = value_below(tables, values, place, first, context);
            first.merge(value_below(tables, values, place, second, context))
        }
    }
}

/// The value of an operand at a place in a context of a size, in bits.
#[cycle(evaluation)]
fn value_of(tables: &Tables, values: &[Bits], place: usize, operand: Operand, context: u8) -> Bits
    requires sized { IsSized tables.now.operands tables.now.sizes }
    requires own { IsWidth (size (term_made tables.now.operands place operand)) }
    requires fits { IsWidth context }
    ensures { result ≡ value (value_in values.now) context
        (term_made tables.now.operands place operand) }
{
    match operand {
        Operand::Object { slot, .. } => value_in(values, slot.0).resize(context),
        Operand::Constant { bits, .. } => bits.resize(context),
        Operand::BitSelect {
            slot,
            lowest,
            index,
        } => {
            let index = own_value(tables, values, place, index).number();
            bit_at(value_in(values, slot.0), lowest, index).resize(context)
        }
        Operand::PartSelect {
            slot,
            place: low,
            width,
        } => { part_at(value_in(values, slot.0), low, width).resize(context) }
        Operand::Applied(operator, part) => {
            let part = value_below(tables, values, place, part, context);
            applied(operator, part)
        }
        Operand::Reduced(operator, part) => {
            reduced(operator, own_value(tables, values, place, part)).resize(context)
        }
        Operand::Paired(operator, left, right) => {
            value_of_pair(tables, values, place, operator, left, right, context)
        }
        Operand::Conditional(condition, first, second) => {
            value_of_choice(tables, values, place, condition, first, second, context)
        }
        Operand::Concatenated(part) => own_value(tables, values, place, part).resize(context),
        Operand::Appended { list, part } => {
            let list = own_value(tables, values, place, list);
            let part = own_value(tables, values, place, part);
            list.concat(part).resize(context)
        }
        Operand::Replicated { count, list } => {
            let list = own_value(tables, values, place, list);
            list.replicate(count as u8).resize(context)
        }
    }
}

/// The value of an expression of a design in its context, for an instance of the module in which it stands, from the values of
/// the objects (IEEE Std 1364-2005, 5.4): that of the derivation that stands at its place in a module, whose names are those of
/// the module; one unknown bit, extended by zeros, past the end.
pub fn eval(checked: &Checked, values: &Values, instance: ObjectId, id: ExprId) -> Bits
    ensures value { result ≡ eval (tables_of checked.now) (drop instance.0 values.now) id }
    ensures width { length result ≡ id.size }
    ensures derived { (m : Module) (e : Expr) → StandsAt checked.now m id.place e
        → result
        ≡ derived_value checked.now (scope_of checked.now m)
        (drop instance.0 values.now) id.size e }
    // In an instance of that module its names are looked up in this very instance.
    ensures instance { (m : Module) (e : Expr) → StandsAt checked.now m id.place e
        → IsInstanceOf checked.now m instance.0
        → result
        ≡ derived_value checked.now (Some instance.0) (drop instance.0 values.now) id.size e }
{
    checked.design().source_is_whole();
    checked.design().instances_are_alike();
    let tables = checked.tables();
    let values = values.of_instance(instance);
    value_below(tables, values, tables.operands.len(), id.place(), id.size())
}

/// The value of the expression at a place, which sizes itself, from the values of an instance on.
fn own_eval(checked: &Checked, values: &[Bits], place: u32) -> Bits
    ensures { result ≡ own_eval (tables_of checked.now) values.now place }
{
    let tables = checked.tables();
    own_value(tables, values, tables.operands.len(), place)
}

/// The place of the lowest bit of its object that an assignment sets in an instance, where the least significant bit has place 0,
/// from the values of the objects; none where no bit is selected, as by an index that is unknown or out of range (IEEE Std 1364-2005,
/// 5.2.1).
pub fn place_set(
    checked: &Checked,
    values: &Values,
    instance: ObjectId,
    target: Target,
) -> Option<u32>
    ensures { result ≡ place_set (tables_of checked.now) (drop instance.0 values.now) target }
{
    let values = values.of_instance(instance);
    match target {
        Target::Whole { .. } => Some(0),
        Target::Bit {
            slot,
            lowest,
            index,
        } => {
            let index = own_eval(checked, values, index).number();
            index_place(value_in(values, slot.0), lowest, index)
        }
        Target::Part { place, .. } => Some(place),
    }
}

/// Adds the slots that the expression at a place of a design reads, those of indexes too, in the order of the text, to others. For
/// out of memory it adds some of them. Takes memory.
pub fn add_reads(checked: &Checked, place: u32, slots: &mut Vec<Slot>) -> Result<(), AllocError>
    ensures read { OnOk result (slots.new.items
        ≡ slots.old.items ++ map slot_at (reads (term_at (tables_of checked.now).operands place))) }
    ensures derived { OnOk result ((m : Module) (e : Expr) → StandsAt checked.now m place e
        → slots.new.items ≡ slots.old.items
        ++ map slot_at (reads (expr_term checked.now (scope_of checked.now m) e))) }
{
    checked.design().source_is_whole();
    add_slots(checked.tables().operands.as_slice(), place, slots)
}
