// Expressions with slots in place of names.
ghost use Rattle.std.specs.Prelude.{◌≡◌, ◌-◌, ◌++◌, false, option_and_then, option_map, slice_get, IfOk, OnOk};
ghost use Rattle.vp_operand.specs.Values.{no_value};
ghost use Rattle.vp_resolve.specs.Names.{lowest_in, object_named, scope_of, slot_in, width_in};
ghost use Rattle.vp_resolve.specs.Operands.{infix_of, named_operand, operand_of, operands_in, operands_of, selected_operand, unary_operand};

use std::alloc::{AllocError, Global};
use vp_bits::Bits;
use vp_elab::{Design, ObjectId, range_width};
use vp_modules::expressions_of;
use vp_operand::{
    Binary, Comparison, Infix, Logical, Operand, Reduction, Shift, Slot, Unary, based_bits, fitted,
    literal_bits, number_bits,
};
use vp_source::{BinaryOperator, Expression, Module, Range, Selection, UnaryOperator};
use vp_text::Sequence;

/// The object in which the names of the module of a number are looked up: its first, since a name has the same slot in each
/// instance of a module. None where the module has no object.
pub fn scope_of(design: &Design, number: usize) -> Option<ObjectId>
    ensures { option_map (λ o. o.0) result
        ≡ option_and_then (scope_of design.now) (slice_get design.now.source.modules number) }
{
    design.first_instance(number)
}

/// The object of the name at a place, by the object of the module in which it stands.
pub fn object_named(design: &Design, scope: Option<ObjectId>, place: u32) -> Option<ObjectId>
    ensures { option_map (λ o. o.0) result
        ≡ object_named design.now (option_map (λ o. o.0) scope) place }
{
    let scope = scope?;
    design.find(Some(scope), design.source().word(place))
}

/// How far an object stands after the object of its module.
pub fn slot_in(scope: Option<ObjectId>, object: ObjectId) -> Slot
    ensures { result ≡ slot_in (option_map (λ o. o.0) scope) object.0 }
{
    match scope {
        Some(scope) => Slot(object.0.saturating_sub(scope.0)),
        None => Slot(object.0),
    }
}

/// How many bits an object has; 0 where there is none.
pub fn width_in(design: &Design, object: ObjectId) -> u32
    ensures { result ≡ width_in design.now object.0 }
{
    match design.object(object) {
        Some(object) => object.width,
        None => 0,
    }
}

/// The index of the least significant bit of an object; 0 where it has none.
pub fn lowest_in(design: &Design, object: ObjectId) -> u32
    ensures { result ≡ lowest_in design.now object.0 }
{
    let Some(object) = design.object(object) else {
        return 0;
    };
    match object.lowest {
        Some(lowest) => u32::from(lowest),
        None => 0,
    }
}

/// The place of a part of an object, from its least significant bit.
pub fn part_place(design: &Design, object: ObjectId, range: Range) -> u32
    ensures { result ≡ range.lsb - lowest_in design.now object.0 }
{
    u32::from(range.lsb).saturating_sub(lowest_in(design, object))
}

/// A constant of one unknown bit.
fn unknown_bit() -> Operand
    ensures { result ≡ Operand.Constant no_value false }
{
    Operand::Constant {
        bits: Bits::unknown(1),
        is_signed: false,
    }
}

/// What is selected of an object as an operand; one unknown bit in place of an object or a part that no vector can be.
fn selected_operand(
    design: &Design,
    scope: Option<ObjectId>,
    object: ObjectId,
    selection: Selection,
) -> Operand
    ensures { result ≡ selected_operand design.now (option_map (λ o. o.0) scope) object.0
        selection }
{
    let slot = slot_in(scope, object);
    match selection {
        Selection::Whole => match fitted(u64::from(width_in(design, object))) {
            Some(width) => Operand::Object { slot, width },
            None => unknown_bit(),
        },
        Selection::Bit { index } => Operand::BitSelect {
            slot,
            lowest: lowest_in(design, object),
            index,
        },
        Selection::Part(range) => match fitted(u64::from(range_width(range))) {
            Some(width) => Operand::PartSelect {
                slot,
                place: part_place(design, object, range),
                width,
            },
            None => unknown_bit(),
        },
    }
}

/// What is selected of a name as an operand; one unknown bit where there is no such object.
fn named_operand(
    design: &Design,
    scope: Option<ObjectId>,
    name: u32,
    selection: Selection,
) -> Operand
    ensures { let scope = option_map (λ o. o.0) scope in result
        ≡ named_operand design.now scope (object_named design.now scope name) selection }
{
    match object_named(design, scope, name) {
        Some(object) => selected_operand(design, scope, object, selection),
        None => unknown_bit(),
    }
}

/// An operator of one operand.
fn unary_operand(operator: UnaryOperator, operand: u32) -> Operand
    ensures { result ≡ unary_operand operator operand }
{
    match operator {
        UnaryOperator::Plus => Operand::Applied(Unary::Plus, operand),
        UnaryOperator::Minus => Operand::Applied(Unary::Minus, operand),
        UnaryOperator::Negation => Operand::Applied(Unary::Negation, operand),
        UnaryOperator::LogicalNegation => Operand::Reduced(Reduction::LogicalNegation, operand),
        UnaryOperator::ReductionAnd => Operand::Reduced(Reduction::And, operand),
        UnaryOperator::ReductionNand => Operand::Reduced(Reduction::Nand, operand),
        UnaryOperator::ReductionOr => Operand::Reduced(Reduction::Or, operand),
        UnaryOperator::ReductionNor => Operand::Reduced(Reduction::Nor, operand),
        UnaryOperator::ReductionXor => Operand::Reduced(Reduction::Xor, operand),
        UnaryOperator::ReductionXnor => Operand::Reduced(Reduction::Xnor, operand),
    }
}

/// An operator between operands.
fn infix_of(operator: BinaryOperator) -> Infix
    ensures { result ≡ infix_of operator }
{
    match operator {
        BinaryOperator::Multiply => Infix::Combined(Binary::Multiply),
        BinaryOperator::Add => Infix::Combined(Binary::Add),
        BinaryOperator::Subtract => Infix::Combined(Binary::Subtract),
        BinaryOperator::And => Infix::Combined(Binary::And),
        BinaryOperator::Or => Infix::Combined(Binary::Or),
        BinaryOperator::Xor => Infix::Combined(Binary::Xor),
        BinaryOperator::Xnor => Infix::Combined(Binary::Xnor),
        BinaryOperator::ShiftLeft => Infix::Shifted(Shift::Left),
        BinaryOperator::ShiftRight => Infix::Shifted(Shift::Right),
        BinaryOperator::Less => Infix::Compared(Comparison::Less),
        BinaryOperator::LessOrEqual => Infix::Compared(Comparison::LessOrEqual),
        BinaryOperator::Greater => Infix::Compared(Comparison::Greater),
        BinaryOperator::GreaterOrEqual => Infix::Compared(Comparison::GreaterOrEqual),
        BinaryOperator::Equal => Infix::Compared(Comparison::Equal),
        BinaryOperator::Unequal => Infix::Compared(Comparison::Unequal),
        BinaryOperator::CaseEqual => Infix::Compared(Comparison::CaseEqual),
        BinaryOperator::CaseUnequal => Infix::Compared(Comparison::CaseUnequal),
        BinaryOperator::LogicalAnd => Infix::Joined(Logical::And),
        BinaryOperator::LogicalOr => Infix::Joined(Logical::Or),
    }
}

/// The value of a literal as an operand.
fn constant(bits: Bits, is_signed: bool) -> Operand
    ensures { result ≡ Operand.Constant bits is_signed }
{
    Operand::Constant { bits, is_signed }
}

/// An expression of a module as an operand, by the module's object: a slot in place of a name, its value in place of a literal.
pub fn operand_of(design: &Design, scope: Option<ObjectId>, expression: Expression) -> Operand
    ensures { result ≡ operand_of design.now (option_map (λ o. o.0) scope) expression }
{
    match expression {
        Expression::Name { name, selection } => named_operand(design, scope, name, selection),
        Expression::Literal { size, digits, .. } => {
            constant(literal_bits(size, design.source().word(digits)), false)
        }
        Expression::Based { digits } => constant(based_bits(design.source().word(digits)), false),
        Expression::Number { value, .. } => constant(number_bits(value), true),
        Expression::Unary {
            operator,
            operand,
            ..
        } => unary_operand(operator, operand),
        Expression::Binary {
            operator,
            left,
            right,
            ..
        } => Operand::Paired(infix_of(operator), left, right),
        Expression::Conditional {
            condition,
            first,
            second,
        } => Operand::Conditional(condition, first, second),
        Expression::Concatenation { part, .. } => Operand::Concatenated(part),
        Expression::Appended { list, part, .. } => Operand::Appended { list, part },
        Expression::Replication { count, list, .. } => Operand::Replicated { count, list },
    }
}

/// The expressions of a module as operands, after others. Takes memory.
fn add_operands(
    design: &Design,
    scope: Option<ObjectId>,
    module: Module,
    operands: &mut Vec<Operand>,
) -> Result<(), AllocError>
    requires { option_map (λ o. o.0) scope ≡ scope_of design.now «module» }
    ensures { OnOk result (operands.new.items ≡ operands.old.items
        ++ operands_in design.now «module») }
{
    for expression in expressions_of(design.source(), module) {
        operands.push(operand_of(design, scope, *expression))?;
    }
    Ok(())
}

/// The expressions of a design as operands, module by module. Takes memory.
pub fn operands_of(alloc: Global, design: &Design) -> Result<Sequence<Operand>, AllocError>
    ensures { IfOk result (λ operands. operands ≡ operands_of design.now) }
{
    let mut operands = Vec::new(alloc);
    for (number, module) in design.source().modules.as_slice().iter().enumerate() {
        let scope = scope_of(design, number);
        add_operands(design, scope, *module, &mut operands)?;
    }
    Ok(Sequence::from_vec(operands))
}
