// What is refused of a design's expressions, by the place of each fault.
ghost use Rattle.std.specs.Prelude.{◌≡◌, drop, option_map, slice_index_or, IfOk, OnOk};
ghost use Rattle.vp_source.specs.Places.{earliest};
ghost use Rattle.vp_modules.specs.Refusals.{first_in};
ghost use Rattle.vp_resolve.specs.Checks.{bad_at, bad_in, bad_name, bad_target, bits_named, counted, counted_size, counted_sizes, first_bad, first_signed, first_wide, first_wide_in, first_wide_of, is_bad, is_relational, is_wide, is_wide_part, node_size, range_in, signed_at, signed_in, wide_among, wide_at, wide_declared, wide_item, wide_target, with_sizes};
ghost use Rattle.vp_resolve.specs.Names.{scope_of};
ghost use Rattle.vp_resolve.specs.Operands.{operands_of};

use crate::resolving::{object_named, operand_of, scope_of};
use std::alloc::{AllocError, Global};
use vp_elab::{Design, ObjectId, range_width};
use vp_modules::{expressions_of, items_of, statements_of};
use vp_operand::{Operand, operand_size, sign_at, signs_of};
use vp_source::{
    BinaryOperator, DeclaredRange, Expression, Item, Module, Selection, Source, Statement, earlier,
};

/// The greatest width of a vector, in bits.
const WIDTH_LIMIT: u64 = 64;

/// A size as it is counted, in bits: one that is too great as 65.
fn counted(size: u64) -> u8
    ensures { result ≡ counted size }
{
    size.min(WIDTH_LIMIT + 1) as u8
}

/// A size is greater than a vector may have.
fn is_wide(size: u64) -> bool
    ensures { result ≡ is_wide size }
{
    size > WIDTH_LIMIT
}

/// The bits of the name at a place: how many, and the lowest index, if there is one.
#[tactic(auto, using(crate::proofs::Named::bits_there))]
fn bits_named(design: &Design, scope: Option<ObjectId>, name: u32) -> Option<(u32, Option<u16>)>
    ensures { result ≡ bits_named design.now (option_map (λ o. o.0) scope) name }
{
    let object = object_named(design, scope, name)?;
    let object = design.object(object)?;
    Some((object.width, object.lowest))
}

/// How many bits are selected of the name at a place; 1 where there is no such object.
fn named_size(design: &Design, scope: Option<ObjectId>, name: u32, selection: Selection) -> u64
    ensures { result ≡ node_size design.now (option_map (λ o. o.0) scope) name selection }
{
    let Some((width, _lowest)) = bits_named(design, scope, name) else {
        return 1;
    };
    match selection {
        Selection::Whole => u64::from(width),
        Selection::Bit { .. } => 1,
        Selection::Part(range) => u64::from(range_width(range)),
    }
}

/// The size of an expression as it is counted, in bits, by the sizes of those before it; that of a literal is not 0.
fn counted_size(
    design: &Design,
    scope: Option<ObjectId>,
    sizes: &[u8],
    expression: Expression,
) -> u8
    ensures { result ≡ counted_size design.now (option_map (λ o. o.0) scope) sizes.now expression }
{
    counted(match expression {
        Expression::Name { name, selection } => named_size(design, scope, name, selection),
        Expression::Literal { size, .. } => u64::from(size).max(1),
        _ => operand_size(sizes, operand_of(design, scope, expression)),
    })
}

/// The sizes of the expressions of a module, as they are counted, after those before them. Takes memory.
fn add_counted(
    design: &Design,
    scope: Option<ObjectId>,
    module: Module,
    sizes: &mut Vec<u8>,
) -> Result<(), AllocError>
    requires { option_map (λ o. o.0) scope ≡ scope_of design.now «module» }
    ensures { OnOk result (sizes.new.items ≡ with_sizes design.now sizes.old.items «module») }
{
    for expression in expressions_of(design.source(), module) {
        let size = counted_size(design, scope, sizes.as_slice(), *expression);
        sizes.push(size)?;
    }
    Ok(())
}

/// The sizes of the expressions of a design, as they are counted, module by module. Takes memory.
fn counted_sizes(alloc: Global, design: &Design) -> Result<Vec<u8>, AllocError>
    ensures { IfOk result (λ sizes. sizes.items ≡ counted_sizes design.now) }
{
    let mut sizes: Vec<u8> = Vec::new(alloc);
    for (number, module) in design.source().modules.as_slice().iter().enumerate() {
        let scope = scope_of(design, number);
        add_counted(design, scope, *module, &mut sizes)?;
    }
    Ok(sizes)
}

/// A selection of a part is too wide.
fn is_wide_part(selection: Selection) -> bool
    ensures { result ≡ is_wide_part selection }
{
    match selection {
        Selection::Part(range) => is_wide(u64::from(range_width(range))),
        Selection::Whole | Selection::Bit { .. } => false,
    }
}

/// The place of an expression that is too wide by itself, by its size: a literal, a part of a name, braces.
fn wide_at(size: u8, expression: Expression) -> Option<u32>
    ensures { result ≡ wide_at size expression }
{
    match expression {
        Expression::Name { name, selection } if is_wide_part(selection) => Some(name),
        Expression::Literal { place, size, .. } if is_wide(u64::from(size)) => Some(place),
        Expression::Concatenation { open, .. }
        | Expression::Appended { open, .. }
        | Expression::Replication { open, .. }
            if is_wide(u64::from(size)) => { Some(open) }
        _ => None,
    }
}

/// The range of a declaration.
fn range_in(item: Item) -> Option<DeclaredRange>
    ensures { result ≡ range_in item }
{
    match item {
        Item::Port { range, .. } | Item::Net { range, .. } | Item::Reg { range, .. } => range,
        _ => None,
    }
}

/// The bracket of a declaration whose range is too wide.
fn wide_item(item: Item) -> Option<u32>
    ensures { result ≡ wide_item item }
{
    let declared = range_in(item)?;
    if is_wide(u64::from(range_width(declared.range))) {
        Some(declared.bracket)
    } else {
        None
    }
}

/// The name of an assignment's target that is a part too wide.
fn wide_target(statement: Statement) -> Option<u32>
    ensures { result ≡ wide_target statement }
{
    match statement {
        Statement::Assign {
            target,
            selection,
            ..
        }
        | Statement::Nonblocking {
            target,
            selection,
            ..
        } if is_wide_part(selection) => Some(target),
        _ => None,
    }
}

fn first_wide_item(items: &[Item]) -> Option<u32>
    ensures { result ≡ earliest wide_item items.now }
{
    let mut first = None;
    for item in items {
        first = earlier(first, wide_item(*item));
    }
    first
}

fn first_wide_target(statements: &[Statement]) -> Option<u32>
    ensures { result ≡ earliest wide_target statements.now }
{
    let mut first = None;
    for statement in statements {
        first = earlier(first, wide_target(*statement));
    }
    first
}

/// The size at a place, in bits; 1 past the end.
fn size_among(sizes: &[u8], place: usize) -> u8
    ensures { result ≡ slice_index_or sizes.now place 1 }
{
    match sizes.get(place) {
        Some(size) => *size,
        None => 1,
    }
}

/// The place of the expression at a place that is too wide by itself, by the sizes of all.
fn wide_among(expressions: &[Expression], sizes: &[u8], place: usize) -> Option<u32>
    ensures { result ≡ wide_among expressions.now sizes.now place }
{
    let expression = expressions.get(place)?;
    wide_at(size_among(sizes, place), *expression)
}

fn first_wide_of(expressions: &[Expression], sizes: &[u8]) -> Option<u32>
    ensures { result ≡ first_wide_of expressions.now sizes.now }
{
    let mut first = None;
    for place in 0..expressions.len() {
        first = earlier(first, wide_among(expressions, sizes, place));
    }
    first
}

/// The first place of a module that is too wide, in a declaration or in a statement's target.
fn wide_declared(source: &Source, module: Module) -> Option<u32>
    ensures { result ≡ wide_declared source.now «module» }
{
    let declared = first_wide_item(items_of(source, module));
    earlier(declared, first_wide_target(statements_of(source, module)))
}

/// The first place of a text that is too wide, in a declaration or in a statement's target.
fn first_wide_declared(source: &Source) -> Option<u32>
    ensures { result ≡ first_in source.now (wide_declared source.now) }
{
    let mut first = None;
    for module in source.modules.as_slice() {
        first = earlier(first, wide_declared(source, *module));
    }
    first
}

/// The sizes after so many.
fn sizes_after(sizes: &[u8], count: usize) -> &[u8]
    ensures { result.now ≡ drop count sizes.now }
{
    sizes.get(count..).unwrap_or(&[])
}

/// The first expression of a text that is too wide by itself, by the sizes of all.
fn first_wide_expression(source: &Source, sizes: &[u8]) -> Option<u32>
    ensures { result ≡ first_wide_in source.now source.now.modules sizes.now }
{
    let mut first = None;
    let mut left = sizes;
    for module in source.modules.as_slice() {
        let expressions = expressions_of(source, *module);
        first = earlier(first, first_wide_of(expressions, left));
        left = sizes_after(left, expressions.len());
    }
    first
}

/// The first place that is too wide: in a declaration, in a statement's target, or in an expression. Takes memory.
#[tactic(auto, unfolding(crate::specs::Checks::first_wide))]
pub fn first_wide(alloc: Global, design: &Design) -> Result<Option<u32>, AllocError>
    ensures { IfOk result (λ first. first ≡ first_wide design.now) }
{
    let source = design.source();
    let sizes = counted_sizes(alloc, design)?;
    let declared = first_wide_declared(source);
    Ok(earlier(declared, first_wide_expression(source, &sizes)))
}

/// An operator compares the sizes of numbers.
fn is_relational(operator: BinaryOperator) -> bool
    ensures { result ≡ is_relational operator }
{
    matches!(
        operator,
        BinaryOperator::Less
            | BinaryOperator::LessOrEqual
            | BinaryOperator::Greater
            | BinaryOperator::GreaterOrEqual
    )
}

/// The place of a relational operator whose operands are both signed, by the signs of expressions.
fn signed_at(signs: &[bool], expression: Expression) -> Option<u32>
    ensures { result ≡ signed_at signs.now expression }
{
    match expression {
        Expression::Binary {
            operator,
            place,
            left,
            right,
        } if is_relational(operator) && (sign_at(signs, left) && sign_at(signs, right)) => {
            Some(place)
        }
        _ => None,
    }
}

fn first_signed_of(signs: &[bool], expressions: &[Expression]) -> Option<u32>
    ensures { result ≡ earliest (signed_at signs.now) expressions.now }
{
    let mut first = None;
    for expression in expressions {
        first = earlier(first, signed_at(signs, *expression));
    }
    first
}

/// The first relational operator of a text on two signed operands, by the signs of expressions.
fn first_signed_in(source: &Source, signs: &[bool]) -> Option<u32>
    ensures { result ≡ first_in source.now (signed_in source.now signs.now) }
{
    let mut first = None;
    for module in source.modules.as_slice() {
        let expressions = expressions_of(source, *module);
        first = earlier(first, first_signed_of(signs, expressions));
    }
    first
}

/// The first relational operator on two signed operands, by the expressions of the design as operands. Takes memory.
#[tactic(auto, unfolding(crate::specs::Checks::first_signed))]
pub fn first_signed(
    alloc: Global,
    design: &Design,
    operands: &[Operand],
) -> Result<Option<u32>, AllocError>
    requires { operands.now ≡ operands_of design.now }
    ensures { IfOk result (λ first. first ≡ first_signed design.now) }
{
    let signs = signs_of(alloc, operands)?;
    Ok(first_signed_in(design.source(), signs.as_slice()))
}

/// A selection is bad of what has bits from the lowest on: of a scalar, or of a part that is not inside.
fn is_bad(lowest: Option<u16>, width: u32, selection: Selection) -> bool
    ensures { result ≡ is_bad lowest width selection }
{
    match (selection, lowest) {
        (Selection::Whole, _) | (Selection::Bit { .. }, Some(_)) => false,
        (_, None) => true,
        (Selection::Part(range), Some(lowest)) => {
            let end = u64::from(lowest) + u64::from(width);
            !(lowest <= range.lsb && (range.lsb <= range.msb && u64::from(range.msb) < end))
        }
    }
}

/// The name at a place, where the selection of its bits is bad.
fn bad_name(
    design: &Design,
    scope: Option<ObjectId>,
    name: u32,
    selection: Selection,
) -> Option<u32>
    ensures { result ≡ bad_name design.now (option_map (λ o. o.0) scope) name selection }
{
    let (width, lowest) = bits_named(design, scope, name)?;
    if is_bad(lowest, width, selection) {
        Some(name)
    } else {
        None
    }
}

/// The place of a bad selection in an expression, or of a replication of 0.
fn bad_at(design: &Design, scope: Option<ObjectId>, expression: Expression) -> Option<u32>
    ensures { result ≡ bad_at design.now (option_map (λ o. o.0) scope) expression }
{
    match expression {
        Expression::Name { name, selection } => bad_name(design, scope, name, selection),
        Expression::Replication { open, count: 0, .. } => Some(open),
        _ => None,
    }
}

/// The name of an assignment's target whose selection is bad.
fn bad_target(design: &Design, scope: Option<ObjectId>, statement: Statement) -> Option<u32>
    ensures { result ≡ bad_target design.now (option_map (λ o. o.0) scope) statement }
{
    match statement {
        Statement::Assign {
            target,
            selection,
            ..
        }
        | Statement::Nonblocking {
            target,
            selection,
            ..
        } => bad_name(design, scope, target, selection),
        _ => None,
    }
}

fn first_bad_target(
    design: &Design,
    scope: Option<ObjectId>,
    statements: &[Statement],
) -> Option<u32>
    ensures { result ≡ earliest (bad_target design.now (option_map (λ o. o.0) scope))
        statements.now }
{
    let mut first = None;
    for statement in statements {
        first = earlier(first, bad_target(design, scope, *statement));
    }
    first
}

fn first_bad_operand(
    design: &Design,
    scope: Option<ObjectId>,
    expressions: &[Expression],
) -> Option<u32>
    ensures { result ≡ earliest (bad_at design.now (option_map (λ o. o.0) scope)) expressions.now }
{
    let mut first = None;
    for expression in expressions {
        first = earlier(first, bad_at(design, scope, *expression));
    }
    first
}

/// The first bad selection of a module.
fn bad_in(design: &Design, scope: Option<ObjectId>, module: Module) -> Option<u32>
    requires { option_map (λ o. o.0) scope ≡ scope_of design.now «module» }
    ensures { result ≡ bad_in design.now «module» }
{
    let source = design.source();
    let target = first_bad_target(design, scope, statements_of(source, module));
    let operand = first_bad_operand(design, scope, expressions_of(source, module));
    earlier(target, operand)
}

/// The first bad selection.
#[tactic(auto, unfolding(crate::specs::Checks::first_bad))]
pub fn first_bad(design: &Design) -> Option<u32>
    ensures { result ≡ first_bad design.now }
{
    let mut first = None;
    for (number, module) in design.source().modules.as_slice().iter().enumerate() {
        let scope = scope_of(design, number);
        first = earlier(first, bad_in(design, scope, *module));
    }
    first
}
