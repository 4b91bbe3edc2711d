// Expressions, read from left to right.
ghost use Rattle.std.specs.Prelude.{◌≡◌, ◌<◌, ◌≤◌, ◌+◌, ◌^◌, ◌⊎◌, max, length, Some, Ok, IfOk, IfErr, vec_len};
ghost use Rattle.vp_parse_expr.specs.declared.reading.Stop.TheVariants.{NoMemory};
ghost use Rattle.vp_source.specs.ExprGrammar.{Expr, Selection as SelectionRead};
ghost use Rattle.vp_parse_expr.specs.Meaning.{IsExpressionOf, NoExpression, IsLiteralOf, NoLiteral, IsSelectionOf, NoSelection};
ghost use Rattle.vp_parse_expr.specs.Placing.{made, literal_into, sized_into, number_into, bit_into, part_select_into, select_into, selection_into, name_into, based_into, group_into, unary_into, part_into, further_part_into, further_parts_into, first_part_into, parts_into, concatenation_into, replication_into, braces_into, operand_into, binary_into, more_into, conditional_into, choice_into, chain_into, expr_into};
ghost use Rattle.vp_parse_expr.specs.Stopping.{Gives};

use crate::arena::add_expression;
use crate::bounds::{bound, bounds};
use crate::lookahead::{
    binding, index_stop, is_bare, is_base_next, is_choice, is_number_before, is_part, is_size_of,
    no_operand,
};
use crate::operator::{level, unary_of};
use crate::reading::{Stop, is_next, skip, terminal, unexpected};
use vp_lex::Punctuator;
use vp_source::{
    BinaryOperator, Expression, NUMBER_LIMIT, Selection, Symbol, SymbolKind, UnaryOperator,
};

/// The level of operators of one operand and of primaries.
const UNARY_LEVEL: u8 = 11;

/// What is read: the place of its last part, how deep it nests, and what follows.
#[derive(Clone, Copy)]
pub struct Found<'a> {
    pub place: u32,
    pub depth: u32,
    pub rest: &'a [Symbol],
}

/// What of a named object is meant, how deep its index nests, 0 without one, and what follows.
#[derive(Clone, Copy)]
pub struct Selected<'a> {
    pub selection: Selection,
    pub depth: u32,
    pub rest: &'a [Symbol],
}

/// One more part after the others: its place, how deep it nests, and what follows.
fn add_node<'a>(
    expressions: &mut Vec<Expression>,
    node: Expression,
    depth: u32,
    rest: &'a [Symbol],
) -> Result<Found<'a>, Stop>
    requires { vec_len expressions.old < 2 ^ 32 }
    ensures read { Gives (λ found. (
      found.place,
      found.depth,
      expressions.new.items,
      found.rest.now,
    )) result (Ok (made node depth expressions.old.items rest.now)) }
    ensures len { IfOk result (λ found. vec_len expressions.new ≡ vec_len expressions.old + 1) }
    ensures rest { IfOk result (λ found. found.rest.now ≡ rest.now) }
    ensures depth { IfOk result (λ found. found.depth ≡ depth) }
{
    let place = add_expression(expressions, node)?;
    Ok(Found { place, depth, rest })
}

// ---- literals

/// A literal with a size, from after its size.
#[tactic(auto, unfolding(crate::specs::Placing::sized_into))]
fn sized<'a>(
    expressions: &mut Vec<Expression>,
    size: u32,
    place: u32,
    symbols: &'a [Symbol],
) -> Result<Found<'a>, Stop>
    requires { vec_len expressions.old + length symbols.now + 1 < 2 ^ 32 }
    ensures read { Gives (λ found. (
      found.place,
      found.depth,
      expressions.new.items,
      found.rest.now,
    )) result (sized_into size place expressions.old.items symbols.now) }
    ensures fits { IfOk result (λ found.
        (vec_len expressions.new + length found.rest.now
        ≤ vec_len expressions.old + length symbols.now + 1)
        × (length found.rest.now ≤ length symbols.now) × (found.depth ≤ 1)) }
{
    match symbols {
        [digits, rest @ ..] if is_size_of(size, digits.kind) => {
            let literal = Expression::Literal {
                place,
                size,
                digits: digits.place,
            };
            add_node(expressions, literal, 1, rest)
        }
        _ => Err(Stop::LeftOut(symbols.len() + 1)),
    }
}

/// A literal with a size, or a number, from after its first symbol. Left out are sizes of 0 and above 65,535, and
/// numbers of 2^31 and more (3.5.1).
#[tactic(auto, unfolding(crate::specs::Placing::number_into))]
fn number<'a>(
    expressions: &mut Vec<Expression>,
    value: u32,
    place: u32,
    symbols: &'a [Symbol],
) -> Result<Found<'a>, Stop>
    requires { vec_len expressions.old + length symbols.now + 1 < 2 ^ 32 }
    ensures read { Gives (λ found. (
      found.place,
      found.depth,
      expressions.new.items,
      found.rest.now,
    )) result (number_into value place expressions.old.items symbols.now) }
    ensures fits { IfOk result (λ found.
        (vec_len expressions.new + length found.rest.now
        ≤ vec_len expressions.old + length symbols.now + 1)
        × (length found.rest.now ≤ length symbols.now) × (found.depth ≤ 1)) }
{
    if is_base_next(symbols) {
        return sized(expressions, value, place, symbols);
    }
    if value >= NUMBER_LIMIT {
        return Err(Stop::LeftOut(symbols.len() + 1));
    }
    add_node(expressions, Expression::Number { place, value }, 1, symbols)
}

/// A literal with a size, after the parts that were there.
#[tactic(auto, unfolding(crate::specs::Placing::literal_into, crate::specs::Placing::literal_by_into))]
fn literal_at<'a>(
    expressions: &mut Vec<Expression>,
    symbols: &'a [Symbol],
) -> Result<Found<'a>, Stop>
    requires { vec_len expressions.old + length symbols.now < 2 ^ 32 }
    ensures read { Gives
        (λ found. (found.place, found.depth, expressions.new.items, found.rest.now))
        result (literal_into expressions.old.items symbols.now) }
    ensures lighter { IfOk result (λ found. vec_len expressions.new + length found.rest.now
        ≤ vec_len expressions.old + length symbols.now) }
    ensures shorter { IfOk result (λ found. length found.rest.now < length symbols.now) }
{
    let [first, rest @ ..] = symbols else {
        return Err(unexpected(symbols));
    };
    match first.kind {
        SymbolKind::Number(size) if is_base_next(rest) => {
            sized(expressions, size, first.place, rest)
        }
        _ => Err(unexpected(symbols)),
    }
}

/// The literal with a size with which symbols begin, laid out after the parts that were there. Left out are sizes of 0 and
/// above 65,535 (3.5.1).
pub fn literal<'a>(
    expressions: &mut Vec<Expression>,
    symbols: &'a [Symbol],
) -> Result<Found<'a>, Stop>
    requires { vec_len expressions.old + length symbols.now < 2 ^ 32 }
    ensures read { Gives
        (λ found. (found.place, found.depth, expressions.new.items, found.rest.now))
        result (literal_into expressions.old.items symbols.now) }
    ensures found { IfOk result (λ found. (e : Expr) × IsLiteralOf expressions.old.items symbols.now
        (found.place, found.depth, expressions.new.items, found.rest.now) e) }
    ensures none { IfErr result (λ stop. (stop ≡ NoMemory) ⊎ NoLiteral symbols.now) }
    ensures lighter { IfOk result (λ found. vec_len expressions.new + length found.rest.now
        ≤ vec_len expressions.old + length symbols.now) }
    ensures shorter { IfOk result (λ found. length found.rest.now < length symbols.now) }
{
    literal_at(expressions, symbols)
}

// ---- selections

/// A bit of a named object, by its index; `+:` and `-:` are left out (5.2.1).
#[cycle(expression)]
#[tactic(auto, unfolding(crate::specs::Placing::bit_into))]
fn bit<'a>(
    expressions: &mut Vec<Expression>,
    depth: u32,
    symbols: &'a [Symbol],
) -> Result<Selected<'a>, Stop>
    requires room { vec_len expressions.old + length symbols.now < 2 ^ 32 }
    ensures read { Gives (λ found. (
      found.selection,
      found.depth,
      expressions.new.items,
      found.rest.now,
    )) result (bit_into (expr_into depth 0) expressions.old.items symbols.now) }
    ensures fits { IfOk result (λ found.
        (vec_len expressions.new + length found.rest.now
        ≤ vec_len expressions.old + length symbols.now)
        × (length found.rest.now < length symbols.now) × (found.depth ≤ depth)) }
{
    let rest = skip(SymbolKind::Punctuator(Punctuator::LeftBracket), symbols)?;
    let index = match expression_at(expressions, depth, 0, rest) {
        Ok(index) => index,
        Err(stop) => return Err(index_stop(stop, rest)),
    };
    let rest = skip(SymbolKind::Punctuator(Punctuator::RightBracket), index.rest)?;
    Ok(Selected {
        selection: Selection::Bit { index: index.place },
        depth: index.depth,
        rest,
    })
}

/// What is selected of a named object, from after its name: nothing, or what brackets say.
#[cycle(expression)]
#[tactic(auto, unfolding(crate::specs::Placing::select_into, crate::specs::Placing::part_select_into))]
fn select<'a>(
    expressions: &mut Vec<Expression>,
    depth: u32,
    symbols: &'a [Symbol],
) -> Result<Selected<'a>, Stop>
    requires room { vec_len expressions.old + length symbols.now < 2 ^ 32 }
    ensures read { Gives (λ found. (
      found.selection,
      found.depth,
      expressions.new.items,
      found.rest.now,
    )) result (selection_into depth expressions.old.items symbols.now) }
    ensures fits { IfOk result (λ found.
        (vec_len expressions.new + length found.rest.now
        ≤ vec_len expressions.old + length symbols.now)
        × (length found.rest.now ≤ length symbols.now) × (found.depth ≤ depth)) }
{
    if !is_next(SymbolKind::Punctuator(Punctuator::LeftBracket), symbols) {
        return Ok(Selected {
            selection: Selection::Whole,
            depth: 0,
            rest: symbols,
        });
    }
    if !is_part(symbols) {
        return bit(expressions, depth, symbols);
    }
    let (part, rest) = bounds(symbols)?;
    Ok(Selected {
        selection: Selection::Part(part),
        depth: 0,
        rest,
    })
}

// ---- primaries

/// A name and what is selected of it, from after the name.
#[cycle(expression)]
#[tactic(auto, unfolding(crate::specs::Placing::name_into))]
fn named<'a>(
    expressions: &mut Vec<Expression>,
    depth: u32,
    name: u32,
    symbols: &'a [Symbol],
) -> Result<Found<'a>, Stop>
    requires room { vec_len expressions.old + length symbols.now + 1 < 2 ^ 32 }
    requires limit { depth + 1 < 2 ^ 32 }
    ensures read { Gives (λ found. (
      found.place,
      found.depth,
      expressions.new.items,
      found.rest.now,
    )) result (name_into (expr_into depth) name expressions.old.items
        symbols.now) }
    ensures fits { IfOk result (λ found.
        (vec_len expressions.new + length found.rest.now
        ≤ vec_len expressions.old + length symbols.now + 1)
        × (length found.rest.now ≤ length symbols.now) × (found.depth ≤ depth + 1)) }
{
    let found = select(expressions, depth, symbols)?;
    let node = Expression::Name {
        name,
        selection: found.selection,
    };
    add_node(expressions, node, found.depth + 1, found.rest)
}

/// An expression in parentheses, from after the first.
#[cycle(expression)]
#[tactic(auto, unfolding(crate::specs::Placing::group_into))]
fn group<'a>(
    expressions: &mut Vec<Expression>,
    depth: u32,
    symbols: &'a [Symbol],
) -> Result<Found<'a>, Stop>
    requires room { vec_len expressions.old + length symbols.now < 2 ^ 32 }
    requires limit { depth + 1 < 2 ^ 32 }
    ensures read { Gives (λ found. (
      found.place,
      found.depth,
      expressions.new.items,
      found.rest.now,
    )) result (group_into (expr_into depth) expressions.old.items symbols.now) }
    ensures fits { IfOk result (λ found.
        (vec_len expressions.new + length found.rest.now
        ≤ vec_len expressions.old + length symbols.now)
        × (length found.rest.now ≤ length symbols.now) × (found.depth ≤ depth + 1)) }
{
    let value = expression_at(expressions, depth, 0, symbols)?;
    let rest = skip(
        SymbolKind::Punctuator(Punctuator::RightParenthesis),
        value.rest,
    )?;
    Ok(Found {
        place: value.place,
        depth: value.depth + 1,
        rest,
    })
}

/// An operator of one operand, from after its sign.
#[cycle(expression)]
#[tactic(auto, unfolding(crate::specs::Placing::unary_into))]
fn unary<'a>(
    expressions: &mut Vec<Expression>,
    depth: u32,
    operator: UnaryOperator,
    place: u32,
    symbols: &'a [Symbol],
) -> Result<Found<'a>, Stop>
    requires room { vec_len expressions.old + length symbols.now + 1 < 2 ^ 32 }
    requires limit { depth + 1 < 2 ^ 32 }
    ensures read { Gives (λ found. (
      found.place,
      found.depth,
      expressions.new.items,
      found.rest.now,
    )) result (unary_into (expr_into depth) (Some operator) place
        expressions.old.items symbols.now) }
    ensures fits { IfOk result (λ found.
        (vec_len expressions.new + length found.rest.now
        ≤ vec_len expressions.old + length symbols.now + 1)
        × (length found.rest.now ≤ length symbols.now) × (found.depth ≤ depth + 1)) }
{
    let operand = expression_at(expressions, depth, UNARY_LEVEL, symbols)?;
    let node = Expression::Unary {
        operator,
        place,
        operand: operand.place,
    };
    add_node(expressions, node, operand.depth + 1, operand.rest)
}

/// An expression in braces; a literal without a size is left out (5.1.14).
#[cycle(expression)]
#[tactic(auto, unfolding(crate::specs::Placing::part_into))]
fn part<'a>(
    expressions: &mut Vec<Expression>,
    depth: u32,
    symbols: &'a [Symbol],
) -> Result<Found<'a>, Stop>
    requires room { vec_len expressions.old + length symbols.now < 2 ^ 32 }
    ensures read { Gives (λ found. (
      found.place,
      found.depth,
      expressions.new.items,
      found.rest.now,
    )) result (part_into (expr_into depth) expressions.old.items symbols.now) }
    ensures fits { IfOk result (λ found.
        (vec_len expressions.new + length found.rest.now
        ≤ vec_len expressions.old + length symbols.now)
        × (length found.rest.now < length symbols.now) × (found.depth ≤ depth)) }
{
    let part = expression_at(expressions, depth, 0, symbols)?;
    if is_bare(symbols, part.rest) {
        return Err(Stop::LeftOut(symbols.len()));
    }
    Ok(part)
}

/// The first expression in braces.
#[cycle(expression)]
#[tactic(auto, unfolding(crate::specs::Placing::first_part_into))]
fn first_part<'a>(
    expressions: &mut Vec<Expression>,
    depth: u32,
    brace: u32,
    symbols: &'a [Symbol],
) -> Result<Found<'a>, Stop>
    requires room { vec_len expressions.old + length symbols.now + 1 < 2 ^ 32 }
    ensures read { Gives (λ found. (
      found.place,
      found.depth,
      expressions.new.items,
      found.rest.now,
    )) result (first_part_into (expr_into depth) brace expressions.old.items
        symbols.now) }
    ensures fits { IfOk result (λ found.
        (vec_len expressions.new + length found.rest.now
        ≤ vec_len expressions.old + length symbols.now + 1)
        × (length found.rest.now < length symbols.now) × (found.depth ≤ depth)) }
{
    let first = part(expressions, depth, symbols)?;
    let node = Expression::Concatenation {
        open: brace,
        part: first.place,
    };
    add_node(expressions, node, first.depth, first.rest)
}

/// One more expression in braces, with the comma before it.
#[cycle(expression)]
#[tactic(auto, unfolding(crate::specs::Placing::further_part_into))]
fn further_part<'a>(
    expressions: &mut Vec<Expression>,
    depth: u32,
    brace: u32,
    list: Found<'a>,
) -> Result<Found<'a>, Stop>
    requires room { vec_len expressions.old + length list.rest.now < 2 ^ 32 }
    ensures read { Gives (λ found. (
      found.place,
      found.depth,
      expressions.new.items,
      found.rest.now,
    )) result (further_part_into (expr_into depth) brace list.entry.place
        list.entry.depth expressions.old.items list.entry.rest.now) }
    ensures fits { IfOk result (λ found.
        (vec_len expressions.new + length found.rest.now
        ≤ vec_len expressions.old + length list.entry.rest.now)
        × (length found.rest.now < length list.entry.rest.now)
        × (found.depth ≤ max list.entry.depth depth)) }
{
    let rest = skip(SymbolKind::Punctuator(Punctuator::Comma), list.rest)?;
    let further = part(expressions, depth, rest)?;
    let node = Expression::Appended {
        open: brace,
        list: list.place,
        part: further.place,
    };
    let nesting = list.depth.max(further.depth);
    add_node(expressions, node, nesting, further.rest)
}

/// The expressions in braces, from the first on.
#[cycle(expression)]
#[tactic(auto, unfolding(crate::specs::Placing::parts_into))]
fn parts<'a>(
    expressions: &mut Vec<Expression>,
    depth: u32,
    brace: u32,
    symbols: &'a [Symbol],
) -> Result<Found<'a>, Stop>
    requires room { vec_len expressions.old + length symbols.now + 1 < 2 ^ 32 }
    ensures read { Gives (λ found. (
      found.place,
      found.depth,
      expressions.new.items,
      found.rest.now,
    )) result (parts_into (expr_into depth) brace expressions.old.items
        symbols.now) }
    ensures fits { IfOk result (λ found.
        (vec_len expressions.new + length found.rest.now
        ≤ vec_len expressions.old + length symbols.now + 1)
        × (length found.rest.now < length symbols.now) × (found.depth ≤ depth)) }
{
    let first = first_part(expressions, depth, brace, symbols)?;
    further_parts(expressions, depth, brace, first)
}

/// The further expressions in braces, each after a comma.
#[cycle(expression)]
fn further_parts<'a>(
    expressions: &mut Vec<Expression>,
    depth: u32,
    brace: u32,
    first: Found<'a>,
) -> Result<Found<'a>, Stop>
    requires room { vec_len expressions.old + length first.rest.now < 2 ^ 32 }
    requires within { first.depth ≤ depth }
    ensures read { Gives (λ found. (
      found.place,
      found.depth,
      expressions.new.items,
      found.rest.now,
    )) result (further_parts_into (expr_into depth) (length first.entry.rest.now)
        brace first.entry.place first.entry.depth expressions.old.items first.entry.rest.now) }
    ensures fits { IfOk result (λ found.
        (vec_len expressions.new + length found.rest.now
        ≤ vec_len expressions.old + length first.entry.rest.now)
        × (length found.rest.now ≤ length first.entry.rest.now) × (found.depth ≤ depth)) }
{
    let mut list = first;
    while is_next(SymbolKind::Punctuator(Punctuator::Comma), list.rest) {
        list = further_part(expressions, depth, brace, list)?;
    }
    Ok(list)
}

/// A concatenation, from after its brace (5.1.14).
#[cycle(expression)]
#[tactic(auto, unfolding(crate::specs::Placing::concatenation_into))]
fn concatenation<'a>(
    expressions: &mut Vec<Expression>,
    depth: u32,
    brace: u32,
    symbols: &'a [Symbol],
) -> Result<Found<'a>, Stop>
    requires room { vec_len expressions.old + length symbols.now + 1 < 2 ^ 32 }
    requires limit { depth + 1 < 2 ^ 32 }
    ensures read { Gives (λ found. (
      found.place,
      found.depth,
      expressions.new.items,
      found.rest.now,
    )) result (concatenation_into (expr_into depth) brace expressions.old.items
        symbols.now) }
    ensures fits { IfOk result (λ found.
        (vec_len expressions.new + length found.rest.now
        ≤ vec_len expressions.old + length symbols.now)
        × (length found.rest.now ≤ length symbols.now) × (found.depth ≤ depth + 1)) }
{
    let parts = parts(expressions, depth, brace, symbols)?;
    let rest = skip(SymbolKind::Punctuator(Punctuator::RightBrace), parts.rest)?;
    Ok(Found {
        place: parts.place,
        depth: parts.depth + 1,
        rest,
    })
}

/// A replication, from after its brace; a count of 2^31 and more is left out (5.1.14).
#[cycle(expression)]
#[tactic(auto, unfolding(crate::specs::Placing::replication_into))]
fn replication<'a>(
    expressions: &mut Vec<Expression>,
    depth: u32,
    brace: u32,
    symbols: &'a [Symbol],
) -> Result<Found<'a>, Stop>
    requires room { vec_len expressions.old + length symbols.now + 1 < 2 ^ 32 }
    requires limit { depth + 1 < 2 ^ 32 }
    ensures read { Gives (λ found. (
      found.place,
      found.depth,
      expressions.new.items,
      found.rest.now,
    )) result (replication_into (expr_into depth) brace expressions.old.items
        symbols.now) }
    ensures fits { IfOk result (λ found.
        (vec_len expressions.new + length found.rest.now
        ≤ vec_len expressions.old + length symbols.now)
        × (length found.rest.now ≤ length symbols.now) × (found.depth ≤ depth + 1)) }
{
    let (count, rest) = bound(NUMBER_LIMIT - 1, symbols)?;
    let (inner, rest) = terminal(SymbolKind::Punctuator(Punctuator::LeftBrace), rest)?;
    let list = concatenation(expressions, depth, inner, rest)?;
    let rest = skip(SymbolKind::Punctuator(Punctuator::RightBrace), list.rest)?;
    let node = Expression::Replication {
        open: brace,
        count,
        list: list.place,
    };
    add_node(expressions, node, list.depth, rest)
}

/// A concatenation or a replication, from after its brace.
#[cycle(expression)]
#[tactic(auto, unfolding(crate::specs::Placing::braces_into))]
fn braces<'a>(
    expressions: &mut Vec<Expression>,
    depth: u32,
    brace: u32,
    symbols: &'a [Symbol],
) -> Result<Found<'a>, Stop>
    requires room { vec_len expressions.old + length symbols.now + 1 < 2 ^ 32 }
    requires limit { depth + 1 < 2 ^ 32 }
    ensures read { Gives (λ found. (
      found.place,
      found.depth,
      expressions.new.items,
      found.rest.now,
    )) result (braces_into (expr_into depth) brace expressions.old.items
        symbols.now) }
    ensures fits { IfOk result (λ found.
        (vec_len expressions.new + length found.rest.now
        ≤ vec_len expressions.old + length symbols.now)
        × (length found.rest.now ≤ length symbols.now) × (found.depth ≤ depth + 1)) }
{
    if is_number_before(SymbolKind::Punctuator(Punctuator::LeftBrace), symbols) {
        replication(expressions, depth, brace, symbols)
    } else {
        concatenation(expressions, depth, brace, symbols)
    }
}

/// A literal without a size.
#[tactic(auto, unfolding(crate::specs::Placing::based_into))]
fn based<'a>(
    expressions: &mut Vec<Expression>,
    digits: u32,
    symbols: &'a [Symbol],
) -> Result<Found<'a>, Stop>
    requires { vec_len expressions.old < 2 ^ 32 }
    ensures read { Gives (λ found. (
      found.place,
      found.depth,
      expressions.new.items,
      found.rest.now,
    )) result (based_into digits expressions.old.items symbols.now) }
    ensures len { IfOk result (λ found. vec_len expressions.new ≡ vec_len expressions.old + 1) }
    ensures rest { IfOk result (λ found. found.rest.now ≡ symbols.now) }
    ensures depth { IfOk result (λ found. found.depth ≤ 1) }
{
    add_node(expressions, Expression::Based { digits }, 1, symbols)
}

/// An operand: a primary, or an operator of one operand with its own.
#[cycle(expression)]
#[tactic(auto, unfolding(crate::specs::Placing::operand_into, crate::specs::Placing::operand_by_into, crate::specs::Placing::based_into, crate::specs::Placing::unary_into))]
fn operand<'a>(
    expressions: &mut Vec<Expression>,
    depth: u32,
    symbols: &'a [Symbol],
) -> Result<Found<'a>, Stop>
    requires room { vec_len expressions.old + length symbols.now < 2 ^ 32 }
    requires limit { depth + 1 < 2 ^ 32 }
    ensures read { Gives (λ found. (
      found.place,
      found.depth,
      expressions.new.items,
      found.rest.now,
    )) result (operand_into (expr_into depth) expressions.old.items symbols.now) }
    ensures fits { IfOk result (λ found.
        (vec_len expressions.new + length found.rest.now
        ≤ vec_len expressions.old + length symbols.now)
        × (length found.rest.now < length symbols.now) × (found.depth ≤ depth + 1)) }
{
    let [first, rest @ ..] = symbols else {
        return Err(unexpected(symbols));
    };
    match first.kind {
        SymbolKind::Name => named(expressions, depth, first.place, rest),
        SymbolKind::Number(value) => number(expressions, value, first.place, rest),
        SymbolKind::ShortBase => based(expressions, first.place, rest),
        SymbolKind::Punctuator(Punctuator::LeftParenthesis) => group(expressions, depth, rest),
        SymbolKind::Punctuator(Punctuator::LeftBrace) => {
            braces(expressions, depth, first.place, rest)
        }
        SymbolKind::Punctuator(sign) => match unary_of(sign) {
            Some(operator) => unary(expressions, depth, operator, first.place, rest),
            None => Err(unexpected(symbols)),
        },
        _ => Err(no_operand(symbols)),
    }
}

// ---- operators of two operands, and `?:`

/// An operator and its right operand, after its left one, which nests at most so deep.
#[cycle(expression)]
#[tactic(auto, unfolding(crate::specs::Placing::binary_into))]
fn binary<'a>(
    expressions: &mut Vec<Expression>,
    depth: u32,
    operator: BinaryOperator,
    left: Found<'a>,
) -> Result<Found<'a>, Stop>
    requires room { vec_len expressions.old + length left.rest.now < 2 ^ 32 }
    requires limit { depth + 1 < 2 ^ 32 }
    ensures read { Gives (λ found. (
      found.place,
      found.depth,
      expressions.new.items,
      found.rest.now,
    )) result (binary_into (expr_into depth) depth operator left.entry.place
        left.entry.depth expressions.old.items left.entry.rest.now) }
    ensures fits { IfOk result (λ found.
        (vec_len expressions.new + length found.rest.now
        ≤ vec_len expressions.old + length left.entry.rest.now)
        × (length found.rest.now < length left.entry.rest.now) × (found.depth ≤ depth + 1)) }
{
    let [sign, rest @ ..] = left.rest else {
        return Err(unexpected(left.rest));
    };
    if left.depth > depth {
        return Err(Stop::TooDeep(left.rest.len()));
    }
    let right = expression_at(expressions, depth, level(operator) + 1, rest)?;
    let node = Expression::Binary {
        operator,
        place: sign.place,
        left: left.place,
        right: right.place,
    };
    let nesting = left.depth.max(right.depth) + 1;
    add_node(expressions, node, nesting, right.rest)
}

/// The operators that bind at least so tightly, with their right operands, from left to right.
#[cycle(expression)]
fn more<'a>(
    expressions: &mut Vec<Expression>,
    depth: u32,
    least: u8,
    first: Found<'a>,
) -> Result<Found<'a>, Stop>
    requires room { vec_len expressions.old + length first.rest.now < 2 ^ 32 }
    requires limit { depth + 1 < 2 ^ 32 }
    requires within { first.depth ≤ depth + 1 }
    ensures read { Gives (λ found. (
      found.place,
      found.depth,
      expressions.new.items,
      found.rest.now,
    )) result (more_into (expr_into depth) depth (length first.entry.rest.now)
        least first.entry.place first.entry.depth expressions.old.items first.entry.rest.now) }
    ensures fits { IfOk result (λ found.
        (vec_len expressions.new + length found.rest.now
        ≤ vec_len expressions.old + length first.entry.rest.now)
        × (length found.rest.now ≤ length first.entry.rest.now) × (found.depth ≤ depth + 1)) }
{
    let mut left = first;
    while let Some(operator) = binding(least, left.rest) {
        left = binary(expressions, depth, operator, left)?;
    }
    Ok(left)
}

/// `?:` and its arms, after its condition, which nests at most so deep.
#[cycle(expression)]
#[tactic(auto, unfolding(crate::specs::Placing::conditional_into))]
fn conditional<'a>(
    expressions: &mut Vec<Expression>,
    depth: u32,
    condition: Found<'a>,
) -> Result<Found<'a>, Stop>
    requires room { vec_len expressions.old + length condition.rest.now < 2 ^ 32 }
    requires limit { depth + 1 < 2 ^ 32 }
    ensures read { Gives (λ found. (
      found.place,
      found.depth,
      expressions.new.items,
      found.rest.now,
    )) result (conditional_into (expr_into depth) depth condition.entry.place
        condition.entry.depth expressions.old.items condition.entry.rest.now) }
    ensures fits { IfOk result (λ found.
        (vec_len expressions.new + length found.rest.now
        ≤ vec_len expressions.old + length condition.entry.rest.now)
        × (length found.rest.now < length condition.entry.rest.now) × (found.depth ≤ depth + 1)) }
{
    if condition.depth > depth {
        return Err(Stop::TooDeep(condition.rest.len()));
    }
    let rest = skip(
        SymbolKind::Punctuator(Punctuator::Conditional),
        condition.rest,
    )?;
    let first = expression_at(expressions, depth, 0, rest)?;
    let rest = skip(SymbolKind::Punctuator(Punctuator::Colon), first.rest)?;
    let second = expression_at(expressions, depth, 0, rest)?;
    let node = Expression::Conditional {
        condition: condition.place,
        first: first.place,
        second: second.place,
    };
    let nesting = condition.depth.max(first.depth.max(second.depth)) + 1;
    add_node(expressions, node, nesting, second.rest)
}

/// An operand, the operators after it, and `?:` after them.
#[cycle(expression)]
#[tactic(auto, unfolding(crate::specs::Placing::chain_into, crate::specs::Placing::choice_into))]
fn chain<'a>(
    expressions: &mut Vec<Expression>,
    depth: u32,
    least: u8,
    symbols: &'a [Symbol],
) -> Result<Found<'a>, Stop>
    requires room { vec_len expressions.old + length symbols.now < 2 ^ 32 }
    requires limit { depth + 1 < 2 ^ 32 }
    ensures read { Gives (λ found. (
      found.place,
      found.depth,
      expressions.new.items,
      found.rest.now,
    )) result (chain_into (expr_into depth) depth least expressions.old.items
        symbols.now) }
    ensures fits { IfOk result (λ found.
        (vec_len expressions.new + length found.rest.now
        ≤ vec_len expressions.old + length symbols.now)
        × (length found.rest.now < length symbols.now) × (found.depth ≤ depth + 1)) }
{
    let first = operand(expressions, depth, symbols)?;
    let left = more(expressions, depth, least, first)?;
    if is_choice(least, left.rest) {
        conditional(expressions, depth, left)
    } else {
        Ok(left)
    }
}

/// An expression that nests at most so deep, and whose operators bind at least so tightly.
#[cycle(expression)]
fn expression_at<'a>(
    expressions: &mut Vec<Expression>,
    depth: u32,
    least: u8,
    symbols: &'a [Symbol],
) -> Result<Found<'a>, Stop>
    requires room { vec_len expressions.old + length symbols.now < 2 ^ 32 }
    ensures read { Gives (λ found. (
      found.place,
      found.depth,
      expressions.new.items,
      found.rest.now,
    )) result (expr_into depth least expressions.old.items symbols.now) }
    ensures fits { IfOk result (λ found.
        (vec_len expressions.new + length found.rest.now
        ≤ vec_len expressions.old + length symbols.now)
        × (length found.rest.now < length symbols.now) × (found.depth ≤ depth)) }
{
    if depth == 0 {
        return Err(Stop::TooDeep(symbols.len() + 1));
    }
    chain(expressions, depth - 1, least, symbols)
}

// ---- the whole

/// An expression that nests at most so deep: the place of the whole in the list, how deep it nests, and what follows.
/// It is refused at the first symbol with which no expression goes on, or at the operator or bracket that is nested too
/// deep.
pub fn expression<'a>(
    expressions: &mut Vec<Expression>,
    depth: u32,
    symbols: &'a [Symbol],
) -> Result<Found<'a>, Stop>
    requires room { vec_len expressions.old + length symbols.now < 2 ^ 32 }
    ensures read { Gives (λ found. (
      found.place,
      found.depth,
      expressions.new.items,
      found.rest.now,
    )) result (expr_into depth 0 expressions.old.items symbols.now) }
    ensures found { IfOk result (λ found. (e : Expr)
        × IsExpressionOf depth expressions.old.items symbols.now
        (found.place, found.depth, expressions.new.items, found.rest.now) e) }
    ensures none { IfErr result (λ stop. (stop ≡ NoMemory) ⊎ NoExpression depth symbols.now) }
    ensures lighter { IfOk result (λ found. vec_len expressions.new + length found.rest.now
        ≤ vec_len expressions.old + length symbols.now) }
    ensures shorter { IfOk result (λ found. length found.rest.now < length symbols.now) }
    ensures depth { IfOk result (λ found. found.depth ≤ depth) }
{
    expression_at(expressions, depth, 0, symbols)
}

/// What is selected of a named object, from after its name: nothing, or what brackets say. An index nests at most
/// so deep (5.2.1).
pub fn selection<'a>(
    expressions: &mut Vec<Expression>,
    depth: u32,
    symbols: &'a [Symbol],
) -> Result<Selected<'a>, Stop>
    requires room { vec_len expressions.old + length symbols.now < 2 ^ 32 }
    ensures read { Gives (λ found. (
      found.selection,
      found.depth,
      expressions.new.items,
      found.rest.now,
    )) result (selection_into depth expressions.old.items symbols.now) }
    ensures found { IfOk result (λ found. (s : SelectionRead)
        × IsSelectionOf depth expressions.old.items symbols.now
        (found.selection, found.depth, expressions.new.items, found.rest.now) s) }
    ensures none { IfErr result (λ stop. (stop ≡ NoMemory) ⊎ NoSelection depth symbols.now) }
    ensures lighter { IfOk result (λ found. vec_len expressions.new + length found.rest.now
        ≤ vec_len expressions.old + length symbols.now) }
    ensures no_longer { IfOk result (λ found. length found.rest.now ≤ length symbols.now) }
    ensures depth { IfOk result (λ found. found.depth ≤ depth) }
{
    select(expressions, depth, symbols)
}
