// Expressions in statements, read from left to right.
ghost use Rattle.std.specs.Prelude.{◌≡◌, ◌<◌, ◌≤◌, ◌+◌, ◌^◌, ◌++◌, ◌⊎◌, length, IfErr, IfOk, OnOk, vec_len};
ghost use Rattle.vp_parse_expr.specs.declared.reading.Stop.TheVariants.{NoMemory};
ghost use Rattle.vp_parse_expr.specs.Meaning.{NoExpression};
ghost use Rattle.vp_source.specs.ExprGrammar.{Expr};
ghost use Rattle.vp_parse_stmt.specs.Meaning.{IsValueOf};
ghost use Rattle.vp_parse_expr.specs.Stopping.{Gives};
ghost use Rattle.vp_source.specs.StmtLayout.{choices_of};
ghost use Rattle.vp_parse_stmt.specs.Placing.{lists_in, value_into, further_label_into, further_labels_into, labels_into};
ghost use Rattle.vp_parse_stmt.specs.Weight.{weight};

use crate::arena::Arena;
use std::alloc::AllocError;
use vp_lex::Punctuator;
use vp_parse_expr::{Stop, expression, is_next, skip};
use vp_source::{Choice, Symbol, SymbolKind};

/// The expression with which symbols begin, which nests at most so deep, laid out after the parts of an arena: its place,
/// and what follows it.
#[tactic(auto, unfolding(crate::specs::Placing::value_into))]
pub fn value<'a>(
    arena: &mut Arena,
    limit: u32,
    symbols: &'a [Symbol],
) -> Result<(u32, &'a [Symbol]), Stop>
    requires { weight arena.old symbols.now < 2 ^ 32 }
    ensures read { Gives (λ found. (found.0, lists_in arena.new, found.1.now)) result
        (value_into limit (lists_in arena.old) symbols.now) }
    ensures found { IfOk result (λ found. (e : Expr)
        × IsValueOf limit (lists_in arena.old) symbols.now
        (found.0, lists_in arena.new, found.1.now) e) }
    ensures none { IfErr result (λ stop. (stop ≡ NoMemory) ⊎ NoExpression limit symbols.now) }
    ensures lighter { IfOk result (λ found. weight arena.new found.1.now
        < weight arena.old symbols.now) }
    ensures shorter { IfOk result (λ found. length found.1.now < length symbols.now) }
{
    let found = expression(&mut arena.expressions, limit, symbols)?;
    Ok((found.place, found.rest))
}

/// A label of an item of a case after others, from the comma before it on; and what follows.
#[tactic(auto, unfolding(crate::specs::Placing::further_label_into))]
fn further_label<'a>(
    arena: &mut Arena,
    limit: u32,
    labels: &mut Vec<u32>,
    symbols: &'a [Symbol],
) -> Result<&'a [Symbol], Stop>
    requires { weight arena.old symbols.now < 2 ^ 32 }
    ensures read { Gives (λ rest. (labels.new.items, lists_in arena.new, rest.now)) result
        (further_label_into limit labels.old.items (lists_in arena.old) symbols.now) }
    ensures lighter { IfOk result (λ rest. weight arena.new rest.now + vec_len labels.new
        ≤ weight arena.old symbols.now + vec_len labels.old) }
    ensures no_heavier { IfOk result
        (λ rest. weight arena.new rest.now ≤ weight arena.old symbols.now) }
    ensures shorter { IfOk result (λ rest. length rest.now < length symbols.now) }
{
    let rest = skip(SymbolKind::Punctuator(Punctuator::Comma), symbols)?;
    let (label, rest) = value(arena, limit, rest)?;
    labels.push(label)?;
    Ok(rest)
}

/// The labels of an item of a case after a first one, and what follows.
fn further_labels<'a>(
    arena: &mut Arena,
    limit: u32,
    labels: &mut Vec<u32>,
    symbols: &'a [Symbol],
) -> Result<&'a [Symbol], Stop>
    requires { weight arena.old symbols.now < 2 ^ 32 }
    ensures read { Gives (λ rest. (labels.new.items, lists_in arena.new, rest.now)) result
        (further_labels_into limit (length symbols.now) labels.old.items (lists_in arena.old)
        symbols.now) }
    ensures lighter { IfOk result (λ rest. weight arena.new rest.now + vec_len labels.new
        ≤ weight arena.old symbols.now + vec_len labels.old) }
    ensures no_longer { IfOk result (λ rest. length rest.now ≤ length symbols.now) }
{
    let mut rest = symbols;
    while is_next(SymbolKind::Punctuator(Punctuator::Comma), rest) {
        rest = further_label(arena, limit, labels, rest)?;
    }
    Ok(rest)
}

/// The places of the labels of an item of a case, which nest at most so deep, and what follows.
#[tactic(auto, unfolding(crate::specs::Placing::labels_into))]
pub fn labels<'a>(
    arena: &mut Arena,
    limit: u32,
    symbols: &'a [Symbol],
) -> Result<(Vec<u32>, &'a [Symbol]), Stop>
    requires { weight arena.old symbols.now < 2 ^ 32 }
    ensures read { Gives (λ found. (found.0.items, lists_in arena.new, found.1.now)) result
        (labels_into limit (lists_in arena.old) symbols.now) }
    ensures lighter { IfOk result (λ found. weight arena.new found.1.now + vec_len found.0
        ≤ weight arena.old symbols.now) }
    ensures shorter { IfOk result (λ found. length found.1.now < length symbols.now) }
{
    let (first, rest) = value(arena, limit, symbols)?;
    let mut labels = Vec::new(*arena.statements.allocator());
    labels.push(first)?;
    let rest = further_labels(arena, limit, &mut labels, rest)?;
    Ok((labels, rest))
}

/// A choice for each label, of the same statement, after other choices.
pub fn add_choices_of(
    choices: &mut Vec<Choice>,
    labels: &[u32],
    body: u32,
) -> Result<(), AllocError>
    ensures added { OnOk result (choices.new.items ≡ choices.old.items
        ++ choices_of labels.now body) }
    ensures len { OnOk result (vec_len choices.new ≡ vec_len choices.old + length labels.now) }
{
    for label in labels {
        let label = Some(*label);
        choices.push(Choice { label, body })?;
    }
    Ok(())
}
