// Statements, read from left to right (docs/FORMATS.md, "Grammar").
ghost use Rattle.std.specs.Prelude.{◌≡◌, ◌<◌, ◌≤◌, ◌+◌, ◌^◌, ◌⊎◌, ◌∷◌, length, IfErr, IfOk, OnErr, vec_len};
ghost use Rattle.vp_parse_expr.specs.declared.reading.Stop.TheVariants.{NoMemory};
ghost use Rattle.vp_parse_expr.specs.Meaning.{NoTerminal};
ghost use Rattle.vp_source.specs.Kinds.{symbol_at};
ghost use Rattle.vp_source.specs.StmtGrammar.{Stmt};
ghost use Rattle.vp_parse_stmt.specs.Meaning.{IsStatementOf, NoStatement};
ghost use Rattle.vp_source.specs.declared.symbol.SymbolKind.TheVariants.{Name};
ghost use Rattle.vp_parse_expr.specs.Stopping.{Gives, stop_told, terminal};
ghost use Rattle.vp_source.specs.StmtLayout.{awaited as awaited_by};
ghost use Rattle.vp_parse_stmt.specs.Placing.{lists_in, value_into, blocking_into, assign_into, nonblocking_into, assignment_into, delayed_into, awaited_into, stmts_into, block_into, condition_into, guarded_into, wait_into, while_into, forever_into, named_blocking_into, heading_into, for_into, second_into, else_into, if_into, argument_into, finish_into, labels_item_into, colon_into, default_item_into, item_into, further_items_into, items_into, case_into, form_into, stmt_into};
ghost use Rattle.vp_parse_stmt.specs.Reading.{goes_on as more, is_default as default_is_next, items_go_on as more_items, may_still as still};
ghost use Rattle.vp_parse_stmt.specs.Weight.{weight};

use crate::arena::{Arena, add_statement, lay_choices};
use crate::delay::{after_delay, after_hold, delay, hold, number};
use crate::event::event;
use crate::values::{add_choices_of, labels, value};
use vp_lex::{Keyword, Punctuator};
use vp_parse_expr::{Stop, is_kind, is_next, name, selection, skip, unexpected};
use vp_source::{Choice, Selection, Span, Statement, Symbol, SymbolKind};

/// What a target is to have, from after what is selected of it, as a blocking assignment.
#[tactic(auto, unfolding(crate::specs::Placing::blocking_into))]
fn blocking<'a>(
    arena: &mut Arena,
    limit: u32,
    target: u32,
    selection: Selection,
    symbols: &'a [Symbol],
) -> Result<(u32, &'a [Symbol]), Stop>
    requires { weight arena.old symbols.now < 2 ^ 32 }
    ensures read { Gives (λ found. (found.0, lists_in arena.new, found.1.now)) result
        (blocking_into limit target selection (lists_in arena.old) symbols.now) }
    ensures lighter { IfOk result (λ found. weight arena.new found.1.now
        < weight arena.old symbols.now) }
    ensures shorter { IfOk result (λ found. length found.1.now < length symbols.now) }
{
    let rest = skip(SymbolKind::Punctuator(Punctuator::Equals), symbols)?;
    let (value, rest) = value(arena, limit, rest)?;
    let assign = Statement::Assign {
        target,
        selection,
        value,
    };
    Ok((add_statement(&mut arena.statements, assign)?, rest))
}

/// A blocking assignment, from after what is selected of its target.
#[tactic(auto, unfolding(crate::specs::Placing::assign_into))]
fn assign<'a>(
    arena: &mut Arena,
    limit: u32,
    target: u32,
    selection: Selection,
    symbols: &'a [Symbol],
) -> Result<(u32, &'a [Symbol]), Stop>
    requires { weight arena.old symbols.now < 2 ^ 32 }
    ensures read { Gives (λ found. (found.0, lists_in arena.new, found.1.now)) result
        (assign_into limit target selection (lists_in arena.old) symbols.now) }
    ensures lighter { IfOk result (λ found. weight arena.new found.1.now
        < weight arena.old symbols.now) }
    ensures shorter { IfOk result (λ found. length found.1.now < length symbols.now) }
{
    let (assign, rest) = blocking(arena, limit, target, selection, symbols)?;
    let rest = skip(SymbolKind::Punctuator(Punctuator::Semicolon), rest)?;
    Ok((assign, rest))
}

/// A nonblocking assignment, from after what is selected of its target.
#[tactic(auto, unfolding(crate::specs::Placing::nonblocking_into))]
fn nonblocking<'a>(
    arena: &mut Arena,
    limit: u32,
    target: u32,
    selection: Selection,
    symbols: &'a [Symbol],
) -> Result<(u32, &'a [Symbol]), Stop>
    requires { weight arena.old symbols.now < 2 ^ 32 }
    ensures read { Gives (λ found. (found.0, lists_in arena.new, found.1.now)) result
        (nonblocking_into limit target selection (lists_in arena.old) symbols.now) }
    ensures lighter { IfOk result (λ found. weight arena.new found.1.now
        < weight arena.old symbols.now) }
    ensures shorter { IfOk result (λ found. length found.1.now < length symbols.now) }
{
    let held = skip(SymbolKind::Punctuator(Punctuator::LessOrEqual), symbols)?;
    let (delay, after) = hold(held)?;
    let (value, rest) = match value(arena, limit, after) {
        Ok(found) => found,
        Err(stop) => return Err(after_hold(stop, held, after)),
    };
    let rest = match skip(SymbolKind::Punctuator(Punctuator::Semicolon), rest) {
        Ok(rest) => rest,
        Err(stop) => return Err(after_hold(stop, held, after)),
    };
    let assign = Statement::Nonblocking {
        target,
        selection,
        value,
        delay,
    };
    Ok((add_statement(&mut arena.statements, assign)?, rest))
}

/// An assignment, from after the name of its target, with expressions that nest at most so deep.
#[tactic(auto, unfolding(crate::specs::Placing::assignment_into, crate::specs::Placing::set_into))]
fn assignment<'a>(
    arena: &mut Arena,
    limit: u32,
    target: u32,
    symbols: &'a [Symbol],
) -> Result<(u32, &'a [Symbol]), Stop>
    requires { weight arena.old symbols.now < 2 ^ 32 }
    ensures read { Gives (λ found. (found.0, lists_in arena.new, found.1.now)) result
        (assignment_into limit target (lists_in arena.old) symbols.now) }
    ensures lighter { IfOk result (λ found. weight arena.new found.1.now
        < weight arena.old symbols.now) }
    ensures shorter { IfOk result (λ found. length found.1.now < length symbols.now) }
{
    let selected = selection(&mut arena.expressions, limit.saturating_sub(1), symbols)?;
    if is_next(
        SymbolKind::Punctuator(Punctuator::LessOrEqual),
        selected.rest,
    ) {
        nonblocking(arena, limit, target, selected.selection, selected.rest)
    } else {
        assign(arena, limit, target, selected.selection, selected.rest)
    }
}

/// A block goes on: it is neither at its `end` nor at the end of the text.
fn goes_on(symbols: &[Symbol]) -> bool
    ensures { result ≡ more symbols.now }
{
    match symbols {
        [first, ..] => !is_kind(SymbolKind::Keyword(Keyword::End), first.kind),
        [] => false,
    }
}

/// The statements of a block, up to its `end`.
#[cycle(statement)]
fn list<'a>(
    arena: &mut Arena,
    limit: u32,
    depth: u32,
    symbols: &'a [Symbol],
) -> Result<(u32, &'a [Symbol]), Stop>
    requires { weight arena.old symbols.now + 1 < 2 ^ 32 }
    ensures read { Gives (λ found. (found.0, lists_in arena.new, found.1.now)) result
        (stmts_into (stmt_into limit depth) (lists_in arena.old) symbols.now) }
    ensures lighter { IfOk result (λ found. weight arena.new found.1.now
        ≤ weight arena.old symbols.now + 1) }
    ensures no_longer { IfOk result (λ found. length found.1.now ≤ length symbols.now) }
{
    let mut so_far = add_statement(&mut arena.statements, Statement::Empty)?;
    let mut rest = symbols;
    while goes_on(rest) {
        let (last, after) = statement_at(arena, limit, depth, rest)?;
        let then = Statement::Then { list: so_far, last };
        so_far = add_statement(&mut arena.statements, then)?;
        rest = after;
    }
    Ok((so_far, rest))
}

/// A block, from after its `begin`.
#[cycle(statement)]
#[tactic(auto, unfolding(crate::specs::Placing::block_into))]
fn block<'a>(
    arena: &mut Arena,
    limit: u32,
    depth: u32,
    symbols: &'a [Symbol],
) -> Result<(u32, &'a [Symbol]), Stop>
    requires { weight arena.old symbols.now + 1 < 2 ^ 32 }
    ensures read { Gives (λ found. (found.0, lists_in arena.new, found.1.now)) result
        (block_into (stmt_into limit depth) (lists_in arena.old) symbols.now) }
    ensures lighter { IfOk result (λ found. weight arena.new found.1.now
        < weight arena.old symbols.now) }
    ensures shorter { IfOk result (λ found. length found.1.now < length symbols.now) }
{
    let (body, rest) = list(arena, limit, depth, symbols)?;
    let rest = skip(SymbolKind::Keyword(Keyword::End), rest)?;
    Ok((body, rest))
}

/// A statement after a delay, from after its `#`.
#[cycle(statement)]
#[tactic(auto, unfolding(crate::specs::Placing::delayed_into))]
fn delayed<'a>(
    arena: &mut Arena,
    limit: u32,
    depth: u32,
    symbols: &'a [Symbol],
) -> Result<(u32, &'a [Symbol]), Stop>
    requires { weight arena.old symbols.now < 2 ^ 32 }
    ensures read { Gives (λ found. (found.0, lists_in arena.new, found.1.now)) result
        (delayed_into (stmt_into limit depth) (lists_in arena.old) symbols.now) }
    ensures lighter { IfOk result (λ found. weight arena.new found.1.now
        < weight arena.old symbols.now) }
    ensures shorter { IfOk result (λ found. length found.1.now < length symbols.now) }
{
    let (amount, after) = delay(symbols)?;
    let (body, rest) = match statement_at(arena, limit, depth, after) {
        Ok(found) => found,
        Err(stop) => return Err(after_delay(stop, symbols, after)),
    };
    let delayed = Statement::Delay { amount, body };
    Ok((add_statement(&mut arena.statements, delayed)?, rest))
}

/// A statement that waits for an event: where the terms of the event lie, or none where any change counts.
fn awaited(terms: Option<Span>, body: u32) -> Statement
    ensures { result ≡ awaited_by terms body }
{
    match terms {
        Some(terms) => Statement::Event { terms, body },
        None => Statement::AnyEvent { body },
    }
}

/// A statement after an event, from after its `@`.
#[cycle(statement)]
#[tactic(auto, unfolding(crate::specs::Placing::awaited_into))]
fn at_event<'a>(
    arena: &mut Arena,
    limit: u32,
    depth: u32,
    symbols: &'a [Symbol],
) -> Result<(u32, &'a [Symbol]), Stop>
    requires { weight arena.old symbols.now < 2 ^ 32 }
    ensures read { Gives (λ found. (found.0, lists_in arena.new, found.1.now)) result
        (awaited_into (stmt_into limit depth) (lists_in arena.old) symbols.now) }
    ensures lighter { IfOk result (λ found. weight arena.new found.1.now
        < weight arena.old symbols.now) }
    ensures shorter { IfOk result (λ found. length found.1.now < length symbols.now) }
{
    let (terms, rest) = event(&mut arena.terms, symbols)?;
    let (body, rest) = statement_at(arena, limit, depth, rest)?;
    Ok((
        add_statement(&mut arena.statements, awaited(terms, body))?,
        rest,
    ))
}

/// An expression in parentheses, which nests at most so deep.
#[tactic(auto, unfolding(crate::specs::Placing::condition_into))]
fn condition<'a>(
    arena: &mut Arena,
    limit: u32,
    symbols: &'a [Symbol],
) -> Result<(u32, &'a [Symbol]), Stop>
    requires { weight arena.old symbols.now < 2 ^ 32 }
    ensures read { Gives (λ found. (found.0, lists_in arena.new, found.1.now)) result
        (condition_into limit (lists_in arena.old) symbols.now) }
    ensures lighter { IfOk result (λ found. weight arena.new found.1.now + 1
        < weight arena.old symbols.now) }
    ensures shorter { IfOk result (λ found. length found.1.now < length symbols.now) }
{
    let rest = skip(SymbolKind::Punctuator(Punctuator::LeftParenthesis), symbols)?;
    let (value, rest) = value(arena, limit, rest)?;
    let rest = skip(SymbolKind::Punctuator(Punctuator::RightParenthesis), rest)?;
    Ok((value, rest))
}

/// An expression in parentheses and the statement after it: the places of both, and what follows.
#[cycle(statement)]
#[tactic(auto, unfolding(crate::specs::Placing::guarded_into))]
fn guarded<'a>(
    arena: &mut Arena,
    limit: u32,
    depth: u32,
    symbols: &'a [Symbol],
) -> Result<(u32, u32, &'a [Symbol]), Stop>
    requires { weight arena.old symbols.now < 2 ^ 32 }
    ensures read { Gives (λ found. (found.0, found.1, lists_in arena.new, found.2.now)) result
        (guarded_into limit (stmt_into limit depth) (lists_in arena.old) symbols.now) }
    ensures lighter { IfOk result (λ found. weight arena.new found.2.now + 1
        < weight arena.old symbols.now) }
    ensures shorter { IfOk result (λ found. length found.2.now < length symbols.now) }
{
    let (condition, rest) = condition(arena, limit, symbols)?;
    let (body, rest) = statement_at(arena, limit, depth, rest)?;
    Ok((condition, body, rest))
}

/// A wait, from after its keyword.
#[cycle(statement)]
#[tactic(auto, unfolding(crate::specs::Placing::wait_into))]
fn wait<'a>(
    arena: &mut Arena,
    limit: u32,
    depth: u32,
    symbols: &'a [Symbol],
) -> Result<(u32, &'a [Symbol]), Stop>
    requires { weight arena.old symbols.now < 2 ^ 32 }
    ensures read { Gives (λ found. (found.0, lists_in arena.new, found.1.now)) result
        (wait_into limit (stmt_into limit depth) (lists_in arena.old) symbols.now) }
    ensures lighter { IfOk result (λ found. weight arena.new found.1.now
        < weight arena.old symbols.now) }
    ensures shorter { IfOk result (λ found. length found.1.now < length symbols.now) }
{
    let (condition, body, rest) = guarded(arena, limit, depth, symbols)?;
    let wait = Statement::Wait { condition, body };
    Ok((add_statement(&mut arena.statements, wait)?, rest))
}

/// A while, from after its keyword.
#[cycle(statement)]
#[tactic(auto, unfolding(crate::specs::Placing::while_into))]
fn while_true<'a>(
    arena: &mut Arena,
    limit: u32,
    depth: u32,
    symbols: &'a [Symbol],
) -> Result<(u32, &'a [Symbol]), Stop>
    requires { weight arena.old symbols.now < 2 ^ 32 }
    ensures read { Gives (λ found. (found.0, lists_in arena.new, found.1.now)) result
        (while_into limit (stmt_into limit depth) (lists_in arena.old) symbols.now) }
    ensures lighter { IfOk result (λ found. weight arena.new found.1.now
        < weight arena.old symbols.now) }
    ensures shorter { IfOk result (λ found. length found.1.now < length symbols.now) }
{
    let (condition, body, rest) = guarded(arena, limit, depth, symbols)?;
    let again = Statement::While {
        condition,
        body,
        step: None,
    };
    Ok((add_statement(&mut arena.statements, again)?, rest))
}

/// A forever, from after its keyword.
#[cycle(statement)]
#[tactic(auto, unfolding(crate::specs::Placing::forever_into))]
fn forever<'a>(
    arena: &mut Arena,
    limit: u32,
    depth: u32,
    symbols: &'a [Symbol],
) -> Result<(u32, &'a [Symbol]), Stop>
    requires { weight arena.old symbols.now < 2 ^ 32 }
    ensures read { Gives (λ found. (found.0, lists_in arena.new, found.1.now)) result
        (forever_into (stmt_into limit depth) (lists_in arena.old) symbols.now) }
    ensures lighter { IfOk result (λ found. weight arena.new found.1.now
        ≤ weight arena.old symbols.now) }
    ensures shorter { IfOk result (λ found. length found.1.now < length symbols.now) }
{
    let (body, rest) = statement_at(arena, limit, depth, symbols)?;
    let again = Statement::Forever { body };
    Ok((add_statement(&mut arena.statements, again)?, rest))
}

/// Where no target begins: a concatenation that begins there is left out.
fn no_target(stop: Stop, symbols: &[Symbol]) -> Stop
    ensures { stop_told result ≡ stop_told stop }
{
    match (stop, symbols) {
        (
            Stop::Syntax(left),
            [
                Symbol {
                    kind: SymbolKind::Punctuator(Punctuator::LeftBrace),
                    ..
                },
                ..
            ],
        ) => Stop::LeftOut(left),
        _ => stop,
    }
}

/// The place of the name with which a target begins, and what follows; a concatenation is left out.
pub fn target(symbols: &[Symbol]) -> Result<(u32, &[Symbol]), Stop>
    ensures read { Gives (λ found. (found.0, found.1.now)) result (terminal Name symbols.now) }
    ensures found { IfOk result (λ found. symbols.now ≡ symbol_at Name found.0 ∷ found.1.now) }
    ensures none { OnErr result (NoTerminal Name symbols.now) }
    ensures shorter { IfOk result (λ found. length found.1.now + 1 ≡ length symbols.now) }
{
    match name(symbols) {
        Ok(found) => Ok(found),
        Err(stop) => Err(no_target(stop, symbols)),
    }
}

/// A target and what it is to have, as a blocking assignment, with expressions that nest at most so deep.
#[tactic(auto, unfolding(crate::specs::Placing::named_blocking_into))]
fn named_blocking<'a>(
    arena: &mut Arena,
    limit: u32,
    symbols: &'a [Symbol],
) -> Result<(u32, &'a [Symbol]), Stop>
    requires { weight arena.old symbols.now < 2 ^ 32 }
    ensures read { Gives (λ found. (found.0, lists_in arena.new, found.1.now)) result
        (named_blocking_into limit (lists_in arena.old) symbols.now) }
    ensures lighter { IfOk result (λ found. weight arena.new found.1.now
        < weight arena.old symbols.now) }
    ensures shorter { IfOk result (λ found. length found.1.now < length symbols.now) }
{
    let (target, rest) = target(symbols)?;
    let selected = selection(&mut arena.expressions, limit.saturating_sub(1), rest)?;
    blocking(arena, limit, target, selected.selection, selected.rest)
}

/// What stands in the parentheses of a `for`: the places of its start, its condition and its step, and what follows.
#[tactic(auto, unfolding(crate::specs::Placing::heading_into))]
fn heading<'a>(
    arena: &mut Arena,
    limit: u32,
    symbols: &'a [Symbol],
) -> Result<(u32, u32, u32, &'a [Symbol]), Stop>
    requires { weight arena.old symbols.now < 2 ^ 32 }
    ensures read { Gives (λ found. (found.0, found.1, found.2, lists_in arena.new, found.3.now))
        result (heading_into limit (lists_in arena.old) symbols.now) }
    ensures lighter { IfOk result (λ found. weight arena.new found.3.now + 1
        < weight arena.old symbols.now) }
    ensures shorter { IfOk result (λ found. length found.3.now < length symbols.now) }
{
    let rest = skip(SymbolKind::Punctuator(Punctuator::LeftParenthesis), symbols)?;
    let (start, rest) = named_blocking(arena, limit, rest)?;
    let rest = skip(SymbolKind::Punctuator(Punctuator::Semicolon), rest)?;
    let (condition, rest) = value(arena, limit, rest)?;
    let rest = skip(SymbolKind::Punctuator(Punctuator::Semicolon), rest)?;
    let (step, rest) = named_blocking(arena, limit, rest)?;
    let rest = skip(SymbolKind::Punctuator(Punctuator::RightParenthesis), rest)?;
    Ok((start, condition, step, rest))
}

/// A `for`, from after its keyword.
#[cycle(statement)]
#[tactic(auto, unfolding(crate::specs::Placing::for_into))]
fn for_loop<'a>(
    arena: &mut Arena,
    limit: u32,
    depth: u32,
    symbols: &'a [Symbol],
) -> Result<(u32, &'a [Symbol]), Stop>
    requires { weight arena.old symbols.now < 2 ^ 32 }
    ensures read { Gives (λ found. (found.0, lists_in arena.new, found.1.now)) result
        (for_into limit (stmt_into limit depth) (lists_in arena.old) symbols.now) }
    ensures lighter { IfOk result (λ found. weight arena.new found.1.now
        < weight arena.old symbols.now) }
    ensures shorter { IfOk result (λ found. length found.1.now < length symbols.now) }
{
    let (start, condition, step, rest) = heading(arena, limit, symbols)?;
    let (body, rest) = statement_at(arena, limit, depth, rest)?;
    let again = Statement::While {
        condition,
        body,
        step: Some(step),
    };
    let turns = add_statement(&mut arena.statements, again)?;
    let whole = Statement::For { start, turns };
    Ok((add_statement(&mut arena.statements, whole)?, rest))
}

/// What an `if` does where its condition is not true, from its `else` on.
#[cycle(statement)]
#[tactic(auto, unfolding(crate::specs::Placing::second_into))]
fn second<'a>(
    arena: &mut Arena,
    limit: u32,
    depth: u32,
    condition: u32,
    first: u32,
    symbols: &'a [Symbol],
) -> Result<(u32, &'a [Symbol]), Stop>
    requires { weight arena.old symbols.now < 2 ^ 32 }
    ensures read { Gives (λ found. (found.0, lists_in arena.new, found.1.now)) result
        (second_into (stmt_into limit depth) condition first (lists_in arena.old) symbols.now) }
    ensures lighter { IfOk result (λ found. weight arena.new found.1.now
        ≤ weight arena.old symbols.now) }
    ensures no_longer { IfOk result (λ found. length found.1.now ≤ length symbols.now) }
{
    let rest = skip(SymbolKind::Keyword(Keyword::Else), symbols)?;
    let (second, rest) = statement_at(arena, limit, depth, rest)?;
    let choice = Statement::If {
        condition,
        first,
        second: Some(second),
    };
    Ok((add_statement(&mut arena.statements, choice)?, rest))
}

/// An `if` after its first statement: it takes an `else` that is next.
#[cycle(statement)]
#[tactic(auto, unfolding(crate::specs::Placing::else_into))]
fn otherwise<'a>(
    arena: &mut Arena,
    limit: u32,
    depth: u32,
    condition: u32,
    first: u32,
    symbols: &'a [Symbol],
) -> Result<(u32, &'a [Symbol]), Stop>
    requires { weight arena.old symbols.now < 2 ^ 32 }
    ensures read { Gives (λ found. (found.0, lists_in arena.new, found.1.now)) result
        (else_into (stmt_into limit depth) condition first (lists_in arena.old) symbols.now) }
    ensures lighter { IfOk result (λ found. weight arena.new found.1.now
        ≤ weight arena.old symbols.now + 1) }
    ensures no_longer { IfOk result (λ found. length found.1.now ≤ length symbols.now) }
{
    if is_next(SymbolKind::Keyword(Keyword::Else), symbols) {
        return second(arena, limit, depth, condition, first, symbols);
    }
    let choice = Statement::If {
        condition,
        first,
        second: None,
    };
    Ok((add_statement(&mut arena.statements, choice)?, symbols))
}

/// An `if`, from after its keyword.
#[cycle(statement)]
#[tactic(auto, unfolding(crate::specs::Placing::if_into))]
fn conditional<'a>(
    arena: &mut Arena,
    limit: u32,
    depth: u32,
    symbols: &'a [Symbol],
) -> Result<(u32, &'a [Symbol]), Stop>
    requires { weight arena.old symbols.now < 2 ^ 32 }
    ensures read { Gives (λ found. (found.0, lists_in arena.new, found.1.now)) result
        (if_into limit (stmt_into limit depth) (lists_in arena.old) symbols.now) }
    ensures lighter { IfOk result (λ found. weight arena.new found.1.now
        < weight arena.old symbols.now) }
    ensures shorter { IfOk result (λ found. length found.1.now < length symbols.now) }
{
    let (condition, first, rest) = guarded(arena, limit, depth, symbols)?;
    otherwise(arena, limit, depth, condition, first, rest)
}

/// What follows an argument, if it is next.
#[tactic(auto, unfolding(crate::specs::Placing::argument_into, crate::specs::Placing::given_into))]
fn after_argument(symbols: &[Symbol]) -> Result<&[Symbol], Stop>
    ensures read { Gives (λ rest. rest.now) result (argument_into symbols.now) }
    ensures no_longer { IfOk result (λ rest. length rest.now ≤ length symbols.now) }
{
    if !is_next(SymbolKind::Punctuator(Punctuator::LeftParenthesis), symbols) {
        return Ok(symbols);
    }
    let rest = skip(SymbolKind::Punctuator(Punctuator::LeftParenthesis), symbols)?;
    let (_, rest) = number(rest)?;
    skip(SymbolKind::Punctuator(Punctuator::RightParenthesis), rest)
}

/// The end of a simulation, from after its name.
#[tactic(auto, unfolding(crate::specs::Placing::finish_into))]
fn finish<'a>(arena: &mut Arena, symbols: &'a [Symbol]) -> Result<(u32, &'a [Symbol]), Stop>
    requires { weight arena.old symbols.now < 2 ^ 32 }
    ensures read { Gives (λ found. (found.0, lists_in arena.new, found.1.now)) result
        (finish_into (lists_in arena.old) symbols.now) }
    ensures lighter { IfOk result (λ found. weight arena.new found.1.now
        < weight arena.old symbols.now) }
    ensures shorter { IfOk result (λ found. length found.1.now < length symbols.now) }
{
    let rest = after_argument(symbols)?;
    let rest = skip(SymbolKind::Punctuator(Punctuator::Semicolon), rest)?;
    Ok((
        add_statement(&mut arena.statements, Statement::Finish)?,
        rest,
    ))
}

/// An item of a case with labels: its choices after others, and what follows.
#[cycle(statement)]
#[tactic(auto, unfolding(crate::specs::Placing::labels_item_into))]
fn labels_item<'a>(
    arena: &mut Arena,
    limit: u32,
    depth: u32,
    choices: &mut Vec<Choice>,
    symbols: &'a [Symbol],
) -> Result<&'a [Symbol], Stop>
    requires { weight arena.old symbols.now + vec_len choices.old < 2 ^ 32 }
    ensures read { Gives (λ rest. (choices.new.items, lists_in arena.new, rest.now)) result
        (labels_item_into limit (stmt_into limit depth) choices.old.items (lists_in arena.old)
        symbols.now) }
    ensures lighter { IfOk result (λ rest. weight arena.new rest.now + vec_len choices.new
        < weight arena.old symbols.now + vec_len choices.old) }
    ensures shorter { IfOk result (λ rest. length rest.now < length symbols.now) }
{
    let (labels, rest) = labels(arena, limit, symbols)?;
    let rest = skip(SymbolKind::Punctuator(Punctuator::Colon), rest)?;
    let (body, rest) = statement_at(arena, limit, depth, rest)?;
    add_choices_of(choices, labels.as_slice(), body)?;
    Ok(rest)
}

/// What follows a colon, if it is next.
#[tactic(auto, unfolding(crate::specs::Placing::colon_into))]
fn after_colon(symbols: &[Symbol]) -> Result<&[Symbol], Stop>
    ensures read { Gives (λ rest. rest.now) result (colon_into symbols.now) }
    ensures no_longer { IfOk result (λ rest. length rest.now ≤ length symbols.now) }
{
    if is_next(SymbolKind::Punctuator(Punctuator::Colon), symbols) {
        skip(SymbolKind::Punctuator(Punctuator::Colon), symbols)
    } else {
        Ok(symbols)
    }
}

/// An item of a case for anything else: its choice after others, and what follows.
#[cycle(statement)]
#[tactic(auto, unfolding(crate::specs::Placing::default_item_into))]
fn default_item<'a>(
    arena: &mut Arena,
    limit: u32,
    depth: u32,
    choices: &mut Vec<Choice>,
    symbols: &'a [Symbol],
) -> Result<&'a [Symbol], Stop>
    requires { weight arena.old symbols.now + vec_len choices.old < 2 ^ 32 }
    ensures read { Gives (λ rest. (choices.new.items, lists_in arena.new, rest.now)) result
        (default_item_into (stmt_into limit depth) choices.old.items (lists_in arena.old)
        symbols.now) }
    ensures lighter { IfOk result (λ rest. weight arena.new rest.now + vec_len choices.new
        < weight arena.old symbols.now + vec_len choices.old) }
    ensures shorter { IfOk result (λ rest. length rest.now < length symbols.now) }
{
    let rest = skip(SymbolKind::Keyword(Keyword::Default), symbols)?;
    let rest = after_colon(rest)?;
    let (body, rest) = statement_at(arena, limit, depth, rest)?;
    choices.push(Choice { label: None, body })?;
    Ok(rest)
}

/// A default is next.
fn is_default(symbols: &[Symbol]) -> bool
    ensures { result ≡ default_is_next symbols.now }
{
    is_next(SymbolKind::Keyword(Keyword::Default), symbols)
}

/// An item of a case, which may be a default or not: its choices after others, and what follows.
#[cycle(statement)]
#[tactic(auto, unfolding(crate::specs::Placing::item_into))]
fn item<'a>(
    arena: &mut Arena,
    limit: u32,
    depth: u32,
    may_default: bool,
    choices: &mut Vec<Choice>,
    symbols: &'a [Symbol],
) -> Result<&'a [Symbol], Stop>
    requires { weight arena.old symbols.now + vec_len choices.old < 2 ^ 32 }
    ensures read { Gives (λ rest. (choices.new.items, lists_in arena.new, rest.now)) result
        (item_into limit (stmt_into limit depth) may_default choices.old.items (lists_in arena.old)
        symbols.now) }
    ensures lighter { IfOk result (λ rest. weight arena.new rest.now + vec_len choices.new
        < weight arena.old symbols.now + vec_len choices.old) }
    ensures shorter { IfOk result (λ rest. length rest.now < length symbols.now) }
{
    if !is_default(symbols) {
        return labels_item(arena, limit, depth, choices, symbols);
    }
    if !may_default {
        return Err(unexpected(symbols));
    }
    default_item(arena, limit, depth, choices, symbols)
}

/// The items of a case go on: it is neither at its `endcase` nor at the end of the text.
fn items_go_on(symbols: &[Symbol]) -> bool
    ensures { result ≡ more_items symbols.now }
{
    match symbols {
        [first, ..] => !is_kind(SymbolKind::Keyword(Keyword::Endcase), first.kind),
        [] => false,
    }
}

/// A further item of a case may be a default, after one with which symbols begin.
fn may_still(may_default: bool, symbols: &[Symbol]) -> bool
    ensures { result ≡ still may_default symbols.now }
{
    may_default && !is_default(symbols)
}

/// The items of a case after others, up to its `endcase`: their choices after those of the others, and what follows.
#[cycle(statement)]
fn further_items<'a>(
    arena: &mut Arena,
    limit: u32,
    depth: u32,
    may_default: bool,
    choices: &mut Vec<Choice>,
    symbols: &'a [Symbol],
) -> Result<&'a [Symbol], Stop>
    requires { weight arena.old symbols.now + vec_len choices.old < 2 ^ 32 }
    ensures read { Gives (λ rest. (choices.new.items, lists_in arena.new, rest.now)) result
        (further_items_into limit (stmt_into limit depth) (length symbols.now) may_default
        choices.old.items (lists_in arena.old) symbols.now) }
    ensures lighter { IfOk result (λ rest. weight arena.new rest.now + vec_len choices.new
        ≤ weight arena.old symbols.now + vec_len choices.old) }
    ensures no_longer { IfOk result (λ rest. length rest.now ≤ length symbols.now) }
{
    let mut may = may_default;
    let mut rest = symbols;
    while items_go_on(rest) {
        let after = item(arena, limit, depth, may, choices, rest)?;
        may = may_still(may, rest);
        rest = after;
    }
    Ok(rest)
}

/// The items of a case, up to its `endcase`: their choices, and what follows.
#[cycle(statement)]
#[tactic(auto, unfolding(crate::specs::Placing::items_into))]
fn items<'a>(
    arena: &mut Arena,
    limit: u32,
    depth: u32,
    symbols: &'a [Symbol],
) -> Result<(Vec<Choice>, &'a [Symbol]), Stop>
    requires { weight arena.old symbols.now < 2 ^ 32 }
    ensures read { Gives (λ found. (found.0.items, lists_in arena.new, found.1.now)) result
        (items_into limit (stmt_into limit depth) (lists_in arena.old) symbols.now) }
    ensures lighter { IfOk result (λ found. weight arena.new found.1.now + vec_len found.0
        ≤ weight arena.old symbols.now) }
    ensures shorter { IfOk result (λ found. length found.1.now < length symbols.now) }
{
    let mut choices = Vec::new(*arena.choices.allocator());
    let rest = item(arena, limit, depth, true, &mut choices, symbols)?;
    let may_default = may_still(true, symbols);
    let rest = further_items(arena, limit, depth, may_default, &mut choices, rest)?;
    Ok((choices, rest))
}

/// A case, from after its keyword.
#[cycle(statement)]
#[tactic(auto, unfolding(crate::specs::Placing::case_into))]
fn case<'a>(
    arena: &mut Arena,
    limit: u32,
    depth: u32,
    is_wild: bool,
    symbols: &'a [Symbol],
) -> Result<(u32, &'a [Symbol]), Stop>
    requires { weight arena.old symbols.now < 2 ^ 32 }
    ensures read { Gives (λ found. (found.0, lists_in arena.new, found.1.now)) result
        (case_into limit (stmt_into limit depth) is_wild (lists_in arena.old) symbols.now) }
    ensures lighter { IfOk result (λ found. weight arena.new found.1.now
        < weight arena.old symbols.now) }
    ensures shorter { IfOk result (λ found. length found.1.now < length symbols.now) }
{
    let (selector, rest) = condition(arena, limit, symbols)?;
    let (found, rest) = items(arena, limit, depth, rest)?;
    let rest = skip(SymbolKind::Keyword(Keyword::Endcase), rest)?;
    let choices = lay_choices(&mut arena.choices, found)?;
    let case = Statement::Case {
        is_wild,
        selector,
        choices,
    };
    Ok((add_statement(&mut arena.statements, case)?, rest))
}

/// A statement, by its first symbol; a block's statements nest at most so deep.
#[cycle(statement)]
#[tactic(auto, unfolding(crate::specs::Placing::form_into, crate::specs::Placing::stmt_by_into))]
fn form<'a>(
    arena: &mut Arena,
    limit: u32,
    depth: u32,
    symbols: &'a [Symbol],
) -> Result<(u32, &'a [Symbol]), Stop>
    requires { weight arena.old symbols.now < 2 ^ 32 }
    ensures read { Gives (λ found. (found.0, lists_in arena.new, found.1.now)) result
        (form_into limit (stmt_into limit depth) (lists_in arena.old) symbols.now) }
    ensures lighter { IfOk result (λ found. weight arena.new found.1.now
        < weight arena.old symbols.now) }
    ensures shorter { IfOk result (λ found. length found.1.now < length symbols.now) }
{
    let [first, rest @ ..] = symbols else {
        return Err(unexpected(symbols));
    };
    match first.kind {
        SymbolKind::Name => assignment(arena, limit, first.place, rest),
        SymbolKind::Keyword(Keyword::Begin) => block(arena, limit, depth, rest),
        SymbolKind::Punctuator(Punctuator::Semicolon) => {
            Ok((add_statement(&mut arena.statements, Statement::Null)?, rest))
        }
        SymbolKind::Punctuator(Punctuator::Hash) => delayed(arena, limit, depth, rest),
        SymbolKind::Punctuator(Punctuator::At) => at_event(arena, limit, depth, rest),
        SymbolKind::Keyword(Keyword::Wait) => wait(arena, limit, depth, rest),
        SymbolKind::Keyword(Keyword::If) => conditional(arena, limit, depth, rest),
        SymbolKind::Keyword(Keyword::While) => while_true(arena, limit, depth, rest),
        SymbolKind::Keyword(Keyword::Case) => case(arena, limit, depth, false, rest),
        SymbolKind::Keyword(Keyword::Casez) => case(arena, limit, depth, true, rest),
        SymbolKind::Finish => finish(arena, rest),
        SymbolKind::Keyword(Keyword::Forever) => forever(arena, limit, depth, rest),
        SymbolKind::Keyword(Keyword::For) => for_loop(arena, limit, depth, rest),
        _ => Err(no_target(unexpected(symbols), symbols)),
    }
}

/// A statement, after the parts of an arena.
#[cycle(statement)]
fn statement_at<'a>(
    arena: &mut Arena,
    limit: u32,
    depth: u32,
    symbols: &'a [Symbol],
) -> Result<(u32, &'a [Symbol]), Stop>
    requires { weight arena.old symbols.now < 2 ^ 32 }
    ensures read { Gives (λ found. (found.0, lists_in arena.new, found.1.now))
        result (stmt_into limit depth (lists_in arena.old) symbols.now) }
    ensures lighter { IfOk result (λ found. weight arena.new found.1.now
        < weight arena.old symbols.now) }
    ensures shorter { IfOk result (λ found. length found.1.now < length symbols.now) }
{
    if depth == 0 {
        return Err(Stop::TooDeep(symbols.len()));
    }
    form(arena, limit, depth - 1, symbols)
}

/// The statement with which symbols begin, laid out after the parts of an arena: its place, and what follows it. Its
/// expressions nest at most `limit` deep, and it nests itself at most `depth` deep. Stops where no statement goes on, or
/// nests deeper, or out of memory.
pub fn statement<'a>(
    arena: &mut Arena,
    limit: u32,
    depth: u32,
    symbols: &'a [Symbol],
) -> Result<(u32, &'a [Symbol]), Stop>
    requires { weight arena.old symbols.now < 2 ^ 32 }
    ensures read { Gives (λ found. (found.0, lists_in arena.new, found.1.now))
        result (stmt_into limit depth (lists_in arena.old) symbols.now) }
    ensures found { IfOk result (λ found. (s : Stmt)
        × IsStatementOf limit depth (lists_in arena.old) symbols.now
        (found.0, lists_in arena.new, found.1.now) s) }
    ensures none { IfErr result (λ stop. (stop ≡ NoMemory) ⊎ NoStatement limit depth symbols.now) }
    ensures lighter { IfOk result (λ found. weight arena.new found.1.now
        < weight arena.old symbols.now) }
    ensures shorter { IfOk result (λ found. length found.1.now < length symbols.now) }
{
    statement_at(arena, limit, depth, symbols)
}
