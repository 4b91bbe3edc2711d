ghost use Rattle.std.specs.Prelude.{◌≡◌, [], ◌∷◌, ◌++◌, length, ◌+◌, ◌<◌, ◌^◌, IfOk, OnOk, vec_len};
ghost use Rattle.vp_source.specs.StmtLayout.{span_after};

use std::alloc::{AllocError, Global};
use vp_source::{Choice, EventTerm, Expression, Span, Statement};

/// The lists of statements, of expressions, of terms of events and of choices of cases while they are read.
#[derive(Drop)]
pub struct Arena {
    pub statements: Vec<Statement>,
    pub expressions: Vec<Expression>,
    pub terms: Vec<EventTerm>,
    pub choices: Vec<Choice>,
}

impl Arena {
    ghost use Rattle.vp_source.specs.StmtLayout.{no_parts};
    ghost use Rattle.vp_parse_stmt.specs.Placing.{lists_in};

    /// No parts.
    pub fn new(alloc: Global) -> Arena
        ensures none { lists_in result ≡ no_parts }
        ensures statements { vec_len result.statements ≡ 0 }
        ensures expressions { vec_len result.expressions ≡ 0 }
        ensures terms { vec_len result.terms ≡ 0 }
        ensures choices { vec_len result.choices ≡ 0 }
    {
        Arena {
            statements: Vec::new(alloc),
            expressions: Vec::new(alloc),
            terms: Vec::new(alloc),
            choices: Vec::new(alloc),
        }
    }
}

/// One more statement, and its place.
pub fn add_statement(
    statements: &mut Vec<Statement>,
    statement: Statement,
) -> Result<u32, AllocError>
    requires { vec_len statements.old < 2 ^ 32 }
    ensures place { IfOk result (λ place. place ≡ length statements.old.items) }
    ensures added { OnOk result (statements.new.items ≡ statements.old.items ++ statement ∷ []) }
    ensures len { OnOk result (vec_len statements.new ≡ vec_len statements.old + 1) }
{
    let place = statements.len() as u32;
    statements.push(statement)?;
    Ok(place)
}

/// Choices of a case after those of others, and where they lie.
pub fn lay_choices(choices: &mut Vec<Choice>, mut found: Vec<Choice>) -> Result<Span, AllocError>
    requires { vec_len choices.old + vec_len found < 2 ^ 32 }
    ensures span { IfOk result (λ span. span ≡ span_after choices.old.items found.items) }
    ensures added { OnOk result (choices.new.items ≡ choices.old.items ++ found.items) }
    ensures len { OnOk result (vec_len choices.new ≡ vec_len choices.old + vec_len found) }
{
    let first = choices.len() as u32;
    choices.append(&mut found)?;
    let end = choices.len() as u32;
    Ok(Span { first, end })
}
