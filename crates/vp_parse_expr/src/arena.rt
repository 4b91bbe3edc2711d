ghost use Rattle.std.specs.Prelude.{◌≡◌, [], ◌∷◌, ◌++◌, length, ◌+◌, ◌<◌, ◌^◌, IfOk, OnOk, vec_len};

use std::alloc::AllocError;
use vp_source::Expression;

/// One more expression, and its place.
pub fn add_expression(
    expressions: &mut Vec<Expression>,
    expression: Expression,
) -> Result<u32, AllocError>
    requires { vec_len expressions.old < 2 ^ 32 }
    ensures place { IfOk result (λ place. place ≡ length expressions.old.items) }
    ensures added { OnOk result (expressions.new.items ≡ expressions.old.items ++ expression ∷ []) }
    ensures len { OnOk result (vec_len expressions.new ≡ vec_len expressions.old + 1) }
{
    let place = expressions.len() as u32;
    expressions.push(expression)?;
    Ok(place)
}
