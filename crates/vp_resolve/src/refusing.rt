// Why the expressions of a design are refused: the first refusal that holds, each tested over the whole text.
ghost use Rattle.vp_text.specs.Refusals.{MayExplain};
ghost use Rattle.vp_resolve.specs.declared.error.ExprError.TheVariants.{NoMemory};
ghost use Rattle.std.specs.Prelude.{◌≡◌, true, None, IfErr, OnOk};
ghost use Rattle.vp_resolve.specs.Checks.{refusal_of};
ghost use Rattle.vp_resolve.specs.Operands.{all_fit, operands_of};

use crate::checks::{first_bad, first_signed, first_wide};
use crate::error::ExprError;
use std::alloc::Global;
use vp_elab::Design;
use vp_operand::Operand;

/// Nothing, or the first refusal that holds. Where there is none, each object and each expression has 1 to 64 bits. Takes memory.
#[tactic(auto, unfolding(crate::specs::Checks::refusal_of))]
pub fn refuse(alloc: Global, design: &Design, operands: &[Operand]) -> Result<(), ExprError>
    requires { operands.now ≡ operands_of design.now }
    ensures accepted { OnOk result (refusal_of design.now ≡ None) }
    ensures fit { OnOk result (all_fit design.now ≡ true) }
    ensures refused { IfErr result (MayExplain NoMemory (refusal_of design.now)) }
{
    let source = design.source();
    if let Some(place) = first_wide(alloc, design)? {
        let line = source.line(place);
        return Err(ExprError::TooWide { line });
    }
    if let Some(place) = first_signed(alloc, design, operands)? {
        let line = source.line(place);
        return Err(ExprError::SignedCompare { line });
    }
    if let Some(place) = first_bad(design) {
        let line = source.line(place);
        return Err(ExprError::BadSelect { line });
    }
    design.is_elaborated();
    design.source_is_whole();
    Ok(())
}
