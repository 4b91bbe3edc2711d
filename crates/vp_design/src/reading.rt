ghost use Rattle.std.specs.Prelude.{IfErr, IfOk};
ghost use Rattle.vp_design.specs.Designs.{IsDesignOf, IsRefusedBy};

use crate::error::DesignError;
use std::alloc::Global;
use vp_elab::elaborate;
use vp_expr::{Checked, check};
use vp_lex::tokens;
use vp_parse::parse;
use vp_pragma::envelopes;

/// The greatest length of the text of a design, in bytes.
pub const TEXT_LIMIT: usize = 1_048_576;

/// The checked design of a text; or that it is too long (1603), or the first fault of its tokens (201 to 206), its envelopes (301 to
/// 310), its grammar (401 to 404), its names (501 to 510) or its expressions (601 to 604), in this order.
pub fn read_design(alloc: Global, text: &str) -> Result<Checked, DesignError>
    ensures design { IfOk result (λ checked. IsDesignOf text.now checked) }
    ensures refused { IfErr result (λ fault. IsRefusedBy text.now fault) }
{
    if text.len() > TEXT_LIMIT {
        return Err(DesignError::TooLong);
    }
    let tokens = tokens(alloc, text)?;
    let envelopes = envelopes(alloc, text, &tokens)?;
    let source = parse(alloc, text, &tokens)?;
    let design = elaborate(alloc, source, envelopes)?;
    Ok(check(alloc, design)?)
}
