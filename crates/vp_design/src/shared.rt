ghost use Rattle.std.specs.Prelude.{IfSome};
ghost use Rattle.std.specs.Arc.{arc_value};
ghost use Rattle.vp_design.specs.Designs.{IsDesignOf};

use crate::reading::read_design;
use std::alloc::Global;
use std::sync::Arc;
use vp_expr::Checked;

/// The checked design of a text, to be shared; none where the text is no design, or out of memory. For tests and measurements.
pub fn shared_of(alloc: Global, text: &str) -> Option<Arc<Checked>>
    ensures { IfSome result (λ checked. IsDesignOf text.now (arc_value checked)) }
{
    Arc::new(alloc, read_design(alloc, text).ok()?).ok()
}
