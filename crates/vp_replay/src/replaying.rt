// What a user was shown, by what he sees and what of the log goes to him (docs/DEFINITIONS.md, "What a user can know").
ghost use Rattle.std.specs.Prelude.{◌≡◌, IfOk};
ghost use Rattle.vp_replay.specs.Faults.{TakesUp};
ghost use Rattle.vp_replay.specs.Parts.{replies_from, takes_all, first_part};

use crate::error::AuditError;
use crate::item::Projection;
use crate::part::Part;
use std::alloc::Global;
use vp_answer::Reply;
use vp_policy::View;
use vp_text::Sequence;

/// The replies to a user's own events, in order, by what he sees at the opening and what of the log goes to him. Refused where an item is
/// not taken up (1303), and when out of memory (1307).
pub fn replay_projection<'a>(
    alloc: Global,
    view: &'a View,
    projection: &'a Projection,
) -> Result<Sequence<Reply>, AuditError>
    ensures replies { IfOk result (λ replies. replies
        ≡ replies_from (first_part view.now projection.now.values) projection.now.items) }
    ensures taken { let part = first_part view.now projection.now.values in
        TakesUp (takes_all part projection.now.items) result }
{
    let mut part = Part::new(alloc, view, projection.values.as_slice())?;
    let mut replies = Vec::new(alloc);
    for item in projection.items.as_slice() {
        if let Some(reply) = part.take(item)? {
            replies.push(reply)?;
        }
    }
    Ok(Sequence::from_vec(replies))
}
