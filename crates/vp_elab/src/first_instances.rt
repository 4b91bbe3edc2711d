ghost use Rattle.std.specs.Prelude.{◌≤◌, length, IfOk};
ghost use Rattle.vp_elab.specs.declared.object.TheConstants.{OBJECT_LIMIT};
ghost use Rattle.vp_elab.specs.Objects.{AreFirsts};

use crate::object::{Object, ObjectId};
use std::alloc::{AllocError, Global};
use vp_text::Sequence;

/// For each of so many modules the first of these objects that is of it.
pub fn firsts_of(
    alloc: Global,
    objects: &[Object],
    count: usize,
) -> Result<Sequence<Option<ObjectId>>, AllocError>
    requires { length objects.now ≤ OBJECT_LIMIT }
    ensures { IfOk result (λ firsts. AreFirsts objects.now count firsts) }
{
    let mut firsts = vec![in alloc; None; count]?;
    for (id, object) in objects.iter().enumerate() {
        if let Some(number) = object.scope {
            if number < count {
                firsts[number] = firsts[number].or(Some(ObjectId(id as u32)));
            }
        }
    }
    Ok(Sequence::from_vec(firsts))
}
