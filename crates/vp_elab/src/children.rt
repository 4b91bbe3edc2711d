// Which objects are declared in a scope.
ghost use Rattle.std.specs.Prelude.{◌≡◌, ◌+◌, ◌<◌, ◌^◌, All, map, IfOk};
ghost use Rattle.std.specs.List.{filter_map};
ghost use Rattle.vp_elab.specs.Objects.{top_of};

use crate::object::{Object, ObjectId};
use std::alloc::{AllocError, Global};
use vp_text::Sequence;

/// The objects that stand so far after an object. Takes memory.
pub fn objects_after(
    alloc: Global,
    object: ObjectId,
    slots: &[u32],
) -> Result<Sequence<ObjectId>, AllocError>
    requires { All (λ slot. object.0 + slot < 2 ^ 32) slots.now }
    ensures { IfOk result (λ ids. map (λ o. o.0) ids ≡ map (λ slot. object.0 + slot) slots.now) }
{
    let mut ids = Vec::new(alloc);
    for slot in slots {
        ids.push(ObjectId(object.0 + *slot))?;
    }
    Ok(Sequence::from_vec(ids))
}

/// The first object of a module, where it is that of a top module.
pub fn top_at(objects: &[Object], first: Option<ObjectId>) -> Option<ObjectId>
    ensures { result ≡ top_of objects.now first }
{
    let id = first?;
    let object = objects.get(id.0 as usize)?;
    match object.parent {
        Some(_) => None,
        None => Some(id),
    }
}

/// The objects of the top modules, of the first object of each module. Takes memory.
pub fn tops_at(
    alloc: Global,
    objects: &[Object],
    firsts: &[Option<ObjectId>],
) -> Result<Sequence<ObjectId>, AllocError>
    ensures { IfOk result (λ ids. ids ≡ filter_map (top_of objects.now) firsts.now) }
{
    let mut ids = Vec::new(alloc);
    for first in firsts {
        if let Some(id) = top_at(objects, *first) {
            ids.push(id)?;
        }
    }
    Ok(Sequence::from_vec(ids))
}
