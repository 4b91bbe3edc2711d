// What an iteration over a scope reports, and the handles that it makes (docs/FORMATS.md, "Lines").
ghost use Rattle.std.specs.Prelude.{◌≡◌, ℕ, suc, ◌+◌, ◌≤◌, List, filter, length, map, IfOk};
ghost use Rattle.vp_vpi.specs.Calls.{is_of, is_same, items_from};
ghost use Rattle.vp_vpi.specs.SessionStates.{handle_to, number_limit};

use crate::observer::Observe;
use std::alloc::{AllocError, Global};
use std::marker::Model;
use vp_elab::{Kind, ObjectId};
use vp_text::{Sequence, Shared, Text};

/// An object that is listed: the handle that is made of it, and its name.
#[derive(Drop)]
pub struct ListedObject {
    pub handle: u32,
    pub name: Text,
}

/// What is reported of an iteration.
#[derive(Drop)]
pub struct Listing {
    /// The numbers of the envelopes that are closed to the user in the scope: rising, each once.
    pub closed: Sequence<u8>,
    /// The objects that are listed to him, in the order of the text.
    pub items: Sequence<ListedObject>,
}

/// An iteration over the objects of a scope. A contract sees what is reported of it, and the handles that it makes.
#[derive(Drop)]
pub struct Iteration {
    listing: Shared<Listing>,
    handles: Sequence<Option<ObjectId>>,
}

impl Model for Iteration {
    ghost use Rattle.vp_vpi.specs.Calls.{Iterated};

    ghost Value = { Iterated };

    ghost view = { λ i. record { listing = i.listing; handles = i.handles } };
}

impl Iteration {
    /// An iteration over these objects: it reports these numbers of envelopes, and the handles after the last one. Takes memory.
    pub(crate) fn new<E: Observe>(
        alloc: Global,
        observation: &E,
        closed: Sequence<u8>,
        last: u32,
        objects: &[ObjectId],
    ) -> Result<Iteration, AllocError>
        requires sound { E.is_sound observation.now }
        requires room { last + length objects.now ≤ number_limit }
        ensures iteration { let ids : List ℕ = map (λ o. o.0) objects.now in
            IfOk result (λ i. i ≡ record {
              listing = record {
                closed = closed;
                items = items_from (E.observer observation.now).name (suc last) ids;
              };
              handles = map handle_to ids;
            }) }
        ensures count { IfOk result (λ i. length i.handles ≡ length objects.now) }
    {
        let items = listed_items(alloc, observation, last, objects)?;
        let listing = Shared::new(alloc, Listing { closed, items })?;
        let handles = handles_to(alloc, objects)?;
        Ok(Iteration { listing, handles })
    }

    /// What is reported of it.
    pub fn listing(&self) -> &Shared<Listing>
        ensures { result.now ≡ self.now.listing }
    {
        &self.listing
    }

    /// The handles that it makes.
    pub(crate) fn handles(&self) -> &[Option<ObjectId>]
        ensures { result.now ≡ self.now.handles }
    {
        self.handles.as_slice()
    }
}

/// Two kinds are the same.
fn is_same(first: Kind, second: Kind) -> bool
    ensures { result ≡ is_same first second }
{
    first == second
}

/// An object is there and of a kind.
pub fn is_of(kind: Kind, found: Option<Kind>) -> bool
    ensures { result ≡ is_of kind found }
{
    match found {
        Some(found) => is_same(kind, found),
        None => false,
    }
}

/// Those objects that are of a kind. Takes memory.
pub fn of_kind<E: Observe>(
    alloc: Global,
    observation: &E,
    kind: Kind,
    objects: &[ObjectId],
) -> Result<Sequence<ObjectId>, AllocError>
    requires { E.is_sound observation.now }
    ensures { let observation = E.observer observation.now in
        IfOk result (λ ids. map (λ o. o.0) ids
        ≡ filter (λ o. is_of kind (observation.kind o)) (map (λ o. o.0) objects.now)) }
{
    let mut ids = Vec::new(alloc);
    for object in objects {
        if is_of(kind, observation.kind(*object)) {
            ids.push(*object)?;
        }
    }
    Ok(Sequence::from_vec(ids))
}

/// The objects with their names, and with the handles after the last one. Takes memory.
fn listed_items<E: Observe>(
    alloc: Global,
    observation: &E,
    last: u32,
    objects: &[ObjectId],
) -> Result<Sequence<ListedObject>, AllocError>
    requires sound { E.is_sound observation.now }
    requires room { last + length objects.now ≤ number_limit }
    ensures { IfOk result (λ items. items
        ≡ items_from (E.observer observation.now).name (suc last) (map (λ o. o.0) objects.now)) }
{
    let mut items = Vec::new(alloc);
    for object in objects {
        items.push(ListedObject {
            handle: last + items.len() as u32 + 1,
            name: Text::copy(alloc, observation.name(*object))?,
        })?;
    }
    Ok(Sequence::from_vec(items))
}

/// A handle of each of these objects. Takes memory.
fn handles_to(alloc: Global, objects: &[ObjectId]) -> Result<Sequence<Option<ObjectId>>, AllocError>
    ensures handles { IfOk result (λ handles. handles
        ≡ map handle_to (map (λ o. o.0) objects.now)) }
    ensures count { IfOk result (λ handles. length handles ≡ length objects.now) }
{
    let mut handles = Vec::new(alloc);
    for object in objects {
        handles.push(Some(*object))?;
    }
    Ok(Sequence::from_vec(handles))
}
