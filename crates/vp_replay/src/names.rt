// Scopes, and the objects in them by their names.
ghost use Rattle.std.specs.Prelude.{◌≡◌, ◌++◌, ◌∷◌, [], ℕ, IfOk, IsTrue, OnErr, filter, length, map};
ghost use Rattle.vp_text.specs.Texts.{parts};
ghost use Rattle.vp_policy.specs.SeenObjects.{path_to};
ghost use Rattle.vp_vpi.specs.Calls.{is_of};
ghost use Rattle.vp_vpi.specs.Lookups.{found_shown, is_denial};
ghost use Rattle.vp_vpi.specs.Observers.{Absent};
ghost use Rattle.vp_replay.specs.Objects.{names_to};
ghost use Rattle.vp_replay.specs.Seen.{closed_seen, find_listed_seen, find_seen, is_in_seen, is_named_seen, kind_seen, listed_in_seen, unlisted_seen, walk_seen};

use crate::denials::{author, barrier_by_grant};
use crate::path::{is_listed, kind, last_step, object_at};
use std::alloc::{AllocError, Global};
use vp_elab::{Kind, ObjectId};
use vp_policy::{DenialText, View};
use vp_pragma::Right;
use vp_text::{Sequence, first_part};
use vp_vpi::{Found, is_of};

/// The same names lead to two scopes.
fn is_same_scope(view: &View, first: Option<u32>, second: Option<u32>) -> bool
    ensures { let nodes = view.now.nodes in
        result ≡ is_named_seen (names_to nodes first) (path_to nodes second) }
{
    let mut first = first;
    let mut second = second;
    while first != second {
        let Some((one, above)) = last_step(view, first) else {
            return last_step(view, second).is_none();
        };
        let Some((other, beside)) = last_step(view, second) else {
            return false;
        };
        if one.name.as_str() != other.name.as_str() {
            return false;
        }
        first = above;
        second = beside;
    }
    true
}

/// The object of a number stands in a scope.
fn is_in(view: &View, scope: Option<u32>, number: u32) -> bool
    ensures { let nodes = view.now.nodes in
        result ≡ is_in_seen (names_to nodes scope) (path_to nodes (Some number)) }
{
    match last_step(view, Some(number)) {
        Some((_, above)) => is_same_scope(view, scope, above),
        None => false,
    }
}

/// The object of a number has a name in a scope.
fn is_named(view: &View, scope: Option<u32>, name: &str, number: u32) -> bool
    ensures { let nodes = view.now.nodes in
        result ≡ is_named_seen (names_to nodes scope ++ name.now ∷ [])
        (path_to nodes (Some number)) }
{
    match last_step(view, Some(number)) {
        Some((object, above)) => name == object.name.as_str() && is_same_scope(view, scope, above),
        None => false,
    }
}

/// The first object of a name in a scope.
fn find(view: &View, scope: Option<u32>, name: &str) -> Option<u32>
    ensures { result ≡ find_seen view.now (names_to view.now.nodes scope ++ name.now ∷ []) }
{
    for number in 0..view.count() {
        if is_named(view, scope, name, number) {
            return Some(number);
        }
    }
    None
}

/// The same, if it is listed.
fn find_listed(view: &View, scope: Option<u32>, name: &str) -> Option<u32>
    ensures { result
        ≡ find_listed_seen view.now (names_to view.now.nodes scope ++ name.now ∷ []) }
{
    match find(view, scope, name) {
        Some(number) if is_listed(view, number) => Some(number),
        _ => None,
    }
}

/// The numbers of the envelopes that are closed in a scope, rising.
pub fn closed(view: &View, scope: Option<u32>) -> &[u8]
    ensures { result.now ≡ closed_seen view.now scope }
{
    let Some(number) = scope else {
        return view.closed();
    };
    match object_at(view, number) {
        Some(object) => object.closed.as_slice(),
        None => &[],
    }
}

/// What a name that is not listed in a scope is answered. Takes memory for a denial alone.
fn unlisted(alloc: Global, view: &View, scope: Option<u32>) -> Result<Found, AllocError>
    ensures found { IfOk result
        (λ found. found_shown found ≡ unlisted_seen view.now (closed_seen view.now scope)) }
    ensures denial { OnErr result
        (IsTrue (is_denial (unlisted_seen view.now (closed_seen view.now scope)))) }
{
    let [envelope, ..] = closed(view, scope) else {
        return Ok(Found::Absent);
    };
    let envelope = *envelope;
    let barrier = barrier_by_grant(view, envelope);
    let author = author(view, envelope)?;
    let words = DenialText::new(alloc, barrier, envelope, Right::List, author, None)?;
    Ok(Found::Denied(words))
}

/// What is found under a dotted name in a scope. Takes memory for a denial alone.
pub fn look(alloc: Global, view: &View, scope: Option<u32>, name: &str) -> Result<Found, AllocError>
    ensures found { IfOk result (λ found. found_shown found
        ≡ walk_seen view.now Absent scope (parts 46 name.now)) }
    ensures denial { OnErr result
        (IsTrue (is_denial (walk_seen view.now Absent scope (parts 46 name.now)))) }
{
    let mut scope = scope;
    let mut rest = name;
    loop {
        let (part, following) = first_part(rest, '.');
        let Some(number) = find_listed(view, scope, part) else {
            return unlisted(alloc, view, scope);
        };
        match following {
            Some(further) => rest = further,
            None => return Ok(Found::Object(ObjectId(number))),
        }
        scope = Some(number);
    }
}

/// The objects that are listed in a scope, rising. Takes memory.
pub fn listed(
    alloc: Global,
    view: &View,
    scope: Option<u32>,
) -> Result<Sequence<ObjectId>, AllocError>
    ensures { IfOk result
        (λ ids. map (λ o. o.0) ids ≡ listed_in_seen view.now scope) }
{
    let mut ids = Vec::new(alloc);
    for number in 0..view.count() {
        if is_in(view, scope, number) && is_listed(view, number) {
            ids.push(ObjectId(number))?;
        }
    }
    Ok(Sequence::from_vec(ids))
}

/// How many objects of a kind are listed in a scope.
pub fn count_listed(view: &View, wanted: Kind, scope: Option<u32>) -> usize
    ensures { let is_wanted = λ (o : ℕ). is_of wanted (kind_seen view.now o) in
        result ≡ length (filter is_wanted (listed_in_seen view.now scope)) }
{
    let mut count = 0;
    for number in 0..view.count() {
        if is_in(view, scope, number)
            && is_listed(view, number)
            && is_of(wanted, kind(view, number))
        {
            count += 1;
        }
    }
    count
}
