// Why a right is denied, in words.
ghost use Rattle.std.specs.Prelude.{◌≡◌, IfOk, IsSome, OnErr, map, option_map};
ghost use Rattle.vp_policy.specs.SeenObjects.{envelope_shown, own_step, viewport_shown};
ghost use Rattle.vp_policy.specs.Users.{is_entry};
ghost use Rattle.vp_replay.specs.Objects.{envelope_at};
ghost use Rattle.vp_replay.specs.Seen.{author_seen, barrier_at, barrier_by_grant, denied_seen, first_object, has_entry_seen, words_at};

use crate::path::first_missing_step;
use std::alloc::{AllocError, Global};
use vp_policy::{
    DenialText, GrantedBy, SeenEnvelope, SeenObject, SeenViewport, ShownBarrier, View,
};
use vp_pragma::Right;
use vp_text::{SharedText, Text};

/// The envelope of a number; none of the open text.
fn envelope_at(view: &View, number: u8) -> Option<&SeenEnvelope>
    ensures { option_map (λ e. envelope_shown e.now) result ≡ envelope_at view.now number }
{
    let before = number.checked_sub(1)?;
    view.envelopes().get(before as usize)
}

/// The author of an envelope, for one holder more; the empty text of the open text and of no
/// envelope; or an error where the holders can't be counted.
pub fn author(view: &View, envelope: u8) -> Result<SharedText, AllocError>
    ensures { IfOk result (λ author. author ≡ author_seen view.now envelope) }
{
    match envelope_at(view, envelope) {
        Some(envelope) => envelope.author.try_clone(),
        None => Ok(SharedText::empty()),
    }
}

/// The user has an entry, by the envelope's number or by its author.
fn is_entry(granted: GrantedBy) -> bool
    ensures { result ≡ is_entry granted }
{
    match granted {
        GrantedBy::Nothing => false,
        GrantedBy::Number | GrantedBy::Author => true,
    }
}

/// The user has a grant entry for an envelope.
fn has_entry(view: &View, envelope: u8) -> bool
    ensures { result ≡ has_entry_seen view.now envelope }
{
    match envelope_at(view, envelope) {
        Some(envelope) => is_entry(envelope.granted),
        None => false,
    }
}

/// What keeps the user out of an envelope by his grant.
pub fn barrier_by_grant(view: &View, envelope: u8) -> ShownBarrier
    ensures { result ≡ barrier_by_grant view.now envelope }
{
    if envelope == 0 || has_entry(view, envelope) {
        ShownBarrier::Grant
    } else {
        ShownBarrier::Envelope
    }
}

/// What keeps the user out at a step of these viewports.
fn barrier_at(view: &View, envelope: u8, viewports: &[SeenViewport]) -> ShownBarrier
    ensures { result ≡ barrier_at view.now envelope (map viewport_shown viewports.now) }
{
    if viewports.is_empty() {
        barrier_by_grant(view, envelope)
    } else {
        ShownBarrier::Viewport
    }
}

/// The object of the first of these viewports. Takes memory for it.
fn first_object(alloc: Global, viewports: &[SeenViewport]) -> Result<Option<SharedText>, AllocError>
    ensures { IfOk result
        (λ object. object ≡ first_object (map viewport_shown viewports.now)) }
{
    match viewports {
        [viewport, ..] => {
            let object = Text::copy(alloc, viewport.object.as_str())?;
            Ok(Some(SharedText::new(alloc, object)?))
        }
        [] => Ok(None),
    }
}

/// Why a right is denied at the last step to an object, in words. Takes memory.
fn words_at(
    alloc: Global,
    view: &View,
    right: Right,
    object: &SeenObject,
) -> Result<DenialText, AllocError>
    ensures { IfOk result
        (λ words. words ≡ words_at view.now right (own_step object.now)) }
{
    let envelope = object.envelope;
    let viewports = object.viewports.as_slice();
    let barrier = barrier_at(view, envelope, viewports);
    let author = author(view, envelope)?;
    let object = first_object(alloc, viewports)?;
    DenialText::new(alloc, barrier, envelope, right, author, object)
}

/// Why a right on the object of a number is denied, if it is. Takes memory for a denial alone.
pub fn denied(
    alloc: Global,
    view: &View,
    right: Right,
    number: u32,
) -> Result<Option<DenialText>, AllocError>
    ensures words { IfOk result (λ words. words ≡ denied_seen view.now right number) }
    ensures denial { OnErr result (IsSome (denied_seen view.now right number)) }
{
    match first_missing_step(view, right, number) {
        Some(object) => Ok(Some(words_at(alloc, view, right, object)?)),
        None => Ok(None),
    }
}
