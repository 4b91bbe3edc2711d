ghost use Rattle.std.specs.Prelude.{◌≡◌, ◌≤◌, ◌<◌, ℕ, List, [], length, map, option_map, slice_get, IfOk};
ghost use Rattle.std.specs.Option.{option_map_or};
ghost use Rattle.vp_pragma.specs.Reading.{objects_of};

use crate::viewport::Viewport;
use std::alloc::{AllocError, Global};
use std::marker::Model;
use vp_text::{Sequence, SharedText};

/// An envelope: the places of its `begin` and of its `end`, and its author.
#[derive(Drop)]
pub struct Envelope {
    pub begin: u32,
    pub end: u32,
    pub author: SharedText,
}

impl Envelope {
    ghost use Rattle.vp_pragma.specs.Envelopes.{holds};

    /// A place lies after its `begin` and before its `end`.
    pub fn holds(&self, place: u32) -> bool
        ensures { result ≡ holds place self.now }
    {
        self.begin < place && place < self.end
    }
}

/// The envelopes of a text, at most 255, in the order of their `begin`, of which the first has number 1; and its
/// viewports, in the order of the text. A contract sees both lists.
#[derive(Drop)]
pub struct Envelopes {
    envelopes: Sequence<Envelope>,
    viewports: Sequence<Viewport>,
    /// Of each viewport the object that it names.
    objects: Sequence<SharedText>,
}

impl Model for Envelopes {
    ghost use Rattle.std.specs.Prelude.{length, ◌≡◌, ◌≤◌};
    ghost use Rattle.vp_pragma.specs.Envelopes.{Protection};
    ghost use Rattle.vp_pragma.specs.Reading.{objects_of, protection_of};

    ghost Value = { Protection };

    ghost view = { λ e. protection_of e.envelopes e.viewports };

    ghost invariant = { λ e. (length e.envelopes ≤ 255) × (e.objects ≡ objects_of e.viewports) };
}

/// The objects that viewports name. Takes memory.
fn objects_of(alloc: Global, viewports: &[Viewport]) -> Result<Vec<SharedText>, AllocError>
    ensures { IfOk result (λ objects. objects.items ≡ objects_of viewports.now) }
{
    let mut objects = Vec::new(alloc);
    for viewport in viewports {
        objects.push(SharedText::new(alloc, viewport.object(alloc)?)?)?;
    }
    Ok(objects)
}

/// The object of a number.
fn object_at(objects: &[SharedText], number: usize) -> Option<&SharedText>
    ensures { option_map (λ o. o.now) result ≡ slice_get objects.now number }
{
    objects.get(number)
}

impl Envelopes {
    ghost use Rattle.vp_pragma.specs.Envelopes.{author_of, envelope_at, object_of};
    ghost use Rattle.vp_pragma.specs.Reading.{protection_of, viewport_of};

    /// The envelopes of a list of at most 255, and viewports. Takes memory.
    pub(crate) fn new(
        alloc: Global,
        envelopes: Vec<Envelope>,
        viewports: Vec<Viewport>,
    ) -> Result<Envelopes, AllocError>
        requires { length envelopes.items ≤ 255 }
        ensures { IfOk result (λ e. e ≡ protection_of envelopes.items viewports.items) }
    {
        let objects = objects_of(alloc, viewports.as_slice())?;
        Ok(Envelopes {
            envelopes: Sequence::from_vec(envelopes),
            viewports: Sequence::from_vec(viewports),
            objects: Sequence::from_vec(objects),
        })
    }

    /// The viewports, in the order of the text.
    pub fn viewports(&self) -> &[Viewport]
        ensures { map viewport_of result.now ≡ self.now.viewports }
    {
        self.viewports.as_slice()
    }

    /// How many envelopes there are.
    pub fn count(&self) -> u8
        ensures { result ≡ length self.now.envelopes }
    {
        self.envelopes.len() as u8
    }

    /// The envelope of a number; None for number 0, the open text, and for a number that is not there.
    fn envelope(&self, number: u8) -> Option<&Envelope>
        ensures { option_map_or (λ e. e.now.author) result []
            ≡ author_of self.now.envelopes number }
    {
        if number == 0 {
            return None;
        }
        self.envelopes.as_slice().get(number as usize - 1)
    }

    /// The author of an envelope; empty for number 0, the open text, and for a number that is not there.
    pub fn author(&self, number: u8) -> &str
        ensures { result.now ≡ author_of self.now.envelopes number }
    {
        match self.envelope(number) {
            Some(envelope) => envelope.author.as_str(),
            None => "",
        }
    }

    /// The same author for one holder more; or an error where they can't be counted.
    pub fn shared_author(&self, number: u8) -> Result<SharedText, AllocError>
        ensures { IfOk result (λ author. author ≡ author_of self.now.envelopes number) }
    {
        match self.envelope(number) {
            Some(envelope) => envelope.author.try_clone(),
            None => Ok(SharedText::empty()),
        }
    }

    /// The object that the viewport of a number, from 0, names, for one holder more; None where no viewport is; or an error where
    /// the holders can't be counted.
    pub fn viewport_object(&self, number: usize) -> Result<Option<SharedText>, AllocError>
        ensures { IfOk result
            (λ object. object ≡ option_map object_of (slice_get self.now.viewports number)) }
    {
        match object_at(self.objects.as_slice(), number) {
            Some(object) => Ok(Some(object.try_clone()?)),
            None => Ok(None),
        }
    }

    /// The number of the envelope in which a place lies: of the last that begins before it and ends after it,
    /// or 0.
    pub fn of(&self, place: u32) -> u8
        ensures { result ≡ envelope_at self.now.envelopes place }
    {
        let envelopes = self.envelopes.as_slice();
        let mut number = 0;
        for (i, envelope) in envelopes.iter().enumerate() {
            if envelope.holds(place) {
                number = (i + 1) as u8;
            }
        }
        number
    }
}
