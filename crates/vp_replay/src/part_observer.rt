// What a user looks up in his view, with what came to him of a run.
ghost use Rattle.std.specs.Prelude.{◌≡◌, option_map};
ghost use Rattle.vp_replay.specs.Objects.{known_value};
ghost use Rattle.vp_replay.specs.Seen.{observer_seen};

use crate::denials::denied;
use crate::names::{closed, count_listed, listed, look};
use crate::path::{full_name, kind, name, object_at};
use crate::races::{lines_of, race_details};
use std::alloc::{AllocError, Global};
use vp_bits::Bits;
use vp_elab::{Kind, ObjectId};
use vp_policy::{DenialText, View};
use vp_pragma::Right;
use vp_text::{Sequence, Shared, Text};
use vp_vpi::{Found, Observe, RaceDetails, RaceLine, ShownRace};

/// A view, with the values that its user knows, the time, whether `$finish` was executed, and the races that he is shown.
#[derive(Drop)]
pub struct PartObserver<'a> {
    view: &'a View,
    /// By the number of an object in the view; none where its value is not known.
    values: &'a [Option<Bits>],
    /// In time units.
    time: u64,
    finished: bool,
    races: &'a [Shared<ShownRace>],
}

impl<'a> PartObserver<'a> {
    /// What can be looked up in these. It is sound, whatever they are.
    pub fn new(
        view: &'a View,
        values: &'a [Option<Bits>],
        time: u64,
        finished: bool,
        races: &'a [Shared<ShownRace>],
    ) -> PartObserver<'a>
        ensures observer { ⟦<PartObserver<'a> as Observe>⟧.observer result
            ≡ observer_seen view.now values.now time finished races.now }
        ensures sound { ⟦<PartObserver<'a> as Observe>⟧.is_sound result }
    {
        PartObserver {
            view,
            values,
            time,
            finished,
            races,
        }
    }
}

/// The number of a scope.
fn number_of(scope: Option<ObjectId>) -> Option<u32>
    ensures { result ≡ option_map (λ o. o.0) scope }
{
    Some(scope?.0)
}

/// The value of the object of a number, by the values that are known; where it is not, one bit that is x.
fn known_value(values: &[Option<Bits>], number: u32) -> Bits
    ensures { result ≡ known_value values.now number }
{
    match values.get(number as usize) {
        Some(Some(value)) => *value,
        _ => Bits::unknown(1),
    }
}

impl Observe for PartObserver<'_> {
    ghost observer = { λ p. observer_seen p.view.now p.values.now p.time p.finished p.races.now };

    ghost is_sound = { λ p. Unit {0} };

    fn find(
        &self,
        alloc: Global,
        scope: Option<ObjectId>,
        name: &str,
    ) -> Result<Found, AllocError> {
        look(alloc, self.view, number_of(scope), name)
    }

    fn listed(
        &self,
        alloc: Global,
        scope: Option<ObjectId>,
    ) -> Result<Sequence<ObjectId>, AllocError> {
        listed(alloc, self.view, number_of(scope))
    }

    fn count_listed(&self, kind: Kind, scope: Option<ObjectId>) -> usize {
        count_listed(self.view, kind, number_of(scope))
    }

    fn closed(&self, alloc: Global, scope: Option<ObjectId>) -> Result<Sequence<u8>, AllocError> {
        let numbers = Vec::from_slice(alloc, closed(self.view, number_of(scope)))?;
        Ok(Sequence::from_vec(numbers))
    }

    fn denied(
        &self,
        alloc: Global,
        right: Right,
        object: ObjectId,
    ) -> Result<Option<DenialText>, AllocError> {
        denied(alloc, self.view, right, object.0)
    }

    fn kind(&self, object: ObjectId) -> Option<Kind> {
        kind(self.view, object.0)
    }

    fn width(&self, object: ObjectId) -> u32 {
        match object_at(self.view, object.0) {
            Some(object) => object.width,
            None => 0,
        }
    }

    fn line(&self, object: ObjectId) -> u32 {
        match object_at(self.view, object.0) {
            Some(object) => object.line,
            None => 0,
        }
    }

    fn name(&self, object: ObjectId) -> &str {
        name(self.view, object.0)
    }

    fn full_name(&self, alloc: Global, object: ObjectId) -> Result<Text, AllocError> {
        full_name(alloc, self.view, object.0)
    }

    fn definition(&self, object: ObjectId) -> Option<&str> {
        match &object_at(self.view, object.0)?.definition {
            Some(definition) => Some(definition.as_str()),
            None => None,
        }
    }

    fn value(&self, object: ObjectId) -> Option<Bits> {
        match object_at(self.view, object.0) {
            Some(seen) if seen.kind.has_value() => Some(known_value(self.values, object.0)),
            _ => None,
        }
    }

    fn may_run(&self) -> bool {
        self.view.may_run()
    }

    fn time(&self) -> u64 {
        self.time
    }

    fn finished(&self) -> bool {
        self.finished
    }

    fn race_lines(&self, alloc: Global, from: u64) -> Result<Sequence<RaceLine>, AllocError> {
        lines_of(alloc, self.races, from)
    }

    fn race(&self, alloc: Global, number: u64) -> Result<Option<RaceDetails>, AllocError> {
        race_details(alloc, self.races, number)
    }
}
