// What is reported, and the value of a put, are compared by their contents.
ghost use Rattle.std.specs.Prelude.{◌≡◌, true};

use crate::iteration::{ListedObject, Listing};
use crate::property::{PutValue, VectorWord};
use crate::races::{RaceDetails, RaceLine};
use vp_text::Same;

impl Same for ListedObject {
    fn is_same(&self, other: &ListedObject) -> bool {
        self.handle == other.handle && self.name.is_same(&other.name)
    }
}

impl Same for Listing {
    fn is_same(&self, other: &Listing) -> bool {
        self.closed.as_slice() == other.closed.as_slice() && self.items.is_same(&other.items)
    }
}

impl Same for RaceLine {
    fn is_same(&self, other: &RaceLine) -> bool {
        self.name.is_same(&other.name)
            && self.number == other.number
            && self.time == other.time
            && self.values.0 == other.values.0
            && self.values.1 == other.values.1
    }
}

impl Same for RaceDetails {
    fn is_same(&self, other: &RaceDetails) -> bool {
        self.line.is_same(&other.line)
            && self.first_steps.is_same(&other.first_steps)
            && self.second_steps.is_same(&other.second_steps)
    }
}

impl Same for VectorWord {
    fn is_same(&self, other: &VectorWord) -> bool {
        self == other
    }
}

impl Same for PutValue {
    fn is_same(&self, other: &PutValue) -> bool {
        match (self, other) {
            (PutValue::Digits(first), PutValue::Digits(second)) => first.is_same(second),
            (PutValue::Words(first), PutValue::Words(second)) => first.is_same(second),
            _ => false,
        }
    }
}
