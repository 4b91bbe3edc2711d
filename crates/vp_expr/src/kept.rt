ghost use Rattle.std.specs.Prelude.{◌≡◌, ◌<◌, ◌*◌, drop, length, slice_get, take, true};
ghost use Rattle.std.specs.Arc.{arc_value};

use std::marker::Model;
use std::sync::Arc;
use vp_bits::Bits;
use vp_cow_list::{Chunk, SharedList};
use vp_elab::ObjectId;

/// A value for each object of a design, as they were at some time: copies of one design's share what did not change between
/// them. A contract sees their list, by object number.
#[derive(Drop)]
pub struct ValuesCheckpoint {
    values: SharedList<Bits>,
}

impl Model for ValuesCheckpoint {
    ghost use Rattle.std.specs.Prelude.{List};
    ghost use Rattle.vp_bits.specs.declared.bit.Bit.{Bit};

    ghost Value = { List (List Bit) };

    ghost view = { λ v. v.values };
}

impl ValuesCheckpoint {
    pub(crate) fn new(values: SharedList<Bits>) -> ValuesCheckpoint
        ensures { result ≡ values }
    {
        ValuesCheckpoint { values }
    }

    pub(crate) fn list(&self) -> &SharedList<Bits>
        ensures { result.now ≡ self.now }
    {
        &self.values
    }

    /// How many values there are.
    pub fn count(&self) -> usize
        ensures { result ≡ length self.now }
    {
        self.values.len()
    }

    /// The value of an object; none for a number that is not there.
    pub fn find(&self, id: ObjectId) -> Option<Bits>
        ensures { result ≡ slice_get self.now id.0 }
    {
        self.values.get(id.0 as usize)
    }

    /// The chunk of a number: the values of 64 objects, or of fewer at the end, from that of 64 times the number on. Takes no
    /// memory.
    pub fn chunk(&self, number: usize) -> &Arc<Chunk<Bits>>
        requires { 64 * number < length self.now }
        ensures { arc_value result.now ≡ take 64 (drop (64 * number) self.now) }
    {
        self.values.chunk(number)
    }

    /// Whether two copies are the same: of as many values, each the same. It takes time for each value at most, chunk by chunk, and no
    /// memory.
    pub fn is_same(&self, other: &ValuesCheckpoint) -> bool
        ensures same { result ≡ true → self.now ≡ other.now }
        ensures differs { self.now ≡ other.now → result ≡ true }
    {
        self.values.is_same(&other.values)
    }
}
