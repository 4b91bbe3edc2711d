ghost use Rattle.std.specs.Prelude.{◌≡◌, true};

use crate::sequence::Sequence;
use crate::shared::SharedText;
use crate::text::Text;

/// What is compared by its contents.
pub trait Same {
    /// The contents are the same.
    fn is_same(&self, other: &Self) -> bool
        ensures same { result ≡ true → self.now ≡ other.now }
        ensures differs { self.now ≡ other.now → result ≡ true };
}

impl Same for usize {
    fn is_same(&self, other: &usize) -> bool {
        self == other
    }
}

impl Same for u32 {
    fn is_same(&self, other: &u32) -> bool {
        self == other
    }
}

impl Same for Option<u32> {
    fn is_same(&self, other: &Option<u32>) -> bool {
        *self == *other
    }
}

impl Same for Text {
    fn is_same(&self, other: &Text) -> bool {
        self.as_str() == other.as_str()
    }
}

impl Same for SharedText {
    fn is_same(&self, other: &SharedText) -> bool {
        self.as_str() == other.as_str()
    }
}

impl<T: Same + Drop> Same for Sequence<T> {
    fn is_same(&self, other: &Sequence<T>) -> bool {
        are_same(self.as_slice(), other.as_slice())
    }
}

/// Two lists have the same items.
pub fn are_same<T: Same>(first: &[T], second: &[T]) -> bool
    ensures same { result ≡ true → first.now ≡ second.now }
    ensures differs { first.now ≡ second.now → result ≡ true }
{
    if first.len() != second.len() {
        return false;
    }
    for place in 0..first.len() {
        if !first[place].is_same(&second[place]) {
            return false;
        }
    }
    true
}
