ghost use Rattle.std.specs.Prelude.{◌≡◌, ◌-◌, ◌<◌, ◌*◌, drop, length, min, slice_get, take, true, IfOk, OnErr, OnOk};
ghost use Rattle.std.specs.Arc.{arc_value};
ghost use Rattle.vp_cow_list.specs.Chunks.{with_items};

use crate::chunks::{Chunk, ChunkedList};
use std::alloc::{AllocError, Global};
use std::marker::Model;
use std::sync::Arc;
use vp_text::Same;

/// A list that several hold at once: one holder more costs a count. The first write after that copies what the holders share, which is
/// pointers, and the chunk of 64 items that is written. A contract sees its items, in order.
// Held behind one pointer, so that to let go of a list is one call in the proof of each function that does.
#[derive(Drop)]
pub struct SharedList<T: Copy + Drop> {
    list: Arc<ChunkedList<T>>,
}

impl<T: Copy + Drop> Model for SharedList<T> {
    ghost use Rattle.std.specs.Arc.{arc_value};
    ghost use Rattle.std.specs.Prelude.{List};

    ghost Value = { List T };

    ghost view = { λ s. arc_value s.list };
}

impl<T: Copy + Drop> SharedList<T> {
    /// The list of a slice's items. Takes memory.
    pub fn from_slice(alloc: Global, list: &[T]) -> Result<SharedList<T>, AllocError>
        ensures { IfOk result (λ s. s ≡ list.now) }
    {
        let list = ChunkedList::from_slice(alloc, list)?;
        Ok(SharedList {
            list: Arc::new(alloc, list)?,
        })
    }

    /// How many items there are.
    pub fn len(&self) -> usize
        ensures { result ≡ length self.now }
    {
        self.list.len()
    }

    /// The item at a place, if there is one.
    pub fn get(&self, place: usize) -> Option<T>
        ensures { result ≡ slice_get self.now place }
    {
        self.list.get(place)
    }

    /// Exchanges a chunk of 64 items, or fewer at the end, for others. Where there is no memory nothing changes.
    pub(crate) fn set_chunk(&mut self, number: usize, list: &[T]) -> Result<(), AllocError>
        requires there { 64 * number < length self.old }
        requires whole { length list.now ≡ min (length self.old - 64 * number) 64 }
        ensures set { OnOk result (self.new ≡ with_items self.old (64 * number) list.now) }
        ensures unchanged { OnErr result (self.new ≡ self.old) }
    {
        let shared = Arc::make_mut(&mut self.list)?;
        shared.set_chunk(number, list)
    }

    /// The same list for one holder more, which shares the items; or an error where the holders can't be counted.
    pub fn try_clone(&self) -> Result<SharedList<T>, AllocError>
        ensures { IfOk result (λ s. s ≡ self.now) }
    {
        Ok(SharedList {
            list: Arc::try_clone(&self.list)?,
        })
    }

    /// The items, one by one. Takes memory for all of them.
    pub fn to_vec(&self, alloc: Global) -> Result<Vec<T>, AllocError>
        ensures { IfOk result (λ v. v.items ≡ self.now) }
    {
        self.list.to_vec(alloc)
    }

    /// The chunk of 64 items, or fewer at the end, by its number: those from 64 times the number on.
    pub fn chunk(&self, number: usize) -> &Arc<Chunk<T>>
        requires { 64 * number < length self.now }
        ensures { arc_value result.now ≡ take 64 (drop (64 * number) self.now) }
    {
        self.list.chunk(number)
    }
}

impl<T: Copy + Drop + Same> SharedList<T> {
    /// Two lists have the same items. It takes time for each item at most, chunk by chunk, and no memory.
    pub fn is_same(&self, other: &SharedList<T>) -> bool
        ensures same { result ≡ true → self.now ≡ other.now }
        ensures differs { self.now ≡ other.now → result ≡ true }
    {
        self.list.is_same(&other.list)
    }
}
