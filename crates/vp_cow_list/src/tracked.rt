ghost use Rattle.std.specs.Prelude.{◌≡◌, ◌<◌, ◌≤◌, ◌+◌, ◌*◌, ◌/◌, ℕ, drop, length, slice_get, slice_index_or, slice_set, take, true, IfOk, OnErr, OnOk};
ghost use Rattle.vp_cow_list.specs.Tracked.{AreMarked, HasWritten, IsRenewed, IsWritten, Lags};

use crate::chunks::Chunk;
use crate::shared_list::SharedList;
use std::alloc::{AllocError, Global};
use std::marker::Model;
use vp_text::Same;

/// A list that is written in place, and of which copies are kept: a copy shares its chunks of 64 items with the one before it, but for
/// those that were written since. A contract sees its items, in order.
#[derive(Drop)]
pub struct TrackedList<T: Copy + Drop + Same> {
    alloc: Global,
    items: Vec<T>,
    /// The items as they were when the last copy was made; empty before the first.
    copy: SharedList<T>,
    /// The numbers of the chunks that were written since.
    changed: Vec<usize>,
    /// Of each chunk a bit for each place that was written since, the first place's lowest.
    written: Vec<u64>,
    /// There was a copy, and each chunk that was written since is one of those.
    is_complete: bool,
}

impl<T: Copy + Drop + Same> Model for TrackedList<T> {
    ghost use Rattle.std.specs.Prelude.{◌≡◌, List, length, true};
    ghost use Rattle.vp_cow_list.specs.Tracked.{AreCopied, AreMarked};

    ghost Value = { List T };

    ghost view = { λ t. t.items.items };

    ghost invariant = { λ t. AreMarked t.changed.items t.written.items
        × (t.is_complete ≡ true → (length t.copy ≡ length t.items.items)
        × AreCopied t.copy t.items.items t.written.items) };
}

impl<T: Copy + Drop + Same> TrackedList<T> {
    /// The items of a vector, which is moved in. Takes memory.
    pub fn from_vec(alloc: Global, items: Vec<T>) -> Result<TrackedList<T>, AllocError>
        ensures { IfOk result (λ t. t ≡ items.items) }
    {
        let written = vec![in alloc; 0u64; items.len().div_ceil(64)]?;
        Ok(TrackedList {
            alloc,
            items,
            copy: SharedList::from_slice(alloc, &[])?,
            changed: Vec::new(alloc),
            written,
            is_complete: false,
        })
    }

    /// The list of a copy, which shares its chunks with what is kept of it until they are written. Takes memory for all items.
    pub fn of_kept(alloc: Global, kept: &SharedList<T>) -> Result<TrackedList<T>, AllocError>
        ensures { IfOk result (λ t. t ≡ kept.now) }
    {
        let written = vec![in alloc; 0u64; kept.len().div_ceil(64)]?;
        Ok(TrackedList {
            alloc,
            items: kept.to_vec(alloc)?,
            copy: kept.try_clone()?,
            changed: Vec::new(alloc),
            written,
            is_complete: true,
        })
    }

    /// The items as a slice.
    pub fn as_slice(&self) -> &[T]
        ensures { result.now ≡ self.now }
    {
        self.items.as_slice()
    }

    /// Exchanges the item at a place; does nothing where there is none.
    pub fn set(&mut self, place: usize, item: T)
        ensures { self.new ≡ slice_set self.old place item }
    {
        if place >= self.items.len() {
            return;
        }
        self.items[place] = item;
        self.is_complete = mark_written(
            self.is_complete,
            &mut self.changed,
            &mut self.written,
            place,
        );
    }

    /// A copy to be kept, which shares the chunks that were not written since the last one; or an error where there is no memory, or the
    /// holders can't be counted.
    pub fn checkpoint(&mut self) -> Result<SharedList<T>, AllocError>
        ensures copy { IfOk result (λ copy. copy ≡ self.old) }
        ensures same { self.new ≡ self.old }
    {
        if !self.is_complete {
            self.copy = SharedList::from_slice(self.alloc, self.items.as_slice())?;
            self.is_complete = true;
        }
        renew(
            &mut self.copy,
            self.items.as_slice(),
            &mut self.changed,
            &mut self.written,
        )?;
        self.copy.try_clone()
    }
}

/// Remembers that a place is written, where all others are, and reports so; but not where there is no memory for that.
#[inline(always)]
fn mark_written(
    is_complete: bool,
    changed: &mut Vec<usize>,
    written: &mut Vec<u64>,
    place: usize,
) -> bool
    requires marked { AreMarked changed.old.items written.old.items }
    ensures marked { AreMarked changed.new.items written.new.items }
    ensures others { (k : ℕ) → IsWritten written.old.items k → IsWritten written.new.items k }
    ensures there { result ≡ true → (is_complete ≡ true) × IsWritten written.new.items place }
{
    if !is_complete {
        return false;
    }
    let number = place / 64;
    if number >= written.len() {
        return false;
    }
    let bits = written_in(written, number);
    if bits == 0 && changed.push(number).is_err() {
        return false;
    }
    written[number] = bits | (1 << (place % 64));
    true
}

/// The places that were written in the chunk of a number, as bits; none where there is no such chunk.
#[inline(always)]
fn written_in(written: &Vec<u64>, number: usize) -> u64
    ensures { result ≡ slice_index_or written.now.items number 0 }
{
    match written.get(number) {
        Some(bits) => *bits,
        None => 0,
    }
}

/// No place of a chunk is written any more, if there is one of this number.
fn clear(written: &mut Vec<u64>, number: usize)
    ensures { written.new.items ≡ slice_set written.old.items number 0 }
{
    if number < written.len() {
        written[number] = 0;
    }
}

/// Takes a chunk of a list, of which these places were written, into a copy of it, if there is one of this number.
#[tactic(auto, using(crate::specs::laws::Tracked::own_past))]
fn take_over<T: Copy + Drop + Same>(
    copy: &mut SharedList<T>,
    items: &[T],
    number: usize,
    bits: u64,
) -> Result<(), AllocError>
    requires length { length copy.old ≡ length items.now }
    ensures length { length copy.new ≡ length copy.old }
    ensures own { OnOk result (IsRenewed copy.old copy.new items.now number bits) }
    ensures others { OnOk result ((k : ℕ) → (k / 64 ≡ number → ⊥)
        → slice_get copy.new k ≡ slice_get copy.old k) }
    ensures unchanged { OnErr result (copy.new ≡ copy.old) }
{
    if number >= items.len().div_ceil(64) {
        return Ok(());
    }
    let chunk = chunk_of(items, number);
    // What is the same again needs no copy.
    if has_items(copy.chunk(number), chunk, bits) {
        return Ok(());
    }
    copy.set_chunk(number, chunk)
}

/// The chunk of 64 items, or fewer at the end, of a number.
fn chunk_of<T>(items: &[T], number: usize) -> &[T]
    requires { 64 * number < length items.now }
    ensures items { result.now ≡ take 64 (drop (64 * number) items.now) }
    ensures some { 0 < length result.now }
    ensures most { length result.now ≤ 64 }
    ensures there { 64 * number + length result.now ≤ length items.now }
{
    let rest = &items[64 * number..];
    &rest[..rest.len().min(64)]
}

/// A chunk has the items of a list at the places of these bits.
fn has_items<T: Copy + Drop + Same>(chunk: &Chunk<T>, items: &[T], bits: u64) -> bool
    requires { length items.now ≤ 64 }
    ensures { result ≡ true → HasWritten chunk.now items.now bits }
{
    for place in 0..items.len() {
        if (bits >> place) & 1 == 1 && !has_item(chunk, items, place) {
            return false;
        }
    }
    true
}

/// A chunk has the item of a list at a place where there is one.
#[inline(always)]
fn has_item<T: Copy + Drop + Same>(chunk: &Chunk<T>, items: &[T], place: usize) -> bool
    ensures { result ≡ true → slice_get chunk.now place ≡ slice_get items.now place }
{
    match (chunk.get(place), items.get(place)) {
        (Some(first), Some(second)) => first.is_same(second),
        _ => false,
    }
}

/// Takes the chunks that were written since into a copy, and forgets them; or as many as there is memory for.
#[tactic(auto, using(crate::specs::laws::Tracked::copied_less, crate::specs::laws::Tracked::marked_less, crate::specs::laws::Tracked::copied_whole))]
fn renew<T: Copy + Drop + Same>(
    copy: &mut SharedList<T>,
    items: &[T],
    changed: &mut Vec<usize>,
    written: &mut Vec<u64>,
) -> Result<(), AllocError>
    requires lags { Lags copy.old items.now changed.old.items written.old.items }
    ensures all { OnOk result (copy.new ≡ items.now) }
    ensures lags { Lags copy.new items.now changed.new.items written.new.items }
{
    while let Some(number) = changed.as_slice().last().copied() {
        take_over(copy, items, number, written_in(written, number))?;
        clear(written, number);
        let _ = changed.pop();
    }
    Ok(())
}
