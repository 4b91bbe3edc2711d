ghost use Rattle.std.specs.Prelude.{◌≡◌, ◌+◌, ◌^◌, ◌<◌, ◌≤◌, ◌++◌, ◌∷◌, [], drop, false, length, map, slice_get, slice_index_or, slice_set, true, IfOk, IfSome, OnErr, OnOk};
ghost use Rattle.std.specs.Arc.{arc_value};
ghost use Rattle.std.specs.List.{insert};
ghost use Rattle.std.specs.List.Sorted.{IsPartitionPoint};
ghost use Rattle.vp_text.specs.Lists.{joined};
ghost use Rattle.vp_strata.specs.Chunks.{first_place, position};
ghost use Rattle.vp_strata.specs.Queues.{AreOrdered, first_time, is_by};

use crate::chunk::FutureChunk;
use crate::event::Timed;
use std::alloc::{AllocError, Global};
use std::collections::VecDeque;
use std::marker::Model;
use std::sync::Arc;
use vp_text::Same;

/// Future events in chunks that clones share. A contract sees the events of each chunk, but those that are over.
#[derive(Drop)]
pub struct FutureChunks {
    alloc: Global,
    chunks: VecDeque<Arc<FutureChunk>>,
    /// So many events of the first chunk are over.
    taken: usize,
    /// The chunk that was over last. The next new one is made of it.
    spare: Option<Arc<FutureChunk>>,
}

impl Model for FutureChunks {
    ghost use Rattle.std.specs.Prelude.{List, map};
    ghost use Rattle.std.specs.Arc.{arc_value};
    ghost use Rattle.vp_strata.specs.declared.event.Timed.{Timed};
    ghost use Rattle.vp_strata.specs.Chunks.{AreUnfinished, remaining};

    ghost Value = { List (List Timed) };

    ghost view = { λ c. remaining c.taken (map arc_value c.chunks.items) };

    ghost invariant = { λ c. AreUnfinished c.taken (map arc_value c.chunks.items) };
}

/// The place of the first event that remains in a chunk: after those that are over in the first.
fn first_place(taken: usize, number: usize) -> usize
    ensures { result ≡ first_place taken number }
{
    if number == 0 { taken } else { 0 }
}

/// One more event at a place of a chunk, which is copied first if it is shared; where there is no memory nothing changes.
fn insert_in(
    chunks: &mut VecDeque<Arc<FutureChunk>>,
    number: usize,
    place: usize,
    event: Timed,
) -> Result<(), AllocError>
    requires number { number < length chunks.old.items }
    requires room { length (slice_index_or (map arc_value chunks.old.items) number []) < 64 }
    requires place { place ≤ length (slice_index_or (map arc_value chunks.old.items) number []) }
    ensures inserted { OnOk result (map arc_value chunks.new.items
        ≡ slice_set (map arc_value chunks.old.items) number
        (insert (slice_index_or (map arc_value chunks.old.items) number []) place event)) }
    ensures kept { OnErr result
        (map arc_value chunks.new.items ≡ map arc_value chunks.old.items) }
{
    let chunk = Arc::make_mut(&mut chunks[number])?;
    chunk.insert(place, event)
}

/// One more chunk at a number, and another in place of the one before; where there is no memory nothing changes.
fn replace_in(
    chunks: &mut VecDeque<Arc<FutureChunk>>,
    number: usize,
    front: Arc<FutureChunk>,
    back: Arc<FutureChunk>,
) -> Result<(), AllocError>
    requires { number < length chunks.old.items }
    ensures replaced { OnOk result
        (chunks.new.items ≡ slice_set (insert chunks.old.items (number + 1) back) number front) }
    ensures kept { OnErr result (chunks.new.items ≡ chunks.old.items) }
{
    chunks.insert(number + 1, back)?;
    chunks[number] = front;
    Ok(())
}

/// The spare chunk with an event alone, if no other queue shares it.
fn renewed(
    spare: Option<Arc<FutureChunk>>,
    event: Timed,
) -> Result<Option<Arc<FutureChunk>>, AllocError>
    ensures { IfOk result (λ found. IfSome found (λ chunk. arc_value chunk ≡ event ∷ [])) }
{
    let Some(mut chunk) = spare else {
        return Ok(None);
    };
    let Some(own) = Arc::get_mut(&mut chunk) else {
        return Ok(None);
    };
    own.renew(event)?;
    Ok(Some(chunk))
}

/// A chunk with an event alone: the spare one, if no other queue shares it, or a new one.
fn chunk_of(
    alloc: Global,
    spare: Option<Arc<FutureChunk>>,
    event: Timed,
) -> Result<Arc<FutureChunk>, AllocError>
    ensures { IfOk result (λ chunk. arc_value chunk ≡ event ∷ []) }
{
    if let Some(chunk) = renewed(spare, event)? {
        return Ok(chunk);
    }
    let chunk = FutureChunk::of_event(alloc, event)?;
    Ok(Arc::new(alloc, chunk)?)
}

impl FutureChunks {
    /// No chunk.
    pub fn new(alloc: Global) -> FutureChunks
        ensures { result ≡ [] }
    {
        FutureChunks {
            alloc,
            chunks: VecDeque::new(alloc),
            taken: 0,
            spare: None,
        }
    }

    /// The same events for one holder more, which shares the chunks; or an error where there is no memory, or the holders can't be
    /// counted. Takes memory for a pointer to each chunk.
    pub fn try_clone(&self) -> Result<FutureChunks, AllocError>
        ensures { IfOk result (λ c. c ≡ self.now) }
    {
        let mut chunks = VecDeque::with_capacity(self.alloc, self.chunks.len())?;
        for number in 0..self.chunks.len() {
            chunks.push_back(Arc::try_clone(&self.chunks[number])?)?;
        }
        Ok(FutureChunks {
            alloc: self.alloc,
            chunks,
            taken: self.taken,
            spare: None,
        })
    }

    /// How many chunks there are.
    pub fn len(&self) -> usize
        ensures { result ≡ length self.now }
    {
        self.chunks.len()
    }

    /// Where events stand that come no later than a time: before a place of a chunk, which is given by its number.
    pub fn find(&self, time: u64) -> (usize, usize)
        requires { AreOrdered (joined self.now) }
        ensures parted { IsPartitionPoint (λ e. is_by time e ≡ true) (λ e. is_by time e ≡ false)
            (joined self.now) (position self.now result.0 result.1) }
        ensures number { result.0 ≤ length self.now }
        ensures within { result.0 < length self.now
            → result.1 < length (slice_index_or self.now result.0 []) }
        ensures last { length self.now ≤ result.0 → result.1 ≡ 0 }
    {
        let number = self.chunks.partition_point(|chunk| chunk.ends_by(time));
        match self.chunks.get(number) {
            Some(chunk) => (
                number,
                chunk.count_by(first_place(self.taken, number), time),
            ),
            None => (number, 0),
        }
    }

    /// How many events stand before a place of a chunk.
    pub fn position(&self, number: usize, place: usize) -> usize
        requires number { number ≤ length self.now }
        requires fits { position self.now number place < 2 ^ 64 }
        ensures { result ≡ position self.now number place }
    {
        let mut count = place;
        for before in 0..number {
            count += self.chunks[before].len() - first_place(self.taken, before);
        }
        count
    }

    /// One more event before one of a chunk; where there is no memory nothing changes.
    pub fn insert(&mut self, number: usize, place: usize, event: Timed) -> Result<(), AllocError>
        requires number { number < length self.old }
        requires within { place < length (slice_index_or self.old number []) }
        ensures inserted { OnOk result
            (joined self.new ≡ insert (joined self.old) (position self.old number place) event) }
        ensures kept { OnErr result (self.new ≡ self.old) }
    {
        let first = first_place(self.taken, number);
        if !self.chunks[number].is_full() {
            return insert_in(&mut self.chunks, number, first + place, event);
        }
        let (front, back) = self.chunks[number].halves(first, place, event)?;
        let front = Arc::new(self.alloc, front)?;
        let back = Arc::new(self.alloc, back)?;
        replace_in(&mut self.chunks, number, front, back)?;
        self.taken -= first;
        Ok(())
    }

    /// One more event after all; where there is no memory nothing changes.
    pub fn push(&mut self, event: Timed) -> Result<(), AllocError>
        ensures pushed { OnOk result (joined self.new ≡ joined self.old ++ event ∷ []) }
        ensures kept { OnErr result (self.new ≡ self.old) }
    {
        if let Some(last) = self.chunks.back() {
            let place = last.len();
            if !last.is_full() {
                let number = self.chunks.len() - 1;
                return insert_in(&mut self.chunks, number, place, event);
            }
        }
        let chunk = chunk_of(self.alloc, self.spare.take(), event)?;
        self.chunks.push_back(chunk)?;
        Ok(())
    }

    /// The events that remain in a chunk, which is given by its number.
    fn events(&self, number: usize) -> &[Timed]
        requires { number < length self.now }
        ensures { result.now ≡ slice_index_or self.now number [] }
    {
        self.chunks[number].events_from(first_place(self.taken, number))
    }

    /// Where the event stands that comes after one of a chunk: after the last of a chunk comes the first of the next.
    fn following_position(&self, number: usize, place: usize) -> (usize, usize)
        requires number { number < length self.now }
        requires within { place < length (slice_index_or self.now number []) }
        ensures position { position self.now result.0 result.1
            ≡ position self.now number place + 1 }
        ensures within { result.0 < length self.now
            → result.1 < length (slice_index_or self.now result.0 []) }
    {
        // Read, so that the check knows that no chunk is empty.
        let _taken = self.taken;
        let count = self.events(number).len();
        if place + 1 < count {
            (number, place + 1)
        } else {
            (number + 1, 0)
        }
    }

    /// The events are the same as others, of which there are as many. The chunks may be others.
    #[tactic(auto, using(crate::proofs::Walks::number_within))]
    pub fn is_same(&self, other: &FutureChunks, count: usize) -> bool
        requires count { length (joined self.now) ≡ count }
        requires other { length (joined other.now) ≡ count }
        ensures same { result ≡ true → joined self.now ≡ joined other.now }
        ensures differs { joined self.now ≡ joined other.now → result ≡ true }
    {
        // Read, so that the check knows what holds of both.
        let (_taken, _other) = (self.taken, other.taken);
        let mut first = (0, 0);
        let mut second = (0, 0);
        for _index in 0..count {
            if !self.events(first.0)[first.1].is_same(&other.events(second.0)[second.1]) {
                return false;
            }
            first = self.following_position(first.0, first.1);
            second = other.following_position(second.0, second.1);
        }
        true
    }

    /// The time of the first event, in time units; none where there is none.
    pub fn first_time(&self) -> Option<u64>
        ensures { result ≡ first_time (joined self.now) }
    {
        match self.chunks.front() {
            Some(chunk) => chunk.time_at(self.taken),
            None => None,
        }
    }

    /// Takes the first event.
    pub fn pop(&mut self) -> Option<Timed>
        ensures first { result ≡ slice_get (joined self.old) 0 }
        ensures rest { joined self.new ≡ drop 1 (joined self.old) }
    {
        let chunk = self.chunks.front()?;
        let event = chunk.get(self.taken)?;
        let count = chunk.len();
        if self.taken + 1 < count {
            self.taken += 1;
        } else {
            self.spare = self.chunks.pop_front();
            self.taken = 0;
        }
        Some(event)
    }
}
