ghost use Rattle.std.specs.Prelude.{◌≡◌, ℕ, ◌==◌, ◌<◌, ◌≤◌, ◌+◌, ◌*◌, ◌/◌, ◌^◌, ◌++◌, ◌∷◌, ◌⊎◌, [], drop, false, filter, length, not, option_map, slice_get, slice_index_or, slice_set, take, true, IfOk, IfSome, OnOk, Some};
ghost use Rattle.vp_active_events.specs.declared.slot.Slot.TheVariants.{Empty};
ghost use Rattle.vp_active_events.specs.Slots.{AreBlocksCounted, count_empty, counted_in_blocks, counted_more, does_first_wait, events_of, freed, is_empty, is_ready, is_waiting, next_from, ready_from, released};

use crate::block_counts::{BLOCK, BlockCounts, MOST_BLOCKS};
use crate::event::Event;
use crate::slot::Slot;
use std::alloc::{AllocError, Global};
use std::collections::VecDeque;
use std::marker::Model;

/// The active events that are no updates of nonblocking assignments, in slots. The oldest is taken out of the first slot, which goes with it; an event
/// that is taken from among others leaves an empty slot. While there are such, the events that are eligible are counted block by block, so that none
/// is looked for among all slots. A contract sees the slots, and for how many more there is room.
#[derive(Drop)]
pub struct ActiveSlots {
    slots: VecDeque<Slot>,
    /// So many slots are empty.
    empty: usize,
    /// So many events wait.
    waiting: usize,
    /// Of each block, how many events wait for none, while a slot is empty; otherwise 0.
    counts: BlockCounts,
}

impl Model for ActiveSlots {
    ghost use Rattle.std.specs.Prelude.{◌-◌, ◌*◌, length, min};
    ghost use Rattle.std.specs.VecDeque.{deque_capacity, deque_len};
    ghost use Rattle.vp_active_events.specs.Slots.{AreIndexed, SlotsKept};

    ghost Value = { SlotsKept };

    ghost view = { λ a. record {
      slots = a.slots.items;
      room = min (deque_capacity a.slots) (16 * length a.counts) - deque_len a.slots;
    } };

    ghost invariant = { λ a. AreIndexed a.slots.items a.empty a.waiting a.counts };
}

/// One more slot, which is ready or not, is counted in its block, while a slot is empty.
#[inline(always)]
fn count_more(counts: &mut BlockCounts, empty: usize, place: usize, ready: bool)
    requires { slice_index_or counts.old (place / 16) 0 ≤ 16 }
    ensures { counts.new ≡ counted_more empty place ready counts.old }
{
    if empty > 0 {
        count_slot(counts, place, ready);
    }
}

/// One more slot, which is ready or not, is counted in its block.
#[inline(never)]
fn count_slot(counts: &mut BlockCounts, place: usize, ready: bool)
    requires { slice_index_or counts.old (place / 16) 0 ≤ 16 }
    ensures { counts.new ≡ counted_more 1 place ready counts.old }
{
    let block = place / BLOCK;
    let count = counts.at(block) + usize::from(ready);
    counts.set(block, count);
}

/// All slots are counted in their blocks, where they were not.
#[inline(never)]
fn count_all(slots: &VecDeque<Slot>, counts: &mut BlockCounts)
    requires none { AreBlocksCounted [] counts.old }
    requires within { length slots.now.items ≤ 16 * length counts.old }
    ensures counted { AreBlocksCounted slots.now.items counts.new }
    ensures len { length counts.new ≡ length counts.old }
{
    for place in 0..slots.len() {
        count_slot(counts, place, slots[place].is_ready());
    }
}

/// All slots are counted in their blocks, of which so many are empty.
fn count_first(slots: &VecDeque<Slot>, empty: usize, counts: &mut BlockCounts)
    requires so_far { AreBlocksCounted (counted_in_blocks empty slots.now.items) counts.old }
    requires within { length slots.now.items ≤ 16 * length counts.old }
    ensures counted { AreBlocksCounted slots.now.items counts.new }
    ensures len { length counts.new ≡ length counts.old }
{
    if empty == 0 {
        count_all(slots, counts);
    }
}

/// No slot is counted in the blocks, of which only the first so many had any.
fn uncount_all(counts: &mut BlockCounts, blocks: usize)
    requires { (n : ℕ) → blocks ≤ n → slice_index_or counts.old n 0 ≡ 0 }
    ensures counted { AreBlocksCounted [] counts.new }
    ensures len { length counts.new ≡ length counts.old }
{
    for block in 0..blocks {
        counts.set(block, 0);
    }
}

impl ActiveSlots {
    /// No slot.
    pub fn new(alloc: Global) -> ActiveSlots
        ensures { result.slots ≡ [] }
    {
        ActiveSlots {
            slots: VecDeque::new(alloc),
            empty: 0,
            waiting: 0,
            counts: BlockCounts::new(alloc),
        }
    }

    /// How many events there are.
    #[inline(always)]
    pub fn len(&self) -> usize
        ensures len { result ≡ length (events_of self.now.slots) }
        ensures few { result < 2 ^ 63 }
    {
        self.slots.len() - self.empty
    }

    /// How many events wait for none.
    #[inline(always)]
    pub fn count_ready(&self) -> usize
        ensures ready { result ≡ length (ready_from 0 self.now.slots) }
        ensures few { result < 2 ^ 63 }
    {
        self.slots.len() - self.empty - self.waiting
    }

    /// No slot is empty.
    #[inline(always)]
    pub fn is_full(&self) -> bool
        ensures { result ≡ (count_empty self.now.slots == 0) }
    {
        self.empty == 0
    }

    /// The first slot, if there is one.
    #[inline(always)]
    pub fn front(&self) -> Option<&Slot>
        ensures { option_map (λ s. s.now) result ≡ slice_get self.now.slots 0 }
    {
        self.slots.front()
    }

    /// The slot at a place.
    pub fn at(&self, place: usize) -> &Slot
        requires { place < length self.now.slots }
        ensures { slice_get self.now.slots place ≡ Some result.now }
    {
        &self.slots[place]
    }

    /// The events as a list.
    pub fn copied(&self, alloc: Global) -> Result<Vec<Event>, AllocError>
        ensures { IfOk result (λ v. v.items ≡ events_of self.now.slots) }
    {
        let mut events = Vec::with_capacity(alloc, self.len())?;
        for place in 0..self.slots.len() {
            if let Some(event) = self.slots[place].event() {
                events.push(event)?;
            }
        }
        Ok(events)
    }

    /// Makes room for so many more slots.
    pub fn reserve(&mut self, count: usize) -> Result<(), AllocError>
        ensures room { OnOk result (count ≤ self.new.room) }
        ensures no_less { self.old.room ≤ self.new.room }
        ensures slots { self.new.slots ≡ self.old.slots }
    {
        self.slots.reserve(count)?;
        let blocks = (self.slots.len() + count).div_ceil(BLOCK);
        if blocks > MOST_BLOCKS {
            return Err(AllocError);
        }
        self.counts.grow(blocks)
    }

    /// One more event, after all others.
    #[inline(always)]
    pub fn push(&mut self, slot: Slot)
        requires room { 1 ≤ self.old.room }
        requires event { is_empty slot ≡ false }
        ensures slots { self.new.slots ≡ self.old.slots ++ slot ∷ [] }
        ensures room { self.new.room + 1 ≡ self.old.room }
    {
        count_more(
            &mut self.counts,
            self.empty,
            self.slots.len(),
            slot.is_ready(),
        );
        self.waiting += usize::from(slot.is_waiting());
        self.slots.push_back_reserved(slot);
    }

    /// The oldest event, which does not wait, is over, where no slot is empty. Returns its slot, if there is one.
    #[inline(always)]
    pub fn pop_front(&mut self) -> Option<Slot>
        requires full { count_empty self.old.slots ≡ 0 }
        requires ready { IfSome (slice_get self.old.slots 0) (λ s. is_waiting s ≡ false) }
        ensures slot { result ≡ slice_get self.old.slots 0 }
        ensures slots { self.new.slots ≡ drop 1 self.old.slots }
        ensures no_less { self.old.room ≤ self.new.room }
    {
        self.slots.pop_front()
    }

    /// The place of the k-th of the events that wait for none, counted from 0; none where there are not so many.
    #[inline(never)]
    pub fn find(&self, k: usize) -> Option<usize>
        ensures { result ≡ slice_get (ready_from 0 self.now.slots) k }
    {
        if self.empty > 0 {
            let (place, left) = self.block_of(k);
            return self.find_from(place, left);
        }
        if self.waiting > 0 {
            return self.find_from(0, k);
        }
        if k < self.slots.len() { Some(k) } else { None }
    }

    /// Where the block begins in which the k-th of these events stands, and its number among those of the slots from there on.
    fn block_of(&self, k: usize) -> (usize, usize)
        requires { 0 < count_empty self.now.slots }
        ensures { slice_get (ready_from result.0 (drop result.0 self.now.slots)) result.1
            ≡ slice_get (ready_from 0 self.now.slots) k }
    {
        let (block, left) = self.counts.find(k);
        (block * BLOCK, left)
    }

    /// The place of the k-th of these events in the slots from one on.
    fn find_from(&self, start: usize, k: usize) -> Option<usize>
        ensures { result ≡ slice_get (ready_from start (drop start self.now.slots)) k }
    {
        let mut left = k;
        for place in start..self.slots.len() {
            if self.slots[place].is_ready() {
                if left == 0 {
                    return Some(place);
                }
                left -= 1;
            }
        }
        None
    }

    /// The place of the first update of the net that a process drives, in the slots from one on.
    fn next_update(&self, start: usize, process: usize) -> Option<usize>
        ensures { result ≡ next_from start process (drop start self.now.slots) }
    {
        for place in start..self.slots.len() {
            if self.slots[place].is_update_of(process) {
                return Some(place);
            }
        }
        None
    }

    /// The event at a place, which waits, waits no longer.
    fn free(&mut self, place: usize)
        requires within { place < length self.old.slots }
        requires waits { IfSome (slice_get self.old.slots place) (λ s. is_waiting s ≡ true) }
        ensures slots { IfSome (slice_get self.old.slots place)
            (λ s. self.new.slots ≡ slice_set self.old.slots place (freed s)) }
        ensures room { self.new.room ≡ self.old.room }
    {
        let slot = self.slots[place].freed();
        count_more(&mut self.counts, self.empty, place, slot.is_ready());
        self.waiting -= 1;
        self.slots[place] = slot;
    }

    /// The first update of the net that a process drives, in the slots from one on, waits no longer, if there is one.
    pub fn free_next(&mut self, start: usize, process: usize)
        requires within { start ≤ length self.old.slots }
        requires waits { does_first_wait process (drop start self.old.slots) ≡ true }
        ensures slots { self.new.slots ≡ take start self.old.slots
            ++ released process (drop start self.old.slots) }
        ensures room { self.new.room ≡ self.old.room }
    {
        if let Some(place) = self.next_update(start, process) {
            self.free(place);
        }
    }

    /// The event at a place, which waits for none, is over. Returns its slot, which is empty then.
    pub fn take_out(&mut self, place: usize) -> Slot
        requires within { place < length self.old.slots }
        requires ready { IfSome (slice_get self.old.slots place) (λ s. is_ready s ≡ true) }
        ensures slot { slice_get self.old.slots place ≡ Some result }
        ensures slots { self.new.slots ≡ slice_set self.old.slots place Empty }
        ensures room { self.new.room ≡ self.old.room }
    {
        count_first(&self.slots, self.empty, &mut self.counts);
        let count = self.counts.at(place / BLOCK) - 1;
        self.counts.set(place / BLOCK, count);
        self.empty += 1;
        let slot = self.slots[place];
        self.slots[place] = Slot::Empty;
        slot
    }

    /// The empty slots go where there is no event, or where they are many more than the events.
    pub fn tidy(&mut self)
        ensures slots { (self.new.slots ≡ self.old.slots)
            ⊎ (self.new.slots ≡ filter (λ s. not (is_empty s)) self.old.slots) }
        ensures no_less { self.old.room ≤ self.new.room }
    {
        let count = self.len();
        if count == 0 || self.empty > count + BLOCK {
            self.compact();
        }
    }

    /// The empty slots go.
    #[inline(never)]
    pub fn compact(&mut self)
        ensures slots { self.new.slots ≡ filter (λ s. not (is_empty s)) self.old.slots }
        ensures no_less { self.old.room ≤ self.new.room }
    {
        uncount_all(&mut self.counts, self.slots.len().div_ceil(BLOCK));
        self.empty = 0;
        self.slots.retain(|slot| !slot.is_empty());
    }
}
