ghost use Rattle.std.specs.Prelude.{◌≡◌, ◌≤◌, [], drop, filter, length, not, slice_get, take, true, IfNone, IfOk, IfSome, OnErr, OnOk};
ghost use Rattle.vp_strata.specs.Queues.{first_time, is_at, scheduled};

use crate::chunks::FutureChunks;
use crate::event::{Delayed, Timed};
use std::alloc::{AllocError, Global};
use std::marker::Model;

/// The future events, in the order of their times, those of one time in the order in which they were scheduled (11.3). They stand in
/// chunks that clones share. A contract sees the list of the events.
#[derive(Drop)]
pub struct FutureRegion {
    chunks: FutureChunks,
    /// How many events there are.
    count: usize,
}

impl Model for FutureRegion {
    ghost use Rattle.std.specs.Prelude.{◌≡◌, List, length};
    ghost use Rattle.vp_strata.specs.declared.event.Timed.{Timed};
    ghost use Rattle.vp_text.specs.Lists.{joined};
    ghost use Rattle.vp_strata.specs.Queues.{AreOrdered};

    ghost Value = { List Timed };

    ghost view = { λ f. joined f.chunks };

    ghost invariant = { λ f. (f.count ≡ length (joined f.chunks))
        × AreOrdered (joined f.chunks) };
}

impl FutureRegion {
    /// No event.
    pub fn new(alloc: Global) -> FutureRegion
        ensures { result ≡ [] }
    {
        FutureRegion {
            chunks: FutureChunks::new(alloc),
            count: 0,
        }
    }

    /// The same events for one holder more, which shares them; or an error where there is no memory, or the holders can't be counted.
    /// Takes memory for a pointer to each chunk of 64 events, or fewer.
    pub fn try_clone(&self) -> Result<FutureRegion, AllocError>
        ensures { IfOk result (λ f. f ≡ self.now) }
    {
        Ok(FutureRegion {
            chunks: self.chunks.try_clone()?,
            count: self.count,
        })
    }

    /// One more event, at its time. What is shared there is copied first, and where there is no memory for that nothing changes.
    pub fn schedule(&mut self, time: u64, event: Delayed) -> Result<(), AllocError>
        ensures scheduled { OnOk result
            (self.new ≡ scheduled (record { time = time; event = event }) self.old) }
        ensures kept { OnErr result (self.new ≡ self.old) }
    {
        let Some(count) = self.count.checked_add(1) else {
            return Err(AllocError);
        };
        let event = Timed { time, event };
        let (number, place) = self.chunks.find(time);
        if number < self.chunks.len() {
            self.chunks.insert(number, place, event)?;
        } else {
            self.chunks.push(event)?;
        }
        self.count = count;
        Ok(())
    }

    /// The time of the first event, in time units; none where there is none.
    pub fn first_time(&self) -> Option<u64>
        ensures { result ≡ first_time self.now }
    {
        self.chunks.first_time()
    }

    /// How many events come at the time of the first.
    #[tactic(auto, using(crate::proofs::Times::alone))]
    pub fn count_first(&self) -> usize
        ensures first { IfSome (first_time self.now)
            (λ time. take result self.now ≡ filter (is_at time) self.now) }
        ensures last { IfSome (first_time self.now)
            (λ time. drop result self.now ≡ filter (λ e. not (is_at time e)) self.now) }
        ensures none { IfNone (first_time self.now) (result ≡ 0) }
        ensures within { result ≤ length self.now }
    {
        // A clock is often the only event that is to come.
        if self.count <= 1 {
            self.count
        } else {
            self.count_at_first()
        }
    }

    /// The same, where it is looked for.
    fn count_at_first(&self) -> usize
        ensures first { IfSome (first_time self.now)
            (λ time. take result self.now ≡ filter (is_at time) self.now) }
        ensures last { IfSome (first_time self.now)
            (λ time. drop result self.now ≡ filter (λ e. not (is_at time e)) self.now) }
        ensures none { IfNone (first_time self.now) (result ≡ 0) }
        ensures within { result ≤ length self.now }
    {
        let _count = self.count;
        let Some(first) = self.chunks.first_time() else {
            return 0;
        };
        let (number, place) = self.chunks.find(first);
        self.chunks.position(number, place)
    }

    /// The events are the same as those of another region.
    pub fn is_same(&self, other: &FutureRegion) -> bool
        ensures same { result ≡ true → self.now ≡ other.now }
        ensures differs { self.now ≡ other.now → result ≡ true }
    {
        self.count == other.count && self.chunks.is_same(&other.chunks, self.count)
    }

    /// Takes the first event. No memory is needed, and no event is copied.
    pub fn pop(&mut self) -> Option<Timed>
        ensures first { result ≡ slice_get self.old 0 }
        ensures rest { self.new ≡ drop 1 self.old }
    {
        let event = self.chunks.pop()?;
        self.count -= 1;
        Some(event)
    }
}
