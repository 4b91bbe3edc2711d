ghost use Rattle.std.specs.Prelude.{◌≡◌, ◌<◌, ◌≤◌, ◌++◌, ◌∷◌, [], drop, false, length, nat_le, slice_get, slice_range, true, IfOk, OnErr, OnOk};
ghost use Rattle.std.specs.List.{insert};
ghost use Rattle.std.specs.List.Sorted.{IsPartitionPoint};
ghost use Rattle.vp_strata.specs.Chunks.{ends_by};
ghost use Rattle.vp_strata.specs.Queues.{AreOrdered, first_time, is_by};

use crate::event::Timed;
use std::alloc::{AllocError, Global};
use std::marker::Model;

/// At most so many events stand in a chunk.
const MOST: usize = 64;

/// Future events, one after another, at most 64. A contract sees them.
#[derive(Drop)]
pub struct FutureChunk {
    alloc: Global,
    events: Vec<Timed>,
}

impl Model for FutureChunk {
    ghost use Rattle.std.specs.Prelude.{◌≤◌, List, length};
    ghost use Rattle.vp_strata.specs.declared.event.Timed.{Timed};

    ghost Value = { List Timed };

    ghost view = { λ c. c.events.items };

    ghost invariant = { λ c. length c.events.items ≤ 64 };
}

impl Clone for FutureChunk {
    ghost is_clone = { λ c d. d ≡ c };

    fn clone(&self) -> Result<FutureChunk, AllocError> {
        // A copy is made where one more event is to stand in it.
        let mut events = Vec::with_capacity(self.alloc, self.events.len() + 1)?;
        events.extend_from_slice(self.events.as_slice())?;
        Ok(FutureChunk {
            alloc: self.alloc,
            events,
        })
    }
}

impl FutureChunk {
    /// One event.
    pub fn of_event(alloc: Global, event: Timed) -> Result<FutureChunk, AllocError>
        ensures { IfOk result (λ c. c ≡ event ∷ []) }
    {
        let mut chunk = FutureChunk {
            alloc,
            events: Vec::new(alloc),
        };
        chunk.renew(event)?;
        Ok(chunk)
    }

    /// This event alone, in place of all others.
    pub fn renew(&mut self, event: Timed) -> Result<(), AllocError>
        ensures { OnOk result (self.new ≡ event ∷ []) }
    {
        // Taken apart, so that the check finds the types of the parts here.
        let Timed { time, event } = event;
        self.events.clear();
        self.events.push(Timed { time, event })?;
        Ok(())
    }

    /// How many events there are.
    pub fn len(&self) -> usize
        ensures len { result ≡ length self.now }
        ensures most { result ≤ 64 }
    {
        self.events.len()
    }

    /// No more events can stand in it.
    pub fn is_full(&self) -> bool
        ensures { result ≡ nat_le 64 (length self.now) }
    {
        self.events.len() >= MOST
    }

    /// The events from a place on.
    pub fn events_from(&self, place: usize) -> &[Timed]
        requires { place ≤ length self.now }
        ensures { result.now ≡ drop place self.now }
    {
        &self.events[place..]
    }

    /// The event at a place, if there is one.
    pub fn get(&self, place: usize) -> Option<Timed>
        ensures { result ≡ slice_get self.now place }
    {
        self.events.get(place).copied()
    }

    /// The time of the event at a place, if there is one.
    pub fn time_at(&self, place: usize) -> Option<u64>
        ensures { result ≡ first_time (drop place self.now) }
    {
        match self.events.get(place) {
            Some(event) => Some(event.time),
            None => None,
        }
    }

    /// The last event comes no later than a time, if there is one.
    pub fn ends_by(&self, time: u64) -> bool
        ensures { result ≡ ends_by time self.now }
    {
        match self.events.last() {
            Some(event) => event.time <= time,
            None => true,
        }
    }

    /// How many events from a place on come no later than a time.
    pub fn count_by(&self, from: usize, time: u64) -> usize
        requires within { from ≤ length self.now }
        requires ordered { AreOrdered (drop from self.now) }
        ensures parted { IsPartitionPoint (λ e. is_by time e ≡ true) (λ e. is_by time e ≡ false)
            (drop from self.now) result }
        ensures within { result ≤ length (drop from self.now) }
    {
        let rest = &self.events[from..];
        rest.partition_point(|e| e.time <= time)
    }

    /// One more event at a place; where there is no memory nothing changes.
    pub fn insert(&mut self, place: usize, event: Timed) -> Result<(), AllocError>
        requires room { length self.old < 64 }
        requires within { place ≤ length self.old }
        ensures inserted { OnOk result (self.new ≡ insert self.old place event) }
        ensures kept { OnErr result (self.new ≡ self.old) }
    {
        // Taken apart, so that the check finds the types of the parts here.
        let Timed { time, event } = event;
        self.events.insert(place, Timed { time, event })?;
        Ok(())
    }

    /// The events from one place up to another.
    fn range(&self, from: usize, to: usize) -> Result<FutureChunk, AllocError>
        requires order { from ≤ to }
        requires within { to ≤ length self.now }
        ensures { IfOk result (λ c. c ≡ slice_range self.now from to) }
    {
        let mut events = Vec::with_capacity(self.alloc, MOST)?;
        events.extend_from_slice(&self.events[from..to])?;
        Ok(FutureChunk {
            alloc: self.alloc,
            events,
        })
    }

    /// The events from a place on with one more, before one of them, whose place is counted from there, in two chunks.
    pub fn halves(
        &self,
        from: usize,
        place: usize,
        event: Timed,
    ) -> Result<(FutureChunk, FutureChunk), AllocError>
        requires { place < length (drop from self.now) }
        ensures both { IfOk result (λ h. h.0 ++ h.1 ≡ insert (drop from self.now) place event) }
        ensures front { IfOk result (λ h. 0 < length h.0) }
        ensures back { IfOk result (λ h. 0 < length h.1) }
    {
        let half = (self.len() - from) / 2;
        let mut front = self.range(from, from + half)?;
        let mut back = self.range(from + half, self.len())?;
        if place <= half {
            front.insert(place, event)?;
            return Ok((front, back));
        }
        back.insert(place - half, event)?;
        Ok((front, back))
    }
}
