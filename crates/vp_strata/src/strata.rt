ghost use Rattle.std.specs.Prelude.{◌≡◌, ◌<◌, ◌≤◌, ◌+◌, ◌==◌, ◌++◌, ◌∷◌, [], drop, length, option_and_then, slice_get, false, true, Some, Err, IfErr, IfOk, IfSome, IsOk, OnErr, OnOk};
ghost use Rattle.vp_strata.specs.declared.error.StrataError.TheVariants.{NoMemory, TimeLimit};
ghost use Rattle.vp_active_events.specs.declared.event.Event.TheVariants.{Evaluation, NetUpdate};
ghost use Rattle.vp_active_events.specs.Events.{eligible_places};
ghost use Rattle.vp_strata.specs.Queues.{activated, advanced, first_time, inactive_activated, is_done, no_events, nonblocking_activated, peeked, put_in, ready, scheduled, taken, with_active, with_future, with_inactive, with_nonblocking};

use crate::copies::{append, copied};
use crate::error::StrataError;
use crate::event::{Delayed, Timed};
use crate::future::FutureRegion;
use crate::kept::StrataCheckpoint;
use std::alloc::{AllocError, Global};
use std::collections::VecDeque;
use std::marker::Model;
use std::mem::swap;
use vp_active_events::{ActiveRegion, Event, NonblockingUpdate, Slot};
use vp_bits::Bits;

/// Room is made for at least so many events at once, so that few of the events that follow have to ask for memory.
const AMPLE: usize = 64;

/// No event is scheduled at this time or later, in time units (profile).
pub const TIME_LIMIT: u64 = 1 << 62;

/// The event queue (IEEE Std 1364-2005, 11.3). A contract sees its four lists, how many more active, inactive and nonblocking events it
/// takes without memory, and the number of processes, by which events name them.
#[derive(Drop)]
pub struct Strata {
    /// The active updates of nonblocking assignments. They became active while no event was, so that each other active event is newer.
    assignments: VecDeque<NonblockingUpdate>,
    /// The other active events.
    active: ActiveRegion,
    inactive: VecDeque<usize>,
    nonblocking: VecDeque<NonblockingUpdate>,
    future: FutureRegion,
    /// So many events can be pushed to the active, the inactive and the nonblocking ones without memory.
    spare: usize,
}

impl Model for Strata {
    ghost use Rattle.std.specs.Prelude.{◌+◌, ◌++◌, ◌≤◌, map};
    ghost use Rattle.std.specs.VecDeque.{deque_capacity, deque_len};
    ghost use Rattle.vp_active_events.specs.declared.event.Event.TheVariants.{Nonblocking};
    ghost use Rattle.vp_strata.specs.Queues.{Regions};

    ghost Value = { Regions };

    ghost view = { λ s. record {
      queue = record {
        active = map Nonblocking s.assignments.items ++ s.active.events;
        inactive = s.inactive.items;
        nonblocking = s.nonblocking.items;
        future = s.future;
      };
      spare = s.spare;
      processes = s.active.processes;
    } };

    ghost invariant = { λ s. (s.spare ≤ deque_capacity s.assignments)
        × (s.spare + deque_len s.inactive ≤ s.active.room)
        × (deque_len s.inactive + s.spare ≤ deque_capacity s.inactive)
        × (deque_len s.nonblocking + s.spare ≤ deque_capacity s.nonblocking) };
}

impl Strata {
    /// The empty queue of so many processes. An `Err` is out of memory (701).
    pub fn new(alloc: Global, processes: usize) -> Result<Strata, StrataError>
        ensures queue { IfOk result (λ s. s.queue ≡ no_events) }
        ensures processes { IfOk result (λ s. s.processes ≡ processes) }
        ensures memory { IfErr result (λ e. e ≡ NoMemory) }
    {
        Ok(Strata {
            assignments: VecDeque::new(alloc),
            active: ActiveRegion::new(alloc, processes)?,
            inactive: VecDeque::new(alloc),
            nonblocking: VecDeque::new(alloc),
            future: FutureRegion::new(alloc),
            spare: 0,
        })
    }

    /// A copy of the events as they are, which shares the future ones. An `Err` is out of memory (701). It costs what is active, inactive
    /// and nonblocking, and a count for each chunk of 64 future events, or fewer.
    pub fn checkpoint(&self, alloc: Global) -> Result<StrataCheckpoint, StrataError>
        ensures queue { IfOk result (λ k. k.queue ≡ self.now.queue) }
        ensures processes { IfOk result (λ k. k.processes ≡ self.now.processes) }
        ensures memory { IfErr result (λ e. e ≡ NoMemory) }
    {
        Ok(StrataCheckpoint {
            assignments: copied(alloc, &self.assignments)?,
            active: self.active.copied_events(alloc)?,
            inactive: copied(alloc, &self.inactive)?,
            nonblocking: copied(alloc, &self.nonblocking)?,
            future: self.future.try_clone()?,
            processes: self.active.processes(),
        })
    }

    /// The events are again those that were kept, of a queue of as many processes. An `Err` is out of memory (701), and changes no event.
    /// It costs what the events do that were and are active, inactive and nonblocking, and a count for each chunk of future events.
    pub fn restore(&mut self, kept: &StrataCheckpoint) -> Result<(), StrataError>
        requires { self.old.processes ≡ kept.now.processes }
        ensures queue { OnOk result (self.new.queue ≡ kept.now.queue) }
        ensures unchanged { OnErr result (self.new.queue ≡ self.old.queue) }
        ensures processes { self.new.processes ≡ self.old.processes }
        ensures memory { IfErr result (λ e. e ≡ NoMemory) }
    {
        let Some(count) = kept.count() else {
            return Err(StrataError::NoMemory);
        };
        let future = kept.future.try_clone()?;
        self.room(count)?;
        self.put_back(kept, count, future);
        Ok(())
    }

    /// The events are again those that were kept, so many of them active, inactive or nonblocking; the future ones are given.
    fn put_back(&mut self, kept: &StrataCheckpoint, count: usize, future: FutureRegion)
        requires processes { self.old.processes ≡ kept.now.processes }
        requires count { count ≡ length kept.now.queue.active + length kept.now.queue.inactive
            + length kept.now.queue.nonblocking }
        requires room { count ≤ self.old.spare }
        ensures queue { self.new.queue ≡ with_future kept.now.queue future }
        ensures processes { self.new.processes ≡ self.old.processes }
    {
        self.assignments.clear();
        append(&mut self.assignments, &kept.assignments);
        self.active.clear();
        self.active.push_all(&kept.active);
        self.inactive.clear();
        append(&mut self.inactive, &kept.inactive);
        self.nonblocking.clear();
        append(&mut self.nonblocking, &kept.nonblocking);
        self.future = future;
        self.spare -= count;
    }

    /// Makes room: the next `count` events that are pushed need no memory. An `Err` is out of memory (701). No event changes.
    pub fn room(&mut self, count: usize) -> Result<(), StrataError>
        ensures spare { OnOk result (count ≤ self.new.spare) }
        ensures no_less { self.old.spare ≤ self.new.spare }
        ensures queue { self.new.queue ≡ self.old.queue }
        ensures processes { self.new.processes ≡ self.old.processes }
        ensures memory { IfErr result (λ e. e ≡ NoMemory) }
    {
        if count <= self.spare {
            Ok(())
        } else {
            self.grow(count.max(AMPLE))
        }
    }

    /// Makes room for so many events, which are more than there is room for. An `Err` is out of memory (701). No event changes.
    #[inline(never)]
    fn grow(&mut self, count: usize) -> Result<(), StrataError>
        requires { self.old.spare ≤ count }
        ensures spare { OnOk result (count ≤ self.new.spare) }
        ensures no_less { self.old.spare ≤ self.new.spare }
        ensures queue { self.new.queue ≡ self.old.queue }
        ensures processes { self.new.processes ≡ self.old.processes }
        ensures memory { IfErr result (λ e. e ≡ NoMemory) }
    {
        self.assignments.reserve(count)?;
        self.active.reserve_all(count, self.inactive.len())?;
        self.inactive.reserve(count)?;
        self.nonblocking.reserve(count)?;
        self.spare = count;
        Ok(())
    }

    /// Makes room for an event, if there is none.
    fn room_for_one(&mut self) -> Result<(), StrataError>
        ensures spare { OnOk result (1 ≤ self.new.spare) }
        ensures no_less { self.old.spare ≤ self.new.spare }
        ensures sure { 1 ≤ self.old.spare → IsOk result }
        ensures queue { self.new.queue ≡ self.old.queue }
        ensures processes { self.new.processes ≡ self.old.processes }
        ensures memory { IfErr result (λ e. e ≡ NoMemory) }
    {
        if self.spare == 0 {
            self.room(1)
        } else {
            Ok(())
        }
    }

    /// The evaluation of a process becomes active. An `Err` is out of memory (701), and changes no event.
    pub fn push_active(&mut self, process: usize) -> Result<(), StrataError>
        ensures queue { OnOk result (self.new.queue
            ≡ with_active self.old.queue (self.old.queue.active ++ Evaluation process ∷ [])) }
        ensures unchanged { OnErr result (self.new.queue ≡ self.old.queue) }
        ensures spare { self.old.spare ≤ self.new.spare + 1 }
        ensures sure { 1 ≤ self.old.spare → IsOk result }
        ensures processes { self.new.processes ≡ self.old.processes }
        ensures memory { IfErr result (λ e. e ≡ NoMemory) }
    {
        self.room_for_one()?;
        self.active.push_evaluation(process);
        self.spare -= 1;
        Ok(())
    }

    /// An update of the net that a process drives becomes active. An `Err` is out of memory (701), and changes no event.
    pub fn push_net_update(&mut self, process: usize, value: Bits) -> Result<(), StrataError>
        requires { process < self.old.processes }
        ensures queue { OnOk result (self.new.queue
            ≡ with_active self.old.queue (self.old.queue.active ++ NetUpdate process value ∷ [])) }
        ensures unchanged { OnErr result (self.new.queue ≡ self.old.queue) }
        ensures spare { self.old.spare ≤ self.new.spare + 1 }
        ensures sure { 1 ≤ self.old.spare → IsOk result }
        ensures processes { self.new.processes ≡ self.old.processes }
        ensures memory { IfErr result (λ e. e ≡ NoMemory) }
    {
        self.room_for_one()?;
        self.active.push_net_update(process, value);
        self.spare -= 1;
        Ok(())
    }

    /// One more process is inactive: it goes on after the active events (9.7.1). An `Err` is out of memory (701), and changes no event.
    pub fn push_inactive(&mut self, process: usize) -> Result<(), StrataError>
        ensures queue { OnOk result (self.new.queue
            ≡ with_inactive self.old.queue (self.old.queue.inactive ++ process ∷ [])) }
        ensures unchanged { OnErr result (self.new.queue ≡ self.old.queue) }
        ensures spare { self.old.spare ≤ self.new.spare + 1 }
        ensures sure { 1 ≤ self.old.spare → IsOk result }
        ensures processes { self.new.processes ≡ self.old.processes }
        ensures memory { IfErr result (λ e. e ≡ NoMemory) }
    {
        self.room_for_one()?;
        self.inactive.push_back_reserved(process);
        self.spare -= 1;
        Ok(())
    }

    /// One more update of a nonblocking assignment, at the current time (9.2.2). An `Err` is out of memory (701), and changes no event.
    pub fn push_nba(&mut self, update: NonblockingUpdate) -> Result<(), StrataError>
        ensures queue { OnOk result (self.new.queue
            ≡ with_nonblocking self.old.queue (self.old.queue.nonblocking ++ update ∷ [])) }
        ensures unchanged { OnErr result (self.new.queue ≡ self.old.queue) }
        ensures spare { self.old.spare ≤ self.new.spare + 1 }
        ensures sure { 1 ≤ self.old.spare → IsOk result }
        ensures processes { self.new.processes ≡ self.old.processes }
        ensures memory { IfErr result (λ e. e ≡ NoMemory) }
    {
        self.room_for_one()?;
        self.nonblocking.push_back_reserved(update);
        self.spare -= 1;
        Ok(())
    }

    /// One more future event, at a time in time units. A time of 2^62 or more is refused (702); another `Err` is out of memory
    /// (701). Each changes no event.
    pub fn push_future(&mut self, time: u64, event: Delayed) -> Result<(), StrataError>
        ensures late { TIME_LIMIT ≤ time → result ≡ Err TimeLimit }
        ensures memory { time < TIME_LIMIT → IfErr result (λ e. e ≡ NoMemory) }
        ensures queue { OnOk result (self.new.queue
            ≡ with_future self.old.queue (scheduled (record { time = time; event = event })
            self.old.queue.future)) }
        ensures unchanged { OnErr result (self.new.queue ≡ self.old.queue) }
        ensures spare { self.new.spare ≡ self.old.spare }
        ensures processes { self.new.processes ≡ self.old.processes }
    {
        if time >= TIME_LIMIT {
            return Err(StrataError::TimeLimit);
        }
        self.future.schedule(time, event)?;
        Ok(())
    }

    /// How many of the active events are eligible.
    pub fn eligible(&self) -> usize
        ensures { result ≡ length (eligible_places self.now.queue.active) }
    {
        self.assignments.len().min(1) + self.active.eligible()
    }

    /// No event is active.
    #[inline(always)]
    fn is_idle(&self) -> bool
        ensures { result ≡ (length self.now.queue.active == 0) }
    {
        self.assignments.is_empty() && self.active.is_empty()
    }

    /// How many events are eligible after the activation that a step would make: the choices of the step.
    pub fn choices(&self) -> usize
        ensures { result ≡ length (ready self.now.queue) }
    {
        if !self.is_idle() {
            return self.eligible();
        }
        if !self.inactive.is_empty() {
            return self.inactive.len();
        }
        self.nonblocking.len().min(1)
    }

    /// The process whose evaluation is the first of the eligible events, where that is known without a search.
    #[inline(always)]
    pub fn front_evaluation(&self) -> Option<usize>
        ensures first { IfSome result (λ process.
            peeked self.now.queue 0 ≡ Some (Evaluation process)) }
        ensures some { IfSome result (λ process. is_done self.now.queue ≡ false) }
    {
        if !self.assignments.is_empty() {
            return None;
        }
        match self.active.front()? {
            Slot::Evaluation { process } => Some(*process),
            Slot::Empty | Slot::NetUpdate { .. } => None,
        }
    }

    /// The k-th of the eligible events, counted from 0, after the activation that a step would make; none where there are not so many.
    #[inline(always)]
    pub fn peek(&self, k: usize) -> Option<Event>
        ensures { result ≡ peeked self.now.queue k }
    {
        if k == 0 {
            // The oldest event is always eligible.
            if let Some(update) = self.assignments.front() {
                return Some(Event::Nonblocking { update: *update });
            }
            if let Some(slot) = self.active.front() {
                return slot.event();
            }
        }
        self.peek_sought(k)
    }

    /// The same, where it is looked for.
    #[inline(never)]
    fn peek_sought(&self, k: usize) -> Option<Event>
        ensures { result ≡ peeked self.now.queue k }
    {
        if !self.is_idle() {
            return self.peek_active(k);
        }
        if !self.inactive.is_empty() {
            let process = *self.inactive.get(k)?;
            return Some(Event::Evaluation { process });
        }
        if k > 0 {
            return None;
        }
        let update = *self.nonblocking.front()?;
        Some(Event::Nonblocking { update })
    }

    /// The k-th of the active events that are eligible, counted from 0; none where there are not so many.
    fn peek_active(&self, k: usize) -> Option<Event>
        ensures { result ≡ option_and_then (slice_get self.now.queue.active)
            (slice_get (eligible_places self.now.queue.active) k) }
    {
        match self.assignments.front() {
            None => self.active.peek(k),
            Some(update) => {
                // Of these updates only the oldest is eligible.
                if k == 0 {
                    Some(Event::Nonblocking { update: *update })
                } else {
                    self.active.peek(k - 1)
                }
            }
        }
    }

    /// Takes the k-th of the active events that are eligible, counted from 0, if there is one.
    pub fn take(&mut self, k: usize)
        ensures queue { self.new.queue ≡ taken self.old.queue k }
        ensures spare { self.new.spare ≡ self.old.spare }
        ensures processes { self.new.processes ≡ self.old.processes }
    {
        if self.assignments.is_empty() {
            self.active.take(k);
        } else if k == 0 {
            self.assignments.pop_front();
        } else {
            self.active.take(k - 1);
        }
    }

    /// How many processes are inactive, and how many updates of nonblocking assignments there are.
    pub fn waiting(&self) -> (usize, usize)
        ensures { result ≡ (length self.now.queue.inactive, length self.now.queue.nonblocking) }
    {
        (self.inactive.len(), self.nonblocking.len())
    }

    /// Nothing is left to do at the current time.
    pub fn is_done(&self) -> bool
        ensures { result ≡ is_done self.now.queue }
    {
        self.is_idle() && self.inactive.is_empty() && self.nonblocking.is_empty()
    }

    /// The time of the next future event, in time units; none where there is none.
    pub fn next_time(&self) -> Option<u64>
        ensures { result ≡ first_time self.now.queue.future }
    {
        self.future.first_time()
    }

    /// All inactive processes become active.
    fn activate_inactive(&mut self)
        requires { self.old.queue.active ≡ [] }
        ensures queue { self.new.queue ≡ inactive_activated self.old.queue }
        ensures spare { self.new.spare ≡ self.old.spare }
        ensures processes { self.new.processes ≡ self.old.processes }
    {
        for _ in 0..self.inactive.len() {
            if let Some(process) = self.inactive.pop_front() {
                self.active.push_evaluation(process);
            }
        }
    }

    /// All updates of nonblocking assignments become active.
    fn activate_nonblocking(&mut self)
        requires { self.old.queue.active ≡ [] }
        ensures queue { self.new.queue ≡ nonblocking_activated self.old.queue }
        ensures spare { self.new.spare ≡ self.old.spare }
        ensures processes { self.new.processes ≡ self.old.processes }
    {
        swap(&mut self.assignments, &mut self.nonblocking);
    }

    /// While no event is active, all inactive events are activated, or if there are none, all updates of nonblocking assignments (11.4).
    #[inline(always)]
    pub fn activate(&mut self)
        ensures queue { self.new.queue ≡ activated self.old.queue }
        ensures spare { self.new.spare ≡ self.old.spare }
        ensures processes { self.new.processes ≡ self.old.processes }
    {
        // Most steps take an event that is active.
        if self.is_idle() {
            self.activate_next();
        }
    }

    /// The same, where no event is active.
    #[inline(never)]
    fn activate_next(&mut self)
        requires { (length self.old.queue.active == 0) ≡ true }
        ensures queue { self.new.queue ≡ activated self.old.queue }
        ensures spare { self.new.spare ≡ self.old.spare }
        ensures processes { self.new.processes ≡ self.old.processes }
    {
        if self.inactive.is_empty() {
            self.activate_nonblocking();
        } else {
            self.activate_inactive();
        }
    }

    /// Takes the first future event.
    fn pop_future(&mut self) -> Option<Timed>
        ensures first { result ≡ slice_get self.old.queue.future 0 }
        ensures queue { self.new.queue ≡ with_future self.old.queue (drop 1 self.old.queue.future) }
        ensures spare { self.new.spare ≡ self.old.spare }
        ensures processes { self.new.processes ≡ self.old.processes }
    {
        self.future.pop()
    }

    /// Time goes on to that of the first future event, if there is one: the processes that go on then become active, and the updates are
    /// nonblocking events of that time (11.4). An `Err` is out of memory (701), and changes no event.
    pub fn advance(&mut self) -> Result<(), StrataError>
        ensures queue { OnOk result (self.new.queue ≡ advanced self.old.queue) }
        ensures unchanged { OnErr result (self.new.queue ≡ self.old.queue) }
        ensures processes { self.new.processes ≡ self.old.processes }
        ensures memory { IfErr result (λ e. e ≡ NoMemory) }
    {
        let due = self.future.count_first();
        self.room(due)?;
        for _ in 0..due {
            if let Some(event) = self.pop_future() {
                self.put(event.event)?;
            }
        }
        Ok(())
    }

    /// What was delayed happens now.
    fn put(&mut self, event: Delayed) -> Result<(), StrataError>
        requires { 1 ≤ self.old.spare }
        ensures queue { self.new.queue ≡ put_in self.old.queue event }
        ensures spare { self.old.spare ≤ self.new.spare + 1 }
        ensures sure { IsOk result }
        ensures processes { self.new.processes ≡ self.old.processes }
    {
        match event {
            Delayed::Evaluation { process } => self.push_active(process),
            Delayed::Nonblocking { update } => self.push_nba(update),
        }
    }
}
