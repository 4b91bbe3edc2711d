ghost use Rattle.std.specs.Prelude.{◌≡◌, ◌==◌, ◌<◌, ◌≤◌, ◌+◌, ◌-◌, ◌^◌, ◌++◌, ◌∷◌, [], drop, false, length, option_and_then, slice_get, slice_index_or, slice_set, take, true, None, IfOk, IfSome, OnOk};
ghost use Rattle.std.specs.List.{All, remove};
ghost use Rattle.vp_active_events.specs.declared.event.Event.TheVariants.{Evaluation, NetUpdate};
ghost use Rattle.vp_active_events.specs.Events.{eligible_places, is_nonblocking};
ghost use Rattle.vp_active_events.specs.Slots.{AreMarked, IsPushed, count_empty, does_first_wait, events_at, events_of, is_ready, released, without_at};

use crate::counts::{count_at, set_count};
use crate::event::Event;
use crate::slot::Slot;
use crate::slots::ActiveSlots;
use std::alloc::{AllocError, Global};
use std::marker::Model;
use vp_bits::Bits;

/// The active events that are no updates of nonblocking assignments, in the order in which they became active (11.3). A contract sees them, for
/// how many more there is room, and how many processes there are.
#[derive(Drop)]
pub struct ActiveRegion {
    slots: ActiveSlots,
    /// Of each process, how many updates of its net are active.
    updates: Vec<usize>,
}

impl Model for ActiveRegion {
    ghost use Rattle.std.specs.Prelude.{length};
    ghost use Rattle.vp_active_events.specs.Events.{Region};
    ghost use Rattle.vp_active_events.specs.Slots.{AreMarked, events_of};

    ghost Value = { Region };

    ghost view = { λ r. record {
      events = events_of r.slots.slots;
      room = r.slots.room;
      processes = length r.updates.items;
    } };

    ghost invariant = { λ r. AreMarked r.slots.slots r.updates.items };
}

/// An update of the net of a process, one of so many that are active, is over. The oldest of the others, which stands from a place on, waits no longer.
#[inline(never)]
fn release(slots: &mut ActiveSlots, updates: &mut Vec<usize>, place: usize, process: usize)
    requires within { place ≤ length slots.old.slots }
    requires counted { 0 < slice_index_or updates.old.items process 0 }
    requires none { slice_index_or updates.old.items process 0 ≡ 1
        → released process (drop place slots.old.slots) ≡ drop place slots.old.slots }
    requires waits { does_first_wait process (drop place slots.old.slots) ≡ true }
    ensures slots { slots.new.slots ≡ take place slots.old.slots
        ++ released process (drop place slots.old.slots) }
    ensures updates { updates.new.items ≡ slice_set updates.old.items process
        (slice_index_or updates.old.items process 0 - 1) }
    ensures room { slots.new.room ≡ slots.old.room }
{
    let count = count_at(updates, process);
    set_count(updates, process, count - 1);
    if count > 1 {
        slots.free_next(place, process);
    }
}

/// The oldest event, if there is one, is over, where no slot is empty.
#[inline(always)]
fn take_front(slots: &mut ActiveSlots, updates: &mut Vec<usize>)
    requires marked { AreMarked slots.old.slots updates.old.items }
    requires full { count_empty slots.old.slots ≡ 0 }
    ensures marked { AreMarked slots.new.slots updates.new.items }
    ensures events { events_of slots.new.slots ≡ drop 1 (events_of slots.old.slots) }
    ensures no_less { slots.old.room ≤ slots.new.room }
    ensures processes { length updates.new.items ≡ length updates.old.items }
{
    if let Some(Slot::NetUpdate { process, .. }) = slots.pop_front() {
        release(slots, updates, 0, process);
    }
}

/// The event at a place, which waits for none, is over.
fn take_at(slots: &mut ActiveSlots, updates: &mut Vec<usize>, place: usize)
    requires marked { AreMarked slots.old.slots updates.old.items }
    requires within { place < length slots.old.slots }
    requires ready { IfSome (slice_get slots.old.slots place) (λ s. is_ready s ≡ true) }
    ensures marked { AreMarked slots.new.slots updates.new.items }
    ensures events { events_of slots.new.slots ≡ remove (events_of slots.old.slots)
        (length (events_of (take place slots.old.slots))) }
    ensures room { slots.new.room ≡ slots.old.room }
    ensures processes { length updates.new.items ≡ length updates.old.items }
{
    if let Slot::NetUpdate { process, .. } = slots.take_out(place) {
        release(slots, updates, place, process);
    }
}

/// The k-th of the eligible events is over, if there is one, which is looked for.
#[inline(never)]
fn take_sought(slots: &mut ActiveSlots, updates: &mut Vec<usize>, k: usize)
    requires { AreMarked slots.old.slots updates.old.items }
    ensures marked { AreMarked slots.new.slots updates.new.items }
    ensures events { events_of slots.new.slots ≡ without_at
        (slice_get (eligible_places (events_of slots.old.slots)) k) (events_of slots.old.slots) }
    ensures no_less { slots.old.room ≤ slots.new.room }
    ensures processes { length updates.new.items ≡ length updates.old.items }
{
    if let Some(place) = slots.find(k) {
        take_at(slots, updates, place);
        slots.tidy();
    }
}

impl ActiveRegion {
    /// No event of so many processes.
    pub fn new(alloc: Global, processes: usize) -> Result<ActiveRegion, AllocError>
        ensures events { IfOk result (λ r. r.events ≡ []) }
        ensures processes { IfOk result (λ r. r.processes ≡ processes) }
    {
        let updates = vec![in alloc; 0; processes]?;
        Ok(ActiveRegion {
            slots: ActiveSlots::new(alloc),
            updates,
        })
    }

    /// The events again, as a list. Each update of a net is by one of the processes.
    pub fn copied_events(&self, alloc: Global) -> Result<Vec<Event>, AllocError>
        ensures events { IfOk result (λ v. v.items ≡ self.now.events) }
        ensures processes { All (λ e. IsPushed self.now.processes e) self.now.events }
    {
        self.slots.copied(alloc)
    }

    /// How many processes there are.
    pub fn processes(&self) -> usize
        ensures { result ≡ self.now.processes }
    {
        self.updates.len()
    }

    /// There is no event.
    #[inline(always)]
    pub fn is_empty(&self) -> bool
        ensures { result ≡ (length self.now.events == 0) }
    {
        self.slots.len() == 0
    }

    /// Makes room for so many more events, and besides for so many that may be activated.
    pub fn reserve_all(&mut self, count: usize, inactive: usize) -> Result<(), AllocError>
        ensures room { OnOk result (count + inactive ≤ self.new.room) }
        ensures no_less { self.old.room ≤ self.new.room }
        ensures events { self.new.events ≡ self.old.events }
        ensures processes { self.new.processes ≡ self.old.processes }
    {
        let Some(total) = count.checked_add(inactive) else {
            return Err(AllocError);
        };
        self.slots.reserve(total)
    }

    /// The evaluation of a process becomes active.
    #[inline(always)]
    pub fn push_evaluation(&mut self, process: usize)
        requires { 1 ≤ self.old.room }
        ensures events { self.new.events ≡ self.old.events ++ Evaluation process ∷ [] }
        ensures room { self.new.room + 1 ≡ self.old.room }
        ensures processes { self.new.processes ≡ self.old.processes }
    {
        self.slots.push(Slot::Evaluation { process });
    }

    /// An update of the net of a process becomes active.
    pub fn push_net_update(&mut self, process: usize, value: Bits)
        requires room { 1 ≤ self.old.room }
        requires within { process < self.old.processes }
        ensures events { self.new.events ≡ self.old.events ++ NetUpdate process value ∷ [] }
        ensures room { self.new.room + 1 ≡ self.old.room }
        ensures processes { self.new.processes ≡ self.old.processes }
    {
        let _all = self.slots.len();
        let count = count_at(&self.updates, process);
        set_count(&mut self.updates, process, count + 1);
        self.slots.push(Slot::NetUpdate {
            process,
            value,
            waiting: count > 0,
        });
    }

    /// An event becomes active.
    fn push(&mut self, event: Event)
        requires room { 1 ≤ self.old.room }
        requires event { IsPushed self.old.processes event }
        ensures events { self.new.events ≡ self.old.events ++ event ∷ [] }
        ensures room { self.new.room + 1 ≡ self.old.room }
        ensures processes { self.new.processes ≡ self.old.processes }
    {
        match event {
            Event::Evaluation { process } => self.push_evaluation(process),
            Event::NetUpdate { process, value } => self.push_net_update(process, value),
            Event::Nonblocking { .. } => unreachable!(),
        }
    }

    /// Some events become active, one after another.
    pub fn push_all(&mut self, events: &[Event])
        requires room { length events.now ≤ self.old.room }
        requires events { All (λ e. IsPushed self.old.processes e) events.now }
        ensures events { self.new.events ≡ self.old.events ++ events.now }
        ensures room { self.new.room + length events.now ≡ self.old.room }
        ensures processes { self.new.processes ≡ self.old.processes }
    {
        for event in events {
            self.push(*event);
        }
    }

    /// The events stand close together.
    fn compact(&mut self)
        ensures events { self.new.events ≡ self.old.events }
        ensures no_less { self.old.room ≤ self.new.room }
        ensures processes { self.new.processes ≡ self.old.processes }
    {
        self.slots.compact();
    }

    /// All events are over.
    pub fn clear(&mut self)
        ensures events { self.new.events ≡ [] }
        ensures no_less { self.old.room ≤ self.new.room }
        ensures processes { self.new.processes ≡ self.old.processes }
    {
        self.compact();
        for _ in 0..self.slots.len() {
            self.take(0);
        }
    }

    /// How many events are eligible.
    #[inline(always)]
    pub fn eligible(&self) -> usize
        ensures count { result ≡ length (eligible_places self.now.events) }
        ensures few { result < 2 ^ 63 }
        ensures kinds { All (λ e. is_nonblocking e ≡ false) self.now.events }
    {
        self.slots.count_ready()
    }

    /// The slot of the oldest event, if no slot is empty.
    #[inline(always)]
    pub fn front(&self) -> Option<&Slot>
        ensures oldest { IfSome result (λ s. events_at s.now ≡ take 1 self.now.events) }
        ensures some { IfSome result (λ s. 0 < length self.now.events) }
    {
        if self.slots.is_full() {
            self.slots.front()
        } else {
            None
        }
    }

    /// The k-th of the eligible events, counted from 0; none where there are not so many.
    pub fn peek(&self, k: usize) -> Option<Event>
        ensures event { result ≡ option_and_then (slice_get self.now.events)
            (slice_get (eligible_places self.now.events) k) }
        ensures kinds { All (λ e. is_nonblocking e ≡ false) self.now.events }
    {
        match self.slots.find(k) {
            Some(place) => self.slots.at(place).event(),
            None => None,
        }
    }

    /// The k-th of the eligible events is over, if there is one.
    #[inline(always)]
    pub fn take(&mut self, k: usize)
        ensures events { self.new.events
            ≡ without_at (slice_get (eligible_places self.old.events) k) self.old.events }
        ensures no_less { self.old.room ≤ self.new.room }
        ensures processes { self.new.processes ≡ self.old.processes }
        ensures kinds { All (λ e. is_nonblocking e ≡ false) self.old.events }
    {
        if k == 0 && self.slots.is_full() {
            take_front(&mut self.slots, &mut self.updates);
        } else {
            take_sought(&mut self.slots, &mut self.updates, k);
        }
    }
}
