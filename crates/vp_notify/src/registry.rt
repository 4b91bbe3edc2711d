ghost use Rattle.std.specs.Prelude.{◌≡◌, ◌+◌, ◌-◌, ◌^◌, ◌≤◌, ◌↔◌, ◌∷◌, ◌++◌, [], filter, length, map, min, not, nat_lt, false, true, if◌then◌else◌, option_copied, IfErr, IfOk, IsOk, OnErr, OnOk};
ghost use Rattle.std.specs.List.{list_all, list_any};
ghost use Rattle.vp_notify.specs.declared.error.NotifyError.TheVariants.{NoMemory, NoSuchCallback, TooManyCallbacks};
ghost use Rattle.vp_notify.specs.Registry.{AreOrdered, drained, due, empty_registry, has_number, is_full, is_numbered, is_unwatchable, notice_of, polled_notice, registered, retired, watches, without};
ghost use Rattle.vp_notify.specs.Renumbered.{is_callback_within, is_notice_within, is_within, moved_callback, moved_notice, moved_registry, number_now, rises};

use crate::error::NotifyError;
use crate::notice::{Notice, Notices, PolledNotice};
use crate::order::{count_by, on_object};
use crate::renumbering::number_now;
use circular_buffer::HeapCircularBuffer;
use std::alloc::{AllocError, Global};
use std::marker::Model;
use vp_expr::{Change, ObjectId};
use vp_pragma::{Right, Rights};
use vp_text::Sequence;

/// The most callbacks that a registry has at a time.
pub const CALLBACK_LIMIT: usize = 1_024;

/// The most notices that wait at a time.
pub const NOTICE_LIMIT: usize = 4_096;

/// A callback: its number, and the object of whose changes it is notified.
#[derive(Clone, Copy)]
pub struct Callback {
    pub number: u32,
    pub object: ObjectId,
}

/// The value-change callbacks of a session, the notices that wait, and how many were lost (IEEE Std 1364-2005, 27.33, cbValueChange).
/// Numbers begin at 1 and are never used again.
#[derive(Drop)]
pub struct Registry {
    alloc: Global,
    /// By object, each object's in order of registration, so that a change costs what watches its object.
    callbacks: Vec<Callback>,
    /// The number given last; 0 before the first.
    given: u32,
    waiting: HeapCircularBuffer<Notice>,
    /// How many were lost since the last drain, as far as a `u64` counts.
    lost: u64,
}

impl Model for Registry {
    ghost use Rattle.std.specs.Prelude.{◌≡◌, ◌≤◌, length};
    ghost use Rattle.vp_notify.specs.Registry.{AreOrdered, RegistryState};

    ghost Value = { RegistryState };

    ghost view = { λ r. record {
      callbacks = r.callbacks.items;
      given = r.given;
      waiting = r.waiting.items;
      lost = r.lost;
    } };

    ghost invariant = { λ r. AreOrdered r.callbacks.items × (length r.callbacks.items ≤ 1024)
        × (r.waiting.capacity ≡ 4096) };
}

/// One of the callbacks has a number.
fn has_number(callbacks: &[Callback], number: u32) -> bool
    ensures { result ≡ list_any (is_numbered number) callbacks.now }
{
    callbacks.iter().any(|callback| callback.number == number)
}

/// What a callback is notified of a change at a time.
fn notice_of(change: &Change, time: u64, callback: &Callback) -> Notice
    ensures { result ≡ notice_of change.now time callback.now }
{
    Notice {
        callback: callback.number,
        object: change.object,
        time,
        value: change.value,
    }
}

/// One more notice waits, or is counted as lost where there is no room for it.
fn hold(waiting: &mut HeapCircularBuffer<Notice>, lost: &mut u64, notice: Notice)
    ensures waiting { waiting.new.items ≡ (if nat_lt (length waiting.old.items) waiting.old.capacity
        then waiting.old.items ++ notice ∷ [] else waiting.old.items) }
    ensures lost { lost.new ≡ (if nat_lt (length waiting.old.items) waiting.old.capacity
        then lost.old else min (lost.old + 1) (2 ^ 64 - 1)) }
    ensures capacity { waiting.new.capacity ≡ waiting.old.capacity }
{
    if waiting.try_push_back(notice).is_err() {
        *lost = lost.saturating_add(1);
    }
}

/// These rights, by object, lack the right to watch an object.
fn is_unwatchable(rights: &[Rights], object: ObjectId) -> bool
    ensures { result ≡ is_unwatchable rights.now object.0 }
{
    match rights.get(object.0 as usize) {
        Some(his) => !his.has(Right::Watch),
        None => false,
    }
}

/// Takes the notices of objects that these rights do not let be watched out of those that wait. The others stay in their order.
fn retire_notices(waiting: &mut HeapCircularBuffer<Notice>, rights: &[Rights])
    ensures waiting { waiting.new.items
        ≡ filter (λ n. not (is_unwatchable rights.now n.object.0)) waiting.old.items }
    ensures capacity { waiting.new.capacity ≡ waiting.old.capacity }
{
    for _turn in 0..waiting.len() {
        if let Some(notice) = waiting.pop_front() {
            if !is_unwatchable(rights, notice.object) {
                waiting.push_back(notice);
            }
        }
    }
}

/// Gives the objects of the notices that wait their numbers now.
fn renumber_notices(waiting: &mut HeapCircularBuffer<Notice>, numbers: &[u32])
    ensures waiting { waiting.new.items
        ≡ map (moved_notice (number_now numbers.now)) waiting.old.items }
    ensures capacity { waiting.new.capacity ≡ waiting.old.capacity }
{
    for _turn in 0..waiting.len() {
        if let Some(mut notice) = waiting.pop_front() {
            notice.object = number_now(numbers, notice.object);
            waiting.push_back(notice);
        }
    }
}

/// A callback whose object has its number now.
fn renumbered(callback: Callback, numbers: &[u32]) -> Callback
    ensures { result ≡ moved_callback (number_now numbers.now) callback }
{
    Callback {
        number: callback.number,
        object: number_now(numbers, callback.object),
    }
}

/// Gives the objects of callbacks their numbers now.
fn renumber_callbacks(callbacks: &mut Vec<Callback>, numbers: &[u32])
    ensures { callbacks.new.items
        ≡ map (moved_callback (number_now numbers.now)) callbacks.old.items }
{
    for index in 0..callbacks.len() {
        callbacks[index] = renumbered(callbacks[index], numbers);
    }
}

/// The objects of callbacks are among so many.
fn are_callbacks_within(callbacks: &[Callback], count: usize) -> bool
    ensures { result ≡ list_all (is_callback_within count) callbacks.now }
{
    callbacks
        .iter()
        .all(|callback| (callback.object.0 as usize) < count)
}

/// The objects of notices are among so many.
fn are_notices_within(notices: &[Notice], count: usize) -> bool
    ensures { result ≡ list_all (is_notice_within count) notices.now }
{
    notices
        .iter()
        .all(|notice| (notice.object.0 as usize) < count)
}

/// Puts notices after others, as a poll gives them. Takes memory; where there is none, some of them may stand there.
fn push_polled(notices: &mut Vec<PolledNotice>, waiting: &[Notice]) -> Result<(), AllocError>
    ensures { OnOk result
        (notices.new.items ≡ notices.old.items ++ map polled_notice waiting.now) }
{
    for notice in waiting {
        notices.push(notice.polled())?;
    }
    Ok(())
}

impl Registry {
    /// A registry without callbacks, with room for as many notices as may wait. Refuses with `NoMemory` where there is none.
    pub fn new(alloc: Global) -> Result<Registry, NotifyError>
        ensures empty { IfOk result (λ r. r ≡ empty_registry) }
        ensures refusal { IfErr result (λ e. e ≡ NoMemory) }
    {
        let waiting = HeapCircularBuffer::with_capacity(alloc, NOTICE_LIMIT)?;
        Ok(Registry {
            alloc,
            callbacks: Vec::new(alloc),
            given: 0,
            waiting,
            lost: 0,
        })
    }

    /// The callbacks, by object, each object's in order of registration.
    pub fn callbacks(&self) -> &[Callback]
        ensures callbacks { result.now ≡ self.now.callbacks }
        ensures ordered { AreOrdered self.now.callbacks }
        ensures within { length self.now.callbacks ≤ 1024 }
    {
        &self.callbacks
    }

    /// A callback on an object is added, and its number returned (27.33). Refuses with `TooManyCallbacks` where there are as many as may
    /// be or every number was given, and otherwise with `NoMemory` where there is none; then nothing is changed.
    pub fn register(&mut self, object: ObjectId) -> Result<u32, NotifyError>
        ensures number { IfOk result (λ n. n ≡ self.old.given + 1) }
        ensures added { OnOk result (self.new ≡ registered self.old object.0) }
        ensures room { OnOk result (is_full self.old ≡ false) }
        ensures refusal { IfErr result (λ e. e
            ≡ (if is_full self.old then TooManyCallbacks else NoMemory)) }
        ensures same { OnErr result (self.new ≡ self.old) }
    {
        if self.callbacks.len() >= CALLBACK_LIMIT || self.given == u32::MAX {
            return Err(NotifyError::TooManyCallbacks);
        }
        let number = self.given + 1;
        let index = count_by(&self.callbacks, object);
        self.callbacks.insert(index, Callback { number, object })?;
        self.given = number;
        Ok(number)
    }

    /// The callback of a number is taken out; what waits for it stays. Refuses with `NoSuchCallback` where no callback has the number;
    /// then nothing is changed. Takes no memory.
    pub fn remove(&mut self, callback: u32) -> Result<(), NotifyError>
        ensures found { IsOk result ↔ (has_number self.old callback ≡ true) }
        ensures taken { OnOk result (self.new ≡ without self.old callback) }
        ensures refusal { IfErr result (λ e. e ≡ NoSuchCallback) }
        ensures same { OnErr result (self.new ≡ self.old) }
    {
        if !has_number(&self.callbacks, callback) {
            return Err(NotifyError::NoSuchCallback);
        }
        self.callbacks.retain(|other| other.number != callback);
        Ok(())
    }

    /// Takes out the callbacks on objects that these rights, by object, do not let be watched, and the notices of these objects that
    /// wait; numbers and the lost count stay. One pass over the callbacks and the notices, which takes no memory.
    pub fn retire(&mut self, rights: &[Rights])
        ensures { self.new ≡ retired (is_unwatchable rights.now) self.old }
    {
        self.callbacks
            .retain(|callback| !is_unwatchable(rights, callback.object));
        retire_notices(&mut self.waiting, rights);
    }

    /// The objects of its callbacks and of the notices that wait are among so many.
    pub fn is_within(&self, count: usize) -> bool
        ensures { result ≡ is_within count self.now }
    {
        let (first, second) = self.waiting.as_slices();
        are_callbacks_within(&self.callbacks, count)
            && are_notices_within(first, count)
            && are_notices_within(second, count)
    }

    /// Gives the objects of its callbacks and of the notices that wait their numbers now. Takes no memory.
    pub fn renumber(&mut self, numbers: &[u32])
        requires rises { rises numbers.now ≡ true }
        requires within { is_within (length numbers.now) self.old ≡ true }
        ensures { self.new ≡ moved_registry (number_now numbers.now) self.old }
    {
        renumber_callbacks(&mut self.callbacks, numbers);
        renumber_notices(&mut self.waiting, numbers);
    }

    /// Some callback is on an object.
    pub fn watches(&self, object: ObjectId) -> bool
        ensures { result ≡ watches self.now object.0 }
    {
        !on_object(&self.callbacks, object).is_empty()
    }

    /// A change at a time is due to each callback on its object, in order of registration; no change is due to none (27.33,
    /// cbValueChange). Where as many notices wait as may, the new one is lost. Takes no memory.
    pub fn on_changes(&mut self, change: Option<&Change>, time: u64)
        ensures { self.new ≡ due self.old (option_copied change.entry) time }
    {
        let Some(change) = change else {
            return;
        };
        for callback in on_object(&self.callbacks, change.object) {
            hold(
                &mut self.waiting,
                &mut self.lost,
                notice_of(change, time, callback),
            );
        }
    }

    /// The notices that wait, oldest first, and how many were lost since the last drain. Refuses with `NoMemory` where there is none.
    pub fn notices(&self) -> Result<Notices, NotifyError>
        ensures notices { IfOk result
            (λ n. n.notices ≡ map polled_notice self.now.waiting) }
        ensures lost { IfOk result (λ n. n.lost ≡ self.now.lost) }
        ensures refusal { IfErr result (λ e. e ≡ NoMemory) }
    {
        let (first, second) = self.waiting.as_slices();
        let mut notices = Vec::with_capacity(self.alloc, self.waiting.len())?;
        push_polled(&mut notices, first)?;
        push_polled(&mut notices, second)?;
        let lost = self.lost;
        Ok(Notices {
            notices: Sequence::from_vec(notices),
            lost,
        })
    }

    /// None waits any more, and none counts as lost. Takes no memory.
    pub fn clear(&mut self)
        ensures { self.new ≡ drained self.old }
    {
        self.waiting.clear();
        self.lost = 0;
    }

    /// The notices that wait, oldest first, and how many were lost since the last drain; now none waits and none counts as lost. Refuses
    /// with `NoMemory` where there is none; then nothing is changed.
    pub fn drain(&mut self) -> Result<Notices, NotifyError>
        ensures notices { IfOk result
            (λ n. n.notices ≡ map polled_notice self.old.waiting) }
        ensures lost { IfOk result (λ n. n.lost ≡ self.old.lost) }
        ensures drained { OnOk result (self.new ≡ drained self.old) }
        ensures refusal { IfErr result (λ e. e ≡ NoMemory) }
        ensures same { OnErr result (self.new ≡ self.old) }
    {
        let notices = self.notices()?;
        self.clear();
        Ok(notices)
    }
}
