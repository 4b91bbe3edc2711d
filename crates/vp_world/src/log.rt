ghost use Rattle.std.specs.Prelude.{◌≡◌, ◌<◌, ◌^◌, ◌++◌, ◌∷◌, ℕ, List, [], true, length, slice_get, slice_index_or, IfSome, OnOk, Some};
ghost use Rattle.std.specs.Option.{option_to_list};
ghost use Rattle.std.specs.Vec.{vec_capacity, vec_len};
ghost use Rattle.vp_answer.specs.declared.reply.Reply.TheVariants as reply;
ghost use Rattle.vp_world.specs.declared.event.Event.TheVariants as event;
ghost use Rattle.vp_world.specs.Entries.{Entry};
ghost use Rattle.vp_world.specs.LogRecords.{IsWithin, first_step_after, no_entry, shown};

use crate::entry::{Entry, LoggedEvent};
use std::alloc::{AllocError, Global};
use std::marker::Model;
use vp_expr::Change;

/// What a log keeps of an entry: little of a step that took the first event, as most are.
#[derive(Clone, Copy)]
enum Record {
    /// Such a step, which changed nothing. Its time and `$finish` are those of the other entry at an index.
    Step { after: u32 },
    /// The same, and its change is the one at an index.
    StepWithChange { after: u32, change: u32 },
    /// The other entry at an index.
    Other { index: u32 },
}

/// What has happened, in order. A contract sees the entries, and whether there is room for one more.
#[derive(Drop)]
pub struct Log {
    records: Vec<Record>,
    changes: Vec<Change>,
    others: Vec<Entry>,
}

impl Model for Log {
    ghost use Rattle.std.specs.Prelude.{◌&&◌, ◌^◌, length, map, nat_lt};
    ghost use Rattle.std.specs.List.{All};
    ghost use Rattle.std.specs.Vec.{vec_capacity, vec_len};
    ghost use Rattle.vp_world.specs.LogRecords.{IsWithin, LogState, shown};

    ghost Value = { LogState };

    ghost view = { λ l. record {
      entries = map (shown l.others.items l.changes.items) l.records.items;
      has_room = nat_lt (vec_len l.records) (vec_capacity l.records)
          && (nat_lt (vec_len l.changes) (vec_capacity l.changes)
          && (nat_lt (vec_len l.others) (vec_capacity l.others)
          && (nat_lt (length l.changes.items) (2 ^ 32) && nat_lt (length l.others.items) (2 ^ 32))));
    } };

    ghost invariant = { λ l. All (IsWithin (length l.others.items) (length l.changes.items)) l.records.items };
}

/// The index of the last of these entries, where such are the time and `$finish` after it.
#[inline(always)]
fn last_like(others: &[Entry], time: u64, finished: bool) -> Option<u32>
    ensures within { IfSome result (λ index. index < length others.now) }
    ensures like { IfSome result (λ index. IfSome (slice_get others.now index)
        (λ e. (e.time ≡ time) × (e.finished ≡ finished))) }
{
    let index = others.len().checked_sub(1)?;
    let last = &others[index];
    if last.time == time && last.finished == finished && index <= u32::MAX as usize {
        Some(index as u32)
    } else {
        None
    }
}

/// What a log keeps of a step that took the first event, at the time of the other entry at an index; its change is added to the changes.
#[inline(always)]
fn record_step(changes: &mut Vec<Change>, after: u32, change: Option<Change>) -> Record
    requires room { vec_len changes.old < vec_capacity changes.old }
    requires few { length changes.old.items < 2 ^ 32 }
    ensures changes { changes.new.items ≡ changes.old.items ++ option_to_list change }
    ensures record { (others : List Entry) → shown others changes.new.items result
        ≡ first_step_after (slice_index_or others after no_entry) change }
    ensures within { (count : ℕ) → after < count
        → IsWithin count (length changes.new.items) result }
{
    match change {
        None => Record::Step { after },
        Some(value) => {
            let change = changes.len() as u32;
            changes.push_reserved(value);
            Record::StepWithChange { after, change }
        }
    }
}

/// The entry of a step that took the k-th event.
fn step_entry(k: u32, change: Option<Change>, time: u64, finished: bool) -> Entry
    ensures { result ≡ record {
      event = event.Step k;
      reply = reply.Done;
      change = change;
      time = time;
      finished = finished;
    } }
{
    let happening = match change {
        Some(change) => LoggedEvent::StepWithChange { k, change },
        None => LoggedEvent::Step { k },
    };
    Entry {
        happening,
        time,
        finished,
    }
}

/// The entry of a step that took the first event, at the time of another entry.
fn first_step_after(other: &Entry, change: Option<Change>) -> Entry
    ensures { result ≡ first_step_after other.now change }
{
    step_entry(0, change, other.time, other.finished)
}

impl Log {
    /// A log without entries.
    pub fn new(alloc: Global) -> Log
        ensures { result.entries ≡ [] }
    {
        Log {
            records: Vec::new(alloc),
            changes: Vec::new(alloc),
            others: Vec::new(alloc),
        }
    }

    /// How many entries there are.
    pub fn len(&self) -> usize
        ensures { result ≡ length self.now.entries }
    {
        self.records.len()
    }

    /// Leaves no entry. The room for them stays.
    pub(crate) fn clear(&mut self)
        ensures { self.new.entries ≡ [] }
    {
        self.records.clear();
        self.changes.clear();
        self.others.clear();
    }

    /// Makes room for one more entry.
    pub fn reserve(&mut self) -> Result<(), AllocError>
        ensures room { OnOk result (self.new.has_room ≡ true) }
        ensures entries { self.new.entries ≡ self.old.entries }
        ensures few { length self.old.entries < 2 ^ 63 }
    {
        if self.changes.len() > u32::MAX as usize || self.others.len() > u32::MAX as usize {
            return Err(AllocError);
        }
        self.records.reserve(1)?;
        self.changes.reserve(1)?;
        self.others.reserve(1)?;
        Ok(())
    }

    /// Adds an entry.
    pub fn push(&mut self, entry: Entry)
        requires { self.old.has_room ≡ true }
        ensures { self.new.entries ≡ self.old.entries ++ entry ∷ [] }
    {
        let index = self.others.len() as u32;
        self.others.push_reserved(entry);
        self.records.push_reserved(Record::Other { index });
    }

    /// Adds the entry of a step that took the k-th event: this changed, and such are the time and `$finish` after it.
    #[inline(always)]
    pub fn push_step(&mut self, k: u32, change: Option<Change>, time: u64, finished: bool)
        requires { self.old.has_room ≡ true }
        ensures { self.new.entries ≡ self.old.entries ++ record {
          event = event.Step k;
          reply = reply.Done;
          change = change;
          time = time;
          finished = finished;
        } ∷ [] }
    {
        match last_like(&self.others, time, finished) {
            Some(after) if k == 0 => {
                let record = record_step(&mut self.changes, after, change);
                self.records.push_reserved(record);
            }
            _ => self.push(step_entry(k, change, time, finished)),
        }
    }

    /// The entry at an index, which is made where the log keeps little of it.
    pub fn entry<'a>(&'a self, index: usize, made: &'a mut Entry) -> &'a Entry
        requires { index < length self.now.entries }
        ensures { slice_get self.now.entries index ≡ Some result.now }
    {
        match self.records[index] {
            Record::Other { index } => &self.others[index as usize],
            Record::Step { after } => {
                *made = first_step_after(&self.others[after as usize], None);
                made
            }
            Record::StepWithChange { after, change } => {
                let change = self.changes[change as usize];
                *made = first_step_after(&self.others[after as usize], Some(change));
                made
            }
        }
    }
}
