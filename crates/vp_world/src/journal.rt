ghost use Rattle.std.specs.Prelude.{◌≡◌, ◌<◌, ◌≤◌, ◌++◌, ◌∷◌, [], false, true, drop, length, OnOk};
ghost use Rattle.vp_answer.specs.declared.reply.Reply.TheVariants as reply;
ghost use Rattle.vp_world.specs.declared.event.Event.TheVariants as event;
ghost use Rattle.vp_answer.specs.Sizes.{saturated};
ghost use Rattle.vp_world.specs.History.{held_bytes, is_full_of, is_full_of_bytes, most_entries};

use crate::archive::Archive;
use crate::entry::Entry;
use crate::log::Log;
use std::alloc::{AllocError, Global};
use std::marker::Model;
use vp_expr::Change;
use vp_history::{History, Names};

/// So many entries a log gets at most, in all.
const MOST_ENTRIES: u64 = 1 << 62;

/// An entry stands for itself.
struct AsItIs;

impl Names<Entry, Entry> for AsItIs {
    ghost entry = { λ entry. entry };
}

/// A step that took the k-th event: this changed, and such are the time and `$finish` after it.
#[derive(Clone, Copy)]
struct TakenStep {
    k: u32,
    change: Option<Change>,
    time: u64,
    finished: bool,
}

/// A step that was taken stands for its entry.
struct AsStep;

impl Names<TakenStep, Entry> for AsStep {
    ghost entry = { λ s. record {
      event = event.Step s.k;
      reply = reply.Done;
      change = s.change;
      time = s.time;
      finished = s.finished;
    } };
}

/// All that has happened, in order, of which the first entries may have been handed out; the rest is held. A contract sees all entries, how
/// many were handed out, and whether there is room for one more.
#[derive(Drop)]
pub(crate) struct Journal {
    held: Log,
    /// All entries, for contracts alone.
    history: History<Entry>,
    /// So many of them were handed out.
    handed_out: u64,
    /// The bytes of those that are held.
    bytes: u64,
}

impl Model for Journal {
    ghost use Rattle.std.specs.Prelude.{◌≡◌, ◌≤◌, drop, length};
    ghost use Rattle.vp_answer.specs.Sizes.{saturated};
    ghost use Rattle.vp_world.specs.Entries.{bytes_of};
    ghost use Rattle.vp_world.specs.History.{most_entries};
    ghost use Rattle.vp_world.specs.LogRecords.{JournalState};

    ghost Value = { JournalState };

    ghost view = { λ j. record {
      entries = j.history.entries;
      handed_out = j.handed_out;
      has_room = j.held.has_room;
    } };

    ghost invariant = { λ j. record {
      held : j.held.entries ≡ drop j.handed_out j.history.entries;
      within : j.handed_out ≤ length j.history.entries;
      few : length j.history.entries ≤ most_entries;
      bytes : j.bytes ≡ saturated (bytes_of j.held.entries);
    } };
}

impl Journal {
    /// A journal without entries.
    pub fn new(alloc: Global) -> Journal
        ensures entries { result.entries ≡ [] }
        ensures handed_out { result.handed_out ≡ 0 }
    {
        Journal {
            held: Log::new(alloc),
            history: History::new(),
            handed_out: 0,
            bytes: 0,
        }
    }

    /// The entries that are held: all that were not handed out.
    pub fn held(&self) -> &Log
        ensures { result.now.entries ≡ drop self.now.handed_out self.now.entries }
    {
        &self.held
    }

    /// How many entries there are, those that were handed out among them.
    pub fn len(&self) -> u64
        ensures len { result ≡ length self.now.entries }
        ensures few { length self.now.entries ≤ most_entries }
    {
        self.handed_out + self.held.len() as u64
    }

    /// How many entries were handed out.
    pub fn handed_out(&self) -> u64
        ensures handed_out { result ≡ self.now.handed_out }
        ensures within { result ≤ length self.now.entries }
    {
        self.handed_out
    }

    /// As many entries are held as the limit allows, or there are as many in all as a log gets.
    pub fn is_full(&self, limit: usize) -> bool
        ensures { result ≡ is_full_of limit self.now.handed_out self.now.entries }
    {
        self.held.len() >= limit || self.len() >= MOST_ENTRIES
    }

    /// The bytes of the entries that are held.
    pub fn bytes(&self) -> u64
        ensures { result ≡ saturated (held_bytes self.now.handed_out self.now.entries) }
    {
        self.bytes
    }

    /// The entries that are held have as many bytes as the limit allows, if there is one.
    pub fn is_full_of_bytes(&self, most: Option<u64>) -> bool
        ensures { result ≡ is_full_of_bytes most self.now.handed_out self.now.entries }
    {
        match most {
            Some(most) => self.bytes >= most,
            None => false,
        }
    }

    /// Makes room for one more entry.
    pub fn reserve(&mut self) -> Result<(), AllocError>
        ensures room { OnOk result (self.new.has_room ≡ true) }
        ensures entries { self.new.entries ≡ self.old.entries }
        ensures handed_out { self.new.handed_out ≡ self.old.handed_out }
        ensures few { length self.old.entries ≤ most_entries }
    {
        self.held.reserve()
    }

    /// Adds an entry.
    pub fn push(&mut self, entry: Entry)
        requires room { self.old.has_room ≡ true }
        requires few { length self.old.entries < most_entries }
        ensures entries { self.new.entries ≡ self.old.entries ++ entry ∷ [] }
        ensures handed_out { self.new.handed_out ≡ self.old.handed_out }
    {
        self.history.push::<Entry, AsItIs>(&entry);
        self.bytes = self.bytes.saturating_add(entry.bytes());
        self.held.push(entry);
    }

    /// Adds the entry of a step that took the k-th event: this changed, and such are the time and `$finish` after it.
    #[inline(always)]
    pub fn push_step(&mut self, k: u32, change: Option<Change>, time: u64, finished: bool)
        requires room { self.old.has_room ≡ true }
        requires few { length self.old.entries < most_entries }
        ensures entries { self.new.entries ≡ self.old.entries ++ record {
          event = event.Step k;
          reply = reply.Done;
          change = change;
          time = time;
          finished = finished;
        } ∷ [] }
        ensures handed_out { self.new.handed_out ≡ self.old.handed_out }
    {
        let step = TakenStep {
            k,
            change,
            time,
            finished,
        };
        self.history.push::<TakenStep, AsStep>(&step);
        let TakenStep {
            k,
            change,
            time,
            finished,
        } = step;
        self.held.push_step(k, change, time, finished);
    }

    /// Hands out the entries that are held, after which none is; or reports that the archive refuses them, which leaves all as it was.
    pub fn hand_out<A: Archive>(&mut self, archive: &mut A) -> bool
        ensures taken { result ≡ true → A.takes archive.old
            (drop self.old.handed_out self.old.entries) archive.new }
        ensures handed_out { result ≡ true → self.new.handed_out ≡ length self.old.entries }
        ensures refused { result ≡ false → archive.new ≡ archive.old }
        ensures unchanged { result ≡ false → self.new ≡ self.old }
        ensures allowed { result ≡ false → A.may_refuse archive.old }
        ensures entries { self.new.entries ≡ self.old.entries }
    {
        if !archive.take(&self.held) {
            return false;
        }
        self.handed_out += self.held.len() as u64;
        self.bytes = 0;
        self.held.clear();
        true
    }
}
