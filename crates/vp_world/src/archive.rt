ghost use Rattle.std.specs.Prelude.{◌≡◌, ◌+◌, List, false, length, min, true};
ghost use Rattle.vp_world.specs.Entries.{Entry};

use crate::log::Log;
use std::marker::Model;

/// What a world hands its entries out to.
pub trait Archive {
    /// An archive took these entries, and became another.
    ghost takes: { Self → List Entry → Self → Type 0 };

    /// An archive may refuse entries.
    ghost may_refuse: { Self → Type 0 };

    /// Takes all entries of a log, in order, or none, and reports whether it did.
    fn take(&mut self, log: &Log) -> bool
        ensures taken { result ≡ true → takes self.old log.now.entries self.new }
        ensures refused { result ≡ false → self.new ≡ self.old }
        ensures allowed { result ≡ false → may_refuse self.old };
}

/// An archive that takes no entry: the world keeps them all.
#[derive(Clone, Copy, Debug, PartialEq, Eq)]
pub struct KeepingArchive;

impl Archive for KeepingArchive {
    ghost takes = { λ before entries after. ⊥ };

    ghost may_refuse = { λ archive. Unit {0} };

    fn take(&mut self, _log: &Log) -> bool {
        false
    }
}

/// An archive that counts the entries that it takes, as far as 64 bits go, and keeps none.
#[derive(Clone, Copy, Debug, PartialEq, Eq)]
pub struct CountingArchive {
    pub entries: u64,
}

impl Archive for CountingArchive {
    ghost takes = { λ before entries after.
        after.entries ≡ min (before.entries + length entries) 18446744073709551615 };

    ghost may_refuse = { λ archive. ⊥ };

    fn take(&mut self, log: &Log) -> bool {
        self.entries = self.entries.saturating_add(log.len() as u64);
        true
    }
}
