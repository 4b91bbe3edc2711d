ghost use Rattle.std.specs.Prelude.{◌≡◌, length};
ghost use Rattle.vp_hub.specs.Calls.{IsSublist, entry_indexes};

use crate::opens::NamesOpening;
use std::marker::Model;
use std::sync::ledger::Share;
use vp_answer::SessionId;
use vp_history::{Front, History, Names};
use vp_world::Entry;

/// An index is what it stands for.
pub(crate) struct Index;

impl Names<u64, u64> for Index {
    ghost entry = { λ index. index };
}

/// A pass that was handed back, for contracts alone: of a history of passes.
pub struct HandedBack;

impl Model for HandedBack {
    ghost use Rattle.vp_hub.specs.Calls.{Passed, no_pass};

    ghost Value = { Passed };

    ghost view = { λ _. no_pass };
}

/// A pass is handed back as it is.
pub(crate) struct AsItIs;

impl<L: NamesOpening> Names<Pass<L>, HandedBack> for AsItIs {
    ghost entry = { λ pass. pass };
}

/// A session of a hub, and the right to make its calls. A contract sees the session, the indexes of its calls in order, of which the first is
/// of its opening, the log as it was after the last of them, and its share of the ledger, whose amount is their number. However many calls
/// it makes, it takes no memory for them.
#[derive(Drop)]
pub struct Pass<L: NamesOpening> {
    pub(crate) session: SessionId,
    /// So many calls.
    pub(crate) calls: u64,
    /// Their indexes, for contracts alone.
    pub(crate) indexes: History<u64>,
    /// The log as it was after the last of them, for contracts alone.
    pub(crate) seen: Front<Entry>,
    pub(crate) share: Share<L>,
}

impl<L: NamesOpening> Model for Pass<L> {
    ghost use Rattle.vp_hub.specs.Calls.{IsPass, Passed};

    ghost Value = { Passed };

    ghost view = { λ p. record {
      session = p.session;
      indexes = p.indexes.entries;
      seen = p.seen.entries;
      amount = p.share.amount;
      parts = p.share.parts;
    } };

    ghost invariant = { λ p. IsPass L.history p.calls p.seen.name (record {
      session = p.session;
      indexes = p.indexes.entries;
      seen = p.seen.entries;
      amount = p.share.amount;
      parts = p.share.parts;
    }) };
}

impl<L: NamesOpening> Pass<L> {
    /// The session.
    pub fn session(&self) -> SessionId
        ensures { result ≡ self.now.session }
    {
        self.session
    }

    /// How many calls it has made, its opening among them: entries of its session in the log that it has seen.
    pub fn calls(&self) -> u64
        ensures many { result ≡ length self.now.indexes }
        ensures own { IsSublist self.now.indexes (entry_indexes self.now.seen self.now.session) }
    {
        self.calls
    }
}
