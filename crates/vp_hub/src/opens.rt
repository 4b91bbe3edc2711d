ghost use Rattle.std.specs.Prelude.{ℕ};
ghost use Rattle.vp_world.specs.Worlds.{Opening};
ghost use Rattle.vp_hub.specs.Openings.{bare};

use std::marker::Brand;
use std::sync::ledger::Ledger;

/// Names the world with which a hub opens, the ledger that counts its sessions' calls, and the history that its log is.
pub trait NamesOpening: Ledger {
    /// How the world begins.
    ghost opening: { Opening };

    /// The name of the history of what happens in it.
    ghost history: { ℕ };
}

impl NamesOpening for Brand {
    ghost opening = { bare };

    ghost history = { 0 };
}
