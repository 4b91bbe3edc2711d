//! What two threads share.
use std::alloc::Global;
use std::sync::Barrier;
use vp_hub::{Hub, NamesOpening};

/// A hub, and where two threads wait for each other to begin.
#[derive(Drop)]
pub struct Stage<L: NamesOpening> {
    pub alloc: Global,
    pub hub: Hub<L>,
    pub start: Barrier,
}

impl<L: NamesOpening> Stage<L> {
    /// The stage of a hub.
    pub fn new(alloc: Global, hub: Hub<L>) -> Stage<L> {
        Stage {
            alloc,
            hub,
            start: Barrier::new(2),
        }
    }

    /// The hub alone.
    pub fn into_hub(self) -> Hub<L> {
        self.hub
    }
}
