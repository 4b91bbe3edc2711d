use crate::hub::Hub;
use crate::opens::NamesOpening;
use crate::settings::Settings;
use std::alloc::Global;
use std::sync::atomic::{AtomicBool, AtomicU64, AtomicUsize};
use std::thread::Parker;

/// What the threads of a server share.
#[derive(Drop)]
pub(crate) struct Service<'a, L: NamesOpening, G> {
    pub(crate) alloc: Global,
    pub(crate) settings: Settings,
    pub(crate) hub: Hub<L>,
    /// Asked once before each call of the hub, and by each search.
    pub(crate) gate: &'a G,
    /// So many connections are open.
    pub(crate) connections: AtomicUsize,
    /// The simulation's thread rests on it while nothing is left to do.
    pub(crate) simulation: Parker,
    /// The simulation and the workers are to end, and each connection after what it was last asked.
    pub(crate) ending: AtomicBool,
    /// So often the operator has ended a user's sessions.
    pub(crate) ends: AtomicU64,
    /// So many requests were denied.
    pub(crate) denials: AtomicU64,
    /// So many tokens were wrong.
    pub(crate) wrong_tokens: AtomicU64,
}

impl<'a, L: NamesOpening, G> Service<'a, L, G> {
    /// No connection is open.
    pub(crate) fn new(
        alloc: Global,
        settings: Settings,
        hub: Hub<L>,
        gate: &'a G,
    ) -> Service<'a, L, G> {
        Service {
            alloc,
            settings,
            hub,
            gate,
            connections: AtomicUsize::new(0),
            simulation: Parker::new(),
            ending: AtomicBool::new(false),
            ends: AtomicU64::new(0),
            denials: AtomicU64::new(0),
            wrong_tokens: AtomicU64::new(0),
        }
    }
}
