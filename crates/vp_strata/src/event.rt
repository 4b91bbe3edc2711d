use vp_active_events::NonblockingUpdate;

/// What happens at a later time. It names a process by its number.
#[derive(Clone, Copy)]
pub enum Delayed {
    /// A process goes on after its delay (9.7.1).
    Evaluation { process: usize },
    /// The update of a nonblocking assignment with a delay (9.2.2).
    Nonblocking { update: NonblockingUpdate },
}

/// A future event.
#[derive(Clone, Copy)]
pub struct Timed {
    /// In time units.
    pub time: u64,
    pub event: Delayed,
}
