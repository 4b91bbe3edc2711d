use vp_bits::Bits;

/// A nonblocking assign update event (IEEE Std 1364-2005, 11.3). It sets so many bits of an object as its value has, from a place on.
#[derive(Clone, Copy)]
pub struct NonblockingUpdate {
    /// The number of the process that made it.
    pub process: usize,
    /// The number of the object.
    pub object: usize,
    /// The place of the lowest bit that is set, counted from 0 for the least significant bit of the object; none where the assignment
    /// selects no bit, and nothing changes.
    pub place: Option<u32>,
    /// What the bits become.
    pub value: Bits,
}

/// An active event (IEEE Std 1364-2005, 11.2). It names a process by its number.
#[derive(Clone, Copy)]
pub enum Event {
    /// The evaluation of a process.
    Evaluation { process: usize },
    /// The update of the net that a continuous process drives, with its value.
    NetUpdate { process: usize, value: Bits },
    /// The update of a nonblocking assignment.
    Nonblocking { update: NonblockingUpdate },
}
