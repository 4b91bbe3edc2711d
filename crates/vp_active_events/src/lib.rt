//! The active events of a simulation that are no updates of nonblocking assignments (IEEE Std 1364-2005, 11.3).
//!
//! [`ActiveRegion`] says which of them are eligible, and finds any of these without a look at all events. What an event does is no matter of this
//! crate.
#![tactic(auto)]

mod active;
mod block_counts;
mod comparison;
mod counts;
mod event;
mod slot;
mod slots;

pub use active::ActiveRegion;
pub use event::{Event, NonblockingUpdate};
pub use slot::Slot;
