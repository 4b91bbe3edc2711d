//! The event queue of a simulation: its active, inactive, nonblocking and future events (IEEE Std 1364-2005, 11.3).
//!
//! [`Strata`] says which of the active events may happen next, and leaves the choice to its caller (11.4.2). What an event does is no
//! matter of this crate: a simulator takes it, makes it happen, and pushes the events that it schedules.
#![tactic(auto)]

mod chunk;
mod chunks;
mod comparison;
mod copies;
mod error;
mod event;
mod future;
mod kept;
mod strata;

pub use error::StrataError;
pub use event::Delayed;
pub use kept::StrataCheckpoint;
pub use strata::{Strata, TIME_LIMIT};
pub use vp_active_events::{Event, NonblockingUpdate};
