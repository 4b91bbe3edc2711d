//! What processes wait for, and whom a change wakes.
#![tactic(auto)]

mod listeners;
mod processes;
mod waiting;
mod waking;

pub use listeners::Listeners;
pub use processes::{net_at, process_at};
pub use waiting::Waiting;
pub use waking::wake;
