//! A simulation: the processes of a design run, one event at a time, by any legal choice.
#![tactic(auto)]

mod error;
mod events;
mod kept;
mod lists;
mod machine;
mod procedure;
mod remaining;
mod sim;
mod stepped;
mod steps;

pub use error::SimError;
pub use kept::SimCheckpoint;
pub use sim::Sim;
pub use stepped::Stepped;
pub use vp_expr::{Change, Checked};
