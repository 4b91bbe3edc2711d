//! What the next event of a procedure is, what it does, and where the procedure goes on after it (IEEE Std 1364-2005, clause 9).
#![tactic(auto)]

mod effect;
mod flow;
mod walk;

pub use effect::{Effect, effect_of};
pub use flow::Flow;
pub use walk::{action_at, next_event};
