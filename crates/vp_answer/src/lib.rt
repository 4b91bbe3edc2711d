//! What a session is asked and answered.
#![tactic(auto)]

mod answering;
mod comparison;
mod goal;
mod open_session;
mod query;
mod reply;
mod request;
mod sizes;
mod status;

pub use answering::{Answer, respond};
pub use goal::GoalChange;
pub use open_session::{
    OpenSession, are_sessions_within, end_sessions, notify_sessions, renumber_sessions,
    retire_sessions, session_count, session_index,
};
pub use query::{Query, ValueFormat};
pub use reply::{Refusal, Reply};
pub use request::{Call, EndOrder, GrantChange, HaltOrder, Request, SessionId};
pub use status::{ServerStatus, UserSessions, WorldStatus};
