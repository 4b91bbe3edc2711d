//! Lines of JSON, and the dialogue over them: lines from a reader, each answered by a line to a writer.
#![tactic(auto)]

mod counted;
mod dialogue;
mod error;
mod line;
mod replies;
mod requests;

pub use counted::{Counted, Failed};
pub use dialogue::{Caller, Ended, Stage, TURN_LIMIT, session};
pub use error::WireError;
pub use line::LINE_LIMIT;
pub use replies::{reply_line, reply_text};
pub use requests::request;
