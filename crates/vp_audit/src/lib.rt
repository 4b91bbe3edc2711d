//! What one user can know of a world: what goes to him of a log, and that this, with what he sees at the opening, is all that he is shown;
//! and what he was shown, with what came to him of the log, as a text (docs/FORMATS.md, "What a user was shown").
#![tactic(auto)]

mod audit;
mod lines;
mod projecting;
mod promise;
mod reading;
mod users;

pub use audit::{Audit, audit_user};
pub use lines::explanation;
pub use projecting::project;
pub use promise::{explain, replay};
pub use users::explain_user;
