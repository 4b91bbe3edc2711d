//! The policy: its file, who may do what with which object, and what is denied to whom.
#![tactic(auto)]

mod access;
mod copying;
mod denial;
mod error;
mod filter;
mod grant;
mod policy;
mod reading;
mod regrant;
mod rights_tables;
mod scope_lists;
mod view;

pub use access::Access;
pub use denial::{Denial, DenialText, DeniedBy, Look, ShownBarrier};
pub use error::PolicyError;
pub use grant::{Grant, GrantedBy};
pub use policy::{Policy, User, UserId};
pub use reading::{USER_LIMIT, read_policy};
pub use view::{SeenEnvelope, SeenObject, SeenViewport, View};
