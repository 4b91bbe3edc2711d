//! What answers a user from what he sees and what came to him alone: his part of a world, and what he is shown by it. Here no world, no
//! simulation and no book of races can be named. Beside it: what he sees of a design, as a text (docs/FORMATS.md, "What a user sees").
#![tactic(auto)]

mod denials;
mod error;
mod explaining;
mod item;
mod lines;
mod names;
mod part;
mod part_observer;
mod path;
mod races;
mod replaying;
mod watching;
mod words;

pub use error::AuditError;
pub use explaining::{Explained, explain_projection};
pub use item::{GrantItem, Item, OrderItem, OwnEvent, Projection};
pub use lines::outline;
pub use part_observer::PartObserver;
pub use path::full_name;
pub use replaying::replay_projection;
pub use watching::watch_rights;
pub use words::{push_access, push_word};
