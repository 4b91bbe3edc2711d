//! What all crates share: texts and lists that contracts see as lists, comparison by contents, and what an error of a call says.
#![tactic(auto)]

mod part;
mod same;
mod sequence;
mod shared;
mod shared_value;
mod text;

pub use part::{first_part, first_piece};
pub use same::{Same, are_same};
pub use sequence::Sequence;
pub use shared::SharedText;
pub use shared_value::Shared;
pub use text::Text;
