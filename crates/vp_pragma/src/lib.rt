//! Protect envelopes: their places, their authors, and sets of rights.
#![tactic(auto)]

mod envelope;
mod error;
mod line;
mod lists;
mod pragma_effect;
mod reading;
mod rights;
mod surroundings;
mod token_class;
mod viewport;

pub use envelope::{Envelope, Envelopes};
pub use error::PragmaError;
pub use reading::envelopes;
pub use rights::{Right, Rights, access};
pub use viewport::Viewport;
