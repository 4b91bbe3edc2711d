//! The design of a text, or its first fault; and the faults of designs and policies in words: where they stand, what was found, and what
//! would be read (docs/FORMATS.md, "Faults in words").
#![tactic(auto)]

mod design;
mod error;
mod expected;
mod keys;
mod lines;
mod one_token_lines;
mod place;
mod plain;
mod policy;
mod prefixes;
mod reading;
mod rendering;
mod shared;
mod trials;
mod unsupported;
mod words;

pub use design::design_diagnostic;
pub use error::DesignError;
pub use plain::{file_diagnostic, plain_diagnostic};
pub use policy::{keyless_diagnostic, policy_diagnostic};
pub use reading::{TEXT_LIMIT, read_design};
pub use shared::shared_of;
