//! Checked designs, and the values of their objects.
#![tactic(auto)]

mod actions;
mod awaited;
mod change;
mod checked;
mod evaluation;
mod kept;
mod process;
mod statement_reads;
mod tables;
mod values;

pub use actions::target_width;
pub use awaited::Awaited;
pub use change::{Change, change_of};
pub use checked::{Checked, check};
pub use evaluation::{add_reads, eval, place_set};
pub use kept::ValuesCheckpoint;
pub use tables::{Action, Process, Tables, Target};
pub use values::Values;
pub use vp_elab::ObjectId;
