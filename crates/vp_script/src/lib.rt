//! Scripts: request lines about one design under one policy, answered in turn.
#![tactic(auto)]

mod audits;
mod bundle;
mod error;
mod failure;
mod files;
mod running;
mod script;
mod script_session;
mod sources;
mod views;

pub use audits::{Audited, audit_script};
pub use bundle::run_bundle;
pub use error::ServeFault;
pub use failure::{Failure, Sources, bundle_refused};
pub use files::{SourceFiles, audit_files, check_files, run_files, run_input, view_files};
pub use script::{Ran, SEED_COUNT, fresh_world, run_script};
pub use sources::{BUNDLE_LIMIT, text_of};
pub use views::{check_design, check_policy, view_text};
