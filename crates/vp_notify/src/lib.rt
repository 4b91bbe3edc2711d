//! The value-change callbacks of a session and the notices that wait to be reported (IEEE Std 1364-2005, 27.33, cbValueChange).
//!
//! A [`Registry`] has the callbacks, each on an object. A change of the object's value makes a notice for each of them, which waits until
//! it is drained. It holds so many callbacks and so many notices and no more; a notice for which there is no room is lost, and counted.
#![tactic(auto)]

mod error;
mod notice;
mod order;
mod registry;
mod renumbering;

pub use error::NotifyError;
pub use notice::{Notice, Notices, PolledNotice};
pub use registry::{CALLBACK_LIMIT, Callback, NOTICE_LIMIT, Registry};
pub use renumbering::{number_now, rises};
pub use vp_expr::Change;
