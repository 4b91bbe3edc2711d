//! A session: a user's handles and callbacks, and what he is answered.
#![tactic(auto)]

mod comparison;
mod error;
mod iteration;
mod observer;
mod property;
mod put;
mod races;
mod session;

pub use error::VpiError;
pub use iteration::{Iteration, ListedObject, Listing, is_of};
pub use observer::{Found, Observe};
pub use property::{NumberProperty, PutValue, TextProperty, VectorWord};
pub use races::{RaceDetails, RaceLine, ShownRace};
pub use session::{HANDLE_LIMIT, Session};
pub use vp_policy::{Access, DenialText, UserId};
