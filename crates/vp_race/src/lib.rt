//! Races of a time slot: two orders of its events after which a net or a reg has different values (IEEE Std 1364-2005, 11.4.2 and 11.5).
//!
//! The run takes one order of a slot's events. A [`Segment`] is what it did there; [`search`] tries other orders, and [`check`] tests one. What they
//! answer are [`Finding`]s, each of which is a race of its segment by its type.
#![tactic(auto)]

mod book;
mod book_limits;
mod booked_finding;
mod comparison;
mod error;
mod finding;
mod findings;
mod first_choice;
mod follow;
mod gate;
mod kept;
mod open_segment;
mod pair;
mod recording;
mod seeds;
mod segment;
mod start;
mod trial;

pub use book::Book;
pub use book_limits::BookLimits;
pub use booked_finding::BookedFinding;
pub use comparison::check;
pub use error::RaceError;
pub use finding::Finding;
pub use gate::{Gate, OpenGate};
pub use pair::OrderPair;
pub use recording::Recording;
pub use seeds::search;
pub use segment::Segment;
pub use vp_sim::{Sim, SimError};
