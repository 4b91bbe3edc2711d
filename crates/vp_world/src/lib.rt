//! The world: sessions of users over one design, changed by one event at a time, and the log of these events.
#![tactic(auto)]

mod archive;
mod entry;
mod error;
mod event;
mod journal;
mod limits;
mod live_world;
mod log;
mod putting;
mod shown_races;
mod user_observer;
mod watching;
mod world;

pub use archive::{Archive, CountingArchive, KeepingArchive};
pub use entry::{Asked, Entry, LoggedEvent, Login};
pub use error::WorldError;
pub use event::Event;
pub use limits::Limits;
pub use log::Log;
pub use shown_races::{is_race_shown, seen_race, seen_races};
pub use user_observer::UserObserver;
pub use world::World;
