//! The hub: many threads share one world. Each event is applied under one lock, and each session's pass says which calls it has made. Over
//! it the server: connections, and threads that let the simulation run and search it for races.
#![tactic(auto)]

mod accept;
mod archive;
mod background;
mod client;
mod close;
mod connection;
mod desk;
mod entries;
mod error;
mod hub;
mod incoming;
mod opens;
mod outgoing;
mod pass;
mod report;
mod server;
mod server_error;
mod service;
mod settings;
mod talk;

pub use archive::LogArchive;
pub use close::Closed;
pub use desk::Desk;
pub use error::HubError;
pub use hub::{Hub, Ran, Worked};
pub use opens::NamesOpening;
pub use pass::{HandedBack, Pass};
pub use report::{Report, ServerEvent};
pub use server::serve;
pub use server_error::ServerError;
pub use settings::Settings;
pub use vp_history::History;
pub use vp_world::{Entry, Limits, World};
