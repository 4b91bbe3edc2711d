// How a server stands, as an operator is shown it (docs/FORMATS.md, "Lines").
use vp_text::{Sequence, Text};

/// How many sessions a user has open.
#[derive(Drop)]
pub struct UserSessions {
    /// His name.
    pub user: Text,
    pub sessions: u64,
}

/// How a world stands.
#[derive(Drop)]
pub struct WorldStatus {
    /// The current time, in time units.
    pub time: u64,
    /// The simulation has something to do, and may do it.
    pub running: bool,
    /// Entries of the log, those that were handed out among them.
    pub entries: u64,
    /// So many of them the log holds.
    pub held: u64,
    /// Bytes of texts in these.
    pub bytes: u64,
    /// Of each user, in the order of the policy.
    pub sessions: Sequence<UserSessions>,
    /// Closed segments that wait to be searched for races.
    pub jobs: u64,
    /// Races in the book.
    pub races: u64,
}

/// How a server stands.
#[derive(Drop)]
pub struct ServerStatus {
    pub world: WorldStatus,
    /// Connections that are open.
    pub connections: u64,
    /// Requests that were denied since it began.
    pub denials: u64,
    /// Wrong tokens since it began.
    pub wrong_tokens: u64,
    /// The program's version.
    pub version: Text,
}
