//! The words of the command line.

/// What is printed where the words are others.
pub const USAGE: &str = "usage: vp_load PORT MILLISECONDS ENTRIES
PORT is a port of 127.0.0.1, from 1; MILLISECONDS at most 86400000; ENTRIES, in a second, from 1 to 100000
";

/// The greatest time of a load, in milliseconds: a day.
const MILLISECOND_LIMIT: u64 = 86_400_000;

/// So many entries a second are asked for at most.
const ENTRY_LIMIT: u64 = 100_000;

/// What the program is to do.
#[derive(Clone, Copy, Debug, PartialEq, Eq)]
pub struct Load {
    /// The port of 127.0.0.1 on which the server listens.
    pub port: u16,
    /// How long the clients ask.
    pub milliseconds: u64,
    /// So many entries are to come to the log in a second.
    pub entries: u64,
}

/// The load of these words, of which the first is the program's; none where they are others.
pub fn load_of(words: &[String]) -> Option<Load> {
    if words.len() != 4 {
        return None;
    }
    let port: u16 = words.get(1)?.parse().ok()?;
    let milliseconds: u64 = words.get(2)?.parse().ok()?;
    let entries: u64 = words.get(3)?.parse().ok()?;
    let is_possible = port > 0
        && milliseconds <= MILLISECOND_LIMIT
        && entries > 0
        && entries <= ENTRY_LIMIT;
    if !is_possible {
        return None;
    }
    Some(Load {
        port,
        milliseconds,
        entries,
    })
}
