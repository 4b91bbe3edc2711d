ghost use Rattle.std.specs.Duration.{as_nanos};
ghost use Rattle.std.specs.Prelude.{◌≡◌, ◌*◌, false};

use std::time::Duration;

/// What a server is asked for.
#[derive(Clone, Copy, Debug, PartialEq, Eq)]
pub struct Settings {
    /// So many threads search for races.
    pub workers: u32,
    /// It ends after so many connections; where it is 0, it does not end.
    pub sessions: u32,
    /// The log holds all that happens, and is full at last; else it is counted and let go of.
    pub keep: bool,
    /// How long a client may take until its session is open, or it has shown the operator's token.
    pub opening_time: Duration,
    /// How long a client may read nothing of a reply.
    pub reading_silence: Duration,
    /// How long a client may take to read all of a reply.
    pub reading_time: Duration,
    /// How long the client of a session that the operator has ended may take to ask something more, which is answered that it is not open.
    pub ended_time: Duration,
    /// The program's version, for the operator.
    pub version: &'static str,
    /// How long the simulation's thread rests at most, where nothing is left to do and no call wakes it.
    pub simulation_rest: Duration,
}

impl Settings {
    /// A server whose clients have a minute to open a session, ten seconds to read something of a reply, and a minute to read all of it;
    /// where the operator has ended one's session he has ten seconds to ask something more. The simulation rests a millisecond, and the log is not
    /// kept.
    pub fn new(workers: u32, sessions: u32) -> Settings
        ensures workers { result.workers ≡ workers }
        ensures sessions { result.sessions ≡ sessions }
        ensures keep { result.keep ≡ false }
        ensures opening { as_nanos result.opening_time ≡ 60 * 1_000_000_000 }
        ensures silence { as_nanos result.reading_silence ≡ 10 * 1_000_000_000 }
        ensures reading { as_nanos result.reading_time ≡ 60 * 1_000_000_000 }
        ensures ended { as_nanos result.ended_time ≡ 10 * 1_000_000_000 }
        ensures rest { as_nanos result.simulation_rest ≡ 1_000_000 }
    {
        Settings {
            workers,
            sessions,
            keep: false,
            opening_time: Duration::from_secs(60),
            reading_silence: Duration::from_secs(10),
            reading_time: Duration::from_secs(60),
            ended_time: Duration::from_secs(10),
            version: "",
            simulation_rest: Duration::from_millis(1),
        }
    }
}
