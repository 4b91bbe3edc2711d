use vp_answer::{EndOrder, GrantChange, HaltOrder, Query, SessionId};
use vp_race::Finding;
use vp_text::{Shared, Text};

/// What can happen to a world (docs/FORMATS.md, "Lines" and "Simulation").
#[derive(Drop)]
pub enum Event {
    /// A user opens a session.
    Open { user: Text, token: Text },
    /// A session asks.
    Ask { session: SessionId, query: Query },
    /// A session is closed.
    Close { session: SessionId },
    /// A user's grant for an envelope changes.
    Grant(GrantChange),
    /// A user's open sessions end.
    End(EndOrder),
    /// The simulation stands still, until somebody asks for a run again.
    Halt(HaltOrder),
    /// The simulation takes the k-th of the events that a step can take, from 0.
    Step(u32),
    /// The simulation goes on to the time of the next event.
    Advance,
    /// The oldest kept segment that was not handed out is handed out, to be searched for races.
    TakeJob,
    /// A race that was found is booked.
    Book(Shared<Finding>),
}
