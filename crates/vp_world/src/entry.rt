ghost use Rattle.std.specs.Prelude.{◌≡◌, ◌+◌, length};
ghost use Rattle.vp_answer.specs.Sizes.{saturated};
ghost use Rattle.vp_world.specs.declared.event.Event.TheVariants as event;
ghost use Rattle.vp_answer.specs.declared.reply.Reply.TheVariants as reply;

use std::marker::Model;
use std::sync::Arc;
use vp_answer::{EndOrder, GrantChange, HaltOrder, Query, Reply, SessionId};
use vp_expr::Change;
use vp_race::BookedFinding;
use vp_text::{Same, Shared, Text};

/// The name and the token with which a user opens a session.
#[derive(Drop)]
pub struct Login {
    pub user: Text,
    pub token: Text,
}

/// What a session asks.
#[derive(Drop)]
pub struct Asked {
    pub session: SessionId,
    pub query: Query,
}

/// What happened, with its reply and what it changed. What is rare is held apart, so that the entry of a step is small.
#[derive(Drop)]
pub enum LoggedEvent {
    /// A user opened this session.
    Open {
        login: Arc<Login>,
        session: SessionId,
    },
    /// A session asked, and was answered.
    Ask {
        asked: Arc<Asked>,
        reply: Reply,
    },
    /// A session put a value, which was a change.
    Put {
        asked: Arc<Asked>,
        change: Change,
    },
    /// A session was closed.
    Close {
        session: SessionId,
    },
    /// A user's grant for an envelope changed.
    Grant {
        change: Arc<GrantChange>,
    },
    /// A user's open sessions ended.
    End {
        order: Arc<EndOrder>,
    },
    /// The simulation stood still.
    Halt {
        order: Arc<HaltOrder>,
    },
    /// The simulation took the k-th of the events that a step could take, which changed nothing.
    Step {
        k: u32,
    },
    /// The same, and this changed.
    StepWithChange {
        k: u32,
        change: Change,
    },
    /// The simulation went on to the time of the next event.
    Advance,
    /// The segment of a number was handed out.
    TakeJob {
        number: u64,
    },
    /// A race was booked.
    Book {
        finding: Shared<BookedFinding>,
    },
}

/// The bytes of two texts.
fn both_bytes(first: &Text, second: &Text) -> u64
    ensures { result ≡ saturated (length first.now + length second.now) }
{
    (first.as_str().len() as u64).saturating_add(second.as_str().len() as u64)
}

impl LoggedEvent {
    ghost use Rattle.std.specs.Prelude.{◌≡◌, ◌+◌, true, IfSome, length};
    ghost use Rattle.std.specs.Arc.{arc_value};
    ghost use Rattle.vp_world.specs.declared.event.Event.TheVariants as event;
    ghost use Rattle.vp_answer.specs.declared.reply.Reply.TheVariants as reply;
    ghost use Rattle.vp_answer.specs.Sizes.{reply_bytes, saturated};
    ghost use Rattle.vp_world.specs.Entries.{change_in, event_bytes, event_in, reply_in, session_in};

    /// A session asked, was answered so, and changed this; only what is done changes something.
    pub fn of_asked(asked: Arc<Asked>, answer: Reply, change: Option<Change>) -> LoggedEvent
        requires { IfSome change (λ c. answer ≡ reply.Done) }
        ensures event { event_in result
            ≡ event.Ask (arc_value asked).session (arc_value asked).query }
        ensures reply { reply_in result ≡ answer }
        ensures change { change_in result ≡ change }
    {
        match change {
            Some(change) => LoggedEvent::Put { asked, change },
            None => LoggedEvent::Ask {
                asked,
                reply: answer,
            },
        }
    }

    /// The session of what happened; none where it is of no session.
    pub fn session(&self) -> Option<SessionId>
        ensures { result ≡ session_in (event_in self.now) (reply_in self.now) }
    {
        match self {
            LoggedEvent::Open { session, .. } | LoggedEvent::Close { session } => Some(*session),
            LoggedEvent::Ask { asked, .. } | LoggedEvent::Put { asked, .. } => Some(asked.session),
            _ => None,
        }
    }

    /// The bytes that its event and its reply take, beside its place in a log.
    pub fn bytes(&self) -> u64
        ensures { result
            ≡ saturated (event_bytes (event_in self.now) + reply_bytes (reply_in self.now)) }
    {
        match self {
            LoggedEvent::Open { login, .. } => both_bytes(&login.user, &login.token),
            LoggedEvent::Ask { asked, reply } => {
                asked.query.bytes().saturating_add(reply.bytes())
            }
            LoggedEvent::Put { asked, .. } => asked.query.bytes(),
            LoggedEvent::Grant { change } => both_bytes(&change.token, &change.user),
            LoggedEvent::End { order } => both_bytes(&order.token, &order.user),
            LoggedEvent::Halt { order } => order.token.as_str().len() as u64,
            _ => 0,
        }
    }

    /// The reply to what happened is this one.
    pub fn is_answered(&self, reply: &Reply) -> bool
        ensures same { result ≡ true → reply_in self.now ≡ reply.now }
        ensures differs { reply_in self.now ≡ reply.now → result ≡ true }
    {
        match self {
            LoggedEvent::Ask { reply: answer, .. } => answer.is_same(reply),
            LoggedEvent::Open { session, .. } => match reply {
                Reply::Opened(id) => session == id,
                _ => false,
            },
            LoggedEvent::TakeJob { number } => match reply {
                Reply::Job(job) => number == job,
                _ => false,
            },
            LoggedEvent::Put { .. }
            | LoggedEvent::Close { .. }
            | LoggedEvent::Grant { .. }
            | LoggedEvent::End { .. }
            | LoggedEvent::Halt { .. }
            | LoggedEvent::Step { .. }
            | LoggedEvent::StepWithChange { .. }
            | LoggedEvent::Advance
            | LoggedEvent::Book { .. } => matches!(reply, Reply::Done),
        }
    }
}

/// An entry of the log, of at most 64 bytes. A contract sees the event, its reply, what it changed, and the time and `$finish`
/// after it.
#[derive(Drop)]
pub struct Entry {
    pub happening: LoggedEvent,
    /// The time after it, in time units.
    pub time: u64,
    /// Whether `$finish` was executed by then.
    pub finished: bool,
}

impl Model for Entry {
    ghost use Rattle.vp_world.specs.Entries.{Entry, entry_shown};

    ghost Value = { Entry };

    ghost view = { λ e. entry_shown e.happening e.time e.finished };
}

impl Entry {
    ghost use Rattle.std.specs.Prelude.{◌≡◌};
    ghost use Rattle.vp_answer.specs.Sizes.{saturated};
    ghost use Rattle.vp_world.specs.Entries.{entry_bytes};
    ghost use Rattle.vp_world.specs.LogRecords.{no_entry};

    /// The bytes that it takes, beside its place in a log.
    pub fn bytes(&self) -> u64
        ensures { result ≡ saturated (entry_bytes self.now) }
    {
        self.happening.bytes()
    }

    /// A place for an entry that a log makes when it is read.
    pub fn blank() -> Entry
        ensures { result ≡ no_entry }
    {
        Entry {
            happening: LoggedEvent::Advance,
            time: 0,
            finished: false,
        }
    }
}
