ghost use Rattle.std.specs.Prelude.{◌≡◌, ◌+◌, IfOk, length};
ghost use Rattle.vp_answer.specs.Sizes.{line_bytes, list_bytes, name_bytes, reply_bytes, saturated};

use crate::request::SessionId;
use crate::sizes::{ITEM_BYTES, list_bytes};
use crate::status::ServerStatus;
use std::alloc::AllocError;
use vp_bits::Bits;
use vp_notify::Notices;
use vp_text::{Sequence, Shared, SharedText};
use vp_vpi::{DenialText, Listing, RaceDetails, RaceLine};

/// What a line is answered where it is refused.
#[derive(Clone, Copy, Debug, PartialEq, Eq)]
pub enum Refusal {
    BadHandle,
    WrongKind,
    BadValue,
    Finished,
    TooManyHandles,
    NoSuchName,
    TooManyCallbacks,
    NoSuchCallback,
    NoSuchRace,
    SessionsFull,
    BadToken,
    NotOpen,
    BadOperator,
    NoSuchUser,
    NoSuchEnvelope,
    LogFull,
    BadReceipt,
    BeyondGoal,
    NoJob,
    BadRequest,
    Simulation,
    Race,
    NoMemory,
}

impl Refusal {
    ghost use Rattle.vp_answer.specs.Refusals.{text_of};

    /// The refusal's text in lines.
    pub fn text(self) -> &'static str
        ensures { result.now ≡ text_of self }
    {
        match self {
            Refusal::BadHandle => "bad handle",
            Refusal::WrongKind => "wrong kind",
            Refusal::BadValue => "bad value",
            Refusal::Finished => "finished",
            Refusal::TooManyHandles => "too many handles",
            Refusal::NoSuchName => "no such name",
            Refusal::TooManyCallbacks => "too many callbacks",
            Refusal::NoSuchCallback => "no such callback",
            Refusal::NoSuchRace => "no such race",
            Refusal::SessionsFull => "sessions full",
            Refusal::BadToken => "bad token",
            Refusal::NotOpen => "not open",
            Refusal::BadOperator => "bad operator",
            Refusal::NoSuchUser => "no such user",
            Refusal::NoSuchEnvelope => "no such envelope",
            Refusal::LogFull => "log full",
            Refusal::BadReceipt => "bad receipt",
            Refusal::BeyondGoal => "beyond the goal",
            Refusal::NoJob => "no job",
            Refusal::BadRequest => "bad request",
            Refusal::Simulation => "simulation",
            Refusal::Race => "race",
            Refusal::NoMemory => "no memory",
        }
    }
}

/// What an event is answered.
#[derive(Drop)]
pub enum Reply {
    /// A session was opened.
    Opened(SessionId),
    /// It was done.
    Done,
    /// A handle was made.
    Handle(u32),
    /// Handles of the objects that a scope lists were made.
    Listing(Shared<Listing>),
    /// A number of an object.
    Number(u32),
    /// A text of an object.
    Text(SharedText),
    /// The value of an object, in binary digits.
    Value(Bits),
    /// The value of an object, in words of 32 bits.
    Vector(Bits),
    /// Whether two handles are of one object.
    Same(bool),
    /// A callback was registered.
    Callback(u32),
    /// The notices that waited.
    Notices(Shared<Notices>),
    /// Races that the user is shown.
    Races(Shared<Sequence<RaceLine>>),
    /// A race that the user is shown, with its steps.
    Race(Shared<RaceDetails>),
    /// A closed segment is handed out, by its number.
    Job(u64),
    /// A right is lacking, in the words that the user is shown.
    Denied(DenialText),
    /// The user may not let the design run.
    RunDenied,
    /// The current time, in time units, and whether `$finish` was executed.
    Time { time: u64, finished: bool },
    /// How the server stands, which no log has.
    Status(Shared<ServerStatus>),
    /// Another refusal.
    Error(Refusal),
}

/// The bytes that a listing takes.
fn listing_bytes(listing: &Listing) -> u64
    ensures { result
        ≡ saturated (length listing.now.closed + list_bytes name_bytes listing.now.items) }
{
    let items = list_bytes(listing.items.as_slice());
    items.saturating_add(listing.closed.len() as u64)
}

/// The bytes that a race with its steps takes.
fn race_bytes(race: &RaceDetails) -> u64
    ensures { result ≡ saturated (line_bytes race.now.line
        + (list_bytes length race.now.first_steps + list_bytes length race.now.second_steps)) }
{
    let first_steps = list_bytes(race.first_steps.as_slice());
    let second_steps = list_bytes(race.second_steps.as_slice());
    let name = race.line.name.as_str().len() as u64;
    first_steps
        .saturating_add(second_steps)
        .saturating_add(name)
}

impl Reply {
    /// The bytes that it takes beside its place in a log: those of its texts, and 96 for each item of a list.
    pub fn bytes(&self) -> u64
        ensures { result ≡ saturated (reply_bytes self.now) }
    {
        match self {
            Reply::Listing(listing) => listing_bytes(listing.value()),
            Reply::Text(text) => text.as_str().len() as u64,
            Reply::Notices(notices) => list_bytes(notices.value().notices.as_slice()),
            Reply::Races(lines) => list_bytes(lines.value().as_slice()),
            Reply::Race(race) => race_bytes(race.value()),
            Reply::Denied(_) => ITEM_BYTES,
            _ => 0,
        }
    }

    /// The same reply once more, whose texts are shared; or an error where their holders can't be counted.
    pub fn try_clone(&self) -> Result<Reply, AllocError>
        ensures { IfOk result (λ reply. reply ≡ self.now) }
    {
        Ok(match self {
            Reply::Opened(session) => Reply::Opened(*session),
            Reply::Done => Reply::Done,
            Reply::Handle(handle) => Reply::Handle(*handle),
            Reply::Listing(listing) => Reply::Listing(listing.try_clone()?),
            Reply::Number(number) => Reply::Number(*number),
            Reply::Text(text) => Reply::Text(text.try_clone()?),
            Reply::Value(bits) => Reply::Value(*bits),
            Reply::Vector(bits) => Reply::Vector(*bits),
            Reply::Same(same) => Reply::Same(*same),
            Reply::Callback(callback) => Reply::Callback(*callback),
            Reply::Notices(notices) => Reply::Notices(notices.try_clone()?),
            Reply::Races(races) => Reply::Races(races.try_clone()?),
            Reply::Race(race) => Reply::Race(race.try_clone()?),
            Reply::Job(number) => Reply::Job(*number),
            Reply::Denied(words) => Reply::Denied(words.try_clone()?),
            Reply::RunDenied => Reply::RunDenied,
            Reply::Time { time, finished } => Reply::Time {
                time: *time,
                finished: *finished,
            },
            Reply::Status(status) => Reply::Status(status.try_clone()?),
            Reply::Error(refusal) => Reply::Error(*refusal),
        })
    }
}
