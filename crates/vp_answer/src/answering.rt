// What a session's query is answered, and what comes of it (docs/FORMATS.md, "Lines").
ghost use Rattle.std.specs.Prelude.{◌≡◌, ◌≢◌, length, IfOk, IsTrue, OnErr, OnOk};
ghost use Rattle.vp_vpi.specs.declared.error.VpiError.TheVariants as vpi_error;
ghost use Rattle.vp_vpi.specs.Observers.{Observer};
ghost use Rattle.vp_vpi.specs.SessionStates.{SessionState, has_room, with_handles};
ghost use Rattle.vp_answer.specs.declared.query.Query.TheVariants as query;
ghost use Rattle.vp_answer.specs.declared.reply.Reply.TheVariants as reply;
ghost use Rattle.vp_answer.specs.Answers.{refused, respond, steering, value_in};
ghost use Rattle.vp_answer.specs.Given.{IsGiven, plain};

use crate::goal::GoalChange;
use crate::query::{Query, ValueFormat};
use crate::reply::{Refusal, Reply};
use std::alloc::AllocError;
use vp_bits::Bits;
use vp_elab::{Kind, ObjectId};
use vp_vpi::{Iteration, NumberProperty, Observe, PutValue, Session, TextProperty, VpiError};

/// What a query is answered.
#[derive(Drop)]
pub struct Answer {
    /// The reply, for the session.
    pub reply: Reply,
    /// The same, for the log's entry.
    pub entry_reply: Reply,
    /// What it does to the goal.
    pub goal: GoalChange,
    /// The object that it gives a value, and the value, if it puts one.
    pub put: Option<(ObjectId, Bits)>,
}

/// A reply from which nothing else comes; or out of memory.
fn plain(reply: Reply) -> Result<Answer, AllocError>
    ensures { IfOk result (λ a. a ≡ plain reply) }
{
    let entry_reply = reply.try_clone()?;
    Ok(Answer {
        reply,
        entry_reply,
        goal: GoalChange::Stays,
        put: None,
    })
}

/// The reply to a query that a session refused; out of memory stays so.
fn refusal_reply(error: VpiError) -> Result<Reply, AllocError>
    ensures reply { IfOk result (λ reply. reply ≡ refused error) }
    ensures reason { OnOk result (error ≢ vpi_error.NoMemory) }
{
    Ok(match error {
        VpiError::Denied(words) => Reply::Denied(words),
        VpiError::BadHandle => Reply::Error(Refusal::BadHandle),
        VpiError::WrongKind => Reply::Error(Refusal::WrongKind),
        VpiError::BadValue => Reply::Error(Refusal::BadValue),
        VpiError::Finished => Reply::Error(Refusal::Finished),
        VpiError::TooManyHandles => Reply::Error(Refusal::TooManyHandles),
        VpiError::NoSuchName => Reply::Error(Refusal::NoSuchName),
        VpiError::TooManyCallbacks => Reply::Error(Refusal::TooManyCallbacks),
        VpiError::NoSuchCallback => Reply::Error(Refusal::NoSuchCallback),
        VpiError::NoSuchRace => Reply::Error(Refusal::NoSuchRace),
        VpiError::NoMemory => return Err(AllocError),
    })
}

/// The answer to a query that a session refused; out of memory stays so.
fn refusal(error: VpiError) -> Result<Answer, AllocError>
    ensures answer { IfOk result (λ a. a ≡ plain (refused error)) }
    ensures reason { OnOk result (error ≢ vpi_error.NoMemory) }
{
    let reply = refusal_reply(error)?;
    plain(reply)
}

/// Makes a handle of a name.
fn handle<E: Observe>(
    session: &mut Session,
    observation: &E,
    name: &str,
    scope: Option<u32>,
) -> Result<Answer, AllocError>
    requires { E.is_sound observation.now }
    ensures given { IfOk result (IsGiven (respond (E.observer observation.now) session.old
        (query.Handle name.now scope)) session.new) }
    ensures unchanged { OnErr result (session.new ≡ session.old) }
{
    match session.handle_by_name(observation, scope, name) {
        Ok(handle) => Ok(Answer {
            reply: Reply::Handle(handle),
            entry_reply: Reply::Handle(handle),
            goal: GoalChange::Stays,
            put: None,
        }),
        Err(error) => refusal(error),
    }
}

/// Makes the handles of an iteration that was found; or out of memory.
fn scan(session: &mut Session, found: &Iteration) -> Result<Answer, AllocError>
    requires { IsTrue (has_room (length found.now.handles) session.now.handles) }
    ensures answer { IfOk result (λ a. a ≡ plain (reply.Listing found.now.listing)) }
    ensures made { OnOk result (session.new ≡ with_handles found.now.handles session.old) }
    ensures unchanged { OnErr result (session.new ≡ session.old) }
{
    let listing = found.listing().try_clone()?;
    let answer = plain(Reply::Listing(listing))?;
    session.scan(found)?;
    Ok(answer)
}

/// Makes handles of all objects of a kind in a scope.
fn iterate<E: Observe>(
    session: &mut Session,
    observation: &E,
    kind: Kind,
    scope: Option<u32>,
) -> Result<Answer, AllocError>
    requires { E.is_sound observation.now }
    ensures given { IfOk result (IsGiven (respond (E.observer observation.now) session.old
        (query.Iterate kind scope)) session.new) }
    ensures unchanged { OnErr result (session.new ≡ session.old) }
{
    match session.iterate(observation, kind, scope) {
        Ok(found) => scan(session, &found),
        Err(error) => refusal(error),
    }
}

/// Reports a number of a handle's object.
fn get<E: Observe>(
    session: &Session,
    observation: &E,
    handle: u32,
    property: NumberProperty,
) -> Result<Answer, AllocError>
    requires { E.is_sound observation.now }
    ensures { IfOk result (IsGiven (respond (E.observer observation.now) session.now
        (query.Get handle property)) session.now) }
{
    match session.get(observation, handle, property) {
        Ok(number) => plain(Reply::Number(number)),
        Err(error) => refusal(error),
    }
}

/// Reports a text of a handle's object.
fn get_str<E: Observe>(
    session: &Session,
    observation: &E,
    handle: u32,
    property: TextProperty,
) -> Result<Answer, AllocError>
    requires { E.is_sound observation.now }
    ensures { IfOk result (IsGiven (respond (E.observer observation.now) session.now
        (query.GetStr handle property)) session.now) }
{
    match session.get_str(observation, handle, property) {
        Ok(text) => plain(Reply::Text(text)),
        Err(error) => refusal(error),
    }
}

/// A value in a format.
fn value_in(format: ValueFormat, bits: Bits) -> Reply
    ensures { result ≡ value_in format bits }
{
    match format {
        ValueFormat::Binary => Reply::Value(bits),
        ValueFormat::Vector => Reply::Vector(bits),
    }
}

/// Reports the value of a handle's object.
fn value<E: Observe>(
    session: &Session,
    observation: &E,
    handle: u32,
    format: ValueFormat,
) -> Result<Answer, AllocError>
    requires { E.is_sound observation.now }
    ensures { IfOk result (IsGiven (respond (E.observer observation.now) session.now
        (query.Value handle format)) session.now) }
{
    match session.get_value(observation, handle) {
        Ok(bits) => plain(value_in(format, bits)),
        Err(error) => refusal(error),
    }
}

/// Reports what a put of a value on a handle's object gives which object.
fn put<E: Observe>(
    session: &Session,
    observation: &E,
    handle: u32,
    value: &PutValue,
) -> Result<Answer, AllocError>
    requires { E.is_sound observation.now }
    ensures { IfOk result (IsGiven (respond (E.observer observation.now) session.now
        (query.Put handle value.now)) session.now) }
{
    match session.put_value(observation, handle, value) {
        Ok(put) => Ok(Answer {
            reply: Reply::Done,
            entry_reply: Reply::Done,
            goal: GoalChange::Stays,
            put: Some(put),
        }),
        Err(error) => refusal(error),
    }
}

/// Reports whether two handles are of one object.
fn compare(session: &Session, first: u32, second: u32) -> Result<Answer, AllocError>
    ensures { (observation : Observer) → IfOk result (IsGiven (respond observation session.now
        (query.Compare first second)) session.now) }
{
    match session.compare_objects(first, second) {
        Ok(same) => plain(Reply::Same(same)),
        Err(error) => refusal(error),
    }
}

/// Frees a handle.
fn free(session: &mut Session, handle: u32) -> Result<Answer, AllocError>
    ensures given { (observation : Observer) → IfOk result (IsGiven (respond observation session.old
        (query.Free handle)) session.new) }
    ensures unchanged { OnErr result (session.new ≡ session.old) }
{
    match session.free_object(handle) {
        Ok(()) => Ok(Answer {
            reply: Reply::Done,
            entry_reply: Reply::Done,
            goal: GoalChange::Stays,
            put: None,
        }),
        Err(error) => refusal(error),
    }
}

/// Registers a callback on a handle's object.
fn watch<E: Observe>(
    session: &mut Session,
    observation: &E,
    handle: u32,
) -> Result<Answer, AllocError>
    requires { E.is_sound observation.now }
    ensures given { IfOk result (IsGiven (respond (E.observer observation.now) session.old
        (query.Watch handle)) session.new) }
    ensures unchanged { OnErr result (session.new ≡ session.old) }
{
    match session.register_cb(observation, handle) {
        Ok(callback) => Ok(Answer {
            reply: Reply::Callback(callback),
            entry_reply: Reply::Callback(callback),
            goal: GoalChange::Stays,
            put: None,
        }),
        Err(error) => refusal(error),
    }
}

/// Removes a callback.
fn unwatch(session: &mut Session, callback: u32) -> Result<Answer, AllocError>
    ensures given { (observation : Observer) → IfOk result (IsGiven (respond observation session.old
        (query.Unwatch callback)) session.new) }
    ensures unchanged { OnErr result (session.new ≡ session.old) }
{
    match session.remove_cb(callback) {
        Ok(()) => Ok(Answer {
            reply: Reply::Done,
            entry_reply: Reply::Done,
            goal: GoalChange::Stays,
            put: None,
        }),
        Err(error) => refusal(error),
    }
}

/// Reports the notices that wait, which wait no more.
fn poll(session: &mut Session) -> Result<Answer, AllocError>
    ensures given { (observation : Observer) → IfOk result (IsGiven (respond observation session.old
        query.Poll) session.new) }
    ensures unchanged { OnErr result (session.new ≡ session.old) }
{
    let Ok(notices) = session.poll() else {
        return Err(AllocError);
    };
    let answer = plain(Reply::Notices(notices))?;
    session.drain();
    Ok(answer)
}

/// Reports the races that are shown, from a number on.
fn races<E: Observe>(session: &Session, observation: &E, from: u64) -> Result<Answer, AllocError>
    requires { E.is_sound observation.now }
    ensures { IfOk result (IsGiven (respond (E.observer observation.now) session.now
        (query.Races from)) session.now) }
{
    match session.races(observation, from) {
        Ok(races) => plain(Reply::Races(races)),
        Err(_) => Err(AllocError),
    }
}

/// Reports a race that is shown, by its number.
fn race<E: Observe>(session: &Session, observation: &E, number: u64) -> Result<Answer, AllocError>
    requires { E.is_sound observation.now }
    ensures { IfOk result (IsGiven (respond (E.observer observation.now) session.now
        (query.Race number)) session.now) }
{
    match session.race(observation, number) {
        Ok(race) => plain(Reply::Race(race)),
        Err(error) => refusal(error),
    }
}

/// Changes the goal, if the user may let the design run.
fn steer<E: Observe>(observation: &E, change: GoalChange) -> Answer
    requires { E.is_sound observation.now }
    ensures { (session_state : SessionState)
        → IsGiven (steering (E.observer observation.now) session_state change) session_state result }
{
    if observation.may_run() {
        Answer {
            reply: Reply::Done,
            entry_reply: Reply::Done,
            goal: change,
            put: None,
        }
    } else {
        Answer {
            reply: Reply::RunDenied,
            entry_reply: Reply::RunDenied,
            goal: GoalChange::Stays,
            put: None,
        }
    }
}

/// Reports the time.
fn time<E: Observe>(observation: &E) -> Answer
    requires { E.is_sound observation.now }
    ensures { (session_state : SessionState)
        → let observation = E.observer observation.now in
        IsGiven (respond observation session_state query.Time) session_state result }
{
    let time = observation.time();
    let finished = observation.finished();
    Answer {
        reply: Reply::Time { time, finished },
        entry_reply: Reply::Time { time, finished },
        goal: GoalChange::Stays,
        put: None,
    }
}

/// What a session's query is answered, by what it can look up; or out of memory, which leaves the session as it was.
pub fn respond<E: Observe>(
    session: &mut Session,
    observation: &E,
    query: &Query,
) -> Result<Answer, AllocError>
    requires { E.is_sound observation.now }
    ensures given { IfOk result
        (IsGiven (respond (E.observer observation.now) session.old query.now) session.new) }
    ensures unchanged { OnErr result (session.new ≡ session.old) }
{
    match query {
        Query::Handle { name, scope } => handle(session, observation, name.as_str(), *scope),
        Query::Iterate { kind, scope } => iterate(session, observation, *kind, *scope),
        Query::Get { handle, property } => get(session, observation, *handle, *property),
        Query::GetStr { handle, property } => get_str(session, observation, *handle, *property),
        Query::Value { handle, format } => value(session, observation, *handle, *format),
        Query::Put { handle, value } => put(session, observation, *handle, value),
        Query::Compare { first, second } => compare(session, *first, *second),
        Query::Free { handle } => free(session, *handle),
        Query::Watch { handle } => watch(session, observation, *handle),
        Query::Unwatch { callback } => unwatch(session, *callback),
        Query::Poll => poll(session),
        Query::Races { from } => races(session, observation, *from),
        Query::Race { number } => race(session, observation, *number),
        Query::Run { until } => Ok(steer(observation, GoalChange::RisesTo(*until))),
        Query::Stop => Ok(steer(observation, GoalChange::Ends)),
        Query::Time => Ok(time(observation)),
    }
}
