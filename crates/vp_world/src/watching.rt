// Which objects may be watched, so that a change of another one costs no look at the open sessions.
ghost use Rattle.std.specs.Prelude.{◌≡◌, ℕ, true, option_copied, slice_set, Some};
ghost use Rattle.vp_vpi.specs.Observers.{Observer};
ghost use Rattle.vp_vpi.specs.SessionStates.{SessionState};
ghost use Rattle.vp_answer.specs.Answers.{respond};
ghost use Rattle.vp_world.specs.History.{noticed};
ghost use Rattle.vp_world.specs.Marks.{all_marked, are_marked, is_session_marked, is_watch, is_watched, may_be_watched};

use vp_answer::{OpenSession, Query, notify_sessions};
use vp_elab::ObjectId;
use vp_expr::Change;
use vp_notify::Callback;

/// Some open session may have a callback on an object, by a list that says so of each object.
fn may_be_watched(watched: &[bool], object: ObjectId) -> bool
    ensures { result ≡ may_be_watched watched.now object.0 }
{
    match watched.get(object.0 as usize) {
        Some(may) => *may,
        None => true,
    }
}

/// Says of an object whether it may be watched.
fn set_mark(watched: &mut Vec<bool>, object: ObjectId, mark: bool)
    ensures { watched.new.items ≡ slice_set watched.old.items object.0 mark }
{
    if let Some(may) = watched.get_mut(object.0 as usize) {
        *may = mark;
    }
}

/// The objects of these callbacks may be watched.
fn mark_all(watched: &mut Vec<bool>, callbacks: &[Callback])
    ensures marked { are_marked watched.new.items callbacks.now ≡ true }
    ensures grown { (object : ℕ) → may_be_watched watched.old.items object ≡ true
        → may_be_watched watched.new.items object ≡ true }
{
    for callback in callbacks {
        set_mark(watched, callback.object, true);
    }
}

/// A query registers a callback.
fn is_watch(query: &Query) -> bool
    ensures { result ≡ is_watch query.now }
{
    match query {
        Query::Watch { .. } => true,
        _ => false,
    }
}

/// After a query of a session the objects of its callbacks may be watched, if they might before.
pub fn mark_asked(watched: &mut Vec<bool>, session: &OpenSession, query: &Query)
    ensures marked { (observation : Observer) → (session_state : SessionState)
        → session.now.session_state ≡ (respond observation session_state query.now).session_state
        → are_marked watched.old.items session_state.registry.callbacks ≡ true
        → is_session_marked watched.new.items session.now ≡ true }
    ensures grown { (object : ℕ) → may_be_watched watched.old.items object ≡ true
        → may_be_watched watched.new.items object ≡ true }
{
    if is_watch(query) {
        mark_all(watched, session.callbacks());
    }
}

/// Some open session has a callback on an object.
fn is_watched(sessions: &[OpenSession], object: ObjectId) -> bool
    ensures { result ≡ is_watched sessions.now object.0 }
{
    sessions.iter().any(|session| session.watches(object))
}

/// A change at a time is due to the callbacks of all open sessions, and then it is known whether its object is watched. The change goes by
/// value, so that one that nobody watches need not lie in memory.
#[cold]
#[inline(never)]
fn notify_watchers(sessions: &mut [OpenSession], watched: &mut Vec<bool>, change: Change, time: u64)
    requires { all_marked watched.old.items sessions.old ≡ true }
    ensures notified { sessions.new ≡ noticed (Some change) time sessions.old }
    ensures marked { all_marked watched.new.items sessions.new ≡ true }
{
    notify_sessions(sessions, &change, time);
    let mark = is_watched(sessions, change.object);
    set_mark(watched, change.object, mark);
}

/// A change at a time is due to the callbacks of all open sessions. The sessions are looked at only where its object may be watched.
fn notify_of(sessions: &mut [OpenSession], watched: &mut Vec<bool>, change: &Change, time: u64)
    requires { all_marked watched.old.items sessions.old ≡ true }
    ensures notified { sessions.new ≡ noticed (Some change.now) time sessions.old }
    ensures marked { all_marked watched.new.items sessions.new ≡ true }
{
    if may_be_watched(watched, change.object) {
        notify_watchers(sessions, watched, *change, time);
    }
}

/// A change at a time is due to the callbacks of all open sessions; no change is due to none. Takes no memory.
pub fn notify(
    sessions: &mut [OpenSession],
    watched: &mut Vec<bool>,
    change: Option<&Change>,
    time: u64,
)
    requires { all_marked watched.old.items sessions.old ≡ true }
    ensures notified { sessions.new ≡ noticed (option_copied change.entry) time sessions.old }
    ensures marked { all_marked watched.new.items sessions.new ≡ true }
{
    match change {
        None => {}
        Some(change) => notify_of(sessions, watched, change, time),
    }
}
