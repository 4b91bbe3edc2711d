// Open sessions, in the order in which they were opened.
ghost use Rattle.std.specs.Prelude.{◌≡◌, ◌<◌, length, map, IfSome, Some, true};
ghost use Rattle.std.specs.List.{list_all};
ghost use Rattle.vp_notify.specs.Registry.{is_unwatchable};
ghost use Rattle.vp_notify.specs.Renumbered.{number_now, rises};
ghost use Rattle.vp_answer.specs.OpenSessions.{index_of, is_session_within, moved_session, notified_session, retired_for, sessions_of, without_user};

use crate::answering::{Answer, respond};
use crate::query::Query;
use crate::request::SessionId;
use std::alloc::{AllocError, Global};
use std::marker::Model;
use vp_elab::ObjectId;
use vp_notify::{Callback, Change};
use vp_policy::Policy;
use vp_pragma::Rights;
use vp_vpi::{Observe, Session, UserId};

/// An open session, with its name. A contract sees its name, its user, his handles and his callbacks.
#[derive(Drop)]
pub struct OpenSession {
    id: SessionId,
    session: Session,
}

impl Model for OpenSession {
    ghost use Rattle.vp_answer.specs.OpenSessions.{OpenSessionState};

    ghost Value = { OpenSessionState };

    ghost view = { λ s. record { id = s.id; session_state = s.session } };
}

impl OpenSession {
    ghost use Rattle.std.specs.Prelude.{◌≡◌, IfOk, OnErr, length, map, option_map, true, Some};
    ghost use Rattle.vp_notify.specs.Registry.{is_unwatchable, watches};
    ghost use Rattle.vp_notify.specs.Renumbered.{number_now, rises};
    ghost use Rattle.vp_vpi.specs.SessionStates.{new_session_state, object_of};
    ghost use Rattle.vp_answer.specs.Answers.{respond};
    ghost use Rattle.vp_answer.specs.Given.{IsGiven};
    ghost use Rattle.vp_answer.specs.OpenSessions.{is_session_within, moved_session, notified_session, retired_for};

    /// A session of this name in which nothing has happened. Takes memory.
    pub fn new(alloc: Global, id: SessionId) -> Result<OpenSession, AllocError>
        ensures { IfOk result
            (λ s. s ≡ record { id = id; session_state = new_session_state id.user.0 }) }
    {
        match Session::new(alloc, id.user) {
            Ok(session) => Ok(OpenSession { id, session }),
            Err(_) => Err(AllocError),
        }
    }

    /// Its user.
    pub fn user(&self) -> UserId
        ensures { result.0 ≡ self.now.session_state.user }
    {
        self.session.user()
    }

    /// The object of a handle; none where the number is no handle, or it was freed.
    pub fn object(&self, handle: u32) -> Option<ObjectId>
        ensures { option_map (λ o. o.0) result ≡ object_of self.now.session_state.handles handle }
    {
        self.session.object(handle)
    }

    /// Its callbacks, in order of registration.
    pub fn callbacks(&self) -> &[Callback]
        ensures { result.now ≡ self.now.session_state.registry.callbacks }
    {
        self.session.callbacks()
    }

    /// It has a callback on an object.
    pub fn watches(&self, object: ObjectId) -> bool
        ensures { result ≡ watches self.now.session_state.registry object.0 }
    {
        self.session.watches(object)
    }

    /// What a query is answered, by what the user can look up; or out of memory, which leaves the session as it was.
    pub fn ask<E: Observe>(&mut self, observation: &E, query: &Query) -> Result<Answer, AllocError>
        requires { E.is_sound observation.now }
        ensures given { IfOk result
            (IsGiven (respond (E.observer observation.now) self.old.session_state query.now)
            self.new.session_state) }
        ensures id { self.new.id ≡ self.old.id }
        ensures unchanged { OnErr result (self.new ≡ self.old) }
    {
        respond(&mut self.session, observation, query)
    }

    /// A change at a time is due to its callbacks. Takes no memory.
    fn notify(&mut self, change: &Change, time: u64)
        ensures { self.new ≡ notified_session (Some change.now) time self.old }
    {
        self.session.on_changes(Some(change), time);
    }

    /// If it is a user's, what he may not watch by a policy is taken out of it. Takes no memory.
    fn retire(&mut self, policy: &Policy, user: UserId)
        ensures { self.new ≡ retired_for policy.now user.0 self.old }
    {
        if self.session.user().0 == user.0 {
            self.session.retire(policy);
        }
    }

    /// All its objects are among so many.
    fn is_within(&self, count: usize) -> bool
        ensures { result ≡ is_session_within count self.now }
    {
        self.session.is_within(count)
    }

    /// Gives its objects their numbers now, and takes out what these rights, by them, do not let be watched. Takes no memory.
    fn renumber(&mut self, numbers: &[u32], rights: &[Rights])
        requires rises { rises numbers.now ≡ true }
        requires within { is_session_within (length numbers.now) self.old ≡ true }
        ensures { self.new
            ≡ moved_session (number_now numbers.now) (is_unwatchable rights.now) self.old }
    {
        self.session.renumber(numbers);
        self.session.retire_unwatchable(rights);
    }
}

/// Where the open session of a name stands.
pub fn session_index(sessions: &[OpenSession], id: SessionId) -> Option<usize>
    ensures index { result ≡ index_of sessions.now id }
    ensures within { IfSome result (λ index. index < length sessions.now) }
{
    sessions.iter().position(|session| session.id.is_same(id))
}

/// How many of these sessions are a user's.
pub fn session_count(sessions: &[OpenSession], user: UserId) -> usize
    ensures { result ≡ sessions_of user.0 sessions.now }
{
    sessions
        .iter()
        .filter(|session| session.id.user.0 == user.0)
        .count()
}

/// Takes a user's sessions out of these.
pub fn end_sessions(sessions: &mut Vec<OpenSession>, user: UserId)
    ensures { sessions.new.items ≡ without_user user.0 sessions.old.items }
{
    sessions.retain(|session| session.id.user.0 != user.0);
}

/// All objects of these sessions are among so many.
pub fn are_sessions_within(sessions: &[OpenSession], count: usize) -> bool
    ensures { result ≡ list_all (is_session_within count) sessions.now }
{
    sessions.iter().all(|session| session.is_within(count))
}

/// A change at a time is due to the callbacks of these sessions. Takes no memory.
pub fn notify_sessions(sessions: &mut [OpenSession], change: &Change, time: u64)
    ensures { sessions.new ≡ map (notified_session (Some change.now) time) sessions.old }
{
    for session in sessions {
        session.notify(change, time);
    }
}

/// What a user may not watch by a policy, after a change of his grants, is taken out of those of these sessions that are his. Takes no
/// memory.
pub fn retire_sessions(sessions: &mut [OpenSession], policy: &Policy, user: UserId)
    ensures { sessions.new ≡ map (retired_for policy.now user.0) sessions.old }
{
    for session in sessions {
        session.retire(policy, user);
    }
}

/// Gives the objects of these sessions their numbers now, and takes out what these rights, by them, do not let be watched. Takes no memory.
pub fn renumber_sessions(sessions: &mut [OpenSession], numbers: &[u32], rights: &[Rights])
    requires rises { rises numbers.now ≡ true }
    requires within { list_all (is_session_within (length numbers.now)) sessions.old ≡ true }
    ensures { sessions.new
        ≡ map (moved_session (number_now numbers.now) (is_unwatchable rights.now)) sessions.old }
{
    for session in sessions {
        session.renumber(numbers, rights);
    }
}
