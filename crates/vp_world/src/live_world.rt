ghost use Rattle.std.specs.Prelude.{◌≡◌, ◌<◌, ◌≤◌, ◌+◌, ◌^◌, false, true, is_some, length, map, slice_index, slice_set, None, Some, option_copied, option_map, IfErr, IfOk, IfSome, IsOkUnless, OnErr, OnOk};
ghost use Rattle.std.specs.Arc.{arc_value};
ghost use Rattle.vp_text.specs.Refusals.{Explains};
ghost use Rattle.vp_policy.specs.PolicyState.{Fits};
ghost use Rattle.vp_policy.specs.Users.{login_of, user_of};
ghost use Rattle.vp_race.specs.Recording.{jobs_waiting, kept_of, next_job, with_anew, with_step};
ghost use Rattle.vp_sim.specs.States as sim;
ghost use Rattle.vp_sim.specs.declared.error.SimError.TheVariants as sim_error;
ghost use Rattle.vp_world.specs.declared.event.Event.TheVariants as event;
ghost use Rattle.vp_world.specs.declared.error.WorldError.TheVariants as world_error;
ghost use Rattle.vp_answer.specs.declared.reply.Reply.TheVariants as reply;
ghost use Rattle.vp_world.specs.History.{advance_refusal, asked_at, asked_in, book_refusal, change_of, changed_in, closed_at, ended_for, goal_after, going_round, granted_to, halted, is_full, is_next_past_goal, is_past_goal, is_share_used, is_slot_full, later, next_session, opened_by, refusal_in, refusal_of_job, refusal_of_log, refusal_of_outcome, refusal_of_session, refusal_of_step, step_refusal, stepped, with_booked, with_bytes, with_job_taken, with_last_for, with_state};
ghost use Rattle.vp_answer.specs.OpenSessions.{index_of};
ghost use Rattle.vp_elab.specs.Tree.{below};
ghost use Rattle.vp_policy.specs.Regrants.{is_operator};
ghost use Rattle.vp_world.specs.Status.{user_sessions};
ghost use Rattle.vp_world.specs.Worlds.{start};

use crate::error::WorldError;
use crate::limits::Limits;
use crate::putting::{AnswerWithChange, answer_query};
use crate::watching::{mark_asked, notify};
use std::alloc::{AllocError, Global};
use std::marker::Model;
use std::snapshot::Snapshot;
use std::sync::Arc;
use vp_answer::{
    EndOrder, GoalChange, GrantChange, HaltOrder, OpenSession, Query, SessionId, UserSessions,
    end_sessions, retire_sessions, session_count, session_index,
};
use vp_elab::{Design, ObjectId};
use vp_expr::Change;
use vp_policy::{Policy, UserId};
use vp_race::{Book, BookedFinding, Finding, Recording, Segment};
use vp_sim::{Checked, SimError};
use vp_text::{Sequence, Shared, Text};

/// So many steps a time slot takes at most, from its beginning or from the last put in it on.
const SLOT_LIMIT: usize = 4_194_304;

/// A world without its log: a design with a policy, its simulation, and the sessions of its users. A contract sees how it began
/// and its state.
#[derive(Drop)]
pub struct LiveWorld {
    alloc: Global,
    run: Recording,
    book: Book,
    /// The policy with which it opened, as contracts see it: it takes no memory.
    opening_policy: Snapshot<Policy>,
    /// The policy in force.
    policy: Policy,
    limits: Limits,
    /// Those that are open, in the order in which they were opened.
    sessions: Vec<OpenSession>,
    /// Of each object, whether one of them may have a callback on it.
    watched: Vec<bool>,
    /// How often each user has opened a session, by his number.
    opens: Vec<u64>,
    /// Until when the simulation may run, in time units.
    goal: Option<u64>,
}

impl Model for LiveWorld {
    ghost use Rattle.std.specs.Prelude.{◌≡◌, true};
    ghost use Rattle.vp_policy.specs.PolicyState.{Fits};
    ghost use Rattle.vp_world.specs.Shown.{AreOfDesign, shown};
    ghost use Rattle.vp_world.specs.Marks.{all_marked};
    ghost use Rattle.vp_world.specs.Worlds.{WorldState};

    ghost Value = { WorldState };

    ghost view = { λ w. shown w.run w.book.races w.opening_policy.value w.policy w.limits
        w.sessions.items w.opens.items w.goal };

    ghost invariant = { λ w. (all_marked w.watched.items w.sessions.items ≡ true)
        × (w.book.limits ≡ w.limits.book) × AreOfDesign w.run
        × Fits w.policy w.run.simulation.design.tree };
}

/// The later of a goal, if there is one, and a time.
fn later(goal: Option<u64>, until: u64) -> u64
    ensures { result ≡ later goal until }
{
    match goal {
        Some(goal) => goal.max(until),
        None => until,
    }
}

/// A goal after what a query does to it.
fn goal_after(goal: Option<u64>, change: GoalChange) -> Option<u64>
    ensures { result ≡ goal_after goal change }
{
    match change {
        GoalChange::Stays => goal,
        GoalChange::RisesTo(until) => Some(later(goal, until)),
        GoalChange::Ends => None,
    }
}

/// The log is not full; else the refusal (1304).
fn check_log(full: bool) -> Result<(), WorldError>
    ensures accepted { OnOk result (refusal_of_log full ≡ None) }
    ensures refused { IfErr result (λ e. refusal_of_log full ≡ Some e) }
{
    if full {
        Err(WorldError::LogFull)
    } else {
        Ok(())
    }
}

/// Neither a log that is full or not nor a goal that does not reach so far, or does, refuses a step or an advance; else the refusal
/// (1304, 1305).
fn check_due(full: bool, is_past_goal: bool) -> Result<(), WorldError>
    ensures accepted { OnOk result ((o : sim.Outcome)
        → refusal_of_step full is_past_goal o ≡ refusal_of_outcome o) }
    ensures refused { IfErr result (λ e. (o : sim.Outcome)
        → refusal_of_step full is_past_goal o ≡ Some e) }
{
    if full {
        return Err(WorldError::LogFull);
    }
    if is_past_goal {
        return Err(WorldError::BeyondGoal);
    }
    Ok(())
}

/// Sets how often a user has opened a session.
fn set_count(opens: &mut Vec<u64>, user: UserId, count: u64)
    ensures { opens.new.items ≡ slice_set opens.old.items user.0 count }
{
    if let Some(index) = opens.get_mut(user.0) {
        *index = count;
    }
}

/// Takes the k-th of the events that a step of a recording can take, and reports what it changed; else the simulation's refusal, or out of memory,
/// which leave all as it was.
#[inline(always)]
fn step_of(run: &mut Recording, k: u32) -> Result<Option<Change>, SimError>
    requires { run.old.segments.count + 1 < 2 ^ 64 }
    ensures ok { IfOk result
        (λ change. sim.step run.old.simulation k ≡ sim.Goes run.new.simulation change) }
    ensures segments { OnOk result
        (run.new.segments ≡ with_step run.old.segments k run.new.simulation) }
    ensures refused { IfErr result (Explains sim_error.NoMemory
        (sim.refusal_in (sim.step run.old.simulation k))) }
    ensures unchanged { OnErr result (run.new ≡ run.old) }
{
    let changed = run.step(k)?;
    Ok(run.simulation().change_in(changed))
}

impl LiveWorld {
    /// A world in which nothing has happened; or out of memory (1307).
    pub fn new(
        alloc: Global,
        checked: Arc<Checked>,
        policy: Policy,
        limits: Limits,
    ) -> Result<LiveWorld, WorldError>
        requires { Fits policy (arc_value checked).tree }
        ensures opening { IfOk result
            (λ world. world.opening ≡ record {
              design = arc_value checked;
              policy = policy;
              limits = limits;
            }) }
        ensures state { IfOk result (λ world. world.state ≡ start world.opening) }
        ensures refused { IsOkUnless result world_error.NoMemory }
    {
        let opens = vec![in alloc; 0u64; policy.count()]?;
        let watched = vec![in alloc; false; checked.design().count() as usize]?;
        let Ok(run) = Recording::new(alloc, checked) else {
            return Err(WorldError::NoMemory);
        };
        Ok(LiveWorld {
            alloc,
            run,
            book: Book::new(alloc, limits.book),
            opening_policy: Snapshot::of(&policy),
            policy,
            limits,
            sessions: Vec::new(alloc),
            watched,
            opens,
            goal: None,
        })
    }

    /// How much the world holds at most.
    pub fn limits(&self) -> &Limits
        ensures { result.now ≡ self.now.opening.limits }
    {
        &self.limits
    }

    /// Leaves so many of the log's last entries to users, to the operator and to closes.
    pub fn leave_last(&mut self, for_users: usize, for_operator: usize, for_closes: usize)
        ensures { self.new ≡ record self.old {
          opening = with_last_for self.old.opening for_users for_operator for_closes;
        } }
    {
        self.limits = Limits {
            for_users,
            for_operator,
            for_closes,
            ..self.limits
        };
    }

    /// Bounds the bytes of texts in the entries that the log holds.
    pub fn limit_bytes(&mut self, bytes: u64)
        ensures { self.new ≡ record self.old { opening = with_bytes self.old.opening bytes } }
    {
        self.limits.bytes = Some(bytes);
    }

    /// The time slot has as many steps as it takes.
    #[inline(always)]
    pub fn is_slot_full(&self) -> bool
        ensures { result ≡ is_slot_full self.now.state }
    {
        self.run.has_steps(SLOT_LIMIT)
    }

    /// The process that goes round in a full time slot, by its object.
    pub fn going_round(&self) -> Option<ObjectId>
        ensures { result ≡ going_round self.now.state }
    {
        let simulation = self.run.simulation();
        if self.is_slot_full() && simulation.eligible() > 0 {
            Some(simulation.source(0))
        } else {
            None
        }
    }

    /// The design.
    pub fn design(&self) -> &Design
        ensures { result.now ≡ self.now.opening.design }
    {
        self.run.simulation().design()
    }

    /// The current time, in time units.
    pub fn time(&self) -> u64
        ensures { result ≡ self.now.state.run.time }
    {
        self.run.simulation().time()
    }

    /// `$finish` was executed.
    pub fn finished(&self) -> bool
        ensures { result ≡ self.now.state.run.finished }
    {
        self.run.simulation().finished()
    }

    /// How often a user has opened a session.
    fn opened(&self, user: UserId) -> u64
        ensures { result ≡ slice_index self.now.state.opens user.0 }
    {
        match self.opens.get(user.0) {
            Some(count) => *count,
            None => 0,
        }
    }

    /// A user has as many sessions open as he may at once.
    fn is_share_used(&self, user: UserId) -> bool
        ensures { result ≡ is_share_used self.now.state user.0 }
    {
        session_count(&self.sessions, user) as u64 >= self.policy.session_share(user)
    }

    /// There is no room for a session of a user.
    fn is_full(&self, user: UserId) -> bool
        ensures { result ≡ is_full self.now.opening self.now.state user.0 }
    {
        self.sessions.len() >= self.limits.sessions
            || self.is_share_used(user)
            || self.opened(user) == u64::MAX
    }

    /// The goal does not reach the current time.
    fn is_past_goal(&self) -> bool
        ensures { result ≡ is_past_goal self.now.state.goal self.now.state.run.time }
    {
        match self.goal {
            Some(goal) => goal < self.run.simulation().time(),
            None => true,
        }
    }

    /// The goal does not reach the time of the next event.
    fn is_next_past_goal(&self) -> bool
        ensures { result
            ≡ is_next_past_goal self.now.state.goal (sim.next_time self.now.state.run) }
    {
        let Some(goal) = self.goal else {
            return true;
        };
        match self.run.simulation().next_time() {
            Some(next) => goal < next,
            None => false,
        }
    }

    /// The user whose name and token an opening gives, where it is not refused; else the refusal (1302, 1301, 1304).
    pub fn admit(&self, name: &str, token: &str, full: bool) -> Result<UserId, WorldError>
        ensures user { IfOk result
            (λ user. login_of self.now.state.policy.members name.now token.now ≡ Some user.0) }
        ensures room { IfOk result
            (λ user. is_full self.now.opening self.now.state user.0 ≡ false) }
        ensures accepted { OnOk result
            (refusal_in self.now full (event.Open name.now token.now) ≡ None) }
        ensures refused { IfErr result
            (λ e. refusal_in self.now full (event.Open name.now token.now) ≡ Some e) }
    {
        let user = self.policy.login(name, token).ok_or(WorldError::BadToken)?;
        if self.is_full(user) {
            return Err(WorldError::SessionsFull);
        }
        check_log(full)?;
        Ok(user)
    }

    /// Where the open session of a name stands, where its event is not refused; else the refusal (1303, 1304).
    pub fn index(&self, id: SessionId, full: bool) -> Result<usize, WorldError>
        ensures index { IfOk result (λ index. index_of self.now.state.sessions id ≡ Some index) }
        ensures within { IfOk result (λ index. index < length self.now.state.sessions) }
        ensures accepted { OnOk result
            (refusal_of_session full (index_of self.now.state.sessions id) ≡ None) }
        ensures refused { IfErr result
            (λ e. refusal_of_session full (index_of self.now.state.sessions id) ≡ Some e) }
    {
        let Some(index) = session_index(self.sessions.as_slice(), id) else {
            return Err(WorldError::NotOpen);
        };
        check_log(full)?;
        Ok(index)
    }

    /// A token is the operator's.
    pub fn is_operator(&self, token: &str) -> bool
        ensures { result ≡ is_operator self.now.state.policy token.now }
    {
        self.policy.is_operator(token)
    }

    /// A session is open.
    pub fn is_open(&self, id: SessionId) -> bool
        ensures { result ≡ is_some (index_of self.now.state.sessions id) }
    {
        session_index(self.sessions.as_slice(), id).is_some()
    }

    /// A token is the operator's; else the refusal (1310).
    fn check_operator(&self, token: &str) -> Result<(), WorldError>
        ensures operator { OnOk result (is_operator self.now.state.policy token.now ≡ true) }
        ensures other { OnErr result (is_operator self.now.state.policy token.now ≡ false) }
        ensures refused { IsOkUnless result world_error.BadOperator }
    {
        if self.is_operator(token) {
            Ok(())
        } else {
            Err(WorldError::BadOperator)
        }
    }

    /// The user whose grant an operator changes, where that is not refused; else the refusal (1310, 1311, 1312, 1304).
    pub fn grantee(&self, change: &GrantChange, full: bool) -> Result<UserId, WorldError>
        ensures user { IfOk result
            (λ user. user_of self.now.state.policy.members change.now.user ≡ Some user.0) }
        ensures envelope { OnOk result
            (change.now.envelope ≤ length self.now.state.policy.tree.authors) }
        ensures accepted { OnOk result
            (refusal_in self.now full (event.Grant change.now) ≡ None) }
        ensures refused { IfErr result
            (λ e. refusal_in self.now full (event.Grant change.now) ≡ Some e) }
    {
        self.check_operator(change.token.as_str())?;
        let Some(grantee) = self.policy.user(change.user.as_str()) else {
            return Err(WorldError::NoSuchUser);
        };
        let envelopes = self.run.simulation().design().envelope_count();
        if change.envelope > u32::from(envelopes) {
            return Err(WorldError::NoSuchEnvelope);
        }
        check_log(full)?;
        Ok(grantee)
    }

    /// The user whose sessions an operator ends, where that is not refused; else the refusal (1310, 1311, 1304).
    pub fn user_to_end(&self, order: &EndOrder, full: bool) -> Result<UserId, WorldError>
        ensures user { IfOk result
            (λ user. user_of self.now.state.policy.members order.now.user ≡ Some user.0) }
        ensures accepted { OnOk result (refusal_in self.now full (event.End order.now) ≡ None) }
        ensures refused { IfErr result
            (λ e. refusal_in self.now full (event.End order.now) ≡ Some e) }
    {
        self.check_operator(order.token.as_str())?;
        let Some(user) = self.policy.user(order.user.as_str()) else {
            return Err(WorldError::NoSuchUser);
        };
        check_log(full)?;
        Ok(user)
    }

    /// An operator's order to stand still is not refused; else the refusal (1310, 1304).
    pub fn check_halt(&self, order: &HaltOrder, full: bool) -> Result<(), WorldError>
        ensures accepted { OnOk result (refusal_in self.now full (event.Halt order.now) ≡ None) }
        ensures refused { IfErr result
            (λ e. refusal_in self.now full (event.Halt order.now) ≡ Some e) }
    {
        self.check_operator(order.token.as_str())?;
        check_log(full)
    }

    /// Neither a log that is full or not nor the goal refuses a step; else the refusal (1304, 1305).
    pub fn check_goal(&self, full: bool) -> Result<(), WorldError>
        ensures accepted { OnOk result ((o : sim.Outcome)
            → step_refusal self.now full o ≡ refusal_of_outcome o) }
        ensures refused { IfErr result (λ e. (o : sim.Outcome)
            → step_refusal self.now full o ≡ Some e) }
    {
        check_due(full, self.is_past_goal())
    }

    /// Neither a log that is full or not nor the goal refuses an advance; else the refusal (1304, 1305).
    pub fn check_next_goal(&self, full: bool) -> Result<(), WorldError>
        ensures accepted { OnOk result ((o : sim.Outcome)
            → advance_refusal self.now full o ≡ refusal_of_outcome o) }
        ensures refused { IfErr result (λ e. (o : sim.Outcome)
            → advance_refusal self.now full o ≡ Some e) }
    {
        check_due(full, self.is_next_past_goal())
    }

    /// The simulation does not refuse step k; else its refusal (1308).
    #[cold]
    #[inline(never)]
    pub fn check_step(&self, k: u32) -> Result<(), WorldError>
        ensures accepted { OnOk result (refusal_of_outcome (sim.step self.now.state.run k) ≡ None) }
        ensures refused { IfErr result
            (λ e. refusal_of_outcome (sim.step self.now.state.run k) ≡ Some e) }
    {
        self.run
            .simulation()
            .check_step(k as usize)
            .map_err(WorldError::Sim)
    }

    /// The simulation does not refuse an advance; else its refusal (1308).
    #[cold]
    #[inline(never)]
    pub fn check_advance(&self) -> Result<(), WorldError>
        ensures accepted { OnOk result
            (refusal_of_outcome (sim.advance self.now.state.run) ≡ None) }
        ensures refused { IfErr result
            (λ e. refusal_of_outcome (sim.advance self.now.state.run) ≡ Some e) }
    {
        self.run
            .simulation()
            .check_advance()
            .map_err(WorldError::Sim)
    }

    /// Opens a session of a user, for which there is room; or out of memory (1307), which leaves the world as it was.
    pub fn open_for(&mut self, user: UserId) -> Result<SessionId, WorldError>
        requires { is_full self.old.opening self.old.state user.0 ≡ false }
        ensures id { IfOk result (λ id. id ≡ next_session self.old.state user.0) }
        ensures after { OnOk result
            (self.new ≡ with_state self.old (opened_by self.old.state user.0)) }
        ensures refused { IsOkUnless result world_error.NoMemory }
        ensures unchanged { OnErr result (self.new ≡ self.old) }
    {
        let id = SessionId {
            user,
            opens: self.opened(user) + 1,
        };
        let session = OpenSession::new(self.alloc, id)?;
        self.sessions.push(session)?;
        set_count(&mut self.opens, user, id.opens);
        Ok(id)
    }

    /// Makes a user's grant for an envelope exactly what an operator orders: the changed policy is in force, and what the user may
    /// not watch any more is taken out of his sessions; or out of memory (1307), which leaves the world as it was.
    pub fn grant(&mut self, user: UserId, change: &GrantChange) -> Result<(), WorldError>
        requires there { user_of self.old.state.policy.members change.now.user ≡ Some user.0 }
        requires envelope { change.now.envelope ≤ length self.old.state.policy.tree.authors }
        ensures after { OnOk result
            (self.new ≡ with_state self.old (granted_to self.old.state change.now user.0)) }
        ensures refused { IsOkUnless result world_error.NoMemory }
        ensures unchanged { OnErr result (self.new ≡ self.old) }
    {
        let design = self.run.simulation().design();
        let access = change.access.rights();
        let Ok(()) = self
            .policy
            .regrant(self.alloc, design, user, change.envelope, access)
        else {
            return Err(WorldError::NoMemory);
        };
        retire_sessions(&mut self.sessions, &self.policy, user);
        Ok(())
    }

    /// Ends the open sessions of a user.
    pub fn end(&mut self, user: UserId)
        ensures { self.new ≡ with_state self.old (ended_for self.old.state user.0) }
    {
        end_sessions(&mut self.sessions, user);
    }

    /// Lets the simulation stand still: no run has a goal any more.
    pub fn halt(&mut self)
        ensures { self.new ≡ with_state self.old (halted self.old.state) }
    {
        self.goal = None;
    }

    /// How many sessions a user has open. Takes memory for his name.
    fn user_sessions_of(&self, user: UserId) -> Result<UserSessions, AllocError>
        ensures { IfOk result (λ sessions. sessions ≡ user_sessions self.now.state user.0) }
    {
        Ok(UserSessions {
            user: Text::copy(self.alloc, self.policy.name(user))?,
            sessions: session_count(&self.sessions, user) as u64,
        })
    }

    /// How many sessions each user has open, in the order of the policy. Takes memory.
    pub fn user_sessions(&self) -> Result<Sequence<UserSessions>, AllocError>
        ensures { IfOk result (λ sessions. sessions ≡ map (user_sessions self.now.state)
            (below (length self.now.state.policy.members))) }
    {
        let mut users = Vec::new(self.alloc);
        for number in 0..self.policy.count() {
            users.push(self.user_sessions_of(UserId(number))?)?;
        }
        Ok(Sequence::from_vec(users))
    }

    /// How many kept segments were not handed out.
    pub fn jobs_waiting(&self) -> usize
        ensures { result ≡ jobs_waiting self.now.state.segments }
    {
        self.run.jobs_waiting()
    }

    /// Closes the session at an index.
    pub fn close(&mut self, index: usize)
        requires { index < length self.old.state.sessions }
        ensures { self.new ≡ with_state self.old (closed_at self.old.state (Some index)) }
    {
        self.sessions.remove(index);
    }

    /// Takes the k-th of the events that a step can take, and reports what it changes, which is due to the callbacks on it; else the
    /// simulation's refusal (1308), or out of memory (1307). A refusal leaves the world as it was.
    #[tactic(auto, using(crate::proofs::Outcomes::step_explained))]
    pub fn step(&mut self, k: u32) -> Result<Option<Change>, WorldError>
        requires { self.old.state.segments.count + 1 < 2 ^ 64 }
        ensures accepted { OnOk result (refusal_of_outcome (sim.step self.old.state.run k) ≡ None) }
        ensures change { IfOk result
            (λ change. change ≡ change_of (sim.step self.old.state.run k)) }
        ensures after { OnOk result
            (self.new ≡ with_state self.old
            (stepped self.old.state (with_step self.old.state.segments k)
            (sim.step self.old.state.run k))) }
        ensures refused { IfErr result
            (Explains world_error.NoMemory (refusal_of_outcome (sim.step self.old.state.run k))) }
        ensures unchanged { OnErr result (self.new ≡ self.old) }
    {
        match step_of(&mut self.run, k) {
            Ok(change) => {
                let time = self.run.simulation().time();
                notify(&mut self.sessions, &mut self.watched, change.as_ref(), time);
                Ok(change)
            }
            Err(error) => Err(WorldError::from(error)),
        }
    }

    /// Goes on to the time of the next event; else the simulation's refusal (1308), or out of memory (1307). A refusal leaves the
    /// world as it was.
    #[tactic(auto, using(crate::proofs::Outcomes::advance_explained, crate::proofs::Noticing::noticed_none))]
    pub fn advance(&mut self) -> Result<(), WorldError>
        ensures accepted { OnOk result
            (refusal_of_outcome (sim.advance self.old.state.run) ≡ None) }
        ensures change { OnOk result (change_of (sim.advance self.old.state.run) ≡ None) }
        ensures after { OnOk result
            (self.new ≡ with_state self.old
            (stepped self.old.state (with_anew self.old.state.segments)
            (sim.advance self.old.state.run))) }
        ensures refused { IfErr result
            (Explains world_error.NoMemory (refusal_of_outcome (sim.advance self.old.state.run))) }
        ensures unchanged { OnErr result (self.new ≡ self.old) }
    {
        match self.run.advance() {
            Ok(()) => Ok(()),
            Err(error) => Err(WorldError::from(error)),
        }
    }

    /// The kept segment of a number; none where it is not kept. It is of the world's design.
    pub fn kept(&self, number: u64) -> Option<&Segment>
        ensures kept { option_copied result ≡ kept_of self.now.state.segments number }
        ensures design { IfSome result (λ s. s.now.start.design ≡ self.now.opening.design) }
    {
        self.run.kept(number)
    }

    /// The oldest kept segment that was not handed out, if there is one: it is of the world's design.
    pub fn next_job(&self) -> Option<&Segment>
        ensures job { option_copied result ≡ next_job self.now.state.segments }
        ensures design { IfSome result (λ s. s.now.start.design ≡ self.now.opening.design) }
    {
        self.run.next_job()
    }

    /// The races in the book, in the order in which they were booked.
    pub fn races(&self) -> &[Shared<BookedFinding>]
        ensures { result.now ≡ self.now.state.book }
    {
        self.book.races()
    }

    /// Neither a log that is full or not nor the want of a kept segment that was not handed out refuses a job; else the refusal
    /// (1304, 1306).
    pub fn check_job(&self, full: bool) -> Result<(), WorldError>
        ensures accepted { OnOk result
            (refusal_of_job full (next_job self.now.state.segments) ≡ None) }
        ensures refused { IfErr result
            (λ e. refusal_of_job full (next_job self.now.state.segments) ≡ Some e) }
    {
        check_log(full)?;
        match self.run.next_job() {
            Some(_) => Ok(()),
            None => Err(WorldError::NoJob),
        }
    }

    /// Hands out the oldest kept segment that was not handed out, and reports its number.
    pub fn take_job(&mut self) -> Option<u64>
        ensures number { result
            ≡ option_map (λ run. run.number) (next_job self.old.state.segments) }
        ensures after { self.new ≡ with_state self.old (with_job_taken self.old.state) }
    {
        self.run.take_job()
    }

    /// The book does not refuse a finding; else its refusal (1309).
    #[cold]
    #[inline(never)]
    pub fn check_booking(&self, finding: &Finding) -> Result<(), WorldError>
        requires { finding.now.segment.start.design ≡ self.now.opening.design }
        ensures accepted { OnOk result
            (book_refusal self.now.opening self.now.state finding.now ≡ None) }
        ensures refused { IfErr result (λ e. option_map world_error.Race
            (book_refusal self.now.opening self.now.state finding.now) ≡ Some e) }
    {
        let kept = self.run.kept(finding.segment().number());
        self.book.check(kept, finding).map_err(WorldError::Race)
    }

    /// Books a finding, and gives what the book keeps of it; else the book's refusal (1309), or out of memory (1307), which leaves the
    /// world as it was.
    pub fn book(&mut self, finding: &Finding) -> Result<Shared<BookedFinding>, WorldError>
        requires { finding.now.segment.start.design ≡ self.old.opening.design }
        ensures accepted { OnOk result
            (book_refusal self.old.opening self.old.state finding.now ≡ None) }
        ensures booked { IfOk result (λ race. race ≡ finding.now) }
        ensures after { OnOk result
            (self.new ≡ with_state self.old (with_booked self.old.state finding.now)) }
        ensures refused { IfErr result (Explains world_error.NoMemory (option_map world_error.Race
            (book_refusal self.old.opening self.old.state finding.now))) }
        ensures unchanged { OnErr result (self.new ≡ self.old) }
    {
        let kept = self.run.kept(finding.segment().number());
        Ok(self.book.add(kept, finding)?)
    }

    /// Answers a query of the session at an index, whose change is due to the callbacks on it; or out of memory (1307), which leaves
    /// the world as it was.
    pub fn ask(&mut self, index: usize, query: &Query) -> Result<AnswerWithChange, WorldError>
        requires { index < length self.old.state.sessions }
        ensures reply { IfOk result (λ a. a.reply ≡ asked_in self.old index query.now) }
        ensures entry { IfOk result (λ a. a.entry_reply ≡ asked_in self.old index query.now) }
        ensures change { IfOk result (λ a. a.change ≡ changed_in self.old index query.now) }
        ensures done { IfOk result (λ a. IfSome a.change (λ c. a.entry_reply ≡ reply.Done)) }
        ensures after { OnOk result
            (self.new ≡ with_state self.old
            (asked_at self.old.state (Some index) query.now)) }
        ensures refused { IsOkUnless result world_error.NoMemory }
        ensures unchanged { OnErr result (self.new ≡ self.old) }
    {
        let session = &mut self.sessions[index];
        let answer = answer_query(session, &self.policy, &mut self.run, &self.book, query)?;
        mark_asked(&mut self.watched, session, query);
        self.goal = goal_after(self.goal, answer.goal);
        let change = answer.change.as_ref();
        let time = self.run.simulation().time();
        notify(&mut self.sessions, &mut self.watched, change, time);
        Ok(answer)
    }
}
