ghost use Rattle.std.specs.Prelude.{◌≡◌, ◌≤◌, ◌||◌, [], false, true, drop, is_none, is_some, length, option_copied, option_map, IfErr, IfOk, IfSome, IsOkUnless, None, OnOk, Some};
ghost use Rattle.std.specs.Arc.{arc_value};
ghost use Rattle.std.specs.List.{All};
ghost use Rattle.vp_policy.specs.PolicyState.{Fits};
ghost use Rattle.vp_world.specs.declared.event.Event.TheVariants as event;
ghost use Rattle.vp_world.specs.declared.error.WorldError.TheVariants.{NoMemory};
ghost use Rattle.vp_answer.specs.Sizes.{saturated};
ghost use Rattle.vp_race.specs.Recording.{kept_of, next_job};
ghost use Rattle.vp_world.specs.Events.{IsWellFormed};
ghost use Rattle.vp_world.specs.HiddenNames.{HidesAlike};
ghost use Rattle.vp_world.specs.Races.{step_name};
ghost use Rattle.vp_world.specs.History.{Applies, IsLegal, IsReached, answered_by, going_round, held_bytes, is_full_of, is_full_of_bytes, is_slot_full, limit_of_operator, limit_of_simulation, limit_of_users, most_entries, refused_by, state_after, with_bytes, with_last_for};
ghost use Rattle.vp_answer.specs.OpenSessions.{index_of};
ghost use Rattle.vp_policy.specs.Regrants.{is_operator};
ghost use Rattle.vp_world.specs.Status.{status_of};
ghost use Rattle.vp_world.specs.Worlds.{State};

use crate::archive::Archive;
use crate::entry::{Asked, Entry, LoggedEvent, Login};
use crate::error::WorldError;
use crate::event::Event;
use crate::journal::Journal;
use crate::limits::Limits;
use crate::live_world::LiveWorld;
use crate::log::Log;
use crate::shown_races::step_name;
use std::alloc::{AllocError, Global};
use std::marker::Model;
use std::sync::Arc;
use vp_answer::{EndOrder, GrantChange, HaltOrder, Query, Reply, SessionId, WorldStatus};
use vp_policy::Policy;
use vp_race::{BookedFinding, Finding, Segment};
use vp_sim::Checked;
use vp_text::{Shared, Text};

/// A design with a policy, its simulation, the sessions of its users, and the log of what has happened, of which it may have handed out the
/// first entries. A contract sees how it began and its log, of which its state is a function, and how many entries were handed out.
#[derive(Drop)]
pub struct World {
    alloc: Global,
    present: LiveWorld,
    log: Journal,
}

impl Model for World {
    ghost use Rattle.vp_world.specs.History.{Keeps};
    ghost use Rattle.vp_world.specs.Worlds.{WorldLog};

    ghost Value = { WorldLog };

    ghost view = { λ w. record {
      opening = w.present.opening;
      log = w.log.entries;
      handed_out = w.log.handed_out;
    } };

    ghost invariant = { λ w. Keeps w.present w.log.entries };
}

impl World {
    /// A world in which nothing has happened; or out of memory (1307).
    pub fn new(
        alloc: Global,
        checked: Arc<Checked>,
        policy: Policy,
        limits: Limits,
    ) -> Result<World, WorldError>
        requires { Fits policy (arc_value checked).tree }
        ensures world { IfOk result
            (λ world. world ≡ record {
              opening = record {
                design = arc_value checked;
                policy = policy;
                limits = limits;
              };
              log = [];
              handed_out = 0;
            }) }
        ensures refused { IsOkUnless result NoMemory }
    {
        let present = LiveWorld::new(alloc, checked, policy, limits)?;
        Ok(World {
            alloc,
            present,
            log: Journal::new(alloc),
        })
    }

    /// Leaves so many of the log's last entries to users, so many after them to the operator and to closes, and so many, the last, to
    /// closes: as if the world had opened with these limits.
    pub fn leave_last(&mut self, for_users: usize, for_operator: usize, for_closes: usize)
        requires { self.old.log ≡ [] }
        ensures { self.new ≡ record self.old {
          opening = with_last_for self.old.opening for_users for_operator for_closes;
        } }
    {
        self.present.leave_last(for_users, for_operator, for_closes);
    }

    /// Bounds the bytes of texts in the entries that the log holds: as if the world had opened with this limit.
    pub fn limit_bytes(&mut self, bytes: u64)
        requires { self.old.log ≡ [] }
        ensures { self.new ≡ record self.old { opening = with_bytes self.old.opening bytes } }
    {
        self.present.limit_bytes(bytes);
    }

    /// What has happened, in order, since entries were last handed out.
    pub fn log(&self) -> &Log
        ensures log { result.now.entries ≡ drop self.now.handed_out self.now.log }
        ensures legal { IsLegal self.now.opening [] self.now.log }
    {
        self.log.held()
    }

    /// How many entries the log has, those that were handed out among them.
    pub fn entry_count(&self) -> u64
        ensures count { result ≡ length self.now.log }
        ensures few { length self.now.log ≤ most_entries }
        ensures legal { IsLegal self.now.opening [] self.now.log }
    {
        self.log.len()
    }

    /// How many entries were handed out: the first of all that has happened.
    pub fn handed_out(&self) -> u64
        ensures handed_out { result ≡ self.now.handed_out }
        ensures within { self.now.handed_out ≤ length self.now.log }
    {
        self.log.handed_out()
    }

    /// The bytes of texts in the entries that the log holds, as far as 64 bits go.
    pub fn held_bytes(&self) -> u64
        ensures { result ≡ saturated (held_bytes self.now.handed_out self.now.log) }
    {
        self.log.bytes()
    }

    /// Hands out the entries that the log holds, all of them, after which it holds none; or reports that the archive refuses them, which
    /// leaves world and archive as they were. To a contract the log is the same, and so is all that the world answers, but that its log
    /// is full later. Takes no memory.
    pub fn hand_out<A: Archive>(&mut self, archive: &mut A) -> bool
        ensures taken { result ≡ true → A.takes archive.old
            (drop self.old.handed_out self.old.log) archive.new }
        ensures world { result ≡ true
            → self.new ≡ record self.old { handed_out = length self.old.log } }
        ensures refused { result ≡ false → archive.new ≡ archive.old }
        ensures unchanged { result ≡ false → self.new ≡ self.old }
        ensures allowed { result ≡ false → A.may_refuse archive.old }
    {
        self.log.hand_out(archive)
    }

    /// The log has no room for a Step, an Advance, a TakeJob or a Book.
    fn is_full_for_simulation(&self) -> bool
        ensures { result ≡ is_full_of (limit_of_simulation self.now.opening.limits)
            self.now.handed_out self.now.log }
    {
        self.log
            .is_full(self.present.limits().limit_of_simulation())
    }

    /// The log has no room for a Step, or the time slot has as many as it takes.
    fn is_full_for_step(&self) -> bool
        ensures { result ≡ (is_full_of (limit_of_simulation self.now.opening.limits)
            self.now.handed_out self.now.log
            || is_slot_full (state_after self.now.opening self.now.log)) }
    {
        self.is_full_for_simulation() || self.is_slot_full()
    }

    /// The time slot has as many steps as it takes: the next is refused, until a put.
    pub fn is_slot_full(&self) -> bool
        ensures { result ≡ is_slot_full (state_after self.now.opening self.now.log) }
    {
        self.present.is_slot_full()
    }

    /// The name of the process that goes round in a time slot with as many steps as it takes: of the one whose event would be next. None where
    /// the slot has fewer, or nothing is left to do in it. Takes memory.
    pub fn going_round(&self) -> Result<Option<Text>, AllocError>
        ensures { IfOk result (λ name. name ≡ option_map
            (λ o. step_name self.now.opening.design.tree o.0)
            (going_round (state_after self.now.opening self.now.log))) }
    {
        let Some(process) = self.present.going_round() else {
            return Ok(None);
        };
        Ok(Some(step_name(self.alloc, self.present.design(), process)?))
    }

    /// The log has no room for an Open or an Ask.
    fn is_full_for_users(&self) -> bool
        ensures { result ≡ (is_full_of_bytes self.now.opening.limits.bytes
            self.now.handed_out self.now.log
            || is_full_of (limit_of_users self.now.opening.limits)
            self.now.handed_out self.now.log) }
    {
        let limits = self.present.limits();
        self.log.is_full_of_bytes(limits.bytes) || self.log.is_full(limits.limit_of_users())
    }

    /// The log has no room for a Grant.
    fn is_full_for_grants(&self) -> bool
        ensures { result ≡ (is_full_of_bytes self.now.opening.limits.bytes
            self.now.handed_out self.now.log
            || is_full_of (limit_of_operator self.now.opening.limits)
            self.now.handed_out self.now.log) }
    {
        self.log.is_full_of_bytes(self.present.limits().bytes) || self.is_full_for_operator()
    }

    /// The log has no room for an End or a Halt.
    fn is_full_for_operator(&self) -> bool
        ensures { result ≡ is_full_of (limit_of_operator self.now.opening.limits)
            self.now.handed_out self.now.log }
    {
        self.log.is_full(self.present.limits().limit_of_operator())
    }

    /// The log has no room for a Close.
    fn is_full_for_closes(&self) -> bool
        ensures { result ≡ is_full_of self.now.opening.limits.log
            self.now.handed_out self.now.log }
    {
        self.log.is_full(self.present.limits().log)
    }

    /// Why an Open of a user would be refused but for memory: the refusals of `apply`. Takes no memory.
    pub fn check_open(&self, user: &str, token: &str) -> Result<(), WorldError>
        ensures accepted { OnOk result
            (refused_by self.now (event.Open user.now token.now) ≡ None) }
        ensures refused { IfErr result
            (λ e. refused_by self.now (event.Open user.now token.now) ≡ Some e) }
    {
        self.present.admit(user, token, self.is_full_for_users())?;
        Ok(())
    }

    /// Lets an event happen, answers it, and adds it to the log. An Open is refused by a wrong name or token (1302), too many
    /// sessions (1301) or a full log (1304); an Ask and a Close by a session that is not open (1303) or a full log; a Grant by
    /// another token than the operator's (1310), a user (1311) or an envelope (1312) that is not there, or a full log; an End by such
    /// a token, such a user or a full log; a Halt by such a token or a full log; a Step and an Advance by a full log, and a Step by a full time slot (1304), by a goal that does not reach so far (1305) or by the simulation
    /// (1308); a TakeJob by a full log or where no kept segment is left to be handed out (1306); a Book by a full log or by the book
    /// (1309); and each when out of memory (1307). A refusal leaves the world as it was. A name that is hidden from a session's user is answered as one that is not
    /// there.
    #[tactic(auto, using(crate::proofs::HiddenNames::hides_if))]
    pub fn apply(&mut self, event: Event) -> Result<Reply, WorldError>
        requires { IsWellFormed self.old.opening.design event }
        ensures applied { Applies self.old event result self.new }
        ensures reply { IfOk result (λ reply. reply ≡ answered_by self.old event) }
        ensures hidden { IfOk result (HidesAlike self.old event) }
    {
        match event {
            Event::Open { user, token } => self.apply_open(user, token),
            Event::Ask { session, query } => self.apply_ask(session, query),
            Event::Close { session } => self.apply_close(session),
            Event::Grant(change) => self.apply_grant(change),
            Event::End(order) => self.apply_end(order),
            Event::Halt(order) => self.apply_halt(order),
            Event::Step(k) => self.apply_step(k),
            Event::Advance => self.apply_advance(),
            Event::TakeJob => self.apply_job(),
            Event::Book(finding) => self.apply_booking(finding),
        }
    }

    /// The same of a Step.
    fn apply_step(&mut self, k: u32) -> Result<Reply, WorldError>
        ensures applied { Applies self.old (event.Step k) result self.new }
        ensures reply { IfOk result (λ reply. reply ≡ answered_by self.old (event.Step k)) }
    {
        self.step(k)?;
        Ok(Reply::Done)
    }

    /// Applies the Step with which the simulation takes the k-th of the events that a step can take, from 0. Its refusals are those
    /// of `apply`; its reply, that it was done, is no one's.
    pub fn step(&mut self, k: u32) -> Result<(), WorldError>
        ensures { Applies self.old (event.Step k) result self.new }
    {
        let full = self.is_full_for_step();
        self.present.check_goal(full)?;
        if let Err(missing_right) = self.log.reserve() {
            // The simulation's own refusal comes before out of memory.
            self.present.check_step(k)?;
            return Err(WorldError::from(missing_right));
        }
        let change = self.present.step(k)?;
        let time = self.present.time();
        let finished = self.present.finished();
        self.log.push_step(k, change, time, finished);
        Ok(())
    }

    /// The same of a TakeJob.
    fn apply_job(&mut self) -> Result<Reply, WorldError>
        ensures applied { Applies self.old event.TakeJob result self.new }
        ensures reply { IfOk result (λ reply. reply ≡ answered_by self.old event.TakeJob) }
    {
        let full = self.is_full_for_simulation();
        self.present.check_job(full)?;
        self.log.reserve()?;
        let Some(number) = self.present.take_job() else {
            unreachable!()
        };
        self.log.push(Entry {
            happening: LoggedEvent::TakeJob { number },
            time: self.present.time(),
            finished: self.present.finished(),
        });
        Ok(Reply::Job(number))
    }

    /// The same of a Book.
    fn apply_booking(&mut self, finding: Shared<Finding>) -> Result<Reply, WorldError>
        requires { IsWellFormed self.old.opening.design (event.Book finding) }
        ensures applied { Applies self.old (event.Book finding) result self.new }
        ensures reply { IfOk result (λ reply. reply ≡ answered_by self.old (event.Book finding)) }
    {
        if self.is_full_for_simulation() {
            return Err(WorldError::LogFull);
        }
        if let Err(missing_right) = self.log.reserve() {
            self.present.check_booking(finding.value())?;
            return Err(WorldError::from(missing_right));
        }
        let booked = self.present.book(finding.value())?;
        self.log.push(Entry {
            happening: LoggedEvent::Book { finding: booked },
            time: self.present.time(),
            finished: self.present.finished(),
        });
        Ok(Reply::Done)
    }

    /// The kept segment of a number; none where no segment of that number closed, or it is no longer kept. It is of the world's design.
    pub fn kept(&self, number: u64) -> Option<&Segment>
        ensures kept { option_copied result ≡ kept_of
            (state_after self.now.opening self.now.log).segments number }
        ensures design { IfSome result (λ s. s.now.start.design ≡ self.now.opening.design) }
    {
        self.present.kept(number)
    }

    /// The segment that the next TakeJob hands out; none where it is refused but for a full log. It is of the world's design.
    pub fn next_job(&self) -> Option<&Segment>
        ensures job { option_copied result ≡ next_job
            (state_after self.now.opening self.now.log).segments }
        ensures design { IfSome result (λ s. s.now.start.design ≡ self.now.opening.design) }
    {
        self.present.next_job()
    }

    /// The races in the book, in the order in which they were booked. Each is a race of a segment that was kept when it was booked.
    pub fn book(&self) -> &[Shared<BookedFinding>]
        ensures races { result.now ≡ (state_after self.now.opening self.now.log).book }
        ensures reached { All (λ f. IsReached self.now.opening self.now.log f) result.now }
    {
        self.present.races()
    }

    /// The same of an Advance.
    fn apply_advance(&mut self) -> Result<Reply, WorldError>
        ensures applied { Applies self.old event.Advance result self.new }
        ensures reply { IfOk result (λ reply. reply ≡ answered_by self.old event.Advance) }
    {
        self.advance()?;
        Ok(Reply::Done)
    }

    /// Applies the Advance with which the simulation goes on to the time of the next event. Its refusals are those of `apply`; its
    /// reply, that it was done, is no one's.
    pub fn advance(&mut self) -> Result<(), WorldError>
        ensures { Applies self.old event.Advance result self.new }
    {
        let full = self.is_full_for_simulation();
        self.present.check_next_goal(full)?;
        if let Err(missing_right) = self.log.reserve() {
            self.present.check_advance()?;
            return Err(WorldError::from(missing_right));
        }
        self.present.advance()?;
        self.log.push(Entry {
            happening: LoggedEvent::Advance,
            time: self.present.time(),
            finished: self.present.finished(),
        });
        Ok(())
    }

    /// The same of an Open.
    fn apply_open(&mut self, user: Text, token: Text) -> Result<Reply, WorldError>
        ensures applied { Applies self.old (event.Open user token) result self.new }
        ensures reply { IfOk result
            (λ reply. reply ≡ answered_by self.old (event.Open user token)) }
    {
        let full = self.is_full_for_users();
        let number = self.present.admit(user.as_str(), token.as_str(), full)?;
        self.log.reserve()?;
        let login = Arc::new(self.alloc, Login { user, token })?;
        let session = self.present.open_for(number)?;
        self.log.push(Entry {
            happening: LoggedEvent::Open { login, session },
            time: self.present.time(),
            finished: self.present.finished(),
        });
        Ok(Reply::Opened(session))
    }

    /// The same of an Ask.
    fn apply_ask(&mut self, session: SessionId, query: Query) -> Result<Reply, WorldError>
        ensures applied { Applies self.old (event.Ask session query) result self.new }
        ensures reply { IfOk result
            (λ reply. reply ≡ answered_by self.old (event.Ask session query)) }
    {
        let full = self.is_full_for_users();
        let index = self.present.index(session, full)?;
        self.log.reserve()?;
        let asked = Arc::new(self.alloc, Asked { session, query })?;
        let answer = self.present.ask(index, &asked.query)?;
        let entry = Entry {
            happening: LoggedEvent::of_asked(asked, answer.entry_reply, answer.change),
            time: self.present.time(),
            finished: self.present.finished(),
        };
        self.log.push(entry);
        Ok(answer.reply)
    }

    /// The same of a Close.
    fn apply_close(&mut self, session: SessionId) -> Result<Reply, WorldError>
        ensures applied { Applies self.old (event.Close session) result self.new }
        ensures reply { IfOk result (λ reply. reply ≡ answered_by self.old (event.Close session)) }
    {
        let full = self.is_full_for_closes();
        let index = self.present.index(session, full)?;
        self.log.reserve()?;
        self.present.close(index);
        self.log.push(Entry {
            happening: LoggedEvent::Close { session },
            time: self.present.time(),
            finished: self.present.finished(),
        });
        Ok(Reply::Done)
    }

    /// The same of a Grant.
    fn apply_grant(&mut self, change: GrantChange) -> Result<Reply, WorldError>
        ensures applied { Applies self.old (event.Grant change) result self.new }
        ensures reply { IfOk result (λ reply. reply ≡ answered_by self.old (event.Grant change)) }
    {
        let full = self.is_full_for_grants();
        let user = self.present.grantee(&change, full)?;
        self.log.reserve()?;
        let change = Arc::new(self.alloc, change)?;
        self.present.grant(user, &change)?;
        self.log.push(Entry {
            happening: LoggedEvent::Grant { change },
            time: self.present.time(),
            finished: self.present.finished(),
        });
        Ok(Reply::Done)
    }

    /// The same of an End.
    fn apply_end(&mut self, order: EndOrder) -> Result<Reply, WorldError>
        ensures applied { Applies self.old (event.End order) result self.new }
        ensures reply { IfOk result (λ reply. reply ≡ answered_by self.old (event.End order)) }
    {
        let full = self.is_full_for_operator();
        let user = self.present.user_to_end(&order, full)?;
        self.log.reserve()?;
        let order = Arc::new(self.alloc, order)?;
        self.present.end(user);
        self.log.push(Entry {
            happening: LoggedEvent::End { order },
            time: self.present.time(),
            finished: self.present.finished(),
        });
        Ok(Reply::Done)
    }

    /// The same of a Halt.
    fn apply_halt(&mut self, order: HaltOrder) -> Result<Reply, WorldError>
        ensures applied { Applies self.old (event.Halt order) result self.new }
        ensures reply { IfOk result (λ reply. reply ≡ answered_by self.old (event.Halt order)) }
    {
        let full = self.is_full_for_operator();
        self.present.check_halt(&order, full)?;
        self.log.reserve()?;
        let order = Arc::new(self.alloc, order)?;
        self.present.halt();
        self.log.push(Entry {
            happening: LoggedEvent::Halt { order },
            time: self.present.time(),
            finished: self.present.finished(),
        });
        Ok(Reply::Done)
    }

    /// A Step that takes the first event is not refused, but for memory.
    fn may_step(&self) -> bool
        ensures { result ≡ is_none (refused_by self.now (event.Step 0)) }
    {
        let full = self.is_full_for_step();
        self.present.check_goal(full).is_ok() && self.present.check_step(0).is_ok()
    }

    /// An Advance is not refused, but for memory.
    fn may_advance(&self) -> bool
        ensures { result ≡ is_none (refused_by self.now event.Advance) }
    {
        let full = self.is_full_for_simulation();
        self.present.check_next_goal(full).is_ok() && self.present.check_advance().is_ok()
    }

    /// A token is the operator's.
    pub fn is_operator(&self, token: &str) -> bool
        ensures { let s : State = state_after self.now.opening self.now.log in
            result ≡ is_operator s.policy token.now }
    {
        self.present.is_operator(token)
    }

    /// A session is open.
    pub fn is_open(&self, session: SessionId) -> bool
        ensures { let s : State = state_after self.now.opening self.now.log in
            result ≡ is_some (index_of s.sessions session) }
    {
        self.present.is_open(session)
    }

    /// How the world stands. Takes memory.
    pub fn status(&self) -> Result<WorldStatus, AllocError>
        ensures { IfOk result (λ status. status ≡ status_of self.now) }
    {
        Ok(WorldStatus {
            time: self.present.time(),
            running: self.may_step() || self.may_advance(),
            entries: self.entry_count(),
            held: self.entry_count() - self.handed_out(),
            bytes: self.held_bytes(),
            sessions: self.present.user_sessions()?,
            jobs: self.present.jobs_waiting() as u64,
            races: self.present.races().len() as u64,
        })
    }
}
