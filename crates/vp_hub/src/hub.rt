ghost use Rattle.std.specs.Prelude.{◌≡◌, ◌⊎◌, ◌≤◌, ◌<◌, ◌++◌, ◌∷◌, [], IfErr, IfOk, IfSome, None, OnErr, OnOk, true, false};
ghost use Rattle.std.specs.Arc.{arc_value};
ghost use Rattle.std.specs.List.{All};
ghost use Rattle.vp_answer.specs.declared.reply.Reply.TheVariants as replies;
ghost use Rattle.vp_hub.specs.declared.error.HubError.TheVariants.{Mismatch, Receipt};
ghost use Rattle.vp_hub.specs.Closing.{IsClosed, IsEnd};
ghost use Rattle.vp_hub.specs.Hubs.{IsAnswered, IsOpened};

use crate::close::Closed;
use crate::desk::Desk;
use crate::error::HubError;
use crate::opens::NamesOpening;
use crate::pass::Pass;
use std::alloc::{AllocError, Global};
use std::collections::VecDeque;
use std::hint::spin_loop;
use std::sync::atomic::{AtomicUsize, Ordering};
use std::sync::{Arc, Mutex, MutexGuard, Wait};
use vp_answer::{Call, EndOrder, GrantChange, HaltOrder, Reply, SessionId, WorldStatus};
use vp_race::{Finding, Gate, Segment, search};
use vp_text::Text;
use vp_world::{Event, WorldError};

/// A search tries so many seeds.
const SEED_COUNT: u64 = 16;

/// By orders of at most so many steps.
const STEP_LIMIT: u64 = 10_000;

/// So many events of the simulation happen at most while its thread holds the lock.
const EVENTS_UNDER_LOCK: u64 = 64;

/// So often the simulation's thread looks whether those who wait for the lock have it.
const LOOKS: u32 = 100;

/// How far a simulation ran.
#[derive(Clone, Copy, Debug, PartialEq, Eq)]
pub struct Ran {
    /// So many of its events happened.
    pub events: u64,
    /// The next one was refused: by the goal, or by the simulation.
    pub idle: bool,
}

/// What was searched for races.
#[derive(Clone, Copy, Debug, PartialEq, Eq)]
pub struct Worked {
    /// The number of the segment; none where there was none to be searched.
    pub job: Option<u64>,
    /// So many races were booked.
    pub booked: u32,
}

/// Lets at most so many events of a desk's simulation happen, and no more once somebody waits for the desk.
fn run_events<L: NamesOpening>(
    desk: &mut Desk<L>,
    most: u64,
    waiting: &AtomicUsize,
) -> Result<Ran, HubError>
    ensures most { IfOk result (λ ran. ran.events ≤ most) }
    ensures some { IfOk result (λ ran. ran.idle ≡ false → 0 < most → 0 < ran.events) }
    ensures idle { IfOk result (λ ran. ran.idle ≡ true → ran.events < most) }
{
    for events in 0..most {
        match desk.run_next() {
            Ok(()) => {}
            Err(HubError::World(WorldError::BeyondGoal | WorldError::Sim(_))) => {
                return Ok(Ran { events, idle: true });
            }
            Err(error) => return Err(error),
        }
        if waiting.load(Ordering::SeqCst) > 0 {
            return Ok(Ran {
                events: events + 1,
                idle: false,
            });
        }
    }
    Ok(Ran {
        events: most,
        idle: false,
    })
}

/// Takes passes back, one after another, until one is refused.
fn hand_back_all<L: NamesOpening>(
    desk: &mut Desk<L>,
    passes: VecDeque<Pass<L>>,
) -> Result<(), HubError>
    ensures returned { OnOk result (desk.new.handed_back ≡ desk.old.handed_back ++ passes.items) }
    ensures refused { IfErr result (λ e. e ≡ Receipt) }
{
    let mut passes = passes;
    while let Some(pass) = passes.pop_front() {
        desk.hand_back(pass)?;
    }
    Ok(())
}

/// A world that threads share: a desk behind a lock. Whenever the lock is free, the desk's log is legal for the world that L names,
/// and the ledger's total is the number of its entries of sessions.
#[derive(Drop)]
pub struct Hub<L: NamesOpening> {
    alloc: Global,
    desk: Mutex<Desk<L>>,
    /// So many threads wait for the lock, that of the simulation apart.
    waiting: AtomicUsize,
}

impl<L: NamesOpening> Hub<L> {
    /// A hub with a desk.
    pub fn new(alloc: Global, desk: Desk<L>) -> Hub<L> {
        Hub {
            alloc,
            desk: Mutex::new(desk),
            waiting: AtomicUsize::new(0),
        }
    }

    /// The desk, once nobody else has it. The simulation's thread sees that somebody waits.
    fn desk<R: Wait>(&self, rt: &R) -> MutexGuard<'_, Desk<L>> {
        self.waiting.fetch_add(1, Ordering::SeqCst);
        let desk = self.desk.lock(rt);
        self.waiting.fetch_sub(1, Ordering::SeqCst);
        desk
    }

    /// Takes a pass back, as `Desk::hand_back` does.
    pub fn hand_back<R: Wait>(&self, rt: &R, pass: Pass<L>) -> Result<(), HubError>
        ensures { IfErr result (λ e. e ≡ Receipt) }
    {
        self.desk(rt).hand_back(pass)
    }

    /// Opens a session for a user, and gives its pass; else what `Desk::open` is refused by.
    pub fn open<R: Wait>(&self, rt: &R, user: Text, token: Text) -> Result<Pass<L>, HubError>
        ensures { IfOk result (λ p. IsOpened L.opening user token p) }
    {
        let mut desk = self.desk(rt);
        let pass = desk.open(user, token)?;
        // Read, so that the check knows that it is legal.
        let _log = desk.log();
        desk.hand_out();
        Ok(pass)
    }

    /// Answers a call of a session, and gives its pass back, which has made it; else what `Desk::call` is refused by.
    pub fn call<R: Wait>(
        &self,
        rt: &R,
        pass: Pass<L>,
        call: Call,
    ) -> (Pass<L>, Result<Reply, HubError>)
        ensures { IsAnswered L.opening pass call result.1 result.0 }
    {
        let mut desk = self.desk(rt);
        let answered = desk.call(pass, call);
        desk.hand_out();
        answered
    }

    /// Changes a user's grant for an envelope; else the world's refusal (1403: 1310, 1311, 1312, 1304, 1307).
    pub fn grant<R: Wait>(&self, rt: &R, change: GrantChange) -> Result<Reply, HubError>
        ensures { IfOk result (λ a. a ≡ replies.Done) }
    {
        let mut desk = self.desk(rt);
        let answer = desk.event(Event::Grant(change))?;
        desk.hand_out();
        Ok(answer)
    }

    /// Ends a user's open sessions; else the world's refusal (1403: 1310, 1311, 1304, 1307).
    pub fn end<R: Wait>(&self, rt: &R, order: EndOrder) -> Result<Reply, HubError>
        ensures { IfOk result (λ a. a ≡ replies.Done) }
    {
        let mut desk = self.desk(rt);
        let answer = desk.event(Event::End(order))?;
        desk.hand_out();
        Ok(answer)
    }

    /// Lets the simulation stand still, until somebody asks for a run again; else the world's refusal (1403: 1310, 1304, 1307).
    pub fn halt<R: Wait>(&self, rt: &R, order: HaltOrder) -> Result<Reply, HubError>
        ensures { IfOk result (λ a. a ≡ replies.Done) }
    {
        let mut desk = self.desk(rt);
        let answer = desk.event(Event::Halt(order))?;
        desk.hand_out();
        Ok(answer)
    }

    /// How the world stands, which its operator may know; else what `Desk::status` is refused by.
    pub fn status<R: Wait>(&self, rt: &R, token: &str) -> Result<WorldStatus, HubError> {
        self.desk(rt).status(token)
    }

    /// A token is the operator's; else the refusal (1403: 1310).
    pub fn check_operator<R: Wait>(&self, rt: &R, token: &str) -> Result<(), HubError> {
        self.desk(rt).check_operator(token)
    }

    /// A session is open.
    pub(crate) fn is_open<R: Wait>(&self, rt: &R, session: SessionId) -> bool {
        self.desk(rt).is_open(session)
    }

    /// Lets at most so many events of the simulation happen. The lock is held for up to 64 of them, and given up after the event during
    /// which somebody begins to wait for it. A full time slot is idle: it waits for a put. Refused by a full log (1403: 1304) or when out of memory (1403: 1307); what happened till then
    /// has happened.
    pub fn run_sim<R: Wait>(&self, rt: &R, most: u64) -> Result<Ran, HubError>
        ensures most { IfOk result (λ ran. ran.events ≤ most) }
        ensures all { IfOk result (λ ran. ran.idle ≡ false → ran.events ≡ most) }
        ensures idle { IfOk result (λ ran. ran.idle ≡ true → ran.events < most) }
    {
        let mut events = 0;
        while events < most {
            let ran = self.run_some(rt, most - events)?;
            events += ran.events;
            if ran.idle {
                return Ok(Ran { events, idle: true });
            }
            self.give_way();
        }
        Ok(Ran {
            events: most,
            idle: false,
        })
    }

    /// Takes the lock for some of so many events of the simulation: at least one, unless it is idle.
    fn run_some<R: Wait>(&self, rt: &R, most: u64) -> Result<Ran, HubError>
        ensures most { IfOk result (λ ran. ran.events ≤ most) }
        ensures some { IfOk result (λ ran. ran.idle ≡ false → 0 < most → 0 < ran.events) }
        ensures idle { IfOk result (λ ran. ran.idle ≡ true → ran.events < most) }
    {
        let mut desk = self.desk.lock(rt);
        let ran = run_events(&mut desk, most.min(EVENTS_UNDER_LOCK), &self.waiting);
        desk.hand_out();
        ran
    }

    /// The name of the process that goes round in a full time slot, if one does. Takes memory.
    pub(crate) fn going_round<R: Wait>(&self, rt: &R) -> Result<Option<Text>, AllocError> {
        self.desk.lock(rt).going_round()
    }

    /// Leaves the lock for a moment to those who wait for it.
    fn give_way(&self) {
        for _ in 0..LOOKS {
            if self.waiting.load(Ordering::SeqCst) == 0 {
                break;
            }
            spin_loop();
        }
    }

    /// Takes the oldest kept segment that was not handed out, if there is one, searches it for races without the lock, and books them.
    /// A race that the book refuses is left out. The gate is asked by the search. Refused by a full log (1403: 1304) or for want of
    /// memory (1403: 1307); what was taken and booked till then stays so.
    pub fn work_once<R: Wait, G: Gate>(&self, rt: &R, gate: &G) -> Result<Worked, HubError>
        ensures { IfOk result (λ worked. worked.job ≡ None → worked.booked ≡ 0) }
    {
        let Some(segment) = self.take_job(rt)? else {
            return Ok(Worked {
                job: None,
                booked: 0,
            });
        };
        let Ok(findings) = search(self.alloc, &segment, SEED_COUNT, STEP_LIMIT, gate) else {
            return Err(HubError::World(WorldError::NoMemory));
        };
        let booked = self.book_all(rt, VecDeque::from(findings))?;
        Ok(Worked {
            job: Some(segment.number()),
            booked,
        })
    }

    /// Takes the next job, if there is one.
    fn take_job<R: Wait>(&self, rt: &R) -> Result<Option<Arc<Segment>>, HubError>
        ensures { IfOk result (λ job. IfSome job
            (λ s. (arc_value s).start.design ≡ L.opening.design)) }
    {
        let mut desk = self.desk(rt);
        let job = desk.take_job()?;
        desk.hand_out();
        Ok(job)
    }

    /// Books a race unless the book refuses it, and reports whether it was booked.
    fn book<R: Wait>(&self, rt: &R, finding: Finding) -> Result<bool, HubError>
        requires { finding.segment.start.design ≡ L.opening.design }
    {
        let mut desk = self.desk(rt);
        let booked = desk.book(finding)?;
        desk.hand_out();
        Ok(booked)
    }

    /// Books these races, one after another, each unless the book refuses it, and reports how many were booked.
    fn book_all<R: Wait>(&self, rt: &R, findings: VecDeque<Finding>) -> Result<u32, HubError>
        requires { All (λ f. f.segment.start.design ≡ L.opening.design) findings.items }
    {
        let mut findings = findings;
        let mut booked = 0u32;
        while let Some(finding) = findings.pop_front() {
            if self.book(rt, finding)? {
                booked = booked.saturating_add(1);
            }
        }
        Ok(booked)
    }

    /// Takes these passes back, and ends. Refused where the pass of one's session is not out (1401), then while another pass is out (1402).
    pub fn close(self, passes: Vec<Pass<L>>) -> Result<Closed, HubError>
        ensures closed { IfOk result (λ closed. IsClosed L.opening closed) }
        ensures passes { IfOk result (λ closed. IsEnd passes.items closed.passes.entries) }
        ensures refused { IfErr result (λ e. (e ≡ Receipt) ⊎ (e ≡ Mismatch)) }
    {
        let mut desk = self.desk.into_inner();
        if let Err(error) = hand_back_all(&mut desk, VecDeque::from(passes)) {
            // Dropped by a call, so that how a desk is dropped is no part of this function's proof.
            drop(desk);
            return Err(error);
        }
        desk.close()
    }
}
