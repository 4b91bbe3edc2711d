// A script's session: each request is answered by the world, in which the simulation runs after it.
ghost use Rattle.std.specs.Prelude.{◌≡◌, ◌||◌, [], None, IfOk, false};
ghost use Rattle.vp_elab.specs.Built.{Elaborated};
ghost use Rattle.vp_script.specs.Keeping.{Keeps, KeepsNow};
ghost use Rattle.vp_script.specs.Pending.{is_no_memory};
ghost use Rattle.vp_script.specs.Scripts.{event_of, session_after};
ghost use Rattle.vp_world.specs.Events.{IsWellFormed};
ghost use Rattle.vp_world.specs.History.{IsLegal};

use crate::running::RunningWorld;
use std::alloc::Global;
use vp_answer::{Call, Refusal, Reply, Request, SessionId};
use vp_wire::Caller;
use vp_world::{Event, Log, World};

/// The event of a request; or why it is none: a session's where none was opened, and a server's.
fn event_of(session: Option<SessionId>, request: Request) -> Result<Event, Refusal>
    ensures event { result ≡ event_of session request }
    ensures well_formed { (design : Elaborated) → IfOk result (IsWellFormed design) }
{
    match (request, session) {
        (Request::Open { user, token }, _) => Ok(Event::Open { user, token }),
        (Request::Grant(change), _) => Ok(Event::Grant(change)),
        (Request::End(order), _) => Ok(Event::End(order)),
        (Request::Halt(order), _) => Ok(Event::Halt(order)),
        (Request::Status { .. } | Request::Shutdown { .. }, _) => Err(Refusal::BadRequest),
        (Request::Call(_), None) => Err(Refusal::NotOpen),
        (Request::Call(Call::Query(query)), Some(session)) => Ok(Event::Ask { session, query }),
        (Request::Call(Call::Close), Some(session)) => Ok(Event::Close { session }),
    }
}

/// The session of a script after a reply: the one that was opened, if one was.
fn session_after(session: Option<SessionId>, reply: &Reply) -> Option<SessionId>
    ensures { result ≡ session_after session reply.now }
{
    match reply {
        Reply::Opened(opened) => Some(*opened),
        _ => session,
    }
}

/// The reply is that there is no memory.
fn is_no_memory(reply: &Reply) -> bool
    ensures { result ≡ is_no_memory reply.now }
{
    matches!(reply, Reply::Error(Refusal::NoMemory))
}

/// A world with the session of one script.
#[derive(Drop)]
pub struct ScriptSession {
    running: RunningWorld,
    session: Option<SessionId>,
    out_of_memory: bool,
}

impl ScriptSession {
    /// A world whose session is not open yet, and whose searches try so many seeds.
    pub fn new(alloc: Global, seeds: u64, world: World) -> ScriptSession
        requires { world.handed_out ≡ 0 }
        ensures { result ≡ record {
          running = record { world = world; found = []; seeds = seeds };
          session = None;
          out_of_memory = false;
        } }
    {
        ScriptSession {
            running: RunningWorld::new(alloc, seeds, world),
            session: None,
            out_of_memory: false,
        }
    }

    /// What has happened in the world, in order.
    pub fn log(&self) -> &Log
        ensures log { result.now.entries ≡ self.now.running.world.log }
        ensures legal { let world = self.now.running.world in IsLegal world.opening [] world.log }
    {
        self.running.log()
    }

    /// Answers a request, and then lets the simulation run. That there was no memory for it or for the simulation is remembered.
    fn answer(&mut self, request: Request) -> Reply
        ensures { KeepsNow self.old request result self.new }
    {
        let event = event_of(self.session, request);
        let reply = self.running.apply(event);
        self.out_of_memory = self.is_out_of_memory_or(is_no_memory(&reply));
        self.session = session_after(self.session, &reply);
        if self.running.run().is_err() {
            self.out_of_memory = true;
        }
        reply
    }

    /// At some time there was no memory for a request or to let the simulation run on; or memory was missing elsewhere.
    pub fn is_out_of_memory_or(&self, elsewhere: bool) -> bool
        ensures { result ≡ (elsewhere || self.now.out_of_memory) }
    {
        elsewhere || self.out_of_memory
    }
}

impl Caller for ScriptSession {
    ghost calls = { Keeps };

    /// Answers a request, and then lets the simulation run. Where there was no memory for it, it goes on before the next request,
    /// which is answered that there is no memory while there is none.
    fn call(&mut self, request: Request) -> Reply {
        if !self.out_of_memory {
            return self.answer(request);
        }
        match self.running.run() {
            Ok(()) => self.answer(request),
            Err(_) => Reply::Error(Refusal::NoMemory),
        }
    }
}
