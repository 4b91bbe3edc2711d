ghost use Rattle.std.specs.Prelude.{◌≡◌, ◌⊎◌, Some, None, IfErr, IfOk, IfNone, IfSome, OnErr};
ghost use Rattle.vp_answer.specs.declared.reply.Refusal.{Refusal};
ghost use Rattle.vp_answer.specs.declared.reply.Reply.TheVariants as replies;
ghost use Rattle.vp_hub.specs.Clients.{Answers, IsAnsweredTo, IsOpening, IsOrdered, IsStatus};

use crate::error::HubError;
use crate::opens::NamesOpening;
use crate::pass::Pass;
use crate::report::{Report, ServerEvent};
use crate::service::Service;
use crate::talk::Talk;
use std::sync::Wait;
use std::sync::atomic::Ordering;
use vp_answer::{
    Call, EndOrder, GrantChange, HaltOrder, Query, Refusal, Reply, Request, ServerStatus,
    WorldStatus,
};
use vp_race::Gate;
use vp_text::{Shared, Text};
use vp_wire::Caller;
use vp_world::WorldError;

/// A call gives the simulation something to do, if it is answered: a later goal, or a value.
fn moves_simulation(call: &Call) -> bool {
    matches!(call, Call::Query(Query::Run { .. } | Query::Put { .. }))
}

/// Who asks by a connection: nobody yet, or the user of a session.
#[derive(Drop)]
pub(crate) struct Client<'a, 's, L: NamesOpening, R: Wait, G: Gate + Report> {
    pub(crate) rt: &'a R,
    pub(crate) service: &'a Service<'s, L, G>,
    pub(crate) talk: &'a Talk,
    /// From where he is connected.
    pub(crate) address: &'a str,
    /// His name, once his session was opened.
    pub(crate) user: Option<Text>,
    /// So many of his requests were denied.
    pub(crate) denials: u64,
    /// He has closed his session himself.
    pub(crate) has_closed: bool,
    pub(crate) pass: Option<Pass<L>>,
}

impl<'a, 's, L: NamesOpening, R: Wait, G: Gate + Report> Client<'a, 's, L, R, G> {
    /// Reports what happened on his connection.
    fn report(&self, event: ServerEvent<'_>) {
        self.service.gate.happened(self.address, event);
    }

    /// Reports that his connection has ended, if he is a user.
    pub(crate) fn report_end(&self) {
        if let Some(user) = &self.user {
            self.report(ServerEvent::Close {
                user: user.as_str(),
                denials: self.denials,
            });
        }
    }

    /// Opens the connection's session; refused where it has one, or by the hub.
    fn open(&mut self, user: Text, token: Text) -> Reply
        ensures { IsOpening L.opening self.old.pass user token result self.new.pass }
    {
        if self.pass.is_some() {
            return Reply::Error(Refusal::SessionsFull);
        }
        let name = Text::copy(self.service.alloc, user.as_str()).ok();
        match self.service.hub.open(self.rt, user, token) {
            Ok(pass) => {
                let session = pass.session();
                self.pass = Some(pass);
                self.note_opened(name);
                self.talk.note_session(session);
                Reply::Opened(session)
            }
            Err(error) => Reply::Error(error.refusal()),
        }
    }

    /// His session was opened: he is known, by his name.
    fn note_opened(&mut self, name: Option<Text>)
        ensures { self.new.pass ≡ self.old.pass }
    {
        self.talk.note_known();
        if let Some(user) = &name {
            self.report(ServerEvent::Open {
                user: user.as_str(),
            });
        }
        self.user = name;
    }

    /// What an operator's order comes to: where it is done he is known, and it is reported.
    fn ordered(&self, answer: Result<Reply, HubError>, event: ServerEvent<'_>) -> Reply
        ensures done { IfOk answer (λ a. result ≡ a) }
        ensures refused { OnErr answer ((e : Refusal) × (result ≡ replies.Error e)) }
    {
        match answer {
            Ok(reply) => {
                self.talk.note_known();
                self.report(event);
                reply
            }
            Err(error) => Reply::Error(error.refusal()),
        }
    }

    /// Changes a grant.
    fn grant(&mut self, change: GrantChange) -> Reply
        ensures { IsOrdered self.old.pass result self.new.pass }
    {
        let name = Text::copy(self.service.alloc, change.user.as_str()).ok();
        let envelope = change.envelope;
        let answer = self.service.hub.grant(self.rt, change);
        let user = name_in(&name);
        self.ordered(answer, ServerEvent::Grant { user, envelope })
    }

    /// Ends a user's sessions. Those who wait for their clients look for it.
    fn end(&mut self, order: EndOrder) -> Reply
        ensures { IsOrdered self.old.pass result self.new.pass }
    {
        let name = Text::copy(self.service.alloc, order.user.as_str()).ok();
        let answer = self.service.hub.end(self.rt, order);
        self.service.ends.fetch_add(1, Ordering::SeqCst);
        let user = name_in(&name);
        self.ordered(answer, ServerEvent::End { user })
    }

    /// Lets the design stand still.
    fn halt(&mut self, order: HaltOrder) -> Reply
        ensures { IsOrdered self.old.pass result self.new.pass }
    {
        let answer = self.service.hub.halt(self.rt, order);
        self.ordered(answer, ServerEvent::Halt)
    }

    /// How the server stands, by how its world does; or that there is no memory.
    fn status_of(&self, world: WorldStatus) -> Reply
        ensures { IsStatus self.now.pass result self.now.pass }
    {
        let alloc = self.service.alloc;
        let settings = &self.service.settings;
        let Ok(version) = Text::copy(alloc, settings.version) else {
            return Reply::Error(Refusal::NoMemory);
        };
        let status = ServerStatus {
            world,
            connections: self.service.connections.load(Ordering::SeqCst) as u64,
            denials: self.service.denials.load(Ordering::SeqCst),
            wrong_tokens: self.service.wrong_tokens.load(Ordering::SeqCst),
            version,
        };
        match Shared::new(alloc, status) {
            Ok(status) => Reply::Status(status),
            Err(_) => Reply::Error(Refusal::NoMemory),
        }
    }

    /// Reports how the server stands, to its operator.
    fn status(&mut self, token: Text) -> Reply
        ensures { IsStatus self.old.pass result self.new.pass }
    {
        match self.service.hub.status(self.rt, token.as_str()) {
            Ok(world) => {
                self.talk.note_known();
                self.status_of(world)
            }
            Err(error) => Reply::Error(error.refusal()),
        }
    }

    /// Ends the server, for its operator: each connection after what it was last asked.
    fn shut_down(&mut self, token: Text) -> Reply
        ensures { IsOrdered self.old.pass result self.new.pass }
    {
        match self.service.hub.check_operator(self.rt, token.as_str()) {
            Ok(()) => {
                self.report(ServerEvent::Shutdown);
                self.service.ending.store(true, Ordering::SeqCst);
                self.service.simulation.unpark();
                self.service.gate.wake();
                Reply::Done
            }
            Err(error) => Reply::Error(error.refusal()),
        }
    }

    /// Answers a call of the session, if there is one. Where the operator has ended it, that was the last.
    fn call_hub(&mut self, call: Call) -> Reply
        ensures { IsAnsweredTo L.opening self.old.pass call result self.new.pass }
    {
        let Some(pass) = self.pass.take() else {
            return Reply::Error(Refusal::NotOpen);
        };
        let wakes = moves_simulation(&call);
        let closes = matches!(call, Call::Close);
        let (pass, answer) = self.service.hub.call(self.rt, pass, call);
        self.pass = Some(pass);
        match answer {
            Ok(reply) => {
                self.has_closed = self.has_closed || closes;
                if wakes {
                    self.service.simulation.unpark();
                }
                reply
            }
            Err(error) => {
                if error == HubError::World(WorldError::NotOpen) && !self.has_closed {
                    self.talk.note_over();
                }
                Reply::Error(error.refusal())
            }
        }
    }

    /// Counts what he is denied, and wrong tokens.
    fn count(&mut self, reply: &Reply)
        ensures { self.new.pass ≡ self.old.pass }
    {
        match reply {
            Reply::Denied(_) | Reply::RunDenied => {
                self.denials = self.denials.saturating_add(1);
                self.service.denials.fetch_add(1, Ordering::SeqCst);
            }
            Reply::Error(Refusal::BadToken | Refusal::BadOperator) => {
                self.report(ServerEvent::WrongToken);
                self.service.wrong_tokens.fetch_add(1, Ordering::SeqCst);
            }
            _ => {}
        }
    }

    /// Answers a request.
    fn answer(&mut self, request: Request) -> Reply
        ensures { Answers L.opening self.old.pass request result self.new.pass }
    {
        match request {
            Request::Open { user, token } => self.open(user, token),
            Request::Grant(change) => self.grant(change),
            Request::End(order) => self.end(order),
            Request::Halt(order) => self.halt(order),
            Request::Status { token } => self.status(token),
            Request::Shutdown { token } => self.shut_down(token),
            Request::Call(call) => self.call_hub(call),
        }
    }
}

/// A name that could be kept; `?` where there was no memory for it.
fn name_in(name: &Option<Text>) -> &str {
    match name {
        Some(name) => name.as_str(),
        None => "?",
    }
}

impl<'a, 's, L: NamesOpening, R: Wait, G: Gate + Report> Caller for Client<'a, 's, L, R, G> {
    ghost calls = { λ before r answer after.
        Answers L.opening before.pass r answer after.pass };

    /// Answers a request. The gate is asked once before.
    fn call(&mut self, request: Request) -> Reply {
        let _open = self.service.gate.turn();
        let reply = self.answer(request);
        self.count(&reply);
        reply
    }
}
