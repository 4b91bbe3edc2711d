//! What sessions ask of a hub.

use std::alloc::Global;
use std::sync::Wait;
use std::thread;
use std::time::{Clock, Duration};
use vp_answer::{Call, Query, Reply, ValueFormat};
use vp_bits::Bits;
use vp_hub::{Closed, Hub, HubError, NamesOpening, Pass};
use vp_text::Text;
use vp_vpi::PutValue;

/// A user opens a session by his token.
pub fn open<L: NamesOpening, R: Wait>(
    rt: &R,
    hub: &Hub<L>,
    alloc: Global,
    user: &str,
    token: &str,
) -> Option<Pass<L>> {
    let user = Text::copy(alloc, user).ok()?;
    let token = Text::copy(alloc, token).ok()?;
    hub.open(rt, user, token).ok()
}

/// A session asks: its pass, and what it is answered.
pub fn ask<L: NamesOpening, R: Wait>(
    rt: &R,
    hub: &Hub<L>,
    pass: Pass<L>,
    query: Query,
) -> (Pass<L>, Option<Reply>) {
    let (pass, answer) = hub.call(rt, pass, Call::Query(query));
    (pass, answer.ok())
}

/// A session asks, and is answered anything: its pass.
pub fn order<L: NamesOpening, R: Wait>(
    rt: &R,
    hub: &Hub<L>,
    pass: Pass<L>,
    query: Query,
) -> Option<Pass<L>> {
    let (pass, reply) = ask(rt, hub, pass, query);
    reply.and(Some(pass))
}

/// A session has a handle of the object of a name.
pub fn find<L: NamesOpening, R: Wait>(
    rt: &R,
    hub: &Hub<L>,
    alloc: Global,
    pass: Pass<L>,
    name: &str,
) -> Option<Pass<L>> {
    let name = Text::copy(alloc, name).ok()?;
    order(rt, hub, pass, Query::Handle { name, scope: None })
}

/// A session gives the object of its first handle a value, and is answered that it was done.
pub fn put<L: NamesOpening, R: Wait>(
    rt: &R,
    hub: &Hub<L>,
    alloc: Global,
    pass: Pass<L>,
    digits: &str,
) -> Option<Pass<L>> {
    let value = PutValue::Digits(Text::copy(alloc, digits).ok()?);
    let (pass, reply) = ask(rt, hub, pass, Query::Put { handle: 1, value });
    match reply {
        Some(Reply::Done) => Some(pass),
        _ => None,
    }
}

/// What asks for the value of the object of a session's first handle.
pub fn value() -> Query {
    Query::Value {
        handle: 1,
        format: ValueFormat::Binary,
    }
}

/// The value that a reply reports.
fn value_told(reply: Reply) -> Option<Bits> {
    match reply {
        Reply::Value(bits) => Some(bits),
        _ => None,
    }
}

/// A session is shown the value of the object of its first handle.
pub fn read<L: NamesOpening, R: Wait>(
    rt: &R,
    hub: &Hub<L>,
    pass: Pass<L>,
) -> Option<(Pass<L>, Bits)> {
    let (pass, reply) = ask(rt, hub, pass, value());
    Some((pass, value_told(reply?)?))
}

/// Rests for a while, in which another thread may get on.
pub fn rest<R: Clock>(rt: &R) {
    thread::sleep(rt, Duration::from_micros(100));
}

/// The number of a refusal, and that of the world's after it, else 0.
pub fn codes_of(error: HubError) -> (u32, u32) {
    match error {
        HubError::World(reason) => (error.code(), reason.code()),
        _ => (error.code(), 0),
    }
}

/// The numbers of what a call is refused by; 0 where it is not refused.
pub fn refusal_of<T: Drop>(answer: Result<T, HubError>) -> (u32, u32) {
    match answer {
        Ok(_) => (0, 0),
        Err(error) => codes_of(error),
    }
}

/// What is left of a hub of one session.
pub fn close<L: NamesOpening>(hub: Hub<L>, alloc: Global, pass: Pass<L>) -> Option<Closed> {
    let mut passes = Vec::new(alloc);
    passes.push(pass).ok()?;
    hub.close(passes).ok()
}
