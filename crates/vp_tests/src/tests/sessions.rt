//! Ann's worlds, and what sessions ask there.

use crate::tests::fresh::world_of;
use std::alloc::Global;
use vp_answer::{Query, Reply, SessionId};
use vp_policy::UserId;
use vp_text::Text;
use vp_vpi::PutValue;
use vp_world::{Event, Limits, World};

/// A policy with one user, who may find and read what stands in the open text and let the design run.
pub const READER: &[u8] =
    b"{\"users\":[{\"name\":\"ann\",\"token\":\"t1\",\"open\":\"list+read\",\"run\":true}]}";

/// A policy with one user, who may watch and put in the open text, and let the design run.
const POLICY: &[u8] =
    b"{\"users\":[{\"name\":\"ann\",\"token\":\"t1\",\"open\":\"watch+put\",\"run\":true}]}";

/// A world of a text and that policy in which nothing has happened.
pub fn ann_world(alloc: Global, text: &str) -> Option<World> {
    world_of(alloc, text, POLICY, Limits::GREATEST)
}

/// A user opens a session by his name and token.
pub fn open_as(alloc: Global, world: &mut World, user: &str, token: &str) -> Option<()> {
    let user = Text::copy(alloc, user).ok()?;
    let token = Text::copy(alloc, token).ok()?;
    world.apply(Event::Open { user, token }).ok().and(Some(()))
}

/// Ann opens a session.
pub fn open(alloc: Global, world: &mut World) -> Option<()> {
    open_as(alloc, world, "ann", "t1")
}

/// What a session is answered to a query.
fn ask_in(world: &mut World, session: SessionId, query: Query) -> Option<Reply> {
    world.apply(Event::Ask { session, query }).ok()
}

/// A session asks, and is answered anything.
pub fn order_in(world: &mut World, session: SessionId, query: Query) -> Option<()> {
    ask_in(world, session, query).and(Some(()))
}

/// How many notices a reply has; none where it has another kind.
fn count_notices(reply: &Reply) -> Option<usize> {
    match reply {
        Reply::Notices(notices) => Some(notices.value().notices.len()),
        _ => None,
    }
}

/// How many notices a session is given.
pub fn poll_in(world: &mut World, session: SessionId) -> Option<usize> {
    let reply = ask_in(world, session, Query::Poll)?;
    let count = count_notices(&reply);
    drop(reply);
    count
}

/// A session has a handle of the object of a name among the top modules.
pub fn find_in(alloc: Global, world: &mut World, session: SessionId, name: &str) -> Option<()> {
    let name = Text::copy(alloc, name).ok()?;
    order_in(world, session, Query::Handle { name, scope: None })
}

/// A session gives the object of its first handle a value.
pub fn put_in(alloc: Global, world: &mut World, session: SessionId, digits: &str) -> Option<()> {
    let value = PutValue::Digits(Text::copy(alloc, digits).ok()?);
    order_in(world, session, Query::Put { handle: 1, value })
}

/// The how-many-th session of Ann.
pub fn of_ann(opens: u64) -> SessionId {
    SessionId {
        user: UserId(0),
        opens,
    }
}
