//! Grants beside a session of the user whose they are.
ghost use Rattle.std.specs.Prelude.{◌≡◌, ◌<◌, []};
ghost use Rattle.vp_world.specs.History.{most_entries};

use crate::tests::calls::{ask, close, find, open, order, put, rest, value};
use crate::tests::grant_log::{are_logged, are_right};
use crate::tests::hubs::{CLOCKED, OPERATED, blank, world_of};
use crate::tests::stage::Stage;
use std::alloc::Global;
use std::marker::Brand;
use std::sync::Wait;
use std::sync::ledger::Blank;
use std::thread;
use std::thread::Threads;
use std::time::Clock;
use vp_answer::{GrantChange, Query, Reply};
use vp_hub::{Closed, Desk, History, Hub, LogArchive, NamesOpening, Pass};
use vp_policy::Access;
use vp_text::Text;
use vp_world::{Entry, World};

/// The log holds so many entries.
const ENTRIES: u32 = 4_096;

/// All five rights.
const ALL: &str = "list+read+watch+put+race";

/// A session's pass, and what it was answered, in order.
#[derive(Drop)]
struct Conversation<L: NamesOpening> {
    pass: Pass<L>,
    replies: Vec<Reply>,
}

/// What is left of a hub, what Bob was shown there, and the grants that were answered that they were done.
#[derive(Drop)]
struct Ended {
    closed: Closed,
    replies: Vec<Reply>,
    grants: Vec<GrantChange>,
}

/// A change of Bob's grant for the envelope.
fn change_of(alloc: Global, access: &str) -> Option<GrantChange> {
    let access = Access::of_text(access)?;
    let token = Text::copy(alloc, "op").ok()?;
    let user = Text::copy(alloc, "bob").ok()?;
    Some(GrantChange {
        token,
        user,
        envelope: 1,
        access,
    })
}

/// Changes Bob's grant, and gives the change where it was answered that it was done.
fn grant<L: NamesOpening, R: Wait>(
    rt: &R,
    hub: &Hub<L>,
    alloc: Global,
    access: &str,
) -> Option<GrantChange> {
    let change = change_of(alloc, access)?;
    let copy = change.try_clone(alloc).ok()?;
    match hub.grant(rt, change).ok()? {
        Reply::Done => Some(copy),
        _ => None,
    }
}

/// Grants Bob 100 times to find alone, or all, by turns, and rests after each: what was done.
fn grants<L: NamesOpening, R: Wait + Clock>(
    rt: &R,
    hub: &Hub<L>,
    alloc: Global,
) -> Option<Vec<GrantChange>> {
    let mut grants = Vec::new(alloc);
    for number in 0..100usize {
        let access = if number % 2 == 0 { "list" } else { ALL };
        grants.push(grant(rt, hub, alloc, access)?).ok()?;
        rest(rt);
    }
    Some(grants)
}

/// A session polls, or reads `k`, and what it is answered is kept.
fn ask_next<L: NamesOpening, R: Wait>(
    rt: &R,
    hub: &Hub<L>,
    conversation: Conversation<L>,
    query: Query,
) -> Option<Conversation<L>> {
    let Conversation { pass, mut replies } = conversation;
    let (pass, reply) = ask(rt, hub, pass, query);
    replies.push(reply?).ok()?;
    Some(Conversation { pass, replies })
}

/// A session polls, rests and reads, 100 times.
fn polls<L: NamesOpening, R: Wait + Clock>(
    rt: &R,
    hub: &Hub<L>,
    alloc: Global,
    pass: Pass<L>,
) -> Option<Conversation<L>> {
    let mut conversation = Conversation {
        pass,
        replies: Vec::new(alloc),
    };
    for _round in 0..100 {
        conversation = ask_next(rt, hub, conversation, Query::Poll)?;
        rest(rt);
        conversation = ask_next(rt, hub, conversation, value())?;
    }
    Some(conversation)
}

/// Bob has a session which watches `k` and gives it the value 1.
fn begin<L: NamesOpening, R: Wait>(rt: &R, hub: &Hub<L>, alloc: Global) -> Option<Pass<L>> {
    let pass = open(rt, hub, alloc, "bob", "t2")?;
    let pass = find(rt, hub, alloc, pass, "top.u.k")?;
    let pass = order(rt, hub, pass, Query::Watch { handle: 1 })?;
    put(rt, hub, alloc, pass, "1")
}

/// What Bob is shown on one thread while his grant changes on another.
fn beside<L: NamesOpening + Send + Sync, R: Threads + Wait + Clock + Sync>(
    rt: &R,
    stage: &Stage<L>,
    pass: Pass<L>,
) -> Option<(Conversation<L>, Vec<GrantChange>)> {
    let (grants, conversation) = thread::join(
        rt,
        move || {
            stage.start.wait(rt);
            grants(rt, &stage.hub, stage.alloc)
        },
        move || {
            stage.start.wait(rt);
            polls(rt, &stage.hub, stage.alloc, pass)
        },
    );
    Some((conversation?, grants?))
}

/// What is left of a hub of a world after them.
fn end_anew_of<L: NamesOpening + Send + Sync, R: Threads + Wait + Clock + Sync>(
    rt: &R,
    alloc: Global,
    blank: Blank,
    history: History<Entry>,
    world: World,
) -> Option<Ended>
    requires name { blank.name ≡ L.name }
    requires parts { blank.parts ≡ L.parts }
    requires room { most_entries < blank.parts }
    requires opening { world.opening ≡ L.opening }
    requires empty { world.log ≡ [] }
    requires history { history.name ≡ L.history }
    requires begins { history.entries ≡ [] }
{
    let hub = Hub::<L>::new(
        alloc,
        Desk::<L>::new(alloc, blank, history, world, LogArchive::Keeping),
    );
    let pass = begin(rt, &hub, alloc)?;
    let stage = Stage::new(alloc, hub);
    let (told, grants) = beside(rt, &stage, pass)?;
    Some(Ended {
        closed: close(stage.into_hub(), alloc, told.pass)?,
        replies: told.replies,
        grants,
    })
}

/// The same of a new hub.
fn end_anew<R: Threads + Wait + Clock + Sync>(rt: &R, alloc: Global) -> Option<Ended> {
    let world = world_of(alloc, CLOCKED, OPERATED, ENTRIES)?;
    end_anew_of::<Brand, R>(rt, alloc, blank(), History::new(), world)
}

#[test]
fn grants_beside_a_session(rt: HostRuntime) {
    let ended = end_anew(&rt, rt.alloc()).expect(&rt, "a hub");
    let log = ended.closed.log();
    let are_right = are_right(log, ended.replies.as_slice());
    let are_logged = are_logged(log, ended.grants.as_slice());
    let counts = (ended.replies.len(), ended.grants.len());
    drop(ended);
    assert_eq!(rt; (are_right, are_logged), (true, true));
    assert_eq!(rt; counts, (200, 100));
}
