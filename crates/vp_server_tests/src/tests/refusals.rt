//! What a hub refuses.
ghost use Rattle.std.specs.Prelude.{◌≡◌, ◌<◌, []};
ghost use Rattle.vp_world.specs.History.{most_entries};

use crate::tests::calls::{open, refusal_of};
use crate::tests::hubs::{CLOCKED, USERS, blank, world_of};
use std::alloc::Global;
use std::marker::Brand;
use std::sync::Wait;
use std::sync::ledger::Blank;
use vp_answer::{Call, Query};
use vp_hub::{Desk, History, Hub, LogArchive, NamesOpening, Pass};
use vp_text::Text;
use vp_world::{Entry, World};

/// The numbers of the refusal of an opening by another token than Ann's.
fn opening<L: NamesOpening, R: Wait>(rt: &R, hub: &Hub<L>, alloc: Global) -> Option<(u32, u32)> {
    let user = Text::copy(alloc, "ann").ok()?;
    let token = Text::copy(alloc, "no").ok()?;
    Some(refusal_of(hub.open(rt, user, token)))
}

/// A session is closed: its pass, and the numbers of the refusal of a call after that.
fn calling<L: NamesOpening, R: Wait>(
    rt: &R,
    hub: &Hub<L>,
    alloc: Global,
) -> Option<(Pass<L>, (u32, u32))> {
    let pass = open(rt, hub, alloc, "ann", "t1")?;
    let (pass, closed) = hub.call(rt, pass, Call::Close);
    closed.ok()?;
    let (pass, answer) = hub.call(rt, pass, Call::Query(Query::Time));
    Some((pass, refusal_of(answer)))
}

/// The numbers of the refusal of a hub's end with one of its two passes.
fn closing<L: NamesOpening, R: Wait>(
    rt: &R,
    hub: Hub<L>,
    alloc: Global,
    pass: Pass<L>,
) -> Option<(u32, u32)> {
    let other = open(rt, &hub, alloc, "ann", "t1")?;
    drop(other);
    let mut passes = Vec::new(alloc);
    passes.push(pass).ok()?;
    Some(refusal_of(hub.close(passes)))
}

/// The numbers of these three refusals.
fn refusals_of<L: NamesOpening, R: Wait>(
    rt: &R,
    alloc: Global,
    blank: Blank,
    history: History<Entry>,
    world: World,
) -> Option<[(u32, u32); 3]>
    requires name { blank.name ≡ L.name }
    requires parts { blank.parts ≡ L.parts }
    requires room { most_entries < blank.parts }
    requires opening { world.opening ≡ L.opening }
    requires empty { world.log ≡ [] }
    requires history { history.name ≡ L.history }
    requires begins { history.entries ≡ [] }
{
    let hub = Hub::<L>::new(
        alloc,
        Desk::<L>::new(alloc, blank, history, world, LogArchive::Keeping),
    );
    let opening = opening(rt, &hub, alloc)?;
    let (pass, calling) = calling(rt, &hub, alloc)?;
    Some([opening, calling, closing(rt, hub, alloc, pass)?])
}

/// The same of a new hub.
fn refusals_anew<R: Wait>(rt: &R, alloc: Global) -> Option<[(u32, u32); 3]> {
    let world = world_of(alloc, CLOCKED, USERS, 16)?;
    refusals_of::<Brand, R>(rt, alloc, blank(), History::new(), world)
}

#[test]
fn refusals(rt: HostRuntime) {
    let wanted = [(1403, 1302), (1403, 1303), (1402, 0)];
    assert_eq!(rt; refusals_anew(&rt, rt.alloc()), Some(wanted));
}
