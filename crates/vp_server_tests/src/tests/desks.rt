//! A desk whose log is full.
ghost use Rattle.std.specs.Prelude.{◌≡◌, ◌<◌, []};
ghost use Rattle.vp_world.specs.History.{most_entries};

use crate::tests::calls::refusal_of;
use crate::tests::hubs::{CLOCKED, USERS, blank, world_of};
use std::alloc::Global;
use std::marker::Brand;
use std::sync::ledger::Blank;
use vp_answer::{Call, Query};
use vp_hub::{Desk, History, LogArchive, NamesOpening, Pass};
use vp_text::Text;
use vp_world::{Entry, Event, LoggedEvent, World};

/// The numbers of the refusal of an opening by another token than Ann's.
fn opening<L: NamesOpening>(alloc: Global, desk: &mut Desk<L>) -> Option<(u32, u32)> {
    let user = Text::copy(alloc, "ann").ok()?;
    let token = Text::copy(alloc, "no").ok()?;
    Some(refusal_of(desk.open(user, token)))
}

/// Ann opens a session.
fn open<L: NamesOpening>(alloc: Global, desk: &mut Desk<L>) -> Option<Pass<L>> {
    let user = Text::copy(alloc, "ann").ok()?;
    let token = Text::copy(alloc, "t1").ok()?;
    desk.open(user, token).ok()
}

/// The numbers of what a session's request for the time is refused by, and its pass.
fn call<L: NamesOpening>(desk: &mut Desk<L>, pass: Pass<L>) -> (Pass<L>, (u32, u32)) {
    let (pass, answer) = desk.call(pass, Call::Query(Query::Time));
    (pass, refusal_of(answer))
}

/// The log has two entries: a session was opened, and asked something.
fn has_two_entries<L: NamesOpening>(desk: &Desk<L>) -> bool {
    let log = desk.log();
    if log.len() != 2 {
        return false;
    }
    let (mut first, mut second) = (Entry::blank(), Entry::blank());
    let (opened, asked) = (log.entry(0, &mut first), log.entry(1, &mut second));
    matches!(opened.happening, LoggedEvent::Open { .. })
        && matches!(asked.happening, LoggedEvent::Ask { .. })
}

/// What a session's two calls, and the search for a job after them, are refused by.
fn calls<L: NamesOpening>(alloc: Global, desk: &mut Desk<L>) -> Option<[(u32, u32); 3]> {
    let pass = open(alloc, desk)?;
    let (pass, first) = call(desk, pass);
    let (pass, second) = call(desk, pass);
    drop(pass);
    Some([first, second, refusal_of(desk.event(Event::TakeJob))])
}

/// The same, with the refusal of an opening before them, and whether the log has the two entries after them.
fn refusals_at<L: NamesOpening>(
    alloc: Global,
    desk: &mut Desk<L>,
) -> Option<((u32, u32), [(u32, u32); 3], bool)> {
    let opening = opening(alloc, desk)?;
    let calls = calls(alloc, desk)?;
    Some((opening, calls, has_two_entries(desk)))
}

/// The same at a desk of a world.
fn refusals_of<L: NamesOpening>(
    alloc: Global,
    blank: Blank,
    history: History<Entry>,
    world: World,
) -> Option<((u32, u32), [(u32, u32); 3], bool)>
    requires name { blank.name ≡ L.name }
    requires parts { blank.parts ≡ L.parts }
    requires room { most_entries < blank.parts }
    requires opening { world.opening ≡ L.opening }
    requires empty { world.log ≡ [] }
    requires history { history.name ≡ L.history }
    requires begins { history.entries ≡ [] }
{
    let mut desk = Desk::<L>::new(alloc, blank, history, world, LogArchive::Keeping);
    let refusals = refusals_at(alloc, &mut desk);
    drop(desk);
    refusals
}

/// The same at a new desk whose log holds two entries.
fn refusals(alloc: Global) -> Option<((u32, u32), [(u32, u32); 3], bool)> {
    let world = world_of(alloc, CLOCKED, USERS, 2)?;
    refusals_of::<Brand>(alloc, blank(), History::new(), world)
}

#[test]
fn full_desk(rt: HostRuntime) {
    let calls = [(0, 0), (1403, 1304), (1403, 1304)];
    let wanted = Some(((1403, 1302), calls, true));
    assert_eq!(rt; refusals(rt.alloc()), wanted);
}
