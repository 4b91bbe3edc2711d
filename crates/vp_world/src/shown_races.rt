// The races that a user of a policy is shown, as he is shown them.
ghost use Rattle.std.specs.Prelude.{◌≡◌, IfOk};
ghost use Rattle.vp_policy.specs.PolicyState.{Fits};
ghost use Rattle.vp_policy.specs.Users.{member_at};
ghost use Rattle.vp_world.specs.Races.{is_shown, race_seen, races_seen, step_name, steps_seen};

use std::alloc::{AllocError, Global};
use vp_elab::{Design, Kind, ObjectId};
use vp_policy::{Policy, UserId};
use vp_pragma::Right;
use vp_race::BookedFinding;
use vp_text::{Sequence, Shared, Text};
use vp_vpi::ShownRace;

/// The name of a step of an object; or out of memory.
pub(crate) fn step_name(
    alloc: Global,
    design: &Design,
    object: ObjectId,
) -> Result<Text, AllocError>
    ensures { IfOk result (λ name. name ≡ step_name design.now.tree object.0) }
{
    let name = design.full_name(alloc, object)?;
    match design.kind(object) {
        Some(Kind::Net | Kind::Reg) => {
            let mut port = String::from_str(alloc, "port ")?;
            port.push_str(name.as_str())?;
            Ok(Text::from_string(port))
        }
        _ => Ok(name),
    }
}

/// The names of those of some steps whose object a user may list; or out of memory.
fn steps_seen(
    alloc: Global,
    design: &Design,
    policy: &Policy,
    user: UserId,
    sources: &[ObjectId],
) -> Result<Sequence<Text>, AllocError>
    requires { Fits policy.now design.now.tree }
    ensures { let member = member_at policy.now.members user.0 in
        IfOk result (λ names. names ≡ steps_seen design.now.tree member sources.now) }
{
    let mut names = Vec::new(alloc);
    for object in sources {
        if !policy.is_denied(user, *object, Right::List) {
            names.push(step_name(alloc, design, *object)?)?;
        }
    }
    Ok(Sequence::from_vec(names))
}

/// A user of a policy is shown a race: he has the race right on its object.
pub fn is_race_shown(policy: &Policy, user: UserId, finding: &BookedFinding) -> bool
    ensures { result ≡ is_shown policy.now.tree (member_at policy.now.members user.0) finding.now }
{
    !policy.is_denied(user, finding.object(), Right::Race)
}

/// A race as a user of a policy is shown it: of the steps of both orders those that he may list. Takes memory.
pub fn seen_race(
    alloc: Global,
    design: &Design,
    policy: &Policy,
    user: UserId,
    finding: &BookedFinding,
) -> Result<ShownRace, AllocError>
    requires { Fits policy.now design.now.tree }
    ensures { let member = member_at policy.now.members user.0 in
        IfOk result (λ race. race ≡ race_seen design.now.tree member finding.now) }
{
    let orders = finding.orders();
    Ok(ShownRace {
        name: design.full_name(alloc, finding.object())?,
        time: finding.time(),
        values: finding.values(),
        first_steps: steps_seen(alloc, design, policy, user, orders.first_sources())?,
        second_steps: steps_seen(alloc, design, policy, user, orders.second_sources())?,
    })
}

/// The races of a book that a user of a policy is shown, in the order in which they were booked. Takes memory.
pub fn seen_races(
    alloc: Global,
    design: &Design,
    policy: &Policy,
    user: UserId,
    book: &[Shared<BookedFinding>],
) -> Result<Sequence<Shared<ShownRace>>, AllocError>
    requires { Fits policy.now design.now.tree }
    ensures { let member = member_at policy.now.members user.0 in
        IfOk result (λ races. races ≡ races_seen design.now.tree member book.now) }
{
    let mut races = Vec::new(alloc);
    for finding in book {
        if is_race_shown(policy, user, finding.value()) {
            let race = seen_race(alloc, design, policy, user, finding.value())?;
            races.push(Shared::new(alloc, race)?)?;
        }
    }
    Ok(Sequence::from_vec(races))
}
