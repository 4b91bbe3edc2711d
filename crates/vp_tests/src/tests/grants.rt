//! Grants that change, in a world of several sessions and on a policy alone.
ghost use Rattle.vp_policy.specs.PolicyState.{Fits};

use crate::tests::sessions::{find_in, open_as, order_in, put_in};
use std::alloc::Global;
use vp_answer::{GrantChange, Query, SessionId};
use vp_design::shared_of;
use vp_elab::{Design, ObjectId};
use vp_policy::{Access, Policy, UserId, read_policy};
use vp_pragma::{Right, access};
use vp_text::Text;
use vp_world::{Event, World};

/// A module whose reg `k` stands in an envelope. Its objects are `top` (0) and `k` (1).
pub const DESIGN: &str = "module top;
`pragma protect begin
  reg k;
`pragma protect end
endmodule
";

/// A policy with two users, who may do all in the open text and in the envelope, and an operator.
pub const POLICY: &[u8] = b"{\"operator\":\"op\",\"users\":[\
{\"name\":\"ann\",\"token\":\"t1\",\"open\":\"watch+put\",\"grants\":[{\"envelope\":1,\"access\":\"watch+put\"}]},\
{\"name\":\"bob\",\"token\":\"t2\",\"open\":\"watch+put\",\"grants\":[{\"envelope\":1,\"access\":\"watch+put\"}]}]}";

/// The first session of the user of a number.
pub fn session_of(user: usize) -> SessionId {
    SessionId {
        user: UserId(user),
        opens: 1,
    }
}

/// The first session of the user of a number has a handle of `k` and watches it.
fn watch(alloc: Global, world: &mut World, user: usize) -> Option<()> {
    find_in(alloc, world, session_of(user), "top.k")?;
    order_in(world, session_of(user), Query::Watch { handle: 1 })
}

/// A change of Ann's grant for an envelope, by a token.
fn change(alloc: Global, token: &str, envelope: u32, access: &str) -> Option<GrantChange> {
    let access = Access::of_text(access)?;
    let token = Text::copy(alloc, token).ok()?;
    let user = Text::copy(alloc, "ann").ok()?;
    Some(GrantChange {
        token,
        user,
        envelope,
        access,
    })
}

/// What such a change comes to: 0, or the refusal's number.
pub fn grant(
    alloc: Global,
    world: &mut World,
    token: &str,
    envelope: u32,
    access: &str,
) -> Option<u32> {
    let change = change(alloc, token, envelope, access)?;
    match world.apply(Event::Grant(change)).err() {
        None => Some(0),
        Some(error) => Some(error.code()),
    }
}

/// Ann and Bob each open a session.
pub fn open_both(alloc: Global, world: &mut World) -> Option<()> {
    open_as(alloc, world, "ann", "t1")?;
    open_as(alloc, world, "bob", "t2")
}

/// Ann and Bob each watch `k`, and Bob puts a value on it.
pub fn watch_both(alloc: Global, world: &mut World) -> Option<()> {
    watch(alloc, world, 0)?;
    watch(alloc, world, 1)?;
    put_in(alloc, world, session_of(1), "1")
}

/// Whether Ann may watch `k` by a policy.
fn may_watch(policy: &Policy) -> bool {
    policy.rights(UserId(0), ObjectId(1)).has(Right::Watch)
}

/// Changes Ann's grant of a policy for an envelope; else the refusal's number.
fn regrant(alloc: Global, design: &Design, policy: &mut Policy, envelope: u32) -> u32
    requires { Fits policy.old design.now.tree }
    ensures { Fits policy.new design.now.tree }
{
    let Some(access) = access("put") else {
        return 0;
    };
    if policy.count() == 0 {
        return 0;
    }
    match policy.regrant(alloc, design, UserId(0), envelope, access) {
        Ok(()) => 0,
        Err(error) => error.code(),
    }
}

/// Whether Ann may watch by a policy whose grant changes, and by its copy, and what a grant for an absent envelope comes to.
fn change_and_copy(alloc: Global, design: &Design, policy: &mut Policy) -> Option<(bool, bool, u32)>
    requires { Fits policy.old design.now.tree }
{
    let copy = policy.try_clone(alloc, design).ok()?;
    regrant(alloc, design, policy, 1);
    let refused = regrant(alloc, design, policy, 2);
    let answers = (may_watch(policy), may_watch(&copy), refused);
    drop(copy);
    Some(answers)
}

/// The same of the policy for a design.
fn change_and_copy_for(alloc: Global, design: &Design) -> Option<(bool, bool, u32)> {
    let mut policy = read_policy(alloc, POLICY, design).ok()?;
    let answers = change_and_copy(alloc, design, &mut policy);
    drop(policy);
    answers
}

/// The same for the design.
fn change_and_copy_for_design(alloc: Global) -> Option<(bool, bool, u32)> {
    let checked = shared_of(alloc, DESIGN)?;
    change_and_copy_for(alloc, checked.design())
}

#[test]
fn a_copy_of_a_policy_keeps_its_grants(rt: HostRuntime) {
    let wanted = Some((false, true, 903));
    assert_eq!(rt; change_and_copy_for_design(rt.alloc()), wanted);
}
