//! What users can know of a world whose grants change, and what they were shown there.
use crate::tests::fresh::world_of;
use crate::tests::grants::{DESIGN, POLICY, grant, open_both, session_of, watch_both};
use crate::tests::sessions::{order_in, poll_in, put_in};
use std::alloc::Global;
use vp_answer::{Query, ValueFormat};
use vp_audit::{Audit, audit_user};
use vp_design::shared_of;
use vp_policy::{UserId, read_policy};
use vp_world::{Limits, Log, World};

/// Ann and Bob watch `k`, of which Bob is notified, and Ann no more after her grant has changed. Each has five events of his own.
fn happens(alloc: Global, world: &mut World) -> Option<()> {
    open_both(alloc, world)?;
    watch_both(alloc, world)?;
    grant(alloc, world, "op", 1, "list")?;
    poll_in(world, session_of(0))?;
    put_in(alloc, world, session_of(1), "0")?;
    grant(alloc, world, "op", 1, "list+read")?;
    let format = ValueFormat::Binary;
    order_in(world, session_of(0), Query::Value { handle: 1, format })
}

/// The audit of a user of a log, by the number of the user.
fn audit_of_log(alloc: Global, log: &Log, user: usize) -> Option<Audit> {
    let checked = shared_of(alloc, DESIGN)?;
    let policy = read_policy(alloc, POLICY, checked.design()).ok()?;
    let audit = audit_user(alloc, &checked, &policy, log, UserId(user)).ok();
    drop(policy);
    audit
}

/// The audit of a user of a new world in which this has happened.
fn audit_of(alloc: Global, user: usize) -> Option<Audit> {
    let mut world = world_of(alloc, DESIGN, POLICY, Limits::GREATEST)?;
    happens(alloc, &mut world)?;
    let audit = audit_of_log(alloc, world.log(), user);
    drop(world);
    audit
}

#[test]
fn what_was_told_is_what_is_replayed(rt: HostRuntime) {
    for (user, number) in [(0, 5), (1, 5), (2, 0)] {
        let want = Audit { same: true, number };
        assert_eq!(rt; audit_of(rt.alloc(), user), Some(want));
    }
}
