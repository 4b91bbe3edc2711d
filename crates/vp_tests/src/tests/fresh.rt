//! Worlds of texts in which nothing has happened.
use std::alloc::Global;
use vp_design::shared_of;
use vp_policy::read_policy;
use vp_world::{Limits, World};

/// A world of a text and a policy in which nothing has happened; none where one of them is refused, or out of memory.
pub fn world_of(alloc: Global, text: &str, policy: &[u8], limits: Limits) -> Option<World> {
    let checked = shared_of(alloc, text)?;
    let policy = read_policy(alloc, policy, checked.design()).ok()?;
    World::new(alloc, checked, policy, limits).ok()
}
