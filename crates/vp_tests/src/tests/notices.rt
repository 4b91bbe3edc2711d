//! Callbacks on changes, and the notices that notify them.

use std::alloc::Global;
use vp_bits::Bits;
use vp_elab::ObjectId;
use vp_expr::Change;
use vp_notify::{Notices, NotifyError, Registry};

/// More changes than there is room for the notices of, where each is due to two callbacks.
const MANY: u64 = 2_050;

/// Callbacks 1 and 3 on object 2, and callback 2 on object 1.
fn three(alloc: Global) -> Result<Registry, NotifyError> {
    let mut registry = Registry::new(alloc)?;
    registry.register(ObjectId(2))?;
    registry.register(ObjectId(1))?;
    registry.register(ObjectId(2))?;
    Ok(registry)
}

/// A change of object 2 at a time.
fn change_two(registry: &mut Registry, time: u64) {
    let change = Change {
        object: ObjectId(2),
        value: Bits::of_number(1, 1),
    };
    registry.on_changes(Some(&change), time);
}

/// Of notices, how many there are and were lost, and of the first and the last the callback and the time.
fn shape_of(notices: &Notices) -> (usize, u64, Option<(u32, u64)>, Option<(u32, u64)>) {
    let first = notices
        .notices
        .as_slice()
        .first()
        .map(|n| (n.callback, n.time));
    let last = notices
        .notices
        .as_slice()
        .last()
        .map(|n| (n.callback, n.time));
    (notices.notices.len(), notices.lost, first, last)
}

/// What is reported of two changes of object 2, between which callback 1 is taken out.
fn told(
    alloc: Global,
) -> Result<(usize, u64, Option<(u32, u64)>, Option<(u32, u64)>), NotifyError> {
    let mut registry = three(alloc)?;
    change_two(&mut registry, 5);
    registry.remove(1)?;
    change_two(&mut registry, 6);
    Ok(shape_of(&registry.drain()?))
}

#[test]
fn notices_in_order(rt: HostRuntime) {
    assert_eq!(rt; told(rt.alloc()), Ok((3, 0, Some((1, 5)), Some((3, 6)))));
}

/// What is reported of many changes, and then of none.
fn told_of_many(alloc: Global) -> Result<(usize, u64, usize, u64), NotifyError> {
    let mut registry = three(alloc)?;
    for time in 0..MANY {
        change_two(&mut registry, time);
    }
    let many = registry.drain()?;
    let none = registry.drain()?;
    Ok((many.notices.len(), many.lost, none.notices.len(), none.lost))
}

#[test]
fn notices_are_lost(rt: HostRuntime) {
    assert_eq!(rt; told_of_many(rt.alloc()), Ok((4_096, 4, 0, 0)));
}

/// The number that a callback is given after a removal, and what a second removal of the same number answers.
fn given(alloc: Global) -> Result<(u32, Option<u32>), NotifyError> {
    let mut registry = three(alloc)?;
    registry.remove(3)?;
    let next = registry.register(ObjectId(0))?;
    let again = registry.remove(3).err().map(|error| error.code());
    Ok((next, again))
}

#[test]
fn numbers_are_not_used_again(rt: HostRuntime) {
    assert_eq!(rt; given(rt.alloc()), Ok((4, Some(1002))));
}

/// How many callbacks are added until one is refused, and the number of the refusal.
fn added(alloc: Global) -> Result<(u32, u32), NotifyError> {
    let mut registry = Registry::new(alloc)?;
    for count in 0..2_000u32 {
        if let Err(error) = registry.register(ObjectId(count % 3)) {
            return Ok((count, error.code()));
        }
    }
    Ok((0, 0))
}

#[test]
fn callbacks_are_limited(rt: HostRuntime) {
    assert_eq!(rt; added(rt.alloc()), Ok((1_024, 1001)));
}
