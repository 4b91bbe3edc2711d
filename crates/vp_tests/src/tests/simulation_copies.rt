//! Copies of lists and of values that are kept.
use std::alloc::Global;
use vp_bits::Bits;
use vp_cow_list::{SharedList, TrackedList};
use vp_design::shared_of;
use vp_elab::ObjectId;
use vp_expr::{Values, ValuesCheckpoint};

/// The numbers up to 200.
fn numbers(alloc: Global) -> Option<TrackedList<u32>> {
    let items = (0..200).collect(alloc).ok()?;
    TrackedList::from_vec(alloc, items).ok()
}

/// What stands at two places of a copy, of two chunks.
fn two_of(copy: Option<&SharedList<u32>>) -> Option<(u32, u32)> {
    let list = copy?;
    Some((list.get(70)?, list.get(150)?))
}

/// Two places of a copy, of a later copy between which both were written, and of the list, which was written again.
fn copies_of(list: &mut TrackedList<u32>) -> [Option<(u32, u32)>; 3] {
    let first = list.checkpoint().ok();
    list.set(70, 7);
    list.set(150, 8);
    let second = list.checkpoint().ok();
    list.set(70, 9);
    let third = list.checkpoint().ok();
    let indexes = [
        two_of(first.as_ref()),
        two_of(second.as_ref()),
        two_of(third.as_ref()),
    ];
    drop((first, second, third));
    indexes
}

/// The same of the numbers.
fn copies(alloc: Global) -> Option<[Option<(u32, u32)>; 3]> {
    let mut list = numbers(alloc)?;
    let indexes = copies_of(&mut list);
    drop(list);
    Some(indexes)
}

#[test]
fn copies_of_a_list(rt: HostRuntime) {
    let wanted = [Some((70, 150)), Some((7, 8)), Some((9, 8))];
    assert_eq!(rt; copies(rt.alloc()), Some(wanted));
}

/// The numbers up to 1,000.
fn many_numbers(alloc: Global) -> Option<TrackedList<u32>> {
    let items = (0..1000).collect(alloc).ok()?;
    TrackedList::from_vec(alloc, items).ok()
}

/// What stands at three places of a copy, of which the chunks have numbers with the same rest by four.
fn three_of(copy: &SharedList<u32>) -> Option<(u32, u32, u32)> {
    Some((copy.get(64)?, copy.get(320)?, copy.get(832)?))
}

/// Writes one index of each chunk of a list, and keeps a copy after each.
fn write_each(list: &mut TrackedList<u32>) -> Option<()> {
    for number in 0..15 {
        list.set(64 * number, 7);
        drop(list.checkpoint().ok()?);
    }
    Some(())
}

/// Three places of a copy of the numbers, and of one after more chunks that were written than can be exchanged at once.
fn first_and_last(alloc: Global) -> Option<[(u32, u32, u32); 2]> {
    let mut list = many_numbers(alloc)?;
    let first = list.checkpoint().ok()?;
    write_each(&mut list)?;
    let last = list.checkpoint().ok()?;
    Some([three_of(&first)?, three_of(&last)?])
}

#[test]
fn copies_of_many_chunks(rt: HostRuntime) {
    let wanted = [(64, 320, 832), (7, 7, 7)];
    assert_eq!(rt; first_and_last(rt.alloc()), Some(wanted));
}

/// The values of a new design with a reg of two bits, `top.a` (1).
fn new_values(alloc: Global) -> Option<Values> {
    let checked = shared_of(alloc, "module top; reg [1:0] a; endmodule")?;
    Values::new(alloc, &checked).ok()
}

/// A copy of them.
fn copy_of_new(alloc: Global) -> Option<ValuesCheckpoint> {
    let mut values = new_values(alloc)?;
    let copy = values.checkpoint().ok();
    drop(values);
    copy
}

/// The value of the reg in a copy, and in its first chunk.
fn value_in(copy: &ValuesCheckpoint) -> Option<(Bits, Bits)> {
    if copy.count() == 0 {
        return None;
    }
    Some((copy.find(ObjectId(1))?, copy.chunk(0).get(1)?))
}

/// The same of the copy of the new values.
fn copied_value(alloc: Global) -> Option<(Bits, Bits)> {
    let copy = copy_of_new(alloc)?;
    let value = value_in(&copy);
    drop(copy);
    value
}

#[test]
fn copy_of_values(rt: HostRuntime) {
    let both = (Bits::unknown(2), Bits::unknown(2));
    assert_eq!(rt; copied_value(rt.alloc()), Some(both));
}
