// What a user was shown, and with which item of what goes to him each value came.
ghost use Rattle.std.specs.Prelude.{◌≡◌, IfErr, IfOk, OnOk, map, option_map, option_and_then, slice_get, slice_set, true};
ghost use Rattle.vp_replay.specs.Explained.{brought_by, explained, explained_from, is_value, numbers_kept, value_asked, with_number};
ghost use Rattle.vp_replay.specs.Faults.{MayRefuse, TakesUp};
ghost use Rattle.vp_replay.specs.Parts.{part_after, takes, takes_all, first_part};

use crate::error::AuditError;
use crate::item::{GrantItem, Item, OrderItem, OwnEvent, Projection};
use crate::part::Part;
use std::alloc::{AllocError, Global};
use vp_answer::Reply;
use vp_bits::Bits;
use vp_expr::Change;
use vp_policy::View;
use vp_text::Sequence;

/// What a user was shown by an event of his own.
#[derive(Drop)]
pub struct Explained {
    /// The number of its item, from 1.
    pub item: u64,
    pub reply: Reply,
    /// Where the reply is the value of an object: the number of the item with which that value last came, 0 where it came at the opening.
    pub brought: Option<u64>,
}

/// A reply is a value.
fn is_value(reply: &Reply) -> bool
    ensures { result ≡ is_value reply.now }
{
    matches!(reply, Reply::Value(_) | Reply::Vector(_))
}

/// The number of the item with which the value last came that an event of his own asks, if it asks one.
fn asked_of(part: &Part<'_>, brought: &[u64], own_event: &OwnEvent) -> Option<u64>
    ensures { result
        ≡ option_and_then (slice_get brought.now) (value_asked part.now own_event.now) }
{
    let object = part.value_asked(own_event)?;
    brought.get(object.0 as usize).copied()
}

/// The object of a number has the number of the item with which its value came, where none came now.
fn keep_number(numbers: &mut Vec<u64>, came: &[Option<Bits>], object: u32, number: u64)
    ensures { numbers.new.items ≡ with_number came.now numbers.old.items object number }
{
    if let Some(Some(_)) = came.get(object as usize) {
        return;
    }
    if let Some(kept) = numbers.get_mut(object as usize) {
        *kept = number;
    }
}

/// Each object that was known before has the number of the item with which its value came, under its own number now, where none came now.
fn keep_numbers(numbers: &mut Vec<u64>, granted: &GrantItem, brought: &[u64])
    ensures { numbers.new.items ≡ numbers_kept granted.now.moved granted.now.values brought.now
        numbers.old.items }
{
    let came = granted.values.as_slice();
    for (object, number) in granted.moved.as_slice().iter().zip(brought) {
        keep_number(numbers, came, *object, *number);
    }
}

/// The numbers of the items with which the values came, after a change of grants, which is the item of a number. Takes memory.
#[tactic(auto, using(crate::proofs::Filling::fill_is))]
fn granted_numbers(
    alloc: Global,
    number: u64,
    granted: &GrantItem,
    brought: &[u64],
) -> Result<Vec<u64>, AllocError>
    ensures { IfOk result (λ numbers. numbers.items
        ≡ numbers_kept granted.now.moved granted.now.values brought.now
        (map (λ v. number) granted.now.values)) }
{
    let mut numbers = vec![in alloc; number; granted.values.len()]?;
    keep_numbers(&mut numbers, granted, brought);
    Ok(numbers)
}

/// The value of a changed object comes with the item of a number.
fn bring_change(brought: &mut Vec<u64>, number: u64, change: &Change)
    ensures { brought.new.items ≡ slice_set brought.old.items change.now.object.0 number }
{
    if let Some(index) = brought.get_mut(change.object.0 as usize) {
        *index = number;
    }
}

/// Notes which values come with the item of a number. Takes memory where it is a change of grants.
fn bring(alloc: Global, brought: &mut Vec<u64>, number: u64, item: &Item) -> Result<(), AllocError>
    ensures { OnOk result (brought.new.items
        ≡ brought_by number brought.old.items item.now.order item.now.change) }
{
    match (&item.order, &item.change) {
        (Some(OrderItem::Grant(granted)), _) => {
            *brought = granted_numbers(alloc, number, granted.value(), brought)?;
        }
        (None, Some(change)) => bring_change(brought, number, change),
        _ => {}
    }
    Ok(())
}

/// The number of the item with which the value last came that an item's own event asks, if it has one that asks one.
fn came_with(part: &Part<'_>, brought: &[u64], item: &Item) -> Option<u64>
    ensures { result ≡ option_and_then (λ own_event. option_and_then (slice_get brought.now)
        (value_asked part.now own_event)) item.now.own_event }
{
    match &item.own_event {
        Some(own_event) => asked_of(part, brought, own_event),
        None => None,
    }
}

/// The item of a number is taken up: what the user is shown, if it has an event of his own, and which values come with it. Its refusals are
/// those of `Part::take`.
fn explain_item<'a>(
    alloc: Global,
    part: &mut Part<'a>,
    brought: &mut Vec<u64>,
    number: u64,
    item: &'a Item,
) -> Result<Option<Explained>, AuditError>
    ensures explained { IfOk result (λ one. one
        ≡ option_map (explained number brought.old.items part.old) item.now.own_event) }
    ensures after { OnOk result (part.new ≡ part_after part.old item.now) }
    ensures brought { OnOk result (brought.new.items
        ≡ brought_by number brought.old.items item.now.order item.now.change) }
    ensures accepted { OnOk result (takes part.old item.now ≡ true) }
    ensures refused { IfErr result (MayRefuse (takes part.old item.now)) }
{
    let came = came_with(part, brought.as_slice(), item);
    let reply = part.take(item)?;
    bring(alloc, brought, number, item)?;
    let Some(reply) = reply else {
        return Ok(None);
    };
    let brought = if is_value(&reply) { came } else { None };
    Ok(Some(Explained {
        item: number,
        reply,
        brought,
    }))
}

/// What a user was shown by each event of his own among these items, the first of which has the number 1, with the item with which each value came.
/// Its refusals are those of `Part::take`.
fn explain_items<'a>(
    alloc: Global,
    part: &mut Part<'a>,
    brought: &mut Vec<u64>,
    items: &'a [Item],
) -> Result<Sequence<Explained>, AuditError>
    ensures explained { IfOk result (λ explained. explained
        ≡ explained_from 1 brought.old.items part.old items.now) }
    ensures taken { TakesUp (takes_all part.old items.now) result }
{
    let mut explained = Vec::new(alloc);
    for (index, item) in items.iter().enumerate() {
        let number = index as u64 + 1;
        if let Some(one) = explain_item(alloc, part, brought, number, item)? {
            explained.push(one)?;
        }
    }
    Ok(Sequence::from_vec(explained))
}

/// What a user was shown by each event of his own, in order, as `replay` has it, with the item with which each value came. Its refusals are
/// those of `replay`.
#[tactic(auto, using(crate::proofs::Filling::fill_is))]
pub fn explain_projection<'a>(
    alloc: Global,
    view: &'a View,
    projection: &'a Projection,
) -> Result<Sequence<Explained>, AuditError>
    ensures explained { IfOk result (λ explained. explained
        ≡ explained_from 1 (map (λ v. 0) projection.now.values)
        (first_part view.now projection.now.values) projection.now.items) }
    ensures taken { let part = first_part view.now projection.now.values in
        TakesUp (takes_all part projection.now.items) result }
{
    let mut part = Part::new(alloc, view, projection.values.as_slice())?;
    let mut brought = vec![in alloc; 0; projection.values.len()]?;
    explain_items(alloc, &mut part, &mut brought, projection.items.as_slice())
}
