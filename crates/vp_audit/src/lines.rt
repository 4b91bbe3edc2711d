// The lines of an explanation.
ghost use Rattle.std.specs.Prelude.{◌≡◌, ◌++◌, [], ◌∷◌, codes, decimal, string_bytes, IfOk, OnOk};
ghost use Rattle.std.specs.Option.{option_map_or};
ghost use Rattle.vp_replay.specs.Outline.{words_text};
ghost use Rattle.vp_wire.specs.Lines.{line_of};
ghost use Rattle.vp_audit.specs.Explanation.{change_line, explanation_of, finish_line, grant_line, item_lines, order_line, origin_words, own_line, race_line, time_line, explained_after, explained_line, view_after};

use std::alloc::{AllocError, Global};
use vp_answer::Reply;
use vp_expr::Change;
use vp_policy::View;
use vp_replay::{
    Explained, GrantItem, Item, OrderItem, Projection, full_name, push_access, push_word,
};
use vp_text::Text;
use vp_vpi::ShownRace;
use vp_wire::reply_text;

/// Adds the line of a reply after a word.
fn push_reply(alloc: Global, text: &mut String, reply: &Reply) -> Result<(), AllocError>
    ensures { OnOk result
        (string_bytes text.new ≡ string_bytes text.old ++ 32 ∷ line_of reply.now) }
{
    let Ok(line) = reply_text(alloc, reply) else {
        return Err(AllocError);
    };
    push_word(text, line.as_str())?;
    text.push('\n')
}

/// Adds the words for the item with which a value came, if one did.
fn push_origin(text: &mut String, brought: Option<u64>) -> Result<(), AllocError>
    ensures { OnOk result (string_bytes text.new
        ≡ string_bytes text.old ++ words_text (origin_words brought)) }
{
    match brought {
        Some(number) => write!(text, " of {number}"),
        None => Ok(()),
    }
}

/// Adds the line for what the user was shown.
fn push_explained(alloc: Global, text: &mut String, explained: &Explained) -> Result<(), AllocError>
    ensures { OnOk result (string_bytes text.new
        ≡ string_bytes text.old ++ explained_line explained.now) }
{
    let number = explained.item;
    write!(text, "{number} told")?;
    push_origin(text, explained.brought)?;
    push_reply(alloc, text, &explained.reply)
}

/// Adds the line for a change of the user's grants.
fn push_grant(
    alloc: Global,
    text: &mut String,
    number: u64,
    granted: &GrantItem,
) -> Result<(), AllocError>
    ensures { OnOk result (string_bytes text.new
        ≡ string_bytes text.old ++ grant_line number granted.now) }
{
    let envelope = granted.envelope;
    write!(text, "{number} grant {envelope}")?;
    push_access(alloc, text, granted.access.rights())?;
    text.push('\n')
}

/// Adds the line for what an operator ordered of the user.
fn push_order(
    alloc: Global,
    text: &mut String,
    number: u64,
    order: &OrderItem,
) -> Result<(), AllocError>
    ensures { OnOk result (string_bytes text.new
        ≡ string_bytes text.old ++ order_line number order.now) }
{
    match order {
        OrderItem::Grant(granted) => push_grant(alloc, text, number, granted.value()),
        OrderItem::End => write!(text, "{number} ended\n"),
    }
}

/// Adds the line for a change.
fn push_change(
    alloc: Global,
    text: &mut String,
    view: &View,
    number: u64,
    change: &Change,
) -> Result<(), AllocError>
    ensures { OnOk result (string_bytes text.new
        ≡ string_bytes text.old ++ change_line view.now number change.now) }
{
    let name = full_name(alloc, view, change.object.0)?;
    let Ok(digits) = change.value.to_bin(alloc) else {
        return Err(AllocError);
    };
    write!(text, "{number}")?;
    push_word(text, name.as_str())?;
    push_word(text, digits.as_str())?;
    text.push('\n')
}

/// Adds the line for `$finish`, if it was executed.
fn push_finish(text: &mut String, number: u64, finished: bool) -> Result<(), AllocError>
    ensures { OnOk result (string_bytes text.new
        ≡ string_bytes text.old ++ finish_line number finished) }
{
    if finished {
        write!(text, "{number} finished\n")
    } else {
        Ok(())
    }
}

/// Adds the line for a race.
fn push_race(text: &mut String, number: u64, race: &ShownRace) -> Result<(), AllocError>
    ensures { OnOk result (string_bytes text.new
        ≡ string_bytes text.old ++ race_line number race.now) }
{
    write!(text, "{number} race")?;
    push_word(text, race.name.as_str())?;
    text.push('\n')
}

/// Adds the lines for what came with an item.
fn push_item(
    alloc: Global,
    text: &mut String,
    view: &View,
    number: u64,
    item: &Item,
) -> Result<(), AllocError>
    ensures { OnOk result (string_bytes text.new
        ≡ string_bytes text.old ++ item_lines view.now number item.now) }
{
    if let Some(order) = &item.order {
        push_order(alloc, text, number, order)?;
    }
    if let Some(change) = &item.change {
        push_change(alloc, text, view, number, change)?;
    }
    if let Some(time) = item.time {
        write!(text, "{number} time {time}\n")?;
    }
    if let Some(finished) = item.finished {
        push_finish(text, number, finished)?;
    }
    if let Some(race) = &item.race {
        push_race(text, number, race.value())?;
    }
    Ok(())
}

/// Adds the line for an event of the user's own, by what he was shown from there on, and gives what he was shown after it.
fn push_own<'a>(
    alloc: Global,
    text: &mut String,
    item: &Item,
    explained: &'a [Explained],
) -> Result<&'a [Explained], AllocError>
    ensures text { OnOk result (string_bytes text.new
        ≡ string_bytes text.old ++ own_line item.now.own_event explained.now) }
    ensures rest { IfOk result
        (λ rest. rest.now ≡ explained_after item.now.own_event explained.now) }
{
    if item.own_event.is_none() {
        return Ok(explained);
    }
    match explained.split_first() {
        Some((first, rest)) => {
            push_explained(alloc, text, first)?;
            Ok(rest)
        }
        None => Ok(explained),
    }
}

/// What the user sees after an item.
fn view_after<'a>(view: &'a View, item: &'a Item) -> &'a View
    ensures { result.now ≡ view_after view.now item.now.order }
{
    match &item.order {
        Some(OrderItem::Grant(granted)) => &granted.value().view,
        Some(OrderItem::End) | None => view,
    }
}

/// What a user was shown and what came to him, by what he sees at the opening, what of a log goes to him, and what he was shown by his own events: a
/// line each, with the number of the item. Takes memory.
pub fn explanation(
    alloc: Global,
    view: &View,
    projection: &Projection,
    explained: &[Explained],
) -> Result<Text, AllocError>
    ensures { IfOk result (λ text. text
        ≡ explanation_of view.now projection.now.items explained.now) }
{
    let mut text = String::new(alloc);
    let mut sees = view;
    let mut rest = explained;
    for (index, item) in projection.items.as_slice().iter().enumerate() {
        let number = index as u64 + 1;
        rest = push_own(alloc, &mut text, item, rest)?;
        push_item(alloc, &mut text, sees, number, item)?;
        sees = view_after(sees, item);
    }
    Ok(Text::from_string(text))
}
