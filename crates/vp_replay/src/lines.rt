// The lines of an outline.
ghost use Rattle.std.specs.Prelude.{◌≡◌, ◌++◌, [], codes, map, string_bytes, IfOk, OnOk};
ghost use Rattle.std.specs.List.{enumerate_from, flat_map};
ghost use Rattle.std.specs.Option.{option_to_list};
ghost use Rattle.vp_policy.specs.SeenObjects.{envelope_shown, nodes_from};
ghost use Rattle.vp_replay.specs.OutlinedObjects.{object_line, steps_above};
ghost use Rattle.vp_replay.specs.Outline.{closed_words, envelope_line, line_of, node_line, outline_of, word_if, words_text};

use crate::words::{
    push_access, push_closed, push_envelope, push_granted, push_numbers, push_quoted, push_width,
    push_word,
};
use std::alloc::{AllocError, Global};
use vp_policy::{SeenEnvelope, SeenObject, View};
use vp_text::Text;

/// Adds the line that reports whether a user may let the design run.
fn push_run(text: &mut String, run: bool) -> Result<(), AllocError>
    ensures { OnOk result (string_bytes text.new
        ≡ string_bytes text.old ++ line_of (word_if run (codes "run"))) }
{
    if run { text.push_str("run\n") } else { Ok(()) }
}

/// Adds the line for the envelope of a number.
fn push_envelope_line(
    alloc: Global,
    text: &mut String,
    number: usize,
    envelope: &SeenEnvelope,
) -> Result<(), AllocError>
    ensures { OnOk result (string_bytes text.new
        ≡ string_bytes text.old ++ envelope_line (number, envelope_shown envelope.now)) }
{
    write!(text, "envelope {number}")?;
    push_quoted(alloc, text, envelope.author.as_str())?;
    push_granted(text, envelope.granted)?;
    text.push('\n')
}

/// Adds the lines for envelopes, of which the first has number 1.
fn push_envelopes(
    alloc: Global,
    text: &mut String,
    envelopes: &[SeenEnvelope],
) -> Result<(), AllocError>
    ensures { OnOk result (string_bytes text.new ≡ string_bytes text.old
        ++ flat_map envelope_line (enumerate_from 1 (map envelope_shown envelopes.now))) }
{
    for (before, envelope) in envelopes.iter().enumerate() {
        push_envelope_line(alloc, text, before + 1, envelope)?;
    }
    Ok(())
}

/// Adds the line for the closed list of the top modules.
fn push_closed_line(text: &mut String, closed: &[u8]) -> Result<(), AllocError>
    ensures { OnOk result (string_bytes text.new
        ≡ string_bytes text.old ++ line_of (closed_words closed.now)) }
{
    if closed.is_empty() {
        return Ok(());
    }
    text.push_str("closed")?;
    push_numbers(text, closed)?;
    text.push('\n')
}

/// Adds the word for the definition of an object, if it has one.
fn push_definition(text: &mut String, object: &SeenObject) -> Result<(), AllocError>
    ensures { OnOk result (string_bytes text.new
        ≡ string_bytes text.old ++ words_text (option_to_list object.now.definition)) }
{
    match &object.definition {
        Some(name) => push_word(text, name.as_str()),
        None => Ok(()),
    }
}

/// Adds the line for an object that has so many steps above it.
fn push_object(
    alloc: Global,
    text: &mut String,
    above: usize,
    object: &SeenObject,
) -> Result<(), AllocError>
    ensures { OnOk result (string_bytes text.new
        ≡ string_bytes text.old ++ object_line above object.now) }
{
    text.push_str("  ".repeat(alloc, above)?.as_str())?;
    text.push_str(object.name.as_str())?;
    push_word(text, object.kind.type_name())?;
    push_width(text, object.kind, object.width)?;
    push_definition(text, object)?;
    push_access(alloc, text, object.rights)?;
    push_envelope(text, object.envelope)?;
    push_closed(text, object.closed.as_slice())?;
    text.push('\n')
}

/// How many steps are above an object that is declared in the one of a number, where so many lead
/// to each object before it.
fn steps_above(steps: &[usize], parent: Option<u32>) -> usize
    ensures { result ≡ steps_above steps.now parent }
{
    match parent {
        Some(number) => steps.get(number as usize).copied().unwrap_or(0),
        None => 0,
    }
}

/// Adds the lines for objects.
fn push_objects(alloc: Global, text: &mut String, objects: &[SeenObject]) -> Result<(), AllocError>
    ensures { OnOk result (string_bytes text.new
        ≡ string_bytes text.old ++ flat_map node_line (nodes_from [] objects.now)) }
{
    let mut steps = Vec::new(alloc);
    for object in objects {
        let above = steps_above(steps.as_slice(), object.parent);
        push_object(alloc, text, above, object)?;
        steps.push(above + 1)?;
    }
    Ok(())
}

/// What a user sees, as a text. Takes memory.
pub fn outline(alloc: Global, view: &View) -> Result<Text, AllocError>
    ensures { IfOk result (λ text. text ≡ outline_of view.now) }
{
    let mut text = String::new(alloc);
    push_run(&mut text, view.may_run())?;
    push_envelopes(alloc, &mut text, view.envelopes())?;
    push_closed_line(&mut text, view.closed())?;
    push_objects(alloc, &mut text, view.objects())?;
    Ok(Text::from_string(text))
}
