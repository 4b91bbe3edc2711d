// The words of a line.
ghost use Rattle.std.specs.Prelude.{◌≡◌, ◌++◌, ◌∷◌, decimal, filter, map, string_bytes, IfOk, OnOk};
ghost use Rattle.vp_pragma.specs.Rights.{has, name_of, set_of};
ghost use Rattle.vp_replay.specs.Outline.{access_text, closed_words, envelope_words, every_right, granted_words, quoted, width_words, words_text};

use serde_json::Value;
use std::alloc::{AllocError, Global};
use vp_elab::Kind;
use vp_policy::GrantedBy;
use vp_pragma::{Right, Rights};

/// The rights, in the order in which they are reported.
const EVERY_RIGHT: [Right; 5] = [
    Right::List,
    Right::Read,
    Right::Watch,
    Right::Put,
    Right::Race,
];

/// Adds a word to a line that has one.
pub fn push_word(line: &mut String, word: &str) -> Result<(), AllocError>
    ensures { OnOk result (string_bytes line.new ≡ string_bytes line.old ++ 32 ∷ word.now) }
{
    line.push(' ')?;
    line.push_str(word)
}

/// Adds a text that anyone may have written, as a string of JSON.
pub fn push_quoted(alloc: Global, line: &mut String, text: &str) -> Result<(), AllocError>
    ensures { OnOk result (string_bytes line.new ≡ string_bytes line.old ++ 32 ∷ quoted text.now) }
{
    let value = Value::String(String::from_str(alloc, text)?);
    let quoted = value.to_string(alloc)?;
    push_word(line, quoted.as_str())
}

/// Adds a number.
pub fn push_number(line: &mut String, number: u32) -> Result<(), AllocError>
    ensures { OnOk result (string_bytes line.new ≡ string_bytes line.old ++ 32 ∷ decimal number) }
{
    write!(line, " {number}")
}

/// Adds numbers.
pub fn push_numbers(line: &mut String, numbers: &[u8]) -> Result<(), AllocError>
    ensures { OnOk result (string_bytes line.new
        ≡ string_bytes line.old ++ words_text (map decimal numbers.now)) }
{
    for number in numbers {
        push_number(line, u32::from(*number))?;
    }
    Ok(())
}

/// Adds the words for a closed list.
pub fn push_closed(line: &mut String, closed: &[u8]) -> Result<(), AllocError>
    ensures { OnOk result (string_bytes line.new
        ≡ string_bytes line.old ++ words_text (closed_words closed.now)) }
{
    if closed.is_empty() {
        return Ok(());
    }
    push_word(line, "closed")?;
    push_numbers(line, closed)
}

/// Adds the words for the envelope of a number.
pub fn push_envelope(line: &mut String, envelope: u8) -> Result<(), AllocError>
    ensures { OnOk result (string_bytes line.new
        ≡ string_bytes line.old ++ words_text (envelope_words envelope)) }
{
    if envelope == 0 {
        return Ok(());
    }
    push_word(line, "envelope")?;
    push_number(line, u32::from(envelope))
}

/// Adds the words for a grant entry, by what it is.
pub fn push_granted(line: &mut String, granted: GrantedBy) -> Result<(), AllocError>
    ensures { OnOk result (string_bytes line.new
        ≡ string_bytes line.old ++ words_text (granted_words granted)) }
{
    match granted {
        GrantedBy::Nothing => Ok(()),
        GrantedBy::Number => push_word(line, "granted"),
        GrantedBy::Author => line.push_str(" granted by author"),
    }
}

/// Adds the word for the width of a value.
pub fn push_width(line: &mut String, kind: Kind, width: u32) -> Result<(), AllocError>
    ensures { OnOk result (string_bytes line.new
        ≡ string_bytes line.old ++ words_text (width_words kind width)) }
{
    if kind.has_value() {
        push_number(line, width)
    } else {
        Ok(())
    }
}

/// The names of the rights in a set.
fn right_names(alloc: Global, rights: Rights) -> Result<Vec<&'static str>, AllocError>
    ensures { IfOk result (λ names. map (λ name. name.now) names.items
        ≡ map name_of (filter (λ r. has r (set_of rights)) every_right)) }
{
    let mut names = Vec::new(alloc);
    for right in EVERY_RIGHT {
        if rights.has(right) {
            names.push(right.name())?;
        }
    }
    Ok(names)
}

/// A set of rights as an access string.
fn access_text(alloc: Global, rights: Rights) -> Result<String, AllocError>
    ensures { IfOk result (λ text. string_bytes text ≡ access_text (set_of rights)) }
{
    right_names(alloc, rights)?.join(alloc, "+")
}

/// Adds the word for a set of rights.
pub fn push_access(alloc: Global, line: &mut String, rights: Rights) -> Result<(), AllocError>
    ensures { OnOk result (string_bytes line.new
        ≡ string_bytes line.old ++ 32 ∷ access_text (set_of rights)) }
{
    let access = access_text(alloc, rights)?;
    push_word(line, access.as_str())
}
