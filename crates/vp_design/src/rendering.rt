// The text of a diagnostic.
ghost use Rattle.std.specs.Prelude.{◌≡◌, ◌+◌, ◌≤◌, ◌++◌, ◌∷◌, [], codes, drop, length, string_bytes, take, IfOk, OnOk};
ghost use Rattle.std.specs.Str.{IsCharBoundary};
ghost use Rattle.vp_design.specs.Lines.{blanks, column_after, line_of};
ghost use Rattle.vp_design.specs.Rendering.{IsFrontShown, IsLocated, IsRestShown, IsShown, IsSplit, half_width, head_at, head_without_line, picture, width_limit};

use crate::lines::{column_after, line_of, push_blanks};
use std::alloc::{AllocError, Global};
use vp_text::Text;

/// A line of more bytes is cut.
const WIDTH_LIMIT: usize = 200;

/// So many bytes stay before the caret of a line that is cut, and so many after it, at most.
const HALF_WIDTH: usize = 100;

/// A place of a text.
#[derive(Clone, Copy, Debug, PartialEq, Eq)]
pub struct Place {
    /// Its line, from 1.
    pub line: u32,
    /// How many bytes stand before it on its line.
    pub offset: usize,
}

/// What is shown of a line's part before the caret.
fn front_shown(alloc: Global, front: &str) -> Result<String, AllocError>
    ensures { IfOk result (λ shown. IsFrontShown front.now (string_bytes shown)) }
{
    let at = front.ceil_char_boundary(front.len().saturating_sub(HALF_WIDTH));
    let (_, end) = front.split_at(at);
    format!(in alloc; "…{end}")
}

/// What is shown of a line's part after the caret.
fn rest_shown(alloc: Global, rest: &str) -> Result<String, AllocError>
    ensures { IfOk result (λ shown. IsRestShown rest.now (string_bytes shown)) }
{
    let (start, _) = rest.split_at(rest.floor_char_boundary(HALF_WIDTH));
    format!(in alloc; "{start}…")
}

/// The two parts of a line round the caret, as they are shown.
fn parts_shown(alloc: Global, front: &str, rest: &str) -> Result<(String, String), AllocError>
    ensures { IfOk result (λ shown. IsShown front.now rest.now
        (string_bytes shown.0) (string_bytes shown.1)) }
{
    let whole = front.len() <= WIDTH_LIMIT && rest.len() <= WIDTH_LIMIT - front.len();
    let front = if whole || front.len() <= HALF_WIDTH {
        String::from_str(alloc, front)?
    } else {
        front_shown(alloc, front)?
    };
    let rest = if whole || rest.len() <= HALF_WIDTH {
        String::from_str(alloc, rest)?
    } else {
        rest_shown(alloc, rest)?
    };
    Ok((front, rest))
}

/// A line split at a place; before its end where no character begins there.
fn split(line: &str, offset: usize) -> (&str, &str)
    ensures { IsSplit line.now offset result.0.now result.1.now }
{
    match line.split_at_checked(offset) {
        Some((front, rest)) => (front, rest),
        None => (line, ""),
    }
}

/// Adds the line of a fault, and the caret under it.
fn push_picture(text: &mut String, front: &str, rest: &str) -> Result<(), AllocError>
    ensures { OnOk result (string_bytes text.new
        ≡ string_bytes text.old ++ picture front.now rest.now) }
{
    write!(text, "  {front}{rest}\n  ")?;
    push_blanks(text, front)?;
    text.push_str("^\n")
}

/// The head of a fault at a place of a file.
fn head_at(
    alloc: Global,
    name: &str,
    line: u32,
    column: usize,
    code: u32,
    words: &str,
) -> Result<String, AllocError>
    ensures { IfOk result
        (λ head. string_bytes head ≡ head_at name.now line column code words.now) }
{
    format!(in alloc; "{name}:{line}:{column}: fault {code}: {words}\n")
}

/// The text of a fault at a place of a text, with notes.
pub fn located(
    alloc: Global,
    name: &str,
    text: &str,
    place: Place,
    code: u32,
    words: &str,
    notes: &str,
) -> Result<Text, AllocError>
    ensures { IfOk result
        (λ rendered. IsLocated name.now text.now place code words.now notes.now rendered) }
{
    let (front, rest) = split(line_of(text, place.line), place.offset);
    let mut rendered = head_at(alloc, name, place.line, column_after(front), code, words)?;
    let (front, rest) = parts_shown(alloc, front, rest)?;
    push_picture(&mut rendered, front.as_str(), rest.as_str())?;
    rendered.push_str(notes)?;
    Ok(Text::from_string(rendered))
}

/// The text of a fault without a line.
pub fn lineless(alloc: Global, name: &str, code: u32, words: &str) -> Result<Text, AllocError>
    ensures { IfOk result
        (λ rendered. rendered ≡ head_without_line name.now code words.now) }
{
    Ok(Text::from_string(format!(in alloc;
        "{name}: fault {code}: {words} (no line is known for it)\n"
    )?))
}
