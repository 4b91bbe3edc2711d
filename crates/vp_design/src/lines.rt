// Lines of a text, and columns.
ghost use Rattle.std.specs.Prelude.{◌≡◌, ◌≤◌, ◌<◌, ◌++◌, length, string_bytes, OnOk};
ghost use Rattle.vp_text.specs.Texts.{parts};
ghost use Rattle.vp_design.specs.Lines.{blank_of, blanks, column_after, count_characters, first_of, goes_on_character, line_of, line_start, text_in};

use std::alloc::AllocError;
use vp_text::first_piece;

/// Where the line of a number, from 1, begins; the end of the text where it has no such line.
#[tactic(auto, using(crate::proofs::Steps::newline_passed, crate::proofs::Steps::byte_passed, crate::proofs::Steps::newlines_here, crate::proofs::Steps::newlines_end))]
fn start_of(bytes: &[u8], number: u32) -> usize
    ensures start { result ≡ line_start number bytes.now }
    ensures within { result ≤ length bytes.now }
{
    let mut missing = number.saturating_sub(1);
    for at in 0..bytes.len() {
        if missing == 0 {
            return at;
        }
        if bytes[at] == b'\n' {
            missing -= 1;
        }
    }
    bytes.len()
}

/// Where the line of a number, from 1, begins; the end of the text where it has no such line.
pub fn line_start(text: &str, number: u32) -> usize
    ensures start { result ≡ line_start number text.now }
    ensures within { result ≤ length text.now }
{
    start_of(text.as_bytes(), number)
}

/// Some bytes, if they are text; else nothing.
fn text_in(bytes: &[u8]) -> &str
    ensures { result.now ≡ text_in bytes.now }
{
    match str::from_utf8(bytes) {
        Ok(text) => text,
        Err(_) => "",
    }
}

/// The first of some bytes' parts round a newline.
fn first_line(bytes: &[u8]) -> &[u8]
    ensures { result.now ≡ first_of (parts 10 bytes.now) }
{
    first_piece(bytes, b'\n').0
}

/// The line of a number, from 1, without its newline; nothing where the text has no such line.
pub fn line_of(text: &str, number: u32) -> &str
    ensures { result.now ≡ line_of number text.now }
{
    let bytes = text.as_bytes();
    text_in(first_line(&bytes[start_of(bytes, number)..]))
}

/// A byte that goes on a character of more than one.
fn goes_on_character(byte: u8) -> bool
    ensures { result ≡ goes_on_character byte }
{
    matches!(byte, 128..=191)
}

/// How many characters a part of a line has.
fn count_characters(front: &str) -> usize
    ensures { result ≡ count_characters front.now }
{
    front
        .as_bytes()
        .iter()
        .filter(|byte| !goes_on_character(**byte))
        .count()
}

/// The column after a part of a line, in characters from 1.
pub fn column_after(front: &str) -> usize
    ensures { result ≡ column_after front.now }
{
    count_characters(front).saturating_add(1)
}

/// Adds what leads under the place after a byte.
fn push_blank(text: &mut String, byte: u8) -> Result<(), AllocError>
    ensures { OnOk result (string_bytes text.new ≡ string_bytes text.old ++ blank_of byte) }
{
    if byte == b'\t' {
        text.push('\t')
    } else if goes_on_character(byte) {
        Ok(())
    } else {
        text.push(' ')
    }
}

/// Adds what leads under the place after a part of a line.
#[tactic(auto, using(crate::proofs::Steps::blanks_more))]
pub fn push_blanks(text: &mut String, front: &str) -> Result<(), AllocError>
    ensures { OnOk result (string_bytes text.new ≡ string_bytes text.old ++ blanks front.now) }
{
    for byte in front.as_bytes() {
        push_blank(text, *byte)?;
    }
    Ok(())
}
