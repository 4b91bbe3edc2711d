// What would be read where a text has a syntax error.
ghost use Rattle.std.specs.Prelude.{◌≡◌, ◌+◌, ◌++◌, codes, count_by, map, string_bytes, if◌then◌else◌, IfOk, MatchBool, OnOk};
ghost use Rattle.vp_lex.specs.Texts.{part_of, text_of};
ghost use Rattle.vp_lex.specs.Bytes.{is_newline};
ghost use Rattle.vp_design.specs.Tables.{candidates};
ghost use Rattle.vp_design.specs.Expected.{AreRead, GoesOn, IsExpectedNote, IsReadOrNot, Stops, expected_note, listed, quoted, tried};

use crate::one_token_lines::part_of;
use std::alloc::{AllocError, Global};
use vp_lex::{LexError, TEXT_LIMIT, Token, tokens};
use vp_parse::{ParseError, parse};
use vp_text::Text;

/// What is tried, and the words for it.
const CANDIDATES: [(&str, &str); 24] = [
    ("x", "a name"),
    ("1", "a number"),
    ("'h1", "a base part"),
    (";", "`;`"),
    (",", "`,`"),
    ("(", "`(`"),
    (")", "`)`"),
    ("[", "`[`"),
    ("]", "`]`"),
    ("{", "`{`"),
    ("}", "`}`"),
    (":", "`:`"),
    ("=", "`=`"),
    ("<=", "`<=`"),
    ("#", "`#`"),
    ("@", "`@`"),
    (".", "`.`"),
    ("^", "an operator"),
    ("input", "`input`"),
    ("wire", "an item"),
    ("if", "a statement"),
    ("end", "`end`"),
    ("endmodule", "`endmodule`"),
    ("module", "`module`"),
];

/// At most so many are reported.
const TOLD_LIMIT: usize = 6;

/// A token of more bytes is not repeated.
const TOKEN_LIMIT: usize = 40;

/// The grammar reads a text past the second line after so many newlines.
fn goes_on(alloc: Global, text: &str, newlines: usize) -> Result<bool, AllocError>
    ensures { IfOk result (λ on. MatchBool on (GoesOn (newlines + 2) text.now)
        (Stops (newlines + 2) text.now)) }
{
    if text.len() > TEXT_LIMIT {
        return Ok(false);
    }
    let tokens = match tokens(alloc, text) {
        Ok(tokens) => tokens,
        Err(LexError::NoMemory) => return Err(AllocError),
        Err(_) => return Ok(false),
    };
    match parse(alloc, text, tokens.as_slice()) {
        Ok(_) => Ok(true),
        Err(ParseError::NoMemory) => Err(AllocError),
        Err(error) => Ok(newlines < (error.line() as usize).saturating_sub(2)),
    }
}

/// How many newlines a text has.
fn newlines(text: &str) -> usize
    ensures { result ≡ count_by is_newline text.now }
{
    text.as_bytes()
        .iter()
        .filter(|byte| **byte == b'\n')
        .count()
}

/// A text with a candidate after it, and a further token after that.
fn tried(alloc: Global, front: &str, candidate: &str) -> Result<String, AllocError>
    ensures { IfOk result (λ text. string_bytes text ≡ tried front.now candidate.now) }
{
    format!(in alloc; "{front}\n{candidate}\nendmodule\n")
}

/// A candidate is read after a text.
fn is_read(alloc: Global, front: &str, candidate: &str) -> Result<bool, AllocError>
    ensures { IfOk result (λ read. IsReadOrNot read front.now candidate.now) }
{
    let text = tried(alloc, front, candidate)?;
    goes_on(alloc, text.as_str(), newlines(front))
}

/// The words of those candidates of a table that are read after a text.
fn words_read(
    alloc: Global,
    front: &str,
    table: &[(&'static str, &'static str)],
) -> Result<Vec<&'static str>, AllocError>
    ensures { IfOk result
        (λ words. AreRead front.now
        (map (λ c. (c.0.now, c.1.now)) table.now) (map (λ w. w.now) words.items)) }
{
    let mut words = Vec::new(alloc);
    for (candidate, word) in table {
        if is_read(alloc, front, candidate)? {
            words.push(*word)?;
        }
    }
    Ok(words)
}

/// The first six of some words, and an ellipsis where there are more.
fn listed(alloc: Global, words: &[&str]) -> Result<String, AllocError>
    ensures { IfOk result (λ list. string_bytes list ≡ listed (map (λ w. w.now) words.now)) }
{
    if words.len() <= TOLD_LIMIT {
        return words.join(alloc, ", ");
    }
    let mut list = words[..TOLD_LIMIT].join(alloc, ", ")?;
    list.push_str(", …")?;
    Ok(list)
}

/// A token, as it is reported.
pub fn quoted(alloc: Global, token: &str) -> Result<String, AllocError>
    ensures { IfOk result (λ text. string_bytes text ≡ quoted token.now) }
{
    if token.len() > TOKEN_LIMIT {
        String::from_str(alloc, "a long token")
    } else {
        format!(in alloc; "`{token}`")
    }
}

/// What was found, and a list of what would be read.
fn listed_note(alloc: Global, found: &str, list: &str) -> Result<String, AllocError>
    ensures { IfOk result (λ note. string_bytes note ≡ codes "found " ++ (found.now
        ++ (codes "; here would be read: " ++ (list.now ++ codes "\n")))) }
{
    format!(in alloc; "found {found}; here would be read: {list}\n")
}

/// What was found, and what would be read.
fn note(alloc: Global, found: &str, words: &[&str]) -> Result<String, AllocError>
    ensures { IfOk result
        (λ note. string_bytes note ≡ expected_note found.now (map (λ w. w.now) words.now)) }
{
    if words.is_empty() {
        return format!(in alloc; "found {found}\n");
    }
    let list = listed(alloc, words)?;
    listed_note(alloc, found, list.as_str())
}

/// What was found, as it is reported: a token, or the end of the text.
fn found(alloc: Global, text: &str, token: Token, at_end: bool) -> Result<String, AllocError>
    ensures { IfOk result (λ found. string_bytes found ≡ (if at_end
        then codes "the end of the text" else quoted (text_of text.now token))) }
{
    if at_end {
        String::from_str(alloc, "the end of the text")
    } else {
        quoted(alloc, token.text(text))
    }
}

/// What the candidates are tried after: the text, or what stands before the token.
fn front_of(text: &str, token: Token, at_end: bool) -> &str
    ensures { result.now
        ≡ (if at_end then text.now else part_of text.now 0 token.start) }
{
    if at_end {
        text
    } else {
        part_of(text, 0, token.start)
    }
}

/// The note at a token that the grammar does not read.
pub fn expected_note(alloc: Global, text: &str, token: Token) -> Result<Text, AllocError>
    ensures { IfOk result (IsExpectedNote text.now token candidates) }
{
    let at_end = is_read(alloc, text, "")?;
    let front = front_of(text, token, at_end);
    let words = words_read(alloc, front, CANDIDATES.as_slice())?;
    let found = found(alloc, text, token, at_end)?;
    let note = note(alloc, found.as_str(), words.as_slice())?;
    Ok(Text::from_string(note))
}
