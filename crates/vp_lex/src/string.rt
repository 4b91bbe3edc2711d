// What strings stand for (clause 3.6).
ghost use Rattle.std.specs.Prelude.{◌≡◌, ◌<◌, ◌≤◌, ◌+◌, ◌*◌, true, length, drop, slice_index, take_while, IfOk, string_bytes};
ghost use Rattle.std.specs.List.{list_all};
ghost use Rattle.vp_lex.specs.Strings.{between_quotes, element, is_octal, named_escape, octal_digits, octal_number, string_value};

use std::alloc::{AllocError, Global};

/// What stands between the quotation marks of a string; nothing where they are not there.
fn between_quotes(characters: &[char]) -> &[char]
    ensures { result.now ≡ between_quotes characters.now }
{
    let length = characters.len();
    if length >= 2 && characters[0] == '"' && characters[length - 1] == '"' {
        &characters[1..length - 1]
    } else {
        &[]
    }
}

fn is_octal(character: char) -> bool
    ensures { result ≡ is_octal character }
{
    matches!(character, '0'..='7')
}

/// How many octal digits stand in front.
#[tactic(auto, using(crate::proofs::Scans::taken_more, crate::proofs::Scans::taken_stop, crate::proofs::Scans::taken_end))]
fn octal_len(characters: &[char]) -> usize
    ensures len { result ≡ length (take_while is_octal characters.now) }
    ensures within { result ≤ length characters.now }
{
    let mut end = 0;
    while end < characters.len() && is_octal(characters[end]) {
        end += 1;
    }
    end
}

/// The octal digits in front, three at most.
#[tactic(auto, using(crate::proofs::StringLaws::taken_front, crate::proofs::Fronts::all_taken))]
fn octal_digits(characters: &[char]) -> &[char]
    ensures digits { result.now ≡ octal_digits characters.now }
    ensures few { length result.now ≤ 3 }
    ensures octal { list_all is_octal result.now ≡ true }
    ensures within { length result.now ≤ length characters.now }
{
    let front = &characters[..characters.len().min(3)];
    &front[..octal_len(front)]
}

/// The character of the number of octal digits.
fn octal_character(digits: &[char]) -> char
    requires few { length digits.now ≤ 3 }
    requires octal { list_all is_octal digits.now ≡ true }
    ensures { result ≡ octal_number digits.now }
{
    let mut number = 0u32;
    for digit in digits {
        number = number * 8 + (*digit as u32 - 48);
    }
    match char::from_u32(number) {
        Some(character) => character,
        None => '\\',
    }
}

/// What an escape by one character after its backslash stands for, and how many characters that takes.
fn named_escape(characters: &[char]) -> (char, usize)
    ensures { result ≡ named_escape characters.now }
{
    match characters {
        ['n', ..] => ('\n', 1),
        ['t', ..] => ('\t', 1),
        ['\\', ..] => ('\\', 1),
        ['"', ..] => ('"', 1),
        _ => ('\\', 0),
    }
}

/// The character that the first stands for with those after it, and how many of these that takes.
fn element(characters: &[char]) -> (char, usize)
    requires { 0 < length characters.now }
    ensures value { result ≡ element (slice_index characters.now 0) (drop 1 characters.now) }
    ensures within { result.1 < length characters.now }
{
    if characters[0] != '\\' {
        return (characters[0], 0);
    }
    let following = &characters[1..];
    let digits = octal_digits(following);
    if digits.is_empty() {
        named_escape(following)
    } else {
        (octal_character(digits), digits.len())
    }
}

/// The value of a string with its quotation marks, its escapes undone: `\"` and `\\` stand for the second character, `\n` for a newline,
/// `\t` for a tab, a backslash with one to three octal digits (as many as follow) for the character of that number; another backslash
/// stands for itself. A text that has no quotation marks around it has the empty value. Err is out of memory (clause 3.6; profile).
pub fn string_value(alloc: Global, text: &str) -> Result<String, AllocError>
    ensures ok { IfOk result (λ value. string_bytes value ≡ string_value text.now) }
{
    let characters: Vec<char> = text.chars().collect(alloc)?;
    let inner = between_quotes(&characters);
    let mut value = String::new(alloc);
    let mut at = 0;
    while at < inner.len() {
        let (character, more) = element(&inner[at..]);
        value.push(character)?;
        at += 1 + more;
    }
    Ok(value)
}
