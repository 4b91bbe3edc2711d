// The line of a pragma, cut into its expressions (clause 19.10).
ghost use Rattle.std.specs.Prelude.{◌≡◌, ◌≤◌, ◌+◌, [], ◌∷◌, length, drop, if◌then◌else◌, option_map, MatchOption, IfSome};
ghost use Rattle.std.specs.List.{enumerate_from, prefix_len, take_while};
ghost use Rattle.vp_lex.specs.declared.token.TheConstants.{TEXT_LIMIT};
ghost use Rattle.vp_pragma.specs.LineReading.{after_sign, expression_at, keyword_text, pair_found, pair_of, token_if, pragma_value};
ghost use Rattle.vp_pragma.specs.Pragmas.{is_on};
ghost use Rattle.vp_pragma.specs.TokenClasses.{begins_with, is_base, is_close, is_comma, is_equals, is_string, is_word, rest_of};
ghost use Rattle.vp_pragma.specs.Reading.{HasPlaces, placed};

use crate::lists::list_end;
use crate::token_class::{TokenClass, class_of};
use vp_lex::Token;

/// Two keywords of a list, each with a string.
#[derive(Clone, Copy)]
pub struct Pair {
    pub first: Token,
    pub text: Token,
    pub second: Token,
    pub other: Token,
}

/// A value of a pragma's keyword.
#[derive(Clone, Copy)]
pub enum Value {
    /// A string, by its token.
    Text(Token),
    /// A list of two keywords with strings.
    Pairs(Pair),
    Other,
}

/// An expression of a pragma.
#[derive(Clone, Copy)]
pub enum Expression {
    /// A keyword alone, by its place and its token.
    Alone(u32, Token),
    /// A keyword with a value.
    Assigned(Token, Value),
    /// A value alone.
    Only,
}

/// The tokens of a line from a place on.
#[derive(Clone, Copy)]
pub struct Rest<'a> {
    pub tokens: &'a [Token],
    pub at: u32,
}

/// A word of a text, keyword or not.
pub fn is_word(token: Token) -> bool
    ensures { result ≡ is_word token.kind }
{
    matches!(class_of(token), TokenClass::Word)
}

/// The token gives a keyword its value.
fn is_equals(token: Token) -> bool
    ensures { result ≡ is_equals token.kind }
{
    matches!(class_of(token), TokenClass::Equals)
}

/// The token stands between expressions.
pub fn is_comma(token: Token) -> bool
    ensures { result ≡ is_comma token.kind }
{
    matches!(class_of(token), TokenClass::Comma)
}

/// The token ends a list.
fn is_close(token: Token) -> bool
    ensures { result ≡ is_close token.kind }
{
    matches!(class_of(token), TokenClass::Closing)
}

/// The token is a string.
fn is_string(token: Token) -> bool
    ensures { result ≡ is_string token.kind }
{
    matches!(class_of(token), TokenClass::Text)
}

/// The first token, and what follows it.
pub fn split(rest: Rest<'_>) -> Option<(Token, Rest<'_>)>
    requires { HasPlaces rest }
    ensures parts { MatchOption result (placed rest.entry ≡ [])
        (λ s. placed rest.entry ≡ (rest.entry.at, s.0) ∷ placed s.1) }
    ensures places { IfSome result (λ s. HasPlaces s.1) }
{
    match rest.tokens {
        [] => None,
        [first, tokens @ ..] => Some((
            *first,
            Rest {
                tokens,
                at: rest.at + 1,
            },
        )),
    }
}

/// What follows a number: after a base part, if one is first.
fn after_base(rest: Rest<'_>) -> Rest<'_>
    requires { HasPlaces rest }
    ensures parts { placed result ≡ (if begins_with is_base (placed rest.entry)
        then rest_of (placed rest.entry) else placed rest.entry) }
    ensures places { HasPlaces result }
{
    match split(rest) {
        Some((first, others)) if matches!(class_of(first), TokenClass::Base) => others,
        _ => rest,
    }
}

/// What follows an equals sign, if one is first.
fn after_equals(rest: Rest<'_>) -> Option<Rest<'_>>
    requires { HasPlaces rest }
    ensures parts { option_map placed result ≡ after_sign is_equals (placed rest.entry) }
    ensures places { IfSome result HasPlaces }
{
    match split(rest) {
        Some((first, others)) if is_equals(first) => Some(others),
        _ => None,
    }
}

/// The word at the front of a line's tokens, and what follows it.
fn word_at(rest: Rest<'_>) -> Option<(Token, Rest<'_>)>
    requires { HasPlaces rest }
    ensures parts { option_map (λ w. (w.0, placed w.1)) result
        ≡ token_if is_word (placed rest.entry) }
    ensures places { IfSome result (λ w. HasPlaces w.1) }
{
    match split(rest) {
        Some((first, others)) if is_word(first) => Some((first, others)),
        _ => None,
    }
}

/// The string at the front of a line's tokens, and what follows it.
fn string_at(rest: Rest<'_>) -> Option<(Token, Rest<'_>)>
    requires { HasPlaces rest }
    ensures parts { option_map (λ s. (s.0, placed s.1)) result
        ≡ token_if is_string (placed rest.entry) }
    ensures places { IfSome result (λ s. HasPlaces s.1) }
{
    match split(rest) {
        Some((first, others)) if is_string(first) => Some((first, others)),
        _ => None,
    }
}

/// A keyword with a string at the front of a line's tokens, and what follows it.
fn keyword_text(rest: Rest<'_>) -> Option<(Token, Token, Rest<'_>)>
    requires { HasPlaces rest }
    ensures parts { option_map (λ k. (k.0, k.1, placed k.2)) result
        ≡ keyword_text (placed rest.entry) }
    ensures places { IfSome result (λ k. HasPlaces k.2) }
{
    let (word, rest) = word_at(rest)?;
    let (text, rest) = string_at(after_equals(rest)?)?;
    Some((word, text, rest))
}

/// What follows a comma, if one is first.
fn after_comma(rest: Rest<'_>) -> Option<Rest<'_>>
    requires { HasPlaces rest }
    ensures parts { option_map placed result ≡ after_sign is_comma (placed rest.entry) }
    ensures places { IfSome result HasPlaces }
{
    match split(rest) {
        Some((first, others)) if is_comma(first) => Some(others),
        _ => None,
    }
}

/// What follows the end of a list, if it is first.
fn after_close(rest: Rest<'_>) -> Option<Rest<'_>>
    requires { HasPlaces rest }
    ensures parts { option_map placed result ≡ after_sign is_close (placed rest.entry) }
    ensures places { IfSome result HasPlaces }
{
    match split(rest) {
        Some((first, others)) if is_close(first) => Some(others),
        _ => None,
    }
}

/// The two keywords with strings of a list, from after its parenthesis.
fn pair_found(rest: Rest<'_>) -> Option<Pair>
    requires { HasPlaces rest }
    ensures { result ≡ pair_found (placed rest.entry) }
{
    let (first, text, rest) = keyword_text(rest)?;
    let (second, other, rest) = keyword_text(after_comma(rest)?)?;
    let _after = after_close(rest)?;
    Some(Pair {
        first,
        text,
        second,
        other,
    })
}

/// The value of a list, from after its parenthesis.
fn pair_of(rest: Rest<'_>) -> Value
    requires { HasPlaces rest }
    ensures { result ≡ pair_of (placed rest.entry) }
{
    match pair_found(rest) {
        Some(pair) => Value::Pairs(pair),
        None => Value::Other,
    }
}

/// The value at the front of a line's tokens, and what follows it.
fn pragma_value(rest: Rest<'_>) -> Option<(Value, Rest<'_>)>
    requires { HasPlaces rest }
    ensures parts { option_map (λ v. (v.0, placed v.1)) result ≡ pragma_value (placed rest.entry) }
    ensures places { IfSome result (λ v. HasPlaces v.1) }
{
    let (first, others) = split(rest)?;
    match class_of(first) {
        TokenClass::Text => Some((Value::Text(first), others)),
        TokenClass::Number => Some((Value::Other, after_base(others))),
        TokenClass::Base | TokenClass::Word => Some((Value::Other, others)),
        TokenClass::Opening => Some((pair_of(others), list_end(others)?)),
        _ => None,
    }
}

/// The expression at the front of a line's tokens, and what follows it.
pub fn expression_at(rest: Rest<'_>) -> Option<(Expression, Rest<'_>)>
    requires { HasPlaces rest }
    ensures parts { option_map (λ e. (e.0, placed e.1)) result ≡ expression_at (placed rest.entry) }
    ensures places { IfSome result (λ e. HasPlaces e.1) }
{
    let (first, others) = split(rest)?;
    if !is_word(first) {
        let (_, remainder) = pragma_value(rest)?;
        return Some((Expression::Only, remainder));
    }
    match after_equals(others) {
        Some(value) => {
            let (value, remainder) = pragma_value(value)?;
            Some((Expression::Assigned(first, value), remainder))
        }
        None => Some((Expression::Alone(rest.at, first), others)),
    }
}

/// A token stands on the pragma of a line.
fn is_on(line: u32, token: Token) -> bool
    ensures { result ≡ is_on line token }
{
    token.directive && token.line == line
}

/// The end of the run of tokens from a place on that stand on the pragma of a line.
fn line_end(tokens: &[Token], line: u32, from: usize) -> usize
    requires { from ≤ length tokens.now }
    ensures run { result ≡ from + prefix_len (is_on line) (drop from tokens.now) }
    ensures within { (from ≤ result) × (result ≤ length tokens.now) }
{
    for place in from..tokens.len() {
        if !is_on(line, tokens[place]) {
            return place;
        }
    }
    tokens.len()
}

/// The tokens from a place on that stand on the pragma of a line.
pub fn run_of(tokens: &[Token], line: u32, from: usize) -> Rest<'_>
    requires place { from ≤ length tokens.now }
    requires few { length tokens.now ≤ TEXT_LIMIT }
    ensures parts { placed result ≡ enumerate_from from
        (take_while (is_on line) (drop from tokens.now)) }
    ensures places { HasPlaces result }
{
    let end = line_end(tokens, line, from);
    Rest {
        tokens: &tokens[from..end],
        at: from as u32,
    }
}
