// What the expressions of a pragma do.
ghost use Rattle.std.specs.Prelude.{◌≡◌};
ghost use Rattle.vp_pragma.specs.Pragmas.{alone_effect, assigned_effect, author_effect, effect_if, effect_of, has_no_value, is_encryption, protect_effect, reset_effect, view_of};

use crate::line::{Expression, Value};
use vp_lex::Token;

/// A pragma whose expressions are read.
#[derive(Clone, Copy)]
pub enum Pragma {
    Protect,
    Reset,
}

/// What a viewport says: the strings of its object and of its access.
#[derive(Clone, Copy)]
pub struct ViewportStrings {
    pub object: Token,
    pub access: Token,
}

/// What an expression does.
#[derive(Clone, Copy)]
pub enum PragmaEffect {
    /// It opens an envelope at a place.
    Begins(u32),
    /// It closes an envelope at a place.
    Ends(u32),
    /// It sets the author in force, by a string.
    Names(Token),
    /// It empties the author in force.
    Forgets,
    /// It opens a viewport; none where it says no object and access.
    Views(Option<ViewportStrings>),
    /// It is part of an encrypted envelope.
    Encrypted,
    /// It is bad.
    Bad,
}

/// A deed, where something is so.
fn effect_if(so: bool, effect: PragmaEffect) -> Option<PragmaEffect>
    ensures { result ≡ effect_if so effect }
{
    if so { Some(effect) } else { None }
}

/// A protect keyword of encrypted envelopes.
fn is_encryption(word: &str) -> bool
    ensures { result ≡ is_encryption word.now }
{
    matches!(
        word,
        "begin_protected"
            | "end_protected"
            | "data_block"
            | "key_block"
            | "digest_block"
            | "data_public_key"
            | "data_decrypt_key"
            | "digest_public_key"
            | "digest_decrypt_key"
            | "key_public_key"
    )
}

/// What a keyword alone does.
fn alone_effect(place: u32, word: &str) -> Option<PragmaEffect>
    ensures { result ≡ alone_effect place word.now }
{
    match word {
        "begin" => Some(PragmaEffect::Begins(place)),
        "end" => Some(PragmaEffect::Ends(place)),
        "author" => Some(PragmaEffect::Bad),
        "reset" => Some(PragmaEffect::Forgets),
        "viewport" => Some(PragmaEffect::Views(None)),
        _ => effect_if(is_encryption(word), PragmaEffect::Encrypted),
    }
}

/// The author that a value names.
fn author_effect(value: Value) -> PragmaEffect
    ensures { result ≡ author_effect value }
{
    match value {
        Value::Text(string) => PragmaEffect::Names(string),
        Value::Pairs(_) | Value::Other => PragmaEffect::Bad,
    }
}

/// The viewport that a value says.
fn view_of(text: &str, value: Value) -> Option<ViewportStrings>
    ensures { result ≡ view_of text.now value }
{
    match value {
        Value::Pairs(pair)
            if pair.first.text(text) == "object" && pair.second.text(text) == "access" => {
            Some(ViewportStrings {
                object: pair.text,
                access: pair.other,
            })
        }
        _ => None,
    }
}

/// A keyword that has no value.
fn has_no_value(word: &str) -> bool
    ensures { result ≡ has_no_value word.now }
{
    matches!(word, "begin" | "end" | "reset")
}

/// What a keyword with a value does.
fn assigned_effect(text: &str, word: &str, value: Value) -> Option<PragmaEffect>
    ensures { result ≡ assigned_effect text.now word.now value }
{
    match word {
        "author" => Some(author_effect(value)),
        "viewport" => Some(PragmaEffect::Views(view_of(text, value))),
        _ if has_no_value(word) => Some(PragmaEffect::Bad),
        _ => effect_if(is_encryption(word), PragmaEffect::Encrypted),
    }
}

/// What an expression of a protect pragma does; nothing, for most.
fn protect_effect(text: &str, expression: Expression) -> Option<PragmaEffect>
    ensures { result ≡ protect_effect text.now expression }
{
    match expression {
        Expression::Alone(place, keyword) => alone_effect(place, keyword.text(text)),
        Expression::Assigned(keyword, value) => assigned_effect(text, keyword.text(text), value),
        Expression::Only => None,
    }
}

/// What an expression of a reset pragma does: the keyword `protect` empties the author.
fn reset_effect(text: &str, expression: Expression) -> Option<PragmaEffect>
    ensures { result ≡ reset_effect text.now expression }
{
    match expression {
        Expression::Alone(_, keyword) => effect_if(
            keyword.text(text) == "protect",
            PragmaEffect::Forgets,
        ),
        Expression::Assigned(_, _) | Expression::Only => None,
    }
}

/// What an expression of a pragma does.
pub fn effect_of(pragma: Pragma, text: &str, expression: Expression) -> Option<PragmaEffect>
    ensures { result ≡ effect_of pragma text.now expression }
{
    match pragma {
        Pragma::Protect => protect_effect(text, expression),
        Pragma::Reset => reset_effect(text, expression),
    }
}
