// The lists of a pragma's line, which nest as deep as the text allows: so no function calls itself for each (clause 19.10).
ghost use Rattle.std.specs.Prelude.{◌≡◌, IfSome, option_map};
ghost use Rattle.vp_pragma.specs.declared.lists.Due.TheVariants as due;
ghost use Rattle.vp_pragma.specs.Lists.{next, next_after, next_after_number, next_after_word, next_expression, next_value, scan};
ghost use Rattle.vp_pragma.specs.Reading.{HasPlaces, placed};

use crate::line::{Rest, split};
use crate::token_class::{TokenClass, class_of};

/// What is due next in a list.
#[derive(Clone, Copy)]
pub enum Due {
    Expression,
    Value,
    /// What may follow a word that begins an expression.
    AfterWord,
    /// What may follow a number.
    AfterNumber,
    /// What may follow an expression.
    After,
}

/// What a token does in a list.
#[derive(Clone, Copy)]
pub enum Move {
    To(Due),
    Opens,
    Closes,
}

/// What comes next where an expression is due.
fn next_expression(token_class: TokenClass) -> Option<Move>
    ensures { result ≡ next_expression token_class }
{
    match token_class {
        TokenClass::Word => Some(Move::To(Due::AfterWord)),
        TokenClass::Text | TokenClass::Base => Some(Move::To(Due::After)),
        TokenClass::Number => Some(Move::To(Due::AfterNumber)),
        TokenClass::Opening => Some(Move::Opens),
        _ => None,
    }
}

/// What comes next where a value is due.
fn next_value(token_class: TokenClass) -> Option<Move>
    ensures { result ≡ next_value token_class }
{
    match token_class {
        TokenClass::Word | TokenClass::Text | TokenClass::Base => Some(Move::To(Due::After)),
        TokenClass::Number => Some(Move::To(Due::AfterNumber)),
        TokenClass::Opening => Some(Move::Opens),
        _ => None,
    }
}

/// What comes next after an expression.
fn next_after(token_class: TokenClass) -> Option<Move>
    ensures { result ≡ next_after token_class }
{
    match token_class {
        TokenClass::Comma => Some(Move::To(Due::Expression)),
        TokenClass::Closing => Some(Move::Closes),
        _ => None,
    }
}

/// What comes next, where a token has this sign; nothing where none such may stand.
fn next(due: Due, token_class: TokenClass) -> Option<Move>
    ensures { result ≡ next due token_class }
{
    match (due, token_class) {
        (Due::Expression, _) => next_expression(token_class),
        (Due::Value, _) => next_value(token_class),
        (Due::AfterWord, TokenClass::Equals) => Some(Move::To(Due::Value)),
        (Due::AfterNumber, TokenClass::Base) => Some(Move::To(Due::After)),
        (Due::AfterWord | Due::AfterNumber | Due::After, _) => next_after(token_class),
    }
}

/// What follows a list, from after its parenthesis; none where it is no list or does not end.
pub fn list_end(rest: Rest<'_>) -> Option<Rest<'_>>
    requires { HasPlaces rest }
    ensures parts { option_map placed result ≡ scan due.Expression 0 (placed rest.entry) }
    ensures places { IfSome result HasPlaces }
{
    let mut due = Due::Expression;
    let mut depth = 0u32;
    let mut left = rest;
    while let Some((token, others)) = split(left) {
        match next(due, class_of(token))? {
            Move::To(following) => due = following,
            Move::Opens => {
                depth += 1;
                due = Due::Expression;
            }
            Move::Closes if depth == 0 => return Some(others),
            Move::Closes => {
                depth -= 1;
                due = Due::After;
            }
        }
        left = others;
    }
    None
}
