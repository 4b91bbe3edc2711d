// What the tokens of a pragma's line are in its grammar (clause 19.10).
ghost use Rattle.std.specs.Prelude.{◌≡◌};
ghost use Rattle.vp_pragma.specs.TokenClasses.{class_of};

use vp_lex::{Punctuator, Token, TokenKind};

/// What a token is in the grammar of a pragma's line.
#[derive(Clone, Copy)]
pub enum TokenClass {
    /// A name, be it a keyword.
    Word,
    /// A string.
    Text,
    /// A decimal number.
    Number,
    /// The base part of a number.
    Base,
    /// It gives a keyword its value.
    Equals,
    /// It stands between expressions.
    Comma,
    /// It begins a list.
    Opening,
    /// It ends a list.
    Closing,
    /// It has no place in the grammar.
    Other,
}

/// What a token is in the grammar of a pragma's line.
pub fn class_of(token: Token) -> TokenClass
    ensures { result ≡ class_of token.kind }
{
    match token.kind {
        TokenKind::Name | TokenKind::Keyword(_) => TokenClass::Word,
        TokenKind::String => TokenClass::Text,
        TokenKind::Number => TokenClass::Number,
        TokenKind::Base => TokenClass::Base,
        TokenKind::Punctuator(Punctuator::Equals) => TokenClass::Equals,
        TokenKind::Punctuator(Punctuator::Comma) => TokenClass::Comma,
        TokenKind::Punctuator(Punctuator::LeftParenthesis) => TokenClass::Opening,
        TokenKind::Punctuator(Punctuator::RightParenthesis) => TokenClass::Closing,
        TokenKind::Punctuator(_) | TokenKind::SystemName | TokenKind::Directive =>
            TokenClass::Other,
    }
}
