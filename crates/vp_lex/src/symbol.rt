// The operators and the punctuators, by their symbols.
ghost use Rattle.std.specs.Prelude.{◌≡◌, [], ◌∷◌, ◌<◌, ◌≤◌, ◌+◌, length, drop, slice_index};
ghost use Rattle.vp_lex.specs.Cutting.{symbol_front};
ghost use Rattle.vp_lex.specs.Symbols.{symbol_of};

use crate::token::Punctuator;

/// The symbol of one byte.
pub fn one_byte_symbol(byte: u8) -> Option<Punctuator>
    ensures { result ≡ symbol_of (byte ∷ []) }
{
    Some(match byte {
        b'+' => Punctuator::Plus,
        b'-' => Punctuator::Minus,
        b'*' => Punctuator::Asterisk,
        b'/' => Punctuator::Divide,
        b'%' => Punctuator::Modulus,
        b'&' => Punctuator::And,
        b'|' => Punctuator::Or,
        b'^' => Punctuator::Xor,
        b'~' => Punctuator::Negation,
        b'!' => Punctuator::LogicalNegation,
        b'?' => Punctuator::Conditional,
        b'<' => Punctuator::LessThan,
        b'>' => Punctuator::GreaterThan,
        b'=' => Punctuator::Equals,
        b'(' => Punctuator::LeftParenthesis,
        b')' => Punctuator::RightParenthesis,
        b'[' => Punctuator::LeftBracket,
        b']' => Punctuator::RightBracket,
        b'{' => Punctuator::LeftBrace,
        b'}' => Punctuator::RightBrace,
        b',' => Punctuator::Comma,
        b';' => Punctuator::Semicolon,
        b':' => Punctuator::Colon,
        b'.' => Punctuator::Period,
        b'#' => Punctuator::Hash,
        b'@' => Punctuator::At,
        _ => return None,
    })
}

/// The symbol of two bytes.
fn two_byte_symbol(first: u8, second: u8) -> Option<Punctuator>
    ensures { result ≡ symbol_of (first ∷ second ∷ []) }
{
    Some(match (first, second) {
        (b'*', b'*') => Punctuator::Power,
        (b'<', b'<') => Punctuator::ShiftLeft,
        (b'>', b'>') => Punctuator::ShiftRight,
        (b'<', b'=') => Punctuator::LessOrEqual,
        (b'>', b'=') => Punctuator::GreaterOrEqual,
        (b'=', b'=') => Punctuator::LogicalEquality,
        (b'!', b'=') => Punctuator::LogicalInequality,
        (b'&', b'&') => Punctuator::LogicalAnd,
        (b'|', b'|') => Punctuator::LogicalOr,
        (b'~', b'&') => Punctuator::ReductionNand,
        (b'~', b'|') => Punctuator::ReductionNor,
        (b'~', b'^') => Punctuator::ReductionXnor,
        (b'^', b'~') => Punctuator::ReductionXnor,
        (b'-', b'>') => Punctuator::EventTrigger,
        _ => return None,
    })
}

/// The symbol of three bytes.
fn three_byte_symbol(first: u8, second: u8, third: u8) -> Option<Punctuator>
    ensures { result ≡ symbol_of (first ∷ second ∷ third ∷ []) }
{
    Some(match (first, second, third) {
        (b'<', b'<', b'<') => Punctuator::ArithmeticShiftLeft,
        (b'>', b'>', b'>') => Punctuator::ArithmeticShiftRight,
        (b'=', b'=', b'=') => Punctuator::CaseEquality,
        (b'!', b'=', b'=') => Punctuator::CaseInequality,
        _ => return None,
    })
}

/// The symbol that bytes are.
pub fn symbol(bytes: &[u8]) -> Option<Punctuator>
    ensures { result ≡ symbol_of bytes.now }
{
    match bytes {
        [only] => one_byte_symbol(*only),
        [first, second] => two_byte_symbol(*first, *second),
        [first, second, third] => three_byte_symbol(*first, *second, *third),
        _ => None,
    }
}

/// The length of the longest symbol that bytes begin with, or of their first byte.
fn symbol_length(bytes: &[u8]) -> usize
    requires { 0 < length bytes.now }
    ensures length { result ≡ 1 + length
        (symbol_front (slice_index bytes.now 0) (drop 1 bytes.now)) }
    ensures within { result ≤ length bytes.now }
{
    match bytes {
        [a, b, c, ..] if three_byte_symbol(*a, *b, *c).is_some() => 3,
        [a, b, ..] if two_byte_symbol(*a, *b).is_some() => 2,
        _ => 1,
    }
}

/// The end of the longest symbol from a byte on, or after that byte.
#[tactic(auto, using(std::proofs::lemmas::List::drop_more))]
pub fn symbol_end(bytes: &[u8], start: usize) -> usize
    requires { start < length bytes.now }
    ensures end { result ≡ start + 1 + length
        (symbol_front (slice_index bytes.now start) (drop (start + 1) bytes.now)) }
{
    start + symbol_length(&bytes[start..])
}
