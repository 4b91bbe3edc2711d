use crate::operator::{BinaryOperator, UnaryOperator};

/// The bounds of a range: `lsb` is at most `msb`, and `msb` at most 65,535 (5.2.1).
#[derive(Clone, Copy)]
pub struct Range {
    pub msb: u16,
    pub lsb: u16,
}

/// What of a named object is meant (5.2.1).
#[derive(Clone, Copy)]
pub enum Selection {
    Whole,
    /// The bit at an index, by the place of its expression.
    Bit { index: u32 },
    Part(Range),
}

/// A part of an expression (clause 5). It names its parts by their places in the list of expressions, where they
/// stand before it, and tokens by their places in the text. Parentheses make no part.
#[derive(Clone, Copy)]
pub enum Expression {
    /// A name, by its token, and what is selected of it.
    Name {
        name: u32,
        selection: Selection,
    },
    /// A literal with a size: its first token, its size in bits (1 to 65,535), and the token of its base and digits.
    Literal {
        place: u32,
        size: u32,
        digits: u32,
    },
    /// A literal without a size, by the token of its base and digits.
    Based {
        digits: u32,
    },
    /// A decimal number, below 2^31.
    Number {
        place: u32,
        value: u32,
    },
    Unary {
        operator: UnaryOperator,
        place: u32,
        operand: u32,
    },
    Binary {
        operator: BinaryOperator,
        place: u32,
        left: u32,
        right: u32,
    },
    Conditional {
        condition: u32,
        first: u32,
        second: u32,
    },
    /// A concatenation of one expression, by the token of its brace.
    Concatenation {
        open: u32,
        part: u32,
    },
    /// A concatenation so far, and one more expression.
    Appended {
        open: u32,
        list: u32,
        part: u32,
    },
    /// A concatenation so many times, by the token of its outer brace.
    Replication {
        open: u32,
        count: u32,
        list: u32,
    },
}
