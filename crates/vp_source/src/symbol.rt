use vp_lex::{Keyword, Punctuator};

/// Numbers of this size and above are reported no further.
pub const NUMBER_LIMIT: u32 = 1 << 31;

/// What the grammar sees of a token.
#[derive(Clone, Copy, PartialEq, Eq)]
pub enum SymbolKind {
    Name,
    /// A decimal number, at most `NUMBER_LIMIT`.
    Number(u32),
    /// An unsigned base part with x, z or ?, or with a value of more than 32 bits: it stands after a size alone.
    Base,
    String,
    Keyword(Keyword),
    Punctuator(Punctuator),
    /// A system name, but `$finish`.
    SystemName,
    /// A signed base part, or a decimal one with x, z or ?.
    OtherBase,
    /// An unsigned base part of known digits with a value of at most 32 bits: it stands after a size, or alone.
    ShortBase,
    /// The system name `$finish`.
    Finish,
}

/// A token that the grammar sees, with its place.
#[derive(Clone, Copy, PartialEq, Eq)]
pub struct Symbol {
    pub kind: SymbolKind,
    pub place: u32,
}
