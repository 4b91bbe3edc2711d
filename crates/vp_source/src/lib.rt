//! What a Verilog text says: its modules, statements and expressions, in flat lists, and the grammar that derives them from its symbols.
#![tactic(auto)]

mod expression;
mod operator;
mod source;
mod statement;
mod symbol;

pub use expression::{Expression, Range, Selection};
pub use operator::{BinaryOperator, UnaryOperator};
pub use source::{
    Connection, DEPTH_LIMIT, DeclaredRange, Direction, Ends, Item, Module, Source, earlier,
};
pub use statement::{Choice, Edge, EventTerm, Span, Statement};
pub use symbol::{NUMBER_LIMIT, Symbol, SymbolKind};
