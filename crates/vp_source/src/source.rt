ghost use Rattle.std.specs.Prelude.{◌≡◌};
ghost use Rattle.vp_source.specs.Places.{earlier};

use crate::expression::{Expression, Range};
use crate::statement::{Choice, EventTerm, Span, Statement};
use vp_lex::Token;
use vp_text::{Sequence, Text};

/// How deep statements, and expressions, may nest in one another.
pub const DEPTH_LIMIT: u32 = 64;

/// The range of a declaration, and the token of its bracket (clause 4.3.1).
#[derive(Clone, Copy)]
pub struct DeclaredRange {
    pub bracket: u32,
    pub range: Range,
}

/// The direction of a port, and whether it declares a net or a reg (clause 12.3.3).
#[derive(Clone, Copy, PartialEq, Eq)]
pub enum Direction {
    Input,
    Output,
    /// An output that declares a reg.
    OutputReg,
}

/// A connection of a port of an instance (clauses 12.3.5 and 12.3.6).
#[derive(Clone, Copy)]
pub struct Connection {
    /// The token at which its expression begins; where it has none, the token after it.
    pub place: u32,
    /// The token of the port's name; none where the connection is by position.
    pub port: Option<u32>,
    /// The place of its expression; none where the port is left open.
    pub value: Option<u32>,
}

/// An item of a module, by the place of its declaration.
#[derive(Clone, Copy)]
pub enum Item {
    /// A port, by its name (clause 12.3.3).
    Port {
        name: u32,
        direction: Direction,
        range: Option<DeclaredRange>,
    },
    /// A net, by its name, with the range of its bits; a scalar has none (clause 4.2.1).
    Net {
        name: u32,
        range: Option<DeclaredRange>,
    },
    /// A reg, by its name, with the range of its bits; a scalar has none (clause 4.2.2).
    Reg {
        name: u32,
        range: Option<DeclaredRange>,
    },
    /// A local parameter, by its name, with its literal (clause 4.10.2).
    LocalParameter {
        name: u32,
        value: u32,
    },
    /// A continuous assignment, by the name to which it assigns (clause 6.1).
    Assignment {
        target: u32,
        value: u32,
    },
    /// An instance, by its name, with the name of its module, and its connections from `first` up to `end` (clause 12.1.2).
    Instance {
        name: u32,
        definition: u32,
        first: u32,
        end: u32,
    },
    /// An `initial`, by its keyword, and its statement (clause 9.9.1).
    Initial {
        keyword: u32,
        body: u32,
    },
    /// An `always`, by its keyword, and its statement (clause 9.9.2).
    Always {
        keyword: u32,
        body: u32,
    },
}

/// A module: the token of its name, its items, of which those up to `ports` are its ports, and its statements, expressions,
/// terms of events and choices of cases.
#[derive(Clone, Copy, PartialEq, Eq)]
pub struct Module {
    pub name: u32,
    pub items: Span,
    pub ports: u32,
    pub statements: Span,
    pub expressions: Span,
    pub terms: Span,
    pub choices: Span,
}

/// What a text says: its modules, in order, with the lists that they name, its tokens and itself.
/// A part stands after its own parts.
#[derive(Drop)]
pub struct Source {
    pub text: Text,
    pub tokens: Sequence<Token>,
    pub modules: Sequence<Module>,
    pub items: Sequence<Item>,
    pub connections: Sequence<Connection>,
    pub statements: Sequence<Statement>,
    pub expressions: Sequence<Expression>,
    pub terms: Sequence<EventTerm>,
    pub choices: Sequence<Choice>,
}

impl Source {
    ghost use Rattle.vp_source.specs.Places.{line_at, token_at, word_at};

    /// The token at a place; none past the end.
    pub fn token(&self, place: u32) -> Option<Token>
        ensures { result ≡ token_at self.now place }
    {
        self.tokens.as_slice().get(place as usize).copied()
    }

    /// The text of the token at a place; empty past the end.
    pub fn word(&self, place: u32) -> &str
        ensures { result.now ≡ word_at self.now place }
    {
        match self.tokens.as_slice().get(place as usize) {
            Some(token) => token.text(self.text.as_str()),
            None => "",
        }
    }

    /// The line of the token at a place, from 1; 0 past the end.
    pub fn line(&self, place: u32) -> u32
        ensures { result ≡ line_at self.now place }
    {
        match self.tokens.as_slice().get(place as usize) {
            Some(token) => token.line,
            None => 0,
        }
    }
}

/// The first of two places, of which each may be missing.
pub fn earlier(one: Option<u32>, other: Option<u32>) -> Option<u32>
    ensures { result ≡ earlier one other }
{
    match (one, other) {
        (Some(a), Some(b)) => Some(a.min(b)),
        (None, place) | (place, None) => place,
    }
}

/// Where the lists of a source end, of which each module has a part.
#[derive(Clone, Copy)]
pub struct Ends {
    pub items: u32,
    pub statements: u32,
    pub expressions: u32,
    pub terms: u32,
    pub choices: u32,
}
