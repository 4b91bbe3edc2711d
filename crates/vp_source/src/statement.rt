use crate::expression::Selection;

/// Which changes of a name a term of an event counts (9.7.2).
#[derive(Clone, Copy)]
pub enum Edge {
    Any,
    Posedge,
    Negedge,
}

/// A term of an event: a name, by its token, and which of its changes count (9.7.2).
#[derive(Clone, Copy)]
pub struct EventTerm {
    pub edge: Edge,
    pub name: u32,
}

/// Parts of a list that lie after one another: the place of the first, and the one after the last.
#[derive(Clone, Copy, PartialEq, Eq)]
pub struct Span {
    pub first: u32,
    pub end: u32,
}

/// A choice of a case: a statement for a label, by the label's place, or for anything else (9.5).
#[derive(Clone, Copy)]
pub struct Choice {
    pub label: Option<u32>,
    pub body: u32,
}

/// A statement (clause 9). It names its parts by their places in the list of statements or of expressions.
#[derive(Clone, Copy)]
pub enum Statement {
    /// A block without statements.
    Empty,
    /// The statements of a block, and one more after them.
    Then {
        list: u32,
        last: u32,
    },
    /// A blocking assignment to what is selected of a name, by its token.
    Assign {
        target: u32,
        selection: Selection,
        value: u32,
    },
    /// A statement that does nothing (A.6.4).
    Null,
    /// A nonblocking assignment to what is selected of a name, by its token, perhaps after a delay (9.2.2).
    Nonblocking {
        target: u32,
        selection: Selection,
        value: u32,
        delay: Option<u32>,
    },
    /// A statement after a delay (9.7.1).
    Delay {
        amount: u32,
        body: u32,
    },
    /// A statement after an event of terms (9.7.2 to 9.7.4).
    Event {
        terms: Span,
        body: u32,
    },
    /// A statement after any change of what it reads (9.7.5).
    AnyEvent {
        body: u32,
    },
    /// Waits until a condition is true (9.7.6).
    Wait {
        condition: u32,
        body: u32,
    },
    /// A choice, perhaps with an `else` (9.4).
    If {
        condition: u32,
        first: u32,
        second: Option<u32>,
    },
    /// Goes on as long as a condition is true; a `for`'s turns end with its step (9.6).
    While {
        condition: u32,
        body: u32,
        step: Option<u32>,
    },
    /// One of a span of choices, by an expression; `casez` takes z and ? for anything (9.5).
    Case {
        is_wild: bool,
        selector: u32,
        choices: Span,
    },
    /// Ends the simulation (17.4.1).
    Finish,
    /// Goes on without an end (9.6).
    Forever {
        body: u32,
    },
    /// An assignment, and then a loop (9.6).
    For {
        start: u32,
        turns: u32,
    },
}
