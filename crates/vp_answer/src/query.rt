ghost use Rattle.std.specs.Prelude.{◌≡◌, IfOk};
ghost use Rattle.vp_answer.specs.Sizes.{query_bytes, saturated, value_bytes};

use crate::sizes::list_bytes;
use std::alloc::{AllocError, Global};
use vp_elab::Kind;
use vp_text::Text;
use vp_vpi::{NumberProperty, PutValue, TextProperty};

/// How a value is reported (clause 27.14).
#[derive(Clone, Copy, Debug, PartialEq, Eq)]
pub enum ValueFormat {
    /// In binary digits.
    Binary,
    /// In words of 32 bits.
    Vector,
}

/// What an open session asks (docs/FORMATS.md, "Lines").
#[derive(Drop)]
pub enum Query {
    /// A handle of the object of a dotted name, in the module of a handle or among the top modules.
    Handle {
        name: Text,
        scope: Option<u32>,
    },
    /// Handles of all objects of a kind in the module of a handle, or among the top modules.
    Iterate {
        kind: Kind,
        scope: Option<u32>,
    },
    /// A number of a handle's object.
    Get {
        handle: u32,
        property: NumberProperty,
    },
    /// A text of a handle's object.
    GetStr {
        handle: u32,
        property: TextProperty,
    },
    /// The value of a handle's object.
    Value {
        handle: u32,
        format: ValueFormat,
    },
    /// To give a handle's object a value.
    Put {
        handle: u32,
        value: PutValue,
    },
    /// Whether two handles are of one object.
    Compare {
        first: u32,
        second: u32,
    },
    /// To free a handle.
    Free {
        handle: u32,
    },
    /// To be notified of the changes of a handle's object (clause 27.33).
    Watch {
        handle: u32,
    },
    /// Not to be notified by the callback of a number any more (clause 27.34).
    Unwatch {
        callback: u32,
    },
    /// The notices of changes since the last poll.
    Poll,
    /// The races that the user is shown, from a number on.
    Races {
        from: u64,
    },
    /// The race of a number among those that the user is shown.
    Race {
        number: u64,
    },
    /// To let the design run until a time, in time units.
    Run {
        until: u64,
    },
    /// To let the design stand still, until somebody asks for a run again.
    Stop,
    /// The current time, and whether `$finish` was executed.
    Time,
}

/// The bytes that the value of a put takes.
fn value_bytes(value: &PutValue) -> u64
    ensures { result ≡ saturated (value_bytes value.now) }
{
    match value {
        PutValue::Digits(digits) => digits.as_str().len() as u64,
        PutValue::Words(words) => list_bytes(words.as_slice()),
    }
}

impl Query {
    /// The bytes that it takes beside its place in a log: those of its texts, and 96 for each word of a value.
    pub fn bytes(&self) -> u64
        ensures { result ≡ saturated (query_bytes self.now) }
    {
        match self {
            Query::Handle { name, .. } => name.as_str().len() as u64,
            Query::Put { value, .. } => value_bytes(value),
            _ => 0,
        }
    }

    /// The same query once more. Takes memory for its texts.
    pub fn try_clone(&self, alloc: Global) -> Result<Query, AllocError>
        ensures { IfOk result (λ query. query ≡ self.now) }
    {
        Ok(match *self {
            Query::Handle { ref name, scope } => Query::Handle {
                name: Text::copy(alloc, name.as_str())?,
                scope,
            },
            Query::Iterate { kind, scope } => Query::Iterate { kind, scope },
            Query::Get { handle, property } => Query::Get { handle, property },
            Query::GetStr { handle, property } => Query::GetStr { handle, property },
            Query::Value { handle, format } => Query::Value { handle, format },
            Query::Put { handle, ref value } => Query::Put {
                handle,
                value: value.try_clone(alloc)?,
            },
            Query::Compare { first, second } => Query::Compare { first, second },
            Query::Free { handle } => Query::Free { handle },
            Query::Watch { handle } => Query::Watch { handle },
            Query::Unwatch { callback } => Query::Unwatch { callback },
            Query::Poll => Query::Poll,
            Query::Races { from } => Query::Races { from },
            Query::Race { number } => Query::Race { number },
            Query::Run { until } => Query::Run { until },
            Query::Stop => Query::Stop,
            Query::Time => Query::Time,
        })
    }
}
