//! What can happen, by its kind.
use std::fmt;
use vp_world::{Entry, Log, LoggedEvent};

/// The kind of what happened.
#[derive(Clone, Copy, Debug, PartialEq, Eq)]
pub enum Kind {
    Open,
    Ask,
    Put,
    Close,
    Grant,
    End,
    Halt,
    Step,
    Advance,
    TakeJob,
    Book,
}

/// Each kind.
pub const KINDS: [Kind; 11] = [
    Kind::Open,
    Kind::Ask,
    Kind::Put,
    Kind::Close,
    Kind::Grant,
    Kind::End,
    Kind::Halt,
    Kind::Step,
    Kind::Advance,
    Kind::TakeJob,
    Kind::Book,
];

/// The kinds of which each load has something.
pub const WANTED: [Kind; 7] = [
    Kind::Open,
    Kind::Ask,
    Kind::Put,
    Kind::Close,
    Kind::Grant,
    Kind::Step,
    Kind::Advance,
];

impl fmt::Display for Kind {
    fn fmt<W: fmt::Write>(&self, f: &mut fmt::Formatter<W>) -> fmt::Result {
        f.write_str(match self {
            Kind::Open => "open",
            Kind::Ask => "ask",
            Kind::Put => "put",
            Kind::Close => "close",
            Kind::Grant => "grant",
            Kind::End => "end",
            Kind::Halt => "stop",
            Kind::Step => "step",
            Kind::Advance => "advance",
            Kind::TakeJob => "job",
            Kind::Book => "race",
        })
    }
}

/// The kind of what happened.
fn kind_of(happening: &LoggedEvent) -> Kind {
    match happening {
        LoggedEvent::Open { .. } => Kind::Open,
        LoggedEvent::Ask { .. } => Kind::Ask,
        LoggedEvent::Put { .. } => Kind::Put,
        LoggedEvent::Close { .. } => Kind::Close,
        LoggedEvent::Grant { .. } => Kind::Grant,
        LoggedEvent::End { .. } => Kind::End,
        LoggedEvent::Halt { .. } => Kind::Halt,
        LoggedEvent::Step { .. } | LoggedEvent::StepWithChange { .. } => Kind::Step,
        LoggedEvent::Advance => Kind::Advance,
        LoggedEvent::TakeJob { .. } => Kind::TakeJob,
        LoggedEvent::Book { .. } => Kind::Book,
    }
}

/// So many entries of a log are of a kind.
pub fn count(log: &Log, kind: Kind) -> usize {
    let mut count = 0usize;
    for index in 0..log.len() {
        let mut made = Entry::blank();
        if kind_of(&log.entry(index, &mut made).happening) == kind {
            count = count.saturating_add(1);
        }
    }
    count
}
