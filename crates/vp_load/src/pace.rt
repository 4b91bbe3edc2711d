//! When requests are due.
use crate::texts::{CLIENTS, ENTRIES_IN_UNIT};
use crate::words::Load;
use std::time::{Clock, Duration, Instant};
use std::{io, thread};

/// A client takes at least so many turns, whatever the time.
const LEAST_TURNS: u64 = 4;

/// Microseconds in a second.
const SECOND: u64 = 1_000_000;

/// When a client or the operator takes his turns, in microseconds from a start on.
#[derive(Clone, Copy)]
pub struct Pace {
    start: Instant,
    /// The first turn.
    first: u64,
    /// From a turn to the next.
    interval: u64,
    /// No turn is taken then any more.
    end: u64,
}

impl Pace {
    /// The turns of the client of a number: half of the entries of a second are the clients'.
    pub fn of_client(start: Instant, load: Load, number: u64) -> Pace {
        let interval = CLIENTS * 2 * SECOND / load.entries.max(1);
        Pace {
            start,
            first: (interval / CLIENTS).saturating_mul(number % CLIENTS),
            interval,
            end: load.milliseconds.saturating_mul(1_000),
        }
    }

    /// The turns of the operator, ten in a second.
    pub fn of_operator(start: Instant, load: Load) -> Pace {
        Pace {
            start,
            first: 0,
            interval: SECOND / 10,
            end: load.milliseconds.saturating_mul(1_000),
        }
    }

    /// Waits until a turn is due, and reports whether it is to be taken.
    pub fn await_turn<R: Clock>(&self, rt: &R, turn: u64) -> io::Result<bool> {
        let due = self
            .interval
            .saturating_mul(turn)
            .saturating_add(self.first);
        let due = Duration::from_micros(due);
        let elapsed = self.start.elapsed(rt)?;
        if turn < LEAST_TURNS {
            thread::sleep(rt, due.saturating_sub(elapsed));
            return Ok(true);
        }
        let end = Duration::from_micros(self.end);
        if due >= end || elapsed >= end {
            return Ok(false);
        }
        thread::sleep(rt, due.saturating_sub(elapsed));
        Ok(true)
    }

    /// The time to which the simulation is to come till the next turn but one, in time units, so that the other half of the entries are its.
    pub fn goal<R: Clock>(&self, rt: &R, load: Load) -> io::Result<u64> {
        let elapsed = self.start.elapsed(rt)?.as_micros();
        let until = u64::try_from(elapsed)
            .unwrap_or(self.end)
            .saturating_add(self.interval.saturating_mul(2));
        let units = until.saturating_mul(load.entries) / (2 * ENTRIES_IN_UNIT * SECOND);
        Ok(units.saturating_add(1))
    }
}
