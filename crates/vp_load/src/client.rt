//! The clients.
use crate::asker::Asker;
use crate::pace::Pace;
use crate::talk::Talk;
use crate::texts::RUNNER;
use crate::words::Load;
use std::alloc::Global;
use std::net::TcpStream;
use std::time::{Clock, Duration, Instant};
use std::{io, thread};

/// So often it is asked whether the simulation has come to its goal, ten milliseconds apart.
const TRIES: u32 = 1_000;

/// A client, connected.
#[derive(Drop)]
pub struct Client {
    /// The number of its user.
    pub number: u64,
    pub stream: TcpStream,
}

impl Client {
    /// Opens a session, asks until the time is over, and closes it; gives the lines that were answered, in order, byte by byte.
    pub fn talk<R: Clock>(
        &self,
        rt: &R,
        alloc: Global,
        start: Instant,
        load: Load,
    ) -> io::Result<Vec<u8>> {
        let number = self.number;
        let mut talk = Talk::new(alloc, &self.stream)?;
        let open = format!(in alloc;
            "{{\"op\":\"open\",\"user\":\"u{number}\",\"token\":\"t{number}\"}}\n"
        )?;
        talk.ask(&open)?;
        let pace = Pace::of_client(start, load, number);
        let goal = self.ask_on(rt, alloc, &mut talk, pace, load)?;
        if goal > 0 {
            await_goal(rt, alloc, &mut talk, goal)?;
        }
        talk.ask("{\"op\":\"close\"}\n")?;
        Ok(talk.transcript)
    }

    /// Asks at each turn, until the time is over. Who lets the design run raises the goal a little before he asks; the last goal is given, or 0.
    fn ask_on<R: Clock>(
        &self,
        rt: &R,
        alloc: Global,
        talk: &mut Talk<'_>,
        pace: Pace,
        load: Load,
    ) -> io::Result<u64> {
        let mut asker = Asker::new(self.number);
        let mut goal = 0;
        for turn in 0..u64::MAX {
            if !pace.await_turn(rt, turn)? {
                break;
            }
            if self.number == RUNNER {
                goal = pace.goal(rt, load)?;
                let run = format!(in alloc; "{{\"op\":\"run\",\"until\":{goal}}}\n")?;
                talk.ask(&run)?;
            }
            let line = asker.line(alloc, turn)?;
            asker.hear(&talk.ask(&line)?);
        }
        Ok(goal)
    }
}

/// Waits until the simulation has come to a goal, at most ten seconds.
fn await_goal<R: Clock>(rt: &R, alloc: Global, talk: &mut Talk<'_>, goal: u64) -> io::Result<()> {
    let there = format!(in alloc; "{{\"finished\":false,\"time\":{goal}}}\n")?;
    for _ in 0..TRIES {
        if talk.ask("{\"op\":\"time\"}\n")?.as_slice() == there.as_bytes() {
            break;
        }
        thread::sleep(rt, Duration::from_millis(10));
    }
    Ok(())
}
