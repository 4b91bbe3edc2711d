//! Loads a server with 64 clients and an operator over sockets of 127.0.0.1, and compares what each was shown with the server's log.
//! `vp_load PORT MILLISECONDS ENTRIES` serves a world on a port, lets its clients ask for so many milliseconds, and paces them and the
//! simulation so that about so many entries come to the log in a second. Then it changes this and that of what was shown, which the comparison must find. It
//! prints `right` (status 0), or `wrong: ` and what first differs (status 1); on standard error it reports how many entries there were. Ten minutes, in which about 3,000,000 entries come to the log, of
//! 4,194,304 at most:
//!
//!     vp_load 46153 600000 5000
#![tactic(auto)]

ghost use Rattle.std.specs.Arc.{arc_value};
ghost use Rattle.vp_load.specs.Logs.{AreWellFormed};

mod asker;
mod client;
mod compare;
mod difference;
mod happening;
mod kinds;
mod load;
mod operator;
mod pace;
mod serving;
mod talk;
mod texts;
mod trials;
mod words;

use crate::compare::compare;
use crate::difference::Difference;
use crate::kinds::{KINDS, count};
use crate::serving::{LoadedServer, serve_load};
use crate::texts::design;
use crate::trials::first_missed;
use crate::words::{Load, USAGE, load_of};
use std::net::{Net, TcpListener, TcpStream};
use std::process::ExitCode;
use std::sync::{Arc, Wait};
use std::thread::Threads;
use std::time::Clock;
use std::{env, io};
use vp_expr::Checked;
use vp_world::Log;

/// Reports on standard error how many entries a log has, of which kinds, and how many came in a second.
fn tell_entries<R: Eprint>(rt: &R, log: &Log, milliseconds: u64) -> io::Result<()> {
    for kind in KINDS {
        let entries = count(log, kind);
        eprintln!(rt; "{kind}: {entries}")?;
    }
    let entries = log.len() as u64;
    let milliseconds = milliseconds.max(1);
    let rate = entries.saturating_mul(1_000) / milliseconds;
    eprintln!(rt; "{entries} entries in {milliseconds} ms, {rate} a second")
}

/// Compares what was shown with the log of a server that has ended, and tries whether the comparison finds what differs.
#[tactic(auto, using(crate::proofs::Legal::formed_rest))]
fn compare_server<R: AllocGlobal + Eprint>(
    rt: &R,
    checked: &Arc<Checked>,
    server: &mut LoadedServer,
) -> Result<(), Difference>
    requires { AreWellFormed (arc_value checked.now) server.old.closed.world.log }
{
    let alloc = rt.alloc();
    let log = server.closed.log();
    let transcripts = &mut server.transcripts;
    tell_entries(rt, log, transcripts.milliseconds)?;
    compare(alloc, checked, log, transcripts)?;
    match first_missed(alloc, checked, log, transcripts) {
        Some(change) => Err(Difference::Missed(change)),
        None => Ok(()),
    }
}

/// Loads a server, and compares what was shown with its log.
fn run_load<R>(rt: &R, load: Load) -> Result<(), Difference>
where
    R: AllocGlobal
        + Eprint
        + Net<Listener = TcpListener, Stream = TcpStream>
        + Threads
        + Wait
        + Clock
        + Sync,
{
    let alloc = rt.alloc();
    let Some(checked) = design(alloc) else {
        return Err(Difference::NoWorld);
    };
    let mut server = serve_load(rt, alloc, &checked, load)?;
    let verdict = compare_server(rt, &checked, &mut server);
    drop(server);
    verdict
}

/// Prints a verdict; the status is 0 where nothing differs, else 1.
fn print_verdict<R: Print>(rt: &R, verdict: Result<(), Difference>) -> io::Result<ExitCode> {
    match verdict {
        Ok(()) => {
            println!(rt; "right")?;
            Ok(ExitCode::SUCCESS)
        }
        Err(difference) => {
            println!(rt; "wrong: {difference}")?;
            Ok(ExitCode::FAILURE)
        }
    }
}

fn main(rt: HostRuntime) -> io::Result<ExitCode> {
    let words: Vec<String> = env::args(&rt)?.collect(rt.alloc())?;
    let Some(load) = load_of(&words) else {
        rt.eprint(USAGE)?;
        return Ok(ExitCode::from(2));
    };
    print_verdict(&rt, run_load(&rt, load))
}
