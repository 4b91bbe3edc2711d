// A server of files.
ghost use Rattle.std.specs.Prelude.{◌≡◌, [], IfOk};
ghost use Rattle.vp_design.specs.Rendering.{plain_text};
ghost use Rattle.vp_script.specs.Failure.{IsToldOr};
ghost use Rattle.vp_hub.specs.ServerFaults as server;

use jiff::Timestamp;
use std::alloc::Global;
use std::io;
use std::net::{Ipv4Addr, Net, TcpListener, TcpStream};
use std::rt::Files;
use std::sync::Wait;
use std::thread::Threads;
use std::time::Clock;
use vp_hub::{Closed, Report, ServerError, ServerEvent, Settings, serve};
use vp_race::Gate;
use vp_script::{Failure, ServeFault, SourceFiles, fresh_world};
use vp_wire::WireError;
use vp_world::World;

/// So many of the last entries of a log that is kept are left to users, once the simulation and its searches are refused.
const FOR_USERS: usize = 61_440;

/// So many after them to the operator and to closes.
const FOR_OPERATOR: usize = 4_032;

/// So many, the last, to closes.
const FOR_CLOSES: usize = 64;

/// So many bytes of texts the entries of a log hold at most: 1 GiB.
const LOG_BYTES: u64 = 1 << 30;

/// A world of the files of a design and a policy, with the greatest limits, in which nothing has happened; or the first fault.
#[tactic(auto, using(crate::proofs::Fresh::log_of))]
fn world_of_files<R: AllocGlobal + Files>(
    rt: &R,
    design: &str,
    policy: &str,
) -> Result<World, Failure>
    ensures empty { IfOk result (λ world. world.log ≡ []) }
{
    let alloc = rt.alloc();
    let files = SourceFiles::read(rt, design, policy)?;
    let sources = files.sources(alloc)?;
    match fresh_world(alloc, sources.design, sources.policy) {
        Ok(world) => Ok(world),
        Err(fault) => Err(sources.refused(alloc, fault)),
    }
}

/// Prints a line; or reports that it can't be printed (1505).
fn print_line<R: AllocGlobal + Print>(rt: &R, word: &str, number: u64) -> Result<(), Failure> {
    match println!(rt; "{word} {number}") {
        Ok(()) => Ok(()),
        Err(_) => {
            let fault = ServeFault::Lines(WireError::WriteFault);
            Err(Failure::new(rt.alloc(), fault))
        }
    }
}

/// A fault of a server.
fn failure_of(alloc: Global, fault: ServerError) -> Failure
    ensures code { result.code ≡ server.code_of fault }
    ensures line { result.line ≡ 0 }
    ensures diagnostic { IsToldOr
        (λ text. text ≡ plain_text (server.code_of fault) (server.words_of fault))
        result.diagnostic }
{
    Failure::plain(alloc, fault.code(), fault.words())
}

/// Listens on a port of 127.0.0.1, and prints `listening` and the port; or reports that it can't be listened on (1605).
fn listen<R>(rt: &R, port: u16) -> Result<TcpListener, Failure>
where
    R: AllocGlobal + Print + Net<Listener = TcpListener, Stream = TcpStream>,
{
    let Ok(listener) = TcpListener::bind(rt, (Ipv4Addr::LOCALHOST, port)) else {
        return Err(failure_of(rt.alloc(), ServerError::ListenFailed));
    };
    print_line(rt, "listening", u64::from(port))?;
    Ok(listener)
}

/// The number of entries of the log of a server that has ended.
fn entry_count(closed: Closed) -> u64 {
    let entries = closed.entry_count();
    // Dropped by a call, so that how it is dropped is no part of this function's proof.
    drop(closed);
    entries
}

/// The standard error of whoever runs a server on a port, and whether he is to read there what happens.
#[derive(Clone, Copy)]
struct Console<'a, R> {
    rt: &'a R,
    port: u16,
    log: bool,
}

impl<R> Gate for Console<'_, R> {
    ghost stays_open = { λ _. Unit {0} };

    fn turn(&self) -> bool {
        true
    }
}

impl<R> Report for Console<'_, R>
where
    R: Eprint + Clock + Net<Listener = TcpListener, Stream = TcpStream>,
{
    fn goes_round(&self, process: &str) {
        let _ = eprintln!(self.rt;
            "{process} goes round: its time slot has 4194304 steps, and stands still until a put"
        );
    }

    fn happened(&self, address: &str, event: ServerEvent<'_>) {
        if !self.log {
            return;
        }
        if let Ok(now) = Timestamp::now(self.rt) {
            let _ = self.log_line(now, address, event);
        }
    }

    fn wake(&self) {
        let _ = TcpStream::connect(self.rt, (Ipv4Addr::LOCALHOST, self.port));
    }
}

impl<R: Eprint> Console<'_, R> {
    /// Prints what happened at a time on a connection from an address.
    fn log_line(&self, now: Timestamp, address: &str, event: ServerEvent<'_>) -> io::Result<()> {
        let rt = self.rt;
        match event {
            ServerEvent::Open { user } => eprintln!(rt; "{now} {address} {user} opened"),
            ServerEvent::Close { user, denials } => {
                eprintln!(rt; "{now} {address} {user} closed, denied {denials}")
            }
            ServerEvent::WrongToken => eprintln!(rt; "{now} {address} wrong token"),
            ServerEvent::Grant { user, envelope } => {
                eprintln!(rt; "{now} {address} operator grants {user} envelope {envelope}")
            }
            ServerEvent::End { user } => eprintln!(rt; "{now} {address} operator ends {user}"),
            ServerEvent::Halt => eprintln!(rt; "{now} {address} operator stops the simulation"),
            ServerEvent::Shutdown => eprintln!(rt; "{now} {address} operator ends the server"),
        }
    }
}

/// Serves a world in which nothing has happened to whoever connects to a listener, and gives the number of the log's entries at the end; or
/// the fault of `vp_hub::serve`.
fn serve_world<R>(
    rt: &R,
    world: World,
    settings: Settings,
    listener: &TcpListener,
    console: &Console<'_, R>,
) -> Result<u64, Failure>
where
    R: AllocGlobal
        + Eprint
        + Net<Listener = TcpListener, Stream = TcpStream>
        + Threads
        + Wait
        + Clock
        + Sync,
    requires empty { world.log ≡ [] }
{
    match serve(rt, rt.alloc(), world, settings, listener, console) {
        Ok(closed) => Ok(entry_count(closed)),
        Err(fault) => Err(failure_of(rt.alloc(), fault)),
    }
}

/// Serves the files of a design and a policy on a port of 127.0.0.1, reporting what happens if that is asked, and prints `listening` and the port before, and `closed` and the number of
/// the log's entries at the end. The faults are first those of reading both, then that the port can't be listened on (1605), and then those of
/// `vp_hub::serve`.
pub fn serve_files<R>(
    rt: &R,
    design: &str,
    policy: &str,
    port: u16,
    settings: Settings,
    log: bool,
) -> Result<(), Failure>
where
    R: AllocGlobal
        + Files
        + Print
        + Eprint
        + Net<Listener = TcpListener, Stream = TcpStream>
        + Threads
        + Wait
        + Clock
        + Sync,
{
    let world = world_of_files(rt, design, policy)?;
    let mut world = world;
    world.limit_bytes(LOG_BYTES);
    if settings.keep {
        world.leave_last(FOR_USERS, FOR_OPERATOR, FOR_CLOSES);
    }
    match listen(rt, port) {
        Ok(listener) => {
            let console = Console { rt, port, log };
            let entries = serve_world(rt, world, settings, &listener, &console)?;
            print_line(rt, "closed", entries)
        }
        Err(refused) => {
            // Dropped by a call, as the log is in `entry_count`.
            drop(world);
            Err(refused)
        }
    }
}
