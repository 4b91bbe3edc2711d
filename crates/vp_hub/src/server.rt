ghost use Rattle.std.specs.Prelude.{◌≡◌, ◌<◌, [], IfOk};
ghost use Rattle.vp_world.specs.History.{most_entries};
ghost use Rattle.vp_hub.specs.Closing.{IsClosed};
ghost use Rattle.vp_hub.specs.Desks.{archive_of};

use crate::accept::{accept_all, await_all};
use crate::archive::LogArchive;
use crate::background::{run_simulation, run_worker};
use crate::close::Closed;
use crate::desk::Desk;
use crate::hub::Hub;
use crate::opens::NamesOpening;
use crate::report::Report;
use crate::server_error::ServerError;
use crate::service::Service;
use crate::settings::Settings;
use std::alloc::Global;
use std::marker::Brand;
use std::net::TcpListener;
use std::sync::Wait;
use std::sync::atomic::Ordering;
use std::sync::ledger::Blank;
use std::thread;
use std::thread::{Scope, Threads};
use std::time::Clock;
use vp_history::History;
use vp_race::Gate;
use vp_world::{CountingArchive, Entry, World};

/// A part for each entry that a log may get, and one more.
const LEDGER_PARTS: u64 = (1 << 62) + 1;

/// Starts the thread of the simulation and those of the workers, and reports whether all could be started.
fn start<
    's,
    'a,
    E,
    L: NamesOpening + Send + Sync,
    R: Threads + Wait + Clock + Sync,
    G: Gate + Report + Sync,
>(rt: &'s R, scope: &'s Scope<'s, E>, service: &'s Service<'a, L, G>) -> bool {
    if scope.spawn(move || run_simulation(rt, service)).is_err() {
        return false;
    }
    for _ in 0..service.settings.workers {
        if scope.spawn(move || run_worker(rt, service)).is_err() {
            return false;
        }
    }
    true
}

/// Serves the connections of a listener, each in a thread, until they have ended; and reports whether the threads could be started that serve
/// all of them.
fn run<
    'a,
    L: NamesOpening + Send + Sync,
    R: Threads + Wait + Clock + Sync,
    G: Gate + Report + Sync,
>(rt: &R, service: &Service<'a, L, G>, listener: &TcpListener) -> bool {
    thread::scope(thread::scope_env(), rt, move |scope| {
        let started = start(rt, scope, service);
        if started {
            accept_all(rt, scope, service, listener);
            await_all(rt, service);
        }
        service.ending.store(true, Ordering::SeqCst);
        service.simulation.unpark();
        started
    })
}

/// What the server hands its log out to.
fn archive_of(settings: &Settings) -> LogArchive
    ensures { result ≡ archive_of settings.now.keep }
{
    if settings.keep {
        LogArchive::Keeping
    } else {
        LogArchive::Counting(CountingArchive { entries: 0 })
    }
}

/// Serves a world in which nothing has happened to the connections of a listener, and gives what is left of it; or reports that a thread
/// can't be started (1606), or why the hub can't be closed (1402).
fn serve_world<
    L: NamesOpening + Send + Sync,
    R: Threads + Wait + Clock + Sync,
    G: Gate + Report + Sync,
>(
    rt: &R,
    alloc: Global,
    blank: Blank,
    history: History<Entry>,
    world: World,
    settings: Settings,
    listener: &TcpListener,
    gate: &G,
) -> Result<Closed, ServerError>
    requires name { blank.name ≡ L.name }
    requires parts { blank.parts ≡ L.parts }
    requires room { most_entries < blank.parts }
    requires opening { world.opening ≡ L.opening }
    requires empty { world.log ≡ [] }
    requires history { history.name ≡ L.history }
    requires begins { history.entries ≡ [] }
    ensures closed { IfOk result (λ closed. IsClosed world.opening closed) }
{
    let archive = archive_of(&settings);
    let hub = Hub::new(alloc, Desk::<L>::new(alloc, blank, history, world, archive));
    let service = Service::new(alloc, settings, hub, gate);
    if !run(rt, &service, listener) {
        return Err(ServerError::NoThread);
    }
    let closed = service.hub.close(Vec::new(alloc))?;
    Ok(closed)
}

/// Serves a world in which nothing has happened to whoever connects to a listener: one thread for each connection, one that lets the
/// simulation run, and workers that search for races. It ends after as many connections as the settings say, or when its operator
/// ends it, and gives what is left of the world, with its log. Refused where the simulation's thread or a worker's can't be started (1606), or where a pass was
/// not handed back (1402).
pub fn serve<R, G>(
    rt: &R,
    alloc: Global,
    world: World,
    settings: Settings,
    listener: &TcpListener,
    gate: &G,
) -> Result<Closed, ServerError>
where
    R: Threads + Wait + Clock + Sync,
    G: Gate + Report + Sync,
    requires empty { world.log ≡ [] }
    ensures closed { IfOk result (λ closed. IsClosed world.opening closed) }
{
    let blank = Blank::new(LEDGER_PARTS);
    let history = History::new();
    serve_world::<Brand, R, G>(rt, alloc, blank, history, world, settings, listener, gate)
}
