//! A server and its clients in one process.
ghost use Rattle.std.specs.Prelude.{IfOk};
ghost use Rattle.std.specs.Arc.{arc_value};
ghost use Rattle.vp_load.specs.Logs.{AreWellFormed};

use crate::difference::Difference;
use crate::load::{Transcripts, load_port};
use crate::texts::{CLIENTS, world_of};
use crate::words::Load;
use std::alloc::Global;
use std::net::{Ipv4Addr, Net, TcpListener, TcpStream};
use std::sync::{Arc, Wait};
use std::thread::{Threads, join};
use std::time::Clock;
use vp_expr::Checked;
use vp_hub::{Closed, Settings, serve};
use vp_race::OpenGate;
use vp_world::Limits;

/// So many threads search for races.
const WORKERS: u32 = 2;

/// So many connections the server has: those of the users and the operator's.
const CONNECTIONS: u32 = CLIENTS as u32 + 1;

/// A server that has ended, and what those who loaded it were shown.
#[derive(Drop)]
pub struct LoadedServer {
    pub closed: Closed,
    pub transcripts: Transcripts,
}

/// Serves a world of the design and the policy to whoever connects to a listener, until as many connections as there are clients, and the
/// operator's, have ended.
fn serve_clients<R: Threads + Wait + Clock + Sync>(
    rt: &R,
    alloc: Global,
    checked: &Arc<Checked>,
    listener: &TcpListener,
) -> Result<Closed, Difference>
    ensures { IfOk result
        (λ closed. AreWellFormed (arc_value checked.now) closed.world.log) }
{
    let Some(world) = world_of(alloc, checked, Limits::GREATEST) else {
        return Err(Difference::NoWorld);
    };
    let settings = Settings {
        keep: true,
        ..Settings::new(WORKERS, CONNECTIONS)
    };
    let closed = serve(rt, alloc, world, settings, listener, &OpenGate)?;
    Ok(closed)
}

/// Serves on the port of a load, and lets the clients and the operator load the server. Nothing is done where the port can't be listened on.
pub fn serve_load<R>(
    rt: &R,
    alloc: Global,
    checked: &Arc<Checked>,
    load: Load,
) -> Result<LoadedServer, Difference>
where
    R: Net<Listener = TcpListener, Stream = TcpStream> + Threads + Wait + Clock + Sync,
    ensures { IfOk result
        (λ server. AreWellFormed (arc_value checked.now) server.closed.world.log) }
{
    let Ok(listener) = TcpListener::bind(rt, (Ipv4Addr::LOCALHOST, load.port)) else {
        return Err(Difference::NoListener);
    };
    let (transcripts, closed) = join(
        rt,
        || load_port(rt, alloc, load),
        || serve_clients(rt, alloc, checked, &listener),
    );
    Ok(LoadedServer {
        closed: closed?,
        transcripts: transcripts?,
    })
}
