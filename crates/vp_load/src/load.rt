//! The clients and the operator side by side.
use crate::client::Client;
use crate::operator::{Order, operate};
use crate::texts::CLIENTS;
use crate::words::Load;
use std::alloc::Global;
use std::net::{Ipv4Addr, Net, TcpStream};
use std::thread::Threads;
use std::time::{Clock, Duration, Instant};
use std::{io, thread};

/// So many seconds a client waits for a reply.
const PATIENCE: u64 = 100;

/// What the clients and the operator were shown.
#[derive(Drop)]
pub struct Transcripts {
    /// Of each user, by his number from 1, the lines that answered his session's, byte by byte.
    pub users: Vec<Vec<u8>>,
    /// What the operator ordered, in order.
    pub orders: Vec<Order>,
    /// How long that took.
    pub milliseconds: u64,
}

/// Connects to a port on which a server listens.
fn connect<R: Net<Stream = TcpStream>>(rt: &R, port: u16) -> io::Result<TcpStream> {
    let stream = TcpStream::connect(rt, (Ipv4Addr::LOCALHOST, port))?;
    stream.set_nodelay(true)?;
    stream.set_read_timeout(Some(Duration::from_secs(PATIENCE)))?;
    Ok(stream)
}

/// Connects the clients to a port.
fn connect_all<R: Net<Stream = TcpStream>>(
    rt: &R,
    alloc: Global,
    port: u16,
) -> io::Result<Vec<Client>> {
    let mut clients = Vec::new(alloc);
    for number in 1..=CLIENTS {
        let stream = connect(rt, port)?;
        clients.push(Client { number, stream })?;
    }
    Ok(clients)
}

/// Lets the clients talk, each in a thread of its own, and gives what they were shown.
fn talk_all<R: Threads + Clock + Sync>(
    rt: &R,
    alloc: Global,
    clients: Vec<Client>,
    start: Instant,
    load: Load,
) -> io::Result<Vec<Vec<u8>>> {
    let transcripts = thread::map_vec(
        rt,
        clients,
        &|client: Client| client.talk(rt, alloc, start, load),
    )?;
    let mut users = Vec::new(alloc);
    for transcript in transcripts {
        users.push(transcript?)?;
    }
    Ok(users)
}

/// Lets the clients talk, and the operator beside them.
fn talk_beside<R: Threads + Clock + Sync>(
    rt: &R,
    alloc: Global,
    clients: Vec<Client>,
    operator: TcpStream,
    load: Load,
) -> io::Result<Transcripts> {
    let start = Instant::now(rt)?;
    let (orders, users) = thread::join(
        rt,
        || operate(rt, alloc, &operator, start, load),
        || talk_all(rt, alloc, clients, start, load),
    );
    let elapsed = start.elapsed(rt)?.as_millis();
    Ok(Transcripts {
        users: users?,
        orders: orders?,
        milliseconds: u64::try_from(elapsed).unwrap_or(u64::MAX),
    })
}

/// Loads the server that listens on the port of a load, and gives what was shown.
pub fn load_port<R: Net<Stream = TcpStream> + Threads + Clock + Sync>(
    rt: &R,
    alloc: Global,
    load: Load,
) -> io::Result<Transcripts> {
    let clients = connect_all(rt, alloc, load.port)?;
    let operator = connect(rt, load.port)?;
    talk_beside(rt, alloc, clients, operator, load)
}
