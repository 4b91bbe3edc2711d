//! Clients that are silent, that read nothing, and that are too many.
use crate::tests::clients::{OK, OPEN, connect, is_ended, is_told, send, talk};
use crate::tests::hubs::CLOCKED;
use crate::tests::servers::{Server, beside};
use std::alloc::Global;
use std::net::{Net, TcpStream};
use std::thread;
use std::time::{Clock, Duration, Instant};
use vp_hub::Settings;
use vp_race::OpenGate;

/// A server whose clients have a few seconds to open a session, and to read.
fn impatient(sessions: u32) -> Settings {
    Settings {
        opening_time: Duration::from_secs(4),
        reading_silence: Duration::from_secs(2),
        ..Settings::new(0, sessions)
    }
}

/// A client that says nothing is ended; one that has opened its session may be silent.
fn be_silent<R: Net<Stream = TcpStream> + Clock>(rt: &R, alloc: Global, port: u16) -> bool {
    let (Some(silent), Some(opened)) = (connect(rt, port), connect(rt, port)) else {
        return false;
    };
    if !is_told(alloc, &opened, OPEN, OK) {
        return false;
    }
    thread::sleep(rt, Duration::from_secs(6));
    is_ended(&silent) && is_told(alloc, &opened, "{\"op\":\"close\"}\n", OK)
}

#[test]
fn silent_clients(rt: HostRuntime) {
    let alloc = rt.alloc();
    let server = Server::new(24_130, impatient(2));
    let (told, right) = beside(
        &rt,
        alloc,
        CLOCKED,
        server,
        &OpenGate,
        || be_silent(&rt, alloc, 24_130),
    );
    assert!(rt; right, "the silent one is ended, and the other is not");
    assert!(rt; told == Ok(2));
}

/// A client sends a byte in each second, and then opens its session, to which the server must not have waited.
fn drip<R: Net<Stream = TcpStream> + Clock>(rt: &R, alloc: Global, port: u16) -> bool {
    let Some(stream) = connect(rt, port) else {
        return false;
    };
    for _ in 0..8u32 {
        let _sent = send(&stream, " ");
        thread::sleep(rt, Duration::from_secs(1));
    }
    !is_told(alloc, &stream, OPEN, OK)
}

#[test]
fn a_slow_client(rt: HostRuntime) {
    let alloc = rt.alloc();
    let server = Server::new(24_134, impatient(1));
    let (told, ended) = beside(
        &rt,
        alloc,
        CLOCKED,
        server,
        &OpenGate,
        || drip(&rt, alloc, 24_134),
    );
    assert!(rt; ended, "the server ends the connection");
    assert!(rt; told == Ok(0));
}

/// The operator takes all rights but one from Bob in the envelope.
const GRANT: &str =
    "{\"op\":\"grant\",\"token\":\"op\",\"user\":\"bob\",\"envelope\":1,\"access\":\"list\"}\n";

/// The operator changes a grant, and may be silent from then on.
fn be_operator<R: Net<Stream = TcpStream> + Clock>(rt: &R, alloc: Global, port: u16) -> bool {
    let Some(stream) = connect(rt, port) else {
        return false;
    };
    if !is_told(alloc, &stream, GRANT, OK) {
        return false;
    }
    thread::sleep(rt, Duration::from_secs(6));
    is_told(alloc, &stream, GRANT, OK)
}

#[test]
fn a_silent_operator(rt: HostRuntime) {
    let alloc = rt.alloc();
    let server = Server::new(24_135, impatient(1));
    let (told, right) = beside(
        &rt,
        alloc,
        CLOCKED,
        server,
        &OpenGate,
        || be_operator(&rt, alloc, 24_135),
    );
    assert!(rt; right, "the connection is not ended");
    assert!(rt; told == Ok(2));
}

/// So many seconds a client waits until what it sends is taken.
const PATIENCE: u64 = 20;

/// A client opens a session, sends lines that are no requests and reads no reply, until the server has ended the connection: sooner than the client
/// waits until a line is taken.
fn read_nothing<R: Net<Stream = TcpStream> + Clock>(rt: &R, alloc: Global, port: u16) -> bool {
    let Some(stream) = connect(rt, port) else {
        return false;
    };
    let _set = stream.set_write_timeout(Some(Duration::from_secs(PATIENCE)));
    if !is_told(alloc, &stream, OPEN, OK) {
        return false;
    }
    for _ in 0..2_000_000u32 {
        let Ok(start) = Instant::now(rt) else {
            return false;
        };
        if send(&stream, "{}\n{}\n{}\n{}\n").is_none() {
            return matches!(start.elapsed(rt), Ok(elapsed) if elapsed.as_secs() < PATIENCE);
        }
    }
    false
}

#[test]
fn a_client_that_reads_nothing(rt: HostRuntime) {
    let alloc = rt.alloc();
    let server = Server::new(24_131, impatient(1));
    let (told, ended) = beside(
        &rt,
        alloc,
        CLOCKED,
        server,
        &OpenGate,
        || read_nothing(&rt, alloc, 24_131),
    );
    assert!(rt; ended, "the server ends the connection");
    assert!(rt; told == Ok(2));
}

/// So many clients, of whom each has opened a session.
fn open_all<R: Net<Stream = TcpStream> + Clock>(
    rt: &R,
    alloc: Global,
    port: u16,
    count: usize,
) -> Option<Vec<TcpStream>> {
    let mut clients = Vec::new(alloc);
    for _ in 0..count {
        let stream = connect(rt, port)?;
        if !is_told(alloc, &stream, OPEN, OK) {
            return None;
        }
        clients.push(stream).ok()?;
    }
    Some(clients)
}

/// Each of the clients is answered; one more is answered that there are too many sessions.
fn be_many<R: Net<Stream = TcpStream> + Clock>(rt: &R, alloc: Global, port: u16) -> bool {
    let Some(clients) = open_all(rt, alloc, port, 64) else {
        return false;
    };
    if !talk(
        rt,
        alloc,
        port,
        &[(OPEN, "{\"error\":\"sessions full\"}\n")],
    ) {
        return false;
    }
    for client in &clients {
        if !is_told(alloc, client, "{\"op\":\"close\"}\n", OK) {
            return false;
        }
    }
    true
}

#[test]
fn sixty_five_sessions(rt: HostRuntime) {
    let alloc = rt.alloc();
    let server = Server::new(24_132, Settings::new(0, 65));
    let (told, right) = beside(
        &rt,
        alloc,
        CLOCKED,
        server,
        &OpenGate,
        || be_many(&rt, alloc, 24_132),
    );
    assert!(rt; right, "64 sessions are opened and answered");
    assert!(rt; told == Ok(128));
}

/// So many clients that say nothing.
fn connect_all<R: Net<Stream = TcpStream> + Clock>(
    rt: &R,
    alloc: Global,
    port: u16,
    count: usize,
) -> Option<Vec<TcpStream>> {
    let mut clients = Vec::new(alloc);
    for _ in 0..count {
        clients.push(connect(rt, port)?).ok()?;
    }
    Some(clients)
}

/// 256 clients say nothing; one more is dropped at once.
fn be_too_many<R: Net<Stream = TcpStream> + Clock>(rt: &R, alloc: Global, port: u16) -> bool {
    let Some(clients) = connect_all(rt, alloc, port, 256) else {
        return false;
    };
    thread::sleep(rt, Duration::from_millis(500));
    let Some(beyond) = connect(rt, port) else {
        return false;
    };
    let Some(first) = clients.first() else {
        return false;
    };
    is_ended(&beyond) && is_told(alloc, first, OPEN, OK)
}

#[test]
fn a_connection_too_many(rt: HostRuntime) {
    let alloc = rt.alloc();
    let server = Server::new(24_133, Settings::new(0, 257));
    let (told, right) = beside(
        &rt,
        alloc,
        CLOCKED,
        server,
        &OpenGate,
        || be_too_many(&rt, alloc, 24_133),
    );
    assert!(rt; right, "the one too many is dropped");
    assert!(rt; told == Ok(2));
}
