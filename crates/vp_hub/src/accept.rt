use crate::background::rest;
use crate::connection::serve_connection;
use crate::opens::NamesOpening;
use crate::report::Report;
use crate::service::Service;
use std::net::{TcpListener, TcpStream};
use std::sync::Wait;
use std::sync::atomic::Ordering;
use std::thread::{Scope, Threads};
use std::time::Clock;
use vp_race::Gate;

/// So many connections are open at most.
pub(crate) const CONNECTION_LIMIT: usize = 256;

/// Gives a connection a thread, unless there are too many connections, or there is no memory or no thread for it: then it is dropped.
fn accept<
    's,
    'a,
    E,
    L: NamesOpening + Send + Sync,
    R: Threads + Wait + Clock + Sync,
    G: Gate + Report + Sync,
>(rt: &'s R, scope: &'s Scope<'s, E>, service: &'s Service<'a, L, G>, stream: TcpStream) {
    if service.connections.load(Ordering::SeqCst) >= CONNECTION_LIMIT {
        return;
    }
    service.connections.fetch_add(1, Ordering::SeqCst);
    if scope
        .spawn(move || serve_connection(rt, service, stream))
        .is_err()
    {
        service.connections.fetch_sub(1, Ordering::SeqCst);
    }
}

/// Accepts connections, each in a thread of its own, until there were as many as the server is to have, or it is to end. One that can't be accepted
/// counts.
pub(crate) fn accept_all<
    's,
    'a,
    E,
    L: NamesOpening + Send + Sync,
    R: Threads + Wait + Clock + Sync,
    G: Gate + Report + Sync,
>(rt: &'s R, scope: &'s Scope<'s, E>, service: &'s Service<'a, L, G>, listener: &TcpListener) {
    let mut accepted = 0u32;
    for stream in listener.incoming() {
        if service.ending.load(Ordering::SeqCst) {
            break;
        }
        match stream {
            Ok(stream) => accept(rt, scope, service, stream),
            Err(_) => rest(rt),
        }
        accepted = accepted.saturating_add(1);
        if accepted == service.settings.sessions {
            break;
        }
    }
}

/// Waits until no connection is open.
pub(crate) fn await_all<L: NamesOpening, R: Wait + Clock, G: Gate>(
    rt: &R,
    service: &Service<'_, L, G>,
) {
    for _ in rt.forever() {
        if service.connections.load(Ordering::SeqCst) == 0 {
            break;
        }
        rest(rt);
    }
}
