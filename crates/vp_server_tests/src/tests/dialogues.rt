//! Clients one by one and side by side.
use crate::tests::clients::{OK, OPEN, connect, is_told, line, send, talk};
use crate::tests::hubs::CLOCKED;
use crate::tests::servers::{Server, beside};
use std::alloc::Global;
use std::net::{Net, TcpStream};
use std::sync::atomic::{AtomicU32, Ordering};
use std::thread;
use std::time::{Clock, Duration};
use vp_hub::{Report, ServerEvent, Settings};
use vp_race::{Gate, OpenGate};

/// The three requests of a short session, and their replies.
const SHORT: [(&str, &str); 3] = [
    (OPEN, OK),
    ("{\"op\":\"time\"}\n", "{\"finished\":false,\"time\":0}\n"),
    ("{\"op\":\"close\"}\n", OK),
];

#[test]
fn one_client(rt: HostRuntime) {
    let alloc = rt.alloc();
    let server = Server::new(24_123, Settings::new(0, 1));
    let (told, talked) = beside(
        &rt,
        alloc,
        CLOCKED,
        server,
        &OpenGate,
        || talk(&rt, alloc, 24_123, &SHORT),
    );
    assert!(rt; talked, "each line is answered");
    assert!(rt; told == Ok(3));
}

/// A gate that holds its first turn until a second is asked, at most 10,000 milliseconds.
#[derive(Drop)]
struct Held<R> {
    rt: R,
    turns: AtomicU32,
    in_time: AtomicU32,
}

impl<R> Report for Held<R> {
    fn goes_round(&self, _process: &str) {}

    fn happened(&self, _address: &str, _event: ServerEvent<'_>) {}

    fn wake(&self) {}
}

impl<R: Clock> Gate for Held<R> {
    ghost stays_open = { λ _. Unit {0} };

    fn turn(&self) -> bool {
        if self.turns.fetch_add(1, Ordering::SeqCst) == 0 {
            for _ in 0..10_000u32 {
                if self.turns.load(Ordering::SeqCst) > 1 {
                    self.in_time.store(1, Ordering::SeqCst);
                    break;
                }
                thread::sleep(&self.rt, Duration::from_millis(1));
            }
        }
        true
    }
}

/// The first client opens its session, and is answered only when the second has been.
fn beside_another<R: Net<Stream = TcpStream> + Clock>(rt: &R, alloc: Global, port: u16) -> bool {
    let Some(first) = connect(rt, port) else {
        return false;
    };
    if send(&first, OPEN).is_none() {
        return false;
    }
    thread::sleep(rt, Duration::from_millis(200));
    if !talk(rt, alloc, port, &SHORT) {
        return false;
    }
    matches!(line(alloc, &first), Some(told) if told.as_slice() == OK.as_bytes())
        && is_told(alloc, &first, "{\"op\":\"close\"}\n", OK)
}

#[test]
fn a_client_beside_one_that_waits(rt: HostRuntime) {
    let alloc = rt.alloc();
    let gate = Held {
        rt,
        turns: AtomicU32::new(0),
        in_time: AtomicU32::new(0),
    };
    let server = Server::new(24_124, Settings::new(0, 2));
    let (told, talked) = beside(
        &rt,
        alloc,
        CLOCKED,
        server,
        &gate,
        || beside_another(&rt, alloc, 24_124),
    );
    assert!(rt; talked, "both are answered");
    assert_eq!(rt; gate.in_time.load(Ordering::SeqCst), 1);
    assert!(rt; told == Ok(5));
}

/// A client sends an opening and a part of a line, and closes.
fn break_off<R: Net<Stream = TcpStream> + Clock>(rt: &R, port: u16) -> bool {
    match connect(rt, port) {
        Some(stream) => send(&stream, OPEN).is_some() && send(&stream, "{\"op\":\"ti").is_some(),
        None => false,
    }
}

#[test]
fn a_line_that_breaks_off(rt: HostRuntime) {
    let alloc = rt.alloc();
    let server = Server::new(24_126, Settings::new(0, 1));
    let (told, sent) = beside(
        &rt,
        alloc,
        CLOCKED,
        server,
        &OpenGate,
        || break_off(&rt, 24_126),
    );
    assert!(rt; sent, "the client has sent all");
    assert!(rt; told == Ok(2));
}
