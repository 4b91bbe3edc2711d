//! The simulation beside the clients.
use crate::tests::clients::{OK, OPEN, are_told, connect, is_told, line, send, talk};
use crate::tests::hubs::CLOCKED;
use crate::tests::servers::{Server, beside};
use std::alloc::Global;
use std::net::{Net, TcpStream};
use std::thread;
use std::time::{Clock, Duration};
use vp_hub::{Limits, Settings};
use vp_race::{BookLimits, OpenGate};

/// A design whose simulation never ends, with an empty envelope.
const ENDLESS: &str = "module top;
`pragma protect begin
`pragma protect end
  reg r;
  initial begin r = 0; forever r = ~r; end
endmodule
";

/// A world whose log has room for some hundred thousand events, which take longer than a client on a busy machine is kept waiting.
const SMALL: Limits = Limits {
    log: 400_000,
    for_users: 0,
    for_operator: 0,
    for_closes: 0,
    bytes: None,
    book: BookLimits {
        races: 16,
        steps: 1_000,
    },
    sessions: 64,
};

/// How often a request is answered beside an endless simulation, until the log is full.
fn ask_on(alloc: Global, stream: &TcpStream) -> Option<u32> {
    for count in 0..400_000u32 {
        send(stream, "{\"op\":\"time\"}\n")?;
        let told = line(alloc, stream)?;
        if told.as_slice() == "{\"error\":\"log full\"}\n".as_bytes() {
            return Some(count);
        }
        if told.as_slice() != "{\"finished\":false,\"time\":0}\n".as_bytes() {
            return None;
        }
    }
    None
}

/// A client lets an endless simulation run, and asks on.
fn ask_beside<R: Net<Stream = TcpStream> + Clock>(rt: &R, alloc: Global, port: u16) -> Option<u32> {
    let stream = connect(rt, port)?;
    if !is_told(alloc, &stream, OPEN, OK) {
        return None;
    }
    if !is_told(alloc, &stream, "{\"op\":\"run\",\"until\":0}\n", OK) {
        return None;
    }
    ask_on(alloc, &stream)
}

#[test]
fn an_endless_simulation(rt: HostRuntime) {
    let alloc = rt.alloc();
    let settings = Settings {
        keep: true,
        ..Settings::new(2, 1)
    };
    let server = Server {
        limits: SMALL,
        ..Server::new(24_140, settings)
    };
    let (told, asked) = beside(
        &rt,
        alloc,
        ENDLESS,
        server,
        &OpenGate,
        || ask_beside(&rt, alloc, 24_140),
    );
    assert!(rt;
        matches!(asked, Some(count) if count > 0),
        "requests are answered meanwhile"
    );
    assert!(rt; told == Ok(400_000));
}

/// Bob opens his session.
const OPEN_OF_BOB: &str = "{\"op\":\"open\",\"user\":\"bob\",\"token\":\"t2\"}\n";

/// Ann gives `top.c` the value z.
const PUT: [(&str, &str); 2] = [
    ("{\"op\":\"handle\",\"name\":\"top.c\"}\n", "{\"h\":1}\n"),
    ("{\"op\":\"put\",\"h\":1,\"value\":\"z\"}\n", OK),
];

/// Bob reads `top.u.k`, and then `top.c`.
const READ: [(&str, &str); 4] = [
    ("{\"op\":\"handle\",\"name\":\"top.u.k\"}\n", "{\"h\":1}\n"),
    ("{\"op\":\"value\",\"h\":1}\n", "{\"value\":\"1\"}\n"),
    ("{\"op\":\"handle\",\"name\":\"top.c\"}\n", "{\"h\":2}\n"),
    ("{\"op\":\"value\",\"h\":2}\n", "{\"value\":\"z\"}\n"),
];

/// One client lets the design run, and another waits until the time is 5, and reads what the first put.
fn share<R: Net<Stream = TcpStream> + Clock>(rt: &R, alloc: Global, port: u16) -> bool {
    let (Some(ann), Some(bob)) = (connect(rt, port), connect(rt, port)) else {
        return false;
    };
    are_told(alloc, &ann, &[(OPEN, OK)])
        && are_told(alloc, &bob, &[(OPEN_OF_BOB, OK)])
        && are_told(alloc, &ann, &[("{\"op\":\"run\",\"until\":10}\n", OK)])
        && has_come(rt, alloc, &bob)
        && are_told(alloc, &ann, &PUT)
        && are_told(alloc, &bob, &READ)
}

/// Waits until the time is 5, at most ten seconds.
fn has_come<R: Clock>(rt: &R, alloc: Global, stream: &TcpStream) -> bool {
    for _ in 0..1_000u32 {
        if is_told(
            alloc,
            stream,
            "{\"op\":\"time\"}\n",
            "{\"finished\":false,\"time\":5}\n",
        ) {
            return true;
        }
        thread::sleep(rt, Duration::from_millis(10));
    }
    false
}

#[test]
fn users_share_a_simulation(rt: HostRuntime) {
    let alloc = rt.alloc();
    let server = Server::new(24_141, Settings::new(2, 2));
    let (told, right) = beside(
        &rt,
        alloc,
        CLOCKED,
        server,
        &OpenGate,
        || share(&rt, alloc, 24_141),
    );
    assert!(rt; right, "both see one simulation");
    assert!(rt; told.is_ok());
}

/// A client lets the design run, after the simulation's thread has found nothing to do.
fn run_after_rest<R: Net<Stream = TcpStream> + Clock>(rt: &R, alloc: Global, port: u16) -> bool {
    let Some(stream) = connect(rt, port) else {
        return false;
    };
    if !is_told(alloc, &stream, OPEN, OK) {
        return false;
    }
    thread::sleep(rt, Duration::from_millis(200));
    is_told(alloc, &stream, "{\"op\":\"run\",\"until\":10}\n", OK) && has_come(rt, alloc, &stream)
}

#[test]
fn a_run_wakes_the_simulation(rt: HostRuntime) {
    let alloc = rt.alloc();
    let settings = Settings {
        simulation_rest: Duration::from_secs(600),
        ..Settings::new(0, 1)
    };
    let server = Server::new(24_143, settings);
    let (told, right) = beside(
        &rt,
        alloc,
        CLOCKED,
        server,
        &OpenGate,
        || run_after_rest(&rt, alloc, 24_143),
    );
    assert!(rt; right, "it does not sleep on");
    assert!(rt; told.is_ok());
}

/// Hundred connections one after another, each with a session.
fn come_and_go<R: Net<Stream = TcpStream> + Clock>(rt: &R, alloc: Global, port: u16) -> bool {
    for _ in 0..100u32 {
        if !talk(rt, alloc, port, &[(OPEN, OK)]) {
            return false;
        }
    }
    true
}

#[test]
fn connections_one_after_another(rt: HostRuntime) {
    let alloc = rt.alloc();
    let server = Server::new(24_142, Settings::new(2, 100));
    let (told, right) = beside(
        &rt,
        alloc,
        CLOCKED,
        server,
        &OpenGate,
        || come_and_go(&rt, alloc, 24_142),
    );
    assert!(rt; right, "each is answered");
    assert!(rt; told == Ok(200));
}
