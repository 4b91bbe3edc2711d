//! Clients of a server.
use std::alloc::Global;
use std::io::{Read, Write};
use std::net::{Ipv4Addr, Net, TcpStream};
use std::thread;
use std::time::{Clock, Duration};

/// Ann opens her session.
pub const OPEN: &str = "{\"op\":\"open\",\"user\":\"ann\",\"token\":\"t1\"}\n";

/// What is answered to what is done.
pub const OK: &str = "{\"ok\":true}\n";

/// So often a client tries to connect, ten milliseconds apart.
const TRIES: u32 = 1_000;

/// The greatest length of a reply, in bytes.
const REPLY_LIMIT: u32 = 65_536;

/// The stream has a server at its other end. Where nobody listens on a port, the system may connect a client to itself.
fn has_server(stream: &TcpStream) -> bool {
    match (stream.local_addr(), stream.peer_addr()) {
        (Ok(own), Ok(other)) => own != other,
        _ => false,
    }
}

/// Connects to a port, on which a server may only listen soon.
pub fn connect<R: Net<Stream = TcpStream> + Clock>(rt: &R, port: u16) -> Option<TcpStream> {
    for _ in 0..TRIES {
        match TcpStream::connect(rt, (Ipv4Addr::LOCALHOST, port)) {
            Ok(stream) if has_server(&stream) => return Some(stream),
            _ => thread::sleep(rt, Duration::from_millis(10)),
        }
    }
    None
}

/// Sends some bytes.
pub fn send(stream: &TcpStream, text: &str) -> Option<()> {
    let mut writer = stream;
    writer.write_all(text.as_bytes()).ok()
}

/// The next line of the server, with its newline; less where the connection ends.
pub fn line(alloc: Global, stream: &TcpStream) -> Option<Vec<u8>> {
    let mut reader = stream;
    let mut bytes = Vec::new(alloc);
    for _ in 0..REPLY_LIMIT {
        let mut byte = [0u8];
        if reader.read(&mut byte).ok()? == 0 {
            return Some(bytes);
        }
        bytes.push(byte[0]).ok()?;
        if byte[0] == b'\n' {
            return Some(bytes);
        }
    }
    None
}

/// Sends a line, and reports whether this is its reply.
pub fn is_told(alloc: Global, stream: &TcpStream, request: &str, reply: &str) -> bool {
    if send(stream, request).is_none() {
        return false;
    }
    match line(alloc, stream) {
        Some(told) => told.as_slice() == reply.as_bytes(),
        None => false,
    }
}

/// The server has ended the connection: there is no byte more.
pub fn is_ended(stream: &TcpStream) -> bool {
    let mut reader = stream;
    let mut byte = [0u8];
    match reader.read(&mut byte) {
        Ok(count) => count == 0,
        Err(_) => true,
    }
}

/// Sends each of these lines in turn, and reports whether these are its replies.
pub fn are_told(alloc: Global, stream: &TcpStream, lines: &[(&str, &str)]) -> bool {
    for (request, reply) in lines {
        if !is_told(alloc, stream, request, reply) {
            return false;
        }
    }
    true
}

/// Connects, sends each of these lines in turn, and reports whether these are its replies.
pub fn talk<R: Net<Stream = TcpStream> + Clock>(
    rt: &R,
    alloc: Global,
    port: u16,
    lines: &[(&str, &str)],
) -> bool {
    match connect(rt, port) {
        Some(stream) => are_told(alloc, &stream, lines),
        None => false,
    }
}
