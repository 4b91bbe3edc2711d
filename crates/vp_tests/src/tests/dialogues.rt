//! Dialogues whose reader or writer fails at some call.

use std::alloc::Global;
use std::io;
use std::io::{ErrorKind, Read, Write};
use vp_answer::{Call, Query, Refusal, Reply, Request, SessionId};
use vp_policy::UserId;
use vp_wire::{Caller, Counted, session};

/// How many bytes one call reads or writes at most.
const PIECE: usize = 7;

/// Four lines, of which the second is no JSON and the last lacks its newline.
const SCRIPT: &[u8] = b"{\"op\":\"open\",\"user\":\"ann\",\"token\":\"t1\"}
x
{\"op\":\"time\"}
{\"op\":\"time\"}";

/// What is written, and asked, where so many of the lines are answered: each request by a letter, the close at the end among them.
const ROWS: [(&str, &str); 5] = [
    ("", ""),
    ("{\"ok\":true}\n", "oc"),
    ("{\"ok\":true}\n{\"error\":\"bad json\"}\n", "oc"),
    (
        "{\"ok\":true}\n{\"error\":\"bad json\"}\n{\"finished\":false,\"time\":0}\n",
        "otc",
    ),
    (
        "{\"ok\":true}\n{\"error\":\"bad json\"}\n{\"finished\":false,\"time\":0}\n{\"finished\":false,\"time\":0}\n",
        "ottc",
    ),
];

/// A reader of bytes that fails after so many calls.
#[derive(Drop)]
struct BrokenReader<'a> {
    rest: &'a [u8],
    calls: u32,
}

impl Read for BrokenReader<'_> {
    fn read(&mut self, buffer: &mut [u8]) -> io::Result<usize> {
        if self.calls == 0 {
            return Err(ErrorKind::BrokenPipe.into());
        }
        self.calls -= 1;
        let count = buffer.len().min(PIECE);
        self.rest.read(&mut buffer[..count])
    }
}

/// A writer that keeps what is written, and fails after so many calls of `write`, or at each `flush`.
#[derive(Drop)]
struct BrokenWriter {
    written: Vec<u8>,
    calls: u32,
    flushes: bool,
}

impl Write for BrokenWriter {
    fn write(&mut self, bytes: &[u8]) -> io::Result<usize> {
        if self.calls == 0 {
            return Err(ErrorKind::BrokenPipe.into());
        }
        self.calls -= 1;
        let count = bytes.len().min(PIECE);
        self.written.write(&bytes[..count])
    }

    fn flush(&mut self) -> io::Result<()> {
        if self.flushes {
            Ok(())
        } else {
            Err(ErrorKind::BrokenPipe.into())
        }
    }
}

/// A caller that keeps a letter for each request.
#[derive(Drop)]
struct Recorder {
    asked: Vec<u8>,
}

impl Caller for Recorder {
    ghost calls = { λ c request reply d. Unit {0} };

    fn call(&mut self, request: Request) -> Reply {
        let (letter, reply) = match request {
            Request::Open { .. } => (
                b'o',
                Reply::Opened(SessionId {
                    user: UserId(0),
                    opens: 1,
                }),
            ),
            Request::Call(Call::Close) => (b'c', Reply::Done),
            Request::Call(Call::Query(Query::Time)) => (
                b't',
                Reply::Time {
                    time: 0,
                    finished: false,
                },
            ),
            _ => (b'?', Reply::Error(Refusal::BadHandle)),
        };
        match self.asked.push(letter) {
            Ok(()) => reply,
            Err(_) => Reply::Error(Refusal::NoMemory),
        }
    }
}

/// How a dialogue went: the number of its fault, or 0; how many lines it says it has answered; what was written and what was asked.
#[derive(Drop)]
struct Held {
    code: u32,
    lines: u64,
    written: Vec<u8>,
    asked: Vec<u8>,
}

impl Held {
    /// The dialogue ended with this fault and this count of lines, and this was written and asked.
    fn is(&self, code: u32, lines: u64, written: &str, asked: &str) -> bool {
        self.code == code
            && self.lines == lines
            && self.written.as_slice() == written.as_bytes()
            && self.asked.as_slice() == asked.as_bytes()
    }

    /// The dialogue ended with this fault, a front of this was written, and this was asked.
    fn begins(&self, code: u32, written: &str, asked: &str) -> bool {
        self.code == code
            && written.as_bytes().starts_with(&self.written)
            && self.asked.as_slice() == asked.as_bytes()
    }
}

/// Holds the dialogue of a reader and a writer; the code is 1507 where memory was missing for a line.
fn hold<R: Read + Drop>(alloc: Global, reader: R, writer: BrokenWriter) -> Held {
    let mut reader = Counted::new(reader);
    let mut writer = Counted::new(writer);
    let mut caller = Recorder {
        asked: Vec::new(alloc),
    };
    let (code, lines) = match session(alloc, &mut reader, &mut writer, &mut caller) {
        Ok(ended) if ended.out_of_memory => (1507, ended.lines),
        Ok(ended) => (0, ended.lines),
        Err(fault) => (fault.code(), 0),
    };
    Held {
        code,
        lines,
        written: writer.inner.written,
        asked: caller.asked,
    }
}

/// A writer that fails after so many calls of `write`.
fn writer_of(alloc: Global, calls: u32) -> BrokenWriter {
    BrokenWriter {
        written: Vec::new(alloc),
        calls,
        flushes: true,
    }
}

/// A reader of the script that fails after so many calls.
fn reader_of(calls: u32) -> BrokenReader<'static> {
    BrokenReader {
        rest: SCRIPT,
        calls,
    }
}

/// How many lines end in some bytes.
fn ends(bytes: &[u8]) -> usize {
    let mut count = 0usize;
    for byte in bytes {
        if *byte == b'\n' {
            count = count.saturating_add(1);
        }
    }
    count
}

/// What is written, and asked, where so many lines are answered.
fn row(lines: usize) -> (&'static str, &'static str) {
    match ROWS.get(lines) {
        Some(row) => *row,
        None => ("there is no such line", "?"),
    }
}

/// The first bytes of the script, which so many calls read.
fn read_by(calls: u32) -> &'static [u8] {
    let count = (calls as usize).saturating_mul(PIECE);
    SCRIPT.get(..count).unwrap_or(SCRIPT)
}

#[test]
fn reader_fails(rt: HostRuntime) {
    for calls in 0..11 {
        let writer = writer_of(rt.alloc(), u32::MAX);
        let held = hold(rt.alloc(), reader_of(calls), writer);
        let (written, asked) = row(ends(read_by(calls)));
        assert!(rt; held.is(1504, 0, written, asked), "at {calls}");
    }
}

#[test]
fn writer_fails(rt: HostRuntime) {
    for calls in 0..13 {
        let writer = writer_of(rt.alloc(), calls);
        let held = hold(rt.alloc(), reader_of(u32::MAX), writer);
        let (_, asked) = row(ends(&held.written).saturating_add(1));
        assert!(rt; held.begins(1505, row(4).0, asked), "at {calls}");
    }
}

#[test]
fn nothing_fails(rt: HostRuntime) {
    let held = hold(rt.alloc(), reader_of(11), writer_of(rt.alloc(), 13));
    let (written, asked) = row(4);
    assert!(rt; held.is(0, 4, written, asked));
}

#[test]
fn flush_fails(rt: HostRuntime) {
    let writer = BrokenWriter {
        flushes: false,
        ..writer_of(rt.alloc(), u32::MAX)
    };
    let held = hold(rt.alloc(), reader_of(u32::MAX), writer);
    assert!(rt; held.is(1505, 0, "", ""));
}

/// A reader whose every call is interrupted.
#[derive(Drop)]
struct Interrupted;

impl Read for Interrupted {
    fn read(&mut self, buffer: &mut [u8]) -> io::Result<usize> {
        let _room = buffer.len();
        Err(ErrorKind::Interrupted.into())
    }
}

#[test]
fn too_many_reads(rt: HostRuntime) {
    let held = hold(rt.alloc(), Interrupted, writer_of(rt.alloc(), u32::MAX));
    assert!(rt; held.is(1506, 0, "", ""));
}
