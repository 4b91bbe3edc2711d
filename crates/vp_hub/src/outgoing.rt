ghost use Rattle.std.specs.Io.{WritesAtMost};

use std::io;
use std::io::{ErrorKind, Write};
use std::net::TcpStream;
use std::time::{Clock, Duration, Instant};

/// A silence is waited out in so many parts: a write of which a front was taken at once then returns within one of them, not after all.
const WAITS: u32 = 10;

/// What goes to a client. He may take nothing of a reply for a time, and all of it must be taken within another, be it byte by byte.
#[derive(Drop)]
pub(crate) struct Outgoing<'a, R: Clock> {
    rt: &'a R,
    stream: &'a TcpStream,
    wait: Duration,
    patience: Duration,
    /// When the reply began of which something is left to be taken.
    start: Option<Instant>,
    /// A write has failed. None is tried after it: a buffer that is dropped would wait for the client once more.
    has_failed: bool,
}

impl<'a, R: Clock> Outgoing<'a, R> {
    /// What goes to a client who may take nothing for the one time, and has the other for a reply.
    pub(crate) fn new(
        rt: &'a R,
        stream: &'a TcpStream,
        silence: Duration,
        patience: Duration,
    ) -> Outgoing<'a, R> {
        Outgoing {
            rt,
            stream,
            wait: silence / WAITS,
            patience,
            start: None,
            has_failed: false,
        }
    }

    /// How long he still has for the reply. The clock may fail.
    fn remaining(&mut self) -> io::Result<Duration> {
        let start = match self.start {
            Some(start) => start,
            None => Instant::now(self.rt)?,
        };
        self.start = Some(start);
        Ok(self.patience.saturating_sub(start.elapsed(self.rt)?))
    }

    /// These bytes were taken: where a reply ends among them, his time for it is over, and that for the next has not begun.
    fn note(&mut self, taken: &[u8]) {
        if taken.contains(&b'\n') {
            self.start = None;
        }
    }

    /// Sends some of these bytes, as many as he takes at once, and fails where he takes none in time.
    fn send(&mut self, bytes: &[u8]) -> io::Result<usize>
        ensures { WritesAtMost result bytes.now }
    {
        let remaining = self.remaining()?;
        // Where no time remains, this is an error: a stream takes no time of 0.
        self.stream
            .set_write_timeout(Some(self.wait.min(remaining)))?;
        let mut stream = self.stream;
        for _ in 0..WAITS {
            match stream.write(bytes) {
                Ok(count) => {
                    self.note(&bytes[..count]);
                    return Ok(count);
                }
                Err(error) if error.kind() == ErrorKind::WouldBlock => {}
                Err(error) => return Err(error),
            }
        }
        Err(io::Error::new(ErrorKind::TimedOut, "nothing of a reply was read"))
    }
}

impl<R: Clock> Write for Outgoing<'_, R> {
    fn write(&mut self, bytes: &[u8]) -> io::Result<usize> {
        if self.has_failed {
            return Err(ErrorKind::BrokenPipe.into());
        }
        let sent = self.send(bytes);
        if let Err(error) = &sent
            && error.kind() != ErrorKind::Interrupted
        {
            self.has_failed = true;
        }
        sent
    }

    fn flush(&mut self) -> io::Result<()> {
        let mut stream = self.stream;
        stream.flush()
    }
}
