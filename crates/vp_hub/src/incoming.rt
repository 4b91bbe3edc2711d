ghost use Rattle.std.specs.Io.{ReadsAtMost};

use crate::opens::NamesOpening;
use crate::service::Service;
use crate::talk::Talk;
use std::io;
use std::io::{ErrorKind, Read};
use std::net::TcpStream;
use std::sync::Wait;
use std::sync::atomic::Ordering;
use std::time::{Clock, Duration, Instant};

/// So many milliseconds a client is waited for until it is looked whether the server ends, or the operator has ended his session.
const LOOK: u64 = 500;

/// What a client sends. Until he is known, all that he has to say must come within a time, be it byte by byte; after that he may be silent, until his
/// session is ended by the operator, or the server ends.
#[derive(Drop)]
pub(crate) struct Incoming<'a, 's, L: NamesOpening, R: Clock, G> {
    rt: &'a R,
    service: &'a Service<'s, L, G>,
    stream: &'a TcpStream,
    talk: &'a Talk,
    start: Instant,
    /// So often the operator had ended somebody's sessions when it was last looked.
    ends: u64,
    /// When it was seen that his session was ended.
    ended: Option<Instant>,
}

impl<'a, 's, L: NamesOpening, R: Wait + Clock, G> Incoming<'a, 's, L, R, G> {
    /// What a client sends from now on. The clock may fail.
    pub(crate) fn new(
        rt: &'a R,
        service: &'a Service<'s, L, G>,
        stream: &'a TcpStream,
        talk: &'a Talk,
    ) -> io::Result<Incoming<'a, 's, L, R, G>> {
        Ok(Incoming {
            rt,
            service,
            stream,
            talk,
            start: Instant::now(rt)?,
            ends: 0,
            ended: None,
        })
    }

    /// Looks whether the operator has ended his session, if he has ended any since it was last looked.
    fn look(&mut self) -> io::Result<()> {
        let ends = self.service.ends.load(Ordering::SeqCst);
        if ends == self.ends || self.ended.is_some() {
            return Ok(());
        }
        self.ends = ends;
        if let Some(session) = self.talk.session()
            && !self.service.hub.is_open(self.rt, session)
        {
            self.ended = Some(Instant::now(self.rt)?);
        }
        Ok(())
    }

    /// How long he may take for what he says next; none where he may be silent for ever.
    fn patience(&self) -> io::Result<Option<Duration>> {
        let settings = &self.service.settings;
        if !self.talk.is_known() {
            let elapsed = self.start.elapsed(self.rt)?;
            return Ok(Some(settings.opening_time.saturating_sub(elapsed)));
        }
        match self.ended {
            Some(ended) => {
                let elapsed = ended.elapsed(self.rt)?;
                Ok(Some(settings.ended_time.saturating_sub(elapsed)))
            }
            None => Ok(None),
        }
    }

    /// Reads what he says within a moment; `WouldBlock` where he says nothing.
    fn read_soon(&mut self, buffer: &mut [u8]) -> io::Result<usize>
        ensures { ReadsAtMost result buffer.new }
    {
        if self.talk.is_over() || self.service.ending.load(Ordering::SeqCst) {
            return Err(ErrorKind::ConnectionAborted.into());
        }
        self.look()?;
        let look = Duration::from_millis(LOOK);
        let wait = self.patience()?.unwrap_or(look);
        // Where no time remains, this is an error: a stream takes no time of 0.
        self.stream.set_read_timeout(Some(wait.min(look)))?;
        let mut stream = self.stream;
        stream.read(buffer)
    }
}

impl<L: NamesOpening, R: Wait + Clock, G> Read for Incoming<'_, '_, L, R, G> {
    fn read(&mut self, buffer: &mut [u8]) -> io::Result<usize> {
        for _ in 0..u64::MAX {
            match self.read_soon(buffer) {
                Err(error) if error.kind() == ErrorKind::WouldBlock => {}
                read => return read,
            }
        }
        Err(ErrorKind::TimedOut.into())
    }
}
