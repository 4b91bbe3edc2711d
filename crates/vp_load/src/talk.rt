//! Conversations with the server.
use std::alloc::Global;
use std::io;
use std::io::{BufRead, BufReader, ErrorKind, Write};
use std::net::TcpStream;

/// What is answered to what is done.
pub const OK: &[u8] = b"{\"ok\":true}\n";

/// A conversation with the server: each line is answered before the next is sent.
#[derive(Drop)]
pub struct Talk<'a> {
    alloc: Global,
    stream: &'a TcpStream,
    reader: BufReader<&'a TcpStream>,
    /// The lines that were answered, in order, byte by byte.
    pub transcript: Vec<u8>,
}

impl<'a> Talk<'a> {
    /// A conversation in which nothing was said.
    pub fn new(alloc: Global, stream: &'a TcpStream) -> io::Result<Talk<'a>> {
        Ok(Talk {
            alloc,
            stream,
            reader: BufReader::new(alloc, stream)?,
            transcript: Vec::new(alloc),
        })
    }

    /// Sends a line with its newline, and gives the line that answers it, with its own.
    pub fn ask(&mut self, line: &str) -> io::Result<Vec<u8>> {
        let mut writer = self.stream;
        writer.write_all(line.as_bytes())?;
        let mut reply = Vec::new(self.alloc);
        self.reader.read_until(b'\n', &mut reply)?;
        if reply.last() != Some(&b'\n') {
            return Err(io::Error::from(ErrorKind::UnexpectedEof));
        }
        self.transcript.extend_from_slice(&reply)?;
        Ok(reply)
    }
}
