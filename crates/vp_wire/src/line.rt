// The line that is being read, and what becomes of it.
ghost use Rattle.std.specs.Prelude.{◌≡◌, ◌⊎◌, ◌||◌, ◌++◌, [], length, nat_lt, ℕ, List, IsErrOf};
ghost use Rattle.vp_wire.specs.Dialogue.{error_line, turn_of};
ghost use Rattle.vp_wire.specs.Reading.{IsBegun, is_no_memory, text_of, turn_by};

use crate::dialogue::Stage;
use crate::error::WireError;
use crate::requests::request;
use std::alloc::Global;
use vp_answer::Request;

/// The greatest length of a line, in bytes without its newline.
pub const LINE_LIMIT: usize = 65_536;

/// What a line is answered without asking the caller.
#[derive(Clone, Copy)]
pub enum LineError {
    TooLong,
    BadJson,
    BadRequest,
    NotOpen,
    NoMemory,
}

impl LineError {
    /// The line that reports it.
    pub fn line(self) -> &'static [u8]
        ensures { result.now ≡ error_line (text_of self) }
    {
        match self {
            LineError::TooLong => b"{\"error\":\"line too long\"}\n",
            LineError::BadJson => b"{\"error\":\"bad json\"}\n",
            LineError::BadRequest => b"{\"error\":\"bad request\"}\n",
            LineError::NotOpen => b"{\"error\":\"not open\"}\n",
            LineError::NoMemory => b"{\"error\":\"no memory\"}\n",
        }
    }

    /// It is that there is no memory, or that was so before.
    pub fn is_no_memory_or(self, before: bool) -> bool
        ensures { result ≡ (before || is_no_memory self) }
    {
        before || matches!(self, LineError::NoMemory)
    }
}

/// How much is kept of a line.
#[derive(Clone, Copy, PartialEq, Eq)]
enum Kept {
    All,
    TooLong,
    NoMemory,
}

/// The line that is being read. Of a line that is too long, or for which there is no memory, nothing is kept.
#[derive(Drop)]
pub struct Line {
    bytes: Vec<u8>,
    kept: Kept,
}

impl Line {
    /// A line of which nothing was read.
    pub fn new(alloc: Global) -> Line
        ensures { IsBegun result [] }
    {
        Line {
            bytes: Vec::new(alloc),
            kept: Kept::All,
        }
    }

    /// Something of the line was read.
    pub fn has_begun(&self) -> bool
        ensures { (begun : List ℕ) → IsBegun self.now begun → result ≡ nat_lt 0 (length begun) }
    {
        !self.bytes.is_empty() || self.kept != Kept::All
    }

    /// Begins the next line.
    pub fn begin(&mut self)
        ensures { IsBegun self.new [] }
    {
        self.bytes.clear();
        self.kept = Kept::All;
    }

    /// Adds bytes to the line.
    pub fn push_bytes(&mut self, bytes: &[u8])
        ensures { (begun : List ℕ) → IsBegun self.old begun
            → IsBegun self.new (begun ++ bytes.now) }
    {
        if bytes.is_empty() || self.kept != Kept::All {
            return;
        }
        if self.bytes.len().saturating_add(bytes.len()) > LINE_LIMIT {
            self.bytes.clear();
            self.kept = Kept::TooLong;
        } else if self.bytes.extend_from_slice(bytes).is_err() {
            self.bytes.clear();
            self.kept = Kept::NoMemory;
        }
    }

    /// The request of the line, for which the caller is asked; or what the line is answered at once.
    pub fn turn(&self, alloc: Global, stage: Stage) -> Result<Request, LineError>
        ensures { (line : List ℕ) → IsBegun self.now line
            → IsErrOf result LineError.NoMemory ⊎ (turn_of stage line ≡ turn_by result) }
    {
        match self.kept {
            Kept::TooLong => return Err(LineError::TooLong),
            Kept::NoMemory => return Err(LineError::NoMemory),
            Kept::All => {}
        }
        match request(alloc, &self.bytes) {
            Ok(request) => stage.admitted(request),
            Err(WireError::BadJson) => Err(LineError::BadJson),
            Err(WireError::BadRequest) => Err(LineError::BadRequest),
            Err(_) => Err(LineError::NoMemory),
        }
    }
}
