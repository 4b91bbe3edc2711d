ghost use Rattle.std.specs.Prelude.{◌≡◌, ◌≤◌, ◌<◌, ◌+◌, ◌^◌, ◌%◌, [], ℕ, List, None, Option, Some, IfErr, IfOk, IfSome, OnOk, false, option_map, IsErrOf, IsOkUnless, MatchResult, length, not, vec_items};
ghost use Rattle.std.specs.Io.KnownBytes.{IsAtEnd};
ghost use Rattle.vp_answer.specs.declared.request.Request.{Request};
ghost use Rattle.vp_answer.specs.declared.reply.Reply.{Reply};
ghost use Rattle.vp_wire.specs.Dialogue.{Answers, Asked, Closes, IsDialogue, IsWhole, Point, Stops, is_operators, is_opening, stage_after, turn_of, turn_of_request};
ghost use Rattle.vp_wire.specs.Lines.{line_of};
ghost use Rattle.vp_wire.specs.Failures.{failures_after, one_more, reader_failures, writer_failures};
ghost use Rattle.vp_wire.specs.Reading.{Finishes, Goes, IsBegun, Progress, Takes, AnswersLine, is_closing, lacks_memory, point_of, remaining_size, reply_text, turn_by};

use crate::counted::{Counted, Failed};
use crate::error::WireError;
use crate::line::{Line, LineError};
use crate::replies::reply_line;
use std::alloc::Global;
use std::io::{Read, Write};
use vp_answer::{Call, Reply, Request};
use vp_text::first_piece;

/// How often the reader is asked at most.
pub const TURN_LIMIT: u32 = 16_777_216;

/// How many bytes are read at once.
const CHUNK: usize = 8_192;

/// So many bytes are set aside for a reply's line before its request is asked, since what was done can't be asked again.
const SPARE: usize = 65_536;

/// Who answers requests.
pub trait Caller {
    // The caller answers a request by a reply, and becomes another.
    ghost calls: { Self → Request → Reply → Self → Type 0 };

    /// Answers a request.
    fn call(&mut self, request: Request) -> Reply
        ensures { calls self.old request result self.new };
}

/// How a dialogue ended: at the end of its input.
#[derive(Clone, Copy, Debug, PartialEq, Eq)]
pub struct Ended {
    /// How many lines were read.
    pub lines: u64,
    /// A line was answered that there is no memory: for its request or for its reply's line.
    pub out_of_memory: bool,
}

/// How far a dialogue's session is.
#[derive(Clone, Copy, Debug, PartialEq, Eq)]
pub enum Stage {
    /// Not opened yet.
    Before,
    Open,
    Closed,
}

impl Stage {
    /// The request, where the caller is asked for it: an `open` before the session is open, and every other after that; a change of
    /// a grant anywhere.
    pub(crate) fn admitted(self, request: Request) -> Result<Request, LineError>
        ensures { turn_of_request self request ≡ turn_by result }
    {
        if is_operators(&request) {
            return Ok(request);
        }
        match (self, is_opening(&request)) {
            (Stage::Before, false) => Err(LineError::NotOpen),
            (Stage::Open | Stage::Closed, true) => Err(LineError::BadRequest),
            _ => Ok(request),
        }
    }

    /// The stage after a request, which opens the session or closes it or does neither, and its reply.
    fn after(self, opens: bool, closes: bool, reply: &Reply) -> Stage
        ensures { (r : Request) → opens ≡ is_opening r → closes ≡ is_closing r
            → result ≡ stage_after self r reply.now }
    {
        match reply {
            Reply::Opened(_) | Reply::Done if opens => Stage::Open,
            Reply::Done if closes => Stage::Closed,
            _ => self,
        }
    }
}

/// The request opens a session.
fn is_opening(request: &Request) -> bool
    ensures { result ≡ is_opening request.now }
{
    matches!(request, Request::Open { .. })
}

/// The request is an operator's.
fn is_operators(request: &Request) -> bool
    ensures { result ≡ is_operators request.now }
{
    matches!(
        request,
        Request::Grant(_)
            | Request::End(_)
            | Request::Halt(_)
            | Request::Status { .. }
            | Request::Shutdown { .. }
    )
}

/// The request closes a session.
fn is_closing(request: &Request) -> bool
    ensures { result ≡ is_closing request.now }
{
    matches!(request, Request::Call(Call::Close))
}

/// The line of a reply. Where there is no memory for it, what was set aside for it is given up.
fn line_by(alloc: Global, reply: &Reply, spare: Vec<u8>) -> Result<Vec<u8>, LineError>
    ensures line { IfOk result (λ line. line.items ≡ line_of reply.now) }
    ensures refused { IsOkUnless result LineError.NoMemory }
{
    if let Ok(line) = reply_line(alloc, reply) {
        return Ok(line);
    }
    drop(spare);
    match reply_line(alloc, reply) {
        Ok(line) => Ok(line),
        Err(_) => Err(LineError::NoMemory),
    }
}

/// The stage after a request that the caller is asked, and the line of the reply.
fn ask<C: Caller>(
    alloc: Global,
    stage: Stage,
    request: Request,
    caller: &mut C,
    spare: Vec<u8>,
) -> (Stage, Result<Vec<u8>, LineError>)
    ensures { Asked (lacks_memory result.1) C.calls request
        (record { stage = stage; caller = caller.old }) (reply_text vec_items result.1)
        (record { stage = result.0; caller = caller.new }) }
{
    let opens = is_opening(&request);
    let closes = is_closing(&request);
    let reply = caller.call(request);
    let line = line_by(alloc, &reply, spare);
    (stage.after(opens, closes, &reply), line)
}

/// A dialogue: the line that is being read, and what came before.
#[derive(Drop)]
struct Dialogue {
    alloc: Global,
    stage: Stage,
    lines: u64,
    line: Line,
    out_of_memory: bool,
}

impl Dialogue {
    fn new(alloc: Global) -> Dialogue
        ensures stage { result.stage ≡ Stage.Before }
        ensures lines { result.lines ≡ 0 }
        ensures line { IsBegun result.line [] }
    {
        Dialogue {
            alloc,
            stage: Stage::Before,
            lines: 0,
            line: Line::new(alloc),
            out_of_memory: false,
        }
    }

    /// What the line that was read is answered. The next line begins.
    fn reply_line<C: Caller>(&mut self, caller: &mut C) -> Result<Vec<u8>, LineError>
        ensures reply { (line : List ℕ) → IsBegun self.old.line line
            → Answers (lacks_memory result) C.calls (turn_of self.old.stage line)
            (point_of self.old caller.old) (reply_text vec_items result)
            (point_of self.new caller.new) }
        ensures begun { IsBegun self.new.line [] }
        ensures lines { self.new.lines ≡ self.old.lines }
        ensures out_of_memory { self.new.out_of_memory ≡ self.old.out_of_memory }
    {
        let turn = self.line.turn(self.alloc, self.stage);
        self.line.begin();
        let request = match turn {
            Ok(request) => request,
            Err(error) => return Err(error),
        };
        let Ok(spare) = Vec::with_capacity(self.alloc, SPARE) else {
            return Err(LineError::NoMemory);
        };
        let (stage, line) = ask(self.alloc, self.stage, request, caller, spare);
        self.stage = stage;
        line
    }

    /// Answers the line that was read, and begins the next. Where it is answered that there is no memory, that is remembered.
    fn answer<W: Write, C: Caller>(
        &mut self,
        writer: &mut Counted<W>,
        caller: &mut C,
    ) -> Result<(), Failed>
        requires { self.old.lines + 1 < 2 ^ 64 }
        ensures reply { (line : List ℕ) → IsBegun self.old.line line
            → AnswersLine self.old.out_of_memory self.new.out_of_memory C.calls
            (turn_of self.old.stage line) (point_of self.old caller.old)
            (point_of self.new caller.new) result (W.contents writer.old.inner)
            (W.contents writer.new.inner) }
        ensures begun { IsBegun self.new.line [] }
        ensures lines { self.new.lines ≡ self.old.lines + 1 }
        ensures failures { writer.new.failures ≡ failures_after writer.old.failures result }
    {
        self.lines += 1;
        match self.reply_line(caller) {
            Ok(line) => writer.write(&line),
            Err(error) => {
                self.out_of_memory = error.is_no_memory_or(self.out_of_memory);
                writer.write(error.line())
            }
        }
    }

    /// Answers the first line that ends in some bytes, and gives what is left; or keeps them for the next line, where none ends.
    fn take_first<'a, W: Write, C: Caller>(
        &mut self,
        bytes: &'a [u8],
        writer: &mut Counted<W>,
        caller: &mut C,
    ) -> Result<Option<&'a [u8]>, Failed>
        requires { self.old.lines + length bytes.now < 2 ^ 64 }
        ensures progress { Takes C.calls self.old caller.old self.new caller.new
            (W.contents writer.old.inner) (W.contents writer.new.inner) bytes.now result
            (option_map (λ l. l.now)) }
        ensures lines { IfOk result
            (λ remaining. self.new.lines + remaining_size (option_map (λ l. l.now) remaining)
            ≤ self.old.lines + length bytes.now) }
        ensures shorter { IfOk result (λ remaining.
            IfSome remaining (λ l. length l.now < length bytes.now)) }
        ensures failures { writer.new.failures ≡ failures_after writer.old.failures result }
    {
        let (piece, after) = first_piece(bytes, b'\n');
        self.line.push_bytes(piece);
        let Some(rest) = after else {
            return Ok(None);
        };
        self.answer(writer, caller)?;
        Ok(Some(rest))
    }

    /// Answers the lines that end in some bytes, and keeps the rest for the next.
    fn take<W: Write, C: Caller>(
        &mut self,
        bytes: &[u8],
        writer: &mut Counted<W>,
        caller: &mut C,
    ) -> Result<(), Failed>
        requires { self.old.lines + length bytes.now < 2 ^ 64 }
        ensures progress { Takes C.calls self.old caller.old self.new caller.new
            (W.contents writer.old.inner) (W.contents writer.new.inner) bytes.now result
            (λ u. None) }
        ensures lines { OnOk result (self.new.lines ≤ self.old.lines + length bytes.now) }
        ensures failures { writer.new.failures ≡ failures_after writer.old.failures result }
    {
        let mut remaining = Some(bytes);
        while let Some(rest) = remaining {
            remaining = self.take_first(rest, writer, caller)?;
        }
        Ok(())
    }

    /// Answers the last line of the input, if one has begun.
    fn answer_last<W: Write, C: Caller>(
        &mut self,
        writer: &mut Counted<W>,
        caller: &mut C,
    ) -> Result<(), Failed>
        requires { self.old.lines + 1 < 2 ^ 64 }
        ensures whole { Finishes C.calls self.old caller.old self.new caller.new
            (W.contents writer.old.inner) (W.contents writer.new.inner) result }
        ensures failures { writer.new.failures ≡ failures_after writer.old.failures result }
    {
        if self.line.has_begun() {
            self.answer(writer, caller)
        } else {
            Ok(())
        }
    }

    /// Answers the last line at the end of the input, and hands all that was written on.
    fn finish<W: Write, C: Caller>(
        &mut self,
        writer: &mut Counted<W>,
        caller: &mut C,
    ) -> Result<(), Failed>
        requires { self.old.lines + 1 < 2 ^ 64 }
        ensures whole { Finishes C.calls self.old caller.old self.new caller.new
            (W.contents writer.old.inner) (W.contents writer.new.inner) result }
        ensures failures { writer.new.failures ≡ failures_after writer.old.failures result }
    {
        self.answer_last(writer, caller)?;
        writer.flush()
    }

    /// Answers the lines that end in what was read, and hands all that was written on.
    fn proceed<W: Write, C: Caller>(
        &mut self,
        bytes: &[u8],
        writer: &mut Counted<W>,
        caller: &mut C,
    ) -> Result<(), Failed>
        requires { self.old.lines + length bytes.now < 2 ^ 64 }
        ensures progress { Takes C.calls self.old caller.old self.new caller.new
            (W.contents writer.old.inner) (W.contents writer.new.inner) bytes.now result
            (λ u. None) }
        ensures lines { OnOk result (self.new.lines ≤ self.old.lines + length bytes.now) }
        ensures failures { writer.new.failures ≡ failures_after writer.old.failures result }
    {
        self.take(bytes, writer, caller)?;
        writer.flush()
    }

    /// Reads once, and answers the lines that end in what was read; at the end of the input also one that lacks its newline.
    /// Reports whether the input has ended.
    fn turn<R: Read, W: Write, C: Caller>(
        &mut self,
        chunk: &mut [u8; CHUNK],
        reader: &mut Counted<R>,
        writer: &mut Counted<W>,
        caller: &mut C,
    ) -> Result<bool, WireError>
        requires { self.old.lines + CHUNK < 2 ^ 64 }
        ensures goes { (first : C) → (unread held : Option (List ℕ))
            → Progress C.calls unread (R.remaining reader.old.inner) held
            (W.contents writer.old.inner) first self.old caller.old None
            → MatchResult result (λ ended. Goes ended C.calls unread
            (R.remaining reader.new.inner) held
            (W.contents writer.new.inner) first self.new caller.new)
            (λ e. Stops e C.calls unread (R.remaining reader.new.inner) held
            (W.contents writer.new.inner) first (point_of self.new caller.new)) }
        ensures fault { IsErrOf result WireError.TurnLimit → ⊥ }
        ensures lines { IfOk result (λ ended. ended ≡ false
            → self.new.lines ≤ self.old.lines + CHUNK) }
        ensures asked { reader.new.asked ≡ one_more reader.old.asked }
        ensures reader_failures { reader.new.failures ≡ reader_failures reader.old.failures result }
        ensures writer_failures { writer.new.failures ≡ writer_failures writer.old.failures result }
    {
        match reader.read(chunk) {
            Ok(Some(0)) => match self.finish(writer, caller) {
                Ok(()) => Ok(true),
                Err(_) => Err(WireError::WriteFault),
            },
            Ok(Some(count)) => match self.proceed(&chunk[..count], writer, caller) {
                Ok(()) => Ok(false),
                Err(_) => Err(WireError::WriteFault),
            },
            Ok(None) => Ok(false),
            Err(_) => Err(WireError::ReadFault),
        }
    }

    /// Reads and answers lines up to the end of the input; a last line may lack its newline.
    fn run<R: Read, W: Write, C: Caller>(
        &mut self,
        reader: &mut Counted<R>,
        writer: &mut Counted<W>,
        caller: &mut C,
    ) -> Result<(), WireError>
        requires { self.old.lines ≡ 0 }
        ensures goes { (first : C) → (unread held : Option (List ℕ))
            → Progress C.calls unread (R.remaining reader.old.inner) held
            (W.contents writer.old.inner) first self.old caller.old None
            → MatchResult result (λ u. IsWhole self.new.out_of_memory C.calls unread
            (R.remaining reader.new.inner) held
            (W.contents writer.new.inner) first (point_of self.new caller.new) self.new.lines)
            (λ e. Stops e C.calls unread (R.remaining reader.new.inner) held
            (W.contents writer.new.inner) first (point_of self.new caller.new)) }
        ensures asked { IsErrOf result WireError.TurnLimit
            → reader.new.asked ≡ (reader.old.asked + TURN_LIMIT) % 2 ^ 64 }
        ensures reader_failures { reader.new.failures ≡ reader_failures reader.old.failures result }
        ensures writer_failures { writer.new.failures ≡ writer_failures writer.old.failures result }
    {
        let mut chunk = [0u8; CHUNK];
        for _ in 0..TURN_LIMIT {
            if self.turn(&mut chunk, reader, writer, caller)? {
                return Ok(());
            }
        }
        Err(WireError::TurnLimit)
    }
}

/// Closes an open session at the end of a dialogue.
fn close<C: Caller>(stage: Stage, caller: &mut C)
    ensures { Closes C.calls stage caller.old caller.new }
{
    if stage == Stage::Open {
        let _reply = caller.call(Request::Call(Call::Close));
    }
}

/// Reads lines, and answers each by a line, up to the end of the input. A line that is no request is answered by
/// its error (1503, 1501, 1502, 1507), and the next is read; before an `open` is answered, each other request by
/// `not open`. A fault of the reader (1504), of the writer (1505) or too many reads (1506) ends the dialogue.
/// At the end, an open session is closed, and that reply is not written.
pub fn session<R: Read, W: Write, C: Caller>(
    alloc: Global,
    reader: &mut Counted<R>,
    writer: &mut Counted<W>,
    caller: &mut C,
) -> Result<Ended, WireError>
    ensures ok { IfOk result
        (λ ended. (end : Point C)
        × IsWhole ended.out_of_memory C.calls
        (R.remaining reader.old.inner) (R.remaining reader.new.inner)
        (W.contents writer.old.inner) (W.contents writer.new.inner) caller.old end ended.lines
        × Closes C.calls end.stage end.caller caller.new) }
    ensures fault { IfErr result
        (λ e. (end : Point C) × Stops e C.calls (R.remaining reader.old.inner)
        (R.remaining reader.new.inner) (W.contents writer.old.inner)
        (W.contents writer.new.inner) caller.old end
        × Closes C.calls end.stage end.caller caller.new) }
    ensures turns { IsErrOf result WireError.TurnLimit
        → reader.new.asked ≡ (reader.old.asked + TURN_LIMIT) % 2 ^ 64 }
    ensures reader_failures { reader.new.failures ≡ reader_failures reader.old.failures result }
    ensures writer_failures { writer.new.failures ≡ writer_failures writer.old.failures result }
{
    let mut dialogue = Dialogue::new(alloc);
    let ended = dialogue.run(reader, writer, caller);
    close(dialogue.stage, caller);
    match ended {
        Ok(()) => Ok(Ended {
            lines: dialogue.lines,
            out_of_memory: dialogue.out_of_memory,
        }),
        Err(error) => Err(error),
    }
}
