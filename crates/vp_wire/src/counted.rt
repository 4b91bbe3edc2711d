// A reader or a writer whose failures are counted.
ghost use Rattle.std.specs.Prelude.{◌≡◌, ◌≤◌, ◌<◌, ◌+◌, ◌%◌, ◌^◌, length, ℕ, List, IfOk, IfNone, IfSome, OnErr, OnOk, take};
ghost use Rattle.std.specs.Io.KnownBytes.{Appends, Consumes, IsAtEnd, Keeps};
ghost use Rattle.vp_wire.specs.Dialogue.{IsFront};
ghost use Rattle.vp_wire.specs.Failures.{failures_after};

use std::io::{ErrorKind, Read, Write};

/// How often one line is handed to a writer at most.
const WRITE_LIMIT: u32 = 16_777_216;

/// The reader or the writer failed.
#[derive(Clone, Copy, Debug, PartialEq, Eq)]
pub struct Failed;

/// A reader or a writer, with counts of what was asked of it. An interrupted call is no failure: it is tried again.
// The counts are private, so that nothing but a call that fails can count a failure.
#[derive(Drop)]
pub struct Counted<T> {
    /// What is counted.
    pub inner: T,
    /// How often it was asked to read, modulo 2^64.
    asked: u64,
    /// How often it has failed, modulo 2^64.
    failures: u64,
}

impl<T> Counted<T> {
    /// With nothing counted yet.
    pub fn new(inner: T) -> Counted<T>
        ensures { result ≡ record { inner = inner; asked = 0; failures = 0 } }
    {
        Counted {
            inner,
            asked: 0,
            failures: 0,
        }
    }

    /// Counts a failure.
    fn failed(&mut self) -> Failed
        ensures { self.new ≡ record self.old { failures = (self.old.failures + 1) % 2 ^ 64 } }
    {
        self.failures = self.failures.wrapping_add(1);
        Failed
    }
}

impl<R: Read> Counted<R> {
    /// Reads some bytes to the front of a buffer, and reports how many: none of them at the end of the input. `None` where the
    /// call was interrupted.
    pub fn read(&mut self, buffer: &mut [u8]) -> Result<Option<usize>, Failed>
        ensures bytes { IfOk result
            (λ n. IfSome n (λ n. (n ≤ length buffer.new)
            × Consumes (R.remaining self.old.inner) (R.remaining self.new.inner)
            (take n buffer.new))) }
        ensures end { IfOk result
            (λ n. IfSome n (λ n. n ≡ 0 → 0 < length buffer.new
            → IsAtEnd (R.remaining self.new.inner))) }
        ensures interrupted { IfOk result
            (λ n. IfNone n (Keeps (R.remaining self.old.inner) (R.remaining self.new.inner))) }
        ensures failed { OnErr result
            (Keeps (R.remaining self.old.inner) (R.remaining self.new.inner)) }
        ensures asked { self.new.asked ≡ (self.old.asked + 1) % 2 ^ 64 }
        ensures failures { self.new.failures ≡ failures_after self.old.failures result }
    {
        self.asked = self.asked.wrapping_add(1);
        match self.inner.read(buffer) {
            Ok(count) => Ok(Some(count)),
            Err(error) if error.kind() == ErrorKind::Interrupted => Ok(None),
            Err(_) => Err(self.failed()),
        }
    }
}

impl<W: Write> Counted<W> {
    /// Writes bytes, all of them; where the writer fails, a front of them went out.
    pub fn write(&mut self, bytes: &[u8]) -> Result<(), Failed>
        ensures ok { OnOk result
            (Appends (W.contents self.old.inner) (W.contents self.new.inner) bytes.now) }
        ensures asked { self.new.asked ≡ self.old.asked }
        ensures failed { OnErr result
            ((front : List ℕ) × IsFront front bytes.now
            × Appends (W.contents self.old.inner) (W.contents self.new.inner) front) }
        ensures failures { self.new.failures ≡ failures_after self.old.failures result }
    {
        let mut rest = bytes;
        for _ in 0..WRITE_LIMIT {
            if rest.is_empty() {
                return Ok(());
            }
            match self.inner.write(rest) {
                Ok(0) => return Err(self.failed()),
                Ok(count) => rest = &rest[count..],
                Err(error) if error.kind() == ErrorKind::Interrupted => {}
                Err(_) => return Err(self.failed()),
            }
        }
        Err(self.failed())
    }

    /// Hands what was written on.
    pub fn flush(&mut self) -> Result<(), Failed>
        ensures bytes { Keeps (W.contents self.old.inner) (W.contents self.new.inner) }
        ensures asked { self.new.asked ≡ self.old.asked }
        ensures failures { self.new.failures ≡ failures_after self.old.failures result }
    {
        match self.inner.flush() {
            Ok(()) => Ok(()),
            Err(_) => Err(self.failed()),
        }
    }
}
