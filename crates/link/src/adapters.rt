//! The adapters to readers and writers of std.
ghost use Rattle.std.specs.Prelude.{◌≡◌, ◌≤◌, ◌+◌, ◌-◌, ◌^◌, false, true, None, IsSome};
ghost use Rattle.std.specs.Prelude.{List, ℕ, IfOk, OnOk, OnErr, length, min, take, ⊤};
ghost use Rattle.std.specs.Io.KnownBytes.{Appends, Keeps, ReadConsumes};
ghost use Rattle.u1_base.specs.Causes.{HasCause};
ghost use Rattle.link.specs.Adapters.{sink_fault, sink_known, source_fault, source_known};

use crate::{ReadFailed, Sink, Source, WriteFailed};
use std::io::{self, ErrorKind, Read, Write};

/// A source over any reader of std. It tells what the reader tells, and has no faults at first.
///
/// A read that a signal interrupts is tried again.
#[derive(Drop)]
pub struct StdSource<R: Read + Drop> {
    inner: R,
    faults: u64,
    fault: Option<io::Error>,
}

impl<R: Read + Drop> StdSource<R> {
    pub fn new(inner: R) -> StdSource<R>
        ensures known { source_known R.remaining result
            ≡ record { left = R.remaining inner; faults = 0 } }
        ensures fault { source_fault result ≡ None }
    {
        StdSource {
            inner,
            faults: 0,
            fault: None,
        }
    }

    /// Why its last failed read failed.
    pub fn fault(&self) -> Option<io::Error>
        ensures { result ≡ source_fault self.now }
    {
        self.fault
    }
}

impl<R: Read + Drop> Source for StdSource<R> {
    ghost use Rattle.std.specs.Prelude.{⊤};
    ghost use Rattle.link.specs.Adapters.{source_known};

    ghost known = { source_known R.remaining };

    ghost read_keeps = { λ _ _. ⊤ };

    fn read(&mut self, into: &mut [u8]) -> Result<usize, ReadFailed>
        ensures within { IfOk result (λ n. n ≤ length into.new) }
        ensures bytes { ReadConsumes (source_known R.remaining self.old).left
            (source_known R.remaining self.new).left result into.new }
        ensures cause { HasCause (source_known R.remaining self.old).faults
            (source_known R.remaining self.new).faults result }
        ensures faultless { OnOk result ((source_known R.remaining self.new).faults
            ≡ (source_known R.remaining self.old).faults) }
        ensures keeps { ⊤ }
        ensures why { OnErr result (IsSome (source_fault self.new)) }
    {
        let mut failure = io::Error::from(ErrorKind::TimedOut);
        for _ in 0..u64::MAX {
            match self.inner.read(into) {
                Ok(count) => return Ok(count),
                Err(error) => {
                    if error.kind() != ErrorKind::Interrupted {
                        failure = error;
                        break;
                    }
                }
            }
        }
        self.faults = self.faults.saturating_add(1);
        self.fault = Some(failure);
        Err(ReadFailed)
    }
}

/// A sink over any writer of std. It tells what the writer tells, and has no faults at first.
///
/// A writer that buffers, as `BufWriter`, saves system calls; `flush` then hands on what it holds
/// back. The writer may have been written to before, so from the first it may hold something back,
/// until a flush of it succeeds. A `flush` flushes the writer even where it holds nothing back. A
/// write that a signal interrupts is tried again.
#[derive(Drop)]
pub struct StdSink<W: Write + Drop> {
    inner: W,
    faults: u64,
    fault: Option<io::Error>,
    holds_back: bool,
}

impl<W: Write + Drop> StdSink<W> {
    pub fn new(inner: W) -> StdSink<W>
        ensures known { sink_known W.contents result
            ≡ record { taken = W.contents inner; held = true; faults = 0 } }
        ensures fault { sink_fault result ≡ None }
    {
        StdSink {
            inner,
            faults: 0,
            fault: None,
            holds_back: true,
        }
    }

    /// Why its last failed call failed.
    pub fn fault(&self) -> Option<io::Error>
        ensures { result ≡ sink_fault self.now }
    {
        self.fault
    }
}

impl<W: Write + Drop> Sink for StdSink<W> {
    ghost use Rattle.std.specs.Prelude.{⊤};
    ghost use Rattle.link.specs.Adapters.{sink_known};

    ghost known = { sink_known W.contents };

    ghost put_keeps = { λ _ _. ⊤ };

    fn put(&mut self, piece: &[u8]) -> Result<(), WriteFailed>
        ensures ok { OnOk result (Appends (sink_known W.contents self.old).taken
            (sink_known W.contents self.new).taken piece.now) }
        ensures err { OnErr result ((k : ℕ) × Appends (sink_known W.contents self.old).taken
            (sink_known W.contents self.new).taken (take k piece.now)) }
        ensures cause { HasCause (sink_known W.contents self.old).faults
            (sink_known W.contents self.new).faults result }
        ensures keeps { ⊤ }
        ensures noted { (sink_known W.contents self.new).held ≡ true }
        ensures why { OnErr result (IsSome (sink_fault self.new)) }
    {
        self.holds_back = true;
        let mut done = 0;
        while done < piece.len() {
            let count = write_some(&mut self.inner, piece.split_at(done).1, &mut self.fault);
            if count == 0 {
                self.faults = self.faults.saturating_add(1);
                return Err(WriteFailed);
            }
            done += count;
        }
        Ok(())
    }

    fn flush(&mut self) -> Result<(), WriteFailed>
        ensures handed_on { OnOk result ((sink_known W.contents self.new).held ≡ false) }
        ensures same { Keeps (sink_known W.contents self.old).taken
            (sink_known W.contents self.new).taken }
        ensures cause { HasCause (sink_known W.contents self.old).faults
            (sink_known W.contents self.new).faults result }
        ensures keeps { ⊤ }
        ensures note_stays { OnErr result ((sink_known W.contents self.new).held
            ≡ (sink_known W.contents self.old).held) }
        ensures why { OnErr result (IsSome (sink_fault self.new)) }
    {
        if let Err(error) = self.inner.flush() {
            self.faults = self.faults.saturating_add(1);
            self.fault = Some(error);
            return Err(WriteFailed);
        }
        self.holds_back = false;
        Ok(())
    }
}

// Writes a front of the piece, and says how many bytes it has: 0 where the writer takes no more,
// and then notes why.
fn write_some<W: Write>(writer: &mut W, piece: &[u8], fault: &mut Option<io::Error>) -> usize
    ensures within { result ≤ length piece.now }
    ensures appended { Appends (W.contents writer.old) (W.contents writer.new)
        (take result piece.now) }
    ensures why { result ≡ 0 → IsSome fault.new }
{
    let mut failure = io::Error::from(ErrorKind::TimedOut);
    for _ in 0..u64::MAX {
        match writer.write(piece) {
            Ok(0) => {
                failure = io::Error::from(ErrorKind::WriteZero);
                break;
            }
            Ok(count) => return count,
            Err(error) => {
                if error.kind() != ErrorKind::Interrupted {
                    failure = error;
                    break;
                }
            }
        }
    }
    *fault = Some(failure);
    0
}
