//! Sources, sinks and connections in memory, whose calls fail where a test wants it.
ghost use Rattle.std.specs.Prelude.{◌≡◌, ◌⊎◌, ◌↔◌, ◌<◌, ◌≤◌, ◌/◌, [], ◌++◌, take, length};
ghost use Rattle.std.specs.Prelude.{Some, IfOk, OnOk, OnErr, IsErr, Contains, ⊤};
ghost use Rattle.std.specs.Io.KnownBytes.{Appends, Keeps, ReadConsumes};
ghost use Rattle.u1_base.specs.Causes.{HasCause};
ghost use Rattle.link.specs.Memory.{Counts, FailedPut};
ghost use Rattle.link.specs.Streams.{AppendsFront};

use crate::calls::Calls;
use crate::{Conn, ReadFailed, Sink, Source, WriteFailed};
use std::alloc::Global;
use std::marker::Model;
use u1_base::{Bytes, Numbers};

/// A source over bytes in memory. It tells what it has left.
#[derive(Drop)]
pub struct MemSource {
    bytes: Bytes,
    at: usize,
    calls: Calls,
}

impl Model for MemSource {
    ghost use Rattle.std.specs.Prelude.{◌≤◌, drop, length};
    ghost use Rattle.link.specs.Memory.{Stream, stream};

    ghost Value = { Stream };

    ghost view = { λ s. stream (drop s.at s.bytes) s.calls.made s.calls.failing s.calls.faults };

    ghost invariant = { λ s. s.at ≤ length s.bytes };
}

impl MemSource {
    /// A source of these bytes. Its reads are counted from 0, and just those whose numbers stand in
    /// `failing` fail.
    pub fn new(bytes: Bytes, failing: Numbers) -> MemSource
        ensures { result ≡ record { bytes = bytes; calls = 0; failing = failing; faults = 0 } }
    {
        MemSource {
            bytes,
            at: 0,
            calls: Calls {
                made: 0,
                failing,
                faults: 0,
            },
        }
    }
}

impl Source for MemSource {
    ghost use Rattle.std.specs.Prelude.{◌≡◌, Some, ⊤};
    ghost use Rattle.link.specs.Memory.{input_of};

    ghost known = { input_of };

    ghost read_keeps = { λ _ _. ⊤ };

    fn read(&mut self, into: &mut [u8]) -> Result<usize, ReadFailed>
        ensures within { IfOk result (λ n. n ≤ length into.new) }
        ensures bytes { ReadConsumes (Some self.old.bytes) (Some self.new.bytes) result into.new }
        ensures cause { HasCause self.old.faults self.new.faults result }
        ensures faultless { OnOk result (self.new.faults ≡ self.old.faults) }
        ensures keeps { ⊤ }
        ensures fails { IsErr result ↔ Contains self.old.failing self.old.calls }
        ensures counts { Counts self.old self.new result }
    {
        if self.calls.begin() {
            return Err(ReadFailed);
        }
        let (_, rest) = self.bytes.as_slice().split_at(self.at);
        let count = copy_front(rest, into);
        self.at += count;
        Ok(count)
    }
}

/// A sink into memory. It tells what it has taken, and holds nothing back.
#[derive(Drop)]
pub struct MemSink {
    bytes: Bytes,
    calls: Calls,
}

impl Model for MemSink {
    ghost use Rattle.link.specs.Memory.{Stream, stream};

    ghost Value = { Stream };

    ghost view = { λ s. stream s.bytes s.calls.made s.calls.failing s.calls.faults };
}

impl MemSink {
    /// An empty sink. Its calls are counted from 0, and those whose numbers stand in `failing`
    /// fail; such a `put` takes the first half of its piece, or nothing where memory runs out.
    /// Another `put` fails only where memory runs out, and takes nothing then.
    pub fn new(alloc: Global, failing: Numbers) -> MemSink
        ensures { result ≡ record { bytes = []; calls = 0; failing = failing; faults = 0 } }
    {
        MemSink {
            bytes: Bytes::new(alloc),
            calls: Calls {
                made: 0,
                failing,
                faults: 0,
            },
        }
    }

    pub fn bytes(&self) -> &[u8]
        ensures { result.now ≡ self.now.bytes }
    {
        self.bytes.as_slice()
    }
}

impl Sink for MemSink {
    ghost use Rattle.std.specs.Prelude.{⊤};
    ghost use Rattle.link.specs.Memory.{output_of};

    ghost known = { output_of };

    ghost put_keeps = { λ _ _. ⊤ };

    fn put(&mut self, piece: &[u8]) -> Result<(), WriteFailed>
        ensures ok { OnOk result (Appends (Some self.old.bytes) (Some self.new.bytes) piece.now) }
        ensures err { OnErr result
            (AppendsFront (Some self.old.bytes) (Some self.new.bytes) piece.now) }
        ensures cause { HasCause self.old.faults self.new.faults result }
        ensures keeps { ⊤ }
        ensures failed { OnErr result (FailedPut self.old self.new piece.now) }
        ensures fails { Contains self.old.failing self.old.calls → IsErr result }
        ensures counts { Counts self.old self.new result }
    {
        if self.calls.begin() {
            take_half(&mut self.bytes, piece);
            return Err(WriteFailed);
        }
        if self.bytes.extend(piece).is_err() {
            self.calls.fail();
            return Err(WriteFailed);
        }
        Ok(())
    }

    fn flush(&mut self) -> Result<(), WriteFailed>
        ensures same { Keeps (Some self.old.bytes) (Some self.new.bytes) }
        ensures cause { HasCause self.old.faults self.new.faults result }
        ensures keeps { ⊤ }
        ensures fails { IsErr result ↔ Contains self.old.failing self.old.calls }
        ensures counts { Counts self.old self.new result }
    {
        if self.calls.begin() {
            return Err(WriteFailed);
        }
        Ok(())
    }
}

/// A connection in memory: a source and a sink side by side.
#[derive(Drop)]
pub struct MemConn {
    source: MemSource,
    sink: MemSink,
}

impl Model for MemConn {
    ghost use Rattle.link.specs.Memory.{Line};

    ghost Value = { Line };

    ghost view = { λ c. record { source = c.source; sink = c.sink } };
}

impl MemConn {
    pub fn new(source: MemSource, sink: MemSink) -> MemConn
        ensures { result ≡ record { source = source; sink = sink } }
    {
        MemConn { source, sink }
    }

    /// What was written to the connection.
    pub fn sink(&self) -> &MemSink
        ensures { result.now ≡ self.now.sink }
    {
        &self.sink
    }
}

impl Source for MemConn {
    ghost use Rattle.std.specs.Prelude.{◌≡◌};
    ghost use Rattle.link.specs.Memory.{input_of};

    ghost known = { λ c. input_of c.source };

    ghost read_keeps = { λ a b. b.sink ≡ a.sink };

    fn read(&mut self, into: &mut [u8]) -> Result<usize, ReadFailed>
        ensures within { IfOk result (λ n. n ≤ length into.new) }
        ensures bytes { ReadConsumes (Some self.old.source.bytes)
            (Some self.new.source.bytes) result into.new }
        ensures cause { HasCause self.old.source.faults self.new.source.faults result }
        ensures faultless { OnOk result (self.new.source.faults ≡ self.old.source.faults) }
        ensures keeps { self.new.sink ≡ self.old.sink }
        ensures fails { IsErr result ↔ Contains self.old.source.failing self.old.source.calls }
        ensures counts { Counts self.old.source self.new.source result }
    {
        self.source.read(into)
    }
}

impl Sink for MemConn {
    ghost use Rattle.std.specs.Prelude.{◌≡◌};
    ghost use Rattle.link.specs.Memory.{output_of};

    ghost known = { λ c. output_of c.sink };

    ghost put_keeps = { λ a b. b.source ≡ a.source };

    fn put(&mut self, piece: &[u8]) -> Result<(), WriteFailed>
        ensures ok { OnOk result
            (Appends (Some self.old.sink.bytes) (Some self.new.sink.bytes) piece.now) }
        ensures err { OnErr result
            (AppendsFront (Some self.old.sink.bytes) (Some self.new.sink.bytes) piece.now) }
        ensures cause { HasCause self.old.sink.faults self.new.sink.faults result }
        ensures keeps { self.new.source ≡ self.old.source }
        ensures failed { OnErr result (FailedPut self.old.sink self.new.sink piece.now) }
        ensures fails { Contains self.old.sink.failing self.old.sink.calls → IsErr result }
        ensures counts { Counts self.old.sink self.new.sink result }
    {
        self.sink.put(piece)
    }

    fn flush(&mut self) -> Result<(), WriteFailed>
        ensures same { Keeps (Some self.old.sink.bytes) (Some self.new.sink.bytes) }
        ensures cause { HasCause self.old.sink.faults self.new.sink.faults result }
        ensures keeps { self.new.source ≡ self.old.source }
        ensures fails { IsErr result ↔ Contains self.old.sink.failing self.old.sink.calls }
        ensures counts { Counts self.old.sink self.new.sink result }
    {
        self.sink.flush()
    }
}

impl Conn for MemConn {
    ghost use Rattle.std.proofs.Common.{ap, refl};
    ghost use Rattle.link.specs.Memory.{input_of, output_of};

    ghost read_leaves_sink = { λ a b same. ap output_of same };

    ghost put_leaves_source = { λ a b same. ap input_of same };
}

// Takes the first half of the piece, or nothing where memory runs out.
fn take_half(bytes: &mut Bytes, piece: &[u8])
    ensures { (bytes.new ≡ bytes.old ++ take (length piece.now / 2) piece.now)
        ⊎ (bytes.new ≡ bytes.old) }
{
    let half = piece.len() / 2;
    let _ = bytes.extend(&piece[..half]);
}

// Copies as much of the front as there is room for.
fn copy_front(from: &[u8], into: &mut [u8]) -> usize
    ensures within { (result ≤ length from.now) × (result ≤ length into.new) }
    ensures copied { take result into.new ≡ take result from.now }
    ensures all { result ≡ 0 → 0 < length into.new → from.now ≡ [] }
{
    let count = from.len().min(into.len());
    into[..count].copy_from_slice(&from[..count]);
    count
}
