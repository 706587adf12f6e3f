//! A connection over TCP.
ghost use Rattle.std.specs.Prelude.{◌≡◌, ◌≤◌, false, IfOk, None, OnErr, OnOk, IsSome, length};
ghost use Rattle.std.specs.Io.KnownBytes.{Appends, Keeps, ReadConsumes};
ghost use Rattle.u1_base.specs.Causes.{HasCause};
ghost use Rattle.link.specs.Streams.{AppendsFront};
ghost use Rattle.sockets.specs.Known.{conn_fault, conn_input, conn_output};

use crate::streams::read_some;
use link::{Conn, ReadFailed, Sink, Source, WriteFailed};
use std::io::{self, Read, Write};
use std::net::{OpenStream, Shutdown};
use std::time::Duration;

/// How many seconds the other end may say nothing, or take nothing, before a call fails.
const PATIENCE: u64 = 60;

/// How much is still read before a connection is closed: so many times 4,096 bytes.
const LAST_READS: u32 = 64;

/// How many milliseconds each of these reads is waited for.
const LAST_WAIT: u64 = 100;

/// A connection. It tells nothing of the bytes that pass it, and holds nothing back.
#[derive(Drop)]
pub struct TcpConn<T: Read + Write + OpenStream + Drop> {
    stream: T,
    read_faults: u64,
    write_faults: u64,
    fault: Option<io::Error>,
}

impl<T: Read + Write + OpenStream + Drop> TcpConn<T> {
    /// Over a stream that was opened. Where the system can, a read or a write fails that waits for
    /// a minute.
    pub(crate) fn over(stream: T) -> TcpConn<T> {
        let _ = stream.set_read_timeout(Some(Duration::from_secs(PATIENCE)));
        let _ = stream.set_write_timeout(Some(Duration::from_secs(PATIENCE)));
        TcpConn {
            stream,
            read_faults: 0,
            write_faults: 0,
            fault: None,
        }
    }

    /// Why its last failed call failed.
    pub fn fault(&self) -> Option<io::Error>
        ensures { result ≡ conn_fault self.now }
    {
        self.fault
    }

    /// Ends its own side, and reads a little before it closes. A peer that is still writing would
    /// else lose the reply: the system resets a connection that is closed with bytes unread.
    pub(crate) fn close(mut self) {
        let _ = self.stream.shutdown(Shutdown::Write);
        let _ = self
            .stream
            .set_read_timeout(Some(Duration::from_millis(LAST_WAIT)));
        let mut room = [0; 4096];
        for _ in 0..LAST_READS {
            match read_some(&mut self.stream, &mut room) {
                Ok(0) | Err(_) => break,
                Ok(_) => {}
            }
        }
    }
}

impl<T: Read + Write + OpenStream + Drop> Source for TcpConn<T> {
    ghost use Rattle.std.specs.Prelude.{◌≡◌};
    ghost use Rattle.sockets.specs.Known.{conn_input, conn_output};

    ghost known = { conn_input };

    ghost read_keeps = { λ a b. conn_output b ≡ conn_output a };

    fn read(&mut self, into: &mut [u8]) -> Result<usize, ReadFailed>
        ensures within { IfOk result (λ n. n ≤ length into.new) }
        ensures bytes { ReadConsumes (conn_input self.old).left (conn_input self.new).left
            result into.new }
        ensures cause { HasCause (conn_input self.old).faults (conn_input self.new).faults result }
        ensures faultless { OnOk result
            ((conn_input self.new).faults ≡ (conn_input self.old).faults) }
        ensures keeps { conn_output self.new ≡ conn_output self.old }
        ensures why { OnErr result (IsSome (conn_fault self.new)) }
    {
        match read_some(&mut self.stream, into) {
            Ok(count) => Ok(count),
            Err(error) => {
                self.read_faults = self.read_faults.saturating_add(1);
                self.fault = Some(error);
                Err(ReadFailed)
            }
        }
    }
}

impl<T: Read + Write + OpenStream + Drop> Sink for TcpConn<T> {
    ghost use Rattle.std.specs.Prelude.{◌≡◌};
    ghost use Rattle.sockets.specs.Known.{conn_input, conn_output};

    ghost known = { conn_output };

    ghost put_keeps = { λ a b. conn_input b ≡ conn_input a };

    fn put(&mut self, piece: &[u8]) -> Result<(), WriteFailed>
        ensures ok { OnOk result (Appends (conn_output self.old).taken
            (conn_output self.new).taken piece.now) }
        ensures err { OnErr result (AppendsFront (conn_output self.old).taken
            (conn_output self.new).taken piece.now) }
        ensures cause { HasCause (conn_output self.old).faults
            (conn_output self.new).faults result }
        ensures keeps { conn_input self.new ≡ conn_input self.old }
        ensures why { OnErr result (IsSome (conn_fault self.new)) }
    {
        match self.stream.write_all(piece) {
            Ok(()) => Ok(()),
            Err(error) => {
                self.write_faults = self.write_faults.saturating_add(1);
                self.fault = Some(error);
                Err(WriteFailed)
            }
        }
    }

    fn flush(&mut self) -> Result<(), WriteFailed>
        ensures handed_on { OnOk result ((conn_output self.new).held ≡ false) }
        ensures same { Keeps (conn_output self.old).taken (conn_output self.new).taken }
        ensures cause { HasCause (conn_output self.old).faults
            (conn_output self.new).faults result }
        ensures keeps { conn_input self.new ≡ conn_input self.old }
    {
        Ok(())
    }
}

impl<T: Read + Write + OpenStream + Drop> Conn for TcpConn<T> {
    ghost read_leaves_sink = { λ a b same. same };

    ghost put_leaves_source = { λ a b same. same };
}
