//! Asks over TCP, each over a connection of its own.
ghost use Rattle.std.specs.Prelude.{◌≡◌, ◌≢◌, ◌≤◌, ◌<◌, Err, IfOk, OnErr, OnOk, drop, length, ⊤};
ghost use Rattle.u1_base.specs.Causes.{HasCauseOf, Rose};
ghost use Rattle.sync_link.specs.Links.{Begins, Finishes, Gives, PeerServes, Sends};
ghost use Rattle.sockets.specs.Known.{link_fault, link_known};

use crate::asks::TracedAsks;
use crate::streams::read_some;
use std::alloc::Global;
use std::io::{self, ErrorKind, Read, Write};
use std::net::{Net, OpenStream, TcpStream};
use std::time::Duration;
use sync_http::Address;
use sync_link::{AskFault, Link, Phase};

/// How many seconds a peer may say nothing, or take nothing, before an ask fails.
const PATIENCE: u64 = 60;

/// The most bytes that one call receives.
const MOST_AT_ONCE: usize = 16_384;

/// A link over TCP: a connection an ask. It tells nothing of the peer.
///
/// Its asks are known to contracts alone: no byte of them is kept.
#[derive(Drop)]
pub struct TcpLink<R: Net + Drop> {
    rt: R,
    asks: TracedAsks,
    stream: Option<R::Stream>,
    phase: Phase,
    faults: u64,
    fault: Option<io::Error>,
}

// A host as the system's names take it: an address of version 6 without its brackets.
fn bare(host: &str) -> &str {
    match host.strip_prefix('[') {
        Some(rest) => rest.strip_suffix(']').unwrap_or(host),
        None => host,
    }
}

// Opens a connection to the peer. Where the system can, a read or a write fails that waits for a
// minute.
fn connect<R: Net>(rt: &R, to: &Address) -> io::Result<R::Stream> {
    let stream = TcpStream::connect(rt, (bare(to.host.as_str()), to.port))?;
    let _ = stream.set_read_timeout(Some(Duration::from_secs(PATIENCE)));
    let _ = stream.set_write_timeout(Some(Duration::from_secs(PATIENCE)));
    Ok(stream)
}

fn write_on<T: Write>(stream: &mut Option<T>, piece: &[u8]) -> io::Result<()> {
    match stream {
        Some(stream) => stream.write_all(piece),
        None => Err(io::Error::from(ErrorKind::NotConnected)),
    }
}

// Reads the next bytes, at least one; the end is a fault. What is behind them in the room stays.
fn read_on<T: Read>(stream: &mut Option<T>, into: &mut [u8]) -> io::Result<usize>
    requires { 0 < length into.old }
    ensures some { IfOk result (λ n. 1 ≤ n) }
    ensures within { IfOk result (λ n. n ≤ length into.new) }
    ensures rest { IfOk result (λ n. drop n into.new ≡ drop n into.old) }
{
    let Some(stream) = stream else {
        return Err(io::Error::from(ErrorKind::NotConnected));
    };
    let mut room = [0; MOST_AT_ONCE];
    let most = into.len().min(MOST_AT_ONCE);
    let count = read_some(stream, &mut room[..most])?;
    if count == 0 {
        return Err(io::Error::from(ErrorKind::UnexpectedEof));
    }
    into[..count].copy_from_slice(&room[..count]);
    Ok(count)
}

impl<R: Net + Drop> TcpLink<R> {
    pub fn new(alloc: Global, rt: R) -> TcpLink<R> {
        TcpLink {
            rt,
            asks: TracedAsks::new(alloc),
            stream: None,
            phase: Phase::Idle,
            faults: 0,
            fault: None,
        }
    }

    /// Why its last failed call failed.
    pub fn fault(&self) -> Option<io::Error>
        ensures { result ≡ link_fault self.now }
    {
        self.fault
    }

    // Gives the ask up.
    fn give_up(&mut self)
        ensures { link_known self.new ≡ record (link_known self.old) { phase = Phase.Idle } }
    {
        self.stream = None;
        self.phase = Phase::Idle;
    }

    // Counts a fault, and gives the ask up.
    fn fail(&mut self, error: io::Error) -> AskFault
        ensures idle { link_known self.new ≡ record (link_known self.old) {
          phase = Phase.Idle;
          faults = (link_known self.new).faults;
        } }
        ensures rose { Rose (link_known self.old).faults (link_known self.new).faults }
        ensures later { (link_known self.old).faults ≤ (link_known self.new).faults }
        ensures fault { result ≡ AskFault.Failed }
    {
        self.give_up();
        self.faults = self.faults.saturating_add(1);
        self.fault = Some(error);
        AskFault::Failed
    }
}

impl<R: Net + Drop> TcpLink<R> {
    // Opens the connection of the ask that was begun.
    fn open(&mut self, to: &Address) -> Result<(), AskFault>
        ensures ok { OnOk result (link_known self.new ≡ link_known self.old) }
        ensures err { OnErr result (link_known self.new ≡ record (link_known self.old) {
          phase = Phase.Idle;
          faults = (link_known self.new).faults;
        }) }
        ensures never { result ≢ Err AskFault.Memory }
        ensures cause { HasCauseOf AskFault.Failed
            (link_known self.old).faults (link_known self.new).faults result }
    {
        match connect(&self.rt, to) {
            Ok(stream) => {
                self.stream = Some(stream);
                Ok(())
            }
            Err(error) => Err(self.fail(error)),
        }
    }

    // Writes a piece that is noted.
    fn write(&mut self, piece: &[u8]) -> Result<(), AskFault>
        ensures ok { OnOk result (link_known self.new ≡ link_known self.old) }
        ensures err { OnErr result (link_known self.new ≡ record (link_known self.old) {
          phase = Phase.Idle;
          faults = (link_known self.new).faults;
        }) }
        ensures never { result ≢ Err AskFault.Memory }
        ensures cause { HasCauseOf AskFault.Failed
            (link_known self.old).faults (link_known self.new).faults result }
    {
        match write_on(&mut self.stream, piece) {
            Ok(()) => Ok(()),
            Err(error) => Err(self.fail(error)),
        }
    }
}

impl<R: Net + Drop> Link for TcpLink<R> {
    ghost use Rattle.std.specs.Prelude.{⊤};
    ghost use Rattle.sockets.specs.Known.{link_known};

    ghost known = { link_known };

    ghost serves = { λ _ _ _ _ _. ⊤ };

    ghost stops = { λ _ _ _ _. ⊤ };

    fn begin(&mut self, to: &Address) -> Result<(), AskFault>
        ensures begins { Begins to.now (link_known self.old) (link_known self.new) result }
        ensures cause { HasCauseOf AskFault.Failed
            (link_known self.old).faults (link_known self.new).faults result }
    {
        self.give_up();
        self.asks.begin(to)?;
        self.phase = Phase::Sending;
        self.open(to)
    }

    fn send(&mut self, piece: &[u8]) -> Result<(), AskFault>
        requires { (link_known self.old).phase ≡ Phase.Sending }
        ensures sends { Sends piece.now (link_known self.old) (link_known self.new) result }
        ensures cause { HasCauseOf AskFault.Failed
            (link_known self.old).faults (link_known self.new).faults result }
    {
        if self.asks.send(piece).is_err() {
            self.give_up();
            return Err(AskFault::Memory);
        }
        match self.write(piece) {
            Ok(()) => Ok(()),
            Err(fault) => Err(fault),
        }
    }

    fn finish(&mut self) -> Result<(), AskFault>
        requires { (link_known self.old).phase ≡ Phase.Sending }
        ensures finishes { Finishes (link_known self.old) (link_known self.new) result }
        ensures peer { PeerServes (λ _ _ _ _ _. ⊤) (λ _ _ _ _. ⊤)
            (link_known self.old) (link_known self.new) result }
        ensures cause { HasCauseOf AskFault.Failed
            (link_known self.old).faults (link_known self.new).faults result }
    {
        self.phase = Phase::Receiving;
        Ok(())
    }

    fn receive(&mut self, into: &mut [u8]) -> Result<usize, AskFault>
        requires phase { (link_known self.old).phase ≡ Phase.Receiving }
        requires room { 0 < length into.old }
        ensures gives { Gives (link_known self.old) (link_known self.new) into.old into.new result }
        ensures cause { HasCauseOf AskFault.Failed
            (link_known self.old).faults (link_known self.new).faults result }
    {
        let count = match read_on(&mut self.stream, into) {
            Ok(count) => count,
            Err(error) => return Err(self.fail(error)),
        };
        if self.asks.give(&into[..count]).is_err() {
            self.give_up();
            return Err(AskFault::Memory);
        }
        Ok(count)
    }
}
