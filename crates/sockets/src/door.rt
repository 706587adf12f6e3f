//! A door of this machine over TCP.
ghost use Rattle.std.specs.Prelude.{◌≡◌, ◌≢◌, IfOk, IsSome, IsTrue, None, OnErr};
ghost use Rattle.u1_base.specs.Causes.{HasCause};
ghost use Rattle.sync_link.specs.Doors.{LetsOut, took_back};
ghost use Rattle.sockets.specs.Known.{door_fault, door_known};

use crate::conn::TcpConn;
use std::io::{self, ErrorKind};
use std::net::{Net, OpenListener, TcpListener};
use sync_link::{AcceptFailed, Acceptor};

/// Takes connections at 127.0.0.1. It listens from the first call on, at the port of the call.
#[derive(Drop)]
pub struct TcpAcceptor<R: Net + Drop> {
    rt: R,
    listener: Option<R::Listener>,
    port: u16,
    faults: u64,
    fault: Option<io::Error>,
}

impl<R: Net + Drop> TcpAcceptor<R> {
    pub fn new(rt: R) -> TcpAcceptor<R> {
        TcpAcceptor {
            rt,
            listener: None,
            port: 0,
            faults: 0,
            fault: None,
        }
    }

    /// Why its last failed call failed.
    pub fn fault(&self) -> Option<io::Error>
        ensures { result ≡ door_fault self.now }
    {
        self.fault
    }
}

// Listens at the port, if it does not yet.
fn listen<R: Net>(
    rt: &R,
    listener: &mut Option<R::Listener>,
    at: &mut u16,
    port: u16,
) -> io::Result<()> {
    if listener.is_none() || *at != port {
        *listener = None;
        *listener = Some(TcpListener::bind(rt, ("127.0.0.1", port))?);
        *at = port;
    }
    Ok(())
}

// The next connection; none only where it is not waited for.
fn accept<L: OpenListener>(listener: &Option<L>, wait: bool) -> io::Result<Option<L::Stream>>
    ensures { IfOk result (λ found. IsTrue wait → found ≢ None) }
{
    let Some(listener) = listener else {
        return Err(io::Error::from(ErrorKind::NotConnected));
    };
    listener.set_nonblocking(!wait)?;
    for _ in 0..u64::MAX {
        match listener.accept() {
            Ok((stream, _)) => return Ok(Some(stream)),
            Err(error) => {
                if error.kind() == ErrorKind::WouldBlock && !wait {
                    return Ok(None);
                }
                if error.kind() != ErrorKind::Interrupted {
                    return Err(error);
                }
            }
        }
    }
    Err(io::Error::from(ErrorKind::TimedOut))
}

impl<R: Net + Drop> Acceptor for TcpAcceptor<R> {
    type Conn = TcpConn<R::Stream>;

    ghost use Rattle.sockets.specs.Known.{door_known};

    ghost known = { door_known };

    fn next(&mut self, port: u16, wait: bool) -> Result<Option<TcpConn<R::Stream>>, AcceptFailed>
        ensures lets_out { LetsOut wait (door_known self.old) (door_known self.new) result }
        ensures cause { HasCause self.old.faults self.new.faults result }
        ensures why { OnErr result (IsSome (door_fault self.new)) }
    {
        let accepted = match listen(&self.rt, &mut self.listener, &mut self.port, port) {
            Ok(()) => accept(&self.listener, wait),
            Err(error) => Err(error),
        };
        match accepted {
            Ok(Some(stream)) => Ok(Some(TcpConn::over(stream))),
            Ok(None) => Ok(None),
            Err(error) => {
                self.faults = self.faults.saturating_add(1);
                self.fault = Some(error);
                Err(AcceptFailed)
            }
        }
    }

    fn give_back(&mut self, conn: TcpConn<R::Stream>)
        ensures { door_known self.new ≡ took_back conn (door_known self.old) }
    {
        conn.close();
    }
}
