//! For a run to which no connection is to come.
use link::MemConn;
use sync_link::{AcceptFailed, Acceptor};

/// Gives no connection, and never fails.
#[derive(Drop)]
pub struct NoDoor;

impl Acceptor for NoDoor {
    ghost use Rattle.std.specs.Prelude.{[], None, Some};

    type Conn = MemConn;

    ghost known = { λ door. record {
      to_come = Some [];
      given_back = None;
      out = None;
      faults = 0;
    } };

    fn next(&mut self, _port: u16, _wait: bool) -> Result<Option<MemConn>, AcceptFailed> {
        Ok(None)
    }

    fn give_back(&mut self, _conn: MemConn) {}
}
