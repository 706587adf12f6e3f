//! Where connections come from.
ghost use Rattle.std.specs.Prelude.{◌≡◌, ◌≤◌, IfSome};
ghost use Rattle.u1_base.specs.Causes.{HasCause};
ghost use Rattle.sync_link.specs.Doors.{DoorKnown, LetsOut, took_back};

use link::Conn;
use thiserror::Error;

/// A door failed to give a connection, and counted a fault.
#[derive(Clone, Copy, Debug, PartialEq, Eq, Error)]
#[error("no connection could be accepted")]
pub struct AcceptFailed;

/// Gives connections to a server, and takes them back when they were served.
pub trait Acceptor {
    type Conn: Conn + Drop;

    /// The connections that are to come, that are out and that were given back, as far as told, and
    /// how many calls failed. That number never falls.
    ghost known: { Self → DoorKnown Self.Conn };

    /// Gives the next connection to this port. A door that tells its list gives none only where the
    /// list is empty. Any other one may give none without `wait` where none has come yet.
    fn next(&mut self, port: u16, wait: bool) -> Result<Option<Self::Conn>, AcceptFailed>
        ensures lets_out { LetsOut wait (known self.old) (known self.new) result }
        ensures cause { HasCause (known self.old).faults (known self.new).faults result };

    /// Takes a connection back. It cannot fail.
    fn give_back(&mut self, conn: Self::Conn)
        requires { IfSome (known self.old).out (λ n. 1 ≤ n) }
        ensures { known self.new ≡ took_back conn (known self.old) };
}
