//! A request is sent.
ghost use Rattle.std.specs.Prelude.{[], OnErr, OnOk};
ghost use Rattle.u1_base.specs.Causes.{HasCauseOf};
ghost use Rattle.sync_asking.specs.Carried.{Awaits, Carries};

use sync_http::Address;
use sync_link::{AskFault, Link};

/// Sends the whole request to this address. Its reply is to come.
pub fn send_whole<L: Link>(link: &mut L, to: &Address, request: &[u8]) -> Result<(), AskFault>
    ensures awaits { OnOk result (Awaits L.serves L.stops
        (L.known link.old) (L.known link.new) to.now request.now) }
    ensures given_up { OnErr result (Carries L.serves L.stops
        (L.known link.old) (L.known link.new) to.now request.now []) }
    ensures cause { HasCauseOf AskFault.Failed
        (L.known link.old).faults (L.known link.new).faults result }
{
    link.begin(to)?;
    link.send(request)?;
    link.finish()
}
