//! Asks that go to another replica.
ghost use Rattle.std.specs.Prelude.{◌≡◌, ◌<◌, ℕ, List, length};
ghost use Rattle.u1_base.specs.Causes.{HasCauseOf};
ghost use Rattle.conflicts.specs.State.{State};
ghost use Rattle.sync_link.specs.Links.{Begins, Finishes, Gives, LinkKnown, PeerServes, Sends};

use sync_http::Address;
use thiserror::Error;
use u1_base::Memory;

/// How far the ask under way has come.
#[derive(Clone, Copy, PartialEq, Eq)]
pub enum Phase {
    /// No ask is under way.
    Idle,
    /// The request is handed on.
    Sending,
    /// The request is whole, and its reply is handed back.
    Receiving,
}

/// Why a call of a link gave its ask up.
#[derive(Clone, Copy, Debug, PartialEq, Eq, Error)]
pub enum AskFault {
    /// The link failed, and counted a fault.
    #[error("the link failed")]
    Failed,
    #[error("out of memory")]
    Memory,
}

impl From<Memory> for AskFault {
    ghost use Rattle.std.specs.Prelude.{◌≡◌};
    ghost use Rattle.sync_link.specs.declared.asking.AskFault.TheVariants as fault;

    ghost from_gives = { λ _ e. e ≡ fault.Memory };

    fn from(_memory: Memory) -> AskFault {
        AskFault::Memory
    }
}

/// Carries requests to a peer, and its replies back, one ask after another.
///
/// After an error no ask is under way.
pub trait Link {
    /// The asks and what is told of the peer, and how many calls failed. That number never falls.
    ghost known: { Self → LinkKnown };

    /// How the peer serves: by this seed, in this state, this request has this reply and leads to
    /// this state.
    ghost serves: { ℕ → State → List ℕ → List ℕ → State → Type 0 };

    /// What serving leaves that stops within a request: by this seed, in this state, this request
    /// may leave this state.
    ghost stops: { ℕ → State → List ℕ → State → Type 0 };

    /// Begins an ask. One that is under way is given up.
    fn begin(&mut self, to: &Address) -> Result<(), AskFault>
        ensures begins { Begins to.now (known self.old) (known self.new) result }
        ensures cause { HasCauseOf AskFault.Failed
            (known self.old).faults (known self.new).faults result };

    /// Hands on the whole piece as the next part of the request. After an error a front of it was.
    fn send(&mut self, piece: &[u8]) -> Result<(), AskFault>
        requires { (known self.old).phase ≡ Phase.Sending }
        ensures sends { Sends piece.now (known self.old) (known self.new) result }
        ensures cause { HasCauseOf AskFault.Failed
            (known self.old).faults (known self.new).faults result };

    /// Ends the request, and waits for its reply. No byte of the reply is given yet.
    fn finish(&mut self) -> Result<(), AskFault>
        requires { (known self.old).phase ≡ Phase.Sending }
        ensures finishes { Finishes (known self.old) (known self.new) result }
        ensures peer { PeerServes serves stops (known self.old) (known self.new) result }
        ensures cause { HasCauseOf AskFault.Failed
            (known self.old).faults (known self.new).faults result };

    /// Gives the next bytes of the reply, at least one. It fails at the end of the reply: the
    /// caller knows from the head how many bytes there are, and does not ask for more.
    fn receive(&mut self, into: &mut [u8]) -> Result<usize, AskFault>
        requires phase { (known self.old).phase ≡ Phase.Receiving }
        requires room { 0 < length into.old }
        ensures gives { Gives (known self.old) (known self.new) into.old into.new result }
        ensures cause { HasCauseOf AskFault.Failed
            (known self.old).faults (known self.new).faults result };
}
