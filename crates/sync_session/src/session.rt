//! A session between its phases.
use std::marker::Model;
use sync_http::Address;
use u1_base::{Position, ReplicaUid};

/// A session before its target is asked.
#[derive(Drop)]
pub struct Asking {
    pub(crate) to: Address,
    pub(crate) seed: u128,
}

impl Model for Asking {
    ghost use Rattle.sync_phases.specs.Seen.{Begun};

    ghost Value = { Begun };

    ghost view = { λ x. record { to = x.to; seed = x.seed } };
}

impl Asking {
    ghost use Rattle.std.specs.Prelude.{◌≡◌};

    /// A session with the replica of this address. The transaction ids are made of the seed.
    pub fn new(to: Address, seed: u128) -> Asking
        ensures { result ≡ record { to = to; seed = seed } }
    {
        Asking { to, seed }
    }
}

/// A session whose target has told its info: documents are to be exchanged.
#[derive(Drop)]
pub struct Sending {
    pub(crate) to: Address,
    pub(crate) seed: u128,
    pub(crate) target: ReplicaUid,
    pub(crate) told: Position,
}

impl Model for Sending {
    ghost use Rattle.sync_phases.specs.Seen.{Informed};

    ghost Value = { Informed };

    ghost view = { λ x. record { to = x.to; seed = x.seed; target = x.target; told = x.told } };
}

/// A session that has taken what came back.
#[derive(Drop)]
pub struct Taking {
    pub(crate) course: Course,
}

impl Model for Taking {
    ghost use Rattle.sync_phases.specs.Seen.{Exchanged};
    ghost use Rattle.sync_session.specs.Seen.{exchanged_in};

    ghost Value = { Exchanged };

    ghost view = { λ x. exchanged_in x.course };
}

/// A session that knows the target's log up to its end.
#[derive(Drop)]
pub struct Recording {
    pub(crate) course: Course,
}

impl Model for Recording {
    ghost use Rattle.sync_phases.specs.Seen.{Exchanged};
    ghost use Rattle.sync_session.specs.Seen.{exchanged_in};

    ghost Value = { Exchanged };

    ghost view = { λ x. exchanged_in x.course };
}

/// What a session holds once documents were exchanged.
#[derive(Drop)]
pub(crate) struct Course {
    pub to: Address,
    pub seed: u128,
    pub target: ReplicaUid,
    pub base: u64,
    pub sent: u64,
    pub taken: u64,
    pub at: Position,
}

impl Taking {
    ghost use Rattle.std.specs.Prelude.{◌≡◌};

    /// How many documents counted as taken. It takes no memory.
    pub fn taken(&self) -> u64
        ensures { result ≡ self.now.taken }
    {
        self.course.taken
    }
}

impl Recording {
    ghost use Rattle.std.specs.Prelude.{◌≡◌};

    /// Up to which generation the target's log is known. It takes no memory.
    pub fn known(&self) -> u64
        ensures { result ≡ self.now.at.generation }
    {
        self.course.at.generation
    }
}
