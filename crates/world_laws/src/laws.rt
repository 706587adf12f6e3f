//! What holds of every world, each as the contract of a function that does nothing.
ghost use Rattle.std.specs.Prelude.{◌≢◌, List};
ghost use Rattle.vector_rev.specs.Counts.{Uid};
ghost use Rattle.conflicts.specs.State.{Text};
ghost use Rattle.conflicts.specs.inner.Paired.{Paired};
ghost use Rattle.sync_world.specs.World.{WorldStep, after_all, start, state};
ghost use Rattle.world_laws.specs.Quiet.{QuietAgrees};
ghost use Rattle.world_laws.specs.Worked.{QuietAsWorked};

/// Every two replicas are paired, each way round: the places that one keeps of the other fit the
/// other's log, and up to them it has what it was given.
pub fn law_positions()
    ensures { (name : Text) (steps : List WorldStep) (u v : Uid) → u ≢ v
        → Paired (state (after_all (start name) steps) u) (state (after_all (start name) steps) v) }
{}

/// A quiet session that completes leaves both sides with equal contents of each document that
/// neither held in conflict when it began.
pub fn law_quiet_sync()
    ensures { (name : Text) (before : List WorldStep)
        → QuietAgrees (after_all (start name) before) }
{}

/// A worked world: a whole session is quiet, and brings what one side had to the other.
pub fn law_quiet_worked()
    ensures { QuietAsWorked }
{}
