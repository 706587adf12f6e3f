//! What holds of every world, each as the contract of a function that does nothing.
ghost use Rattle.std.specs.Prelude.{List};
ghost use Rattle.conflicts.specs.State.{Text};
ghost use Rattle.lineage.specs.Histories.{Ancestry, Cover};
ghost use Rattle.sync_world.specs.Worked.{WorldsAsWorked};
ghost use Rattle.sync_world.specs.World.{WorldStep, after_all, histories, start};

/// Worked worlds: a whole session, a reply that is lost, and a request that comes again.
pub fn law_worked()
    ensures { WorldsAsWorked }
{}

/// Of two revisions of a document that were made anywhere, one is newer exactly if it descends from
/// the other; equal revisions are one making; and a revision has one content.
pub fn law_ancestry()
    ensures { (name : Text) (steps : List WorldStep)
        → Ancestry (histories (after_all (start name) steps)) }
{}

/// Nothing that a replica accepted is lost: it is a member there, or an ancestor of one. The
/// current revision is a member.
pub fn law_cover()
    ensures { (name : Text) (steps : List WorldStep)
        → Cover (histories (after_all (start name) steps)) }
{}
