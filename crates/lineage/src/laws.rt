//! What holds of the histories of any replicas, as the contract of a function that does nothing.
ghost use Rattle.lineage.specs.Laws.{LineageIsKept};

/// Empty histories descend, each lawful step keeps that, and where histories descend a clock says
/// what ancestry says, and each accepted revision is a member or an ancestor of one.
pub fn law_lineage()
    ensures { LineageIsKept }
{}
