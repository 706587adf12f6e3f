//! What a compaction keeps, as the contract of a function that does nothing.
ghost use Rattle.compaction.specs.Law.{CompactionKeeps};

/// The compaction of a history leaves the state that the history leaves, now and after any later
/// steps. It is its own compaction, and its image is no longer.
pub fn law_compaction()
    ensures { CompactionKeeps }
{}
