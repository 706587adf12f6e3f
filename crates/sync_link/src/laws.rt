//! What holds of peers that serve as it is defined, each as the contract of a function that does
//! nothing.
ghost use Rattle.sync_link.specs.Laws.{MemoryNeverRefuses, RefusalsLeave, RepliesMayBeLost};

/// A link that loses a reply leaves its peer as a stop within the request may leave it.
pub fn law_lost_replies()
    ensures { RepliesMayBeLost }
{}

/// A refused request leaves the peer as it was.
pub fn law_refusals()
    ensures { RefusalsLeave }
{}

/// A peer that nothing but want of memory may stop never says that its store is full or failed.
pub fn law_memory_peers()
    ensures { MemoryNeverRefuses }
{}
