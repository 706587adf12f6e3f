//! What the calls are of the definition of serving, as the contract of a function that does nothing.
ghost use Rattle.sync_exchange.specs.Laws.{CasesOfServing};

/// Each call decides one case of serving.
pub fn law_cases()
    ensures { CasesOfServing }
{}
