//! What holds of every store, each as the contract of a function that does nothing.
ghost use Rattle.volume.specs.Laws.{FoundIsExact, StoresStand};

/// Where a store stands it is found: by the reads, and after a crash, whatever the other image
/// holds.
pub fn law_store()
    ensures { StoresStand }
{}

/// What is found of three files is exactly what their bytes are.
pub fn law_found()
    ensures { FoundIsExact }
{}
