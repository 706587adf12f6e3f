//! What holds of all logs and places, each as the contract of a function that does nothing.
ghost use Rattle.translog.specs.Laws.{ChangesGrow, FitsWhileGrowing, TestsDecide};

/// A position that fits a log still fits when the log has grown.
pub fn law_growth()
    ensures { FitsWhileGrowing }
{}

/// How the changes since a generation grow with one more entry.
pub fn law_changes()
    ensures { ChangesGrow }
{}

/// The end of a log, the log check and the source check: each test says what its relation says.
pub fn law_tests()
    ensures { TestsDecide }
{}
