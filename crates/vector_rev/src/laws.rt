//! What holds of all clocks, each as the contract of a function that does nothing.
ghost use Rattle.vector_rev.specs.Clock.{Clock};
ghost use Rattle.vector_rev.specs.Counts.{Uid};
ghost use Rattle.vector_rev.specs.Laws.{CountersDecide, CoveringIsAnOrder, JoinIsLeast};
ghost use Rattle.vector_rev.specs.Laws.{NextIsNewer, ReadingTellsClocks, TextsTellClocks};
ghost use Rattle.vector_rev.specs.Made.{IsJoin, IsNext};

/// Covering is a partial order, and each comparison has one answer.
pub fn law_covering()
    ensures { CoveringIsAnOrder }
{}

/// Clocks that count alike are equal.
pub fn law_counters()
    ensures { CountersDecide }
{}

/// The join is the least clock that covers both.
pub fn law_join()
    ensures { (x y z : Clock) → IsJoin x y z → JoinIsLeast x y z }
{}

/// A raised clock is newer.
pub fn law_next()
    ensures { (x z : Clock) (own : Uid) → IsNext x own z → NextIsNewer x own z }
{}

/// The text of a clock has no fault, and is the text of no other clock.
pub fn law_texts()
    ensures { TextsTellClocks }
{}

/// The text of a clock reads as that clock, and what reads as a clock is its text.
pub fn law_reading()
    ensures { ReadingTellsClocks }
{}
