//! What holds of all streams, each as the contract of a function that does nothing.
ghost use Rattle.sync_stream.specs.Laws.{BodiesByLength, BodiesPass, MessagesReadBack};
ghost use Rattle.sync_stream.specs.Laws.{OneFirstFault, OneReading, OneSaying, ReadersSay};
ghost use Rattle.sync_stream.specs.Laws.{ServingIs, StreamsReadBack, WholeStreams};

/// A text says one list of lines, however it is cut.
pub fn law_one_reading()
    ensures { OneReading }
{}

/// A text has at most one first faulty line.
pub fn law_first_fault()
    ensures { OneFirstFault }
{}

/// Lines are good up to the end exactly when they are those of a whole stream.
pub fn law_bodies()
    ensures { BodiesPass }
{}

/// A body has no fault exactly if it is a whole stream.
pub fn law_whole_streams()
    ensures { WholeStreams }
{}

/// A stream that was written is whole, and is read as what it was written for.
pub fn law_streams()
    ensures { StreamsReadBack }
{}

/// A request or a reply that was written, head and body, is read as itself, whatever follows.
pub fn law_messages()
    ensures { MessagesReadBack }
{}

/// A body is read up to the length that its head says, whatever follows. One whose bytes end before
/// that is not whole, and a small one that is longer than may be read is not read.
pub fn law_lengths()
    ensures { BodiesByLength }
{}

/// What a reader stands for is what the bytes say that came: cut, faulty or whole.
pub fn law_readers()
    ensures { ReadersSay }
{}

/// What came of a body says one list of lines, and one ending.
pub fn law_one_saying()
    ensures { OneSaying }
{}

/// What is served, at small states, and of an exchange that came in part.
pub fn law_serving()
    ensures { ServingIs }
{}
