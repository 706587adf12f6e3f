//! What holds of all contents, as the contract of a function that does nothing.
ghost use Rattle.content.specs.Reading.{ContentsReadBack};

/// What is written for a content reads as it and as nothing else.
pub fn law_contents()
    ensures { ContentsReadBack }
{}
