//! What holds of all expressions and their texts, each as the contract of a function that does
//! nothing.
ghost use Rattle.expr_parser.specs.Reading.{ExprsReadBack, IndexTextsReadBack};

/// A text reads as one expression at most, which reads back from its canonical text, and no other
/// has this text.
pub fn law_exprs()
    ensures { ExprsReadBack }
{}

/// One to eight expressions are told by their canonical texts.
pub fn law_index_texts()
    ensures { IndexTextsReadBack }
{}
