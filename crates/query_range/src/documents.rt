//! What the answers are by the documents that a table is of.
ghost use Rattle.query_range.specs.Answers.{AnswersByDocuments};

/// In the table of documents an answer is that by these documents, and there is no other.
pub fn law_answers()
    ensures { AnswersByDocuments }
{}
