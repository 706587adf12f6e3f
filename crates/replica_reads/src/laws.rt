//! What holds of all states and of all that a state answers, each as the contract of a function that
//! does nothing.
ghost use Rattle.replica_reads.specs.Answers.{AnswersAreFilters};
ghost use Rattle.replica_reads.specs.Documents.{ListsDocuments};
ghost use Rattle.replica_reads.specs.IndexAnswers.{AnswersOfLists};
ghost use Rattle.replica_reads.specs.SameLists.{MeaningTellsLists};

/// The ids that are listed are those at which something is got, and they rise.
pub fn law_documents()
    ensures { ListsDocuments }
{}

/// The answers and the keys that the definitions compute are those that the relations describe, and
/// there are no others.
pub fn law_answers()
    ensures { AnswersAreFilters }
{}

/// Two states that stand for one state of a history have the same lists: documents, log, positions
/// and indexes. Their room may differ.
pub fn law_lists()
    ensures { MeaningTellsLists }
{}

/// What the index answers that a state lends is a function of the lists of this state: the filter
/// of its live documents.
pub fn law_index_answers()
    ensures { AnswersOfLists }
{}
