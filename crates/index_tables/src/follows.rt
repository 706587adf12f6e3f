//! How a table follows the documents that it is of.
ghost use Rattle.index_tables.specs.Documents.{FollowsChanges, FollowsGrowth, IsToldByDocuments};

/// Where a document changes, its entries go and those of its new keys come.
pub fn law_changes()
    ensures { FollowsChanges }
{}

/// A table grows document by document.
pub fn law_growth()
    ensures { FollowsGrowth }
{}

/// Documents tell their table.
pub fn law_documents()
    ensures { IsToldByDocuments }
{}
