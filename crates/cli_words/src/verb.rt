//! The commands by their words alone.
ghost use Rattle.std.specs.Prelude.{◌≡◌, ◌≤◌, IfSome};
ghost use Rattle.cli_words.specs.Table.{row_of, verb_in};

use crate::synopsis::{Allowed, Synopsis};

/// A command without its operands.
#[derive(Clone, Copy, PartialEq, Eq)]
pub enum Verb {
    Init,
    Create,
    Get,
    Put,
    Delete,
    Conflicts,
    Resolve,
    ResolveDeleted,
    IndexCreate,
    IndexDelete,
    IndexList,
    Query,
    Range,
    Keys,
    All,
    Changes,
    Info,
    Compact,
    Sync,
    Serve,
    ServeDocs,
    Node,
    Work,
    ViewCreate,
    ViewShow,
    ViewDelete,
}

pub const VERBS: [Verb; 26] = [
    Verb::Init,
    Verb::Create,
    Verb::Get,
    Verb::Put,
    Verb::Delete,
    Verb::Conflicts,
    Verb::Resolve,
    Verb::ResolveDeleted,
    Verb::IndexCreate,
    Verb::IndexDelete,
    Verb::IndexList,
    Verb::Query,
    Verb::Range,
    Verb::Keys,
    Verb::All,
    Verb::Changes,
    Verb::Info,
    Verb::Compact,
    Verb::Sync,
    Verb::Serve,
    Verb::ServeDocs,
    Verb::Node,
    Verb::Work,
    Verb::ViewCreate,
    Verb::ViewShow,
    Verb::ViewDelete,
];

impl Verb {
    /// The command that the word names.
    pub fn of_word(word: &str) -> Option<Verb>
        ensures { result ≡ verb_in word.now }
    {
        VERBS.iter().copied().find(|verb| verb.word() == word)
    }

    /// The word that names it.
    pub fn word(self) -> &'static str
        ensures { result.now ≡ (row_of self).word }
    {
        match self {
            Verb::Init => "init",
            Verb::Create => "create",
            Verb::Get => "get",
            Verb::Put => "put",
            Verb::Delete => "delete",
            Verb::Conflicts => "conflicts",
            Verb::Resolve => "resolve",
            Verb::ResolveDeleted => "resolve-deleted",
            Verb::IndexCreate => "index-create",
            Verb::IndexDelete => "index-delete",
            Verb::IndexList => "index-list",
            Verb::Query => "query",
            Verb::Range => "range",
            Verb::Keys => "keys",
            Verb::All => "all",
            Verb::Changes => "changes",
            Verb::Info => "info",
            Verb::Compact => "compact",
            Verb::Sync => "sync",
            Verb::Serve => "serve",
            Verb::ServeDocs => "serve-docs",
            Verb::Node => "node",
            Verb::Work => "work",
            Verb::ViewCreate => "view-create",
            Verb::ViewShow => "view-show",
            Verb::ViewDelete => "view-delete",
        }
    }

    /// Its operands and its option, as they are shown to people.
    pub fn shown(self) -> &'static str
        ensures { result.now ≡ (row_of self).shown }
    {
        match self {
            Verb::Init => "NAME [UID] [--limit N]",
            Verb::Create => "[ID]",
            Verb::Get => "ID [--deleted]",
            Verb::Put => "ID [REV]",
            Verb::Delete => "ID REV",
            Verb::Conflicts => "ID",
            Verb::Resolve | Verb::ResolveDeleted => "ID REV...",
            Verb::IndexCreate => "NAME EXPRESSION...",
            Verb::IndexDelete | Verb::Keys | Verb::ViewShow | Verb::ViewDelete => "NAME",
            Verb::IndexList | Verb::Info | Verb::Compact => "",
            Verb::Query => "NAME VALUE...",
            Verb::Range => "NAME START END",
            Verb::All => "[--deleted]",
            Verb::Changes => "GENERATION",
            Verb::Sync => "ADDRESS",
            Verb::Serve | Verb::ServeDocs => "PORT COUNT",
            Verb::Node => "PORT ADDRESS ROUNDS BETWEEN",
            Verb::Work => "SEED COUNT",
            Verb::ViewCreate => "NAME INDEX VALUE...",
        }
    }

    pub fn synopsis(self) -> Synopsis
        ensures value { result ≡ (row_of self).synopsis }
        ensures ordered { IfSome result.most (λ most. result.least ≤ most) }
    {
        match self {
            Verb::Init => with_operands(1, Some(2), Allowed::Limit),
            Verb::Create => with_operands(0, Some(1), Allowed::Nothing),
            Verb::Get => with_operands(1, Some(1), Allowed::Deleted),
            Verb::Put => with_operands(1, Some(2), Allowed::Nothing),
            Verb::Conflicts
            | Verb::IndexDelete
            | Verb::Keys
            | Verb::Changes
            | Verb::Sync
            | Verb::ViewShow
            | Verb::ViewDelete => with_operands(1, Some(1), Allowed::Nothing),
            Verb::Delete | Verb::Serve | Verb::ServeDocs | Verb::Work => {
                with_operands(2, Some(2), Allowed::Nothing)
            }
            Verb::Resolve | Verb::ResolveDeleted | Verb::Query => {
                with_operands(2, None, Allowed::Nothing)
            }
            Verb::IndexCreate => with_operands(2, Some(9), Allowed::Nothing),
            Verb::IndexList | Verb::Info | Verb::Compact => {
                with_operands(0, Some(0), Allowed::Nothing)
            }
            Verb::Range => with_operands(3, Some(3), Allowed::Nothing),
            Verb::All => with_operands(0, Some(0), Allowed::Deleted),
            Verb::Node => with_operands(4, Some(4), Allowed::Nothing),
            Verb::ViewCreate => with_operands(3, None, Allowed::Nothing),
        }
    }
}

fn with_operands(least: usize, most: Option<usize>, option: Allowed) -> Synopsis
    ensures { result ≡ record { least = least; most = most; option = option } }
{
    Synopsis {
        least,
        most,
        option,
    }
}
