//! The reader of the words.
ghost use Rattle.std.specs.Prelude.{◌≡◌, ◌≤◌, Some, length, option_map};
ghost use Rattle.cli_words.specs.Faults.{Answers};
ghost use Rattle.cli_words.specs.Table.{operands_shown, row_of};
ghost use Rattle.cli_words.specs.Words.{Reads, command_in, command_named};

use crate::fits::fits;
use crate::given::{Given, given_in};
use crate::parted::{Parted, part};
use crate::verb::Verb;
use crate::word::Word;
use crate::{Command, Show, WordsFault, documents, indexes, stores, syncs};
use std::alloc::Global;
use u1_base::Text;

/// Reads the words of a command line: the directory, the command, and its operands and options by
/// the table in `specs/Table.antt`. The directory may be any word; it is not read here.
pub fn read_words(alloc: Global, words: &[Text]) -> Result<Command, WordsFault>
    ensures { Answers (command_in words.now) result }
{
    if words.len() < 2 {
        return Err(WordsFault::Words);
    }
    let Some(verb) = Verb::of_word(words[1].as_str()) else {
        return Err(WordsFault::Words);
    };
    let parted = part(alloc, words)?;
    read_named(alloc, verb, &parted)
}

/// The operands and the option of the command that the word names, as they are shown to people: `ID
/// [REV]` for `put`.
pub fn operands_shown(word: &str) -> Option<&'static str>
    ensures { option_map (λ s. s.now) result ≡ operands_shown word.now }
{
    match Verb::of_word(word) {
        Some(verb) => Some(verb.shown()),
        None => None,
    }
}

fn read_named(alloc: Global, verb: Verb, parted: &Parted) -> Result<Command, WordsFault>
    ensures { Answers (command_named (Some verb) parted.now) result }
{
    let synopsis = verb.synopsis();
    let operands = parted.operands.as_slice();
    let Some(given) = given_in(synopsis.option, parted) else {
        return Err(WordsFault::Words);
    };
    if !fits(alloc, synopsis, &given, operands)? {
        return Err(WordsFault::Words);
    }
    read(alloc, verb, operands, &given)
}

fn read(alloc: Global, verb: Verb, operands: &[Word], given: &Given) -> Result<Command, WordsFault>
    requires { (row_of verb).synopsis.least ≤ length operands.now }
    ensures { Reads verb operands.now given.now result }
{
    match verb {
        Verb::Init => stores::init(alloc, operands, given),
        Verb::Create => documents::create(alloc, operands),
        Verb::Get => documents::get(alloc, operands, given),
        Verb::Put => documents::put(alloc, operands),
        Verb::Delete => documents::delete(alloc, operands),
        Verb::Conflicts => documents::conflicts(alloc, operands),
        Verb::Resolve => documents::resolve(alloc, operands),
        Verb::ResolveDeleted => documents::resolve_deleted(alloc, operands),
        Verb::IndexCreate => indexes::index_create(alloc, operands),
        Verb::IndexDelete => indexes::index_delete(alloc, operands),
        Verb::IndexList => Ok(Command::Show(Show::IndexList)),
        Verb::Query => indexes::query(alloc, operands),
        Verb::Range => indexes::range(alloc, operands),
        Verb::Keys => indexes::keys(alloc, operands),
        Verb::All => Ok(Command::Show(Show::All {
            deleted: given.is_deleted(),
        })),
        Verb::Changes => stores::changes(operands),
        Verb::Info => Ok(Command::Show(Show::Info)),
        Verb::Compact => Ok(Command::Compact),
        Verb::Sync => syncs::sync(alloc, operands),
        Verb::Serve => syncs::serve(operands),
        Verb::ServeDocs => syncs::serve_docs(operands),
        Verb::Node => syncs::node(alloc, operands),
        Verb::Work => stores::work(operands),
        Verb::ViewCreate => indexes::view_create(alloc, operands),
        Verb::ViewShow => indexes::view_show(alloc, operands),
        Verb::ViewDelete => indexes::view_delete(alloc, operands),
    }
}
