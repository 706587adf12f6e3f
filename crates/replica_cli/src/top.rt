//! The top call.
ghost use Rattle.std.specs.Prelude.{◌≡◌};
ghost use Rattle.outside.specs.Known.{outside_known};
ghost use Rattle.replica_cli.specs.Run.{Runs, RunsCommand, around, words_end};

use crate::StoreOnDisks;
use cli_words::{Command, WordsFault, read_words};
use command_lines::{Outcome, UsageKind};
use disk_model::Disk;
use disks::Disks;
use link::{Sink, Source};
use outside::Outside;
use std::alloc::Global;
use store_commands::{finish, run_over};
use sync_link::{Acceptor, Link};
use u1_base::Text;

/// Does the command of the words over the store on three disks, and prints its lines.
///
/// `words` are all words after the program's name; the first is the store's directory, which is not
/// looked into. Ids are made of the seed. The disks are handed back beside the outcome. No command
/// asks the link or takes a connection of the door.
///
/// It is for a program that ends then: the memory of the store's state is left to the process
/// (`replica_volume::Volume::leave`).
pub fn run<D: Disk, S: Source, K: Sink, L: Link, A: Acceptor>(
    alloc: Global,
    words: &[Text],
    seed: u128,
    disks: Disks<D>,
    outside: &mut Outside<S, K, L, A>,
) -> (Outcome, Disks<D>)
    ensures { Runs D.tells words.now seed
        (around D.known disks (outside_known S.known K.known L.known A.known
        A.Conn.Source.known A.Conn.Sink.known outside.old))
        (around D.known result.1 (outside_known S.known K.known L.known A.known
        A.Conn.Source.known A.Conn.Sink.known outside.new))
        result.0 }
{
    match read_words(alloc, words) {
        Ok(command) => run_command(alloc, &command, seed, disks, outside),
        Err(fault) => (finish(Err(words_end(fault)), &mut outside.out), disks),
    }
}

// Does the command.
fn run_command<D: Disk, S: Source, K: Sink, L: Link, A: Acceptor>(
    alloc: Global,
    command: &Command,
    seed: u128,
    disks: Disks<D>,
    outside: &mut Outside<S, K, L, A>,
) -> (Outcome, Disks<D>)
    ensures { RunsCommand D.tells command.now seed
        (around D.known disks (outside_known S.known K.known L.known A.known
        A.Conn.Source.known A.Conn.Sink.known outside.old))
        (around D.known result.1 (outside_known S.known K.known L.known A.known
        A.Conn.Source.known A.Conn.Sink.known outside.new))
        result.0 }
{
    let store = StoreOnDisks::new(disks);
    let (outcome, store) = run_over(alloc, command, seed, store, outside);
    (outcome, store.into_disks())
}

// How a run ends whose words are no command.
fn words_end(fault: WordsFault) -> Outcome
    ensures { result ≡ words_end fault }
{
    match fault {
        WordsFault::Words => Outcome::Usage(UsageKind::Words),
        WordsFault::Value(place) => Outcome::Usage(UsageKind::Value(place)),
        WordsFault::Memory => Outcome::Memory,
    }
}
