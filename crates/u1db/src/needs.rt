//! What a command needs before it is run.
use cli_words::{Command, WordsFault, read_words};
use replica_cli::needs_seed;
use std::alloc::Global;
use u1_base::{Memory, Text};

#[derive(Clone, Copy)]
pub struct Needs {
    /// It makes an id: of a replica, of a document, or of a transaction.
    pub seed: bool,
    /// It makes a store.
    pub folder: bool,
}

/// What the command of the words needs. Words that are no command need nothing.
pub fn needs_of(alloc: Global, words: &[Text]) -> Result<Needs, Memory> {
    match read_words(alloc, words) {
        Ok(command) => Ok(needs_in(command)),
        Err(WordsFault::Memory) => Err(Memory),
        Err(_) => Ok(Needs {
            seed: false,
            folder: false,
        }),
    }
}

// Here alone a command is let go.
fn needs_in(command: Command) -> Needs {
    Needs {
        seed: needs_seed(&command),
        folder: makes_store(&command),
    }
}

fn makes_store(command: &Command) -> bool {
    match command {
        Command::Init { .. } => true,
        Command::Show(_)
        | Command::Edit(_)
        | Command::Compact
        | Command::Online(_)
        | Command::Work { .. }
        | Command::View(_) => false,
    }
}
