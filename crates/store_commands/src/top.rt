//! The top call.
ghost use Rattle.std.specs.Prelude.{◌≡◌, ◌≢◌};
ghost use Rattle.command_lines.specs.LastLines.{last_line};
ghost use Rattle.store_commands.specs.Complete.{RunsWhole};
ghost use Rattle.command_lines.specs.Outcomes.{print_end};
ghost use Rattle.command_lines.specs.declared.outcome.Outcome.TheVariants.{Memory};
ghost use Rattle.outside.specs.Known.{outside_known};
ghost use Rattle.store_commands.specs.Prints.{Prints, outcome_of};
ghost use Rattle.store_commands.specs.inner.Prints.{PutsWhole};

use crate::carrying::carry_out;
use crate::{Ended, Store};
use cli_words::Command;
use command_lines::{Outcome, PrintFault, print_last_line};
use link::{Sink, Source};
use outside::Outside;
use std::alloc::Global;
use sync_link::{Acceptor, Link};

/// Does the command over the store, and prints its lines, or else why it gave no answer.
///
/// Ids are made of the seed. The store is handed back beside the outcome. No command asks the link
/// or takes a connection of the door.
pub fn run_over<T: Store, S: Source, K: Sink, L: Link, A: Acceptor>(
    alloc: Global,
    command: &Command,
    seed: u128,
    store: T,
    outside: &mut Outside<S, K, L, A>,
) -> (Outcome, T)
    ensures { RunsWhole command.now seed
        (record {
          store = T.known store;
          image = T.image store;
          outside = outside_known S.known K.known L.known A.known
              A.Conn.Source.known A.Conn.Sink.known outside.old;
        })
        (record {
          store = T.known result.1;
          image = T.image result.1;
          outside = outside_known S.known K.known L.known A.known
              A.Conn.Source.known A.Conn.Sink.known outside.new;
        })
        result.0 }
{
    let (ended, store) = carry_out(alloc, command, seed, store, outside);
    (finish(ended, &mut outside.out), store)
}

/// Ends a run that came so far: prints the last line of its outcome, and hands on what the output
/// holds back.
pub fn finish<K: Sink>(ended: Ended, out: &mut K) -> Outcome
    ensures { Prints (last_line (outcome_of ended)) (K.known out.old) (K.known out.new)
        (outcome_of ended) result }
{
    let outcome = ended_as(ended);
    match print_end(&outcome, out) {
        Ok(()) => outcome,
        Err(fault) => broken_end(outcome, fault),
    }
}

// Where memory had run out before, that is told also of an output that failed: an output is blamed
// only where all was done that was decided.
fn broken_end(decided: Outcome, fault: PrintFault) -> Outcome
    ensures memory { decided ≡ Memory → result ≡ Memory }
    ensures other { decided ≢ Memory → result ≡ print_end fault }
{
    match decided {
        Outcome::Memory => Outcome::Memory,
        _ => Outcome::from(fault),
    }
}

fn ended_as(ended: Ended) -> Outcome
    ensures { result ≡ outcome_of ended }
{
    match ended {
        Ok(()) => Outcome::Done,
        Err(outcome) => outcome,
    }
}

// Prints the last line of the outcome, if it has one.
fn print_end<K: Sink>(outcome: &Outcome, out: &mut K) -> Result<(), PrintFault>
    ensures { PutsWhole (last_line outcome.now) (K.known out.old) (K.known out.new) result }
{
    print_last_line(out, outcome)?;
    out.flush()?;
    Ok(())
}
