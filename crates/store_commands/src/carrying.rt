//! A command from the opening of its store on, but for its last line.
ghost use Rattle.std.specs.Prelude.{◌≡◌, Err, Ok, true, false, if◌then◌else◌};
ghost use Rattle.outside.specs.Known.{outside_known};
ghost use Rattle.replica_state.specs.Held.{lists_of};
ghost use Rattle.store_commands.specs.Answer.{built, built_edit, has_exprs, is_limit};
ghost use Rattle.store_commands.specs.Answer.{makes_store};
ghost use Rattle.store_commands.specs.Deeds.{limit_given};
ghost use Rattle.store_commands.specs.Carries.{Carried, InStore, found_open};
ghost use Rattle.store_commands.specs.Found.{opened_as};

use crate::compacting::compact;
use crate::doing::{edit_in, show_in};
use crate::init::init;
use crate::{Ended, Store};
use cli_words::{Command, Edit};
use command_lines::{Outcome, Refusal, UsageKind};
use link::{Sink, Source};
use outside::Outside;
use std::alloc::Global;
use sync_link::{Acceptor, Link};
use u1_base::Text;
use u1_base::limits::{GREATEST_IMAGE_LIMIT, LEAST_IMAGE_LIMIT, MOST_KEY_TEXTS};

/// Does the command over the store, and prints its text.
pub fn carry_out<T: Store, S: Source, K: Sink, L: Link, A: Acceptor>(
    alloc: Global,
    command: &Command,
    seed: u128,
    store: T,
    outside: &mut Outside<S, K, L, A>,
) -> (Ended, T)
    ensures { Carried command.now seed
        (record {
          store = T.known store;
          image = T.image store;
          outside = outside_known S.known K.known L.known A.known
              A.Conn.Source.known A.Conn.Sink.known outside.old;
        })
        (record {
          store = T.known result.1;
          image = T.image result.1;
          outside = outside_known S.known K.known L.known A.known
              A.Conn.Source.known A.Conn.Sink.known outside.new;
        })
        result.0 }
{
    match check_built(command) {
        Ok(()) => carry_out_built(alloc, command, seed, store, outside),
        Err(outcome) => (Err(outcome), store),
    }
}

// Whether the command is built. An index of no expression or of more than eight is not a command,
// nor is a store of a limit that no store has.
fn check_built(command: &Command) -> Ended
    ensures { result ≡ built command.now }
{
    match command {
        Command::Init { limit, .. } => {
            usage_unless(is_limit(limit.unwrap_or(GREATEST_IMAGE_LIMIT)))
        }
        Command::Edit(edit) => check_edit(edit),
        Command::Show(_) | Command::Compact => Ok(()),
        Command::Online(_) | Command::Work { .. } | Command::View(_) => {
            Err(Outcome::Refused(Refusal::NotBuilt))
        }
    }
}

fn check_edit(edit: &Edit) -> Ended
    ensures { result ≡ built_edit edit.now }
{
    match edit {
        Edit::IndexCreate { exprs, .. } => usage_unless(has_exprs(exprs.as_slice())),
        Edit::Create { .. }
        | Edit::Put { .. }
        | Edit::Delete { .. }
        | Edit::Resolve { .. }
        | Edit::ResolveDeleted { .. }
        | Edit::IndexDelete { .. } => Ok(()),
    }
}

// The words are wrong unless they are good.
fn usage_unless(good: bool) -> Ended
    ensures { result ≡ (if good then Ok tt else Err (Outcome.Usage UsageKind.Words)) }
{
    if good {
        Ok(())
    } else {
        Err(Outcome::Usage(UsageKind::Words))
    }
}

fn is_limit(limit: u64) -> bool
    ensures { result ≡ is_limit limit }
{
    LEAST_IMAGE_LIMIT <= limit && limit <= GREATEST_IMAGE_LIMIT
}

fn has_exprs(exprs: &[Text]) -> bool
    ensures { result ≡ has_exprs exprs.now }
{
    !exprs.is_empty() && exprs.len() <= MOST_KEY_TEXTS
}

fn carry_out_built<T: Store, S: Source, K: Sink, L: Link, A: Acceptor>(
    alloc: Global,
    command: &Command,
    seed: u128,
    store: T,
    outside: &mut Outside<S, K, L, A>,
) -> (Ended, T)
    requires { built command.now ≡ Ok tt }
    ensures { Carried command.now seed
        (record {
          store = T.known store;
          image = T.image store;
          outside = outside_known S.known K.known L.known A.known
              A.Conn.Source.known A.Conn.Sink.known outside.old;
        })
        (record {
          store = T.known result.1;
          image = T.image result.1;
          outside = outside_known S.known K.known L.known A.known
              A.Conn.Source.known A.Conn.Sink.known outside.new;
        })
        result.0 }
{
    match command {
        Command::Init { name, uid, limit } => init(alloc, seed, name, uid, *limit, store, outside),
        Command::Show(_)
        | Command::Edit(_)
        | Command::Compact
        | Command::Online(_)
        | Command::Work { .. }
        | Command::View(_) => open_and_do(alloc, command, seed, store, outside),
    }
}

// Opens the store that is there, and does the command in it.
fn open_and_do<T: Store, S: Source, K: Sink, L: Link, A: Acceptor>(
    alloc: Global,
    command: &Command,
    seed: u128,
    store: T,
    outside: &mut Outside<S, K, L, A>,
) -> (Ended, T)
    requires built { built command.now ≡ Ok tt }
    requires opens { makes_store command.now ≡ false }
    ensures { Carried command.now seed
        (record {
          store = T.known store;
          image = T.image store;
          outside = outside_known S.known K.known L.known A.known
              A.Conn.Source.known A.Conn.Sink.known outside.old;
        })
        (record {
          store = T.known result.1;
          image = T.image result.1;
          outside = outside_known S.known K.known L.known A.known
              A.Conn.Source.known A.Conn.Sink.known outside.new;
        })
        result.0 }
{
    match store.open(alloc) {
        Ok(opened) => do_in_opened(alloc, command, seed, opened, outside),
        Err((fault, store)) => (Err(Outcome::from(fault)), store),
    }
}

// Does the command in an open store, and closes it.
fn do_in_opened<T: Store, S: Source, K: Sink, L: Link, A: Acceptor>(
    alloc: Global,
    command: &Command,
    seed: u128,
    opened: T::Opened,
    outside: &mut Outside<S, K, L, A>,
) -> (Ended, T)
    requires built { built command.now ≡ Ok tt }
    requires opens { makes_store command.now ≡ false }
    requires open { T.Opened.Replica.is_open opened }
    ensures { InStore command.now seed (Unit {0})
        (found_open (T.Opened.Replica.known opened))
        (lists_of (T.Opened.Replica.known opened).state)
        (T.image_in opened) (T.image result.1)
        (opened_as (T.Opened.Replica.known opened) (T.Opened.Replica.crash opened))
        (T.known result.1)
        (outside_known S.known K.known L.known A.known A.Conn.Source.known A.Conn.Sink.known
        outside.old)
        (outside_known S.known K.known L.known A.known A.Conn.Source.known A.Conn.Sink.known
        outside.new)
        result.0 }
{
    let mut opened = opened;
    let ended = do_in_open::<T, S, K, L, A>(alloc, command, seed, &mut opened, outside);
    (ended, T::close(opened))
}

// Does the command in a store that stays open.
fn do_in_open<T: Store, S: Source, K: Sink, L: Link, A: Acceptor>(
    alloc: Global,
    command: &Command,
    seed: u128,
    opened: &mut T::Opened,
    outside: &mut Outside<S, K, L, A>,
) -> Ended
    requires built { built command.now ≡ Ok tt }
    requires opens { makes_store command.now ≡ false }
    requires open { T.Opened.Replica.is_open opened.old }
    ensures { InStore command.now seed (T.Opened.Replica.is_open opened.new)
        (found_open (T.Opened.Replica.known opened.old))
        (lists_of (T.Opened.Replica.known opened.old).state)
        (T.image_in opened.old) (T.image_in opened.new)
        (opened_as (T.Opened.Replica.known opened.old) (T.Opened.Replica.crash opened.old))
        (opened_as (T.Opened.Replica.known opened.new) (T.Opened.Replica.crash opened.new))
        (outside_known S.known K.known L.known A.known A.Conn.Source.known A.Conn.Sink.known
        outside.old)
        (outside_known S.known K.known L.known A.known A.Conn.Source.known A.Conn.Sink.known
        outside.new)
        result }
{
    match command {
        Command::Show(show) => show_in(alloc, show, opened, &mut outside.out),
        Command::Edit(edit) => edit_in(alloc, edit, seed, opened, outside),
        Command::Compact => compact::<T, K>(opened, &mut outside.out),
        // built and makes_store say that it is none of these
        Command::Init { .. } | Command::Online(_) | Command::Work { .. } | Command::View(_) => {
            Err(Outcome::Refused(Refusal::NotBuilt))
        }
    }
}
