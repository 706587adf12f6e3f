//! A command in a store that is what it wants.
ghost use Rattle.std.specs.Prelude.{◌≡◌, Ok, Option};
ghost use Rattle.cli_words.specs.declared.command.Command.TheVariants as command;
ghost use Rattle.outside.specs.Known.{outside_known};
ghost use Rattle.replica_state.specs.Held.{lists_of};
ghost use Rattle.store_commands.specs.Answer.{built_edit};
ghost use Rattle.store_commands.specs.Carries.{Carries, InStore, found_open};
ghost use Rattle.store_commands.specs.inner.Carries.{TakesFor};
ghost use Rattle.store_commands.specs.Compacting.{Image};
ghost use Rattle.store_commands.specs.Deeds.{shows};
ghost use Rattle.store_commands.specs.Found.{opened_as};

use crate::Ended;
use crate::all::all;
use crate::changes::changes;
use crate::conflicting::conflicts;
use crate::create::create;
use crate::delete::delete;
use crate::get::get;
use crate::index_create::index_create;
use crate::index_delete::index_delete;
use crate::index_list::index_list;
use crate::info::info;
use crate::keys::keys;
use crate::put::put;
use crate::query::query;
use crate::range::range;
use crate::resolve::{resolve, resolve_deleted};
use cli_words::{Edit, Show};
use command_lines::Outcome;
use content::Content;
use link::{Sink, Source, read_at_most};
use outside::Outside;
use replica_core::Replica;
use std::alloc::Global;
use sync_link::{Acceptor, Link};
use u1_base::limits::MOST_CONTENT_BYTES;

/// Does a command that makes a step over an open replica.
pub fn edit_in<R: Replica, S: Source, K: Sink, L: Link, A: Acceptor>(
    alloc: Global,
    edit: &Edit,
    seed: u128,
    replica: &mut R,
    outside: &mut Outside<S, K, L, A>,
) -> Ended
    requires built { built_edit edit.now ≡ Ok tt }
    requires open { R.is_open replica.old }
    // whatever the image is: nothing is said of it
    ensures { (before after : Option Image) → InStore (command.Edit edit.now) seed
        (R.is_open replica.new)
        (found_open (R.known replica.old)) (lists_of (R.known replica.old).state)
        before after
        (opened_as (R.known replica.old) (R.crash replica.old))
        (opened_as (R.known replica.new) (R.crash replica.new))
        (outside_known S.known K.known L.known A.known A.Conn.Source.known A.Conn.Sink.known
        outside.old)
        (outside_known S.known K.known L.known A.known A.Conn.Source.known A.Conn.Sink.known
        outside.new)
        result }
{
    match edit {
        Edit::Create { id } => {
            let content = take(alloc, &mut outside.input)?;
            create(alloc, seed, id, &content, replica, &mut outside.out)
        }
        Edit::Put { id, rev } => {
            let content = take(alloc, &mut outside.input)?;
            put(
                alloc,
                seed,
                id,
                rev.as_ref(),
                &content,
                replica,
                &mut outside.out,
            )
        }
        Edit::Delete { id, rev } => delete(alloc, seed, id, rev, replica, &mut outside.out),
        Edit::Resolve { id, revs } => {
            let content = take(alloc, &mut outside.input)?;
            resolve(alloc, seed, id, revs, &content, replica, &mut outside.out)
        }
        Edit::ResolveDeleted { id, revs } => resolve_deleted(
            alloc,
            seed,
            id,
            revs,
            replica,
            &mut outside.out,
        ),
        Edit::IndexCreate { name, exprs } => {
            index_create(alloc, name, exprs.as_slice(), replica, &mut outside.out)
        }
        Edit::IndexDelete { name } => index_delete(name, replica, &mut outside.out),
    }
}

/// Does a command that only shows something.
pub fn show_in<R: Replica, K: Sink>(alloc: Global, show: &Show, replica: &R, out: &mut K) -> Ended
    requires { R.is_open replica.now }
    ensures { Carries R.known R.is_open R.crash
        (shows show.now (lists_of (R.known replica.now).state))
        replica.now replica.now (K.known out.old) (K.known out.new) result }
{
    match show {
        Show::Get { id, deleted } => get(id, *deleted, replica, out),
        Show::Conflicts { id } => conflicts(id, replica, out),
        Show::IndexList => index_list(alloc, replica, out),
        Show::Query { name, values } => query(alloc, name, values.as_slice(), replica, out),
        Show::Range { name, start, end } => range(alloc, name, start, end, replica, out),
        Show::Keys { name } => keys(alloc, name, replica, out),
        Show::All { deleted } => all(alloc, *deleted, replica, out),
        Show::Changes { after } => changes(*after, replica, out),
        Show::Info => info(replica, out),
    }
}

// Reads a content from the input.
fn take<S: Source>(alloc: Global, input: &mut S) -> Result<Content, Outcome>
    ensures { TakesFor (S.known input.old) (S.known input.new) result }
{
    let bytes = read_at_most(alloc, input, MOST_CONTENT_BYTES as usize + 1)?;
    Ok(Content::read(alloc, bytes.as_slice())?)
}
