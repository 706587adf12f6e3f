//! A command as it was read.
use cli_words::{Command, Edit, Online, Show, View};
use rows::Said;
use u1_base::{FormOf, Id, Key, Memory, Text, Texts};
use vector_rev::{Clock, Clocks};

/// Prints the command, and then its operands and its option.
pub(crate) fn say_command(command: &Command, said: &mut Said) -> Result<(), Memory> {
    said.word(name_of(command))?;
    say_operands(command, said)?;
    said.end()
}

fn name_of(command: &Command) -> &'static str {
    match command {
        Command::Init { .. } => "init",
        Command::Edit(Edit::Create { .. }) => "create",
        Command::Show(Show::Get { .. }) => "get",
        Command::Edit(Edit::Put { .. }) => "put",
        Command::Edit(Edit::Delete { .. }) => "delete",
        Command::Show(Show::Conflicts { .. }) => "conflicts",
        Command::Edit(Edit::Resolve { .. }) => "resolve",
        Command::Edit(Edit::ResolveDeleted { .. }) => "resolve-deleted",
        Command::Edit(Edit::IndexCreate { .. }) => "index-create",
        Command::Edit(Edit::IndexDelete { .. }) => "index-delete",
        Command::Show(Show::IndexList) => "index-list",
        Command::Show(Show::Query { .. }) => "query",
        Command::Show(Show::Range { .. }) => "range",
        Command::Show(Show::Keys { .. }) => "keys",
        Command::Show(Show::All { .. }) => "all",
        Command::Show(Show::Changes { .. }) => "changes",
        Command::Show(Show::Info) => "info",
        Command::Compact => "compact",
        Command::Online(Online::Sync { .. }) => "sync",
        Command::Online(Online::Serve { .. }) => "serve",
        Command::Online(Online::ServeDocs { .. }) => "serve-docs",
        Command::Online(Online::Node { .. }) => "node",
        Command::Work { .. } => "work",
        Command::View(View::Create { .. }) => "view-create",
        Command::View(View::Show { .. }) => "view-show",
        Command::View(View::Delete { .. }) => "view-delete",
    }
}

fn say_operands(command: &Command, said: &mut Said) -> Result<(), Memory> {
    match command {
        Command::Init { name, uid, limit } => {
            say_id(name, said)?;
            say_some(uid, said)?;
            say_limit(*limit, said)
        }
        Command::Edit(Edit::Create { id }) => say_some(id, said),
        Command::Show(Show::Get { id, deleted }) => {
            say_id(id, said)?;
            say_deleted(*deleted, said)
        }
        Command::Edit(Edit::Put { id, rev }) => {
            say_id(id, said)?;
            match rev {
                Some(rev) => say_clock(rev, said),
                None => Ok(()),
            }
        }
        Command::Edit(Edit::Delete { id, rev }) => {
            say_id(id, said)?;
            say_clock(rev, said)
        }
        Command::Show(Show::Conflicts { id }) => say_id(id, said),
        Command::Edit(Edit::Resolve { id, revs })
        | Command::Edit(Edit::ResolveDeleted { id, revs }) => {
            say_id(id, said)?;
            say_clocks(revs, said)
        }
        Command::Show(Show::All { deleted }) => say_deleted(*deleted, said),
        Command::Show(Show::Changes { after }) => said.number(*after),
        Command::Show(Show::Info) | Command::Compact | Command::Show(Show::IndexList) => Ok(()),
        _ => say_others(command, said),
    }
}

fn say_others(command: &Command, said: &mut Said) -> Result<(), Memory> {
    match command {
        Command::Edit(Edit::IndexCreate { name, exprs: texts })
        | Command::Show(
            Show::Query {
                name,
                values: texts,
            },
        ) => {
            say_id(name, said)?;
            say_texts(texts, said)
        }
        Command::Edit(Edit::IndexDelete { name })
        | Command::Show(Show::Keys { name })
        | Command::View(View::Show { name })
        | Command::View(View::Delete { name }) => say_id(name, said),
        Command::Show(Show::Range { name, start, end }) => {
            say_id(name, said)?;
            say_end(start, said)?;
            say_end(end, said)
        }
        Command::View(
            View::Create {
                name,
                index,
                values,
            },
        ) => {
            say_id(name, said)?;
            say_id(index, said)?;
            say_texts(values, said)
        }
        _ => say_meetings(command, said),
    }
}

// The commands that meet others, and the one that makes documents.
fn say_meetings(command: &Command, said: &mut Said) -> Result<(), Memory> {
    match command {
        Command::Online(Online::Sync { with }) => say_address(
            &with.host, with.port, &with.db, said,
        ),
        Command::Online(Online::Serve { port, count })
        | Command::Online(Online::ServeDocs { port, count }) => {
            said.number(u64::from(*port))?;
            said.number(*count)
        }
        Command::Online(
            Online::Node {
                port,
                with,
                rounds,
                between,
            },
        ) => {
            said.number(u64::from(*port))?;
            say_address(&with.host, with.port, &with.db, said)?;
            said.number(*rounds)?;
            said.number(*between)
        }
        Command::Work { seed, count } => {
            said.number(*seed)?;
            said.number(*count)
        }
        _ => Ok(()),
    }
}

fn say_id<F: FormOf>(id: &Id<F>, said: &mut Said) -> Result<(), Memory> {
    said.word(id.as_str())
}

fn say_some<F: FormOf>(id: &Option<Id<F>>, said: &mut Said) -> Result<(), Memory> {
    match id {
        Some(id) => say_id(id, said),
        None => Ok(()),
    }
}

fn say_limit(limit: Option<u64>, said: &mut Said) -> Result<(), Memory> {
    match limit {
        Some(limit) => {
            said.word("limit")?;
            said.number(limit)
        }
        None => Ok(()),
    }
}

fn say_deleted(deleted: bool, said: &mut Said) -> Result<(), Memory> {
    if deleted {
        return said.word("and deleted");
    }
    Ok(())
}

fn say_clock(clock: &Clock, said: &mut Said) -> Result<(), Memory> {
    said.word(clock.text()?.as_str())
}

fn say_clocks(clocks: &Clocks, said: &mut Said) -> Result<(), Memory> {
    for clock in clocks.as_slice() {
        say_clock(clock, said)?;
    }
    Ok(())
}

fn say_texts(texts: &Texts, said: &mut Said) -> Result<(), Memory> {
    say_each(texts.as_slice(), said)
}

fn say_each(texts: &[Text], said: &mut Said) -> Result<(), Memory> {
    for text in texts {
        said.quoted(text.as_str())?;
    }
    Ok(())
}

// An end of a range: the texts of its key in brackets.
fn say_end(end: &Option<Key>, said: &mut Said) -> Result<(), Memory> {
    match end {
        Some(key) => {
            said.word("[")?;
            say_each(key.texts(), said)?;
            said.word("]")
        }
        None => said.word("open"),
    }
}

fn say_address(
    host: &Text,
    port: u16,
    db: &u1_base::DbName,
    said: &mut Said,
) -> Result<(), Memory> {
    said.word(host.as_str())?;
    said.number(u64::from(port))?;
    said.word(db.as_str())
}
