//! Which commands need a seed.
ghost use Rattle.std.specs.Prelude.{◌≡◌, false};
ghost use Rattle.cli_words.specs.declared.command.Command.TheVariants as command;
ghost use Rattle.replica_cli.specs.Seeds.{NeedsNoSeed};

use cli_words::{Command, Edit, Online, Show, View};

/// Whether the command makes ids of the seed. Where it does not, its run is the same for every
/// seed, so the caller may pass any.
pub fn needs_seed(command: &Command) -> bool
    ensures { result ≡ false → NeedsNoSeed command.now }
{
    match command {
        Command::Init { uid, .. } => uid.is_none(),
        Command::Show(show) => show_needs_seed(show),
        Command::Edit(edit) => edit_needs_seed(edit),
        Command::Compact => false,
        Command::Online(online) => online_needs_seed(online),
        Command::Work { .. } => false,
        Command::View(view) => view_needs_seed(view),
    }
}

fn show_needs_seed(show: &Show) -> bool
    ensures { result ≡ false → NeedsNoSeed (command.Show show.now) }
{
    match show {
        Show::Get { .. }
        | Show::Conflicts { .. }
        | Show::IndexList
        | Show::Query { .. }
        | Show::Range { .. }
        | Show::Keys { .. }
        | Show::All { .. }
        | Show::Changes { .. }
        | Show::Info => false,
    }
}

fn edit_needs_seed(edit: &Edit) -> bool
    ensures { result ≡ false → NeedsNoSeed (command.Edit edit.now) }
{
    match edit {
        Edit::Create { .. }
        | Edit::Put { .. }
        | Edit::Delete { .. }
        | Edit::Resolve { .. }
        | Edit::ResolveDeleted { .. } => true,
        Edit::IndexCreate { .. } | Edit::IndexDelete { .. } => false,
    }
}

// None of these is built yet.
fn online_needs_seed(online: &Online) -> bool
    ensures { result ≡ false → NeedsNoSeed (command.Online online.now) }
{
    match online {
        Online::Sync { .. }
        | Online::Serve { .. }
        | Online::ServeDocs { .. }
        | Online::Node { .. } => false,
    }
}

fn view_needs_seed(view: &View) -> bool
    ensures { result ≡ false → NeedsNoSeed (command.View view.now) }
{
    match view {
        View::Create { .. } | View::Show { .. } | View::Delete { .. } => false,
    }
}
