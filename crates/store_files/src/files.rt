//! The three files.
ghost use Rattle.std.specs.Prelude.{◌≡◌, [], IfOk};
ghost use Rattle.disk_model.specs.FileDisk.{file_known};
ghost use Rattle.disks.specs.Disks.{disks_known, turned_to};
ghost use Rattle.disks.specs.declared.name.DiskName.TheVariants.{Root};
ghost use Rattle.store_files.specs.Files.{AreUnused, HavePaths, failed_of, folder_at, name_of};
ghost use Rattle.store_files.specs.Files.{path_in};

use disk_model::FileDisk;
use disks::{DiskName, Disks};
use std::alloc::Global;
use std::fs::{File, Files};
use std::rt::Clock;
use u1_base::{Memory, Text};

/// The files `root`, `left` and `right` of a store.
pub type StoreFiles<R> = Disks<FileDisk<R>>;

/// The files of the store in a folder. An empty path is the current folder.
///
/// Nothing is looked for yet: each file is opened and locked when it is first used. A file that is
/// not there is empty, and its first write makes it, and the folder where that is missing, but not
/// the folder around it.
///
/// # Errors
///
/// There is no memory for the paths. No file was opened or made.
pub fn files_in<R: Files<File = File> + Clock + AllocGlobal + Copy + Drop>(
    rt: &R,
    folder: &str,
) -> Result<StoreFiles<R>, Memory>
    ensures paths { IfOk result (HavePaths folder.now) }
    ensures unused { IfOk result AreUnused }
    ensures turned { IfOk result (λ files. turned_to files ≡ Root) }
    ensures past { IfOk result (λ files. (disks_known file_known files).past ≡ []) }
{
    let root = path_in(rt.alloc(), folder, DiskName::Root)?;
    let left = path_in(rt.alloc(), folder, DiskName::Left)?;
    let right = path_in(rt.alloc(), folder, DiskName::Right)?;
    Ok(Disks::new(
        FileDisk::new(*rt, root),
        FileDisk::new(*rt, left),
        FileDisk::new(*rt, right),
    ))
}

/// The first of the files, as root, left, right, a call of which has failed. Its
/// [`fault`](FileDisk::fault) says why, and its [`path`](FileDisk::path) which file it is.
pub fn failed_file<R: Files<File = File> + Clock + Alloc + Drop>(
    files: &StoreFiles<R>,
) -> Option<DiskName>
    ensures { result ≡ failed_of files.now }
{
    if files.disk(DiskName::Root).fault().is_some() {
        return Some(DiskName::Root);
    }
    if files.disk(DiskName::Left).fault().is_some() {
        return Some(DiskName::Left);
    }
    if files.disk(DiskName::Right).fault().is_some() {
        return Some(DiskName::Right);
    }
    None
}

fn path_in(alloc: Global, folder: &str, disk: DiskName) -> Result<Text, Memory>
    ensures { IfOk result (λ path. path ≡ path_in folder.now disk) }
{
    let mut path = String::from_str(alloc, folder_at(folder))?;
    path.push_str(name_of(disk))?;
    Text::from_string(path)
}

// The folder of a path.
pub(crate) fn folder_at(path: &str) -> &str
    ensures { result.now ≡ folder_at path.now }
{
    if path.is_empty() { "." } else { path }
}

fn name_of(disk: DiskName) -> &'static str
    ensures { result.now ≡ name_of disk }
{
    match disk {
        DiskName::Root => "/root",
        DiskName::Left => "/left",
        DiskName::Right => "/right",
    }
}
