//! What happens with real folders and files.
use crate::{failed_file, files_in, lock_folder};
use disk_model::{Disk, DiskFailed, write_synced};
use disks::DiskName;
use std::fs;
use std::io::ErrorKind;
use std::test::Fail;
use u1_base::Memory;

fn is_held(rt: &HostRuntime, store: &str) -> bool {
    match lock_folder(rt, store) {
        Ok(lock) => lock.is_held(),
        Err(_) => false,
    }
}

// It waits for five seconds.
fn is_refused(rt: &HostRuntime, store: &str) -> bool {
    match lock_folder(rt, store) {
        Ok(_) => false,
        Err(fault) => fault.error.kind() == ErrorKind::WouldBlock,
    }
}

// Whether the folder in which both stores lie is locked until the first lock is dropped.
fn is_exclusive(rt: &HostRuntime) -> bool {
    let lock = lock_folder(rt, "around/first");
    let is_refused = is_refused(rt, "around/second");
    drop(lock);
    is_refused && is_held(rt, "around/second")
}

#[test]
fn locks_the_folder_around(rt: HostRuntime) -> Result<(), Fail> {
    let _ = fs::remove_dir_all(&rt, "around");
    fs::create_dir(&rt, "around")?;
    assert!(rt; is_exclusive(&rt));
    fs::remove_dir_all(&rt, "around")?;
    Ok(())
}

// A file is no folder to be locked, and neither is what is not there.
#[test]
fn locks_no_file(rt: HostRuntime) -> Result<(), Fail> {
    fs::write(&rt, "no_folder", "")?;
    let is_none = lock_folder(&rt, "no_folder/store").is_ok() && !is_held(&rt, "no_folder/store");
    assert!(rt; is_none && !is_held(&rt, "nowhere/store"));
    fs::remove_file(&rt, "no_folder")?;
    Ok(())
}

// Whether the root is made with its folder, and the left file is a folder.
fn is_told(rt: &HostRuntime, left: &str) -> Result<bool, Memory> {
    let mut files = files_in(rt, "kinds")?;
    let is_made = write_synced(&mut files, 0, b"a") == Ok(()) && failed_file(&files).is_none();
    let is_folder = fs::create_dir(rt, left).is_ok();
    files.turn_to(DiskName::Left);
    let is_failed = files.length() == Err(DiskFailed);
    Ok(is_made && is_folder && is_failed && failed_file(&files) == Some(DiskName::Left))
}

#[test]
fn tells_which_file_failed(rt: HostRuntime) -> Result<(), Fail> {
    let _ = fs::remove_dir_all(&rt, "kinds");
    assert!(rt; is_told(&rt, "kinds/left")? && fs::exists(&rt, "kinds/root")?);
    fs::remove_dir_all(&rt, "kinds")?;
    Ok(())
}
