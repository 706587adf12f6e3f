//! What `FileDisk` does with a real file.
use crash_harness::are;
use disk_model::{
    Disk, DiskFailed, FileCall, FileDisk, cut_synced, cut_write_synced, read_synced, write_synced,
};
use std::alloc::Global;
use std::fs;
use std::test::Fail;
use u1_base::{Memory, Text};

fn disk_at<'a>(rt: &'a HostRuntime, path: &str) -> Result<FileDisk<&'a HostRuntime>, Memory> {
    Ok(FileDisk::new(rt, Text::copy(rt.alloc(), path)?))
}

// Whether a file that is not there is an empty disk, which may be cut and synced.
fn is_empty(disk: &mut FileDisk<&HostRuntime>) -> bool {
    disk.length() == Ok(0) && disk.cut(0) == Ok(()) && disk.sync() == Ok(())
}

fn holds(alloc: Global, disk: &mut FileDisk<&HostRuntime>, bytes: &[u8]) -> bool {
    match read_synced(alloc, disk) {
        Ok(read) => are(read.as_slice(), bytes),
        Err(_) => false,
    }
}

fn is_there(rt: &HostRuntime, want: bool) -> bool {
    match fs::exists(rt, "made") {
        Ok(there) => there == want,
        Err(_) => false,
    }
}

// Whether the folder and the file of an empty disk are made by its first write.
fn is_made(rt: &HostRuntime) -> Result<bool, Memory> {
    let mut disk = disk_at(rt, "made/file")?;
    Ok(
        is_empty(&mut disk)
            && is_there(rt, false)
            && write_synced(&mut disk, 0, b"a") == Ok(())
            && is_there(rt, true),
    )
}

#[test]
fn makes_a_file(rt: HostRuntime) -> Result<(), Fail> {
    let _ = fs::remove_dir_all(&rt, "made");
    assert!(rt; is_made(&rt)?);
    fs::remove_dir_all(&rt, "made")?;
    Ok(())
}

// Whether the disk keeps what is written and what a cut leaves.
fn is_kept(rt: &HostRuntime) -> Result<bool, Memory> {
    let mut disk = disk_at(rt, "kept/file")?;
    Ok(
        write_synced(&mut disk, 0, b"abcdef") == Ok(())
            && write_synced(&mut disk, 4, b"WXYZ") == Ok(())
            && disk.length() == Ok(8)
            && cut_synced(&mut disk, 6) == Ok(())
            && holds(rt.alloc(), &mut disk, b"abcdWX"),
    )
}

// Whether the file holds these bytes, which are replaced then.
fn is_replaced(rt: &HostRuntime) -> Result<bool, Memory> {
    let mut disk = disk_at(rt, "kept/file")?;
    Ok(
        disk.length() == Ok(6)
            && cut_write_synced(&mut disk, b"whole") == Ok(())
            && holds(rt.alloc(), &mut disk, b"whole"),
    )
}

#[test]
fn keeps_a_file(rt: HostRuntime) -> Result<(), Fail> {
    let _ = fs::remove_dir_all(&rt, "kept");
    assert!(rt; is_kept(&rt)? && is_replaced(&rt)?);
    fs::remove_dir_all(&rt, "kept")?;
    Ok(())
}

// Whether a second disk at the file fails until the first one is dropped. It waits for five
// seconds.
fn is_locked(rt: &HostRuntime) -> Result<bool, Memory> {
    let mut disk = disk_at(rt, "locked/file")?;
    let mut second = disk_at(rt, "locked/file")?;
    let is_written = write_synced(&mut disk, 0, b"abcdef") == Ok(());
    let is_refused = second.length() == Err(DiskFailed);
    drop(disk);
    Ok(is_written && is_refused && second.length() == Ok(6))
}

#[test]
fn locks_a_file(rt: HostRuntime) -> Result<(), Fail> {
    let _ = fs::remove_dir_all(&rt, "locked");
    assert!(rt; is_locked(&rt)?);
    fs::remove_dir_all(&rt, "locked")?;
    Ok(())
}

fn failed_at(disk: &FileDisk<&HostRuntime>, call: FileCall) -> bool {
    match disk.fault() {
        Some(fault) => fault.call == call,
        None => false,
    }
}

// Whether a read past the end fails, and no call after it.
fn goes_on_after_a_read(disk: &mut FileDisk<&HostRuntime>) -> bool {
    let mut into = [0; 4];
    disk.read_at(0, &mut into) == Err(DiskFailed) && disk.length() == Ok(3)
}

// Whether a write fails, and each call after it. The system takes no place past 2^63.
fn ends_with_a_write(disk: &mut FileDisk<&HostRuntime>) -> bool {
    disk.write_at(1 << 63, b"d") == Err(DiskFailed)
        && failed_at(disk, FileCall::Write)
        && disk.length() == Err(DiskFailed)
        && disk.sync() == Err(DiskFailed)
}

fn is_ended(rt: &HostRuntime) -> Result<bool, Memory> {
    let mut disk = disk_at(rt, "failed/file")?;
    Ok(
        write_synced(&mut disk, 0, b"abc") == Ok(())
            && goes_on_after_a_read(&mut disk)
            && ends_with_a_write(&mut disk),
    )
}

fn has_length(
    rt: &HostRuntime,
    path: &str,
    length: Result<u64, DiskFailed>,
) -> Result<bool, Memory> {
    Ok(disk_at(rt, path)?.length() == length)
}

// The file has its three bytes then, and the folder is no file.
#[test]
fn ends_with_a_failed_write(rt: HostRuntime) -> Result<(), Fail> {
    let _ = fs::remove_dir_all(&rt, "failed");
    assert!(rt;
        is_ended(&rt)?
            && has_length(&rt, "failed/file", Ok(3))?
            && has_length(&rt, "failed", Err(DiskFailed))?
    );
    fs::remove_dir_all(&rt, "failed")?;
    Ok(())
}

// Whether a write fails where the folder of the folder is missing.
fn is_too_deep(rt: &HostRuntime) -> Result<bool, Memory> {
    let mut deep = disk_at(rt, "deep/none/file")?;
    let failed = deep.write_at(0, b"x") == Err(DiskFailed);
    Ok(failed && failed_at(&deep, FileCall::MakeFolder))
}

#[test]
fn makes_one_folder(rt: HostRuntime) -> Result<(), Fail> {
    let _ = fs::remove_dir_all(&rt, "deep");
    assert!(rt; is_too_deep(&rt)?);
    Ok(())
}
