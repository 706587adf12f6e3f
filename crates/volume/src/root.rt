//! The byte of the root, and the image that it names.
ghost use Rattle.std.specs.Prelude.{◌≡◌, ◌≢◌};
ghost use Rattle.volume.specs.Store.{chosen};

use disks::DiskName;

/// The image that this byte names.
pub(crate) fn named_by(byte: u8) -> DiskName
    ensures { result ≡ chosen byte }
{
    if byte % 2 == 0 {
        DiskName::Left
    } else {
        DiskName::Right
    }
}

/// The byte that names this image.
pub(crate) fn naming(side: DiskName) -> u8
    requires { side ≢ DiskName.Root }
    ensures { chosen result ≡ side }
{
    match side {
        DiskName::Root => unreachable!(),
        DiskName::Left => 0,
        DiskName::Right => 1,
    }
}

/// The image on the other side.
pub fn other_side(side: DiskName) -> DiskName
    requires { side ≢ DiskName.Root }
    ensures other { result ≢ side }
    ensures side { result ≢ DiskName.Root }
{
    match side {
        DiskName::Root => unreachable!(),
        DiskName::Left => DiskName::Right,
        DiskName::Right => DiskName::Left,
    }
}
