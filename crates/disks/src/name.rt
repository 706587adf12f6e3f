//! The names of the three disks.

/// One of the three disks of a store.
#[derive(Clone, Copy, Debug, PartialEq, Eq)]
pub enum DiskName {
    /// The disk that names the image in use.
    Root,
    /// The first image.
    Left,
    /// The second image.
    Right,
}
