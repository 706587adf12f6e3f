//! The header of an image.
ghost use Rattle.std.specs.Prelude.{◌≤◌};
ghost use Rattle.u1_base.specs.declared.limits.TheConstants.{GREATEST_IMAGE_LIMIT};
ghost use Rattle.u1_base.specs.declared.limits.TheConstants.{LEAST_IMAGE_LIMIT};

use std::marker::Model;
use u1_base::{Bytes, DbName, Items, ReplicaUid};

/// Whose image it is, and the most bytes that it may have.
#[derive(Drop)]
pub struct Header {
    pub name: DbName,
    pub uid: ReplicaUid,
    /// In bytes, from `u1_base::limits::LEAST_IMAGE_LIMIT` to `GREATEST_IMAGE_LIMIT`.
    pub limit: u64,
    pub ghost least: { LEAST_IMAGE_LIMIT ≤ limit },
    pub ghost greatest: { limit ≤ GREATEST_IMAGE_LIMIT },
}

impl Model for Header {
    ghost use Rattle.journal.specs.Image.{Head};

    ghost Value = { Head };

    ghost view = { λ h. record { name = h.name; uid = h.uid; limit = h.limit } };
}

/// The bodies of an image, in order; each has 1 to 2^32-1 bytes.
pub type Bodies = Items<Bytes>;
