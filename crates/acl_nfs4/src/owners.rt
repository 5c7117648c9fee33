//! The owner and the group of a file.
use acl_names::{Gid, Uid};

/// The owner and the group of a file.
#[derive(Clone, Copy, Debug, PartialEq, Eq)]
pub struct Owners {
    /// The file's owner.
    pub owner: Uid,
    /// The file's group.
    pub group: Gid,
}
