//! The commands.
use crate::{Boxed, LineFault, Path};
use acl_names::Uid;
use acl_nfs4::{Acl4, Kind, Mask};
use acl_posix::{Acl, Mode, Perms};

/// A command on the node at a path, or a line that isn't a command.
#[derive(Debug, Drop)]
pub enum Request {
    /// Shows the node.
    Get(Path),
    /// Sets the access list. The node gets the POSIX style: a default list stays, an NFSv4 list is
    /// dropped.
    SetAccess(Path, Boxed<Acl>),
    /// Sets a directory's default list, or removes it.
    SetDefault(Path, Option<Boxed<Acl>>),
    /// Sets the NFSv4 list. The node gets the NFSv4 style: POSIX lists are dropped.
    SetNfs4(Path, Boxed<Acl4>),
    /// Sets the mode, as the list's style defines it.
    Chmod(Path, Mode),
    /// Creates a node with this owner and this mode. Its style is its directory's, from which it
    /// inherits; its group is the owner's first, or the directory's if the owner is in none.
    Create(Kind, Path, Uid, Mode),
    /// Checks whether the list grants the user all of the permissions.
    Check(Path, Uid, Perms),
    /// Checks whether the NFSv4 list grants the user each bit of the mask.
    Check4(Path, Uid, Mask),
    /// Shows the POSIX lists as NFSv4 lists.
    Translate(Path),
    /// A line that isn't a command.
    Bad(LineFault),
}
