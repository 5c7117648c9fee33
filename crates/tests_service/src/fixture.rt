//! The setup of the examples, and its tree; none where memory is refused.
use acl_names::{Gid, Uid};
use acl_posix::Mode;
use acl_tree::{Style, Tree};
use std::alloc::Global;

/// The setup.
pub const SETUP: &str =
    "domain = \"example.org\"\numask = \"022\"\n\n[root]\nowner = \"root\"\ngroup = \"root\"\nmode = \"755\"\nstyle = \"posix\"\n\n[[user]]\nname = \"root\"\nuid = 0\ngroups = [\"root\"]\n[[user]]\nname = \"alice\"\nuid = 1000\ngroups = [\"staff\"]\n[[user]]\nname = \"bob\"\nuid = 1001\ngroups = [\"staff\", \"ops\"]\n[[user]]\nname = \"carol\"\nuid = 1002\ngroups = [\"guest\"]\n\n[[group]]\nname = \"root\"\ngid = 0\n[[group]]\nname = \"staff\"\ngid = 50\n[[group]]\nname = \"ops\"\ngid = 60\n[[group]]\nname = \"guest\"\ngid = 70\n";

/// A root of root's with mode 755, under the umask 022.
pub fn tree(alloc: Global) -> Option<Tree> {
    let mode = Mode::from_bits(0o755)?;
    let umask = Mode::from_bits(0o022)?;
    Tree::new(alloc, Uid::new(0)?, Gid::new(0)?, mode, Style::Posix, umask).ok()
}
