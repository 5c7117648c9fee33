//! The replies to commands.
use crate::{Boxed, LineFault, NodeAcl, Path, TreeFault};
use acl_names::{Gid, Uid};
use acl_nfs4::{Acl4, Kind};
use acl_posix::Mode;

/// All that a reply shows of a node: the node itself, its path and its mode.
#[derive(Debug, Drop)]
pub struct View {
    /// Its path.
    pub path: Path,
    /// Whether it is a file or a directory.
    pub kind: Kind,
    /// Its owner.
    pub owner: Uid,
    /// Its group.
    pub group: Gid,
    /// The mode of its list.
    pub mode: Mode,
    /// A copy of its lists.
    pub acl: NodeAcl,
}

/// The reply to a command.
#[derive(Debug, Drop)]
pub enum Reply {
    /// The command was carried out.
    Done,
    /// The node that was requested.
    Node(Boxed<View>),
    /// All that was requested is granted.
    Granted,
    /// Something that was requested is denied.
    Denied,
    /// The translation of the access list of a node without a default list.
    Translated(Boxed<Acl4>),
    /// The translation of the access list, and that of the default list, which only new nodes
    /// inherit.
    TranslatedBoth {
        access: Boxed<Acl4>,
        inherit: Boxed<Acl4>,
    },
    /// The command was refused, and the tree is as it was.
    Refused(TreeFault),
    /// The line isn't a command, and the tree is as it was.
    Fault(LineFault),
}
