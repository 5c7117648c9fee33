//! The parts of a node that an answer prints.
ghost use Rattle.std.specs.Prelude.{◌≡◌};
ghost use Rattle.acl_tree.specs.Nodes.{view_of};

use acl_names::{Gid, Uid};
use acl_nfs4::Kind;
use acl_posix::Mode;
use acl_tree::{Node, NodeAcl, Path, View};
use std::marker::Model;

/// References to the parts of a node that an answer prints. A contract sees the node's view.
#[derive(Drop)]
pub(crate) struct Shown<'a> {
    pub(crate) path: &'a Path,
    pub(crate) kind: Kind,
    pub(crate) owner: Uid,
    pub(crate) group: Gid,
    pub(crate) mode: Mode,
    pub(crate) acl: &'a NodeAcl,
}

impl<'a> Model for Shown<'a> {
    ghost use Rattle.acl_tree.specs.declared.reply.View.{View};

    ghost Value = { View };

    ghost view = { λ shown. record {
      path = shown.path.now;
      kind = shown.kind;
      owner = shown.owner;
      group = shown.group;
      mode = shown.mode;
      acl = shown.acl.now;
    } };
}

impl<'a> Shown<'a> {
    /// The parts of a view.
    pub(crate) fn of_view(view: &'a View) -> Shown<'a>
        ensures { result ≡ view.now }
    {
        Shown {
            path: &view.path,
            kind: view.kind,
            owner: view.owner,
            group: view.group,
            mode: view.mode,
            acl: &view.acl,
        }
    }

    /// The parts of the node at a path.
    pub(crate) fn of_node(path: &'a Path, node: &'a Node) -> Shown<'a>
        ensures { result ≡ view_of path.now node.now }
    {
        Shown {
            path,
            kind: node.kind,
            owner: node.owner,
            group: node.group,
            mode: node.acl.mode(),
            acl: &node.acl,
        }
    }
}
