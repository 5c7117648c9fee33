//! The commands that change the tree.
ghost use Rattle.acl_tree.specs.Commands.{set_access, set_default, set_nfs4, change_mode, create};
ghost use Rattle.acl_tree.specs.Refusals.{ChangesTo};

use super::Tree;
use crate::limits::MAX_NODES;
use crate::refusal::Refusal;
use crate::{Boxed, Node, Path, TreeFault};
use acl_names::{Directory, Uid};
use acl_nfs4::{Acl4, Kind};
use acl_posix::{Acl, Mode};
use std::alloc::Global;

impl Tree {
    /// Sets the access list of the node at the path.
    pub(super) fn set_access(
        &mut self,
        alloc: Global,
        path: &Path,
        acl: &Acl,
    ) -> Result<(), Refusal>
        ensures { ChangesTo (set_access self.old path.now acl.now) self.old result self.new }
    {
        let Some(node) = self.node_mut(path) else {
            return Err(Refusal::Fault(TreeFault::NoSuchPath));
        };
        node.set_access(alloc, acl)
    }

    /// Sets the default list of the directory at the path, or removes it.
    pub(super) fn set_default(
        &mut self,
        alloc: Global,
        path: &Path,
        default: &Option<Boxed<Acl>>,
    ) -> Result<(), Refusal>
        ensures { ChangesTo (set_default self.old path.now default.now) self.old result self.new }
    {
        let Some(node) = self.node_mut(path) else {
            return Err(Refusal::Fault(TreeFault::NoSuchPath));
        };
        node.set_default(alloc, default)
    }

    /// Sets the NFSv4 list of the node at the path.
    pub(super) fn set_nfs4(&mut self, alloc: Global, path: &Path, acl: &Acl4) -> Result<(), Refusal>
        ensures { ChangesTo (set_nfs4 self.old path.now acl.now) self.old result self.new }
    {
        let Some(node) = self.node_mut(path) else {
            return Err(Refusal::Fault(TreeFault::NoSuchPath));
        };
        node.set_nfs4(alloc, acl)
    }

    /// Changes the mode of the node at the path.
    pub(super) fn change_mode(
        &mut self,
        alloc: Global,
        path: &Path,
        mode: Mode,
    ) -> Result<(), Refusal>
        ensures { ChangesTo (change_mode self.old path.now mode) self.old result self.new }
    {
        let Some(node) = self.node_mut(path) else {
            return Err(Refusal::Fault(TreeFault::NoSuchPath));
        };
        node.change_mode(alloc, mode)
    }

    /// Creates a node at the path, with lists of its directory's style.
    pub(super) fn create(
        &mut self,
        alloc: Global,
        directory: &Directory,
        kind: Kind,
        path: &Path,
        owner: Uid,
        mode: Mode,
    ) -> Result<(), Refusal>
        ensures { ChangesTo (create directory.now self.old kind path.now owner mode) self.old result
            self.new }
    {
        let above = self.node_at(path.parent())?;
        if self.node(path).is_some() {
            return Err(Refusal::Fault(TreeFault::Exists));
        }
        if !above.is_dir() {
            return Err(Refusal::Fault(TreeFault::NotADirectory));
        }
        if self.len() >= MAX_NODES {
            return Err(Refusal::Fault(TreeFault::Full));
        }
        let acl = above.acl.at_creation(alloc, kind, self.umask, mode)?;
        let group = directory.first_group(owner).unwrap_or(above.group);
        let node = Node {
            kind,
            owner,
            group,
            acl,
        };
        self.insert(alloc, path.as_bytes(), node)?;
        Ok(())
    }
}
