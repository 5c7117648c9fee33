//! The nodes of a tree.
ghost use Rattle.std.specs.Prelude.{◌≡◌, IfOk};
ghost use Rattle.acl_posix.specs.Perms.{bits_of};
ghost use Rattle.acl_tree.specs.Nodes.{is_dir, may, owners_of, view_of, with_access, with_default};
ghost use Rattle.acl_tree.specs.Nodes.{with_mode, with_nfs4};
ghost use Rattle.acl_tree.specs.Refusals.{ChangesTo};

use crate::node_acl::try_clone_boxed;
use crate::refusal::Refusal;
use crate::{Boxed, NodeAcl, Path, TreeFault, View};
use acl_bridge::FileAcl;
use acl_names::{Gid, Requester, Uid};
use acl_nfs4::{Acl4, Kind, Owners};
use acl_posix::{Acl, Mode, Perms};
use std::alloc::{AllocError, Global};

/// A file or a directory. In a tree its kind, its owner and its group never change.
#[derive(Debug, Drop)]
pub struct Node {
    /// Whether it is a file or a directory.
    pub kind: Kind,
    /// Its owner.
    pub owner: Uid,
    /// Its group.
    pub group: Gid,
    /// Its access control lists, of either style.
    pub acl: NodeAcl,
}

impl Node {
    /// Whether it is a directory.
    pub fn is_dir(&self) -> bool
        ensures { result ≡ is_dir self.now.kind }
    {
        matches!(self.kind, Kind::Dir)
    }

    /// Clones it. Fails only if memory runs out.
    pub fn try_clone(&self, alloc: Global) -> Result<Node, AllocError>
        ensures { IfOk result (λ clone. clone ≡ self.now) }
    {
        Ok(Node {
            kind: self.kind,
            owner: self.owner,
            group: self.group,
            acl: self.acl.try_clone(alloc)?,
        })
    }

    /// A view of it at this path, with copies of its lists. Fails only if memory runs out.
    pub fn view(&self, alloc: Global, path: &Path) -> Result<View, AllocError>
        ensures { IfOk result (λ view. view ≡ view_of path.now self.now) }
    {
        Ok(View {
            path: path.try_clone(alloc)?,
            kind: self.kind,
            owner: self.owner,
            group: self.group,
            mode: self.acl.mode(),
            acl: self.acl.try_clone(alloc)?,
        })
    }

    /// Its owner and its group.
    pub fn owners(&self) -> Owners
        ensures { result ≡ owners_of self.now }
    {
        Owners {
            owner: self.owner,
            group: self.group,
        }
    }

    /// Whether its list grants the requester all of the permissions.
    pub fn may(&self, requester: &Requester, perms: Perms) -> bool
        ensures { result ≡ may self.now requester.now (bits_of perms) }
    {
        let (owners, list) = (self.owners(), self.acl.deciding_list());
        FileAcl { owners, list }.may(requester, perms)
    }

    /// Sets the access list. A default list stays; an NFSv4 list is dropped.
    pub(crate) fn set_access(&mut self, alloc: Global, acl: &Acl) -> Result<(), Refusal>
        ensures { ChangesTo (with_access acl.now self.old) self.old result self.new }
    {
        // The copy comes first, so that the node is as it was if memory runs out.
        let new = acl.try_clone(alloc)?;
        match &mut self.acl {
            NodeAcl::Posix { access, .. } => *access = new,
            NodeAcl::Nfs4 { .. } => {
                self.acl = NodeAcl::Posix {
                    access: new,
                    default: None,
                };
            }
        }
        Ok(())
    }

    /// Sets the default list, or removes it.
    pub(crate) fn set_default(
        &mut self,
        alloc: Global,
        default: &Option<Boxed<Acl>>,
    ) -> Result<(), Refusal>
        ensures { ChangesTo (with_default default.now self.old) self.old result self.new }
    {
        let is_dir = self.is_dir();
        let NodeAcl::Posix { default: place, .. } = &mut self.acl else {
            return Err(Refusal::Fault(TreeFault::WrongStyle));
        };
        if !is_dir {
            return Err(Refusal::Fault(TreeFault::DefaultOnFile));
        }
        *place = try_clone_boxed(alloc, default)?;
        Ok(())
    }

    /// Sets the NFSv4 list. POSIX lists are dropped.
    pub(crate) fn set_nfs4(&mut self, alloc: Global, acl: &Acl4) -> Result<(), Refusal>
        ensures { ChangesTo (with_nfs4 acl.now self.old) self.old result self.new }
    {
        if !self.is_dir() && acl.has_inheritance() {
            return Err(Refusal::Fault(TreeFault::InheritOnFile));
        }
        let acl = acl.try_clone(alloc)?;
        self.acl = NodeAcl::Nfs4 { acl };
        Ok(())
    }

    /// Changes the mode.
    pub(crate) fn change_mode(&mut self, alloc: Global, mode: Mode) -> Result<(), Refusal>
        ensures { ChangesTo (with_mode mode self.old) self.old result self.new }
    {
        self.acl.change_mode(alloc, mode)
    }
}
