//! The access control lists of a node, of either style.
ghost use Rattle.std.specs.Prelude.{◌≡◌, IfOk};
ghost use Rattle.acl_bridge.specs.Files.{view_list};
ghost use Rattle.acl_tree.specs.NodeAcls.{acl_at_creation, acl_with_mode, beyond_umask};
ghost use Rattle.acl_tree.specs.NodeAcls.{deciding_list, default_below, mode_shown, root_acl};
ghost use Rattle.acl_tree.specs.Refusals.{ComesTo, ChangesTo};

use crate::Boxed;
use crate::refusal::Refusal;
use acl_bridge::{AnyAclRef, Style};
use acl_nfs4::{Acl4, Fault4, Kind};
use acl_posix::{Acl, Mode, without};
use std::alloc::{AllocError, Global};

/// The access control lists of a node.
#[derive(Debug, Drop)]
pub enum NodeAcl {
    /// The list that decides access, and the default list that new nodes inherit; in a tree only
    /// directories have the second.
    Posix { access: Acl, default: Option<Acl> },
    /// The list that decides access, and whose entries new nodes inherit.
    Nfs4 { acl: Acl4 },
}

/// A copy of the list, if there is one.
fn try_clone_default(alloc: Global, default: &Option<Acl>) -> Result<Option<Acl>, AllocError>
    ensures { IfOk result (λ clone. clone ≡ default.now) }
{
    match default {
        Some(default) => Ok(Some(default.try_clone(alloc)?)),
        None => Ok(None),
    }
}

/// A copy of the list in the box, if there is one.
pub(crate) fn try_clone_boxed(
    alloc: Global,
    default: &Option<Boxed<Acl>>,
) -> Result<Option<Acl>, AllocError>
    ensures { IfOk result (λ clone. clone ≡ default.now) }
{
    match default {
        Some(default) => Ok(Some(default.try_clone(alloc)?)),
        None => Ok(None),
    }
}

/// The default list of a new node under this default list: a directory inherits it, a file has
/// none.
fn default_below(alloc: Global, kind: Kind, default: &Acl) -> Result<Option<Acl>, AllocError>
    ensures { IfOk result (λ below. below ≡ default_below kind default.now) }
{
    match kind {
        Kind::Dir => Ok(Some(default.try_clone(alloc)?)),
        Kind::File => Ok(None),
    }
}

/// The mode without the umask's bits.
fn beyond_umask(mode: Mode, umask: Mode) -> Mode
    ensures { result ≡ beyond_umask mode umask }
{
    Mode {
        user: without(mode.user, umask.user),
        group: without(mode.group, umask.group),
        other: without(mode.other, umask.other),
    }
}

impl NodeAcl {
    /// Clones them. Fails only if memory runs out.
    pub fn try_clone(&self, alloc: Global) -> Result<NodeAcl, AllocError>
        ensures { IfOk result (λ clone. clone ≡ self.now) }
    {
        match self {
            NodeAcl::Posix { access, default } => Ok(NodeAcl::Posix {
                access: access.try_clone(alloc)?,
                default: try_clone_default(alloc, default)?,
            }),
            NodeAcl::Nfs4 { acl } => Ok(NodeAcl::Nfs4 {
                acl: acl.try_clone(alloc)?,
            }),
        }
    }

    /// The list that decides access.
    pub fn deciding_list(&self) -> AnyAclRef<'_>
        ensures { view_list result ≡ deciding_list self.now }
    {
        match self {
            NodeAcl::Posix { access, .. } => AnyAclRef::Posix(access),
            NodeAcl::Nfs4 { acl } => AnyAclRef::Nfs4(acl),
        }
    }

    /// The mode: that of the access list, or what the NFSv4 list grants the owner, the group and
    /// the others.
    pub fn mode(&self) -> Mode
        ensures { result ≡ mode_shown self.now }
    {
        match self {
            NodeAcl::Posix { access, .. } => access.mode(),
            NodeAcl::Nfs4 { acl } => acl.mode4(),
        }
    }

    /// The list of a root: that of the mode alone.
    pub(crate) fn of_root(alloc: Global, style: Style, mode: Mode) -> Result<NodeAcl, AllocError>
        ensures { IfOk result (λ acl. acl ≡ root_acl style mode) }
    {
        match style {
            Style::Posix => Ok(NodeAcl::Posix {
                access: Acl::of_mode(alloc, mode)?,
                default: None,
            }),
            Style::Nfs4 => {
                let mut acl = Acl4::empty(alloc);
                match acl.chmod4(alloc, mode) {
                    Ok(()) => Ok(NodeAcl::Nfs4 { acl }),
                    Err(Fault4::Memory) => Err(AllocError),

                    // A mode alone makes five entries at most.
                    Err(Fault4::TooMany) => unreachable!(),
                }
            }
        }
    }

    /// Changes the mode; a default list stays.
    pub(crate) fn change_mode(&mut self, alloc: Global, mode: Mode) -> Result<(), Refusal>
        ensures { ChangesTo (acl_with_mode self.old mode) self.old result self.new }
    {
        match self {
            NodeAcl::Posix { access, .. } => {
                access.chmod(mode);
                Ok(())
            }
            NodeAcl::Nfs4 { acl } => Ok(acl.chmod4(alloc, mode)?),
        }
    }

    /// The lists of a new node in a directory with these. The umask counts only if nothing is
    /// inherited.
    pub(crate) fn at_creation(
        &self,
        alloc: Global,
        kind: Kind,
        umask: Mode,
        mode: Mode,
    ) -> Result<NodeAcl, Refusal>
        ensures { ComesTo (acl_at_creation kind umask self.now mode) result }
    {
        match self {
            NodeAcl::Posix { default: None, .. } => Ok(NodeAcl::Posix {
                access: Acl::of_mode(alloc, beyond_umask(mode, umask))?,
                default: None,
            }),
            NodeAcl::Posix {
                default: Some(default),
                ..
            } => Ok(NodeAcl::Posix {
                access: Acl::at_creation(alloc, default, mode)?,
                default: default_below(alloc, kind, default)?,
            }),
            NodeAcl::Nfs4 { acl } => {
                let mut acl = acl.inherited(alloc, kind)?;
                acl.chmod4(alloc, mode)?;
                Ok(NodeAcl::Nfs4 { acl })
            }
        }
    }
}
