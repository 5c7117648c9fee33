//! The commands that make a tree again.
ghost use Rattle.std.specs.Prelude.{◌≡◌, ◌++◌, IfOk, OnOk};
ghost use Rattle.acl_tree.specs.declared.request.Request.TheVariants.{Create, SetAccess, SetNfs4};
ghost use Rattle.acl_audit.specs.Dump.{closed_list, creation, no_mode, set_default, set_lists};

use acl_nfs4::Acl4;
use acl_posix::{Acl, Mode, Perms};
use acl_tree::{Boxed, Node, NodeAcl, Path, Request};
use bitflags::Flags;
use std::alloc::{AllocError, Global};

/// The mode without permissions, with which nodes are created.
fn no_mode() -> Mode
    ensures { result ≡ no_mode }
{
    Mode {
        user: Perms::empty(),
        group: Perms::empty(),
        other: Perms::empty(),
    }
}

/// The command that closes the directory at the path, so that what is created in it inherits
/// nothing: `set P access u::-,g::-,o::-`. Fails only if memory runs out.
pub fn close(alloc: Global, path: &Path) -> Result<Request, AllocError>
    ensures { IfOk result (λ request. request ≡ SetAccess path.now closed_list) }
{
    let acl = Boxed::new(alloc, Acl::of_mode(alloc, no_mode())?)?;
    Ok(Request::SetAccess(path.try_clone(alloc)?, acl))
}

/// Appends the command that creates the node at the path, without permissions; none for the root,
/// which exists already. Fails only if memory runs out.
pub fn push_creation(
    alloc: Global,
    path: &Path,
    node: &Node,
    requests: &mut Vec<Request>,
) -> Result<(), AllocError>
    ensures { OnOk result (requests.new.items ≡ requests.old.items ++ creation (path.now, node.now)) }
{
    if path.as_bytes() == b"/".as_slice() {
        return Ok(());
    }
    let path = path.try_clone(alloc)?;
    requests.push(Request::Create(node.kind, path, node.owner, no_mode()))?;
    Ok(())
}

/// The command that sets the access list.
fn set_access(alloc: Global, path: &Path, access: &Acl) -> Result<Request, AllocError>
    ensures { IfOk result (λ request. request ≡ SetAccess path.now access.now) }
{
    let acl = Boxed::new(alloc, access.try_clone(alloc)?)?;
    Ok(Request::SetAccess(path.try_clone(alloc)?, acl))
}

/// The command that sets the NFSv4 list.
fn set_nfs4(alloc: Global, path: &Path, acl: &Acl4) -> Result<Request, AllocError>
    ensures { IfOk result (λ request. request ≡ SetNfs4 path.now acl.now) }
{
    let acl = Boxed::new(alloc, acl.try_clone(alloc)?)?;
    Ok(Request::SetNfs4(path.try_clone(alloc)?, acl))
}

/// Appends the command that sets the default list, if there is one.
fn push_default(
    alloc: Global,
    path: &Path,
    default: &Option<Acl>,
    requests: &mut Vec<Request>,
) -> Result<(), AllocError>
    ensures { OnOk result (requests.new.items
        ≡ requests.old.items ++ set_default path.now default.now) }
{
    if let Some(default) = default {
        let acl = Boxed::new(alloc, default.try_clone(alloc)?)?;
        requests.push(Request::SetDefault(path.try_clone(alloc)?, Some(acl)))?;
    }
    Ok(())
}

/// Appends the commands that give the node at the path, which was just created, the lists of
/// `node`. Fails only if memory runs out.
pub fn push_lists(
    alloc: Global,
    path: &Path,
    node: &Node,
    requests: &mut Vec<Request>,
) -> Result<(), AllocError>
    ensures { OnOk result (requests.new.items
        ≡ requests.old.items ++ set_lists path.now node.now.acl) }
{
    match &node.acl {
        NodeAcl::Posix { access, default } => {
            requests.push(set_access(alloc, path, access)?)?;
            push_default(alloc, path, default, requests)
        }
        NodeAcl::Nfs4 { acl } => {
            requests.push(set_nfs4(alloc, path, acl)?)?;
            Ok(())
        }
    }
}
