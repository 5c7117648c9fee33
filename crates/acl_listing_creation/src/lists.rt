//! The lists of what is created in a folder.
ghost use Rattle.std.specs.Prelude.{◌≡◌, IfOk};
ghost use Rattle.acl_listings.specs.Faults.{ReadsAs};
ghost use Rattle.acl_listings.specs.declared.lists.Lists.TheVariants.{Nfs4};
ghost use Rattle.acl_tree.specs.NodeAcls.{default_below};
ghost use Rattle.acl_listing_creation.specs.Created.{lists_in};

use crate::creation::Creation;
use acl_listings::{BlockFault, FileFault, Lists};
use acl_nfs4::{Acl4, Fault4, Kind};
use acl_posix::{Acl, AclFault};
use std::alloc::{AllocError, Global};

/// The default list of what is created under a default list: a folder inherits it, a file has none.
fn default_below(alloc: Global, kind: Kind, default: &Acl) -> Result<Option<Acl>, AllocError>
    ensures { IfOk result (λ below. below ≡ default_below kind default.now) }
{
    match kind {
        Kind::Dir => Ok(Some(default.try_clone(alloc)?)),
        Kind::File => Ok(None),
    }
}

/// The list of what is created in a folder with this NFSv4 list.
fn nfs4_in(alloc: Global, creation: &Creation, acl: &Acl4) -> Result<Lists, FileFault>
    ensures { ReadsAs (lists_in creation.now (Nfs4 acl.now)) result }
{
    let mut below = acl.inherited(alloc, creation.kind)?;
    let mode = creation.mode_on(below.aces());
    match below.chmod4(alloc, mode) {
        Ok(()) => Ok(Lists::Nfs4 { acl: below }),
        Err(Fault4::TooMany) => Err(FileFault::Block(BlockFault::Acl(AclFault::TooMany))),
        Err(Fault4::Memory) => Err(FileFault::Memory),
    }
}

/// The lists of what is created in a folder with these lists: by its default list or by what is
/// inherited, and else by the mode without the umask's bits. Fails if there would be more than 128
/// NFSv4 entries, and if memory runs out.
pub(crate) fn lists_in(
    alloc: Global,
    creation: &Creation,
    lists: &Lists,
) -> Result<Lists, FileFault>
    ensures { ReadsAs (lists_in creation.now lists.now) result }
{
    match lists {
        Lists::Posix { default: None, .. } => Ok(Lists::Posix {
            access: Acl::of_mode(alloc, creation.mode_alone())?,
            default: None,
        }),
        Lists::Posix {
            default: Some(default),
            ..
        } => Ok(Lists::Posix {
            access: Acl::at_creation(alloc, default, creation.mode)?,
            default: default_below(alloc, creation.kind, default)?,
        }),
        Lists::Nfs4 { acl } => nfs4_in(alloc, creation, acl),
    }
}
