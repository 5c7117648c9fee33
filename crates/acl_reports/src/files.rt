//! The list that decides access to a listed file.
ghost use Rattle.std.specs.Prelude.{◌≡◌, IfOk};
ghost use Rattle.acl_bridge.specs.Files.{file_with};
ghost use Rattle.acl_listings.specs.Views.{view_file};
ghost use Rattle.acl_reports.specs.Files.{deciding_list, file_of};

use acl_access::{Rules, evaluated_by};
use acl_bridge::AnyAcl;
use acl_listings::{File, Lists};
use acl_nfs4::Owners;
use std::alloc::{AllocError, Global};

/// The list that decides access to a file with these lists, as these rules evaluate it. It takes no
/// memory.
fn deciding_list(alloc: Global, rules: Rules, lists: Lists) -> Result<AnyAcl, AllocError>
    ensures { IfOk result (λ list. list ≡ deciding_list rules lists) }
{
    match lists {
        Lists::Posix { access, .. } => Ok(AnyAcl::Posix(evaluated_by(alloc, rules, access)?)),
        Lists::Nfs4 { acl } => Ok(AnyAcl::Nfs4(acl)),
    }
}

/// A listed file's owners, and the list that decides access to it, as these rules evaluate it. It
/// takes no memory.
pub fn owners_and_list(
    alloc: Global,
    rules: Rules,
    file: File<'_>,
) -> Result<(Owners, AnyAcl), AllocError>
    ensures { IfOk result (λ deciding. file_with deciding.0 deciding.1
        ≡ file_of rules (view_file file.entry)) }
{
    let owners = Owners {
        owner: file.owner,
        group: file.group,
    };
    Ok((owners, deciding_list(alloc, rules, file.lists)?))
}
