//! The lists of a block, in the form of its first entry.

ghost use Rattle.acl_names.specs.Pieces.{pieces};
ghost use Rattle.acl_nfs4.specs.NamedAces.{ace_by};
ghost use Rattle.acl_forms.specs.FormText.{entry_by};
ghost use Rattle.acl_listings.specs.BlockLists.{lists_by, nfs4_by};
ghost use Rattle.acl_listings.specs.Faults.{ReadsAs};

use crate::access::{read_access_alone, read_posix};
use crate::fault::FileFault;
use acl_forms::{Form, form_of, read_entries};
use acl_names::ResolveNames;
use acl_nfs4::{Acl4, read_aces_by};
use acl_posix::Acl;
use std::alloc::Global;

/// The access control lists of a file.
#[derive(Debug, Drop)]
pub enum Lists {
    /// The list that decides access, and the default list that a folder's content inherits.
    Posix { access: Acl, default: Option<Acl> },
    /// The list that decides access, some entries of which a folder's content inherits.
    Nfs4 { acl: Acl4 },
}

/// Reads the lists in the lines after a block's header, all in the form of the first entry.
pub(crate) fn read_lists<N: ResolveNames>(
    alloc: Global,
    list: &[u8],
    names: &N,
) -> Result<Lists, FileFault>
    ensures { ReadsAs (lists_by (N.names names.now) list.now) result }
{
    if let Some(access) = read_access_alone(alloc, list, names) {
        return Ok(Lists::Posix {
            access,
            default: None,
        });
    }
    match form_of(list) {
        Form::Posix => read_posix(alloc, list, names),
        Form::Nfs4 => read_nfs4(alloc, list, names),
        Form::Freebsd => read_freebsd(alloc, list, names),
    }
}

fn read_nfs4<N: ResolveNames>(alloc: Global, list: &[u8], names: &N) -> Result<Lists, FileFault>
    ensures { ReadsAs (nfs4_by (ace_by (N.names names.now)) (pieces list.now)) result }
{
    let acl = read_aces_by(alloc, list, names)?;
    Ok(Lists::Nfs4 { acl })
}

fn read_freebsd<N: ResolveNames>(alloc: Global, list: &[u8], names: &N) -> Result<Lists, FileFault>
    ensures { ReadsAs (nfs4_by (entry_by (N.names names.now)) (pieces list.now)) result }
{
    let acl = read_entries(alloc, list, names)?;
    Ok(Lists::Nfs4 { acl })
}
