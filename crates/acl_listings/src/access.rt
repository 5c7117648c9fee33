//! The POSIX lists of a block.

ghost use Rattle.std.specs.Prelude.{◌≡◌, IfSome, None, Ok};
ghost use Rattle.acl_names.specs.Pieces.{pieces};
ghost use Rattle.acl_listings.specs.Access.{acl_by, posix_by};
ghost use Rattle.acl_listings.specs.BlockLists.{lists_by};
ghost use Rattle.acl_listings.specs.Faults.{ReadsAs, fault_of_entries};
ghost use Rattle.acl_listings.specs.ListLines.{pieces_of};

use crate::Lists;
use crate::fault::{BlockFault, FileFault};
use crate::list_lines::{ListKind, has_default, lines_of};
use crate::rule::{Rule, missing_of};
use acl_names::ResolveNames;
use acl_posix::{Acl, Invalid, read_entries};
use std::alloc::Global;

/// Reads the lists in the lines after a block's header. If it has a default list, it copies the
/// lines of each list.
pub(crate) fn read_posix<N: ResolveNames>(
    alloc: Global,
    list: &[u8],
    names: &N,
) -> Result<Lists, FileFault>
    ensures { ReadsAs (posix_by (N.names names.now) list.now) result }
{
    if !has_default(list) {
        let access = read_acl(alloc, list, names)?;
        return Ok(Lists::Posix {
            access,
            default: None,
        });
    }
    let access = read_acl_of(alloc, ListKind::Access, list, names)?;
    let default = read_acl_of(alloc, ListKind::Default, list, names)?;
    Ok(Lists::Posix {
        access,
        default: Some(default),
    })
}

/// How many bytes the others' line of a default list has, as `getfacl` prints it.
const DEFAULT_OTHER_LEN: usize = 18;

/// Whether the last line is the others' line of a default list, as `getfacl` prints it. It only
/// decides which way of reading is tried.
fn ends_in_default(list: &[u8]) -> bool {
    match list.len().checked_sub(DEFAULT_OTHER_LEN) {
        Some(at) => list[at..].starts_with(b"default:other::"),
        None => false,
    }
}

/// The access control list of a block without a default list, if its lines are as `getfacl` prints
/// them, the owner's entry first. A fast path: on `None` the caller has to read the lines
/// otherwise.
pub(crate) fn read_access_alone<N: ResolveNames>(
    alloc: Global,
    list: &[u8],
    names: &N,
) -> Option<Acl>
    ensures { IfSome result (λ access. lists_by (N.names names.now) list.now
        ≡ Ok (Lists.Posix access None)) }
{
    if !list.starts_with(b"user::") || ends_in_default(list) {
        return None;
    }
    let Ok(entries) = read_entries(alloc, list, names) else {
        return None;
    };
    match Acl::new(entries) {
        Ok(access) => Some(access),
        Err(_) => None,
    }
}

/// Reads the access control list of this kind from its lines.
fn read_acl_of<N: ResolveNames>(
    alloc: Global,
    kind: ListKind,
    list: &[u8],
    names: &N,
) -> Result<Acl, FileFault>
    ensures { ReadsAs (acl_by (N.names names.now) (pieces_of kind list.now)) result }
{
    let lines = lines_of(alloc, kind, list)?;
    read_acl(alloc, &lines, names)
}

/// Reads an access control list from a text.
fn read_acl<N: ResolveNames>(alloc: Global, text: &[u8], names: &N) -> Result<Acl, FileFault>
    ensures { ReadsAs (acl_by (N.names names.now) (pieces text.now)) result }
{
    let entries = read_entries(alloc, text, names)?;
    let missing = missing_of(entries.as_slice());
    match Acl::new(entries) {
        Ok(acl) => Ok(acl),
        Err(fault) => Err(fault_of(fault, missing)),
    }
}

/// Why entries don't make an access control list; `missing` is the rule for an entry that is
/// missing.
fn fault_of(fault: Invalid, missing: Rule) -> FileFault
    ensures { result ≡ fault_of_entries missing fault }
{
    match fault {
        Invalid::Missing => FileFault::Block(BlockFault::InvalidAcl(missing)),
        Invalid::Repeated => FileFault::Block(BlockFault::InvalidAcl(Rule::Twice)),
        Invalid::NoMask => FileFault::Block(BlockFault::InvalidAcl(Rule::NoMask)),
        Invalid::Memory => FileFault::Memory,
    }
}
