//! Comparing lists for everyone, through translations of POSIX lists.
ghost use Rattle.std.specs.Prelude.{◌≡◌, ◌↔◌, None, IfOk, IfSome};
ghost use Rattle.acl_nfs4.specs.Comparison.{DecideAlike, IsDifference, decided_at};
ghost use Rattle.acl_nfs4.specs.Mask.{mode_bits};
ghost use Rattle.acl_bridge.specs.Comparison.{DecidesEachBit, granted_at, permission_bits};

use crate::bits::{mode_bits, permission_bits};
use crate::translation::translate;
use acl_nfs4::{Acl4, Difference, Owners};
use acl_posix::Acl;
use std::alloc::{AllocError, Global};

/// The NFSv4 list that grants each of these bits as the POSIX list grants its permission.
fn as_nfs4(alloc: Global, acl: &Acl) -> Result<Acl4, AllocError>
    ensures { IfOk result (DecidesEachBit acl.now) }
{
    // For the proof only: calling a reader brings the invariant of `acl` into scope.
    let _entries = acl.entries();
    translate(alloc, acl)
}

/// Compares a POSIX list with an NFSv4 list, each for a file of its own owners, in the bits that
/// permissions mean. `None` exactly if the NFSv4 list grants each bit to the requesters to whom the
/// POSIX list grants its permission alone; else a requester in at most two groups, with what only
/// the one and only the other list grants. Fails only if memory runs out.
pub fn difference_from_posix(
    alloc: Global,
    acl: &Acl,
    owners: &Owners,
    aces: &Acl4,
    other_owners: &Owners,
) -> Result<Option<Difference>, AllocError>
    ensures none { IfOk result (λ found. (found ≡ None)
        ↔ DecideAlike (granted_at acl.now owners.now) (decided_at aces.now other_owners.now)
        mode_bits) }
    ensures some { IfOk result (λ found. IfSome found
        (IsDifference (granted_at acl.now owners.now) (decided_at aces.now other_owners.now)
        mode_bits)) }
{
    let before = as_nfs4(alloc, acl)?;
    Ok(before.difference(owners, aces, other_owners, mode_bits()))
}

/// Compares two POSIX lists, each for a file of its own owners, in the permissions one by one.
/// `None` exactly if both grant each to the same requesters, of whatever uid and groups; else a
/// requester in at most two groups, with what only the one and only the other list grants. Each
/// permission is reported as one bit: READ_DATA, WRITE_DATA and EXECUTE. Fails only if memory runs
/// out.
pub fn posix_difference(
    alloc: Global,
    first: &Acl,
    owners: &Owners,
    second: &Acl,
    other_owners: &Owners,
) -> Result<Option<Difference>, AllocError>
    ensures none { IfOk result (λ found. (found ≡ None)
        ↔ DecideAlike (granted_at first.now owners.now) (granted_at second.now other_owners.now)
        permission_bits) }
    ensures some { IfOk result (λ found. IfSome found
        (IsDifference (granted_at first.now owners.now) (granted_at second.now other_owners.now)
        permission_bits)) }
{
    let before = as_nfs4(alloc, first)?;
    let after = as_nfs4(alloc, second)?;
    Ok(before.difference(owners, &after, other_owners, permission_bits()))
}
