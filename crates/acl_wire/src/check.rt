//! Checks of POSIX lists in bytes.

ghost use Rattle.std.specs.Prelude.{◌≡◌};
ghost use Rattle.acl_access.specs.Evaluated.{evaluated_by};
ghost use Rattle.acl_posix.specs.Access.{grants};
ghost use Rattle.acl_posix.specs.Checked.{checked};
ghost use Rattle.acl_posix.specs.Perms.{bits_of};
ghost use Rattle.acl_wire.specs.Check.{answer_in, answer_of, check_of};

use crate::one_pass::in_order_grants;
use crate::posix::refused;
use crate::xattr_reading::entries_of;
use crate::{Caller, PosixFault};
use acl_access::Rules;
use acl_names::{Gid, Uid};
use acl_posix::{Entry, Invalid, Perms, entries_grant, entries_grant_on_linux};
use bitflags::Flags;

/// Whether the list of these entries grants the request, or what is wrong with them.
fn decide(
    entries: &mut [Entry],
    rules: Rules,
    owner: Uid,
    group: Gid,
    caller: &Caller<'_>,
    request: Perms,
) -> Result<bool, Invalid>
    ensures { result ≡ checked (λ acl. grants (evaluated_by rules acl) owner group
        (record { uid = caller.now.uid; gids = caller.now.gids.now }) (bits_of request))
        entries.old }
{
    match rules {
        Rules::Draft => entries_grant(entries, owner, group, caller, request),
        Rules::Linux => entries_grant_on_linux(entries, owner, group, caller, request),
    }
}

/// What `decide` says of these entries; what is wrong with them is a fault of the bytes.
fn decide_or_refuse(
    entries: &mut [Entry],
    rules: Rules,
    owner: Uid,
    group: Gid,
    caller: &Caller<'_>,
    request: Perms,
) -> Result<bool, PosixFault>
    ensures { result ≡ answer_of rules entries.old owner group
        (record { uid = caller.now.uid; gids = caller.now.gids.now }) (bits_of request) }
{
    match decide(entries, rules, owner, group, caller, request) {
        Ok(granted) => Ok(granted),
        Err(invalid) => Err(refused(invalid)),
    }
}

/// What `decide_or_refuse` says of bytes, whose entries may stand in any order. It is never
/// inlined: the entries have their room in its frame, and `xattr_grants` seldom needs it.
#[inline(never)]
#[tactic(auto, unfolding(crate::specs::Posix::acl_of))]
fn any_order_grants(
    rules: Rules,
    bytes: &[u8],
    owner: Uid,
    group: Gid,
    caller: &Caller<'_>,
    request: Perms,
) -> Result<bool, PosixFault>
    ensures { result ≡ answer_in rules bytes.now owner group
        (record { uid = caller.now.uid; gids = caller.now.gids.now }) (bits_of request) }
{
    let mut entries = entries_of(bytes)?;
    decide_or_refuse(entries.as_mut_slice(), rules, owner, group, caller, request)
}

/// Whether the POSIX list of the bytes grants a user in these groups all of the request, for a file
/// of this owner and this group. The request has the bits of permissions: 4 to read, 2 to write, 1
/// to execute. Fails with `Argument` if an id is out of range or the request has another bit,
/// before all other faults. It takes no memory.
#[inline(always)]
#[tactic(auto, unfolding(crate::specs::Check::check_of))]
pub fn xattr_grants(
    rules: Rules,
    bytes: &[u8],
    owner: u32,
    group: u32,
    uid: u32,
    gids: &[u32],
    request: u32,
) -> Result<bool, PosixFault>
    ensures { result
        ≡ check_of rules bytes.now owner group (record { uid = uid; gids = gids.now }) request }
{
    let (Some(owner), Some(group), Some(uid)) = (Uid::new(owner), Gid::new(group), Uid::new(uid))
    else {
        return Err(PosixFault::Argument);
    };
    if request >= 8 {
        return Err(PosixFault::Argument);
    }
    let request = Perms::from_bits_retain(request as u8);
    let caller = Caller { uid, gids };
    match in_order_grants(rules, bytes, owner, group, &caller, request) {
        Some(granted) => Ok(granted),
        None => any_order_grants(rules, bytes, owner, group, &caller, request),
    }
}
