//! The access check over entries in any order, which it sorts in place.

ghost use Rattle.std.specs.List.Sorted.{IsPermutation};
ghost use Rattle.std.specs.Prelude.{◌≡◌, IsTrue, IfNone, not};
ghost use Rattle.acl_posix.specs.Access.{grants};
ghost use Rattle.acl_posix.specs.Canonical.{IsCanonical};
ghost use Rattle.acl_posix.specs.Checked.{checked};
ghost use Rattle.acl_posix.specs.InOrder.{in_order};
ghost use Rattle.acl_posix.specs.Linux.{linux_list};
ghost use Rattle.acl_posix.specs.Perms.{bits_of};
ghost use Rattle.acl_posix.specs.Validity.{IsValid, fault_of, repeats_tag};

use crate::acl::access::decide;
use crate::acl::linux::decide_as_linux;
use crate::entries::first_fault;
use crate::sorted_copy::are_canonical;
use crate::{Entry, Invalid, Perms};
use acl_names::{Gid, Subject, Uid};

/// `Acl::grants` for the list of these entries, in whatever order they are; or the fault for which
/// `Acl::new` refuses them. It takes no memory: it sorts the entries in place, in canonical order.
pub fn entries_grant<S: Subject>(
    entries: &mut [Entry],
    owner: Uid,
    group: Gid,
    subject: &S,
    request: Perms,
) -> Result<bool, Invalid>
    ensures { result ≡ checked (λ acl. grants acl owner group (S.identity subject.now)
        (bits_of request)) entries.old }
{
    match put_in_order(entries) {
        Some(fault) => Err(fault),
        None => Ok(decide(entries, owner, group, subject, request)),
    }
}

/// Like `entries_grant`, but as Linux evaluates the list: by the list that `Acl::for_linux` makes.
pub fn entries_grant_on_linux<S: Subject>(
    entries: &mut [Entry],
    owner: Uid,
    group: Gid,
    subject: &S,
    request: Perms,
) -> Result<bool, Invalid>
    ensures { result ≡ checked (λ acl. grants (linux_list acl) owner group (S.identity subject.now)
        (bits_of request)) entries.old }
{
    match put_in_order(entries) {
        Some(fault) => Err(fault),
        None => Ok(decide_as_linux(entries, owner, group, subject, request)),
    }
}

/// Sorts entries in canonical order, and returns the first fault that they have.
fn put_in_order(entries: &mut [Entry]) -> Option<Invalid>
    ensures fault { result ≡ fault_of entries.old }
    ensures valid { IfNone result (IsValid entries.new) }
    ensures canonical { IfNone result (IsCanonical entries.new) }
    ensures list { IfNone result (entries.new ≡ in_order entries.old) }
{
    let distinct = sort(entries);
    first_fault(entries, distinct)
}

/// Sorts entries in canonical order, and returns whether no tag occurs twice.
fn sort(entries: &mut [Entry]) -> bool
    ensures permutation { IsPermutation entries.old entries.new }
    ensures canonical { IsTrue result → IsCanonical entries.new }
    ensures distinct { result ≡ not (repeats_tag entries.new) }
{
    if are_canonical(entries) {
        return true;
    }
    entries.sort_unstable_by_key(|entry| entry.tag);
    are_canonical(entries)
}
