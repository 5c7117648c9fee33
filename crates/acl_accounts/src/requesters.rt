//! The users of accounts as requesters.

ghost use Rattle.std.specs.Prelude.{◌≡◌, IfOk, map};
ghost use Rattle.std.specs.Cmp.Lexicographic.{slice_cmp};
ghost use Rattle.std.specs.List.Sorted.{IsSortedByKey};
ghost use Rattle.std.specs.Ordering.{nat_cmp};
ghost use Rattle.acl_accounts.specs.Accounts.{requester_of, requester_with};
ghost use Rattle.acl_accounts.specs.Views.{view_group, view_membership};

use crate::account::Account;
use crate::memberships::{Membership, gids_of, memberships_of, memberships_with};
use crate::rows::GroupRow;
use acl_names::Requester;
use std::alloc::{AllocError, Global};

/// Each user as a requester, in the order of the users: in the primary group, and in those that
/// list the user as a member.
pub(crate) fn requesters_of(
    alloc: Global,
    users: &[Account],
    groups: &[GroupRow<'_>],
) -> Result<Vec<Requester>, AllocError>
    ensures { IfOk result (λ requesters. requesters.items
        ≡ map (requester_of (map view_group groups.now)) users.now) }
{
    let memberships = memberships_of(alloc, groups)?;
    requesters_with(alloc, users, &memberships)
}

/// The same by the memberships in the groups, which must be sorted by name.
fn requesters_with(
    alloc: Global,
    users: &[Account],
    memberships: &[Membership<'_>],
) -> Result<Vec<Requester>, AllocError>
    requires { IsSortedByKey (λ member. member.name.now) (slice_cmp nat_cmp) memberships.now }
    ensures { IfOk result (λ requesters. requesters.items
        ≡ map (requester_with (map view_membership memberships.now)) users.now) }
{
    let mut requesters = Vec::with_capacity(alloc, users.len())?;
    for user in users {
        requesters.push(requester_of(alloc, user, memberships)?)?;
    }
    Ok(requesters)
}

/// The user as a requester: in the primary group, and in those of the memberships.
fn requester_of(
    alloc: Global,
    user: &Account,
    memberships: &[Membership<'_>],
) -> Result<Requester, AllocError>
    requires { IsSortedByKey (λ member. member.name.now) (slice_cmp nat_cmp) memberships.now }
    ensures { IfOk result (λ requester. requester
        ≡ requester_with (map view_membership memberships.now) user.now) }
{
    let gids = gids_of(
        alloc,
        user.gid(),
        memberships_with(memberships, user.name()),
    )?;
    Ok(Requester::new(user.uid(), gids))
}
