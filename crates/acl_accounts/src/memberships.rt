//! Which groups list which members.

ghost use Rattle.std.specs.Prelude.{◌≡◌, ℕ, List, ◌∷◌, ◌++◌, bytes_eq, filter, map};
ghost use Rattle.std.specs.Prelude.{OnOk, IfOk};
ghost use Rattle.std.specs.Cmp.Lexicographic.{slice_cmp};
ghost use Rattle.std.specs.List.Sorted.{IsSortedByKey};
ghost use Rattle.std.specs.Ordering.{is_lt, nat_cmp};
ghost use Rattle.acl_accounts.specs.Accounts.{each_once, memberships_in, memberships_of, with_once};
ghost use Rattle.acl_accounts.specs.Seen.{HaveBeenSeen};
ghost use Rattle.acl_accounts.specs.Views.{view_group, view_membership};

use crate::members::Members;
use crate::named::sort_by_name;
use crate::rows::GroupRow;
use acl_names::Gid;
use std::alloc::{AllocError, Global};
use std::collections::HashSet;

/// One member of one group.
#[derive(Clone, Copy, Debug)]
pub(crate) struct Membership<'t> {
    pub name: &'t [u8],
    pub gid: Gid,
}

impl<'t> Membership<'t> {
    fn is_below(&self, name: &[u8]) -> bool
        ensures { result ≡ is_lt (slice_cmp nat_cmp self.now.name.now name.now) }
    {
        self.name.cmp(name).is_lt()
    }

    fn is_of(&self, name: &[u8]) -> bool
        ensures { result ≡ bytes_eq self.now.name.now name.now }
    {
        self.name == name
    }
}

/// All memberships, sorted by the member's name, and for each name in the order of the file.
pub(crate) fn memberships_of<'t>(
    alloc: Global,
    groups: &[GroupRow<'t>],
) -> Result<Vec<Membership<'t>>, AllocError>
    ensures sorted { IfOk result (λ memberships. IsSortedByKey (λ member. member.name.now)
        (slice_cmp nat_cmp) memberships.items) }
    ensures kept { IfOk result (λ memberships. (name : List ℕ)
        → filter (λ member. bytes_eq member.name name) (map view_membership memberships.items)
        ≡ filter (λ member. bytes_eq member.name name) (memberships_of (map view_group groups.now))) }
{
    let mut memberships = listed_memberships(alloc, groups)?;
    sort_by_name(&mut memberships)?;
    Ok(memberships)
}

/// All memberships, in the order of the file.
fn listed_memberships<'t>(
    alloc: Global,
    groups: &[GroupRow<'t>],
) -> Result<Vec<Membership<'t>>, AllocError>
    ensures { IfOk result (λ memberships. map view_membership memberships.items
        ≡ memberships_of (map view_group groups.now)) }
{
    let mut memberships = Vec::new(alloc);
    for group in groups {
        push_members(group, &mut memberships)?;
    }
    Ok(memberships)
}

fn push_members<'t>(
    group: &GroupRow<'t>,
    memberships: &mut Vec<Membership<'t>>,
) -> Result<(), AllocError>
    ensures { OnOk result (map view_membership memberships.new.items
        ≡ map view_membership memberships.old.items ++ memberships_in (view_group group.now)) }
{
    let mut members = Members::new(group.members);
    while let Some(name) = members.next() {
        let membership = Membership {
            name,
            gid: group.gid,
        };
        if memberships.push(membership).is_err() {
            return Err(AllocError);
        }
    }
    Ok(())
}

/// The memberships of a name. `memberships` must be sorted by name.
pub(crate) fn memberships_with<'a, 't>(
    memberships: &'a [Membership<'t>],
    name: &[u8],
) -> &'a [Membership<'t>]
    requires { IsSortedByKey (λ member. member.name.now) (slice_cmp nat_cmp) memberships.now }
    ensures { result.now ≡ filter (λ member. bytes_eq member.name.now name.now) memberships.now }
{
    let from = memberships.partition_point(|member| member.is_below(name));
    let behind = &memberships[from..];
    let count = behind.partition_point(|member| member.is_of(name));
    &behind[..count]
}

/// The gid, and then those of the memberships, each once.
pub(crate) fn gids_of(
    alloc: Global,
    gid: Gid,
    memberships: &[Membership<'_>],
) -> Result<Vec<Gid>, AllocError>
    ensures { IfOk result (λ gids. gids.items
        ≡ each_once (gid ∷ map (λ member. member.gid) memberships.now)) }
{
    let mut gids = Vec::new(alloc);
    let mut seen = HashSet::new(alloc);
    push_once(gid, &mut gids, &mut seen)?;
    for member in memberships {
        push_once(member.gid, &mut gids, &mut seen)?;
    }
    Ok(gids)
}

/// Appends an id unless it is in `seen`, the set of those that were appended.
fn push_once(id: Gid, ids: &mut Vec<Gid>, seen: &mut HashSet<u32>) -> Result<(), AllocError>
    requires { HaveBeenSeen ids.old.items seen.old }
    ensures pushed { OnOk result (ids.new.items ≡ with_once ids.old.items id) }
    ensures seen { OnOk result (HaveBeenSeen ids.new.items seen.new) }
{
    if seen.insert(id.value())? {
        ids.push(id)?;
    }
    Ok(())
}
