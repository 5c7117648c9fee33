//! Lists of members with a name: sorted, without repeats, and searched.

ghost use Rattle.std.specs.Prelude.{◌≡◌, ◌-◌, ℕ, List, filter, length, false, OnOk, IfOk};
ghost use Rattle.std.specs.Cmp.Lexicographic.{slice_cmp};
ghost use Rattle.std.specs.List.{position, slice_get};
ghost use Rattle.std.specs.List.Sorted.{IsSortedByKey};
ghost use Rattle.std.specs.Option.{option_map_or};
ghost use Rattle.std.specs.Ordering.{nat_cmp};
ghost use Rattle.std.specs.Str.{bytes_eq};
ghost use Rattle.acl_names.specs.Ascending.{IsAscending};
ghost use Rattle.acl_accounts.specs.Firsts.{AreFirsts};

use crate::account::Account;
use crate::group::AccountGroup;
use crate::memberships::Membership;
use crate::rows::{GroupRow, UserRow};
use std::alloc::{AllocError, Global};

/// A member with a name.
pub(crate) trait Named {
    ghost name_of: { Self → List ℕ };

    fn key(&self) -> &[u8]
        ensures { result.now ≡ name_of self.now };
}

impl Named for Account {
    ghost name_of = { λ user. user.name };

    fn key(&self) -> &[u8] {
        self.name()
    }
}

impl Named for AccountGroup {
    ghost name_of = { λ group. group.name };

    fn key(&self) -> &[u8] {
        self.name()
    }
}

impl<'t> Named for UserRow<'t> {
    ghost name_of = { λ row. row.name.now };

    fn key(&self) -> &[u8] {
        self.name
    }
}

impl<'t> Named for GroupRow<'t> {
    ghost name_of = { λ row. row.name.now };

    fn key(&self) -> &[u8] {
        self.name
    }
}

impl<'t> Named for Membership<'t> {
    ghost name_of = { λ membership. membership.name.now };

    fn key(&self) -> &[u8] {
        self.name
    }
}

/// The place of the member with this name. `members` must be sorted by name.
pub(crate) fn place_by_name<T: Named>(members: &[T], name: &[u8]) -> Option<usize>
    requires { IsAscending (slice_cmp nat_cmp) T.name_of members.now }
    ensures { result ≡ position (λ member. bytes_eq (T.name_of member) name.now) members.now }
{
    match members.binary_search_by(|member| member.key().cmp(name)) {
        Ok(place) => Some(place),
        Err(_) => None,
    }
}

/// Sorts the members by name; those with the same name keep their order.
pub(crate) fn sort_by_name<T: Named>(members: &mut Vec<T>) -> Result<(), AllocError>
    ensures sorted { OnOk result (IsSortedByKey T.name_of (slice_cmp nat_cmp) members.new.items) }
    ensures kept { (name : List ℕ) → filter (λ member. bytes_eq (T.name_of member) name)
        members.new.items ≡ filter (λ member. bytes_eq (T.name_of member) name) members.old.items }
{
    members.sort_by(|one, other| one.key().cmp(other.key()))
}

/// The first member of each name, sorted by name.
pub(crate) fn firsts_by_name<T: Named + Copy + Drop>(
    alloc: Global,
    members: &[T],
) -> Result<Vec<T>, AllocError>
    ensures { IfOk result (λ firsts. AreFirsts T.name_of members.now firsts.items) }
{
    let mut sorted = Vec::from_slice(alloc, members)?;
    sort_by_name(&mut sorted)?;
    first_of_each(alloc, &sorted)
}

/// The first member of each name. `members` must be sorted by name.
fn first_of_each<T: Named + Copy + Drop>(alloc: Global, members: &[T]) -> Result<Vec<T>, AllocError>
    requires { IsSortedByKey T.name_of (slice_cmp nat_cmp) members.now }
    ensures { IfOk result (λ firsts. AreFirsts T.name_of members.now firsts.items) }
{
    let mut firsts = Vec::new(alloc);
    for member in members {
        if ends_with_name(&firsts, member.key()) {
            continue;
        }
        firsts.push(*member)?;
    }
    Ok(firsts)
}

/// Whether the last member has this name.
fn ends_with_name<T: Named>(members: &[T], name: &[u8]) -> bool
    ensures { result ≡ option_map_or (λ member. bytes_eq (T.name_of member) name.now)
        (slice_get members.now (length members.now - 1)) false }
{
    match members.last() {
        Some(member) => member.key() == name,
        None => false,
    }
}
