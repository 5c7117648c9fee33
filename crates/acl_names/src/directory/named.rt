//! Lists of members with a name and an id, which are found by binary search.

ghost use Rattle.std.specs.Prelude.{◌≡◌, ◌==◌, ℕ, false, not, nat_eq, List, find, length};
ghost use Rattle.std.specs.Prelude.{option_map, IfOk, IsOk, IsTrue};
ghost use Rattle.std.specs.List.{list_any};
ghost use Rattle.std.specs.List.Sorted.{IsPermutation};
ghost use Rattle.std.specs.Cmp.Lexicographic.{slice_cmp};
ghost use Rattle.std.specs.Option.{option_copied};
ghost use Rattle.std.specs.Ordering.{nat_cmp};
ghost use Rattle.std.specs.Str.{bytes_eq};
ghost use Rattle.acl_names.specs.Ascending.{repeats, IsAscending};
ghost use Rattle.acl_names.specs.Ids.{has_name_shape};
ghost use Rattle.acl_names.specs.Named.{ids_with_places, IsIndexOf};

use super::names::is_name;
use std::alloc::{AllocError, Global};

/// A member with a name and an id: a user or a group.
pub(crate) trait Named {
    ghost name_of: { Self → List ℕ };

    ghost id_of: { Self → ℕ };

    fn name(&self) -> &str
        ensures { result.now ≡ name_of self.now };

    fn id(&self) -> u32
        ensures { result ≡ id_of self.now };
}

/// Whether names and ids each distinguish the members of a list.
#[derive(Clone, Copy)]
pub(crate) struct Keys {
    /// No two members have the same name.
    pub names: bool,
    /// No two members have the same id.
    pub ids: bool,
}

/// Sorts the members by name, and reports whether names and ids distinguish them. It takes no
/// memory.
pub(crate) fn sort<T: Named>(members: &mut Vec<T>) -> Keys
    ensures permutation { IsPermutation members.old.items members.new.items }
    ensures names { result.names ≡ not (repeats bytes_eq T.name_of members.new.items) }
    ensures ids { result.ids ≡ not (repeats nat_eq T.id_of members.new.items) }
    ensures ascending { IsTrue result.names → IsAscending (slice_cmp nat_cmp) T.name_of
        members.new.items }
{
    let ids = sort_by_id(members);
    let names = sort_by_name(members);
    Keys { names, ids }
}

/// Sorts the members by name, and returns whether no two have the same name. It takes no memory.
fn sort_by_name<T: Named>(members: &mut Vec<T>) -> bool
    ensures permutation { IsPermutation members.old.items members.new.items }
    ensures distinct { result ≡ not (repeats bytes_eq T.name_of members.old.items) }
    ensures ascending { IsTrue result → IsAscending (slice_cmp nat_cmp) T.name_of members.new.items }
{
    members.sort_unstable_by(|one, other| one.name().cmp(other.name()));
    members
        .as_slice()
        .is_sorted_by(|one, later| one.name() < later.name())
}

/// Sorts the members by id, and returns whether no two have the same id. It takes no memory.
fn sort_by_id<T: Named>(members: &mut Vec<T>) -> bool
    ensures permutation { IsPermutation members.old.items members.new.items }
    ensures distinct { result ≡ not (repeats nat_eq T.id_of members.old.items) }
{
    members.sort_unstable_by_key(|member| member.id());
    members
        .as_slice()
        .is_sorted_by(|one, later| one.id() < later.id())
}

/// An index by id: the id and place of each member, sorted by id. Fails only if memory runs out.
pub(crate) fn index_by_id<T: Named>(
    alloc: Global,
    members: &[T],
) -> Result<Vec<(u32, usize)>, AllocError>
    requires { repeats nat_eq T.id_of members.now ≡ false }
    ensures index { IfOk result (λ index. IsIndexOf T.id_of members.now index.items) }
    ensures empty { length members.now ≡ 0 → IsOk result }
{
    let mut index = ids_with_places(alloc, members)?;
    index.sort_unstable_by_key(|entry| entry.0);
    Ok(index)
}

fn ids_with_places<T: Named>(alloc: Global, members: &[T]) -> Result<Vec<(u32, usize)>, AllocError>
    ensures entries { IfOk result (λ entries. entries.items ≡ ids_with_places T.id_of members.now) }
    ensures empty { length members.now ≡ 0 → IsOk result }
{
    // All memory is requested at once: after a refusal `collect` would try again with less.
    let mut entries = Vec::with_capacity(alloc, members.len())?;
    for member in members {
        entries.push((member.id(), entries.len()))?;
    }
    Ok(entries)
}

/// The member with this name. `members` must be sorted by name.
pub(crate) fn find_by_name<'a, T: Named>(members: &'a [T], name: &str) -> Option<&'a T>
    requires { IsAscending (slice_cmp nat_cmp) T.name_of members.now }
    ensures { option_copied result ≡ find (λ member. bytes_eq (T.name_of member) name.now)
        members.now }
{
    find_by_bytes(members, name.as_bytes())
}

/// The member with this name, which may not be UTF-8. `members` must be sorted by name.
pub(crate) fn find_by_bytes<'a, T: Named>(members: &'a [T], name: &[u8]) -> Option<&'a T>
    requires { IsAscending (slice_cmp nat_cmp) T.name_of members.now }
    ensures { option_copied result ≡ find (λ member. bytes_eq (T.name_of member) name.now)
        members.now }
{
    match members.binary_search_by(|member| member.name().as_bytes().cmp(name)) {
        Ok(place) => Some(&members[place]),
        Err(_) => None,
    }
}

/// The member with this id, by an index of the members.
pub(crate) fn find_by_id<'a, T: Named>(
    members: &'a [T],
    index: &[(u32, usize)],
    id: u32,
) -> Option<&'a T>
    requires { IsIndexOf T.id_of members.now index.now }
    ensures { option_copied result ≡ find (λ member. T.id_of member == id) members.now }
{
    match place_in(index, id) {
        Some(place) => Some(&members[place]),
        None => None,
    }
}

/// The place that an index has for this id; `None` if no member has the id.
pub(crate) fn place_in(index: &[(u32, usize)], id: u32) -> Option<usize>
    requires { IsAscending nat_cmp (λ entry. entry.0) index.now }
    ensures { result ≡ option_map (λ entry. entry.1) (find (λ entry. entry.0 == id) index.now) }
{
    match index.binary_search_by_key(&id, |entry| entry.0) {
        Ok(at) => Some(index[at].1),
        Err(_) => None,
    }
}

/// Whether any member's name is malformed.
pub(crate) fn some_name_is_bad<T: Named>(members: &[T]) -> bool
    ensures { result ≡ list_any (λ member. not (has_name_shape (T.name_of member))) members.now }
{
    members
        .iter()
        .any(|member| !is_name(member.name().as_bytes()))
}
