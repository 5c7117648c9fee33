//! What may be wrong with lists of users and groups.

ghost use Rattle.std.specs.Prelude.{◌≡◌, not, nat_eq, nat_lt, [], length, IsTrue};
ghost use Rattle.std.specs.Cmp.Lexicographic.{slice_cmp};
ghost use Rattle.std.specs.List.{list_any};
ghost use Rattle.std.specs.Ordering.{nat_cmp};
ghost use Rattle.std.specs.Str.{bytes_eq};
ghost use Rattle.acl_names.specs.Ascending.{repeats, IsAscending};
ghost use Rattle.acl_names.specs.Directory.{fault_of, has_bad_name, has_unknown_group};
ghost use Rattle.acl_names.specs.Directory.{is_too_many};

use super::named::{Keys, some_name_is_bad};
use super::names::is_domain;
use crate::limits::{MAX_GROUPS, MAX_GROUPS_OF_USER, MAX_USERS};
use crate::{Group, User};

/// Why lists of users and groups can't make a directory.
#[derive(Clone, Copy, Debug, PartialEq, Eq)]
pub enum SetupFault {
    /// A user's or a group's name, or the domain, is malformed.
    BadName,
    /// Two users or two groups have the same name, or a user's groups have one twice.
    RepeatedName,
    /// Two users have the same uid, or two groups the same gid.
    RepeatedId,
    /// A user is in a group that isn't listed.
    UnknownGroup,
    /// There are more than 1024 users or 1024 groups, or a user is in more than 32.
    TooMany,
    /// Memory ran out.
    Memory,
}

/// The first fault of the lists; sorting them has found whether keys are repeated.
pub(super) fn first_fault(
    domain: &str,
    users: &[User],
    groups: &[Group],
    user_keys: Keys,
    group_keys: Keys,
) -> Option<SetupFault>
    requires user_names { user_keys.names ≡ not (repeats bytes_eq (λ user. user.name) users.now) }
    requires group_names { group_keys.names ≡ not (repeats bytes_eq (λ group. group.name)
        groups.now) }
    requires uids { user_keys.ids ≡ not (repeats nat_eq (λ user. user.uid) users.now) }
    requires gids { group_keys.ids ≡ not (repeats nat_eq (λ group. group.gid) groups.now) }
    requires ascends { IsTrue group_keys.names
        → IsAscending (slice_cmp nat_cmp) (λ group. group.name) groups.now }
    ensures { result ≡ fault_of (record {
      domain = domain.now;
      users = users.now;
      groups = groups.now;
    }) }
{
    if are_too_many(users, groups) {
        Some(SetupFault::TooMany)
    } else if is_bad_name(domain, users, groups) {
        Some(SetupFault::BadName)
    } else if !user_keys.names || !group_keys.names || some_group_repeats(users) {
        Some(SetupFault::RepeatedName)
    } else if !user_keys.ids || !group_keys.ids {
        Some(SetupFault::RepeatedId)
    } else if some_group_is_unknown(users, groups) {
        Some(SetupFault::UnknownGroup)
    } else {
        None
    }
}

fn are_too_many(users: &[User], groups: &[Group]) -> bool
    ensures { result ≡ is_too_many (record { domain = []; users = users.now; groups = groups.now }) }
{
    users.len() > MAX_USERS || groups.len() > MAX_GROUPS || is_in_too_many(users)
}

fn is_in_too_many(users: &[User]) -> bool
    ensures { result ≡ list_any (λ user. nat_lt MAX_GROUPS_OF_USER (length user.groups)) users.now }
{
    users
        .iter()
        .any(|user| user.group_count() > MAX_GROUPS_OF_USER)
}

fn is_bad_name(domain: &str, users: &[User], groups: &[Group]) -> bool
    ensures { result ≡ has_bad_name (record {
      domain = domain.now;
      users = users.now;
      groups = groups.now;
    }) }
{
    !is_domain(domain.as_bytes()) || some_name_is_bad(users) || some_name_is_bad(groups)
}

fn some_group_repeats(users: &[User]) -> bool
    ensures { result ≡ list_any (λ user. repeats bytes_eq (λ name. name) user.groups) users.now }
{
    users.iter().any(|user| user.repeats_group())
}

fn some_group_is_unknown(users: &[User], groups: &[Group]) -> bool
    requires { IsAscending (slice_cmp nat_cmp) (λ group. group.name) groups.now }
    ensures { result ≡ has_unknown_group (record {
      domain = [];
      users = users.now;
      groups = groups.now;
    }) }
{
    users.iter().any(|user| user.is_in_unknown_group(groups))
}
