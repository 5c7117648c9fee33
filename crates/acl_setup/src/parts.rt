//! Which key is at fault in users and groups that can't make a directory.
ghost use Rattle.std.specs.Prelude.{◌≡◌, ℕ, List, Option, bytes_eq, map, position, string_bytes};
ghost use Rattle.acl_setup.specs.PartsKeys.{has_name, is_in_too_many, is_misnamed_group};
ghost use Rattle.acl_setup.specs.PartsKeys.{is_misnamed_user, key_of_bad_name, key_of_groups};
ghost use Rattle.acl_setup.specs.PartsKeys.{key_of_parts, key_of_repeated_id, key_of_repeated_name};
ghost use Rattle.acl_setup.specs.PartsKeys.{key_of_too_many, repeated_in, unknown_in};

use crate::key::Key;
use crate::repeats::{GroupIds, GroupNames, Texts, UserIds, UserNames, repeated_in};
use acl_names::{
    Group, MAX_GROUPS, MAX_GROUPS_OF_USER, MAX_USERS, SetupFault, User, is_domain, is_name,
};

/// Finds which of a user's groups is at fault.
trait GroupFinder {
    ghost find: { Self → List (List ℕ) → Option ℕ };

    fn find(&self, groups: &[String]) -> Option<usize>
        ensures { result ≡ find self.now (map string_bytes groups.now) };
}

/// Finds one that the user's groups have twice.
#[derive(Drop)]
struct Repeated;

/// Finds one that isn't among these.
#[derive(Drop)]
struct Unknown<'g> {
    groups: &'g [Group],
}

impl GroupFinder for Repeated {
    ghost find = { λ _. repeated_in bytes_eq };

    fn find(&self, groups: &[String]) -> Option<usize> {
        repeated_in::<Texts>(groups)
    }
}

/// Whether one of the groups has the name.
fn is_known(groups: &[Group], name: &str) -> bool
    ensures { result ≡ has_name groups.now name.now }
{
    for group in groups {
        if group.name.as_str() == name {
            return true;
        }
    }
    false
}

impl<'g> GroupFinder for Unknown<'g> {
    ghost find = { λ finder. unknown_in finder.groups.now };

    fn find(&self, groups: &[String]) -> Option<usize> {
        for index in 0..groups.len() {
            if !is_known(self.groups, groups[index].as_str()) {
                return Some(index);
            }
        }
        None
    }
}

fn key_of_groups<F: GroupFinder>(finder: &F, users: &[User]) -> Option<Key>
    ensures { result ≡ key_of_groups (F.find finder.now) 0 users.now }
{
    for index in 0..users.len() {
        let user = &users[index];
        if let Some(item) = finder.find(user.groups.as_slice()) {
            return Some(Key::UserGroup(index, item));
        }
    }
    None
}

fn is_in_too_many(user: &User) -> bool
    ensures { result ≡ is_in_too_many user.now }
{
    user.groups.len() > MAX_GROUPS_OF_USER
}

fn user_in_too_many(users: &[User]) -> Option<usize>
    ensures { result ≡ position is_in_too_many users.now }
{
    users.iter().position(|user| is_in_too_many(user))
}

/// The list of users or of groups that has too many, or the user who is in too many groups.
fn key_of_too_many(users: &[User], groups: &[Group]) -> Option<Key>
    ensures { result ≡ key_of_too_many users.now groups.now }
{
    if users.len() > MAX_USERS {
        return Some(Key::Users);
    }
    if groups.len() > MAX_GROUPS {
        return Some(Key::Groups);
    }
    let index = user_in_too_many(users)?;
    Some(Key::UserGroups(index))
}

fn is_misnamed_user(user: &User) -> bool
    ensures { result ≡ is_misnamed_user user.now }
{
    !is_name(user.name.as_bytes())
}

fn is_misnamed_group(group: &Group) -> bool
    ensures { result ≡ is_misnamed_group group.now }
{
    !is_name(group.name.as_bytes())
}

fn misnamed_user(users: &[User]) -> Option<usize>
    ensures { result ≡ position is_misnamed_user users.now }
{
    users.iter().position(|user| is_misnamed_user(user))
}

fn misnamed_group(groups: &[Group]) -> Option<usize>
    ensures { result ≡ position is_misnamed_group groups.now }
{
    groups.iter().position(|group| is_misnamed_group(group))
}

/// The domain, or the first user or group, whose name is malformed.
fn key_of_bad_name(domain: &str, users: &[User], groups: &[Group]) -> Option<Key>
    ensures { result ≡ key_of_bad_name domain.now users.now groups.now }
{
    if !is_domain(domain.as_bytes()) {
        return Some(Key::Domain);
    }
    if let Some(index) = misnamed_user(users) {
        return Some(Key::UserName(index));
    }
    let index = misnamed_group(groups)?;
    Some(Key::GroupName(index))
}

/// The first user or group with the name of an earlier one, or with a group twice.
fn key_of_repeated_name(users: &[User], groups: &[Group]) -> Option<Key>
    ensures { result ≡ key_of_repeated_name users.now groups.now }
{
    if let Some(index) = repeated_in::<UserNames>(users) {
        return Some(Key::UserName(index));
    }
    if let Some(index) = repeated_in::<GroupNames>(groups) {
        return Some(Key::GroupName(index));
    }
    key_of_groups(&Repeated, users)
}

/// The first user or group with the id of an earlier one.
fn key_of_repeated_id(users: &[User], groups: &[Group]) -> Option<Key>
    ensures { result ≡ key_of_repeated_id users.now groups.now }
{
    if let Some(index) = repeated_in::<UserIds>(users) {
        return Some(Key::UserUid(index));
    }
    let index = repeated_in::<GroupIds>(groups)?;
    Some(Key::GroupGid(index))
}

/// The key with this fault, for which users and groups can't make a directory.
pub(crate) fn key_of_parts(
    domain: &str,
    users: &[User],
    groups: &[Group],
    fault: SetupFault,
) -> Option<Key>
    ensures { result ≡ key_of_parts domain.now users.now groups.now fault }
{
    match fault {
        SetupFault::TooMany => key_of_too_many(users, groups),
        SetupFault::BadName => key_of_bad_name(domain, users, groups),
        SetupFault::RepeatedName => key_of_repeated_name(users, groups),
        SetupFault::RepeatedId => key_of_repeated_id(users, groups),
        SetupFault::UnknownGroup => key_of_groups(&Unknown { groups }, users),
        SetupFault::Memory => None,
    }
}
