//! Repeated values in lists of users and groups.
ghost use Rattle.std.specs.Prelude.{◌≡◌, ◌==◌, Bool, bytes_eq, string_bytes};
ghost use Rattle.std.specs.List.{list_any};
ghost use Rattle.acl_setup.specs.PartsKeys.{groups_share_id, groups_share_name, repeated_in};
ghost use Rattle.acl_setup.specs.PartsKeys.{users_share_id, users_share_name};

use acl_names::{Group, User};

/// Compares two values.
pub(crate) trait Likeness {
    type Value;

    ghost same: { Self.Value → Self.Value → Bool };

    fn is_same(value: &Self::Value, other: &Self::Value) -> bool
        ensures { result ≡ same value.now other.now };
}

pub(crate) struct UserNames;

pub(crate) struct UserIds;

pub(crate) struct GroupNames;

pub(crate) struct GroupIds;

pub(crate) struct Texts;

impl Likeness for UserNames {
    type Value = User;

    ghost same = { users_share_name };

    fn is_same(value: &User, other: &User) -> bool {
        value.name.as_str() == other.name.as_str()
    }
}

impl Likeness for UserIds {
    type Value = User;

    ghost same = { users_share_id };

    fn is_same(value: &User, other: &User) -> bool {
        value.uid.value() == other.uid.value()
    }
}

impl Likeness for GroupNames {
    type Value = Group;

    ghost same = { groups_share_name };

    fn is_same(value: &Group, other: &Group) -> bool {
        value.name.as_str() == other.name.as_str()
    }
}

impl Likeness for GroupIds {
    type Value = Group;

    ghost same = { groups_share_id };

    fn is_same(value: &Group, other: &Group) -> bool {
        value.gid.value() == other.gid.value()
    }
}

impl Likeness for Texts {
    type Value = String;

    ghost same = { λ text other. bytes_eq (string_bytes text) (string_bytes other) };

    fn is_same(value: &String, other: &String) -> bool {
        value.as_str() == other.as_str()
    }
}

/// Whether the value is like one of those before it.
fn is_among<L: Likeness>(value: &L::Value, before: &[L::Value]) -> bool
    ensures { result ≡ list_any (L.same value.now) before.now }
{
    for other in before {
        if L::is_same(value, other) {
            return true;
        }
    }
    false
}

/// The index of the first value that is like one before it.
pub(crate) fn repeated_in<L: Likeness>(values: &[L::Value]) -> Option<usize>
    ensures { result ≡ repeated_in L.same values.now }
{
    for index in 0..values.len() {
        if is_among::<L>(&values[index], &values[..index]) {
            return Some(index);
        }
    }
    None
}
