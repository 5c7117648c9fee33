//! Groups.

ghost use Rattle.std.specs.Prelude.{◌≡◌, find, option_map};
ghost use Rattle.std.specs.Cmp.Lexicographic.{slice_cmp};
ghost use Rattle.std.specs.Ordering.{nat_cmp};
ghost use Rattle.std.specs.Str.{bytes_eq};
ghost use Rattle.acl_names.specs.Ascending.{IsAscending};

use super::gid::Gid;
use super::named::{Named, find_by_name};
use std::marker::Model;

/// A group: a name and a gid.
#[derive(Debug, Drop)]
pub struct Group {
    /// The name by which texts name the group. No two groups of a directory share one.
    pub name: String,
    /// The group's id. No two groups of a directory share one.
    pub gid: Gid,
}

impl Model for Group {
    ghost use Rattle.std.specs.Prelude.{string_bytes};
    ghost use Rattle.acl_names.specs.Directory.{KnownGroup};

    ghost Value = { KnownGroup };

    ghost view = { λ group. record { name = string_bytes group.name; gid = group.gid } };
}

impl Named for Group {
    ghost name_of = { λ group. group.name };

    ghost id_of = { λ group. group.gid };

    fn name(&self) -> &str {
        self.name.as_str()
    }

    fn id(&self) -> u32 {
        self.gid.value()
    }
}

/// The gid of the group with this name. `groups` must be sorted by name.
pub(crate) fn gid_named(groups: &[Group], name: &str) -> Option<Gid>
    requires { IsAscending (slice_cmp nat_cmp) (λ group. group.name) groups.now }
    ensures { result ≡ option_map (λ group. group.gid)
        (find (λ group. bytes_eq group.name name.now) groups.now) }
{
    match find_by_name(groups, name) {
        Some(group) => Some(group.gid),
        None => None,
    }
}
