//! Users.

ghost use Rattle.std.specs.Prelude.{◌≡◌, [], length, count_by, find, is_none, option_map};
ghost use Rattle.std.specs.Prelude.{string_bytes, IfOk};
ghost use Rattle.std.specs.Cmp.Lexicographic.{slice_cmp};
ghost use Rattle.std.specs.List.{filter_map, list_any};
ghost use Rattle.std.specs.Ordering.{nat_cmp};
ghost use Rattle.std.specs.Str.{bytes_eq};
ghost use Rattle.acl_names.specs.Ascending.{repeats, IsAscending};
ghost use Rattle.acl_names.specs.Directory.{as_requester};

use super::gid::Gid;
use super::group::{Group, gid_named};
use super::named::{Named, find_by_name};
use super::requester::Requester;
use super::uid::Uid;
use std::alloc::{AllocError, Global};
use std::marker::Model;

/// A user: a name, a uid, and the names of the groups that the user is in, the first group first.
#[derive(Debug, Drop)]
pub struct User {
    /// The name by which texts name the user. No two users of a directory share one.
    pub name: String,
    /// The user's id. No two users of a directory share one.
    pub uid: Uid,
    /// The names of the user's groups, the first group first.
    pub groups: Vec<String>,
}

impl Model for User {
    ghost use Rattle.std.specs.Prelude.{map, string_bytes};
    ghost use Rattle.acl_names.specs.Directory.{KnownUser};

    ghost Value = { KnownUser };

    ghost view = { λ user. record {
      name = string_bytes user.name;
      uid = user.uid;
      groups = map string_bytes user.groups.items;
    } };
}

impl Named for User {
    ghost name_of = { λ user. user.name };

    ghost id_of = { λ user. user.uid };

    fn name(&self) -> &str {
        self.name.as_str()
    }

    fn id(&self) -> u32 {
        self.uid.value()
    }
}

impl User {
    /// How many groups the user is in.
    pub(crate) fn group_count(&self) -> usize
        ensures { result ≡ length self.now.groups }
    {
        self.groups.len()
    }

    /// Whether the user's groups have one twice. It compares each pair: a user is in at most 32
    /// groups.
    pub(crate) fn repeats_group(&self) -> bool
        ensures { result ≡ repeats bytes_eq (λ name. name) self.now.groups }
    {
        repeats_text(&self.groups)
    }

    /// Whether the user is in a group that isn't listed. `groups` must be sorted by name.
    pub(crate) fn is_in_unknown_group(&self, groups: &[Group]) -> bool
        requires { IsAscending (slice_cmp nat_cmp) (λ group. group.name) groups.now }
        ensures { result ≡ list_any (λ name. is_none
            (find (λ group. bytes_eq group.name name) groups.now)) self.now.groups }
    {
        lacks_group(groups, &self.groups)
    }

    /// The user as a requester, with the gids that `groups` has for the user's groups. `groups`
    /// must be sorted by name.
    pub(crate) fn requester(&self, alloc: Global, groups: &[Group]) -> Result<Requester, AllocError>
        requires { IsAscending (slice_cmp nat_cmp) (λ group. group.name) groups.now }
        ensures { IfOk result (λ requester. requester
            ≡ as_requester (record { domain = []; users = []; groups = groups.now }) self.now) }
    {
        let gids = gids_of(alloc, groups, &self.groups)?;
        Ok(Requester::new(self.uid, gids))
    }
}

/// The gids of the groups with these names.
fn gids_of(alloc: Global, groups: &[Group], names: &[String]) -> Result<Vec<Gid>, AllocError>
    requires { IsAscending (slice_cmp nat_cmp) (λ group. group.name) groups.now }
    ensures { IfOk result (λ gids. gids.items ≡ filter_map
        (λ name. option_map (λ group. group.gid)
        (find (λ group. bytes_eq group.name (string_bytes name)) groups.now)) names.now) }
{
    let mut gids = Vec::with_capacity(alloc, names.len())?;
    for name in names {
        if let Some(gid) = gid_named(groups, name.as_str()) {
            gids.push(gid)?;
        }
    }
    Ok(gids)
}

fn repeats_text(texts: &[String]) -> bool
    ensures { result ≡ repeats bytes_eq string_bytes texts.now }
{
    texts.iter().any(|text| count_of(texts, text.as_str()) > 1)
}

fn count_of(texts: &[String], text: &str) -> usize
    ensures { result ≡ count_by (λ other. bytes_eq (string_bytes other) text.now) texts.now }
{
    texts.iter().filter(|other| other.as_str() == text).count()
}

fn lacks_group(groups: &[Group], names: &[String]) -> bool
    requires { IsAscending (slice_cmp nat_cmp) (λ group. group.name) groups.now }
    ensures { result
        ≡ list_any (λ name. is_none (find (λ group. bytes_eq group.name (string_bytes name))
        groups.now)) names.now }
{
    names
        .iter()
        .any(|name| find_by_name(groups, name.as_str()).is_none())
}
