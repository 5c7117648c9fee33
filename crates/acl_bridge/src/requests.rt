//! Comparing POSIX lists for everyone, by whole requests.
ghost use Rattle.std.specs.Prelude.{◌≡◌, ◌↔◌, None, IfSome};
ghost use Rattle.acl_posix.specs.Perms.{bits_of};
ghost use Rattle.acl_bridge.specs.Comparison.{GrantAlikeToAll, IsUnlike, grants_at};

use acl_names::Asker;
use acl_nfs4::{Compared, Owners, difference_by_pairs};
use acl_posix::{Acl, Perms};

/// A requester to whom one of two lists grants a request and the other doesn't.
#[derive(Clone, Copy, Debug, PartialEq, Eq)]
pub struct Unlike {
    /// The requester.
    pub asker: Asker,
    /// Whether it is the first list that grants it.
    pub before: bool,
}

/// Two lists to compare in this request, each for a file of its own owners.
#[derive(Drop)]
struct Lists<'a> {
    first: &'a Acl,
    owners: &'a Owners,
    second: &'a Acl,
    other_owners: &'a Owners,
    request: Perms,
}

impl<'a> Compared for Lists<'a> {
    ghost use Rattle.acl_posix.specs.Perms.{bits_of};
    ghost use Rattle.acl_bridge.specs.Comparison.{GrantAlike, IsUnlike, grants_at};

    type Difference = Unlike;

    ghost Alike = { λ lists. GrantAlike (grants_at lists.first.now lists.owners.now)
        (grants_at lists.second.now lists.other_owners.now) (bits_of lists.request) };

    ghost Differs = { λ lists. IsUnlike (grants_at lists.first.now lists.owners.now)
        (grants_at lists.second.now lists.other_owners.now) (bits_of lists.request) };

    fn difference(&self, asker: &Asker) -> Option<Unlike> {
        let owners = self.owners;
        let others = self.other_owners;
        let first = self.first;
        let second = self.second;
        let before = first.grants(owners.owner, owners.group, asker, self.request);
        let after = second.grants(others.owner, others.group, asker, self.request);
        if before == after {
            return None;
        }
        Some(Unlike {
            asker: *asker,
            before,
        })
    }
}

/// Compares two POSIX lists in a whole request, each for a file of its own owners. `None` exactly
/// if both grant it to the same requesters, of whatever uid and groups; else a requester in at most
/// two groups. It tries a requester for each pair of entries, at most 65 times 65, and takes no
/// memory.
pub fn request_difference(
    first: &Acl,
    owners: &Owners,
    second: &Acl,
    other_owners: &Owners,
    request: Perms,
) -> Option<Unlike>
    ensures none { (result ≡ None)
        ↔ GrantAlikeToAll (grants_at first.now owners.now) (grants_at second.now other_owners.now)
        (bits_of request) }
    ensures some { IfSome result
        (IsUnlike (grants_at first.now owners.now) (grants_at second.now other_owners.now)
        (bits_of request)) }
{
    let lists = Lists {
        first,
        owners,
        second,
        other_owners,
        request,
    };
    difference_by_pairs(
        &lists,
        first.entries(),
        owners,
        second.entries(),
        other_owners,
    )
}
