//! Comparing POSIX lists for everyone, in the requests of more than one permission.
ghost use Rattle.std.specs.Prelude.{MatchOption, map};
ghost use Rattle.std.specs.List.{AllByRecursion};
ghost use Rattle.acl_posix.specs.Perms.{bits_of};
ghost use Rattle.acl_bridge.specs.Comparison.{GrantAlikeToAll, IsFirstDifference};
ghost use Rattle.acl_bridge.specs.Comparison.{IsWholeDifference, grants_at};
ghost use Rattle.acl_bridge.specs.Comparison.{whole_requests};

use crate::bits::{mask_for, whole_requests};
use crate::requests::request_difference;
use acl_nfs4::{Difference, Mask, Owners};
use acl_posix::{Acl, Perms};
use bitflags::Flags;

/// A requester to whom only one of the lists grants the request.
fn difference_in(
    first: &Acl,
    owners: &Owners,
    second: &Acl,
    other_owners: &Owners,
    request: Perms,
) -> Option<Difference>
    ensures { MatchOption result
        (GrantAlikeToAll (grants_at first.now owners.now) (grants_at second.now other_owners.now)
        (bits_of request))
        (IsWholeDifference (grants_at first.now owners.now) (grants_at second.now other_owners.now)
        (bits_of request)) }
{
    let unlike = request_difference(first, owners, second, other_owners, request)?;
    let reported = mask_for(request);
    Some(if unlike.before {
        Difference {
            asker: unlike.asker,
            lost: reported,
            gained: Mask::empty(),
        }
    } else {
        Difference {
            asker: unlike.asker,
            lost: Mask::empty(),
            gained: reported,
        }
    })
}

/// A requester to whom only one of the lists grants the first request in which they differ.
fn first_difference(
    first: &Acl,
    owners: &Owners,
    second: &Acl,
    other_owners: &Owners,
    requests: &[Perms],
) -> Option<Difference>
    ensures { MatchOption result
        (AllByRecursion (GrantAlikeToAll (grants_at first.now owners.now)
        (grants_at second.now other_owners.now)) (map bits_of requests.now))
        (IsFirstDifference (grants_at first.now owners.now) (grants_at second.now other_owners.now)
        (map bits_of requests.now)) }
{
    for request in requests {
        if let Some(difference) = difference_in(first, owners, second, other_owners, *request) {
            return Some(difference);
        }
    }
    None
}

/// Compares two POSIX lists, each for a file of its own owners, in the requests of more than one
/// permission. `None` exactly if both grant each as a whole to the same requesters, of whatever uid
/// and groups; else a requester in at most two groups who loses or gains the first that differs, in
/// the order rw, rx, wx, rwx. Lists that grant the same single permissions may differ in these,
/// since one entry has to grant the whole of a request. Each permission is reported as one bit:
/// READ_DATA, WRITE_DATA and EXECUTE. It takes no memory.
pub fn whole_request_difference(
    first: &Acl,
    owners: &Owners,
    second: &Acl,
    other_owners: &Owners,
) -> Option<Difference>
    ensures { MatchOption result
        (AllByRecursion (GrantAlikeToAll (grants_at first.now owners.now)
        (grants_at second.now other_owners.now)) whole_requests)
        (IsFirstDifference (grants_at first.now owners.now) (grants_at second.now other_owners.now)
        whole_requests) }
{
    let requests = whole_requests();
    first_difference(first, owners, second, other_owners, &requests)
}
