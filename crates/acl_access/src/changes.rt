//! What somebody loses or gains between two lists.
ghost use Rattle.std.specs.Prelude.{◌≡◌, MatchOption, map};
ghost use Rattle.acl_nfs4.specs.Mask.{mask_bits};
ghost use Rattle.acl_posix.specs.Perms.{bits_of};
ghost use Rattle.acl_bridge.specs.Files.{decider_of, may, view_acl};
ghost use Rattle.acl_bridge.specs.Lists.{bits_between, requests_between};
ghost use Rattle.acl_access.specs.Changes.{BitsAlikeTo, IsChangeFor, ChangesBits, ChangesFirst};
ghost use Rattle.acl_access.specs.Changes.{ChangesRequest, IsAlikeTo, RequestsAlikeTo};
ghost use Rattle.acl_access.specs.ListSteps.{grants_after, grants_before};

use crate::allowed::allowed;
use acl_bridge::bits::{mask_for, mode_bits, permission_bits, whole_requests};
use acl_bridge::{AnyAclRef, FileAcl};
use acl_names::Subject;
use acl_nfs4::{Mask, Owners};
use acl_posix::{Acl, Perms, without};
use bitflags::Flags;

/// What a requester loses and gains.
#[derive(Clone, Copy, Debug, PartialEq, Eq)]
pub struct Change {
    /// What is granted only before.
    pub lost: Mask,
    /// What is granted only after.
    pub gained: Mask,
}

/// The bits in which the lists are compared.
fn bits_between(before: &FileAcl<'_>, after: &FileAcl<'_>) -> Mask
    ensures { mask_bits result
        ≡ bits_between (view_acl before.now).list (view_acl after.now).list }
{
    match (before.list, after.list) {
        (AnyAclRef::Nfs4(_), AnyAclRef::Nfs4(_)) => Mask::all(),
        (AnyAclRef::Posix(_), AnyAclRef::Posix(_)) => permission_bits(),
        _ => mode_bits(),
    }
}

/// What the requester loses or gains of these bits; `None` if nothing.
fn change_of_bits<S: Subject>(
    before: &FileAcl<'_>,
    after: &FileAcl<'_>,
    subject: &S,
) -> Option<Change>
    ensures { MatchOption result
        (BitsAlikeTo (decider_of (view_acl before.now)) (decider_of (view_acl after.now))
        (bits_between (view_acl before.now).list (view_acl after.now).list)
        (S.identity subject.now))
        (ChangesBits (decider_of (view_acl before.now)) (decider_of (view_acl after.now))
        (bits_between (view_acl before.now).list (view_acl after.now).list)
        (S.identity subject.now)) }
{
    let bits = bits_between(before, after);
    let was = allowed(before, subject, bits);
    let is = allowed(after, subject, bits);
    if was == is {
        return None;
    }
    Some(Change {
        lost: without(was, is),
        gained: without(is, was),
    })
}

/// Two POSIX lists, each for a file of its own owners.
#[derive(Clone, Copy)]
struct Lists<'a> {
    before: &'a Acl,
    owners: &'a Owners,
    after: &'a Acl,
    other_owners: &'a Owners,
}

/// The request, if the requester loses or gains it as a whole.
fn change_in<S: Subject>(lists: &Lists<'_>, subject: &S, request: Perms) -> Option<Change>
    ensures { MatchOption result
        (grants_before lists.now (S.identity subject.now) (bits_of request)
        ≡ grants_after lists.now (S.identity subject.now) (bits_of request))
        (ChangesRequest (grants_before lists.now) (grants_after lists.now) (bits_of request)
        (S.identity subject.now)) }
{
    let owners = lists.owners;
    let others = lists.other_owners;
    let before = lists.before;
    let after = lists.after;
    let was = before.grants(owners.owner, owners.group, subject, request);
    let is = after.grants(others.owner, others.group, subject, request);
    if was == is {
        return None;
    }
    let reported = mask_for(request);
    Some(if was {
        Change {
            lost: reported,
            gained: Mask::empty(),
        }
    } else {
        Change {
            lost: Mask::empty(),
            gained: reported,
        }
    })
}

/// The first of the requests that the requester loses or gains as a whole.
fn first_change<S: Subject>(lists: &Lists<'_>, subject: &S, requests: &[Perms]) -> Option<Change>
    ensures { MatchOption result
        (RequestsAlikeTo (grants_before lists.now) (grants_after lists.now)
        (map bits_of requests.now) (S.identity subject.now))
        (ChangesFirst (grants_before lists.now) (grants_after lists.now)
        (map bits_of requests.now) (S.identity subject.now)) }
{
    for request in requests {
        if let Some(change) = change_in(lists, subject, *request) {
            return Some(change);
        }
    }
    None
}

/// The first request of several permissions that the requester loses or gains, for POSIX lists.
fn change_of_requests<S: Subject>(
    before: &FileAcl<'_>,
    after: &FileAcl<'_>,
    subject: &S,
) -> Option<Change>
    ensures { MatchOption result
        (RequestsAlikeTo (may (view_acl before.now)) (may (view_acl after.now))
        (requests_between (view_acl before.now).list (view_acl after.now).list)
        (S.identity subject.now))
        (ChangesFirst (may (view_acl before.now)) (may (view_acl after.now))
        (requests_between (view_acl before.now).list (view_acl after.now).list)
        (S.identity subject.now)) }
{
    match (before.list, after.list) {
        (AnyAclRef::Posix(first), AnyAclRef::Posix(second)) => {
            let lists = Lists {
                before: first,
                owners: &before.owners,
                after: second,
                other_owners: &after.owners,
            };
            first_change(&lists, subject, &whole_requests())
        }
        _ => None,
    }
}

/// What the requester loses and gains when `before` becomes `after`, each with its own owner, group
/// and list. `None` exactly if each permission is granted as before, and for POSIX lists also each
/// request of several. It takes no memory.
pub fn change_for<S: Subject>(
    before: &FileAcl<'_>,
    after: &FileAcl<'_>,
    subject: &S,
) -> Option<Change>
    ensures { MatchOption result
        (IsAlikeTo (view_acl before.now) (view_acl after.now) (S.identity subject.now))
        (IsChangeFor (view_acl before.now) (view_acl after.now) (S.identity subject.now)) }
{
    match change_of_bits(before, after, subject) {
        Some(change) => Some(change),
        None => change_of_requests(before, after, subject),
    }
}
