//! The requesters who decide whether two lists grant everyone the same: one for each pair of
//! entries.
ghost use Rattle.std.specs.Prelude.{◌≡◌, ◌≤◌, ◌+◌, ◌||◌, IfNone, IfSome, MatchOption, length};
ghost use Rattle.acl_names.specs.Asker.{identity_of};
ghost use Rattle.acl_names.specs.declared.limits.TheConstants.{MAX_ID};
ghost use Rattle.acl_nfs4.specs.Comparison.{AsksPairs, IsStrangerTo, OfEach, OfEachAsker};
ghost use Rattle.acl_nfs4.specs.Comparison.{asker_for, asks_for, has_user, is_known, is_needed};
ghost use Rattle.acl_nfs4.specs.Comparison.{needed_gid, needed_uid, needs_user, tried};
ghost use Rattle.acl_nfs4.specs.declared.limits.TheConstants.{MAX_ACES};

use crate::limits::MAX_ACES;
use crate::{Ace, Owners, Who};
use acl_names::{Asker, Gid, MAX_ID, NOBODY, Requester, Uid};
use acl_posix::{Entry, Tag};

/// An entry of a list of either style.
pub trait AboutWho {
    ghost use Rattle.std.specs.Prelude.{◌≡◌};
    ghost use Rattle.acl_nfs4.specs.declared.who.Who.{Who};

    /// Whom the entry is for.
    ghost who: { Self → Who };

    /// Whom the entry is for.
    fn who(&self) -> Who
        ensures { result ≡ who self.now };
}

impl AboutWho for Ace {
    ghost who = { λ ace. ace.who };

    fn who(&self) -> Who {
        Ace::who(self)
    }
}

impl AboutWho for Entry {
    ghost use Rattle.acl_nfs4.specs.Who.{who_of};

    ghost who = { λ entry. who_of entry.tag };

    fn who(&self) -> Who {
        match self.tag {
            Tag::UserObj => Who::Owner,
            Tag::User(uid) => Who::User(uid),
            Tag::GroupObj => Who::Group,
            Tag::Group(gid) => Who::NamedGroup(gid),
            Tag::Mask => Who::Everyone,
            Tag::Other => Who::Everyone,
        }
    }
}

/// Two lists that are evaluated for one requester after the other.
pub trait Compared {
    ghost use Rattle.std.specs.Prelude.{MatchOption};
    ghost use Rattle.acl_names.specs.Asker.{identity_of};
    ghost use Rattle.acl_names.specs.Requester.{Identity};

    /// A requester whom they grant different bits, and which.
    type Difference;

    /// Both grant this requester the same.
    ghost Alike: { Self → Identity → Type 0 };

    /// They differ in what this difference says.
    ghost Differs: { Self → Self.Difference → Type 0 };

    /// What the lists grant the requester differently; `None` if they don't.
    fn difference(&self, asker: &Asker) -> Option<Self::Difference>
        ensures { MatchOption result (Alike self.now (identity_of asker.now)) (Differs self.now) };
}

/// The owners of the two files, and the stranger: the uid of a requester to whom no entry for a
/// user applies.
#[derive(Clone, Copy)]
struct Askers {
    owners: Owners,
    other_owners: Owners,
    stranger: Uid,
}

impl Who {
    /// The only uid to which an entry for this `who` applies, if there is only one.
    fn needed_uid(&self, owner: Uid) -> Option<Uid>
        ensures { result ≡ needed_uid owner self.now }
    {
        match *self {
            Who::Owner => Some(owner),
            Who::User(uid) => Some(uid),
            Who::Group => None,
            Who::Everyone => None,
            Who::NamedGroup(_) => None,
        }
    }

    /// The group that a requester must be in for an entry for this `who` to apply, if any.
    fn needed_gid(&self, group: Gid) -> Option<Gid>
        ensures { result ≡ needed_gid group self.now }
    {
        match *self {
            Who::Group => Some(group),
            Who::NamedGroup(gid) => Some(gid),
            Who::Owner => None,
            Who::Everyone => None,
            Who::User(_) => None,
        }
    }

    /// Whether an entry for this `who` applies to this user alone.
    fn needs_user(&self, owner: Uid, uid: Uid) -> bool
        ensures { result ≡ needs_user owner uid self.now }
    {
        match *self {
            Who::Owner => owner == uid,
            Who::User(named) => named == uid,
            Who::Group => false,
            Who::Everyone => false,
            Who::NamedGroup(_) => false,
        }
    }
}

/// A requester to whom an entry for `who` applies on a file of the owners, and an entry for `other`
/// on a file of the other owners, if there is one. Its uid is the stranger's if neither requires a
/// uid.
fn asker_for(askers: &Askers, who: &Who, other: &Who) -> Asker
    ensures { identity_of result ≡ asker_for askers.now.owners askers.now.other_owners
        askers.now.stranger who.now other.now }
{
    let uid = match who.needed_uid(askers.owners.owner) {
        Some(uid) => uid,
        None => match other.needed_uid(askers.other_owners.owner) {
            Some(uid) => uid,
            None => askers.stranger,
        },
    };
    Asker {
        uid,
        gid: who.needed_gid(askers.owners.group),
        other_gid: other.needed_gid(askers.other_owners.group),
    }
}

/// Whether one of the entries applies to this user alone.
fn asks_for<E: AboutWho>(entries: &[E], owner: Uid, uid: Uid) -> bool
    ensures { result ≡ asks_for E.who owner uid entries.now }
{
    entries
        .iter()
        .any(|entry| entry.who().needs_user(owner, uid))
}

/// Whether one of the requesters is this user.
fn has_user(known: &[Requester], uid: Uid) -> bool
    ensures { result ≡ has_user known.now uid }
{
    known.iter().any(|one| one.uid() == uid)
}

/// Whether the user is uid 0 or one of these.
pub fn is_known(known: &[Requester], uid: Uid) -> bool
    ensures { result ≡ is_known known.now uid }
{
    uid.value() == 0 || has_user(known, uid)
}

/// The uid that is tried at this place: from that of `nobody` downwards, since low uids are those
/// of people and of root, and then upwards.
fn tried(place: u32) -> u32
    requires { place ≤ MAX_ID }
    ensures value { result ≡ tried place }
    ensures in_range { result ≤ MAX_ID }
{
    if place <= NOBODY {
        NOBODY - place
    } else {
        place
    }
}

/// Whether an entry applies to this user alone, each list for a file of its own owner.
fn is_needed<E: AboutWho>(first: &[E], owner: Uid, second: &[E], other_owner: Uid, uid: Uid) -> bool
    ensures { result ≡ is_needed E.who first.now owner second.now other_owner uid }
{
    asks_for(first, owner, uid) || asks_for(second, other_owner, uid)
}

/// A uid that no entry requires, each list for a file of its own owner, and that is neither 0 nor
/// that of a known requester. Each entry requires one at most, so `None` only if nearly all ids are
/// known.
pub fn stranger<E: AboutWho>(
    first: &[E],
    owner: Uid,
    second: &[E],
    other_owner: Uid,
    known: &[Requester],
) -> Option<Uid>
    ensures some { IfSome result
        (IsStrangerTo E.who first.now owner second.now other_owner known.now) }
    ensures none { IfNone result
        (MAX_ID ≤ length first.now + length second.now + length known.now + 1) }
{
    for place in 0..MAX_ID {
        if let Some(uid) = Uid::new(tried(place)) {
            if !is_needed(first, owner, second, other_owner, uid) && !is_known(known, uid) {
                return Some(uid);
            }
        }
    }
    None
}

/// What the lists grant differently to the requester for these two.
fn difference_at<L: Compared>(
    lists: &L,
    askers: &Askers,
    who: &Who,
    other: &Who,
) -> Option<L::Difference>
    ensures { MatchOption result
        (L.Alike lists.now (asker_for askers.now.owners askers.now.other_owners
        askers.now.stranger who.now other.now))
        (L.Differs lists.now) }
{
    lists.difference(&asker_for(askers, who, other))
}

/// What the lists grant differently to the requester for this `who` and an entry of the second
/// list.
fn difference_for<E: AboutWho, L: Compared>(
    lists: &L,
    second: &[E],
    askers: &Askers,
    who: &Who,
) -> Option<L::Difference>
    ensures { MatchOption result
        (OfEach E.who second.now (λ other. L.Alike lists.now (asker_for askers.now.owners
        askers.now.other_owners askers.now.stranger who.now other)))
        (L.Differs lists.now) }
{
    for entry in second {
        if let Some(difference) = difference_at(lists, askers, who, &entry.who()) {
            return Some(difference);
        }
    }
    difference_at(lists, askers, who, &Who::Everyone)
}

/// What the lists grant differently to the requester for an entry of each.
fn difference_of<E: AboutWho, L: Compared>(
    lists: &L,
    first: &[E],
    second: &[E],
    askers: &Askers,
) -> Option<L::Difference>
    ensures { MatchOption result
        (OfEach E.who first.now (λ who. OfEach E.who second.now (λ other. L.Alike lists.now
        (asker_for askers.now.owners askers.now.other_owners askers.now.stranger who other))))
        (L.Differs lists.now) }
{
    for entry in first {
        if let Some(difference) = difference_for(lists, second, askers, &entry.who()) {
            return Some(difference);
        }
    }
    difference_for(lists, second, askers, &Who::Everyone)
}

/// What two lists grant differently to the requester for a pair of entries, one of each, each list
/// for a file of its own owners. If neither entry requires a uid, the requester's is `stranger`. It
/// takes no memory.
pub fn difference_with<E: AboutWho, L: Compared>(
    lists: &L,
    first: &[E],
    owners: &Owners,
    second: &[E],
    other_owners: &Owners,
    stranger: Uid,
) -> Option<L::Difference>
    ensures { MatchOption result
        (AsksPairs E.who first.now second.now owners.now other_owners.now stranger
        (L.Alike lists.now))
        (L.Differs lists.now) }
{
    let askers = Askers {
        owners: *owners,
        other_owners: *other_owners,
        stranger,
    };
    difference_of(lists, first, second, &askers)
}

/// What two lists grant differently to the requester for a pair of entries, one of each. The lists
/// have at most 128 entries each (`MAX_ACES`), and each is for a file of its own owners. It takes
/// no memory.
pub fn difference_by_pairs<E: AboutWho, L: Compared>(
    lists: &L,
    first: &[E],
    owners: &Owners,
    second: &[E],
    other_owners: &Owners,
) -> Option<L::Difference>
    requires first { length first.now ≤ MAX_ACES }
    requires second { length second.now ≤ MAX_ACES }
    ensures { MatchOption result
        (OfEachAsker E.who first.now second.now owners.now other_owners.now (L.Alike lists.now))
        (L.Differs lists.now) }
{
    let stranger = stranger(first, owners.owner, second, other_owners.owner, &[])?;
    difference_with(lists, first, owners, second, other_owners, stranger)
}
