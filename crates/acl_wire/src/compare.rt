//! Comparing lists for everybody.

ghost use Rattle.std.specs.Prelude.{◌≡◌, ◌≢◌, ◌≤◌, IfErr, List, None, Ok, length, option_to_list};
ghost use Rattle.acl_names.specs.Asker.{identity_of};
ghost use Rattle.acl_nfs4.specs.Ace.{Nfsace4};
ghost use Rattle.acl_wire.specs.Compare.{DiffersFrom, UnlikeFor, aces_compared, compared_of};
ghost use Rattle.acl_wire.specs.Compare.{gids_of, identity_in, most_compared};
ghost use Rattle.acl_wire.specs.Compare.{AreUnlike, Differ, lists_compared, owners_in};
ghost use Rattle.acl_wire.specs.CompareSteps.{AllowsAt};
ghost use Rattle.acl_wire.specs.Decision.{values_of};
ghost use Rattle.acl_posix.specs.Perms.{bits_of};
ghost use Rattle.acl_wire.specs.Posix.{IsShort};
ghost use Rattle.acl_wire.specs.XdrRaws.{fault_in};

use crate::decision::found_in;
use crate::numbers::without_bits;
use crate::raw_ace::{is_request, value_of};
use crate::values::raws_fault;
use crate::{Nfs4Fault, PosixError, PosixFault, RawAce, acl_of_xattr};
use acl_bridge::request_difference;
use acl_names::{Asker, Gid, Uid};
use acl_nfs4::{AboutWho, Compared, Owners, Who, difference_with, stranger};
use acl_posix::{Acl, Perms};
use bitflags::Flags;
use std::alloc::Global;

/// The number that is no gid.
const NO_GID: u32 = 0xffff_ffff;

/// How many entries an NFSv4 list may have to be compared. Each names one user at most, and a user
/// whom none names must be left.
const MOST_COMPARED: usize = 2_000_000_000;

/// A requester for whom lists differ: a user, in up to two groups.
#[repr(C)]
#[derive(Clone, Copy, Debug, PartialEq, Eq)]
pub struct RawAsker {
    /// The user.
    pub uid: u32,
    /// A group, or 0xffffffff for none.
    pub gid: u32,
    /// Another, or 0xffffffff.
    pub other_gid: u32,
}

/// A requester to whom only one of two lists grants a request.
#[derive(Clone, Copy, Debug, PartialEq, Eq)]
pub struct RawUnlike {
    /// The requester.
    pub asker: RawAsker,
    /// Whether the first list grants it.
    pub before: bool,
}

/// A requester for whom two lists differ, and what only the first and only the second allows.
#[repr(C)]
#[derive(Clone, Copy, Debug, PartialEq, Eq)]
pub struct RawDifference {
    /// The requester.
    pub asker: RawAsker,
    /// What only the first list allows.
    pub lost: u32,
    /// What only the second list allows.
    pub gained: u32,
}

fn raw_gid(gid: Option<Gid>) -> u32
    ensures { gids_of result ≡ option_to_list gid }
{
    match gid {
        Some(gid) => gid.value(),
        None => NO_GID,
    }
}

fn raw_asker(asker: &Asker) -> RawAsker
    ensures { identity_in result ≡ identity_of asker.now }
{
    RawAsker {
        uid: asker.uid.value(),
        gid: raw_gid(asker.gid),
        other_gid: raw_gid(asker.other_gid),
    }
}

/// The owner and the group of a file.
fn owners_of(owner: u32, group: u32) -> Option<Owners>
    ensures { result ≡ owners_in owner group }
{
    match (Uid::new(owner), Gid::new(group)) {
        (Some(owner), Some(group)) => Some(Owners { owner, group }),
        _ => None,
    }
}

/// Somebody to whom one of the lists alone grants the request.
fn unlike(
    first: &Acl,
    owners: &Owners,
    second: &Acl,
    others: &Owners,
    request: Perms,
) -> Option<RawUnlike>
    ensures { AreUnlike first.now owners.now second.now others.now (bits_of request) result }
{
    match request_difference(first, owners, second, others, request) {
        Some(unlike) => Some(RawUnlike {
            asker: raw_asker(&unlike.asker),
            before: unlike.before,
        }),
        None => None,
    }
}

/// Two NFSv4 lists, each for a file of its own owners, as they are compared in these bits.
#[derive(Clone, Copy)]
struct Lists<'a> {
    first: &'a [RawAce],
    owners: &'a Owners,
    second: &'a [RawAce],
    others: &'a Owners,
    bits: u32,
}

impl AboutWho for RawAce {
    ghost use Rattle.acl_wire.specs.CompareSteps.{who_in};

    ghost who = { who_in };

    fn who(&self) -> Who {
        match value_of(self) {
            Ok(ace) => ace.who(),
            Err(_) => Who::Everyone,
        }
    }
}

/// The bits of `bits` that the entries grant the requester.
fn allowed_at(raws: &[RawAce], owners: &Owners, asker: &Asker, bits: u32) -> Result<u32, Nfs4Fault>
    ensures { (aces : List Nfsace4) → values_of raws.now ≡ Ok aces
        → AllowsAt aces owners.now (identity_of asker.now) bits result }
{
    let found = found_in(raws, owners.owner, owners.group, asker, bits)?;
    Ok(found.allowed)
}

impl<'a> Compared for Lists<'a> {
    ghost use Rattle.acl_wire.specs.CompareSteps.{AreAlike, AreUnlikeBy};

    type Difference = RawDifference;

    ghost Alike = { λ lists. AreAlike lists.first.now lists.owners.now lists.second.now
        lists.others.now lists.bits };

    ghost Differs = { λ lists. AreUnlikeBy lists.first.now lists.owners.now lists.second.now
        lists.others.now lists.bits };

    fn difference(&self, asker: &Asker) -> Option<RawDifference> {
        let Ok(before) = allowed_at(self.first, self.owners, asker, self.bits) else {
            return None;
        };
        let Ok(after) = allowed_at(self.second, self.others, asker, self.bits) else {
            return None;
        };
        if before == after {
            return None;
        }
        Some(RawDifference {
            asker: raw_asker(asker),
            lost: without_bits(before, after),
            gained: without_bits(after, before),
        })
    }
}

/// Somebody for whom the lists decide some of the bits differently.
fn difference(
    first: &[RawAce],
    owners: &Owners,
    second: &[RawAce],
    others: &Owners,
    bits: u32,
) -> Option<RawDifference>
    requires first { length first.now ≤ most_compared }
    requires second { length second.now ≤ most_compared }
    ensures { (aces other_aces : List Nfsace4) → values_of first.now ≡ Ok aces
        → values_of second.now ≡ Ok other_aces
        → Differ aces owners.now other_aces others.now bits result }
{
    let lists = Lists {
        first,
        owners,
        second,
        others,
        bits,
    };
    let stranger = stranger(first, owners.owner, second, others.owner, &[])?;
    difference_with(&lists, first, owners, second, others, stranger)
}

/// Why the entries are not compared.
fn not_compared(raws: &[RawAce]) -> Option<Nfs4Fault>
    ensures fault { result ≡ fault_in (compared_of raws.now) }
    ensures few { result ≡ None → length raws.now ≤ most_compared }
{
    if raws.len() > MOST_COMPARED {
        return Some(Nfs4Fault::TooMany);
    }
    raws_fault(raws)
}

/// Compares two POSIX lists in the whole request, each for a file of its own owner and group.
/// `None` exactly if both grant it to the same requesters, of whatever uid and groups; else a
/// requester who loses or gains it. Fails with `Argument` if an id is out of range or the request
/// is above 7, before all other faults; then with the faults of the first list, and then with those
/// of the second. Memory runs out only if one of them has more than `INLINE_ENTRIES` entries.
#[tactic(auto, unfolding(crate::specs::Compare::lists_compared))]
pub fn xattr_difference(
    alloc: Global,
    first: &[u8],
    owner: u32,
    group: u32,
    second: &[u8],
    other_owner: u32,
    other_group: u32,
    request: u32,
) -> Result<Option<RawUnlike>, PosixError>
    ensures value { UnlikeFor first.now owner group second.now other_owner other_group request
        result }
    ensures short { IsShort first.now → IsShort second.now
        → IfErr result (λ error. error ≢ PosixError.Memory) }
{
    let owners = owners_of(owner, group).ok_or(PosixFault::Argument)?;
    let others = owners_of(other_owner, other_group).ok_or(PosixFault::Argument)?;
    if request >= 8 {
        return Err(PosixError::Fault(PosixFault::Argument));
    }
    let first = acl_of_xattr(alloc, first)?;
    let second = acl_of_xattr(alloc, second)?;
    let request = Perms::from_bits_retain(request as u8);
    Ok(unlike(&first, &owners, &second, &others, request))
}

/// Compares two NFSv4 lists in these bits, each for a file of its own owner and group. `None`
/// exactly if both grant each bit to the same requesters, of whatever uid and groups; else a
/// requester who loses or gains some. Fails with `Argument` if an id is out of range or the bits
/// have one of retention, before all other faults; then with the faults of the first list, and then
/// with those of the second; and with `TooMany` if one of them has more than 2,000,000,000 entries.
///
/// It evaluates both lists for a requester for each pair of their entries, in the caller's memory,
/// and takes none: for twice as many entries of both it takes eight times as long.
#[tactic(auto, unfolding(crate::specs::Compare::aces_compared))]
pub fn raws_difference(
    first: &[RawAce],
    owner: u32,
    group: u32,
    second: &[RawAce],
    other_owner: u32,
    other_group: u32,
    bits: u32,
) -> Result<Option<RawDifference>, Nfs4Fault>
    ensures { DiffersFrom first.now owner group second.now other_owner other_group bits result }
{
    let owners = owners_of(owner, group).ok_or(Nfs4Fault::Argument)?;
    let others = owners_of(other_owner, other_group).ok_or(Nfs4Fault::Argument)?;
    if !is_request(bits) {
        return Err(Nfs4Fault::Argument);
    }
    if let Some(fault) = not_compared(first) {
        return Err(fault);
    }
    if let Some(fault) = not_compared(second) {
        return Err(fault);
    }
    Ok(difference(first, &owners, second, &others, bits))
}
