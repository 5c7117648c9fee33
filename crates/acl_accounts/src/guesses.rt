//! Guesses at which place the member with a name is, from a hash of the name. A wrong guess only
//! costs a search, so nothing is proved about hashes.

ghost use Rattle.std.specs.Prelude.{◌≡◌, Some, find, IfSome};
ghost use Rattle.std.specs.Cmp.Lexicographic.{slice_cmp};
ghost use Rattle.std.specs.List.{position};
ghost use Rattle.std.specs.Option.{option_copied};
ghost use Rattle.std.specs.Ordering.{nat_cmp};
ghost use Rattle.std.specs.Str.{bytes_eq};
ghost use Rattle.acl_names.specs.Ascending.{IsAscending};

use crate::named::{Named, place_by_name};
use crate::places::member_at;
use std::alloc::{AllocError, Global};

/// Slots of the table for each member.
const GUESSES_PER_MEMBER: usize = 8;

/// An odd number near the golden ratio of 2^64, by which the bits of a hash are spread.
const SPREAD: u64 = 0x9E37_79B9_7F4A_7C15;

/// The table: for the hash of a name, the place of the member with that name. If two members share
/// a slot, the later one has it.
pub(crate) fn guesses_of<T: Named>(alloc: Global, members: &[T]) -> Result<Vec<u32>, AllocError> {
    let count = members.len().saturating_mul(GUESSES_PER_MEMBER);
    let mut guesses = Vec::from_elem(alloc, 0, count)?;
    for (place, member) in members.iter().enumerate() {
        let at = guess_at(hash_of(member.key()), count);
        if let Some(guess) = guesses.get_mut(at) {
            *guess = u32::try_from(place).unwrap_or(0);
        }
    }
    Ok(guesses)
}

/// The member with this name. `members` must be sorted by name.
pub(crate) fn find_by_hash<'a, T: Named>(
    members: &'a [T],
    guesses: &[u32],
    name: &[u8],
) -> Option<&'a T>
    requires { IsAscending (slice_cmp nat_cmp) T.name_of members.now }
    ensures { option_copied result ≡ find (λ other. bytes_eq (T.name_of other) name.now) members.now }
{
    member_at(members, place_by_hash(members, guesses, name))
}

/// The place of the member with this name. `members` must be sorted by name.
pub(crate) fn place_by_hash<T: Named>(members: &[T], guesses: &[u32], name: &[u8]) -> Option<usize>
    requires { IsAscending (slice_cmp nat_cmp) T.name_of members.now }
    ensures { result ≡ position (λ other. bytes_eq (T.name_of other) name.now) members.now }
{
    if let Some(place) = guessed_place(members, guesses, name) {
        return Some(place);
    }
    place_by_name(members, name)
}

/// The place of the member with this name, if the guess for its hash is right. A fast path: on
/// `None` the caller has to search.
fn guessed_place<T: Named>(members: &[T], guesses: &[u32], name: &[u8]) -> Option<usize>
    requires { IsAscending (slice_cmp nat_cmp) T.name_of members.now }
    ensures { IfSome result (λ place. position (λ other. bytes_eq (T.name_of other) name.now)
        members.now ≡ Some place) }
{
    let guess = guesses.get(guess_at(hash_of(name), guesses.len()))?;
    let place = *guess as usize;
    if place >= members.len() {
        return None;
    }
    let member = &members[place];
    if member.key() == name {
        Some(place)
    } else {
        None
    }
}

/// The hash of a name.
fn hash_of(name: &[u8]) -> u64 {
    let mut hash: u64 = 0;
    for byte in name {
        hash = hash.rotate_left(7) ^ u64::from(*byte);
    }
    hash
}

/// The slot of a hash, out of `count` slots.
#[inline(always)]
fn guess_at(hash: u64, count: usize) -> usize {
    let spread = hash.wrapping_mul(SPREAD) >> 32;
    (spread.wrapping_mul(count as u64) >> 32) as usize
}
