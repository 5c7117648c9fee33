//! Guesses at which place the member with a name is, from a hash of the name. A wrong guess only
//! costs a search, so nothing is proved about hashes.

ghost use Rattle.std.specs.Prelude.{◌≡◌, ◌==◌, false, ◌++◌, ◌∷◌, Some, find, length, IfSome, IsOk};
ghost use Rattle.std.specs.Cmp.Lexicographic.{slice_cmp};
ghost use Rattle.std.specs.List.{list_any};
ghost use Rattle.std.specs.Option.{option_copied};
ghost use Rattle.std.specs.Ordering.{nat_cmp};
ghost use Rattle.std.specs.Str.{bytes_eq};
ghost use Rattle.acl_names.specs.Ascending.{IsAscending};

use super::named::{Named, find_by_bytes};
use crate::limits::MAX_NAME_LEN;
use std::alloc::{AllocError, Global};

/// Slots of the table for each member. With 8, about one name in 17 loses its slot to another.
const GUESSES_PER_MEMBER: usize = 8;

/// An odd number near the golden ratio of 2^64, by which the bits of a hash are spread.
const SPREAD: u64 = 0x9E37_79B9_7F4A_7C15;

/// The table: for the hash of a name, the place of the member with that name. If two members share
/// a slot, the later one has it. Without members the table is empty and takes no memory.
pub(crate) fn guesses_of<T: Named>(alloc: Global, members: &[T]) -> Result<Vec<u16>, AllocError>
    ensures { length members.now ≡ 0 → IsOk result }
{
    if members.is_empty() {
        return Ok(Vec::new(alloc));
    }
    let count = members.len().saturating_mul(GUESSES_PER_MEMBER);
    let mut guesses = Vec::from_elem(alloc, 0, count)?;
    for (place, member) in members.iter().enumerate() {
        let at = guess_at(hash_of(member.name().as_bytes()), count);
        if let Some(guess) = guesses.get_mut(at) {
            *guess = u16::try_from(place).unwrap_or(0);
        }
    }
    Ok(guesses)
}

/// The member with this name, whose hash is `hash`. `members` must be sorted by name.
pub(crate) fn find_by_hash<'a, T: Named>(
    members: &'a [T],
    guesses: &[u16],
    hash: u64,
    name: &[u8],
) -> Option<&'a T>
    requires { IsAscending (slice_cmp nat_cmp) T.name_of members.now }
    ensures { option_copied result ≡ find (λ other. bytes_eq (T.name_of other) name.now) members.now }
{
    if let Some(member) = find_at_guess(members, guesses, hash, name) {
        return Some(member);
    }
    find_by_bytes(members, name)
}

/// The member with this name, if the guess for the hash is right. A fast path: on `None` the caller
/// has to search.
fn find_at_guess<'a, T: Named>(
    members: &'a [T],
    guesses: &[u16],
    hash: u64,
    name: &[u8],
) -> Option<&'a T>
    requires { IsAscending (slice_cmp nat_cmp) T.name_of members.now }
    ensures { IfSome result (λ member. find (λ other. bytes_eq (T.name_of other) name.now)
        members.now ≡ Some member.now) }
{
    let guess = guesses.get(guess_at(hash, guesses.len()))?;
    let place = usize::from(*guess);
    if place >= members.len() {
        return None;
    }
    let member = &members[place];
    if member.name().as_bytes() == name {
        Some(member)
    } else {
        None
    }
}

/// The text before the first separator, its hash for `uid_by_hash` and `gid_by_hash`, and the text
/// after the separator. `None` if there is no separator within the first `MAX_NAME_LEN` + 1 bytes.
pub(crate) fn split_name(separator: u8, text: &[u8]) -> Option<(&[u8], u64, &[u8])>
    ensures parts { IfSome result (λ found. text.now ≡ found.0.now ++ separator ∷ found.2.now) }
    ensures first { IfSome result (λ found. list_any (λ x. x == separator) found.0.now ≡ false) }
{
    let mut hash: u64 = 0;
    for (at, byte) in text.iter().enumerate() {
        if *byte == separator {
            return Some((&text[..at], hash, &text[at + 1..]));
        }
        if at == MAX_NAME_LEN {
            return None;
        }
        hash = hash_with(hash, *byte);
    }
    None
}

/// The hash of a name.
pub(crate) fn hash_of(name: &[u8]) -> u64 {
    let mut hash: u64 = 0;
    for byte in name {
        hash = hash_with(hash, *byte);
    }
    hash
}

/// The hash of a text and one more byte.
#[inline(always)]
fn hash_with(hash: u64, byte: u8) -> u64 {
    hash.rotate_left(7) ^ u64::from(byte)
}

/// The slot of a hash, out of `count` slots.
#[inline(always)]
fn guess_at(hash: u64, count: usize) -> usize {
    let spread = hash.wrapping_mul(SPREAD) >> 32;
    (spread.wrapping_mul(count as u64) >> 32) as usize
}
