//! A copy of entries in canonical order, for lists of more than `INLINE_ENTRIES` that are out of
//! order.

ghost use Rattle.std.specs.List.{All};
ghost use Rattle.std.specs.List.Sorted.{IsPermutation, IsSortedByKey};
ghost use Rattle.std.specs.Prelude.{IsTrue, ◌≡◌, ◌≤◌, ◌<◌, ◌↔◌, [], ◌∷◌, ◌++◌, length, map};
ghost use Rattle.std.specs.Prelude.{IsOk, OnOk, OnErr, IfOk};
ghost use Rattle.acl_posix.specs.Canonical.{IsCanonical, tag_cmp, tag_of};
ghost use Rattle.acl_posix.specs.Entries.{IsSortedCopy};
ghost use Rattle.acl_posix.specs.Keys.{AreKeys, IsKey, entry_at};

use crate::limits::{INLINE_ENTRIES, MAX_ENTRIES};
use crate::{Entry, Tag};
use arrayvec::ArrayVec;
use std::alloc::{AllocError, Global};

/// Whether the entries are in canonical order.
#[inline(always)]
pub(crate) fn are_canonical(entries: &[Entry]) -> bool
    ensures { IsTrue result ↔ IsCanonical entries.now }
{
    entries.is_sorted_by(|a, b| a.tag.precedes(b.tag))
}

/// The entries in canonical order, if there are more than `INLINE_ENTRIES` and they aren't in this
/// order; else empty.
pub(crate) fn sorted_copy(alloc: Global, entries: &[Entry]) -> Result<Vec<Entry>, AllocError>
    requires { length entries.now ≤ MAX_ENTRIES }
    ensures copy { IfOk result (λ copy. IsSortedCopy entries.now copy.items) }
    ensures short { length entries.now ≤ INLINE_ENTRIES → IsOk result }
{
    if entries.len() <= INLINE_ENTRIES || are_canonical(entries) {
        return Ok(Vec::new(alloc));
    }
    copy_in_order(alloc, entries)
}

/// Updates the sorted copy of `entries` before `entry` is pushed. The copy is empty while there are
/// at most `INLINE_ENTRIES`, or all are in canonical order. From the first one out of order on it
/// has all entries, so that `Acl::new` doesn't have to sort.
pub(crate) fn keep_sorted(
    copy: &mut Vec<Entry>,
    entries: &[Entry],
    entry: Entry,
) -> Result<(), AllocError>
    requires within { length entries.now ≤ MAX_ENTRIES }
    requires copy { IsSortedCopy entries.now copy.old.items }
    ensures ok { OnOk result (IsSortedCopy (entries.now ++ entry ∷ []) copy.new.items) }
    ensures err { OnErr result (IsSortedCopy entries.now copy.new.items) }
    ensures short { length entries.now < INLINE_ENTRIES → IsOk result }
{
    if entries.len() < INLINE_ENTRIES {
        copy.clear();
        return Ok(());
    }
    if copy.as_slice().is_empty() {
        if stays_in_order(entries, entry.tag) {
            return Ok(());
        }
        *copy = copy_in_order(*copy.allocator(), entries)?;
    }
    let place = copy
        .as_slice()
        .partition_point(|other| other.tag.precedes(entry.tag));
    copy.insert(place, entry)?;
    Ok(())
}

/// Whether entries that are in canonical order stay so with one of this tag after them.
fn stays_in_order(entries: &[Entry], tag: Tag) -> bool {
    match entries {
        [.., last] => last.tag.precedes(tag)
            && (entries.len() > INLINE_ENTRIES || are_canonical(entries)),
        [] => true,
    }
}

/// A copy of the entries in canonical order. It sorts numbers, which compare fast, and then puts
/// the entries in their order.
#[inline(never)]
fn copy_in_order(alloc: Global, entries: &[Entry]) -> Result<Vec<Entry>, AllocError>
    requires { length entries.now ≤ MAX_ENTRIES }
    ensures { IfOk result (λ copy. IsPermutation entries.now copy.items
        × IsSortedByKey tag_of tag_cmp copy.items) }
{
    let mut keys = keys_of(entries);
    keys.sort_unstable();
    entries_at(alloc, entries, keys.as_slice())
}

/// A number for each entry: its tag's rank and id, and then its index.
fn keys_of(entries: &[Entry]) -> ArrayVec<u64, MAX_ENTRIES>
    requires { length entries.now ≤ MAX_ENTRIES }
    ensures { AreKeys entries.now (length entries.now) result.items }
{
    let mut keys = ArrayVec::new();
    for entry in entries {
        let index = keys.len() as u64;
        keys.push(entry.tag.order() * MAX_ENTRIES as u64 + index);
    }
    keys
}

/// The entries in the order of the numbers, which end with their indices.
fn entries_at(alloc: Global, entries: &[Entry], keys: &[u64]) -> Result<Vec<Entry>, AllocError>
    requires { All (IsKey entries.now) keys.now }
    ensures { IfOk result (λ copy. copy.items ≡ map (entry_at entries.now) keys.now) }
{
    let mut copy = Vec::with_capacity(alloc, keys.len())?;
    for key in keys {
        copy.push_reserved(entries[(*key % MAX_ENTRIES as u64) as usize]);
    }
    Ok(copy)
}
