//! The validity of entries that are at hand, timed by itself.
use crate::no_names;
use acl_posix::{Acl, Entries, read_entries};
use std::alloc::Global;

/// The bytes of the memory that is taken where what is timed begins and ends. The driver watches
/// for this number.
const MARK: usize = 54_321;

fn mark(alloc: Global) -> Option<()> {
    let mark: Vec<u8> = Vec::with_capacity(alloc, MARK).ok()?;
    drop(mark);
    Some(())
}

/// The entries of the text: as they are read, or pushed one by one.
fn entries_of(alloc: Global, text: &[u8], pushed: bool) -> Option<Entries> {
    let names = no_names(alloc)?;
    let read = read_entries(alloc, text, &names).ok()?;
    if !pushed {
        return Some(read);
    }
    let mut entries = Entries::new(alloc);
    for entry in read.as_slice() {
        entries.push(*entry).ok()?;
    }
    Some(entries)
}

/// The entries of the text, so many times.
fn many_entries(alloc: Global, text: &[u8], pushed: bool, lists: u32) -> Option<Vec<Entries>> {
    let mut all = Vec::new(alloc);
    for _ in 0..lists {
        all.push(entries_of(alloc, text, pushed)?).ok()?;
    }
    Some(all)
}

fn times_valid(alloc: Global, text: &[u8], pushed: bool, lists: u32) -> Option<u64> {
    let all = many_entries(alloc, text, pushed, lists)?;
    let mut sum: u64 = 0;
    mark(alloc)?;
    for entries in all {
        let acl = Acl::new(entries).ok()?;
        sum = sum.wrapping_add(acl.entries().len() as u64);
    }
    mark(alloc)?;
    Some(sum)
}

fn times_valid_kept(alloc: Global, text: &[u8], pushed: bool, lists: u32) -> Option<u64> {
    let all = many_entries(alloc, text, pushed, lists)?;
    let mut kept = Vec::with_capacity(alloc, lists as usize).ok()?;
    mark(alloc)?;
    for entries in all {
        kept.push(Acl::new(entries).ok()?).ok()?;
    }
    mark(alloc)?;
    Some(kept.len() as u64)
}

/// Makes so many times the entries of the text, and then, between two marks, a list of each, which
/// is dropped at once.
#[unsafe(no_mangle)]
pub extern "C" fn acl_times_valid(alloc: Global, text: &[u8], pushed: bool, lists: u32) -> u64 {
    times_valid(alloc, text, pushed, lists).unwrap_or(0)
}

/// The same, and the lists are kept until after the second mark.
#[unsafe(no_mangle)]
pub extern "C" fn acl_times_valid_kept(
    alloc: Global,
    text: &[u8],
    pushed: bool,
    lists: u32,
) -> u64 {
    times_valid_kept(alloc, text, pushed, lists).unwrap_or(0)
}
