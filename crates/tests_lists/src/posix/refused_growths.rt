//! Calls that may run out of memory: one failed allocation, wherever it falls, is reported by the
//! call in which it falls, leaves everything as it was, and the call may be made again.
//!
//! `rt try --test --fail-alloc N` fails allocation N of a test. Each test here passes whichever
//! growth that is, and prints how many failures it saw: one up to the last allocation that it asks
//! for, and none from then on.
use crate::posix::fixture::{is_copied, mode};
use acl_names::{Directory, Uid};
use acl_posix::{Acl, Entries, Entry, Mode, Perms, Tag, TextFault, read_entries};
use std::alloc::Global;
use std::test::Fail;
use tests_common::{Refusals, acl, directory};

/// A list of more entries than stand in the value itself.
const LONG: &str = "u::rw,u:1:r,u:2:r,u:3:r,u:4:r,u:5:r,u:6:r,u:7:r,u:bob:rw,g::r,m::r,o::-";

/// The names of the examples, at the second attempt if the first is refused.
fn names_again(alloc: Global, refusals: &mut Refusals) -> Option<Directory> {
    refusals.again(|| directory(alloc))
}

/// The long list, at the second attempt if the first is refused.
fn list_again(alloc: Global, refusals: &mut Refusals) -> Option<Acl> {
    refusals.again(|| acl(alloc, LONG))
}

/// The entry of this place: out of order, so that the sorted copy grows too.
fn reader(place: u32) -> Option<Entry> {
    Some(Entry {
        tag: Tag::User(Uid::new(place.checked_mul(37)? % 64)?),
        perms: Perms::READ,
    })
}

/// Whether these are so many entries, each that of its place.
fn are_readers(entries: &[Entry], count: u32) -> bool {
    let mut place: u32 = 0;
    for entry in entries {
        if Some(*entry) != reader(place) {
            return false;
        }
        place = place.saturating_add(1);
    }
    place == count
}

/// Whether the entry of this place is put after so many, at the second attempt if the first is
/// refused, and a refused attempt leaves the entries as they were.
fn is_pushed_again(entries: &mut Entries, place: u32, refusals: &mut Refusals) -> Option<bool> {
    let entry = reader(place)?;
    if entries.push(entry) != Err(TextFault::Memory) {
        return Some(true);
    }
    refusals.one_more();
    Some(are_readers(entries.as_slice(), place) && entries.push(entry).is_ok())
}

/// How many of 64 entries are put there one by one, up to the first that isn't; none if they aren't
/// in their places.
fn pushed_again(alloc: Global, refusals: &mut Refusals) -> Option<u32> {
    let mut entries = Entries::new(alloc);
    for place in 0..64 {
        if is_pushed_again(&mut entries, place, refusals) != Some(true) {
            break;
        }
    }
    let count = entries.as_slice().len() as u32;
    if are_readers(entries.as_slice(), count) {
        Some(count)
    } else {
        None
    }
}

#[test]
fn push_under_a_refused_growth(rt: HostRuntime) -> Result<(), Fail> {
    let mut refusals = Refusals::new();
    assert_eq!(rt; pushed_again(rt.alloc(), &mut refusals), Some(64));
    println!(rt; "refusals: {}", refusals.reported())?;
    Ok(())
}

/// The entries of the long text, at the second attempt if the first is refused.
fn entries_again(alloc: Global, refusals: &mut Refusals) -> Option<Entries> {
    let names = names_again(alloc, refusals)?;
    match read_entries(alloc, LONG.as_bytes(), &names) {
        Err(TextFault::Memory) => refusals.one_more(),
        read => return read.ok(),
    }
    read_entries(alloc, LONG.as_bytes(), &names).ok()
}

/// How many they are, and whether they are a list.
fn read_again(alloc: Global, refusals: &mut Refusals) -> Option<(usize, bool)> {
    let entries = entries_again(alloc, refusals)?;
    let count = entries.as_slice().len();
    Some((count, Acl::new(entries).is_ok()))
}

#[test]
fn read_entries_under_a_refused_growth(rt: HostRuntime) -> Result<(), Fail> {
    let mut refusals = Refusals::new();
    let read = read_again(rt.alloc(), &mut refusals);
    assert_eq!(rt; read, Some((12, true)));
    println!(rt; "refusals: {}", refusals.reported())?;
    Ok(())
}

/// Whether the list is printed, with marks or without.
fn is_printed(list: &Acl, names: &Directory, marked: bool, out: &mut Vec<u8>) -> bool {
    if marked {
        list.print_effective(names, out).is_ok()
    } else {
        list.print_long(names, out).is_ok()
    }
}

/// How many bytes are printed of it, at the second attempt if the first is refused; none if a
/// refused attempt leaves some.
fn print_again(
    (list, names): (&Acl, &Directory),
    marked: bool,
    out: &mut Vec<u8>,
    refusals: &mut Refusals,
) -> Option<usize> {
    let before = out.len();
    if !is_printed(list, names, marked, out) {
        refusals.one_more();
        if out.len() != before || !is_printed(list, names, marked, out) {
            return None;
        }
    }
    out.len().checked_sub(before)
}

/// How many bytes are printed of the long list, and then how many with marks.
fn printed_again(alloc: Global, refusals: &mut Refusals) -> Option<[Option<usize>; 2]> {
    let names = names_again(alloc, refusals)?;
    let list = list_again(alloc, refusals)?;
    let mut out = Vec::new(alloc);
    let long = print_again((&list, &names), false, &mut out, refusals);
    let marked = print_again((&list, &names), true, &mut out, refusals);
    Some([long, marked])
}

#[test]
fn printers_under_a_refused_growth(rt: HostRuntime) -> Result<(), Fail> {
    let mut refusals = Refusals::new();
    let printed = printed_again(rt.alloc(), &mut refusals);
    // One mark of 15 bytes makes the difference.
    assert_eq!(rt; printed, Some([Some(132), Some(147)]));
    println!(rt; "refusals: {}", refusals.reported())?;
    Ok(())
}

/// The mode of a file that is made with this one below the default list.
fn mode_below(alloc: Global, default: &Acl, mode: Mode) -> Option<Mode> {
    let made = Acl::at_creation(alloc, default, mode).ok()?;
    Some(made.mode())
}

/// Whether a list of three is made, which takes no memory, and the mode of a file that is made
/// below the long list.
fn modes_again(alloc: Global, bits: u16, refusals: &mut Refusals) -> Option<(bool, u16)> {
    let mode = mode(bits)?;
    let is_made = Acl::of_mode(alloc, mode).is_ok();
    let default = list_again(alloc, refusals)?;
    let shown = refusals.again(|| mode_below(alloc, &default, mode))?;
    Some((is_made, shown.bits()))
}

#[test]
fn lists_of_modes_under_a_refused_growth(rt: HostRuntime) -> Result<(), Fail> {
    let mut refusals = Refusals::new();
    let found = modes_again(rt.alloc(), 0o640, &mut refusals);
    assert_eq!(rt; found, Some((true, 0o640)));
    println!(rt; "refusals: {}", refusals.reported())?;
    Ok(())
}

/// Whether a copy of the long list has its entries, at the second attempt if the first is refused.
fn is_copied_again(alloc: Global, refusals: &mut Refusals) -> Option<bool> {
    let list = list_again(alloc, refusals)?;
    refusals.again(|| is_copied(alloc, &list))
}

#[test]
fn a_copy_under_a_refused_growth(rt: HostRuntime) -> Result<(), Fail> {
    let mut refusals = Refusals::new();
    let copied = is_copied_again(rt.alloc(), &mut refusals);
    assert!(rt; copied == Some(true));
    println!(rt; "refusals: {}", refusals.reported())?;
    Ok(())
}
