//! With ample memory each call that may take some succeeds, at each size that there may be.
use crate::posix::fixture::{is_copied, long, mode};
use acl_names::Directory;
use acl_posix::{Acl, Entries, Entry, read_entries};
use std::alloc::Global;
use std::test::Fail;
use tests_common::{acl, directory};

/// A text of so many entries: those that a list has to have, and then users. The mask may be
/// missing.
pub fn text_of(alloc: Global, count: u32) -> Option<String> {
    let mut text = String::new(alloc);
    for (place, entry) in ["u::rw", ",g::r", ",o::-", ",m::r"].iter().enumerate() {
        if (place as u32) < count {
            text.push_str(entry).ok()?;
        }
    }
    for uid in 4..count {
        let entry = format!(in alloc; ",u:{uid}:r").ok()?;
        text.push_str(entry.as_str()).ok()?;
    }
    Some(text)
}

fn entries_of(alloc: Global, count: u32, names: &Directory) -> Option<Entries> {
    read_entries(alloc, text_of(alloc, count)?.as_bytes(), names).ok()
}

/// The entries, pushed one by one.
fn pushed(alloc: Global, entries: &[Entry]) -> Option<Entries> {
    let mut pushed = Entries::new(alloc);
    for entry in entries {
        pushed.push(*entry).ok()?;
    }
    Some(pushed)
}

/// Whether so many entries are read, and whether they are the same if they are pushed.
fn are_entries(alloc: Global, count: u32, names: &Directory) -> Option<[bool; 2]> {
    let read = entries_of(alloc, count, names)?;
    let pushed = pushed(alloc, read.as_slice())?;
    Some([
        read.as_slice().len() == count as usize,
        pushed.as_slice() == read.as_slice(),
    ])
}

#[test]
fn texts_and_entries_of_each_size(rt: HostRuntime) -> Result<(), Fail> {
    let names = directory(rt.alloc()).ok_or("directory")?;
    for count in 0..65 {
        let found = are_entries(rt.alloc(), count, &names);
        assert_eq!(rt; found, Some([true; 2]), "{count} entries");
    }
    Ok(())
}

/// The list of so many entries.
fn list_of(alloc: Global, count: u32) -> Option<Acl> {
    let text = text_of(alloc, count)?;
    acl(alloc, text.as_str())
}

/// Whether a file that is made with the mode 777 below the default list has its entries.
fn is_handed_on(alloc: Global, list: &Acl) -> Option<bool> {
    let all = mode(0o777)?;
    let made = Acl::at_creation(alloc, list, all).ok()?;
    Some(made.entries() == list.entries())
}

/// Whether what is printed is read as the list's entries.
fn is_read_again(alloc: Global, list: &Acl) -> Option<bool> {
    let text = long(alloc, list)?;
    let again = acl(alloc, text.as_str())?;
    Some(again.entries() == list.entries())
}

/// Whether the list of so many entries has them; whether they are copied, handed on, and read again
/// from what is printed.
fn found(alloc: Global, count: u32) -> Option<[Option<bool>; 4]> {
    let list = list_of(alloc, count)?;
    Some([
        Some(list.entries().len() == count as usize),
        is_copied(alloc, &list),
        is_handed_on(alloc, &list),
        is_read_again(alloc, &list),
    ])
}

#[test]
fn lists_of_each_size(rt: HostRuntime) {
    for count in 3..65 {
        let found = found(rt.alloc(), count);
        assert_eq!(rt; found, Some([Some(true); 4]), "{count} entries");
    }
}
