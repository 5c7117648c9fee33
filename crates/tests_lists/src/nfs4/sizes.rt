//! With ample memory each call that may take some succeeds, at each size that there may be.
use acl_nfs4::{Ace, AceType, Acl4, Flags, Kind, Mask, Who};
use acl_posix::Mode;
use bitflags::Flags as FlagSet;
use std::alloc::Global;
use tests_common::{acl4, directory};

/// A list of so many entries, each for another user, which files and directories inherit.
fn list_of(alloc: Global, count: u32) -> Option<Acl4> {
    let mut text = String::new(alloc);
    for uid in 0..count {
        let entry = format!(in alloc; "A:fd:{uid}:r\n").ok()?;
        text.push_str(entry.as_str()).ok()?;
    }
    acl4(alloc, text.as_str())
}

/// A list of the same entries, made one by one.
fn pushed(alloc: Global, list: &Acl4) -> Option<Acl4> {
    let mut made = Acl4::with_capacity(alloc, 0).ok()?;
    for ace in list.aces() {
        made.push(*ace).ok()?;
    }
    Some(made)
}

/// What is printed of the list, read again.
fn read_again(alloc: Global, list: &Acl4) -> Option<Acl4> {
    let names = directory(alloc)?;
    let mut out = Vec::new(alloc);
    list.print_aces(&names, &mut out).ok()?;
    acl_nfs4::read_aces(alloc, out.as_slice(), &names).ok()
}

/// Whether the list was made and has these entries.
fn is_made(made: Option<Acl4>, wanted: &[Ace]) -> bool {
    match made {
        Some(made) => made.aces() == wanted,
        None => false,
    }
}

/// How many entries a file inherits of the list.
fn inherited_by_files(alloc: Global, list: &Acl4) -> Option<usize> {
    let files = list.inherited(alloc, Kind::File).ok()?;
    Some(files.aces().len())
}

/// Whether a list of so many entries has them, and its copy, what is pushed, what is printed and
/// read again, and what a directory inherits have the same; whether a file inherits as many.
fn found(alloc: Global, count: u32) -> Option<[bool; 6]> {
    let list = list_of(alloc, count)?;
    let aces = list.aces();
    Some([
        aces.len() == count as usize,
        is_made(list.try_clone(alloc).ok(), aces),
        is_made(pushed(alloc, &list), aces),
        is_made(read_again(alloc, &list), aces),
        is_made(list.inherited(alloc, Kind::Dir).ok(), aces),
        inherited_by_files(alloc, &list) == Some(count as usize),
    ])
}

#[test]
fn lists_of_each_size(rt: HostRuntime) {
    for count in 0..129 {
        let found = found(rt.alloc(), count);
        assert_eq!(rt; found, Some([true; 6]), "{count} entries");
    }
}

/// The mode of a list of so many entries once this one is set.
fn mode_set(alloc: Global, count: u32, bits: u16) -> Option<u16> {
    let mode = Mode::from_bits(bits)?;
    let mut list = list_of(alloc, count)?;
    list.chmod4(alloc, mode).ok()?;
    Some(list.mode4().bits())
}

#[test]
fn a_mode_set_on_lists_of_each_size(rt: HostRuntime) {
    for count in 0..42 {
        let shown = mode_set(rt.alloc(), count, 0o640);
        assert_eq!(rt; shown, Some(0o640), "{count} entries");
    }
}

/// A list of so many entries that no mode changes.
fn audits_of(alloc: Global, count: usize) -> Option<Acl4> {
    let audit = Ace::new(
        AceType::Audit,
        Flags::empty(),
        Who::Everyone,
        Mask::READ_DATA,
    );
    let mut list = Acl4::empty(alloc);
    for _ in 0..count {
        list.push(audit).ok()?;
    }
    Some(list)
}

/// How many entries so many audits come to once a mode is set.
fn len_with_mode(alloc: Global, count: usize) -> Option<usize> {
    let mode = Mode::from_bits(0o640)?;
    let mut list = audits_of(alloc, count)?;
    list.chmod4(alloc, mode).ok()?;
    Some(list.aces().len())
}

/// Two entries of the owner and two of the group come to those of the list.
#[test]
fn lists_of_each_size_once_a_mode_is_set(rt: HostRuntime) {
    for len in 4..129_usize {
        let found = len_with_mode(rt.alloc(), len.saturating_sub(4));
        assert_eq!(rt; found, Some(len), "{len} entries");
    }
}
