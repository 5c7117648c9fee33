//! POSIX lists in the layout of linux/posix_acl_xattr.h: a version of four bytes, and for each
//! entry a tag and permissions of two bytes each and an id of four, all with the lowest byte first.
//! The numbers of the tags are those of linux/posix_acl.h.
use acl_wire::{
    PosixError, PosixFault, Rules, acl_of_text, acl_of_xattr, acl4_of_text, write_xattr,
    xattr_delete, xattr_grants, xattr_text, xattr_translated,
};
use std::alloc::Global;

const TEXT: &str = "u::rw-,u:1000:r--,g::r--,m::r--,o::---";

const BYTES: [u8; 44] = [
    2, 0, 0, 0, 0x01, 0, 6, 0, 0xff, 0xff, 0xff, 0xff, 0x02, 0, 4, 0, 0xe8, 0x03, 0, 0, 0x04, 0, 4,
    0, 0xff, 0xff, 0xff, 0xff, 0x10, 0, 4, 0, 0xff, 0xff, 0xff, 0xff, 0x20, 0, 0, 0, 0xff, 0xff,
    0xff, 0xff,
];

/// Whether the bytes are read as the list of the text.
fn is_read(alloc: Global, bytes: &[u8], text: &str) -> Option<bool> {
    let reported = xattr_text(alloc, bytes).ok()?;
    Some(reported.as_slice() == text.as_bytes())
}

/// Whether the list of the text is written as the bytes.
fn is_written(alloc: Global, text: &str, bytes: &[u8]) -> Option<bool> {
    let acl = acl_of_text(alloc, text.as_bytes()).ok()?;
    let mut out = [0; 64];
    let count = write_xattr(&acl, &mut out);
    if count > 64 {
        return None;
    }
    Some(&out[..count] == bytes)
}

#[test]
fn a_list_in_bytes(rt: HostRuntime) {
    assert!(rt; is_read(rt.alloc(), &BYTES, TEXT) == Some(true));
    assert!(rt; is_written(rt.alloc(), TEXT, &BYTES) == Some(true));
}

/// The user whom an entry names may read and not write, and whoever is in no entry may do nothing.
#[test]
fn who_may_do_what(rt: HostRuntime) {
    const ROWS: [(u32, u32, bool); 6] = [
        (0, 6, true),
        (0, 7, false),
        (1000, 4, true),
        (1000, 2, false),
        (1001, 4, false),
        (1001, 0, true),
    ];
    for (uid, request, wanted) in ROWS {
        let granted = xattr_grants(Rules::Draft, &BYTES, 0, 0, uid, &[100], request);
        assert_eq!(rt; granted, Ok(wanted), "{uid} {request}");
    }
}

/// The mask is empty, and the others may read.
fn with_empty_mask() -> [u8; 44] {
    let mut bytes = BYTES;
    bytes[30] = 0;
    bytes[38] = 4;
    bytes
}

/// Under an empty mask the draft denies the user whom an entry names, and Linux asks the mode.
#[test]
fn an_empty_mask(rt: HostRuntime) {
    let bytes = with_empty_mask();
    let draft = xattr_grants(Rules::Draft, &bytes, 0, 0, 1000, &[100], 4);
    let linux = xattr_grants(Rules::Linux, &bytes, 0, 0, 1000, &[100], 4);
    assert_eq!(rt; draft, Ok(false));
    assert_eq!(rt; linux, Ok(true));
}

/// Whether the list of the bytes is translated into the NFSv4 list of the text.
fn is_translated(alloc: Global, wanted: &str) -> Option<bool> {
    let list = xattr_translated(alloc, &BYTES).ok()?;
    let wanted = acl4_of_text(alloc, wanted.as_bytes()).ok()?;
    Some(list.has_same_entries(&wanted))
}

/// By the five steps of the translation: of the others nothing is left.
#[test]
fn a_translation(rt: HostRuntime) {
    const WANTED: &str =
        "A::OWNER@:rwa,D::OWNER@:x,A::1000:r,D::1000:wax,A::GROUP@:r,D::GROUP@:wax";
    assert!(rt; is_translated(rt.alloc(), WANTED) == Some(true));
}

/// Why the bytes, with one of them changed, are no list.
fn fault_with(alloc: Global, place: usize, byte: u8) -> Option<PosixError> {
    let mut bytes = BYTES;
    if place < 44 {
        bytes[place] = byte;
    }
    acl_of_xattr(alloc, &bytes).err()
}

#[test]
fn bytes_that_are_no_list(rt: HostRuntime) {
    const ROWS: [(usize, u8, PosixFault); 7] = [
        // The version.
        (0, 1, PosixFault::Version),
        (3, 1, PosixFault::Version),
        // A tag, and a permission, that there is not.
        (4, 3, PosixFault::Tag),
        (6, 8, PosixFault::Perms),
        // The owner's entry is another for the file's group.
        (4, 4, PosixFault::Missing),
        // The mask is another for a user.
        (28, 2, PosixFault::Id),
        // The owner stands twice.
        (28, 1, PosixFault::Repeated),
    ];
    for (place, byte, wanted) in ROWS {
        let fault = fault_with(rt.alloc(), place, byte);
        assert_eq!(rt; fault, Some(PosixError::Fault(wanted)), "{place} {byte}");
    }
}

/// Why the bytes that come before a place are no list.
fn fault_of_front(alloc: Global, count: usize) -> Option<PosixError> {
    if count > 44 {
        return None;
    }
    acl_of_xattr(alloc, &BYTES[..count]).err()
}

/// Bytes that are cut have no whole entry, or lack one.
#[test]
fn bytes_that_are_cut(rt: HostRuntime) {
    for count in 0..44 {
        let wanted = if count >= 4 && count % 8 == 4 {
            PosixFault::Missing
        } else {
            PosixFault::Size
        };
        let fault = fault_of_front(rt.alloc(), count);
        assert_eq!(rt; fault, Some(PosixError::Fault(wanted)), "{count}");
    }
}

/// The list `u::rwx,g::-wx,o::---` of a folder, which is the user 7's and the group 50's; the file
/// is the user 9's.
#[test]
fn who_may_delete(rt: HostRuntime) {
    const FOLDER: [u8; 28] = [
        2, 0, 0, 0, 0x01, 0, 7, 0, 0xff, 0xff, 0xff, 0xff, 0x04, 0, 3, 0, 0xff, 0xff, 0xff, 0xff,
        0x20, 0, 0, 0, 0xff, 0xff, 0xff, 0xff,
    ];
    const ROWS: [(u32, u32, bool, bool); 6] = [
        (7, 1, true, true),
        (8, 50, false, true),
        (8, 50, true, false),
        (9, 50, true, true),
        (9, 1, true, false),
        (8, 1, false, false),
    ];
    for (uid, gid, sticky, wanted) in ROWS {
        let reported = xattr_delete(Rules::Linux, sticky, &FOLDER, 7, 50, 9, uid, &[gid]);
        assert_eq!(rt; reported, Ok(wanted), "{uid} {gid} {sticky}");
    }
    let reported = xattr_delete(Rules::Draft, false, &FOLDER[..27], 7, 50, 9, 7, &[]);
    assert_eq!(rt; reported, Err(PosixFault::Size));
}
