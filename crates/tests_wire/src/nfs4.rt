//! NFSv4 lists in the layout of RFC 8881, section 6.2.1, as XDR (RFC 4506): a count, and for each
//! entry its type, its flags, its mask and its who, numbers of four bytes with the highest first; a
//! string has its length before it, and zeros up to a whole group of four bytes behind it.
use acl_nfs4::Kind;
use acl_wire::{
    Decided, Making, Nfs4Error, Nfs4Fault, Purpose, RawAce, RawAsker, RawDifference, acl4_of_mode,
    acl4_of_xdr, mode_made, put_xdr_raws, raws_allow, raws_decide, raws_delete, raws_difference,
    raws_fault, raws_grant, raws_mode, raws_text, read_raw_aces, write_created, write_inherited,
    write_raw_aces, write_with_mode, write_xdr,
};
use std::alloc::Global;

const TEXT: &str = "A::OWNER@:rw,D:g:50:x";

/// ACE4_ACCESS_ALLOWED_ACE_TYPE of OWNER@, and ACE4_ACCESS_DENIED_ACE_TYPE of the group 50, which
/// ACE4_IDENTIFIER_GROUP says is one.
const BYTES: [u8; 48] = [
    0, 0, 0, 2, 0, 0, 0, 0, 0, 0, 0, 0, 0, 0, 0, 3, 0, 0, 0, 6, b'O', b'W', b'N', b'E', b'R', b'@',
    0, 0, 0, 0, 0, 1, 0, 0, 0, 0x40, 0, 0, 0, 0x20, 0, 0, 0, 2, b'5', b'0', 0, 0,
];

const RAWS: [RawAce; 2] = [
    RawAce {
        kind: 0,
        flags: 0,
        mask: 3,
        special: 1,
        id: 0,
    },
    RawAce {
        kind: 1,
        flags: 0x40,
        mask: 0x20,
        special: 0,
        id: 50,
    },
];

const NOTHING: RawAce = RawAce {
    kind: 0,
    flags: 0,
    mask: 0,
    special: 0,
    id: 0,
};

/// Whether the bytes are read as the entries.
fn is_read(alloc: Global) -> Option<bool> {
    let list = acl4_of_xdr(alloc, &BYTES).ok()?;
    let mut out = [NOTHING; 4];
    let count = write_raw_aces(&list, &mut out);
    if count > 4 {
        return None;
    }
    Some(&out[..count] == RAWS.as_slice())
}

/// The list of `TEXT`, whose second entry has ACE4_INHERITED_ACE and ACE4_WRITE_RETENTION besides.
#[test]
fn bits_that_stay(rt: HostRuntime) {
    let mut bytes = BYTES;
    bytes[35] = 0xc0;
    bytes[38] = 2;
    let mut out = [NOTHING; 4];
    let wanted = RawAce {
        flags: 0xc0,
        mask: 0x220,
        ..RAWS[1]
    };
    assert_eq!(rt; put_xdr_raws(&bytes, &mut out), Ok(2));
    assert_eq!(rt; out[0], RAWS[0]);
    assert_eq!(rt; out[1], wanted);
    assert_eq!(rt; put_xdr_raws(&bytes[..47], &mut out), Err(Nfs4Fault::Size));
}

/// The entries are written as the bytes; and not at all if there is no room for them, or if one of
/// them is none.
#[test]
fn a_list_is_written(rt: HostRuntime) {
    let mut out = [0xaa; 48];
    assert_eq!(rt; write_xdr(&RAWS, &mut out), Ok(48));
    assert!(rt; out == BYTES);
    let mut small = [0xaa; 47];
    assert_eq!(rt; write_xdr(&RAWS, &mut small), Ok(48));
    assert!(rt; small == [0xaa; 47]);
    let none = [
        RAWS[0],
        RawAce {
            special: 4,
            ..RAWS[1]
        },
    ];
    assert_eq!(rt; write_xdr(&none, &mut small), Err(Nfs4Fault::Who));
    assert!(rt; small == [0xaa; 47]);
}

/// Whether a list of an entry with this id has so many bytes, from which it is read again.
fn takes(id: u32, len: usize) -> bool {
    let raws = [RawAce { id, ..RAWS[1] }];
    let mut out = [0; 32];
    if len > 32 || write_xdr(&raws, &mut out) != Ok(len) {
        return false;
    }
    let mut read = [NOTHING];
    put_xdr_raws(&out[..len], &mut read) == Ok(1) && read[0] == raws[0]
}

/// 20 bytes, and the digits of the id in whole groups of four.
#[test]
fn ids_in_whole_groups_of_four(rt: HostRuntime) {
    const ROWS: [(u32, usize); 6] = [
        (0, 24),
        (9_999, 24),
        (10_000, 28),
        (99_999_999, 28),
        (100_000_000, 32),
        (4_294_967_294, 32),
    ];
    for (id, len) in ROWS {
        assert!(rt; takes(id, len));
    }
}

/// Whether the entries are those of the text.
fn is_reported(alloc: Global) -> Option<bool> {
    let text = raws_text(alloc, &RAWS).ok()?;
    Some(text.as_slice() == TEXT.as_bytes())
}

#[test]
fn a_list_in_bytes(rt: HostRuntime) {
    assert!(rt; is_read(rt.alloc()) == Some(true));
    assert!(rt; is_reported(rt.alloc()) == Some(true));
}

/// The owner, whose uid is 7, may read and write; nobody may execute.
#[test]
fn who_may_do_what(rt: HostRuntime) {
    const ROWS: [(u32, u32, u32); 4] = [(7, 3, 3), (7, 0x23, 3), (8, 3, 0), (8, 0, 0)];
    for (uid, request, wanted) in ROWS {
        let allowed = raws_allow(&RAWS, 7, 1, uid, &[50], request);
        let granted = raws_grant(&RAWS, 7, 1, uid, &[50], request);
        assert_eq!(rt; allowed, Ok(wanted), "{uid} {request}");
        assert_eq!(rt; granted, Ok(wanted == request), "{uid} {request}");
    }
}

/// Of ACE4_APPEND_DATA nothing is said.
#[test]
fn what_is_said_of_bits(rt: HostRuntime) {
    let said = raws_decide(&RAWS, 7, 1, 7, &[50], 0x27);
    let wanted = Decided {
        allowed: 3,
        denied: 0x20,
    };
    assert_eq!(rt; said, Ok(wanted));
}

/// Everybody may read and write. What stands behind is read only if it takes that.
#[test]
fn entries_that_are_not_reached(rt: HostRuntime) {
    let raws = [
        RawAce {
            mask: 3,
            special: 3,
            ..NOTHING
        },
        RawAce { kind: 4, ..NOTHING },
    ];
    assert_eq!(rt; raws_grant(&raws, 7, 1, 8, &[], 3), Ok(true));
    assert_eq!(rt; raws_grant(&raws, 7, 1, 8, &[], 7), Err(Nfs4Fault::Type));
}

/// ACE4_INHERIT_ONLY alone takes effect nowhere.
#[test]
fn a_long_list(rt: HostRuntime) {
    let mut raws = [RawAce {
        kind: 1,
        flags: 8,
        mask: 1,
        special: 3,
        ..NOTHING
    }; 200];
    raws[199].flags = 0;
    raws[199].kind = 0;
    assert_eq!(rt; raws_grant(&raws, 7, 1, 8, &[], 1), Ok(true));
}

/// Why the bytes, with one of them changed, are no list.
fn fault_with(alloc: Global, place: usize, byte: u8) -> Option<Nfs4Error> {
    let mut bytes = BYTES;
    if place < 48 {
        bytes[place] = byte;
    }
    acl4_of_xdr(alloc, &bytes).err()
}

#[test]
fn bytes_that_are_no_list(rt: HostRuntime) {
    const ROWS: [(usize, u8, Nfs4Fault); 8] = [
        // Fewer entries, or more, than there are.
        (3, 1, Nfs4Fault::Size),
        (3, 3, Nfs4Fault::Size),
        (3, 129, Nfs4Fault::TooMany),
        (7, 4, Nfs4Fault::Type),
        // INHERIT_ONLY of what isn't inherited.
        (11, 8, Nfs4Fault::InheritOnly),
        (12, 1, Nfs4Fault::Mask),
        // PWNER@ is a name.
        (20, b'P', Nfs4Fault::UnknownName),
        // A string beyond the end.
        (43, 7, Nfs4Fault::Size),
    ];
    for (place, byte, wanted) in ROWS {
        let fault = fault_with(rt.alloc(), place, byte);
        assert_eq!(rt; fault, Some(Nfs4Error::Fault(wanted)), "{place} {byte}");
    }
}

fn fault_of(alloc: Global, purpose: Purpose, raw: RawAce) -> Option<Nfs4Error> {
    read_raw_aces(alloc, purpose, &[raw]).err()
}

#[test]
fn numbers_that_are_no_entry(rt: HostRuntime) {
    let nobody = RawAce {
        id: 0xffff_ffff,
        ..NOTHING
    };
    let whoever = RawAce {
        special: 4,
        ..NOTHING
    };
    let marked = RawAce {
        flags: 0x100,
        ..NOTHING
    };
    let rows = [
        (nobody, Nfs4Fault::Id),
        (whoever, Nfs4Fault::Who),
        (marked, Nfs4Fault::Flags),
    ];
    for (raw, wanted) in rows {
        let fault = fault_of(rt.alloc(), Purpose::Decide, raw);
        assert_eq!(rt; fault, Some(Nfs4Error::Fault(wanted)));
    }
}

/// ACE4_INHERITED_ACE, ACE4_WRITE_RETENTION and ACE4_WRITE_RETENTION_HOLD decide nothing, a list
/// that is written would lose them, and of the two of retention nothing is asked.
#[test]
fn bits_that_decide_nothing(rt: HostRuntime) {
    const ROWS: [(u32, u32); 3] = [(0x80, 1), (0, 0x201), (0x80, 0x600)];
    for (flags, mask) in ROWS {
        let raw = RawAce {
            flags,
            mask,
            special: 3,
            ..NOTHING
        };
        let allowed = raws_allow(&[raw], 7, 1, 8, &[50], 1);
        let fault = fault_of(rt.alloc(), Purpose::Write, raw);
        assert_eq!(rt; allowed, Ok(mask & 1), "{flags} {mask}");
        assert_eq!(rt;
            fault,
            Some(Nfs4Error::Fault(Nfs4Fault::Unkept)),
            "{flags} {mask}"
        );
    }
}

/// ACE4_DELETE of the file to the user 8, and nothing else to anybody.
const MAY_BE_DELETED: [RawAce; 1] = [RawAce {
    kind: 0,
    flags: 0,
    mask: 0x1_0000,
    special: 0,
    id: 8,
}];

/// RFC 8881, section 6.2.1.3.2: in the folder everybody may add a file, and the user 9 is denied
/// ACE4_DELETE_CHILD. It is the user 7's, and the file the user 6's.
#[test]
fn who_may_delete(rt: HostRuntime) {
    const FOLDER: [RawAce; 2] = [
        RawAce {
            kind: 1,
            flags: 0,
            mask: 0x40,
            special: 0,
            id: 9,
        },
        RawAce {
            kind: 0,
            flags: 0,
            mask: 2,
            special: 3,
            id: 0,
        },
    ];
    const ROWS: [(u32, bool, bool); 6] = [
        (5, false, true),
        (5, true, false),
        (6, true, true),
        (7, true, true),
        (8, true, true),
        (9, false, false),
    ];
    for (uid, sticky, wanted) in ROWS {
        let reported = raws_delete(sticky, &FOLDER, 7, 1, &MAY_BE_DELETED, 6, 1, uid, &[]);
        assert_eq!(rt; reported, Ok(wanted), "{uid} {sticky}");
    }
    let reported = raws_delete(false, &FOLDER, 7, 1, &MAY_BE_DELETED, u32::MAX, 1, 8, &[]);
    assert_eq!(rt; reported, Err(Nfs4Fault::Argument));
}

/// How many entries what is made in the folder has, and the mode that it gets; no entries if it
/// inherits nothing.
fn is_made(alloc: Global, folder: &[RawAce], kind: u32) -> Option<(usize, u32)> {
    let making = Making {
        kind,
        mode: 0o640,
        umask: 0o022,
        how: 1,
    };
    let mut out = [NOTHING; 8];
    let count = write_created(alloc, folder, &making, &mut out).ok()?;
    Some((count.unwrap_or(0), mode_made(&making, count.is_some())))
}

/// Directories inherit the entry of the group 50; with the mode that is its own entry, to read, to
/// be inherited further, and the owner's, the group's and nothing of the others'.
#[test]
fn what_is_made(rt: HostRuntime) {
    const FOLDER: [RawAce; 1] = [RawAce {
        kind: 0,
        flags: 0x42,
        mask: 1,
        special: 0,
        id: 50,
    }];
    assert_eq!(rt; is_made(rt.alloc(), &FOLDER, 0), Some((0, 0o640)));
    assert_eq!(rt; is_made(rt.alloc(), &FOLDER, 1), Some((6, 0o640)));
    assert_eq!(rt; is_made(rt.alloc(), &FOLDER, 2), None);
}

/// The entries of the list that says what a mode says.
fn are_of_mode(alloc: Global, attributes: bool) -> Option<usize> {
    let list = acl4_of_mode(alloc, 0o600, attributes).ok()?;
    Some(list.aces().len())
}

/// `A::OWNER@:rwa`, `D::OWNER@:x`, `D::GROUP@:rwax`; and two of what servers check besides.
#[test]
fn the_list_of_a_mode(rt: HostRuntime) {
    assert_eq!(rt; are_of_mode(rt.alloc(), false), Some(3));
    assert_eq!(rt; are_of_mode(rt.alloc(), true), Some(5));
}

/// Reading of the group 50, inherited, with ACE4_WRITE_RETENTION.
const KEPT: RawAce = RawAce {
    kind: 0,
    flags: 0xc0,
    mask: 0x201,
    special: 0,
    id: 50,
};

/// The entry at a place of what the entries become by a mode, and how many there are.
fn is_changed(alloc: Global, raws: &[RawAce], how: u32, place: usize) -> Option<(usize, RawAce)> {
    let mut out = [NOTHING; 8];
    let count = write_with_mode(alloc, raws, 0o640, how, &mut out).ok()?;
    Some((count, *out.get(place)?))
}

/// The group has no more than it had: the entry stands behind the two of the owner, as it was.
#[test]
fn bits_that_a_mode_keeps(rt: HostRuntime) {
    assert_eq!(rt; is_changed(rt.alloc(), &[KEPT], 0, 2), Some((6, KEPT)));
    assert_eq!(rt; is_changed(rt.alloc(), &[KEPT], 1, 2), Some((5, KEPT)));
}

/// The rule 2 leaves what names somebody, though the mode's group may not write. It stands behind
/// the owner's two, and in front of the group's.
#[test]
fn an_entry_that_a_mode_leaves(rt: HostRuntime) {
    let writes = RawAce {
        mask: 2,
        id: 8,
        ..NOTHING
    };
    assert_eq!(rt; is_changed(rt.alloc(), &[KEPT], 2, 2), Some((5, KEPT)));
    assert_eq!(rt; is_changed(rt.alloc(), &[writes], 2, 2), Some((5, writes)));
    assert_eq!(rt; is_changed(rt.alloc(), &[writes], 3, 2), None);
}

/// The number of the mode that entries show.
fn mode_shown(raws: &[RawAce]) -> Option<u16> {
    match raws_mode(raws) {
        Ok(mode) => Some(mode.bits()),
        Err(_) => None,
    }
}

/// The owner may read; to write takes ACE4_APPEND_DATA too.
#[test]
fn the_mode_of_a_list(rt: HostRuntime) {
    assert_eq!(rt; mode_shown(&RAWS), Some(0o400));
    assert_eq!(rt; mode_shown(&[]), Some(0));
    assert_eq!(rt; mode_shown(&[RawAce { kind: 4, ..NOTHING }]), None);
}

/// 199 entries take effect nowhere, and the last lets everybody read. Without it a stranger, who is
/// tried as 65534, may not.
#[test]
fn what_is_decided_of_a_long_list(rt: HostRuntime) {
    let mut raws = [RawAce {
        kind: 1,
        flags: 8,
        mask: 1,
        special: 3,
        ..NOTHING
    }; 200];
    raws[199].flags = 0;
    raws[199].kind = 0;
    let wanted = RawDifference {
        asker: RawAsker {
            uid: 65534,
            gid: 0xffff_ffff,
            other_gid: 0xffff_ffff,
        },
        lost: 1,
        gained: 0,
    };
    assert_eq!(rt; raws_fault(&raws), None);
    assert_eq!(rt; mode_shown(&raws), Some(0o444));
    assert_eq!(rt;
        raws_difference(&raws, 7, 1, &raws[..199], 7, 1, 1),
        Ok(Some(wanted))
    );
    raws[199].special = 4;
    assert_eq!(rt; raws_fault(&raws), Some(Nfs4Fault::Who));
}

/// The one entry that a file inherits.
fn is_inherited(alloc: Global, raws: &[RawAce]) -> Option<RawAce> {
    let mut out = [NOTHING; 2];
    let count = write_inherited(alloc, raws, Kind::File, &mut out).ok()?;
    (count == 1).then_some(out[0])
}

/// Files inherit the entry, which keeps its bits but the flags of inheritance.
#[test]
fn bits_that_are_inherited(rt: HostRuntime) {
    let above = RawAce {
        flags: 0xc1,
        ..KEPT
    };
    assert_eq!(rt; is_inherited(rt.alloc(), &[above]), Some(KEPT));
}
