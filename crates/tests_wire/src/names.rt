//! Entries in XDR with their names, written by hand after RFC 8881, section 6.2.1, and RFC 4506.
use acl_wire::{BY_NAME, Nfs4Fault, RawAce, XdrPlace, put_xdr_entry, xdr_next};

/// Two entries: the user `alice` may read, and the group 50 may write.
const BYTES: [u8; 48] = [
    0, 0, 0, 2, 0, 0, 0, 0, 0, 0, 0, 0, 0, 0, 0, 1, 0, 0, 0, 5, b'a', b'l', b'i', b'c', b'e', 0, 0,
    0, 0, 0, 0, 0, 0, 0, 0, 0x40, 0, 0, 0, 2, 0, 0, 0, 2, b'5', b'0', 0, 0,
];

const ALICE: RawAce = RawAce {
    kind: 0,
    flags: 0,
    mask: 1,
    special: BY_NAME,
    id: 0,
};

const GROUP: RawAce = RawAce {
    kind: 0,
    flags: 0x40,
    mask: 2,
    special: 0,
    id: 50,
};

const BEGIN: XdrPlace = XdrPlace {
    at: 0,
    left: 0,
    who_at: 0,
    who_len: 0,
};

/// Behind `alice`.
const SECOND: XdrPlace = XdrPlace {
    at: 28,
    left: 1,
    who_at: 20,
    who_len: 5,
};

/// Behind the group.
const THIRD: XdrPlace = XdrPlace {
    at: 48,
    left: 0,
    who_at: 44,
    who_len: 2,
};

const END: XdrPlace = XdrPlace {
    at: 48,
    left: 0,
    who_at: 48,
    who_len: 0,
};

#[test]
fn entries_in_turn(rt: HostRuntime) {
    assert_eq!(rt; xdr_next(&BYTES, &BEGIN), Ok((Some(ALICE), SECOND)));
    assert_eq!(rt; xdr_next(&BYTES, &SECOND), Ok((Some(GROUP), THIRD)));
    assert_eq!(rt; xdr_next(&BYTES, &THIRD), Ok((None, END)));
}

/// What the bytes are refused for with another byte at a place, or with none at 48.
fn fault_with(place: usize, byte: u8, from: &XdrPlace) -> Option<Nfs4Fault> {
    let mut bytes = BYTES;
    if place < 48 {
        bytes[place] = byte;
    }
    xdr_next(&bytes, from).err()
}

#[test]
fn bytes_that_are_no_entry(rt: HostRuntime) {
    const ROWS: [(usize, u8, Nfs4Fault); 6] = [
        (7, 4, Nfs4Fault::Type),
        // A flag and a bit of a mask without a name.
        (10, 1, Nfs4Fault::Flags),
        (12, 1, Nfs4Fault::Mask),
        // A name that is longer than all that is left, and none.
        (19, 29, Nfs4Fault::Size),
        (19, 0, Nfs4Fault::UnknownName),
        // A name with a byte 0.
        (22, 0, Nfs4Fault::UnknownName),
    ];
    for (place, byte, wanted) in ROWS {
        assert_eq!(rt;
            fault_with(place, byte, &BEGIN),
            Some(wanted),
            "{place} {byte}"
        );
    }
    // What fills the name up isn't looked at.
    assert_eq!(rt; fault_with(25, 1, &BEGIN), None);
}

#[test]
fn bytes_that_are_cut_or_go_on(rt: HostRuntime) {
    let behind = XdrPlace { left: 0, ..SECOND };
    let beyond = XdrPlace { at: 49, ..THIRD };
    assert_eq!(rt; xdr_next(&BYTES[..3], &BEGIN), Err(Nfs4Fault::Size));
    assert_eq!(rt; xdr_next(&BYTES[..47], &SECOND), Err(Nfs4Fault::Size));
    assert_eq!(rt; xdr_next(&BYTES, &behind), Err(Nfs4Fault::Size));
    assert_eq!(rt; xdr_next(&BYTES, &beyond), Err(Nfs4Fault::Size));
    assert_eq!(rt;
        xdr_next(&BYTES, &XdrPlace { left: 1, ..THIRD }),
        Err(Nfs4Fault::Size)
    );
}

/// How many bytes an entry takes, and what is written of it to 25 that are all 7.
fn written(ace: &RawAce, name: &[u8]) -> (Option<usize>, [u8; 25]) {
    let mut out = [7; 25];
    let needed = put_xdr_entry(ace, name, &mut out).ok();
    (needed, out)
}

#[test]
fn entries_that_are_written(rt: HostRuntime) {
    const OF_ALICE: [u8; 25] = [
        0, 0, 0, 0, 0, 0, 0, 0, 0, 0, 0, 1, 0, 0, 0, 5, b'a', b'l', b'i', b'c', b'e', 0, 0, 0, 7,
    ];
    const OF_GROUP: [u8; 25] = [
        0, 0, 0, 0, 0, 0, 0, 0x40, 0, 0, 0, 2, 0, 0, 0, 2, b'5', b'0', 0, 0, 7, 7, 7, 7, 7,
    ];
    const OF_OWNER: [u8; 25] = [
        0, 0, 0, 0, 0, 0, 0, 0, 0, 0, 0, 1, 0, 0, 0, 6, b'O', b'W', b'N', b'E', b'R', b'@', 0, 0, 7,
    ];
    let owner = RawAce {
        special: 1,
        ..ALICE
    };
    assert_eq!(rt; written(&ALICE, b"alice"), (Some(24), OF_ALICE));
    // The name plays no part where there is an id.
    assert_eq!(rt; written(&GROUP, b"alice"), (Some(20), OF_GROUP));
    assert_eq!(rt; written(&owner, b""), (Some(24), OF_OWNER));
}

#[test]
fn entries_that_have_no_room(rt: HostRuntime) {
    let mut small = [7; 23];
    assert_eq!(rt; put_xdr_entry(&ALICE, b"alice", &mut small), Ok(24));
    assert_eq!(rt; small, [7; 23]);
    let mut enough = [7; 24];
    assert_eq!(rt; put_xdr_entry(&ALICE, b"alice", &mut enough), Ok(24));
}

#[test]
fn names_that_are_none(rt: HostRuntime) {
    const ROWS: [&[u8]; 5] = [b"", b"50", b"99999999999", b"OWNER@", b"ali\0ce"];
    let mut out = [7; 40];
    for name in ROWS {
        let put = put_xdr_entry(&ALICE, name, &mut out);
        assert_eq!(rt; put, Err(Nfs4Fault::UnknownName));
    }
    let unknown = RawAce { kind: 4, ..ALICE };
    assert_eq!(rt;
        put_xdr_entry(&unknown, b"alice", &mut out),
        Err(Nfs4Fault::Type)
    );
    assert_eq!(rt; out, [7; 40]);
}
