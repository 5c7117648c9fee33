//! Which line of a block is at fault.
use acl_listings::{BlockFault, FileFault, faulty_line, read_file};
use std::alloc::Global;
use tests_common::directory;

/// A list of 64 entries in four lines, and what makes it too long in a fifth.
const TOO_MANY: &[u8] = b"# file: x
# owner: 0
# group: 0
o::r,o::r,o::r,o::r,o::r,o::r,o::r,o::r,o::r,o::r,o::r,o::r,o::r,o::r,o::r,o::r
default:other::r--,nonsense
o::r,o::r,o::r,o::r,o::r,o::r,o::r,o::r,o::r,o::r,o::r,o::r,o::r,o::r,o::r,o::r
o::r,o::r,o::r,o::r,o::r,o::r,o::r,o::r,o::r,o::r,o::r,o::r,o::r,o::r,o::r,o::r
o::r,o::r,o::r,o::r,o::r,o::r,o::r,o::r,o::r,o::r,o::r,o::r,o::r,o::r,o::r,o::r
# nothing
mask::rwx
nonsense";

/// Whether a block that says no file is at fault in this line, before which so many stand.
fn is_at_fault(alloc: Global, text: &[u8], before: usize, line: &[u8]) -> bool {
    let Some(names) = directory(alloc) else {
        return false;
    };
    match read_file(alloc, text, &names) {
        Err(FileFault::Block(fault)) => {
            let found = faulty_line(text, fault, &names);
            found.0 == before && found.1 == line
        }
        _ => false,
    }
}

#[test]
fn headers(rt: HostRuntime) {
    const ROWS: [(&[u8], usize, &[u8]); 8] = [
        (b"user::rwx", 0, b"user::rwx"),
        (b"# file: \n# owner: 0\n# group: 0", 0, b"# file: "),
        (b"# file: x\n# group: 0\n# owner: 0", 1, b"# group: 0"),
        (
            b"# file: x\n# owner: root\r\n# group: 0",
            1,
            b"# owner: root\r",
        ),
        (b"# file: x\n# owner: 0", 2, b""),
        (
            b"# file: x\n# owner: dave\n# group: \nu::r",
            2,
            b"# group: ",
        ),
        (
            b"# file: x\n# owner: dave\n# group: dave\nu::r",
            1,
            b"# owner: dave",
        ),
        (
            b"# file: x\n# owner: 0\n# group: dave\nu::r",
            2,
            b"# group: dave",
        ),
    ];
    for (text, before, line) in ROWS {
        assert!(rt; is_at_fault(rt.alloc(), text, before, line), "{before}");
    }
}

#[test]
fn lists(rt: HostRuntime) {
    const ROWS: [(&[u8], usize, &[u8]); 8] = [
        // A default list is at fault if the access list reads.
        (
            b"# file: x\n# owner: 0\n# group: 0\nu::r,g::r,o::r\ndefault:u::r\ndefault:nonsense",
            5,
            b"default:nonsense",
        ),
        // Of NFSv4 entries one that is malformed, one of another form, and one without an effect.
        (
            b"# file: x\n# owner: 0\n# group: 0\nA::OWNER@:r\nA::dave:r\nA::OWNER@:q",
            4,
            b"A::dave:r",
        ),
        (
            b"# file: x\n# owner: 0\n# group: 0\nowner@:r::allow\nA::OWNER@:r",
            4,
            b"A::OWNER@:r",
        ),
        (
            b"# file: x\n# owner: 0\n# group: 0\nA::OWNER@:r\nA:i:OWNER@:r",
            4,
            b"A:i:OWNER@:r",
        ),
        (
            b"# file: x\n# owner: 0\n# group: 0\nu::r\ng::r\no::r\nnonsense\nu:dave:r",
            6,
            b"nonsense",
        ),
        (
            b"# file: x\n# owner: 0\n# group: 0\ndefault:nonsense\nu::r # u\nu:dave:r,g::w\nx",
            5,
            b"u:dave:r,g::w",
        ),
        (TOO_MANY, 9, b"mask::rwx"),
        // Its entries read, and are no list.
        (
            b"# file: x\n# owner: 0\n# group: 0\nu::r\ng::r",
            0,
            b"# file: x",
        ),
    ];
    for (text, before, line) in ROWS {
        assert!(rt; is_at_fault(rt.alloc(), text, before, line), "{before}");
    }
}

/// Whether a fault is reported for a block's first line.
fn is_reported_of_the_first(alloc: Global, fault: BlockFault) -> bool {
    let Some(names) = directory(alloc) else {
        return false;
    };
    let found = faulty_line(b"# file: x\n# owner: 0", fault, &names);
    found.0 == 0 && found.1 == b"# file: x".as_slice()
}

/// What isn't found by the block's own text is reported for its first line.
#[test]
fn whole_blocks(rt: HostRuntime) {
    const FAULTS: [BlockFault; 3] = [
        BlockFault::TooLong,
        BlockFault::RepeatedPath,
        BlockFault::UnknownWay,
    ];
    for fault in FAULTS {
        assert!(rt; is_reported_of_the_first(rt.alloc(), fault));
    }
}
