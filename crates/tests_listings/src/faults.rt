//! Blocks that say no file, and what is reported for them.
use crate::reported::{block_reports, reports};
use std::test::Fail;

#[test]
fn headers(rt: HostRuntime) -> Result<(), Fail> {
    let alloc = rt.alloc();
    // In another order, and with a line missing.
    let block = b"# file: x\n# group: 0\n# owner: 0\nu::r,g::w,o::x";
    assert!(rt; block_reports(alloc, block, b"fault bad-header x"));
    assert!(rt; block_reports(alloc, b"# file: x\n# owner: 0", b"fault bad-header x"));
    assert!(rt; block_reports(alloc, b"# owner: 0\n# group: 0", b"fault bad-header -"));
    let block = b"# file: x\n# flags: s--\n# owner: 0\n# group: 0\nu::r,g::w,o::x";
    assert!(rt; block_reports(alloc, block, b"fault bad-header x"));
    // No name, another blank, none.
    let block = b"# file: \n# owner: 0\n# group: 0\nu::r,g::w,o::x";
    assert!(rt; block_reports(alloc, block, b"fault bad-header -"));
    assert!(rt; block_reports(alloc, b"#\tfile: x", b"fault bad-header -"));
    assert!(rt; block_reports(alloc, b"# file:x", b"fault bad-header -"));
    // With a capital F alone, and then by its path.
    let block = b"# File: \n# owner: 0\n# group: 0\nu::r,g::w,o::x";
    assert!(rt; block_reports(alloc, block, b"fault bad-header -"));
    let block = b"# FILE: x\n# owner: 0\n# group: 0\nu::r,g::w,o::x";
    assert!(rt; block_reports(alloc, block, b"fault bad-header -"));
    assert!(rt; block_reports(alloc, b"# File: x\n# owner: 0", b"fault bad-header x"));
    assert!(rt; block_reports(alloc, b"user::rwx", b"fault bad-header -"));
    Ok(())
}

#[test]
fn ids(rt: HostRuntime) -> Result<(), Fail> {
    let alloc = rt.alloc();
    // What is neither a decimal nor has a name's shape is no id.
    let block = b"# file: x\n# owner: \n# group: 0\nu::r,g::w,o::x";
    assert!(rt; block_reports(alloc, block, b"fault bad-header x"));
    let block = b"# file: x\n# owner: root\r\n# group: 0\nu::r,g::w,o::x";
    assert!(rt; block_reports(alloc, block, b"fault bad-header x"));
    let block = b"# file: x\n# owner:  0\n# group: 0\nu::r,g::w,o::x";
    assert!(rt; block_reports(alloc, block, b"fault bad-header x"));
    let block = b"# file: x\n# owner: 99999999999\n# group: 0\nu::r,g::w,o::x";
    assert!(rt; block_reports(alloc, block, b"fault bad-header x"));
    // A group's name is no user's.
    let block = b"# file: x\n# owner: staff\n# group: staff\nu::r,g::w,o::x";
    assert!(rt; block_reports(alloc, block, b"fault unknown-name x"));
    let block = b"# file: x\n# owner: alice\n# group: alice\nu::r,g::w,o::x";
    assert!(rt; block_reports(alloc, block, b"fault unknown-name x"));
    let block = b"# file: x\n# owner: alice\n# group: staff\nu::r,g::w,o::x";
    assert!(rt; block_reports(alloc, block, b"x 1000 50 u::r--,g::-w-,o::--x"));
    Ok(())
}

#[test]
fn in_order(rt: HostRuntime) -> Result<(), Fail> {
    let alloc = rt.alloc();
    // The header before names, the owner before the group, both before the list.
    let block = b"# file: x\n# owner: nobody\n# group: \nu::r,g::w,o::x";
    assert!(rt; block_reports(alloc, block, b"fault bad-header x"));
    let block = b"# file: x\n# owner: nobody\n# group: staff\nnonsense";
    assert!(rt; block_reports(alloc, block, b"fault unknown-name x"));
    // The list's first faulty piece decides.
    let block = b"# file: x\n# owner: 0\n# group: 0\nuser:dave:r--\nnonsense";
    assert!(rt; block_reports(alloc, block, b"fault unknown-name x"));
    let block = b"# file: x\n# owner: 0\n# group: 0\nnonsense\nuser:dave:r--";
    assert!(rt; block_reports(alloc, block, b"fault bad-acl x"));
    let block = b"# file: x\n# owner: 0\n# group: 0\nuser::rwx\ngroup::r-x";
    assert!(rt; block_reports(alloc, block, b"fault invalid-acl x"));
    assert!(rt;
        block_reports(
            alloc,
            b"# file: x\n# owner: 0\n# group: 0",
            b"fault invalid-acl x"
        )
    );
    Ok(())
}

#[test]
fn the_others_are_answered(rt: HostRuntime) -> Result<(), Fail> {
    let listing = b"nonsense\n\n# file: x\n# owner: dave\n# group: 0\nu::r,g::w,o::x\n\n\
        # file: y\n# owner: 0\n# group: 0\nu::r,g::w,o::x\n";
    let wanted = b"1 fault bad-header -\n3 fault unknown-name x\n8 y 0 0 u::r--,g::-w-,o::--x\n";
    assert!(rt; reports(rt.alloc(), listing, wanted));
    Ok(())
}
