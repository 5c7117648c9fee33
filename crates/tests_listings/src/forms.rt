//! Blocks with NFSv4 entries, in both forms. What they say was worked out by hand.
use crate::reported::block_reports;
use std::test::Fail;

#[test]
fn as_nfs4_getfacl_prints(rt: HostRuntime) -> Result<(), Fail> {
    let alloc = rt.alloc();
    let block = b"# file: x\n# owner: alice\n# group: staff\n\
        A::OWNER@:rwatTnNcCoy\nA::bob:rx\nA:fdg:staff:rx\nD:fdig:60:w\nA::EVERYONE@:rtncy\n";
    let wanted = b"x 1000 50 A::OWNER@:rwatTnNcCoy,A::1001:rx,A:fdg:50:rx,D:fdig:60:w,\
        A::EVERYONE@:rtncy";
    assert!(rt; block_reports(alloc, block, wanted));
    // The first entry says the form, and another one is none of it.
    let block = b"# file: x\n# owner: 0\n# group: 0\nA::OWNER@:r\nuser::rwx\ngroup::r\nother::r";
    assert!(rt; block_reports(alloc, block, b"fault bad-acl x"));
    let block = b"# file: x\n# owner: 0\n# group: 0\nuser::rwx\ngroup::r\nother::r\nA::OWNER@:r";
    assert!(rt; block_reports(alloc, block, b"fault bad-acl x"));
    // One without an effect, neither here nor below, is none.
    let block = b"# file: x\n# owner: 0\n# group: 0\nA:i:OWNER@:r";
    assert!(rt; block_reports(alloc, block, b"fault bad-acl x"));
    let block = b"# file: x\n# owner: 0\n# group: 0\nA::dave:r";
    assert!(rt; block_reports(alloc, block, b"fault unknown-name x"));
    Ok(())
}

#[test]
fn as_freebsd_prints(rt: HostRuntime) -> Result<(), Fail> {
    let alloc = rt.alloc();
    let block = b"# file: x\n# owner: 0\n# group: 0\n# flags: --t\n\
        \x20           owner@:rw-p--aARWcCos:-------:allow\n\
        \x20       user:alice:r-----a-R-c--s:fd-----:allow\n\
        \x20          group:60:-w------------:fdi---I:deny\n\
        \x20        everyone@:------a-R-c--s:allow # all\n";
    let wanted =
        b"x 0 0 A::OWNER@:rwatTnNcCoy,A:fd:1000:rtncy,D:fdig:60:w,A::EVERYONE@:tncy sticky";
    assert!(rt; block_reports(alloc, block, wanted));
    // `n` isn't the letter of READ_NAMED_ATTRS, and a name is asked for.
    let block = b"# file: x\n# owner: 0\n# group: 0\nowner@:n::allow";
    assert!(rt; block_reports(alloc, block, b"fault bad-acl x"));
    let block = b"# file: x\n# owner: 0\n# group: 0\nuser::r::allow";
    assert!(rt; block_reports(alloc, block, b"fault bad-acl x"));
    let block = b"# file: x\n# owner: 0\n# group: 0\nuser:dave:r::allow";
    assert!(rt; block_reports(alloc, block, b"fault unknown-name x"));
    Ok(())
}
