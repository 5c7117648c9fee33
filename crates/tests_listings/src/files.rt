//! Blocks as `getfacl` 2.3.1 writes them. What they say was worked out by hand.
use crate::reported::{block_reports, reports};
use std::test::Fail;

/// What `getfacl -R` writes of a folder with a sticky bit and a default list, and of three files:
/// with names for ids, flags, marks of effective permissions, blanks and escapes in the names.
const FOLDER: &[u8] = b"# file: d one
# owner: root
# group: root
# flags: --t
user::rwx
group::rwx
other::rwx
default:user::rwx
default:user:alice:rwx
default:group::rwx
default:mask::rwx
default:other::rwx

# file: d one/n\\012l
# owner: root
# group: staff
user::rw-
group::r--
other::r--

# file: d one/a b
# owner: alice
# group: ops
# flags: ss-
user::rwx
user:bob:rw-\t#effective:r--
group::r-x\t#effective:r--
group:staff:r--
mask::r--
other::r-x

# file: d one/b\\\\s
# owner: 1002
# group: 70
user::rw-
group::r--
other::r--

";

const FOLDER_REPORTS: &[u8] =
    b"1 d one 0 0 u::rwx,g::rwx,o::rwx default u::rwx,u:1000:rwx,g::rwx,m::rwx,o::rwx sticky
14 d one/n\\012l 0 50 u::rw-,g::r--,o::r--
21 d one/a b 1000 60 u::rwx,u:1001:rw-,g::r-x,g:50:r--,m::r--,o::r-x set-user-id set-group-id
32 d one/b\\\\s 1002 70 u::rw-,g::r--,o::r--
";

#[test]
fn a_folder(rt: HostRuntime) -> Result<(), Fail> {
    assert!(rt; reports(rt.alloc(), FOLDER, FOLDER_REPORTS));
    Ok(())
}

#[test]
fn by_numbers(rt: HostRuntime) -> Result<(), Fail> {
    // As `getfacl -n` writes it: ids that no one has are ids.
    let block = b"# file: x\n# owner: 12345\n# group: 54321\nuser::rwx\nuser:77:r--\ngroup::---\n\
        group:88:-w-\nmask::rw-\nother::--x";
    let wanted = b"x 12345 54321 u::rwx,u:77:r--,g::---,g:88:-w-,m::rw-,o::--x";
    assert!(rt; block_reports(rt.alloc(), block, wanted));
    Ok(())
}

#[test]
fn paths_as_they_stand(rt: HostRuntime) -> Result<(), Fail> {
    let alloc = rt.alloc();
    // Bytes that are no text, blanks at the ends, a name that begins with the word.
    let block = b"# file:  \xff\xe9 # \t\n# owner: 0\n# group: 0\nu::r,g::w,o::x";
    assert!(rt; block_reports(alloc, block, b" \xff\xe9 # \t 0 0 u::r--,g::-w-,o::--x"));
    let block = b"# file: # file: \n# owner: 0\n# group: 0\nu::r,g::w,o::x";
    assert!(rt; block_reports(alloc, block, b"# file:  0 0 u::r--,g::-w-,o::--x"));
    // The word with a capital F.
    let block = b"# File: # File: x\n# owner: 0\n# group: 0\nu::r,g::w,o::x";
    assert!(rt; block_reports(alloc, block, b"# File: x 0 0 u::r--,g::-w-,o::--x"));
    // A carriage return is a byte of its line.
    let block = b"# file: x\r\n# owner: 0\n# group: 0\nu::r,g::w,o::x";
    assert!(rt; block_reports(alloc, block, b"x\r 0 0 u::r--,g::-w-,o::--x"));
    Ok(())
}

#[test]
fn default_lists(rt: HostRuntime) -> Result<(), Fail> {
    let alloc = rt.alloc();
    // Their lines may stand anywhere behind the header.
    let block = b"# file: x\n# owner: 0\n# group: 0\ndefault:user::rwx # all\nuser::rwx\n\
        default:group::rwx\ngroup::r-x\nother::---\ndefault:other::--x";
    assert!(rt;
        block_reports(
            alloc,
            block,
            b"x 0 0 u::rwx,g::r-x,o::--- default u::rwx,g::rwx,o::--x"
        )
    );
    // One that is malformed is a fault of the block, as an access list is, but after it.
    let block = b"# file: x\n# owner: 0\n# group: 0\nu::r,g::w,o::x\ndefault:user:dave:rwx";
    assert!(rt; block_reports(alloc, block, b"fault unknown-name x"));
    let block = b"# file: x\n# owner: 0\n# group: 0\ndefault:user:dave:rwx\nu::r,g::w,o:x:x";
    assert!(rt; block_reports(alloc, block, b"fault bad-acl x"));
    let block = b"# file: x\n# owner: 0\n# group: 0\nu::r,g::w,o::x\ndefault:user::rwx";
    assert!(rt; block_reports(alloc, block, b"fault invalid-acl x"));
    // A blank before the word makes another line of it, and so does a comment.
    let block = b"# file: x\n# owner: 0\n# group: 0\n default:user::rwx\nuser::rwx\n\
        group::r-x\nother::---";
    assert!(rt; block_reports(alloc, block, b"fault bad-acl x"));
    let block = b"# file: x\n# owner: 0\n# group: 0\n#default:user::rwx\nuser::rwx\n\
        group::r-x\nother::---";
    assert!(rt; block_reports(alloc, block, b"x 0 0 u::rwx,g::r-x,o::---"));
    Ok(())
}

#[test]
fn flags(rt: HostRuntime) -> Result<(), Fail> {
    let alloc = rt.alloc();
    let block = b"# file: x\n# owner: 0\n# group: 0\n# flags: -s-\nu::r,g::w,o::x";
    assert!(rt; block_reports(alloc, block, b"x 0 0 u::r--,g::-w-,o::--x set-group-id"));
    // A comment in another place or of another form reports none.
    let block = b"# file: x\n# owner: 0\n# group: 0\nu::r,g::w,o::x\n# flags: -s-";
    assert!(rt; block_reports(alloc, block, b"x 0 0 u::r--,g::-w-,o::--x"));
    let block = b"# file: x\n# owner: 0\n# group: 0\n# flags: st\nu::r,g::w,o::x";
    assert!(rt; block_reports(alloc, block, b"x 0 0 u::r--,g::-w-,o::--x"));
    let block = b"# file: x\n# owner: 0\n# group: 0\n# flags: t--\nu::r,g::w,o::x";
    assert!(rt; block_reports(alloc, block, b"x 0 0 u::r--,g::-w-,o::--x"));
    Ok(())
}
