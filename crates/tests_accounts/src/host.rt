//! What is known of a host, by what `getent passwd` and `getent group` print of it.
use acl_accounts::{Account, AccountGroup, Accounts, WrittenAccount};
use acl_names::{Gid, Requester, Uid};
use arrayvec::ArrayVec;
use std::alloc::Global;

/// A host with a directory service: names with a domain, blanks and an `@`, two users of one uid,
/// a name that comes twice, and lines of two files in no order.
pub(crate) const HOST: &[u8] = b"root:x:0:0:root:/root:/bin/bash
# a comment: with:six:colons:in:it:1
+::::::
-nobody::::::

domain users:x:100:
CORP\\alice:*:1001:100:Alice,,,:/home/alice:/bin/bash
wheel:x:10:root,CORP\\alice
bob@corp.example:x:1002:100::/:/bin/sh
toor:x:0:5::/root:/bin/sh
staff:x:50:bob@corp.example,root,bob@corp.example
also:x:10:bob@corp.example,toor
bob@corp.example:x:7:7::/:/bin/sh
root:x:0:
staff:x:51:CORP\\alice
";

/// The row of a user: name, uid and gids.
type Row = (&'static str, u32, &'static [u32]);

/// The users in the order of their names' bytes: capitals come first.
const USERS: [Row; 4] = [
    ("CORP\\alice", 1001, &[100, 10, 51]),
    ("bob@corp.example", 1002, &[100, 50, 10]),
    ("root", 0, &[0, 10, 50]),
    ("toor", 0, &[5, 10]),
];

fn are_gids(gids: &[Gid], wanted: &[u32]) -> bool {
    if gids.len() != wanted.len() {
        return false;
    }
    for place in 0..gids.len() {
        if gids[place].value() != wanted[place] {
            return false;
        }
    }
    true
}

fn is_user(user: &Account, requester: &Requester, row: &Row) -> bool {
    user.name() == row.0.as_bytes()
        && user.uid().value() == row.1
        && row.2.first().copied() == Some(user.gid().value())
        && requester.uid().value() == row.1
        && are_gids(requester.gids(), row.2)
}

/// How many users there are, if those of the rows are the first.
fn count_of_users(accounts: &Accounts, rows: &[Row]) -> Option<usize> {
    for place in 0..rows.len() {
        let user = accounts.users().get(place)?;
        let requester = accounts.requesters().get(place)?;
        if !is_user(user, requester, &rows[place]) {
            return None;
        }
    }
    Some(accounts.users().len())
}

fn users_of(alloc: Global, text: &[u8], rows: &[Row]) -> Option<usize> {
    let accounts = Accounts::read(alloc, text).ok()?;
    count_of_users(&accounts, rows)
}

/// Each user stands in the order of names, with the groups in the order of the file, each once.
#[test]
fn users_of_a_host(rt: HostRuntime) {
    assert_eq!(rt; users_of(rt.alloc(), HOST, &USERS), Some(4));
}

/// White space, members that are empty, and a carriage return, as somebody's files may have them.
const SPACED: &[u8] = b"  alice:x: 1001:\t100:::
bob:x:1002:100::/:/bin/sh

staff:x:50:alice, bob
\twheel:x: 10:,\x0bbob,, ,alice\x20
  lead:x:11:\x0c\tbob
 # staff:x:7
tail:x:12:bob,\r
";

/// What `id -G` of glibc reports for them.
const SPACED_USERS: [Row; 2] = [
    ("alice", 1001, &[100, 50]),
    ("bob", 1002, &[100, 50, 10, 11, 12]),
];

/// White space before a line, a number or a member is skipped, and that behind a member is its own.
#[test]
fn users_behind_white_space(rt: HostRuntime) {
    assert_eq!(rt; users_of(rt.alloc(), SPACED, &SPACED_USERS), Some(2));
}

fn is_group(group: &AccountGroup, name: &str, gid: u32) -> bool {
    group.name() == name.as_bytes() && group.gid().value() == gid
}

fn count_of_groups(alloc: Global, rows: &[(&str, u32)]) -> Option<usize> {
    let accounts = Accounts::read(alloc, HOST).ok()?;
    for place in 0..rows.len() {
        if !is_group(accounts.groups().get(place)?, rows[place].0, rows[place].1) {
            return None;
        }
    }
    Some(accounts.groups().len())
}

/// A group's name that comes twice counts by its first line.
#[test]
fn groups_of_a_host(rt: HostRuntime) {
    const GROUPS: [(&str, u32); 5] = [
        ("also", 10),
        ("domain users", 100),
        ("root", 0),
        ("staff", 50),
        ("wheel", 10),
    ];
    assert_eq!(rt; count_of_groups(rt.alloc(), &GROUPS), Some(5));
}

/// The numbers of what a text names: as a user, and as a group.
fn numbers_of(alloc: Global, text: &str) -> Option<(Option<u32>, Option<u32>)> {
    let accounts = Accounts::read(alloc, HOST).ok()?;
    let mut room = ArrayVec::new();
    let written = WrittenAccount::read(text.as_bytes(), &mut room)?;
    let uid = accounts.uid(written).map(Uid::value);
    let gid = accounts.gid(written).map(Gid::value);
    Some((uid, gid))
}

/// Names and ids as `getfacl` writes them.
#[test]
fn ids_of_what_is_written(rt: HostRuntime) {
    const ROWS: [(&str, Option<u32>, Option<u32>); 11] = [
        ("CORP\\134alice", Some(1001), None),
        ("CORP\\alice", Some(1001), None),
        ("CORP\\\\alice", Some(1001), None),
        ("domain\\040users", None, Some(100)),
        ("bob@corp.example", Some(1002), None),
        ("bob\\100corp.example", Some(1002), None),
        ("root", Some(0), Some(0)),
        ("staff", None, Some(50)),
        // What isn't in the accounts is decided by its id, and a name there is only a name.
        ("4711", Some(4711), Some(4711)),
        ("nobody", None, None),
        ("Root", None, None),
    ];
    for (text, uid, gid) in ROWS {
        assert_eq!(rt; numbers_of(rt.alloc(), text), Some((uid, gid)), "{text}");
    }
}

fn place_of(alloc: Global, text: &str) -> Option<Option<usize>> {
    let accounts = Accounts::read(alloc, HOST).ok()?;
    let mut room = ArrayVec::new();
    let written = WrittenAccount::read(text.as_bytes(), &mut room)?;
    Some(accounts.user_place(written))
}

/// Two users of one uid are two, and the uid alone is the first one's.
#[test]
fn places_of_what_is_written(rt: HostRuntime) {
    const ROWS: [(&str, Option<usize>); 6] = [
        ("root", Some(2)),
        ("toor", Some(3)),
        ("0", Some(2)),
        ("1002", Some(1)),
        ("7", None),
        ("staff", None),
    ];
    for (text, wanted) in ROWS {
        assert_eq!(rt; place_of(rt.alloc(), text), Some(wanted), "{text}");
    }
}

fn is_named(name: Option<&[u8]>, wanted: Option<&str>) -> bool {
    match (name, wanted) {
        (Some(name), Some(wanted)) => name == wanted.as_bytes(),
        (None, None) => true,
        _ => false,
    }
}

fn are_names(alloc: Global, id: u32, user: Option<&str>, group: Option<&str>) -> Option<bool> {
    let accounts = Accounts::read(alloc, HOST).ok()?;
    let user_is = is_named(accounts.user_name(Uid::new(id)?), user);
    Some(user_is && is_named(accounts.group_name(Gid::new(id)?), group))
}

/// An id that several names have is named by the first of them.
#[test]
fn names_of_ids(rt: HostRuntime) {
    const ROWS: [(u32, Option<&str>, Option<&str>); 6] = [
        (0, Some("root"), Some("root")),
        (10, None, Some("also")),
        (1001, Some("CORP\\alice"), None),
        (100, None, Some("domain users")),
        (7, None, None),
        (51, None, None),
    ];
    for (id, user, group) in ROWS {
        assert_eq!(rt; are_names(rt.alloc(), id, user, group), Some(true), "{id}");
    }
}
