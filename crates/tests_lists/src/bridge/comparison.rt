//! Lists compared for everyone: the file is alice's, whose uid is 1000, and the group's staff. What
//! a comparison reports is tested where it is printed, in acl_queries.
use crate::files::owner_and_group;
use acl_bridge::request_difference;
use acl_names::Gid;
use acl_nfs4::Owners;
use acl_posix::Perms;
use std::alloc::Global;
use tests_common::acl;

/// Whether the first of two lists grants the permissions together, and the groups of whom the
/// second treats otherwise; none where nobody is.
type Reported = Option<(bool, [Option<Gid>; 2])>;

/// What is reported for the two lists.
fn reported(alloc: Global, first: &str, second: &str, request: Perms) -> Option<Reported> {
    let (alice, staff) = owner_and_group()?;
    let before = acl(alloc, first)?;
    let after = acl(alloc, second)?;
    let owners = Owners {
        owner: alice,
        group: staff,
    };
    match request_difference(&before, &owners, &after, &owners, request) {
        Some(it) => Some(Some((it.before, [it.asker.gid, it.asker.other_gid]))),
        None => Some(None),
    }
}

/// A list whose groups may read and write by turns.
const DIVIDED: &str = "u::-,g::r,g:ops:w,m::rw,o::-";

/// In staff and ops one may read and write by turns, but not at once.
#[test]
fn reading_and_writing_at_once(rt: HostRuntime) {
    let joined = "u::-,g::r,g:ops:rw,m::rw,o::-";
    let both = Perms::READ | Perms::WRITE;
    let alike = reported(rt.alloc(), DIVIDED, DIVIDED, both);
    assert_eq!(rt; alike, Some(None));
    let found = reported(rt.alloc(), DIVIDED, joined, both);
    let groups = [Gid::new(50), Gid::new(60)];
    assert_eq!(rt; found, Some(Some((false, groups))));
}
