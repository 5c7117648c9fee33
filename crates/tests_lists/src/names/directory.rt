//! Tests of directories.
use acl_names::{Directory, Gid, Group, Requester, SetupFault, Uid, User};
use std::alloc::Global;
use tests_common::{directory, group, user};

/// Why these users and groups are refused, in this domain.
fn fault(
    alloc: Global,
    domain: &str,
    users: Vec<User>,
    groups: Vec<Group>,
) -> Option<Option<SetupFault>> {
    let domain = String::from_str(alloc, domain).ok()?;
    Some(Directory::from_parts(alloc, domain, users, groups).err())
}

/// The number as a name.
fn numbered(alloc: Global, number: u32) -> Option<String> {
    format!(in alloc; "n{number}").ok()
}

/// So many users, in no group.
fn users_up_to(alloc: Global, count: u32) -> Option<Vec<User>> {
    let mut users = Vec::new(alloc);
    for number in 0..count {
        let name = numbered(alloc, number)?;
        users.push(user(alloc, name.as_str(), number, &[])?).ok()?;
    }
    Some(users)
}

/// So many groups.
fn groups_up_to(alloc: Global, count: u32) -> Option<Vec<Group>> {
    let mut groups = Vec::new(alloc);
    for number in 0..count {
        let name = numbered(alloc, number)?;
        groups.push(group(alloc, name.as_str(), number)?).ok()?;
    }
    Some(groups)
}

/// A user in all of so many groups.
fn user_in(alloc: Global, count: u32) -> Option<User> {
    let mut user = user(alloc, "dora", 7, &[])?;
    for number in 0..count {
        user.groups.push(numbered(alloc, number)?).ok()?;
    }
    Some(user)
}

/// How many groups who asks has, who is in all of so many groups.
fn groups_of_requester(alloc: Global, count: u32) -> Option<usize> {
    let domain = String::from_str(alloc, "example.org").ok()?;
    let mut users = Vec::new(alloc);
    users.push(user_in(alloc, count)?).ok()?;
    let groups = groups_up_to(alloc, count)?;
    let directory = Directory::from_parts(alloc, domain, users, groups).ok()?;
    let requester = directory.requester(alloc, Uid::new(7)?).ok()?;
    Some(requester.gids().len())
}

/// Why so many users are refused, and why so many groups in which nobody is.
fn faults_of_many(alloc: Global, count: u32) -> Option<[Option<SetupFault>; 2]> {
    let users = users_up_to(alloc, count)?;
    let first = fault(alloc, "example.org", users, Vec::new(alloc))?;
    let groups = groups_up_to(alloc, count)?;
    Some([first, fault(alloc, "example.org", Vec::new(alloc), groups)?])
}

/// Whether the gid is that of this number; where there is none, whether none is wanted.
fn is_gid(gid: Option<Gid>, wanted: Option<u32>) -> bool {
    match gid {
        Some(gid) => Some(gid.value()) == wanted,
        None => wanted.is_none(),
    }
}

/// Whether the directory finds bob, ops, carol's name and guest's, and has the domain.
fn finds(alloc: Global, domain: &str) -> Option<[bool; 5]> {
    let carol = Uid::new(1002)?;
    let guest = Gid::new(70)?;
    let directory = directory(alloc)?;
    Some([
        directory.uid_of("bob") == Uid::new(1001),
        directory.gid_of("ops") == Gid::new(60),
        directory.user_name(carol) == Some("carol"),
        directory.group_name(guest) == Some("guest"),
        directory.domain() == domain,
    ])
}

#[test]
fn finds_users_and_groups(rt: HostRuntime) {
    assert_eq!(rt; finds(rt.alloc(), "example.org"), Some([true; 5]));
}

/// Whether who asks is this user, in the groups of these numbers.
fn is_in(requester: &Requester, uid: Uid, gids: &[u32]) -> bool {
    let mut wanted = gids.iter();
    for gid in requester.gids() {
        if wanted.next() != Some(&gid.value()) {
            return false;
        }
    }
    requester.uid() == uid && wanted.next().is_none()
}

/// Whether who asks as this user is in these groups; is in ops, and in guest; whether the first of
/// them is that of new files; and whether who is ready to ask is in the same, or isn't there if
/// there are none.
fn asks(alloc: Global, uid: u32, gids: &[u32]) -> Option<[bool; 5]> {
    let uid = Uid::new(uid)?;
    let ops = Gid::new(60)?;
    let guest = Gid::new(70)?;
    let directory = directory(alloc)?;
    let requester = directory.requester(alloc, uid).ok()?;
    Some([
        is_in(&requester, uid, gids),
        requester.is_in_group(ops),
        requester.is_in_group(guest),
        is_gid(directory.first_group(uid), gids.first().copied()),
        match directory.requester_of(uid) {
            Some(ready) => is_in(ready, uid, gids),
            None => gids.is_empty(),
        },
    ])
}

#[test]
fn a_requester_has_the_groups_of_its_user(rt: HostRuntime) {
    let bob = asks(rt.alloc(), 1001, &[50, 60]);
    assert_eq!(rt; bob, Some([true, true, false, true, true]));
    let nobody = asks(rt.alloc(), 7, &[]);
    assert_eq!(rt; nobody, Some([true, false, false, true, true]));
}

/// With ample memory a requester is made of each number of groups that there may be.
#[test]
fn requesters_of_each_number_of_groups(rt: HostRuntime) {
    for count in 0..33 {
        let groups = groups_of_requester(rt.alloc(), count);
        assert_eq!(rt; groups, Some(count as usize), "{count} groups");
    }
}

/// With ample memory a directory is made of few users or groups, of many, and of as many as there
/// may be.
#[test]
fn directories_of_few_of_many_and_of_too_many(rt: HostRuntime) {
    const ROWS: [(u32, Option<SetupFault>); 8] = [
        (0, None),
        (1, None),
        (2, None),
        (10, None),
        (100, None),
        (1000, None),
        (1024, None),
        (1025, Some(SetupFault::TooMany)),
    ];
    for (count, wanted) in ROWS {
        let refused = faults_of_many(rt.alloc(), count);
        assert_eq!(rt; refused, Some([wanted; 2]), "{count}");
    }
}
