//! The users and groups of the worked examples; none if memory is refused.
use acl_names::{Directory, Gid, Group, Uid, User};
use std::alloc::Global;

/// The names, one after the other.
fn texts(alloc: Global, names: &[&str]) -> Option<Vec<String>> {
    let mut texts = Vec::with_capacity(alloc, names.len()).ok()?;
    for name in names {
        texts.push(String::from_str(alloc, name).ok()?).ok()?;
    }
    Some(texts)
}

/// A user, and the names of its groups.
pub fn user(alloc: Global, name: &str, uid: u32, groups: &[&str]) -> Option<User> {
    let uid = Uid::new(uid)?;
    let name = String::from_str(alloc, name).ok()?;
    let groups = texts(alloc, groups)?;
    Some(User { name, uid, groups })
}

/// A group.
pub fn group(alloc: Global, name: &str, gid: u32) -> Option<Group> {
    let gid = Gid::new(gid)?;
    let name = String::from_str(alloc, name).ok()?;
    Some(Group { name, gid })
}

/// root, alice, bob and carol.
pub fn users(alloc: Global) -> Option<Vec<User>> {
    let mut users = Vec::with_capacity(alloc, 4).ok()?;
    users.push(user(alloc, "root", 0, &["root"])?).ok()?;
    users.push(user(alloc, "alice", 1000, &["staff"])?).ok()?;
    users
        .push(user(alloc, "bob", 1001, &["staff", "ops"])?)
        .ok()?;
    users.push(user(alloc, "carol", 1002, &["guest"])?).ok()?;
    Some(users)
}

/// root, staff, ops and guest.
pub fn groups(alloc: Global) -> Option<Vec<Group>> {
    let mut groups = Vec::with_capacity(alloc, 4).ok()?;
    groups.push(group(alloc, "root", 0)?).ok()?;
    groups.push(group(alloc, "staff", 50)?).ok()?;
    groups.push(group(alloc, "ops", 60)?).ok()?;
    groups.push(group(alloc, "guest", 70)?).ok()?;
    Some(groups)
}

/// The directory of example.org, of these users and groups.
pub fn directory(alloc: Global) -> Option<Directory> {
    let domain = String::from_str(alloc, "example.org").ok()?;
    let users = users(alloc)?;
    let groups = groups(alloc)?;
    Directory::from_parts(alloc, domain, users, groups).ok()
}
