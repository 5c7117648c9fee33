//! Lists that name users of a directory.
use acl_names::{Directory, Uid, User};
use acl_nfs4::read_aces;
use acl_posix::read_entries;
use std::alloc::Global;

/// The users of these names, one a line, with uids from 10,000 on, in the domain `local`.
fn directory_of(alloc: Global, names: &[u8]) -> Option<Directory> {
    let mut users = Vec::new(alloc);
    let mut uid: u32 = 10_000;
    for name in str::from_utf8(names).ok()?.split('\n') {
        let user = User {
            name: String::from_str(alloc, name).ok()?,
            uid: Uid::new(uid)?,
            groups: Vec::new(alloc),
        };
        users.push(user).ok()?;
        uid = uid.wrapping_add(1);
    }
    let domain = String::from_str(alloc, "local").ok()?;
    Directory::from_parts(alloc, domain, users, Vec::new(alloc)).ok()
}

fn times_read(alloc: Global, names: &[u8], text: &[u8], rounds: u32) -> Option<u64> {
    let directory = directory_of(alloc, names)?;
    let mut sum: u64 = 0;
    for _ in 0..rounds {
        let entries = read_entries(alloc, text, &directory).ok()?;
        sum = sum.wrapping_add(entries.as_slice().len() as u64);
    }
    Some(sum)
}

fn times_aces_read(alloc: Global, names: &[u8], text: &[u8], rounds: u32) -> Option<u64> {
    let directory = directory_of(alloc, names)?;
    let mut sum: u64 = 0;
    for _ in 0..rounds {
        let acl = read_aces(alloc, text, &directory).ok()?;
        sum = sum.wrapping_add(acl.aces().len() as u64);
    }
    Some(sum)
}

/// Reads the text of a POSIX list `rounds` times, with a directory of these names.
#[unsafe(no_mangle)]
pub extern "C" fn acl_times_names_read(
    alloc: Global,
    names: &[u8],
    text: &[u8],
    rounds: u32,
) -> u64 {
    times_read(alloc, names, text, rounds).unwrap_or(0)
}

/// The same of NFSv4 entries.
#[unsafe(no_mangle)]
pub extern "C" fn aces_times_names_read(
    alloc: Global,
    names: &[u8],
    text: &[u8],
    rounds: u32,
) -> u64 {
    times_aces_read(alloc, names, text, rounds).unwrap_or(0)
}
