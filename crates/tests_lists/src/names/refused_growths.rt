//! Calls that may run out of memory: one failed allocation, wherever it falls, is reported by the
//! call in which it falls, and the call may be made again.
//!
//! `rt try --test --fail-alloc N` fails allocation N of a test. Each test here passes whichever
//! growth that is, and prints how many failures it saw: one up to the last allocation that it asks
//! for, and none from then on. The parts of a directory grow before the call that is looked at, so
//! a failure among them is reported by the part.
use acl_names::{Asker, Directory, Gid, SetupFault, Uid, push_id};
use std::alloc::Global;
use std::test::Fail;
use tests_common::{Refusals, groups, user, users};

/// The directory of the examples, or the fault of the call; none where a part of it was refused
/// memory.
fn attempt(alloc: Global) -> Option<Result<Directory, SetupFault>> {
    let domain = String::from_str(alloc, "example.org").ok()?;
    let users = users(alloc)?;
    let groups = groups(alloc)?;
    Some(Directory::from_parts(alloc, domain, users, groups))
}

/// The directory of the examples, at the second attempt if the first is refused; none if another
/// answer took the place of Memory, or the second is refused, too.
fn directory_again(alloc: Global, refusals: &mut Refusals) -> Option<Directory> {
    match attempt(alloc) {
        Some(Ok(directory)) => return Some(directory),
        None | Some(Err(SetupFault::Memory)) => refusals.one_more(),
        Some(Err(_)) => return None,
    }
    attempt(alloc)?.ok()
}

/// Bob's number in that directory.
fn uid_of_bob(alloc: Global, refusals: &mut Refusals) -> Option<u32> {
    let directory = directory_again(alloc, refusals)?;
    Some(directory.uid_of("bob")?.value())
}

#[test]
fn from_parts_under_a_refused_growth(rt: HostRuntime) -> Result<(), Fail> {
    let mut refusals = Refusals::new();
    assert_eq!(rt; uid_of_bob(rt.alloc(), &mut refusals), Some(1001));
    println!(rt; "refusals: {}", refusals.reported())?;
    Ok(())
}

/// Why lists with a fault are refused; none where a part was refused memory.
fn faulty(alloc: Global) -> Option<Option<SetupFault>> {
    let domain = String::from_str(alloc, "example.org").ok()?;
    let mut users = users(alloc)?;
    users.push(user(alloc, "dora", 7, &["wheel"])?).ok()?;
    Some(Directory::from_parts(alloc, domain, users, groups(alloc)?).err())
}

#[test]
fn a_fault_is_reported_before_memory(rt: HostRuntime) -> Result<(), Fail> {
    let alloc = rt.alloc();
    let mut refusals = Refusals::new();
    let found = refusals.again(|| faulty(alloc));
    assert_eq!(rt; found, Some(Some(SetupFault::UnknownGroup)));
    println!(rt; "refusals: {}", refusals.reported())?;
    Ok(())
}

/// How many groups bob asks with, at the second attempt if the first is refused.
fn requester_again(alloc: Global, refusals: &mut Refusals) -> Option<usize> {
    let bob = Uid::new(1001)?;
    let directory = directory_again(alloc, refusals)?;
    let requester = refusals.again(|| directory.requester(alloc, bob).ok())?;
    Some(requester.gids().len())
}

#[test]
fn requester_under_a_refused_growth(rt: HostRuntime) -> Result<(), Fail> {
    let mut refusals = Refusals::new();
    assert_eq!(rt; requester_again(rt.alloc(), &mut refusals), Some(2));
    println!(rt; "refusals: {}", refusals.reported())?;
    Ok(())
}

/// How many groups an asker in two has as a requester, at the second attempt if the first is
/// refused.
fn asker_again(alloc: Global, refusals: &mut Refusals) -> Option<usize> {
    let asker = Asker {
        uid: Uid::new(1001)?,
        gid: Gid::new(50),
        other_gid: Gid::new(60),
    };
    let requester = refusals.again(|| asker.requester(alloc).ok())?;
    Some(requester.gids().len())
}

#[test]
fn asker_under_a_refused_growth(rt: HostRuntime) -> Result<(), Fail> {
    let mut refusals = Refusals::new();
    assert_eq!(rt; asker_again(rt.alloc(), &mut refusals), Some(2));
    println!(rt; "refusals: {}", refusals.reported())?;
    Ok(())
}

/// Whether the number is put as its digits, at the second attempt if the first is refused.
fn is_id_again(alloc: Global, id: u32, digits: &str, refusals: &mut Refusals) -> bool {
    let mut out = Vec::new(alloc);
    let mut put = push_id(None, id, &mut out).is_ok();
    if !put {
        refusals.one_more();
        put = push_id(None, id, &mut out).is_ok();
    }
    put && out.as_slice() == digits.as_bytes()
}

#[test]
fn push_id_under_a_refused_growth(rt: HostRuntime) -> Result<(), Fail> {
    let mut refusals = Refusals::new();
    let put = is_id_again(rt.alloc(), 4294967294, "4294967294", &mut refusals);
    assert!(rt; put);
    println!(rt; "refusals: {}", refusals.reported())?;
    Ok(())
}
