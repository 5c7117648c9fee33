//! Calls that may run out of memory: one failed allocation, wherever it falls, is reported by the
//! call in which it falls, and the call may be made again.
//!
//! `rt try --test --fail-alloc N` fails allocation N of a test. Each test here passes whichever
//! growth that is, and prints how many failures it saw: one up to the last allocation that it asks
//! for, and none from then on.
use crate::host::HOST;
use acl_accounts::{Accounts, AccountsFault, WrittenAccount, push_name};
use arrayvec::ArrayVec;
use std::alloc::Global;
use std::test::Fail;
use tests_common::Refusals;

/// How many users and groups the host has; none if memory ran out.
fn counts_of(alloc: Global) -> Option<(usize, usize)> {
    match Accounts::read(alloc, HOST) {
        Ok(accounts) => Some((accounts.users().len(), accounts.groups().len())),
        Err(AccountsFault::Memory) => None,
        Err(_) => Some((0, 0)),
    }
}

#[test]
fn accounts_under_a_refused_growth(rt: HostRuntime) -> Result<(), Fail> {
    let alloc = rt.alloc();
    let mut refusals = Refusals::new();
    let counts = refusals.again(|| counts_of(alloc));
    assert_eq!(rt; counts, Some((4, 5)));
    println!(rt; "refusals: {}", refusals.reported())?;
    Ok(())
}

/// Whether a name is read from its octal digits, and printed by them again.
fn reads_and_prints(alloc: Global) -> Option<bool> {
    const TEXT: &[u8] = b"CORP\\134domain\\040users\\040with\\040a\\040long\\040name";
    let mut room = ArrayVec::new();
    let Some(WrittenAccount::Name(name)) = WrittenAccount::read(TEXT, &mut room) else {
        return Some(false);
    };
    let mut out = Vec::new(alloc);
    push_name(name, &mut out).ok()?;
    Some(out.as_slice() == TEXT)
}

#[test]
fn names_under_a_refused_growth(rt: HostRuntime) -> Result<(), Fail> {
    let alloc = rt.alloc();
    let mut refusals = Refusals::new();
    let same = refusals.again(|| reads_and_prints(alloc));
    assert_eq!(rt; same, Some(true));
    println!(rt; "refusals: {}", refusals.reported())?;
    Ok(())
}
