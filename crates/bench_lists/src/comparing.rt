//! Comparisons for everyone.
use crate::{aces_of, acl_of};
use acl_bridge::{posix_difference, whole_request_difference};
use acl_names::{Gid, Uid};
use acl_nfs4::{Mask, Owners};
use acl_posix::Acl;
use bitflags::Flags;
use std::alloc::Global;

/// The owners of the files.
fn owners() -> Option<Owners> {
    Some(Owners {
        owner: Uid::new(1)?,
        group: Gid::new(2)?,
    })
}

fn times_aces_compared(alloc: Global, first: &[u8], second: &[u8], rounds: u32) -> Option<u64> {
    let first = aces_of(alloc, first)?;
    let second = aces_of(alloc, second)?;
    let owners = owners()?;
    let mut alike: u64 = 0;
    for _ in 0..rounds {
        if first
            .difference(&owners, &second, &owners, Mask::all())
            .is_none()
        {
            alike = alike.wrapping_add(1);
        }
    }
    Some(alike)
}

/// Whether each permission by itself is granted to the same requesters.
fn are_alike(alloc: Global, first: &Acl, second: &Acl) -> Option<bool> {
    let owners = owners()?;
    match posix_difference(alloc, first, &owners, second, &owners) {
        Ok(found) => Some(found.is_none()),
        Err(_) => None,
    }
}

/// Whether requests of several permissions are.
fn are_alike_as_a_whole(first: &Acl, second: &Acl) -> Option<bool> {
    let owners = owners()?;
    Some(whole_request_difference(first, &owners, second, &owners).is_none())
}

fn times_compared(alloc: Global, first: &[u8], second: &[u8], rounds: u32) -> Option<u64> {
    let first = acl_of(alloc, first)?;
    let second = acl_of(alloc, second)?;
    let mut alike: u64 = 0;
    for _ in 0..rounds {
        alike = alike.wrapping_add(u64::from(are_alike(alloc, &first, &second)?));
    }
    Some(alike)
}

fn times_compared_whole(alloc: Global, first: &[u8], second: &[u8], rounds: u32) -> Option<u64> {
    let first = acl_of(alloc, first)?;
    let second = acl_of(alloc, second)?;
    let mut alike: u64 = 0;
    for _ in 0..rounds {
        alike = alike.wrapping_add(u64::from(are_alike_as_a_whole(&first, &second)?));
    }
    Some(alike)
}

/// Compares two NFSv4 lists in all bits `rounds` times, and answers how often they were alike.
#[unsafe(no_mangle)]
pub extern "C" fn aces_times_compared(
    alloc: Global,
    first: &[u8],
    second: &[u8],
    rounds: u32,
) -> u64 {
    times_aces_compared(alloc, first, second, rounds).unwrap_or(0)
}

/// The same of two POSIX lists, in each permission by itself.
#[unsafe(no_mangle)]
pub extern "C" fn acl_times_compared(
    alloc: Global,
    first: &[u8],
    second: &[u8],
    rounds: u32,
) -> u64 {
    times_compared(alloc, first, second, rounds).unwrap_or(0)
}

/// The same in the requests of several permissions, each as a whole.
#[unsafe(no_mangle)]
pub extern "C" fn acl_times_compared_whole(
    alloc: Global,
    first: &[u8],
    second: &[u8],
    rounds: u32,
) -> u64 {
    times_compared_whole(alloc, first, second, rounds).unwrap_or(0)
}
