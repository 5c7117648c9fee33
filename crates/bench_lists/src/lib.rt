//! The calls that a C program times: each prepares once, does its work a number of times, and
//! answers how often it came to something. Nothing here is part of the service.
#![tactic(auto)]

mod allocations;
mod changes;
mod comparing;
mod names;
mod valid;

use acl_names::{Directory, Gid, Requester, Uid};
use acl_nfs4::{Acl4, mask_of, read_aces};
use acl_posix::{Acl, Perms, read_entries};
use bitflags::Flags;
use std::alloc::Global;

fn no_names(alloc: Global) -> Option<Directory> {
    let domain = String::from_str(alloc, "local").ok()?;
    Directory::from_parts(alloc, domain, Vec::new(alloc), Vec::new(alloc)).ok()
}

fn acl_of(alloc: Global, text: &[u8]) -> Option<Acl> {
    let names = no_names(alloc)?;
    let entries = read_entries(alloc, text, &names).ok()?;
    Acl::new(entries).ok()
}

fn requester(alloc: Global, uid: u32, gids: &[u32]) -> Option<Requester> {
    let mut own = Vec::new(alloc);
    for gid in gids {
        own.push(Gid::new(*gid)?).ok()?;
    }
    Some(Requester::new(Uid::new(uid)?, own))
}

/// How long the output is, which goes to the caller.
fn copied(out: &Vec<u8>, printed: &mut [u8]) -> Option<usize> {
    if out.len() > printed.len() {
        return None;
    }
    let mut left = printed.iter_mut();
    for byte in out.iter() {
        if let Some(place) = left.next() {
            *place = *byte;
        }
    }
    Some(out.len())
}

fn times_read(alloc: Global, text: &[u8], rounds: u32) -> Option<u64> {
    let names = no_names(alloc)?;
    let mut sum: u64 = 0;
    for _ in 0..rounds {
        let entries = read_entries(alloc, text, &names).ok()?;
        sum = sum.wrapping_add(entries.as_slice().len() as u64);
    }
    Some(sum)
}

fn times_made(alloc: Global, text: &[u8], rounds: u32) -> Option<u64> {
    let names = no_names(alloc)?;
    let mut sum: u64 = 0;
    for _ in 0..rounds {
        let entries = read_entries(alloc, text, &names).ok()?;
        let acl = Acl::new(entries).ok()?;
        sum = sum.wrapping_add(acl.entries().len() as u64);
    }
    Some(sum)
}

fn times_printed(alloc: Global, text: &[u8], rounds: u32) -> Option<u64> {
    let names = no_names(alloc)?;
    let acl = acl_of(alloc, text)?;
    let mut sum: u64 = 0;
    for _ in 0..rounds {
        let mut out = Vec::new(alloc);
        acl.print_effective(&names, &mut out).ok()?;
        sum = sum.wrapping_add(out.len() as u64);
    }
    Some(sum)
}

fn times_checked(
    alloc: Global,
    text: &[u8],
    first_uid: u32,
    uids: u32,
    gids: &[u32],
    rounds: u32,
) -> Option<u64> {
    let acl = acl_of(alloc, text)?;
    let owner = Uid::new(1)?;
    let group = Gid::new(2)?;
    let mut requesters = Vec::new(alloc);
    for nth in 0..uids {
        let who = requester(alloc, first_uid.wrapping_add(nth), gids)?;
        requesters.push(who).ok()?;
    }
    let mut sum: u64 = 0;
    for _ in 0..rounds {
        for who in requesters.iter() {
            if acl.grants(owner, group, who, Perms::READ) {
                sum = sum.wrapping_add(1);
            }
        }
    }
    Some(sum)
}

fn is_granted(
    alloc: Global,
    text: &[u8],
    ids: [u32; 3],
    gids: &[u32],
    request: u8,
) -> Option<bool> {
    let acl = acl_of(alloc, text)?;
    let who = requester(alloc, ids[2], gids)?;
    Some(acl.grants(
        Uid::new(ids[0])?,
        Gid::new(ids[1])?,
        &who,
        Perms::from_bits_truncate(request),
    ))
}

fn print(alloc: Global, text: &[u8], printed: &mut [u8]) -> Option<usize> {
    let names = no_names(alloc)?;
    let acl = acl_of(alloc, text)?;
    let mut out = Vec::new(alloc);
    acl.print_effective(&names, &mut out).ok()?;
    copied(&out, printed)
}

/// Reads the text `rounds` times.
#[unsafe(no_mangle)]
pub extern "C" fn acl_times_read(alloc: Global, text: &[u8], rounds: u32) -> u64 {
    times_read(alloc, text, rounds).unwrap_or(0)
}

/// Reads the text and makes an access control list of its entries.
#[unsafe(no_mangle)]
pub extern "C" fn acl_times_made(alloc: Global, text: &[u8], rounds: u32) -> u64 {
    times_made(alloc, text, rounds).unwrap_or(0)
}

#[unsafe(no_mangle)]
pub extern "C" fn acl_times_printed(alloc: Global, text: &[u8], rounds: u32) -> u64 {
    times_printed(alloc, text, rounds).unwrap_or(0)
}

/// Asks for reading for each of the users, over and over.
#[unsafe(no_mangle)]
pub extern "C" fn acl_times_checked(
    alloc: Global,
    text: &[u8],
    first_uid: u32,
    uids: u32,
    gids: &[u32],
    rounds: u32,
) -> u64 {
    times_checked(alloc, text, first_uid, uids, gids, rounds).unwrap_or(0)
}

/// 1 where the list grants the request, 0 where it does not, and 2 where the text is no access
/// control list.
#[unsafe(no_mangle)]
pub extern "C" fn acl_decides(
    alloc: Global,
    text: &[u8],
    owner: u32,
    group: u32,
    uid: u32,
    gids: &[u32],
    request: u8,
) -> u32 {
    match is_granted(alloc, text, [owner, group, uid], gids, request) {
        Some(true) => 1,
        Some(false) => 0,
        None => 2,
    }
}

/// The list as it is printed with its effective permissions, and how long that is; 0 where the text
/// is no access control list.
#[unsafe(no_mangle)]
pub extern "C" fn acl_prints(alloc: Global, text: &[u8], printed: &mut [u8]) -> usize {
    print(alloc, text, printed).unwrap_or(0)
}

fn aces_of(alloc: Global, text: &[u8]) -> Option<Acl4> {
    let names = no_names(alloc)?;
    read_aces(alloc, text, &names).ok()
}

fn times_aces_read(alloc: Global, text: &[u8], rounds: u32) -> Option<u64> {
    let names = no_names(alloc)?;
    let mut sum: u64 = 0;
    for _ in 0..rounds {
        let acl = read_aces(alloc, text, &names).ok()?;
        sum = sum.wrapping_add(acl.aces().len() as u64);
    }
    Some(sum)
}

fn times_aces_printed(alloc: Global, text: &[u8], rounds: u32) -> Option<u64> {
    let names = no_names(alloc)?;
    let acl = aces_of(alloc, text)?;
    let mut sum: u64 = 0;
    for _ in 0..rounds {
        let mut out = Vec::new(alloc);
        acl.print_aces(&names, &mut out).ok()?;
        sum = sum.wrapping_add(out.len() as u64);
    }
    Some(sum)
}

fn times_aces_checked(
    alloc: Global,
    text: &[u8],
    first_uid: u32,
    uids: u32,
    gids: &[u32],
    rounds: u32,
) -> Option<u64> {
    let acl = aces_of(alloc, text)?;
    let owner = Uid::new(1)?;
    let group = Gid::new(2)?;
    let mut requesters = Vec::new(alloc);
    for nth in 0..uids {
        let who = requester(alloc, first_uid.wrapping_add(nth), gids)?;
        requesters.push(who).ok()?;
    }
    let mut sum: u64 = 0;
    for _ in 0..rounds {
        for who in requesters.iter() {
            if acl.grants4(owner, group, who, mask_of(Perms::READ)) {
                sum = sum.wrapping_add(1);
            }
        }
    }
    Some(sum)
}

fn print_aces(alloc: Global, text: &[u8], printed: &mut [u8]) -> Option<usize> {
    let names = no_names(alloc)?;
    let acl = aces_of(alloc, text)?;
    let mut out = Vec::new(alloc);
    acl.print_aces(&names, &mut out).ok()?;
    copied(&out, printed)
}

/// Reads the text of NFSv4 entries `rounds` times.
#[unsafe(no_mangle)]
pub extern "C" fn aces_times_read(alloc: Global, text: &[u8], rounds: u32) -> u64 {
    times_aces_read(alloc, text, rounds).unwrap_or(0)
}

#[unsafe(no_mangle)]
pub extern "C" fn aces_times_printed(alloc: Global, text: &[u8], rounds: u32) -> u64 {
    times_aces_printed(alloc, text, rounds).unwrap_or(0)
}

/// Asks for the bits of reading for each of the users, over and over.
#[unsafe(no_mangle)]
pub extern "C" fn aces_times_checked(
    alloc: Global,
    text: &[u8],
    first_uid: u32,
    uids: u32,
    gids: &[u32],
    rounds: u32,
) -> u64 {
    times_aces_checked(alloc, text, first_uid, uids, gids, rounds).unwrap_or(0)
}

/// The NFSv4 entries as they are printed, and how long that is; 0 where the text has none.
#[unsafe(no_mangle)]
pub extern "C" fn aces_print(alloc: Global, text: &[u8], printed: &mut [u8]) -> usize {
    print_aces(alloc, text, printed).unwrap_or(0)
}
