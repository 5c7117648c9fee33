//! Printing into an output that is there already, for the counts of allocations: it has room from
//! the second round on.
use crate::{aces_of, acl_of, no_names};
use std::alloc::Global;

fn times_acl_printed(alloc: Global, text: &[u8], rounds: u32) -> Option<u64> {
    let names = no_names(alloc)?;
    let acl = acl_of(alloc, text)?;
    let mut out = Vec::new(alloc);
    let mut sum: u64 = 0;
    for _ in 0..rounds {
        out.clear();
        acl.print_effective(&names, &mut out).ok()?;
        sum = sum.wrapping_add(out.len() as u64);
    }
    Some(sum)
}

fn times_aces_printed(alloc: Global, text: &[u8], rounds: u32) -> Option<u64> {
    let names = no_names(alloc)?;
    let acl = aces_of(alloc, text)?;
    let mut out = Vec::new(alloc);
    let mut sum: u64 = 0;
    for _ in 0..rounds {
        out.clear();
        acl.print_aces(&names, &mut out).ok()?;
        sum = sum.wrapping_add(out.len() as u64);
    }
    Some(sum)
}

/// Prints the POSIX list over and over into one output.
#[unsafe(no_mangle)]
pub extern "C" fn acl_times_printed_again(alloc: Global, text: &[u8], rounds: u32) -> u64 {
    times_acl_printed(alloc, text, rounds).unwrap_or(0)
}

/// The same of NFSv4 entries.
#[unsafe(no_mangle)]
pub extern "C" fn aces_times_printed_again(alloc: Global, text: &[u8], rounds: u32) -> u64 {
    times_aces_printed(alloc, text, rounds).unwrap_or(0)
}
