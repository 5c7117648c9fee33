//! Lists that are made of others: with a mode set, inherited, translated.
use crate::{aces_of, acl_of, copied, no_names};
use acl_bridge::translate;
use acl_nfs4::{Acl4, Kind};
use acl_posix::Mode;
use std::alloc::Global;

fn kind_of(is_dir: bool) -> Kind {
    if is_dir { Kind::Dir } else { Kind::File }
}

fn with_mode(alloc: Global, acl: &Acl4, mode: Mode) -> Option<Acl4> {
    let mut changed = acl.try_clone(alloc).ok()?;
    changed.chmod4(alloc, mode).ok()?;
    Some(changed)
}

fn times_aces_set(alloc: Global, text: &[u8], mode: u16, rounds: u32) -> Option<u64> {
    let acl = aces_of(alloc, text)?;
    let mode = Mode::from_bits(mode)?;
    let mut sum: u64 = 0;
    for _ in 0..rounds {
        let changed = with_mode(alloc, &acl, mode)?;
        sum = sum.wrapping_add(changed.aces().len() as u64);
    }
    Some(sum)
}

fn times_aces_inherited(alloc: Global, text: &[u8], is_dir: bool, rounds: u32) -> Option<u64> {
    let acl = aces_of(alloc, text)?;
    let kind = kind_of(is_dir);
    let mut sum: u64 = 0;
    for _ in 0..rounds {
        let below = acl.inherited(alloc, kind).ok()?;
        sum = sum.wrapping_add(below.aces().len() as u64);
    }
    Some(sum)
}

fn times_translated(alloc: Global, text: &[u8], rounds: u32) -> Option<u64> {
    let acl = acl_of(alloc, text)?;
    let mut sum: u64 = 0;
    for _ in 0..rounds {
        let aces = translate(alloc, &acl).ok()?;
        sum = sum.wrapping_add(aces.aces().len() as u64);
    }
    Some(sum)
}

fn print(alloc: Global, aces: &Acl4, printed: &mut [u8]) -> Option<usize> {
    let names = no_names(alloc)?;
    let mut out = Vec::new(alloc);
    aces.print_aces(&names, &mut out).ok()?;
    copied(&out, printed)
}

fn print_set(alloc: Global, text: &[u8], mode: u16, printed: &mut [u8]) -> Option<usize> {
    let acl = aces_of(alloc, text)?;
    let changed = with_mode(alloc, &acl, Mode::from_bits(mode)?)?;
    print(alloc, &changed, printed)
}

fn print_inherited(alloc: Global, text: &[u8], is_dir: bool, printed: &mut [u8]) -> Option<usize> {
    let acl = aces_of(alloc, text)?;
    let below = acl.inherited(alloc, kind_of(is_dir)).ok()?;
    print(alloc, &below, printed)
}

fn print_translated(alloc: Global, text: &[u8], printed: &mut [u8]) -> Option<usize> {
    let acl = acl_of(alloc, text)?;
    let aces = translate(alloc, &acl).ok()?;
    print(alloc, &aces, printed)
}

/// Sets the mode on a copy of the NFSv4 list `rounds` times.
#[unsafe(no_mangle)]
pub extern "C" fn aces_times_set(alloc: Global, text: &[u8], mode: u16, rounds: u32) -> u64 {
    times_aces_set(alloc, text, mode, rounds).unwrap_or(0)
}

/// Makes what a new file, or a new directory, inherits.
#[unsafe(no_mangle)]
pub extern "C" fn aces_times_inherited(
    alloc: Global,
    text: &[u8],
    is_dir: bool,
    rounds: u32,
) -> u64 {
    times_aces_inherited(alloc, text, is_dir, rounds).unwrap_or(0)
}

/// Translates the POSIX list.
#[unsafe(no_mangle)]
pub extern "C" fn acl_times_translated(alloc: Global, text: &[u8], rounds: u32) -> u64 {
    times_translated(alloc, text, rounds).unwrap_or(0)
}

/// The list with the mode set as it is printed, and how long that is; 0 where the text has none, or
/// it would be too long.
#[unsafe(no_mangle)]
pub extern "C" fn aces_print_set(
    alloc: Global,
    text: &[u8],
    mode: u16,
    printed: &mut [u8],
) -> usize {
    print_set(alloc, text, mode, printed).unwrap_or(0)
}

/// What is inherited; an empty list prints nothing.
#[unsafe(no_mangle)]
pub extern "C" fn aces_print_inherited(
    alloc: Global,
    text: &[u8],
    is_dir: bool,
    printed: &mut [u8],
) -> usize {
    print_inherited(alloc, text, is_dir, printed).unwrap_or(0)
}

#[unsafe(no_mangle)]
pub extern "C" fn acl_print_translated(alloc: Global, text: &[u8], printed: &mut [u8]) -> usize {
    print_translated(alloc, text, printed).unwrap_or(0)
}
