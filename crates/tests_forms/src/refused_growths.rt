//! Calls that may run out of memory: one failed allocation, wherever it falls, is reported by the
//! call in which it falls, leaves everything as it was, and the call may be made again.
//!
//! tests/refused-growths fails one allocation of a test after the other. Each test here passes
//! whichever allocation that is, and prints how many failures it saw.
use acl_forms::{Places, print_entries, read_entries};
use acl_names::Directory;
use acl_nfs4::{AceFault, Acl4};
use std::alloc::Global;
use std::test::Fail;
use tests_common::{Refusals, directory};

/// A list of more entries than stand in the value itself.
const LONG: &str =
    "user:1:r::deny\nuser:2:r::deny\nuser:3:r::deny\nuser:4:r::deny\nuser:5:r::deny\nuser:6:r::deny\nuser:7:r::deny\nuser:8:r::deny\nuser:9:r::deny\nuser:10:r::deny\nuser:11:r::deny\nuser:12:r::deny\nuser:13:r::deny\nuser:14:r::deny\nuser:15:r::deny\nuser:16:r::deny\nuser:17:r::deny\n";

/// The long list; none if memory ran out, and an empty one if another fault took the place of that.
fn long_list(alloc: Global, names: &Directory) -> Option<Acl4> {
    match read_entries(alloc, LONG.as_bytes(), names) {
        Ok(list) => Some(list),
        Err(AceFault::Memory) => None,
        Err(_) => Some(Acl4::empty(alloc)),
    }
}

fn count_of(alloc: Global, refusals: &mut Refusals) -> Option<usize> {
    let names = refusals.again(|| directory(alloc))?;
    let list = refusals.again(|| long_list(alloc, &names))?;
    Some(list.aces().len())
}

#[test]
fn read_entries_under_a_refused_growth(rt: HostRuntime) -> Result<(), Fail> {
    let alloc = rt.alloc();
    let mut refusals = Refusals::new();
    assert_eq!(rt; count_of(alloc, &mut refusals), Some(17));
    println!(rt; "refusals: {}", refusals.reported())?;
    Ok(())
}

/// Whether the long list is printed behind what was there, at the second attempt if the first is
/// refused, which leaves that as it was.
fn is_printed_again(
    names: &Directory,
    list: &Acl4,
    out: &mut Vec<u8>,
    refusals: &mut Refusals,
) -> Option<bool> {
    if print_entries(Places::Compact, list, names, out).is_err() {
        refusals.one_more();
        if out.as_slice() != b"> ".as_slice() {
            return Some(false);
        }
        print_entries(Places::Compact, list, names, out).ok()?;
    }
    let printed = out.as_slice().strip_prefix(b"> ".as_slice())?;
    Some(printed == LONG.as_bytes())
}

fn is_printed(alloc: Global, refusals: &mut Refusals) -> Option<bool> {
    let names = refusals.again(|| directory(alloc))?;
    let list = refusals.again(|| long_list(alloc, &names))?;
    let mut out = refusals.again(|| Vec::from_slice(alloc, b"> ").ok())?;
    is_printed_again(&names, &list, &mut out, refusals)
}

#[test]
fn print_entries_under_a_refused_growth(rt: HostRuntime) -> Result<(), Fail> {
    let alloc = rt.alloc();
    let mut refusals = Refusals::new();
    assert_eq!(rt; is_printed(alloc, &mut refusals), Some(true));
    println!(rt; "refusals: {}", refusals.reported())?;
    Ok(())
}
