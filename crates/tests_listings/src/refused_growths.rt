//! Calls that may run out of memory: one failed allocation, wherever it falls, is reported by the
//! call in which it falls, and the call may be made again.
//!
//! `rt try --test --fail-alloc N` fails allocation N of a test. Each test here passes whichever
//! growth that is, and prints how many failures it saw: one up to the last allocation that it asks
//! for, and none from then on.
use acl_listings::{Blocks, Lists, ReadFault, read_file};
use acl_names::push_shown;
use std::alloc::Global;
use std::test::Fail;
use tests_common::{Refusals, directory};

/// A list with nine users, and lines of a default list between its entries.
const LONG: &[u8] = b"# file: x
# owner: 0
# group: 0
user::rwx
user:1:r--
user:2:r--
default:user::rwx
default:group::r-x
default:other::---
user:4:r--
user:3:r--
user:5:r--
user:6:r--
user:7:r--
user:8:r--
user:9:r--
group::r-x
mask::rwx
other::---";

fn count_of(alloc: Global, text: &[u8]) -> Option<usize> {
    let names = directory(alloc)?;
    let file = read_file(alloc, text, &names).ok()?;
    match file.lists {
        Lists::Posix { access, .. } => Some(access.entries().len()),
        Lists::Nfs4 { acl } => Some(acl.aces().len()),
    }
}

#[test]
fn read_file_under_a_refused_growth(rt: HostRuntime) -> Result<(), Fail> {
    let alloc = rt.alloc();
    let mut refusals = Refusals::new();
    let count = refusals.again(|| count_of(alloc, LONG));
    assert_eq!(rt; count, Some(13));
    println!(rt; "refusals: {}", refusals.reported())?;
    Ok(())
}

/// A list of NFSv4 entries, more than take no memory.
const ACES: &[u8] = b"# file: x
# owner: 0
# group: 0
A::OWNER@:r
A::1:r
A::2:r
A::3:r
A::4:r
A::5:r
A::6:r
A::7:r
A::8:r
A::9:r
A::10:r
A::11:r
A::12:r
A::13:r
A::14:r
A::15:r
A::EVERYONE@:r";

#[test]
fn read_aces_under_a_refused_growth(rt: HostRuntime) -> Result<(), Fail> {
    let alloc = rt.alloc();
    let mut refusals = Refusals::new();
    let count = refusals.again(|| count_of(alloc, ACES));
    assert_eq!(rt; count, Some(17));
    println!(rt; "refusals: {}", refusals.reported())?;
    Ok(())
}

/// A block that is too long, in memory that no one refuses.
static TOO_LONG: [u8; 65_538] = [b'x'; 65_538];

/// How many blocks the listing has, of which one is too long.
fn blocks_of(alloc: Global) -> Option<u32> {
    let mut blocks = Blocks::new(alloc, TOO_LONG.as_slice()).ok()?;
    for count in 0..u32::MAX {
        match blocks.advance() {
            Ok(true) => {}
            Ok(false) => return Some(count),
            Err(ReadFault::Memory) | Err(ReadFault::Read) => return None,
        }
    }
    None
}

#[test]
fn blocks_under_a_refused_growth(rt: HostRuntime) -> Result<(), Fail> {
    let alloc = rt.alloc();
    let mut refusals = Refusals::new();
    let count = refusals.again(|| blocks_of(alloc));
    assert_eq!(rt; count, Some(1));
    println!(rt; "refusals: {}", refusals.reported())?;
    Ok(())
}

const SHOWN: &[u8] = b"# file: x
# owner: 0
# group: 0
user:1:r--";

fn shown_of(alloc: Global) -> Option<usize> {
    let mut out = Vec::new(alloc);
    push_shown(SHOWN, &mut out).ok()?;
    Some(out.len())
}

#[test]
fn push_shown_under_a_refused_growth(rt: HostRuntime) -> Result<(), Fail> {
    let alloc = rt.alloc();
    let mut refusals = Refusals::new();
    let len = refusals.again(|| shown_of(alloc));
    // It has 42 bytes, of which 3 are newlines.
    assert_eq!(rt; len, Some(51));
    println!(rt; "refusals: {}", refusals.reported())?;
    Ok(())
}
