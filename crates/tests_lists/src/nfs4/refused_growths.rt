//! Calls that may run out of memory: one failed allocation, wherever it falls, is reported by the
//! call in which it falls, leaves everything as it was, and the call may be made again.
//!
//! tests/refused-growths fails one allocation of a test after the other. Each test here passes
//! whichever allocation that is, and prints how many failures it saw.
use crate::texts::is_spelt;
use acl_names::{Directory, Uid};
use acl_nfs4::{Ace, AceFault, AceType, Acl4, Fault4, Flags, Kind, Mask, Who, read_aces};
use acl_posix::Mode;
use bitflags::Flags as FlagSet;
use std::alloc::Global;
use std::test::Fail;
use tests_common::{Refusals, acl4, directory};

/// A list of more entries than stand in the value itself.
const LONG: &str =
    "A:f:1:r,A:f:2:r,A:f:3:r,A:f:4:r,A:f:5:r,A:f:6:r,A:f:7:r,A:f:8:r,A:f:9:r,A:f:10:r,A:f:11:r,A:f:12:r,A:f:13:r,A:f:14:r,A:f:15:r,A:f:16:r,A:f:17:r";

/// What a file in a directory with that list inherits.
const BELOW: &str =
    "A::1:r\nA::2:r\nA::3:r\nA::4:r\nA::5:r\nA::6:r\nA::7:r\nA::8:r\nA::9:r\nA::10:r\nA::11:r\nA::12:r\nA::13:r\nA::14:r\nA::15:r\nA::16:r\nA::17:r\n";

/// The long list, at the second attempt if the first is refused; none if another answer took the
/// place of Memory.
fn long_acl(alloc: Global, names: &Directory, refusals: &mut Refusals) -> Option<Acl4> {
    match read_aces(alloc, LONG.as_bytes(), names) {
        Ok(list) => Some(list),
        Err(AceFault::Memory) => {
            refusals.one_more();
            read_aces(alloc, LONG.as_bytes(), names).ok()
        }
        Err(_) => None,
    }
}

/// The names and the long list.
fn names_and_list(alloc: Global, refusals: &mut Refusals) -> Option<(Directory, Acl4)> {
    let names = refusals.again(|| directory(alloc))?;
    let list = long_acl(alloc, &names, refusals)?;
    Some((names, list))
}

/// The long list, with names of its own, at the second attempt if the first is refused.
fn list_again(alloc: Global, refusals: &mut Refusals) -> Option<Acl4> {
    refusals.again(|| acl4(alloc, LONG))
}

/// An entry that lets the user with this number read.
fn reader(number: u32) -> Option<Ace> {
    let who = Who::User(Uid::new(number)?);
    Some(Ace::new(AceType::Allow, Flags::empty(), who, Mask::READ_DATA))
}

/// Whether the entry with this number is put after so many, at the second attempt if the first is
/// refused, and a refused attempt leaves the list as it was.
fn is_pushed_again(list: &mut Acl4, number: u32, refusals: &mut Refusals) -> Option<bool> {
    let entry = reader(number)?;
    if list.push(entry) != Err(AceFault::Memory) {
        return Some(true);
    }
    refusals.one_more();
    Some(list.aces().len() == number as usize && list.push(entry).is_ok())
}

/// Whether the entries let the users 0, 1, 2 and so on read.
fn are_readers(aces: &[Ace]) -> bool {
    let mut number: u32 = 0;
    for entry in aces {
        if Some(*entry) != reader(number) {
            return false;
        }
        number = number.saturating_add(1);
    }
    true
}

/// How many of 128 entries are put into a list one by one, up to the first that isn't; none if they
/// aren't in their places.
fn pushed_again(alloc: Global, refusals: &mut Refusals) -> Option<usize> {
    let mut list = Acl4::empty(alloc);
    for number in 0..128 {
        if is_pushed_again(&mut list, number, refusals) != Some(true) {
            break;
        }
    }
    if are_readers(list.aces()) {
        Some(list.aces().len())
    } else {
        None
    }
}

#[test]
fn push_under_a_refused_growth(rt: HostRuntime) -> Result<(), Fail> {
    let mut refusals = Refusals::new();
    assert_eq!(rt; pushed_again(rt.alloc(), &mut refusals), Some(128));
    println!(rt; "refusals: {}", refusals.reported())?;
    Ok(())
}

/// How many entries the long text has.
fn read_again(alloc: Global, refusals: &mut Refusals) -> Option<usize> {
    let (_, list) = names_and_list(alloc, refusals)?;
    Some(list.aces().len())
}

#[test]
fn read_aces_under_a_refused_growth(rt: HostRuntime) -> Result<(), Fail> {
    let mut refusals = Refusals::new();
    assert_eq!(rt; read_again(rt.alloc(), &mut refusals), Some(17));
    println!(rt; "refusals: {}", refusals.reported())?;
    Ok(())
}

/// Whether the long list is printed after this, at the second attempt if the first is refused, and
/// a refused attempt leaves the text as it was.
fn is_printed_again(
    alloc: Global,
    out: &mut Vec<u8>,
    before: &[u8],
    refusals: &mut Refusals,
) -> Option<bool> {
    let (names, list) = names_and_list(alloc, refusals)?;
    if list.print_aces(&names, out).is_ok() {
        return Some(true);
    }
    refusals.one_more();
    Some(out.as_slice() == before && list.print_aces(&names, out).is_ok())
}

/// A text that something stands in.
fn begun(alloc: Global) -> Option<Vec<u8>> {
    let mut out = Vec::new(alloc);
    out.push(b'>').ok()?;
    Some(out)
}

/// Whether the long list is printed after that, how many bytes there are then, and whether they
/// begin as they should.
fn printed_behind(alloc: Global, refusals: &mut Refusals) -> Option<(bool, usize, bool)> {
    let mut out = refusals.again(|| begun(alloc))?;
    let printed = is_printed_again(alloc, &mut out, b">", refusals)?;
    let begins = out.starts_with(b">A:f:1:r\nA:f:2:r\n".as_slice());
    Some((printed, out.len(), begins))
}

#[test]
fn print_aces_under_a_refused_growth(rt: HostRuntime) -> Result<(), Fail> {
    let mut refusals = Refusals::new();
    let printed = printed_behind(rt.alloc(), &mut refusals);
    // 9 lines of 8 bytes, and 8 of 9, after the one that stood there.
    assert_eq!(rt; printed, Some((true, 145, true)));
    println!(rt; "refusals: {}", refusals.reported())?;
    Ok(())
}

/// An empty text with room for so many bytes, at the second attempt if the first is refused.
fn room_again(alloc: Global, bytes: usize, refusals: &mut Refusals) -> Option<Vec<u8>> {
    refusals.again(|| Vec::with_capacity(alloc, bytes).ok())
}

/// Whether the long list is printed where there is room for 100 bytes, and how many there are then.
fn printed_in_little_room(alloc: Global, refusals: &mut Refusals) -> Option<(bool, usize)> {
    let mut out = room_again(alloc, 100, refusals)?;
    let printed = is_printed_again(alloc, &mut out, b"", refusals)?;
    Some((printed, out.len()))
}

/// Room for the shortest lines and not for these: the output grows on the way, and what was printed
/// by then goes again.
#[test]
fn print_aces_with_little_room_under_a_refused_growth(rt: HostRuntime) -> Result<(), Fail> {
    let mut refusals = Refusals::new();
    let printed = printed_in_little_room(rt.alloc(), &mut refusals);
    assert_eq!(rt; printed, Some((true, 144)));
    println!(rt; "refusals: {}", refusals.reported())?;
    Ok(())
}

/// Whether the long list is printed at the first attempt.
fn is_printed(alloc: Global, out: &mut Vec<u8>, refusals: &mut Refusals) -> Option<bool> {
    let (names, list) = names_and_list(alloc, refusals)?;
    Some(list.print_aces(&names, out).is_ok())
}

/// Whether it is where there is room for all of it, of 9 lines of 8 bytes and 8 of 9, and how many
/// bytes there are then.
fn printed_in_room(alloc: Global, refusals: &mut Refusals) -> Option<(bool, usize)> {
    let mut out = room_again(alloc, 144, refusals)?;
    let printed = is_printed(alloc, &mut out, refusals)?;
    Some((printed, out.len()))
}

/// Where there is room for the text nothing grows, so that no refusal falls in the call.
#[test]
fn print_aces_with_room_under_a_refused_growth(rt: HostRuntime) -> Result<(), Fail> {
    let mut refusals = Refusals::new();
    let printed = printed_in_room(rt.alloc(), &mut refusals);
    assert_eq!(rt; printed, Some((true, 144)));
    println!(rt; "refusals: {}", refusals.reported())?;
    Ok(())
}

/// The long list and a copy of it.
fn with_copy(alloc: Global, refusals: &mut Refusals) -> Option<(Acl4, Acl4)> {
    let list = list_again(alloc, refusals)?;
    let copy = refusals.again(|| list.try_clone(alloc).ok())?;
    Some((list, copy))
}

/// How many entries the long list has once its mode is set; none if a refused attempt changed the
/// list.
fn set_again(alloc: Global, refusals: &mut Refusals) -> Option<usize> {
    let mode = Mode::from_bits(0o700)?;
    let (mut list, before) = with_copy(alloc, refusals)?;
    if list.chmod4(alloc, mode) == Err(Fault4::Memory) {
        refusals.one_more();
        if list.aces() != before.aces() || list.chmod4(alloc, mode) != Ok(()) {
            return None;
        }
    }
    Some(list.aces().len())
}

#[test]
fn chmod4_under_a_refused_growth(rt: HostRuntime) -> Result<(), Fail> {
    let mut refusals = Refusals::new();
    // The owner's, what is inherited of each entry, a denial of each user, and the group's.
    assert_eq!(rt; set_again(rt.alloc(), &mut refusals), Some(36));
    println!(rt; "refusals: {}", refusals.reported())?;
    Ok(())
}

/// Whether a file in a directory with the long list inherits the list below.
fn inherited_again(alloc: Global, refusals: &mut Refusals) -> Option<bool> {
    let list = list_again(alloc, refusals)?;
    let below = refusals.again(|| list.inherited(alloc, Kind::File).ok())?;
    refusals.again(|| is_spelt(alloc, &below, BELOW))
}

#[test]
fn inherited_under_a_refused_growth(rt: HostRuntime) -> Result<(), Fail> {
    let mut refusals = Refusals::new();
    assert!(rt; inherited_again(rt.alloc(), &mut refusals) == Some(true));
    println!(rt; "refusals: {}", refusals.reported())?;
    Ok(())
}

/// How many entries a list with room for 40 has at first, and once so many were put into it at the
/// first attempt.
fn filled(alloc: Global, refusals: &mut Refusals) -> Option<(usize, usize)> {
    let mut list = refusals.again(|| Acl4::with_capacity(alloc, 40).ok())?;
    let before = list.aces().len();
    for number in 0..40 {
        list.push(reader(number)?).ok()?;
    }
    Some((before, list.aces().len()))
}

#[test]
fn lists_with_room_under_a_refused_growth(rt: HostRuntime) -> Result<(), Fail> {
    let mut refusals = Refusals::new();
    assert_eq!(rt; filled(rt.alloc(), &mut refusals), Some((0, 40)));
    println!(rt; "refusals: {}", refusals.reported())?;
    Ok(())
}
