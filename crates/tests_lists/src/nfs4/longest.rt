//! Tests of the longest NFSv4 lists.
use acl_names::Uid;
use acl_nfs4::{Ace, AceFault, AceType, Acl4, Fault4, Flags, Mask, Who};
use acl_posix::Mode;
use bitflags::Flags as FlagSet;
use std::alloc::Global;
use tests_common::acl4;

/// A text of so many entries.
fn text_of(alloc: Global, count: u32) -> Option<String> {
    let mut text = String::new(alloc);
    for _ in 0..count {
        text.push_str("A::0:t\n").ok()?;
    }
    Some(text)
}

/// The longest list, made entry by entry.
fn longest(alloc: Global) -> Option<Acl4> {
    let root = Ace::new(
        AceType::Allow,
        Flags::empty(),
        Who::User(Uid::new(0)?),
        Mask::READ_ATTRIBUTES,
    );
    let mut list = Acl4::empty(alloc);
    for _ in 0..128 {
        list.push(root).ok()?;
    }
    Some(list)
}

/// The longest list, read.
fn read_longest(alloc: Global) -> Option<Acl4> {
    let text = text_of(alloc, 128)?;
    acl4(alloc, text.as_str())
}

/// Whether the longest list, read, has the entries of that which was made; is refused a mode; has
/// them still then; and whether one entry more is refused after those that were made.
fn is_as_long_as_may_be(alloc: Global, bits: u16) -> Option<[bool; 4]> {
    let mode = Mode::from_bits(bits)?;
    let mut list = longest(alloc)?;
    let mut read = read_longest(alloc)?;
    let same = read.aces() == list.aces();
    let refused = read.chmod4(alloc, mode) == Err(Fault4::TooMany);
    let same_still = read.aces() == list.aces();
    let full = list.push(Ace::default()) == Err(AceFault::TooMany);
    Some([same, refused, same_still, full])
}

#[test]
fn as_many_entries_as_there_may_be(rt: HostRuntime) {
    let found = is_as_long_as_may_be(rt.alloc(), 0o644);
    assert_eq!(rt; found, Some([true; 4]));
}

/// An entry that no mode changes.
fn audit() -> Ace {
    Ace::new(
        AceType::Audit,
        Flags::empty(),
        Who::Everyone,
        Mask::READ_DATA,
    )
}

/// A list of 128 entries, of which five are the owner's, the group's and the others'.
fn full(alloc: Global) -> Option<Acl4> {
    let mut list = Acl4::empty(alloc);
    for who in [
        Who::Owner,
        Who::Owner,
        Who::Group,
        Who::Group,
        Who::Everyone,
    ] {
        let entry = Ace::new(AceType::Allow, Flags::empty(), who, Mask::READ_DATA);
        list.push(entry).ok()?;
    }
    for _ in 5..128 {
        list.push(audit()).ok()?;
    }
    Some(list)
}

/// How many entries that list has once this mode is set, the mode that it has then, and whether one
/// more is refused.
fn set_on_full(alloc: Global, bits: u16) -> Option<(usize, u16, bool)> {
    let mode = Mode::from_bits(bits)?;
    let mut list = full(alloc)?;
    list.chmod4(alloc, mode).ok()?;
    let len = list.aces().len();
    let shown = list.mode4().bits();
    Some((len, shown, list.push(audit()) == Err(AceFault::TooMany)))
}

/// A mode leaves the list 128 long: what the owner's, the group's and the others' entries come to
/// takes the place of as many that have nothing else.
#[test]
fn a_mode_set_on_as_many_entries_as_there_may_be(rt: HostRuntime) {
    let found = set_on_full(rt.alloc(), 0o641);
    assert_eq!(rt; found, Some((128, 0o641, true)));
}
