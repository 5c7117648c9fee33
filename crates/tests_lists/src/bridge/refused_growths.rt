//! Calls that may run out of memory: one failed allocation, wherever it falls, is reported by the
//! call in which it falls, leaves the list as it was, and the call may be made again.
//!
//! `rt try --test --fail-alloc N` fails allocation N of a test. Each test here passes whichever
//! growth that is, and prints how many failures it saw: one up to the last allocation that it asks
//! for, and none from then on.
use acl_bridge::{translate, translate_default};
use acl_names::Uid;
use acl_posix::{Acl, Entries, Entry, Perms, Tag, TextFault};
use std::alloc::Global;
use std::test::Fail;
use tests_common::Refusals;

/// What the entry of this place is for: the owner, 60 users, the file's group, the mask and the
/// others.
fn tag_of(place: u32) -> Option<Tag> {
    match place {
        0 => Some(Tag::UserObj),
        61 => Some(Tag::GroupObj),
        62 => Some(Tag::Mask),
        63 => Some(Tag::Other),
        _ => Some(Tag::User(Uid::new(place.checked_sub(1)?)?)),
    }
}

/// Whether the entry of this place is put after the others, at the second attempt if the first is
/// refused.
fn is_pushed(entries: &mut Entries, place: u32, refusals: &mut Refusals) -> Option<bool> {
    let entry = Entry {
        tag: tag_of(place)?,
        perms: Perms::READ,
    };
    if entries.push(entry) == Err(TextFault::Memory) {
        refusals.one_more();
        return Some(entries.push(entry).is_ok());
    }
    Some(true)
}

/// The list of the longest translation.
fn longest(alloc: Global, refusals: &mut Refusals) -> Option<Acl> {
    let mut entries = Entries::new(alloc);
    for place in 0..64 {
        if is_pushed(&mut entries, place, refusals) != Some(true) {
            return None;
        }
    }
    Acl::new(entries).ok()
}

/// How many entries the list's translation has, or its translation as a default list.
fn translated(alloc: Global, list: &Acl, is_default: bool) -> Option<usize> {
    let aces = if is_default {
        translate_default(alloc, list).ok()?
    } else {
        translate(alloc, list).ok()?
    };
    Some(aces.aces().len())
}

/// How many entries that list has, and its translation, at the second attempt if the first is
/// refused.
fn translated_again(
    alloc: Global,
    is_default: bool,
    refusals: &mut Refusals,
) -> Option<[usize; 2]> {
    let list = longest(alloc, refusals)?;
    let count = refusals.again(|| translated(alloc, &list, is_default))?;
    Some([list.entries().len(), count])
}

#[test]
fn translate_under_a_refused_growth(rt: HostRuntime) -> Result<(), Fail> {
    let mut refusals = Refusals::new();
    let counts = translated_again(rt.alloc(), false, &mut refusals);
    assert_eq!(rt; counts, Some([64, 125]));
    println!(rt; "refusals: {}", refusals.reported())?;
    Ok(())
}

#[test]
fn translate_default_under_a_refused_growth(rt: HostRuntime) -> Result<(), Fail> {
    let mut refusals = Refusals::new();
    let counts = translated_again(rt.alloc(), true, &mut refusals);
    assert_eq!(rt; counts, Some([64, 125]));
    println!(rt; "refusals: {}", refusals.reported())?;
    Ok(())
}
