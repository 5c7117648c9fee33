//! The longest lists and the fullest tree.
use crate::tree::fixture::{
    A, ALICE, Command, Outcome, Step, World, leave_all, mode, uid, wrong_step,
};
use acl_nfs4::{Ace, AceType, Acl4, Flags, Kind, Mask, Who};
use acl_tree::{Boxed, MAX_NODES, Path, Request, Style, TreeFault};
use bitflags::Flags as FlagSet;
use std::alloc::Global;

/// The path of a slash and four digits.
fn numbered(alloc: Global, number: u32) -> Option<Path> {
    let mut bytes = Vec::new(alloc);
    bytes.push(b'/').ok()?;
    for place in [1000, 100, 10, 1] {
        let digit = number / place % 10;
        bytes.push(b'0' + digit as u8).ok()?;
    }
    Path::read(alloc, bytes.as_slice()).ok()
}

fn create(alloc: Global, number: u32) -> Option<Request> {
    Some(Request::Create(
        Kind::File,
        numbered(alloc, number)?,
        uid(ALICE)?,
        mode(0o644)?,
    ))
}

/// Whether the path of the number is created.
fn creates(alloc: Global, world: &mut World, number: u32) -> bool {
    match create(alloc, number) {
        Some(request) => world.outcome(&request) == Some(Outcome::Done),
        None => false,
    }
}

/// Whether the paths from 0 to 4094 are created.
fn creates_all(alloc: Global, world: &mut World) -> bool {
    for number in 0..4095 {
        if !creates(alloc, world, number) {
            return false;
        }
    }
    true
}

/// A tree with these paths.
fn full(alloc: Global) -> Option<World> {
    let mut world = World::new(alloc, Style::Posix)?;
    if creates_all(alloc, &mut world) {
        Some(world)
    } else {
        None
    }
}

#[test]
fn full_tree(rt: HostRuntime) {
    let new = Command::Create(Kind::File, "/4095", ALICE, 0o644);
    let old = Command::Create(Kind::File, "/0000", ALICE, 0o644);
    let steps = [
        Step::Has(MAX_NODES),
        Step::Reports(new, Outcome::Refused(TreeFault::Full)),
        Step::Reports(old, Outcome::Refused(TreeFault::Exists)),
    ];
    assert_eq!(rt; wrong_step(full(rt.alloc()), &steps), None);
}

/// A list of 128 entries that allow user 0 to read attributes.
fn longest(alloc: Global) -> Option<Acl4> {
    let ace = Ace::new(
        AceType::Allow,
        Flags::empty(),
        Who::User(uid(0)?),
        Mask::READ_ATTRIBUTES,
    );
    let mut list = Acl4::empty(alloc);
    for _ in 0..128 {
        list.push(ace).ok()?;
    }
    Some(list)
}

/// The command that sets the longest list.
fn set_longest(alloc: Global) -> Option<Request> {
    let path = Path::read(alloc, b"/a").ok()?;
    let list = Boxed::new(alloc, longest(alloc)?).ok()?;
    Some(Request::SetNfs4(path, list))
}

/// Whether the file /a gets the longest list.
fn sets_longest(alloc: Global, world: &mut World) -> bool {
    match set_longest(alloc) {
        Some(request) => world.outcome(&request) == Some(Outcome::Done),
        None => false,
    }
}

/// The examples' tree, whose file /a has the longest list.
fn with_longest(alloc: Global) -> Option<World> {
    let mut world = World::after(alloc, A)?;
    if sets_longest(alloc, &mut world) {
        Some(world)
    } else {
        None
    }
}

/// A mode would make it longer than a list may be, and it still decides.
#[test]
fn the_longest_list_stays_and_decides(rt: HostRuntime) {
    let steps = [
        Step::Reports(
            Command::Chmod("/a", 0o644),
            Outcome::Refused(TreeFault::TooMany),
        ),
        Step::Reports(Command::Check4("/a", 0, "t"), Outcome::Granted),
    ];
    assert_eq!(rt; leave_all(with_longest(rt.alloc()), &steps), Some(true));
}
