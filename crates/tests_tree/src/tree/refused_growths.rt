//! Calls that may run out of memory: one failed allocation, wherever it falls, is reported by the
//! call in which it falls, leaves each node of the tree as it was and adds none, and the call may
//! be made again.
//!
//! `rt try --test --fail-alloc N` fails allocation N of a test. Each test here passes whichever
//! growth that is, and prints how many failures it saw: one up to the last allocation that it asks
//! for, and none from then on.
use crate::tree::fixture::{A, ALICE, BOB, CAROL, CHILD, Command, DIR, Outcome, Step, World, uid};
use acl_nfs4::{Kind, read_letters};
use acl_posix::read_perms;
use acl_tree::{Path, Request, Style};
use std::alloc::Global;
use std::test::Fail;
use tests_common::Refusals;

/// A POSIX list of more entries than stand in the value itself.
const LONG: &str = "u::rw,u:1:r,u:2:r,u:3:r,u:4:r,u:5:r,u:6:r,u:7:r,u:bob:rw,g::r,m::r,o::-";

/// An NFSv4 list that is longer than what stands in the value itself once a mode is set.
const LONG4: &str =
    "A:fd:1:r,A:fd:2:r,A:fd:3:r,A:fd:4:r,A:fd:5:r,A:fd:6:r,A:fd:7:r,A:fd:8:r,A:fd:9:r";

/// The tree with the directory, which has a default list.
const D: &[Command<'static>] = &[
    Command::Create(Kind::Dir, DIR, ALICE, 0o755),
    Command::SetDefault(DIR, LONG),
];

/// The tree with the directory, which has an NFSv4 list.
const D_NFS4: &[Command<'static>] = &[
    Command::Create(Kind::Dir, DIR, ALICE, 0o755),
    Command::SetNfs4(DIR, LONG4),
];

/// What the command results in, at the second attempt if the first is refused; none if a refused
/// command changed a node or the number of nodes.
fn again(world: &mut World, refusals: &mut Refusals, command: Command<'_>) -> Option<Outcome> {
    let before = refusals.again(|| world.nodes())?;
    if let Some(reported) = world.command(command) {
        return Some(reported);
    }
    refusals.one_more();
    if !world.has_nodes(&before) {
        return None;
    }
    world.command(command)
}

/// Whether the step goes as it says, at the second attempt if the first is refused.
fn goes_again(world: &mut World, refusals: &mut Refusals, step: Step<'_>) -> Option<bool> {
    if let Some(goes) = world.goes(step) {
        return Some(goes);
    }
    refusals.one_more();
    world.goes(step)
}

/// Whether the command reports this, and the tree has then what the steps say.
fn goes_so(
    world: &mut World,
    refusals: &mut Refusals,
    command: Command<'_>,
    wanted: Outcome,
    then: &[Step<'_>],
) -> bool {
    if again(world, refusals, command) != Some(wanted) {
        return false;
    }
    for step in then {
        if goes_again(world, refusals, *step) != Some(true) {
            return false;
        }
    }
    true
}

/// How many allocations fail while the command is made on the tree after the first ones, if all
/// goes so.
fn refusals_of(
    alloc: Global,
    first: &[Command<'_>],
    command: Command<'_>,
    wanted: Outcome,
    then: &[Step<'_>],
) -> Option<u32> {
    let mut refusals = Refusals::new();
    let mut world = refusals.again(|| World::after(alloc, first))?;
    if goes_so(&mut world, &mut refusals, command, wanted, then) {
        Some(refusals.reported())
    } else {
        None
    }
}

/// Whether a copy is the path.
fn is_copied(alloc: Global, path: &Path) -> Option<bool> {
    let copy = path.try_clone(alloc).ok()?;
    Some(copy.as_bytes() == path.as_bytes())
}

#[test]
fn paths_under_a_refused_growth(rt: HostRuntime) -> Result<(), Fail> {
    let alloc = rt.alloc();
    let mut refusals = Refusals::new();
    let path = refusals
        .again(|| Path::read(alloc, DIR.as_bytes()).ok())
        .ok_or("a path")?;
    assert_eq!(rt; refusals.again(|| is_copied(alloc, &path)), Some(true));
    println!(rt; "refusals: {}", refusals.reported())?;
    Ok(())
}

/// How many nodes a new tree has.
fn root_alone(alloc: Global) -> Option<usize> {
    let world = World::new(alloc, Style::Nfs4)?;
    Some(world.tree.len())
}

#[test]
fn new_under_a_refused_growth(rt: HostRuntime) -> Result<(), Fail> {
    let alloc = rt.alloc();
    let mut refusals = Refusals::new();
    assert_eq!(rt; refusals.again(|| root_alone(alloc)), Some(1));
    println!(rt; "refusals: {}", refusals.reported())?;
    Ok(())
}

#[test]
fn set_access_under_a_refused_growth(rt: HostRuntime) -> Result<(), Fail> {
    let command = Command::SetAccess("/a", LONG);
    let refusals = refusals_of(
        rt.alloc(),
        A,
        command,
        Outcome::Done,
        &[Step::HasAccess("/a", LONG)],
    );
    println!(rt; "refusals: {}", refusals.ok_or("another end")?)?;
    Ok(())
}

#[test]
fn set_default_under_a_refused_growth(rt: HostRuntime) -> Result<(), Fail> {
    let command = Command::SetDefault(DIR, LONG);
    let refusals = refusals_of(rt.alloc(), D, command, Outcome::Done, &[]);
    println!(rt; "refusals: {}", refusals.ok_or("another end")?)?;
    Ok(())
}

#[test]
fn set_nfs4_under_a_refused_growth(rt: HostRuntime) -> Result<(), Fail> {
    let command = Command::SetNfs4(DIR, LONG4);
    let refusals = refusals_of(
        rt.alloc(),
        D,
        command,
        Outcome::Done,
        &[Step::HasAces(DIR, LONG4)],
    );
    println!(rt; "refusals: {}", refusals.ok_or("another end")?)?;
    Ok(())
}

#[test]
fn chmod_under_a_refused_growth(rt: HostRuntime) -> Result<(), Fail> {
    let command = Command::Chmod(DIR, 0o640);
    let refusals = refusals_of(rt.alloc(), D_NFS4, command, Outcome::Done, &[]);
    println!(rt; "refusals: {}", refusals.ok_or("another end")?)?;
    Ok(())
}

#[test]
fn create_under_a_refused_growth(rt: HostRuntime) -> Result<(), Fail> {
    let command = Command::Create(Kind::Dir, DIR, ALICE, 0o755);
    let refusals = refusals_of(rt.alloc(), A, command, Outcome::Done, &[Step::Has(3)]);
    println!(rt; "refusals: {}", refusals.ok_or("another end")?)?;
    Ok(())
}

#[test]
fn create_below_a_default_list_under_a_refused_growth(rt: HostRuntime) -> Result<(), Fail> {
    let command = Command::Create(Kind::Dir, CHILD, CAROL, 0o640);
    let refusals = refusals_of(rt.alloc(), D, command, Outcome::Done, &[Step::Has(3)]);
    println!(rt; "refusals: {}", refusals.ok_or("another end")?)?;
    Ok(())
}

#[test]
fn create_below_an_nfsv4_list_under_a_refused_growth(rt: HostRuntime) -> Result<(), Fail> {
    let command = Command::Create(Kind::Dir, CHILD, CAROL, 0o640);
    let refusals = refusals_of(rt.alloc(), D_NFS4, command, Outcome::Done, &[Step::Has(3)]);
    println!(rt; "refusals: {}", refusals.ok_or("another end")?)?;
    Ok(())
}

#[test]
fn get_under_a_refused_growth(rt: HostRuntime) -> Result<(), Fail> {
    let command = Command::Get(DIR);
    let refusals = refusals_of(rt.alloc(), D, command, Outcome::Shown, &[]);
    println!(rt; "refusals: {}", refusals.ok_or("another end")?)?;
    Ok(())
}

#[test]
fn check_under_a_refused_growth(rt: HostRuntime) -> Result<(), Fail> {
    let command = Command::Check(DIR, BOB, "r");
    let refusals = refusals_of(rt.alloc(), D, command, Outcome::Granted, &[]);
    println!(rt; "refusals: {}", refusals.ok_or("another end")?)?;
    Ok(())
}

#[test]
fn check4_under_a_refused_growth(rt: HostRuntime) -> Result<(), Fail> {
    let command = Command::Check4(DIR, BOB, "r");
    let refusals = refusals_of(rt.alloc(), D_NFS4, command, Outcome::Denied, &[]);
    println!(rt; "refusals: {}", refusals.ok_or("another end")?)?;
    Ok(())
}

#[test]
fn translate_under_a_refused_growth(rt: HostRuntime) -> Result<(), Fail> {
    let command = Command::Translate(DIR);
    let refusals = refusals_of(rt.alloc(), D, command, Outcome::Translated, &[]);
    println!(rt; "refusals: {}", refusals.ok_or("another end")?)?;
    Ok(())
}

/// The directory's path, at the second attempt if the first is refused.
fn dir_path(alloc: Global, refusals: &mut Refusals) -> Option<Path> {
    refusals.again(|| Path::read(alloc, DIR.as_bytes()).ok())
}

/// What a check of bob's reading results in, at the first attempt.
fn checked(alloc: Global, world: &mut World, refusals: &mut Refusals) -> Option<Outcome> {
    let bob = uid(BOB)?;
    let perms = read_perms(b"r")?;
    let path = dir_path(alloc, refusals)?;
    world.outcome(&Request::Check(path, bob, perms))
}

/// The same of the NFSv4 list.
fn checked4(alloc: Global, world: &mut World, refusals: &mut Refusals) -> Option<Outcome> {
    let bob = uid(BOB)?;
    let mask = read_letters(b"r")?;
    let path = dir_path(alloc, refusals)?;
    world.outcome(&Request::Check4(path, bob, mask))
}

/// What the second check results in if the first results in anything, and how many allocations were
/// refused.
fn both_checked(alloc: Global) -> Option<(Outcome, Refusals)> {
    let mut refusals = Refusals::new();
    let mut world = refusals.again(|| World::after(alloc, D_NFS4))?;
    checked(alloc, &mut world, &mut refusals)?;
    let reported = checked4(alloc, &mut world, &mut refusals)?;
    Some((reported, refusals))
}

#[test]
fn checks_take_no_memory(rt: HostRuntime) -> Result<(), Fail> {
    let (reported, refusals) = both_checked(rt.alloc()).ok_or("no check")?;
    assert_eq!(rt; reported, Outcome::Denied);
    println!(rt; "refusals: {}", refusals.reported())?;
    Ok(())
}
