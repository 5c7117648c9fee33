//! Calls that may run out of memory: one failed allocation, wherever it falls, is reported by the
//! call in which it falls, leaves everything as it was, and the call may be made again.
//!
//! `rt try --test --fail-alloc N` fails allocation N of a test. Each test here passes whichever
//! growth that is, and prints how many failures it saw: one up to the last allocation that it asks
//! for, and none from then on.
use crate::lang::fixture::{Shown, boxed};
use crate::lists::Lists;
use acl_lang::{Answer, Line, Numbered, Requests, push_command, read_line, read_text, render};
use acl_names::{Directory, Uid};
use acl_nfs4::{Ace, AceType, Acl4, Flags as AceFlags, Kind, Mask, Who};
use acl_posix::{Acl, Entry, Perms, Tag};
use acl_tree::{LineFault, Reply, Request};
use bitflags::Flags;
use std::alloc::Global;
use std::test::Fail;
use tests_common::{Refusals, directory};

/// A list of more entries than stand in the value itself.
const LONG: &str = "u::rw,u:1:r,u:2:r,u:3:r,u:4:r,u:5:r,u:6:r,u:7:r,u:bob:rw,g::r,m::r,o::-";

/// The second path has more than the 16 bytes that take no memory.
const TEXT: &[u8] =
    b"# lists\nset /a access u::rw,u:1:r,u:2:r,u:3:r,u:4:r,u:5:r,u:6:r,u:7:r,u:bob:rw,g::r,m::r,o::-\n\nchmod /a 6\nget /plans/budget-026\nset /a nfs4 A:f:1:r,A:f:2:r,A:f:3:r,A:f:4:r,A:f:5:r,A:f:6:r,A:f:7:r,A:f:8:r,A:f:9:r,A:f:10:r,A:f:11:r,A:f:12:r,A:f:13:r,A:f:14:r,A:f:15:r,A:f:16:r,A:f:17:r";

const LINE: &[u8] =
    b"set /a default u::rw,u:1:r,u:2:r,u:3:r,u:4:r,u:5:r,u:6:r,u:7:r,u:bob:rw,g::r,m::r,o::-";

/// A directory, and what is printed of it.
const DIRECTORY: Shown<'static> = Shown {
    path: "/d",
    kind: Kind::Dir,
    owner: 1000,
    group: 50,
    mode: 0o640,
    lists: Lists::Posix(LONG, Some(LONG)),
};

const SHOWN: &[u8] =
    b"1 get /d dir alice staff 640 posix\nuser::rw-\nuser:1:r--\nuser:2:r--\nuser:3:r--\nuser:4:r--\nuser:5:r--\nuser:6:r--\nuser:7:r--\nuser:bob:rw-\t#effective:r--\ngroup::r--\nmask::r--\nother::---\ndefault:user::rw-\ndefault:user:1:r--\ndefault:user:2:r--\ndefault:user:3:r--\ndefault:user:4:r--\ndefault:user:5:r--\ndefault:user:6:r--\ndefault:user:7:r--\ndefault:user:bob:rw-\t#effective:r--\ndefault:group::r--\ndefault:mask::r--\ndefault:other::---\n";

/// Whether the entry names the user, with these permissions.
fn is_user(entry: &Entry, uid: u32, perms: Perms) -> bool {
    match Uid::new(uid) {
        Some(uid) => entry.tag == Tag::User(uid) && entry.perms == perms,
        None => false,
    }
}

/// Whether the list is the long one, entry for entry.
fn is_long(list: &Acl) -> bool {
    match list.entries() {
        [
            owner,
            first,
            second,
            third,
            fourth,
            fifth,
            sixth,
            seventh,
            bob,
            group,
            mask,
            other,
        ] => {
            let both = Perms::READ | Perms::WRITE;
            let users = [first, second, third, fourth, fifth, sixth, seventh];
            let mut uid: u32 = 0;
            for user in users {
                uid = uid.saturating_add(1);
                if !is_user(user, uid, Perms::READ) {
                    return false;
                }
            }
            owner.tag == Tag::UserObj
                && owner.perms == both
                && is_user(bob, 1001, both)
                && group.tag == Tag::GroupObj
                && group.perms == Perms::READ
                && mask.tag == Tag::Mask
                && mask.perms == Perms::READ
                && other.tag == Tag::Other
                && other.perms == Perms::empty()
        }
        _ => false,
    }
}

/// Whether the entry lets the user read, and files below take it over.
fn is_reader(ace: &Ace, uid: u32) -> bool {
    let Some(uid) = Uid::new(uid) else {
        return false;
    };
    let reader = Ace::new(
        AceType::Allow,
        AceFlags::FILE_INHERIT,
        Who::User(uid),
        Mask::READ_DATA,
    );
    *ace == reader
}

/// Whether the list is that of the text: users 1 to 17.
fn is_long4(list: &Acl4) -> bool {
    let mut uid: u32 = 0;
    for ace in list.aces() {
        uid = uid.saturating_add(1);
        if !is_reader(ace, uid) {
            return false;
        }
    }
    uid == 17
}

/// Whether the request is the text's on the line.
fn is_of_text(numbered: &Numbered, line: u32) -> bool {
    if numbered.line != line {
        return false;
    }
    match (&numbered.request, line) {
        (Request::SetAccess(path, list), 2) => path.as_bytes() == b"/a".as_slice() && is_long(list),
        (Request::Bad(fault), 4) => *fault == LineFault::BadMode,
        (Request::Get(path), 5) => path.as_bytes() == b"/plans/budget-026".as_slice(),
        (Request::SetNfs4(path, list), 6) => path.as_bytes() == b"/a".as_slice() && is_long4(list),
        _ => false,
    }
}

/// Whether the requests are the text's.
fn are_of_text(requests: &[Numbered]) -> bool {
    match requests {
        [first, second, third, fourth] => {
            is_of_text(first, 2)
                && is_of_text(second, 4)
                && is_of_text(third, 5)
                && is_of_text(fourth, 6)
        }
        _ => false,
    }
}

/// The directory of the examples, at the second attempt if the first is refused.
fn names(alloc: Global, refusals: &mut Refusals) -> Option<Directory> {
    refusals.again(|| directory(alloc))
}

/// How many failures the test saw, if all went as it should.
fn reported(refusals: Refusals, right: Option<bool>) -> Option<u32> {
    if right == Some(true) {
        Some(refusals.reported())
    } else {
        None
    }
}

/// Whether a line that is read sets the long list as a default list.
fn reads_line(alloc: Global, names: &Directory) -> Option<bool> {
    let line = read_line(alloc, LINE, names).ok()?;
    match &line {
        Line::Command(Request::SetDefault(path, Some(list))) => {
            Some(path.as_bytes() == b"/a".as_slice() && is_long(list))
        }
        _ => Some(false),
    }
}

fn reported_by_read_line(alloc: Global) -> Option<u32> {
    let mut refusals = Refusals::new();
    let names = names(alloc, &mut refusals)?;
    let right = refusals.again(|| reads_line(alloc, &names));
    reported(refusals, right)
}

#[test]
fn read_line_under_a_refused_growth(rt: HostRuntime) -> Result<(), Fail> {
    let refusals = reported_by_read_line(rt.alloc()).ok_or("another end")?;
    println!(rt; "refusals: {refusals}")?;
    Ok(())
}

/// Whether the text gives its requests.
fn reads_text(alloc: Global, names: &Directory) -> Option<bool> {
    let requests = read_text(alloc, TEXT, names).ok()?;
    Some(are_of_text(requests.as_slice()))
}

fn reported_by_read_text(alloc: Global) -> Option<u32> {
    let mut refusals = Refusals::new();
    let names = names(alloc, &mut refusals)?;
    let right = refusals.again(|| reads_text(alloc, &names));
    reported(refusals, right)
}

#[test]
fn read_text_under_a_refused_growth(rt: HostRuntime) -> Result<(), Fail> {
    let refusals = reported_by_read_text(rt.alloc()).ok_or("another end")?;
    println!(rt; "refusals: {refusals}")?;
    Ok(())
}

/// Whether the next request is the text's on the line.
fn is_next(alloc: Global, requests: &mut Requests<'_>, line: u32) -> Option<bool> {
    match requests.next(alloc) {
        Ok(Some(numbered)) => Some(is_of_text(&numbered, line)),
        Ok(None) => Some(false),
        Err(_) => None,
    }
}

/// Whether the requests come one by one, each at the second attempt if the first is refused, and no
/// further one.
fn come(alloc: Global, requests: &mut Requests<'_>, refusals: &mut Refusals) -> Option<bool> {
    for line in [2, 4, 5, 6] {
        let mut right = is_next(alloc, requests, line);
        if right.is_none() {
            refusals.one_more();
            right = is_next(alloc, requests, line);
        }
        if right != Some(true) {
            return right;
        }
    }
    Some(requests.next(alloc).ok()?.is_none())
}

fn reported_by_requests(alloc: Global) -> Option<u32> {
    let mut refusals = Refusals::new();
    let names = names(alloc, &mut refusals)?;
    let mut requests = Requests::new(TEXT, &names);
    let right = come(alloc, &mut requests, &mut refusals);
    reported(refusals, right)
}

#[test]
fn requests_under_a_refused_growth(rt: HostRuntime) -> Result<(), Fail> {
    let refusals = reported_by_requests(rt.alloc()).ok_or("another end")?;
    println!(rt; "refusals: {refusals}")?;
    Ok(())
}

/// The answer to line 1 that shows a directory.
fn answer(alloc: Global) -> Option<Answer> {
    let reply = Reply::Node(boxed(alloc, DIRECTORY)?);
    Some(Answer { line: 1, reply })
}

/// Whether the answer is printed, at the second attempt if the first is refused, which prints
/// nothing.
fn is_rendered(
    alloc: Global,
    names: &Directory,
    answer: &Answer,
    refusals: &mut Refusals,
) -> Option<bool> {
    let mut out = Vec::new(alloc);
    if render(answer, names, &mut out).is_err() {
        refusals.one_more();
        if !out.is_empty() {
            return Some(false);
        }
        render(answer, names, &mut out).ok()?;
    }
    Some(out.as_slice() == SHOWN)
}

fn reported_by_render(alloc: Global) -> Option<u32> {
    let mut refusals = Refusals::new();
    let names = names(alloc, &mut refusals)?;
    let answer = refusals.again(|| answer(alloc))?;
    let right = is_rendered(alloc, &names, &answer, &mut refusals);
    reported(refusals, right)
}

#[test]
fn render_under_a_refused_growth(rt: HostRuntime) -> Result<(), Fail> {
    let refusals = reported_by_render(rt.alloc()).ok_or("another end")?;
    println!(rt; "refusals: {refusals}")?;
    Ok(())
}

/// What LINE asks for, printed.
const COMMAND: &[u8] =
    b"set /a default u::rw-,u:1:r--,u:2:r--,u:3:r--,u:4:r--,u:5:r--,u:6:r--,u:7:r--,u:1001:rw-,g::r--,m::r--,o::---";

/// What LINE asks for.
fn request(alloc: Global, names: &Directory) -> Option<Request> {
    match read_line(alloc, LINE, names).ok()? {
        Line::Command(request) => Some(request),
        Line::Nothing => None,
    }
}

/// Whether the command is printed, at the second attempt if the first is refused, which prints
/// nothing.
fn is_put(alloc: Global, request: &Request, refusals: &mut Refusals) -> Option<bool> {
    let mut out = Vec::new(alloc);
    if push_command(request, &mut out).is_err() {
        refusals.one_more();
        if !out.is_empty() {
            return Some(false);
        }
        push_command(request, &mut out).ok()?;
    }
    Some(out.as_slice() == COMMAND)
}

fn reported_by_push_command(alloc: Global) -> Option<u32> {
    let mut refusals = Refusals::new();
    let names = names(alloc, &mut refusals)?;
    let request = refusals.again(|| request(alloc, &names))?;
    let right = is_put(alloc, &request, &mut refusals);
    reported(refusals, right)
}

#[test]
fn push_command_under_a_refused_growth(rt: HostRuntime) -> Result<(), Fail> {
    let refusals = reported_by_push_command(rt.alloc()).ok_or("another end")?;
    println!(rt; "refusals: {refusals}")?;
    Ok(())
}
