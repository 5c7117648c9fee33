//! Nodes that are shown, and what lines and answers result in; none where memory is refused or a
//! text is.
use crate::lists::{Lists, lists_of};
use acl_lang::{Answer, Line, read_line, render};
use acl_names::{Gid, Uid};
use acl_nfs4::Kind;
use acl_posix::Mode;
use acl_tree::{Boxed, LineFault, Path, Request, View};
use std::alloc::Global;
use tests_common::directory;

/// A node as the tests write it down.
#[derive(Clone, Copy)]
pub struct Shown<'a> {
    pub path: &'a str,
    pub kind: Kind,
    pub owner: u32,
    pub group: u32,
    pub mode: u16,
    pub lists: Lists<'a>,
}

/// The node in a box.
pub fn boxed(alloc: Global, shown: Shown<'_>) -> Option<Boxed<View>> {
    let kind = shown.kind;
    let owner = Uid::new(shown.owner)?;
    let group = Gid::new(shown.group)?;
    let mode = Mode::from_bits(shown.mode)?;
    let acl = lists_of(alloc, shown.lists)?;
    let path = Path::read(alloc, shown.path.as_bytes()).ok()?;
    let view = View {
        path,
        kind,
        owner,
        group,
        mode,
        acl,
    };
    Boxed::new(alloc, view).ok()
}

/// The code of a line's fault; 0 of a command, and 100 of a line that gives nothing.
pub fn code_of(alloc: Global, line: &[u8]) -> Option<u8> {
    let names = directory(alloc)?;
    let line = read_line(alloc, line, &names).ok()?;
    Some(code_in(&line))
}

fn code_in(line: &Line) -> u8 {
    match line {
        Line::Nothing => 100,
        Line::Command(Request::Bad(fault)) => code(*fault),
        Line::Command(_) => 0,
    }
}

pub fn code(fault: LineFault) -> u8 {
    match fault {
        LineFault::Syntax => 1,
        LineFault::BadPath => 2,
        LineFault::BadMode => 3,
        LineFault::BadPerms => 4,
        LineFault::UnknownName => 5,
        LineFault::BadAcl => 6,
        LineFault::InvalidAcl => 7,
        LineFault::TooMany => 8,
        LineFault::InheritOnly => 9,
        LineFault::LineTooLong => 10,
    }
}

/// Whether this is printed of the answer, and how much room printing it asks for.
pub fn is_printed(alloc: Global, answer: &Answer, text: &str) -> Option<(bool, usize)> {
    let names = directory(alloc)?;
    let mut out = Vec::new(alloc);
    render(answer, &names, &mut out).ok()?;
    Some((out.as_slice() == text.as_bytes(), out.capacity()))
}
