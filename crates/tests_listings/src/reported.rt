//! What a listing reports, a line for each block: its number, and the path, the owner, the group,
//! the lists of its file in the short text form and its flags, if it has any; or `fault`, the word
//! and the path.
use acl_listings::{Blocks, File, FileFault, FileFlags, Lists, path_of, read_file};
use acl_names::{Directory, push_decimal};
use acl_posix::Acl;
use std::alloc::Global;
use std::io::Read;
use tests_common::directory;

fn push_number(number: u32, out: &mut Vec<u8>) -> Option<()> {
    push_decimal(number, out).ok()
}

fn push_file(file: &File<'_>, out: &mut Vec<u8>) -> Option<()> {
    out.extend_from_slice(file.path).ok()?;
    out.push(b' ').ok()?;
    push_number(file.owner.value(), out)?;
    out.push(b' ').ok()?;
    push_number(file.group.value(), out)?;
    out.push(b' ').ok()?;
    push_lists(&file.lists, out)?;
    push_flags(file.flags, out)
}

fn push_lists(lists: &Lists, out: &mut Vec<u8>) -> Option<()> {
    match lists {
        Lists::Posix { access, default } => {
            access.print_short(out).ok()?;
            push_default(default, out)
        }
        Lists::Nfs4 { acl } => acl.print_short(out).ok(),
    }
}

fn push_default(default: &Option<Acl>, out: &mut Vec<u8>) -> Option<()> {
    match default {
        Some(default) => {
            out.extend_from_slice(b" default ").ok()?;
            default.print_short(out).ok()
        }
        None => Some(()),
    }
}

fn push_flags(flags: FileFlags, out: &mut Vec<u8>) -> Option<()> {
    if flags.set_user_id {
        out.extend_from_slice(b" set-user-id").ok()?;
    }
    if flags.set_group_id {
        out.extend_from_slice(b" set-group-id").ok()?;
    }
    if flags.sticky {
        out.extend_from_slice(b" sticky").ok()?;
    }
    Some(())
}

fn push_fault(word: &str, path: Option<&[u8]>, out: &mut Vec<u8>) -> Option<()> {
    out.extend_from_slice(b"fault ").ok()?;
    out.extend_from_slice(word.as_bytes()).ok()?;
    out.push(b' ').ok()?;
    out.extend_from_slice(path.unwrap_or(b"-")).ok()
}

/// Appends what a block reports; none if memory is refused.
fn push_block(alloc: Global, text: &[u8], names: &Directory, out: &mut Vec<u8>) -> Option<()> {
    match read_file(alloc, text, names) {
        Ok(file) => push_file(&file, out),
        Err(FileFault::Block(fault)) => push_fault(fault.word(), path_of(text), out),
        Err(FileFault::Memory) => None,
    }
}

/// What the blocks of a reader report, up to its end.
pub fn reported_by<R: Read + Drop>(alloc: Global, reader: R) -> Option<Vec<u8>> {
    let names = directory(alloc)?;
    let mut out = Vec::new(alloc);
    let mut blocks = Blocks::new(alloc, reader).ok()?;
    for _ in 0..u64::MAX {
        if !blocks.advance().ok()? {
            return Some(out);
        }
        push_number(u32::try_from(blocks.line()).ok()?, &mut out)?;
        out.push(b' ').ok()?;
        push_block(alloc, blocks.text(), &names, &mut out)?;
        out.push(b'\n').ok()?;
    }
    None
}

/// Whether the text is this; not if there is none.
pub fn is_text(text: Option<Vec<u8>>, wanted: &[u8]) -> bool {
    match text {
        Some(text) => text.as_slice() == wanted,
        None => false,
    }
}

/// Whether a listing reports this.
pub fn reports(alloc: Global, listing: &[u8], wanted: &[u8]) -> bool {
    is_text(reported_by(alloc, listing), wanted)
}

/// What a block reports; none if memory is refused.
fn reported_of(alloc: Global, text: &[u8]) -> Option<Vec<u8>> {
    let names = directory(alloc)?;
    let mut out = Vec::new(alloc);
    push_block(alloc, text, &names, &mut out)?;
    Some(out)
}

/// Whether a block reports this.
pub fn block_reports(alloc: Global, text: &[u8], wanted: &[u8]) -> bool {
    is_text(reported_of(alloc, text), wanted)
}
