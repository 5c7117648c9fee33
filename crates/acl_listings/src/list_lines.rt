//! Which lines of a block belong to which of its lists.

ghost use Rattle.std.specs.Prelude.{◌≡◌, ◌++◌, IfOk, OnOk, option_map};
ghost use Rattle.std.specs.List.{list_any};
ghost use Rattle.acl_names.specs.Bytes.{newline};
ghost use Rattle.acl_names.specs.Pieces.{parts, pieces};
ghost use Rattle.acl_listings.specs.ListLines.{ended_line, is_default, line_of, pieces_of};

use acl_names::Parts;
use std::alloc::{AllocError, Global};

/// A list of a block.
#[derive(Clone, Copy, Debug, PartialEq, Eq)]
pub(crate) enum ListKind {
    Access,
    Default,
    Nfs4,
    Freebsd,
}

fn is_default(line: &[u8]) -> bool
    ensures { result ≡ is_default line.now }
{
    line.starts_with(b"default:")
}

/// The part of a line that belongs to the list: of a default list's line the text after `default:`,
/// and of an access list's the whole line. `None` for a line of another list.
pub(crate) fn line_of(kind: ListKind, line: &[u8]) -> Option<&[u8]>
    ensures { option_map (λ text. text.now) result ≡ line_of kind line.now }
{
    match kind {
        ListKind::Access => { if is_default(line) { None } else { Some(line) } }
        ListKind::Default => {
            if is_default(line) {
                Some(&line[8..])
            } else {
                None
            }
        }
        ListKind::Nfs4 | ListKind::Freebsd => Some(line),
    }
}

/// Whether any line is one of a default list.
pub(crate) fn has_default(list: &[u8]) -> bool
    ensures { result ≡ list_any is_default (parts newline list.now) }
{
    let mut lines = Parts::new(b'\n', list);
    while let Some(line) = lines.next() {
        if is_default(line) {
            return true;
        }
    }
    false
}

/// Appends the part of the line that belongs to the list, and a newline after it.
fn push_line_of(kind: ListKind, line: &[u8], out: &mut Vec<u8>) -> Result<(), AllocError>
    ensures { OnOk result (out.new.items ≡ out.old.items ++ ended_line (line_of kind line.now)) }
{
    match line_of(kind, line) {
        Some(text) => {
            out.extend_from_slice(text)?;
            out.push(b'\n')?;
            Ok(())
        }
        None => Ok(()),
    }
}

/// The parts of the lines that belong to the list, each with a newline.
pub(crate) fn lines_of(alloc: Global, kind: ListKind, list: &[u8]) -> Result<Vec<u8>, AllocError>
    ensures { IfOk result (λ copy. pieces copy.items ≡ pieces_of kind list.now) }
{
    let mut copy = Vec::with_capacity(alloc, list.len())?;
    let mut lines = Parts::new(b'\n', list);
    while let Some(line) = lines.next() {
        push_line_of(kind, line, &mut copy)?;
    }
    Ok(copy)
}
