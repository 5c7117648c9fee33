//! The line of a block that is at fault.

ghost use Rattle.std.specs.Prelude.{◌≡◌, ◌≤◌, ◌+◌, false, true, length, IfNone, IfSome};
ghost use Rattle.acl_names.specs.Bytes.{newline};
ghost use Rattle.acl_names.specs.Pieces.{parts, pieces};
ghost use Rattle.acl_listings.specs.FaultyLine.{IsBadLine, IsFaultyAt, IsFirstFaulty};
ghost use Rattle.acl_listings.specs.FaultyLine.{before_bad_header, faulty_kind, is_entry};
ghost use Rattle.acl_listings.specs.FaultyLine.{is_owner_line, line_at, lines_read, most};
ghost use Rattle.acl_listings.specs.FaultyLine.{room_behind, room_behind_line};
ghost use Rattle.acl_listings.specs.ListLines.{line_of};

use crate::fault::BlockFault;
use crate::file::lines_behind;
use crate::header::{after_prefix, read_path, split_line};
use crate::list_lines::{ListKind, line_of};
use acl_forms::{Form, form_of, read_entry};
use acl_names::{NameFault, Parts, PieceReader, Pieces, ResolveNames};
use acl_nfs4::{MAX_ACES, NamedAceReader};
use acl_posix::{EntryReader, MAX_ENTRIES};

/// The line of a block that is at fault, and how many lines are before it. For a fault of the block
/// as a whole this is the first line; for a fault of a list, the line with the first entry that is
/// malformed or one too many.
pub fn faulty_line<'t, N: ResolveNames>(
    text: &'t [u8],
    fault: BlockFault,
    names: &N,
) -> (usize, &'t [u8])
    ensures at { IsFaultyAt (N.names names.now) fault text.now result.0 }
    ensures line { result.1.now ≡ line_at text.now result.0 }
{
    let before = faulty_at(text, fault, names);
    (before, line_at(text, before))
}

/// How many lines of a block are before the one at fault.
fn faulty_at<N: ResolveNames>(text: &[u8], fault: BlockFault, names: &N) -> usize
    ensures { IsFaultyAt (N.names names.now) fault text.now result }
{
    match fault {
        BlockFault::BadHeader => before_bad_header(text, names),
        BlockFault::UnknownOwner => 1,
        BlockFault::UnknownGroup => 2,
        BlockFault::Acl(_) => {
            let list = lines_behind(lines_behind(lines_behind(text)));
            3 + before_bad_entry(list, names)
        }
        BlockFault::TooLong
        | BlockFault::RepeatedPath
        | BlockFault::InvalidAcl(_)
        | BlockFault::UnknownWay => 0,
    }
}

/// The line of a text after `before` others.
fn line_at(text: &[u8], before: usize) -> &[u8]
    ensures { result.now ≡ line_at text.now before }
{
    let mut rest = text;
    let mut lines = before;
    while lines > 0 {
        rest = lines_behind(rest);
        lines -= 1;
    }
    let (line, _) = split_line(rest);
    line
}

/// How many lines are before the first of three that isn't one of a header.
fn before_bad_header<N: ResolveNames>(text: &[u8], names: &N) -> usize
    ensures { result ≡ before_bad_header (N.names names.now) text.now }
{
    let (file_line, behind) = split_line(text);
    let (owner_line, _) = split_line(behind);
    if read_path(file_line).is_none() {
        0
    } else if is_owner_line(owner_line, names) {
        2
    } else {
        1
    }
}

/// Whether the line names the file's owner, by an id or a name.
fn is_owner_line<N: ResolveNames>(line: &[u8], names: &N) -> bool
    ensures { result ≡ is_owner_line (N.names names.now) line.now }
{
    match after_prefix(b"# owner: ", line) {
        Some(owner) => !matches!(names.uid_written(owner), Err(NameFault::Malformed)),
        None => false,
    }
}

/// How many lines of a list are before the first with an entry that is malformed or one too many.
fn before_bad_entry<N: ResolveNames>(list: &[u8], names: &N) -> usize
    ensures first { IsBadLine (N.names names.now) (faulty_kind (N.names names.now) list.now)
        (parts newline list.now) result }
    ensures bound { result ≤ length list.now + 1 }
{
    match form_of(list) {
        Form::Posix => match bad_line(list, ListKind::Access, names) {
            Some(before) => before,
            None => bad_line_or_first(list, ListKind::Default, names),
        },
        Form::Nfs4 => bad_line_or_first(list, ListKind::Nfs4, names),
        Form::Freebsd => bad_line_or_first(list, ListKind::Freebsd, names),
    }
}

fn bad_line_or_first<N: ResolveNames>(list: &[u8], kind: ListKind, names: &N) -> usize
    ensures first { IsBadLine (N.names names.now) kind (parts newline list.now) result }
    ensures bound { result ≤ length list.now + 1 }
{
    match bad_line(list, kind, names) {
        Some(before) => before,
        None => 0,
    }
}

/// How many lines are before the first with an entry of this list that is malformed or one too
/// many; `None` without such an entry.
fn bad_line<N: ResolveNames>(list: &[u8], kind: ListKind, names: &N) -> Option<usize>
    ensures first { IfSome result (IsFirstFaulty (N.names names.now) kind
        (parts newline list.now)) }
    ensures bad { IfSome result (λ _. lines_read (N.names names.now) kind
        (parts newline list.now) ≡ false) }
    ensures read { IfNone result (lines_read (N.names names.now) kind
        (parts newline list.now) ≡ true) }
    ensures bound { IfSome result (λ before. before ≤ length list.now + 1) }
{
    let mut before = 0;
    let mut room = most(kind);
    let mut lines = Parts::new(b'\n', list);
    while let Some(line) = lines.next() {
        let Some(left) = room_behind_line(line, kind, room, names) else {
            return Some(before);
        };
        room = left;
        before += 1;
    }
    None
}

/// How many entries a list may have.
fn most(kind: ListKind) -> usize
    ensures { result ≡ most kind }
{
    match kind {
        ListKind::Access | ListKind::Default => MAX_ENTRIES,
        ListKind::Nfs4 | ListKind::Freebsd => MAX_ACES,
    }
}

/// How many more entries the list may have after a line, if it may have `room` before it. `None` if
/// an entry of the line is malformed or one too many.
fn room_behind_line<N: ResolveNames>(
    line: &[u8],
    kind: ListKind,
    room: usize,
    names: &N,
) -> Option<usize>
    ensures { result ≡ room_behind_line (N.names names.now) kind room (line_of kind line.now) }
{
    match line_of(kind, line) {
        Some(text) => room_behind(text, kind, room, names),
        None => Some(room),
    }
}

/// The same for the part of a line that belongs to the list.
fn room_behind<N: ResolveNames>(
    text: &[u8],
    kind: ListKind,
    room: usize,
    names: &N,
) -> Option<usize>
    ensures { result ≡ room_behind (N.names names.now) kind room (pieces text.now) }
{
    let mut left = room;
    let mut pieces = Pieces::new(text);
    while let Some(piece) = pieces.next() {
        if left == 0 || !is_entry(piece, kind, names) {
            return None;
        }
        left -= 1;
    }
    Some(left)
}

/// Whether the piece is an entry of a list of this kind.
fn is_entry<N: ResolveNames>(piece: &[u8], kind: ListKind, names: &N) -> bool
    ensures { result ≡ is_entry (N.names names.now) kind piece.now }
{
    match kind {
        ListKind::Access | ListKind::Default => EntryReader { names }.read(piece).is_ok(),
        ListKind::Nfs4 => NamedAceReader { names }.read(piece).is_ok(),
        ListKind::Freebsd => read_entry(piece, names).is_ok(),
    }
}
