//! The piece of a list that is at fault.
ghost use Rattle.std.specs.Prelude.{◌≡◌};
ghost use Rattle.acl_lint.specs.Places.{is_of_piece, piece_at_fault, piece_of_trimmed};
ghost use Rattle.acl_lint.specs.Places.{unread_in, unread_of_fields, unread_of_kind};

use acl_names::{Directory, PieceReader, Pieces, split_word, trim_blanks};
use acl_nfs4::{MAX_ACES, NamedAceReader, NamesInDomain};
use acl_posix::{EntryReader, MAX_ENTRIES};
use acl_tree::LineFault;
use std::marker::Model;

/// A piece of a list's text, and its number, from 1.
#[derive(Debug, Drop)]
pub(crate) struct Piece<'t> {
    pub(crate) number: u32,
    pub(crate) text: &'t [u8],
}

impl<'t> Model for Piece<'t> {
    ghost use Rattle.acl_lint.specs.Places.{Piece as PieceValue};

    ghost Value = { PieceValue };

    ghost view = { λ piece. record { number = piece.number; text = piece.text.now } };
}

/// The first malformed piece of a text, out of as many as a list may have.
fn first_unread<'t, R: PieceReader>(reader: &R, most: u32, text: &'t [u8]) -> Option<Piece<'t>>
    ensures { result ≡ unread_in (R.value_of reader.now) most text.now }
{
    let mut pieces = Pieces::new(text);
    for number in 0..most {
        let piece = pieces.next()?;
        if reader.read(piece).is_err() {
            return Some(Piece {
                number: number + 1,
                text: piece,
            });
        }
    }
    None
}

/// The first malformed piece of a list's text; `kind` is the word for its kind.
fn unread_of_kind<'t>(directory: &Directory, kind: &[u8], text: &'t [u8]) -> Option<Piece<'t>>
    ensures { result ≡ unread_of_kind directory.now kind.now text.now }
{
    if kind == b"nfs4".as_slice() {
        let names = NamesInDomain { directory };
        first_unread(&NamedAceReader { names: &names }, MAX_ACES as u32, text)
    } else {
        first_unread(&EntryReader { names: directory }, MAX_ENTRIES as u32, text)
    }
}

/// The first malformed piece of the list in the fields `PATH KIND TEXT`.
fn unread_of_fields<'t>(directory: &Directory, fields: &'t [u8]) -> Option<Piece<'t>>
    ensures { result ≡ unread_of_fields directory.now fields.now }
{
    let (_path, fields) = split_word(fields);
    let (kind, text) = split_word(fields);
    unread_of_kind(directory, kind, text)
}

/// Whether a piece can have this fault.
fn is_of_piece(fault: LineFault) -> bool
    ensures { result ≡ is_of_piece fault }
{
    match fault {
        LineFault::BadAcl | LineFault::UnknownName | LineFault::InheritOnly => true,
        _ => false,
    }
}

fn piece_of_trimmed<'t>(
    directory: &Directory,
    fault: LineFault,
    line: &'t [u8],
) -> Option<Piece<'t>>
    ensures { result ≡ piece_of_trimmed directory.now fault line.now }
{
    let (word, fields) = split_word(line);
    if is_of_piece(fault) && word == b"set".as_slice() {
        unread_of_fields(directory, fields)
    } else {
        None
    }
}

/// The piece at fault in a line with this fault; `None` unless the line sets a list and a piece can
/// have the fault.
pub(crate) fn piece_at_fault<'t>(
    directory: &Directory,
    fault: LineFault,
    line: &'t [u8],
) -> Option<Piece<'t>>
    ensures { result ≡ piece_at_fault directory.now fault line.now }
{
    piece_of_trimmed(directory, fault, trim_blanks(line))
}
