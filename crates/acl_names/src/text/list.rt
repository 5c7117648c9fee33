//! Lists that are written as texts: POSIX entries, NFSv4 entries.

ghost use Rattle.std.specs.Prelude.{◌≡◌, ◌≢◌, ◌≤◌, ℕ, [], List, length, Result, IfOk, IfErr};
ghost use Rattle.std.specs.Prelude.{IfSome, IsOk, IsTrue, MatchResult};
ghost use Rattle.acl_names.specs.Plain.{IsFront};
ghost use Rattle.acl_names.specs.ListText.{Spells, IsFaultOf};
ghost use Rattle.acl_names.specs.Pieces.{pieces};
ghost use Rattle.acl_names.specs.declared.text.list.ListFault.TheVariants.{Memory};

use super::pieces::Pieces;
use smallvec::SmallVec;
use std::alloc::{AllocFailed, Global};

/// Why a text isn't a list.
#[derive(Clone, Copy, Debug, PartialEq, Eq)]
pub enum ListFault<F> {
    /// The first faulty piece has this fault.
    Piece(F),
    /// There are more pieces than the list may have entries.
    TooMany,
    /// Memory ran out.
    Memory,
}

impl<T: Drop, F> From<AllocFailed<T>> for ListFault<F> {
    ghost from_gives = { λ _ fault. fault ≡ Memory };

    fn from(_refused: AllocFailed<T>) -> ListFault<F> {
        ListFault::Memory
    }
}

/// Reads the pieces of a list's text.
pub trait PieceReader {
    /// An entry of the list.
    type Value: Drop + Default;

    /// What can be wrong with a piece.
    type Fault: Drop;

    /// The entry that a piece means, or its fault.
    ghost value_of: { Self → List ℕ → Result Self.Value Self.Fault };

    /// Reads a piece: its entry, or its fault.
    fn read(&self, piece: &[u8]) -> Result<Self::Value, Self::Fault>
        ensures { result ≡ value_of self.now piece.now };

    /// The entry that the text begins with and the text after it, if the piece has no blanks and no
    /// comment. A fast path: on `None` the caller has to cut off the piece and use `read`.
    fn read_front<'t>(&self, text: &'t [u8]) -> Option<(Self::Value, &'t [u8])>
        ensures { IfSome result (λ front. IsFront (value_of self.now) text.now front.0 front.1.now) };
}

/// Reads a list of at most `limit` entries. It reads pieces from left to right and returns the
/// first fault; a piece after the last allowed entry is `TooMany` before it is read. `Memory` means
/// that memory ran out, which never happens with at most `N` pieces.
pub fn read_list<R: PieceReader, const N: usize>(
    alloc: Global,
    reader: &R,
    limit: usize,
    text: &[u8],
) -> Result<SmallVec<R::Value, N>, ListFault<R::Fault>>
    ensures read { IfOk result (λ list. Spells (R.value_of reader.now) limit text.now list.items) }
    ensures fault { IfErr result (λ fault. IsFaultOf (R.value_of reader.now) limit text.now fault) }
    // What is spelt is read, unless memory runs out.
    ensures only { (list : List R.Value) → Spells (R.value_of reader.now) limit text.now list
        → MatchResult result (λ read. read.items ≡ list) (λ fault. fault ≡ Memory) }
    // The list has room for `N` entries inline, which take no memory.
    ensures room { IfOk result (λ list. N ≤ list.capacity) }
    ensures short { length (pieces text.now) ≤ N → IfErr result (λ fault. fault ≢ Memory) }
{
    let mut list = SmallVec::new(alloc);
    let plain = read_plainly(reader, limit, text, &mut list)?;
    if plain {
        return Ok(list);
    }
    read_pieces(alloc, reader, limit, text)
}

/// Reads any text as `read_list` does, piece by piece.
fn read_pieces<R: PieceReader, const N: usize>(
    alloc: Global,
    reader: &R,
    limit: usize,
    text: &[u8],
) -> Result<SmallVec<R::Value, N>, ListFault<R::Fault>>
    ensures read { IfOk result (λ list. Spells (R.value_of reader.now) limit text.now list.items) }
    ensures fault { IfErr result (λ fault. IsFaultOf (R.value_of reader.now) limit text.now fault) }
    ensures only { (list : List R.Value) → Spells (R.value_of reader.now) limit text.now list
        → MatchResult result (λ read. read.items ≡ list) (λ fault. fault ≡ Memory) }
    ensures room { IfOk result (λ list. N ≤ list.capacity) }
    ensures short { length (pieces text.now) ≤ N → IfErr result (λ fault. fault ≢ Memory) }
{
    let mut list = SmallVec::new(alloc);
    let mut pieces = Pieces::new(text);
    while let Some(piece) = pieces.next() {
        if list.len() == limit {
            return Err(ListFault::TooMany);
        }
        match reader.read(piece) {
            Ok(value) => list.push(value)?,
            Err(fault) => return Err(ListFault::Piece(fault)),
        }
    }
    Ok(list)
}

/// Reads in one pass a text whose pieces have no blanks and comments, and a comma or newline
/// between any two, as most texts do. A fast path: on `false` the caller has to use `read_pieces`.
/// Fails only if memory runs out.
fn read_plainly<R: PieceReader, const N: usize>(
    reader: &R,
    limit: usize,
    text: &[u8],
    list: &mut SmallVec<R::Value, N>,
) -> Result<bool, ListFault<R::Fault>>
    requires empty { list.old.items ≡ [] }
    requires room { N ≤ list.old.capacity }
    ensures read { IfOk result (λ plain. IsTrue plain
        → Spells (R.value_of reader.now) limit text.now list.new.items) }
    ensures fault { IfErr result (λ fault. fault ≡ Memory) }
    ensures room { N ≤ list.new.capacity }
    ensures short { length (pieces text.now) ≤ N → IsOk result }
{
    let mut rest = text;
    while list.len() < limit {
        let Some((value, behind)) = reader.read_front(rest) else {
            return Ok(false);
        };
        list.push(value)?;
        if behind.is_empty() {
            return Ok(true);
        }
        let separator = behind[0];
        let more = &behind[1..];
        if separator == b',' {
            rest = more;
            continue;
        }
        if separator != b'\n' {
            return Ok(false);
        }
        if more.is_empty() {
            return Ok(true);
        }
        rest = more;
    }
    Ok(false)
}
