//! Reading lists of entries.

ghost use Rattle.std.specs.Prelude.{Ok, Some, ◌≡◌, ◌≢◌, ◌≤◌, ℕ, false, List, length, option_map};
ghost use Rattle.std.specs.Prelude.{IfOk, IfErr, MatchResult};
ghost use Rattle.acl_names.specs.ListText.{IsFaultOf, Spells};
ghost use Rattle.acl_names.specs.Pieces.{pieces};
ghost use Rattle.acl_nfs4.specs.Ace.{IsAce, Nfsace4, is_idle};
ghost use Rattle.acl_nfs4.specs.AceFields.{refuse_idle, fields_of, type_of};
ghost use Rattle.acl_nfs4.specs.AceText.{piece_value};
ghost use Rattle.acl_nfs4.specs.AceViews.{view_fields};
ghost use Rattle.acl_nfs4.specs.NamedAces.{ace_by};
ghost use Rattle.acl_nfs4.specs.ReadFault.{list_fault, IsFaultBy, IsTextFault};
ghost use Rattle.acl_nfs4.specs.declared.acl.AceFault.TheVariants.{Memory};
ghost use Rattle.acl_nfs4.specs.declared.limits.TheConstants.{INLINE_ACES};

use crate::front::fields_in_front;
use crate::letters::{read_flags, read_letters};
use crate::limits::MAX_ACES;
use crate::named::read_who;
use crate::{Ace, AceFault, AceType, Acl4, NamesInDomain};
use acl_names::{Directory, ListFault, Parts, PieceReader, ResolveNames, read_list, trim_blanks};
use std::alloc::Global;

/// What is wrong with one piece of a text.
#[derive(Clone, Copy, Debug, PartialEq, Eq)]
pub enum PieceFault {
    Syntax,
    UnknownName,
    InheritOnly,
}

impl From<ListFault<PieceFault>> for AceFault {
    ghost from_gives = { λ fault becomes. list_fault becomes ≡ fault };

    fn from(fault: ListFault<PieceFault>) -> AceFault {
        match fault {
            ListFault::Piece(PieceFault::Syntax) => AceFault::Syntax,
            ListFault::Piece(PieceFault::UnknownName) => AceFault::UnknownName,
            ListFault::Piece(PieceFault::InheritOnly) => AceFault::InheritOnly,
            ListFault::TooMany => AceFault::TooMany,
            ListFault::Memory => AceFault::Memory,
        }
    }
}

/// `type:flags:who:letters`.
#[derive(Clone, Copy, Debug)]
pub(crate) struct AceFields<'a> {
    pub kind: &'a [u8],
    pub flags: &'a [u8],
    pub who: &'a [u8],
    pub letters: &'a [u8],
}

/// Reads entries, and resolves their names by `names`.
#[derive(Drop)]
pub struct NamedAceReader<'a, N: ResolveNames> {
    pub names: &'a N,
}

impl<'a, N: ResolveNames> PieceReader for NamedAceReader<'a, N> {
    type Value = Ace;

    type Fault = PieceFault;

    ghost value_of = { λ reader. ace_by (N.names reader.names.now) };

    #[tactic(auto, unfolding(crate::specs::NamedAces::ace_by))]
    fn read(&self, piece: &[u8]) -> Result<Ace, PieceFault> {
        match read_fields(piece) {
            Some(fields) => ace_of_fields(self.names, fields),
            None => Err(PieceFault::Syntax),
        }
    }

    fn read_front<'t>(&self, text: &'t [u8]) -> Option<(Ace, &'t [u8])> {
        let Some((fields, rest)) = fields_in_front(text) else {
            return None;
        };
        let Ok(ace) = ace_of_fields(self.names, fields) else {
            return None;
        };
        Some((ace, rest))
    }
}

/// The entry that a piece with these fields means, or its fault.
#[inline(always)]
#[tactic(auto, unfolding(crate::specs::NamedAces::ace_by))]
fn ace_of_fields<N: ResolveNames>(names: &N, fields: AceFields<'_>) -> Result<Ace, PieceFault>
    ensures { (piece : List ℕ) → fields_of piece ≡ Some (view_fields fields.entry)
        → result ≡ ace_by (N.names names.now) piece }
{
    let kind = read_type(fields.kind).ok_or(PieceFault::Syntax)?;
    let flags = read_flags(fields.flags).ok_or(PieceFault::Syntax)?;
    let mask = read_letters(fields.letters).ok_or(PieceFault::Syntax)?;
    let who = read_who(names, flags.has_identifier_group(), fields.who)?;
    refuse_idle(Ace::new(kind, flags, who, mask))
}

/// Reads a list: entries `type:flags:who:letters`, separated by newlines and commas; `#` begins a
/// comment. `who` is `OWNER@`, `GROUP@`, `EVERYONE@`, a decimal, a name, or a name in the
/// directory's domain; it is a group if the flags have `g`.
///
/// The first faulty piece decides the fault: `Syntax`, else `UnknownName` (also for a name in
/// another domain), else `InheritOnly`; a 129th piece is `TooMany` before it is read. `Memory`
/// means that memory ran out.
pub fn read_aces(alloc: Global, text: &[u8], directory: &Directory) -> Result<Acl4, AceFault>
    ensures read { IfOk result (Spells (piece_value directory.now) MAX_ACES text.now) }
    ensures fault { IfErr result (IsTextFault directory.now text.now) }

    // A text that spells a list is read, unless memory runs out.
    ensures only { (aces : List Nfsace4) → Spells (piece_value directory.now) MAX_ACES text.now aces
        → MatchResult result (λ acl. acl ≡ aces) (λ fault. fault ≡ Memory) }
    ensures short { length (pieces text.now) ≤ INLINE_ACES → IfErr result (λ fault. fault ≢ Memory) }
{
    read_aces_by(alloc, text, &NamesInDomain { directory })
}

/// Reads a list as `read_aces` does, but resolves names by `names`: a `who` is `OWNER@`, `GROUP@`,
/// `EVERYONE@`, or an id or a name as they write it.
///
/// The first faulty piece decides the fault: `Syntax`, else `UnknownName`, else `InheritOnly`; a
/// 129th piece is `TooMany` before it is read. `Memory` means that memory ran out.
pub fn read_aces_by<N: ResolveNames>(
    alloc: Global,
    text: &[u8],
    names: &N,
) -> Result<Acl4, AceFault>
    ensures read { IfOk result (Spells (ace_by (N.names names.now)) MAX_ACES text.now) }
    ensures fault { IfErr result (IsFaultBy (N.names names.now) text.now) }

    // A text that spells a list is read, unless memory runs out.
    ensures only { (aces : List Nfsace4)
        → Spells (ace_by (N.names names.now)) MAX_ACES text.now aces
        → MatchResult result (λ acl. acl ≡ aces) (λ fault. fault ≡ Memory) }
    ensures short { length (pieces text.now) ≤ INLINE_ACES → IfErr result (λ fault. fault ≢ Memory) }
{
    read_aces_with(alloc, text, &NamedAceReader { names })
}

/// Reads a list in any form, by a reader of its entries.
///
/// The first faulty piece decides the fault; a 129th piece is `TooMany` before it is read. `Memory`
/// means that memory ran out.
pub fn read_aces_with<R: PieceReader<Value = Ace, Fault = PieceFault>>(
    alloc: Global,
    text: &[u8],
    reader: &R,
) -> Result<Acl4, AceFault>
    // What is read has an effect.
    requires { (piece : List ℕ) (ace : Nfsace4) → R.value_of reader.now piece ≡ Ok ace
        → IsAce ace × (is_idle ace ≡ false) }
    ensures read { IfOk result (Spells (R.value_of reader.now) MAX_ACES text.now) }
    ensures fault { IfErr result (λ fault. IsFaultOf (R.value_of reader.now) MAX_ACES text.now
        (list_fault fault)) }

    // A text that spells a list is read, unless memory runs out.
    ensures only { (aces : List Nfsace4) → Spells (R.value_of reader.now) MAX_ACES text.now aces
        → MatchResult result (λ acl. acl ≡ aces) (λ fault. fault ≡ Memory) }
    ensures short { length (pieces text.now) ≤ INLINE_ACES → IfErr result (λ fault. fault ≢ Memory) }
{
    match read_list(alloc, reader, MAX_ACES, text) {
        Ok(aces) => Ok(Acl4::from_items(aces)),
        Err(fault) => Err(AceFault::from(fault)),
    }
}

pub(crate) fn read_fields(piece: &[u8]) -> Option<AceFields<'_>>
    ensures { option_map view_fields result ≡ fields_of piece.now }
{
    let mut fields = Parts::new(b':', piece);
    match (
        fields.next(),
        fields.next(),
        fields.next(),
        fields.next(),
        fields.next(),
    ) {
        (Some(kind), Some(flags), Some(who), Some(letters), None) => Some(AceFields {
            kind: trim_blanks(kind),
            flags: trim_blanks(flags),
            who: trim_blanks(who),
            letters: trim_blanks(letters),
        }),
        _ => None,
    }
}

pub(crate) fn read_type(text: &[u8]) -> Option<AceType>
    ensures { result ≡ type_of text.now }
{
    match text {
        b"A" => Some(AceType::Allow),
        b"D" => Some(AceType::Deny),
        b"U" => Some(AceType::Audit),
        b"L" => Some(AceType::Alarm),
        _ => None,
    }
}

/// The entry; `InheritOnly` if it has no effect, neither on the file itself nor on what inherits
/// it.
pub fn refuse_idle(ace: Ace) -> Result<Ace, PieceFault>
    ensures { result ≡ refuse_idle ace }
{
    if ace.is_idle() {
        Err(PieceFault::InheritOnly)
    } else {
        Ok(ace)
    }
}
