//! Reading entries of the freebsd form.

ghost use Rattle.std.specs.Prelude.{◌≡◌, ◌≢◌, ◌≤◌, ℕ, List, Some, length};
ghost use Rattle.std.specs.Prelude.{IfOk, IfErr, MatchResult};
ghost use Rattle.acl_names.specs.ListText.{Spells};
ghost use Rattle.acl_names.specs.Pieces.{pieces};
ghost use Rattle.acl_nfs4.specs.Ace.{Nfsace4};
ghost use Rattle.acl_nfs4.specs.declared.acl.AceFault.TheVariants.{Memory};
ghost use Rattle.acl_nfs4.specs.declared.limits.TheConstants.{INLINE_ACES, MAX_ACES};
ghost use Rattle.acl_forms.specs.FormText.{entry_by, fields_of, type_of};
ghost use Rattle.acl_forms.specs.FormViews.{view_fields};
ghost use Rattle.acl_forms.specs.EntriesFault.{IsEntriesFault};

use crate::fields::{FormFields, read_fields};
use crate::marks::{read_flags, read_perms};
use crate::tags::read_who;
use acl_names::{PieceReader, ResolveNames};
use acl_nfs4::{Ace, AceFault, AceType, Acl4, PieceFault, read_aces_with, refuse_idle};
use std::alloc::Global;

/// Reads entries, and resolves their names by `names`.
#[derive(Drop)]
pub struct EntryReader<'a, N: ResolveNames> {
    pub names: &'a N,
}

impl<'a, N: ResolveNames> PieceReader for EntryReader<'a, N> {
    type Value = Ace;

    type Fault = PieceFault;

    ghost value_of = { λ reader. entry_by (N.names reader.names.now) };

    fn read(&self, piece: &[u8]) -> Result<Ace, PieceFault> {
        read_entry(piece, self.names)
    }

    /// Always `None`: such entries have blanks before them, and are read piece by piece.
    fn read_front<'t>(&self, _text: &'t [u8]) -> Option<(Ace, &'t [u8])> {
        None
    }
}

/// Reads an entry `tag:perms:flags:type`. The tag is `owner@`, `group@`, `everyone@`, or `user:` or
/// `group:` and an id or a name, which `names` resolves; perms are letters of `rwxpdDaARWcCos` and
/// flags letters of `fdinSFI`, in any order, repeated or not, among hyphens; the flags with their
/// colon may be left out. `I` is read, and not kept.
///
/// Fails with `Syntax`, else with `UnknownName`, else with `InheritOnly`.
#[tactic(auto, unfolding(crate::specs::FormText::entry_by))]
pub fn read_entry<N: ResolveNames>(piece: &[u8], names: &N) -> Result<Ace, PieceFault>
    ensures { result ≡ entry_by (N.names names.now) piece.now }
{
    match read_fields(piece) {
        Some(fields) => entry_of_fields(names, fields),
        None => Err(PieceFault::Syntax),
    }
}

/// The entry that a piece with these fields means, or its fault.
#[tactic(auto, unfolding(crate::specs::FormText::entry_by))]
fn entry_of_fields<N: ResolveNames>(names: &N, fields: FormFields<'_>) -> Result<Ace, PieceFault>
    ensures { (piece : List ℕ) → fields_of piece ≡ Some (view_fields fields.entry)
        → result ≡ entry_by (N.names names.now) piece }
{
    let mask = read_perms(fields.perms).ok_or(PieceFault::Syntax)?;
    let flags = read_flags(fields.flags).ok_or(PieceFault::Syntax)?;
    let kind = read_type(fields.kind).ok_or(PieceFault::Syntax)?;
    let who = read_who(names, fields.tag, fields.name)?;
    refuse_idle(Ace::new(kind, flags, who, mask))
}

/// The type that a word writes.
pub(crate) fn read_type(text: &[u8]) -> Option<AceType>
    ensures { result ≡ type_of text.now }
{
    if text == b"allow".as_slice() {
        Some(AceType::Allow)
    } else if text == b"deny".as_slice() {
        Some(AceType::Deny)
    } else if text == b"audit".as_slice() {
        Some(AceType::Audit)
    } else if text == b"alarm".as_slice() {
        Some(AceType::Alarm)
    } else {
        None
    }
}

/// Reads a list: entries `tag:perms:flags:type`, separated by newlines and commas, with blanks
/// around them; `#` begins a comment.
///
/// The first faulty piece decides the fault, as `read_entry` returns it; a 129th piece is `TooMany`
/// before it is read. `Memory` means that memory ran out.
pub fn read_entries<N: ResolveNames>(
    alloc: Global,
    text: &[u8],
    names: &N,
) -> Result<Acl4, AceFault>
    ensures read { IfOk result (Spells (entry_by (N.names names.now)) MAX_ACES text.now) }
    ensures fault { IfErr result (IsEntriesFault (N.names names.now) text.now) }

    // A text that spells a list is read, unless memory runs out.
    ensures only { (aces : List Nfsace4)
        → Spells (entry_by (N.names names.now)) MAX_ACES text.now aces
        → MatchResult result (λ acl. acl ≡ aces) (λ fault. fault ≡ Memory) }
    ensures short { length (pieces text.now) ≤ INLINE_ACES → IfErr result (λ fault. fault ≢ Memory) }
{
    read_aces_with(alloc, text, &EntryReader { names })
}
