//! What is inherited of a list of numbers, all of whose bits stay (RFC 8881, section 6.4.3).

ghost use Rattle.std.specs.Prelude.{◌≡◌, ◌≢◌, ◌≤◌, ◌⊎◌, [], IfErr, OnOk, length, option_map};
ghost use Rattle.acl_names.specs.Bits.{has};
ghost use Rattle.acl_nfs4.specs.Flags.{directory_inherit, file_inherit, no_propagate_inherit};
ghost use Rattle.acl_nfs4.specs.Inheritance.{flags_below, inherited_entry, inherited_list};
ghost use Rattle.acl_nfs4.specs.declared.limits.TheConstants.{INLINE_ACES, MAX_ACES};
ghost use Rattle.acl_wire.specs.Inheritance.{inherited_of};
ghost use Rattle.acl_wire.specs.Kept.{kept_ace, kept_aces};
ghost use Rattle.acl_wire.specs.RawAces.{Answers};
ghost use Rattle.acl_wire.specs.RawAcesWriting.{raw_of, raws_of};
ghost use Rattle.acl_wire.specs.Writing.{PutsUnless};

use crate::draft::write_raws;
use crate::mode_change::kept_raw;
use crate::numbers::{has_bit, without_bits};
use crate::{Nfs4Error, Purpose, RawAce, read_raw_aces};
use acl_nfs4::{Ace, INLINE_ACES, Kind, MAX_ACES};
use arrayvec::ArrayVec;
use std::alloc::Global;

/// The inheritance flags of an entry in what is made below, if it is inherited.
fn flags_below(kind: Kind, flags: u32) -> Option<u32>
    ensures { result ≡ flags_below kind (has flags file_inherit)
        (has flags directory_inherit) (has flags no_propagate_inherit) }
{
    let for_files = has_bit(flags, 0x1);
    let for_directories = has_bit(flags, 0x2);
    let stops = has_bit(flags, 0x4);
    match (kind, for_files, for_directories, stops) {
        (Kind::File, true, _, _) => Some(0),
        (Kind::File, false, _, _) => None,
        (Kind::Dir, false, false, _) => None,
        (Kind::Dir, true, false, false) => Some(0x9),
        (Kind::Dir, true, false, true) => None,
        (Kind::Dir, false, true, false) => Some(0x2),
        (Kind::Dir, true, true, false) => Some(0x3),
        (Kind::Dir, _, true, true) => Some(0),
    }
}

/// What the entry is in what is made below, if it is inherited.
fn inherited(raw: &RawAce, ace: &Ace, kind: Kind) -> Option<RawAce>
    ensures { result ≡ option_map raw_of (inherited_entry kind
        (kept_ace raw.now ace.now)) }
{
    let kept = kept_raw(raw, ace);
    match flags_below(kind, kept.flags) {
        Some(below) => Some(RawAce {
            flags: without_bits(kept.flags, 0xF) | below,
            ..kept
        }),
        None => None,
    }
}

/// Puts what is inherited of the entries into the empty draft.
fn put_inherited<const N: usize>(
    draft: &mut ArrayVec<RawAce, N>,
    raws: &[RawAce],
    aces: &[Ace],
    kind: Kind,
)
    requires same { length raws.now ≡ length aces.now }
    requires room { length raws.now ≤ N }
    requires empty { draft.old.items ≡ [] }
    ensures value { draft.new.items ≡ raws_of (inherited_list kind
        (kept_aces raws.now aces.now)) }
    ensures few { length draft.new.items ≤ length raws.now }
{
    for (place, raw) in raws.iter().enumerate() {
        if let Some(below) = inherited(raw, &aces[place], kind) {
            draft.push(below);
        }
    }
}

/// Puts what is inherited of the list into the empty draft, which has room for as many entries, or
/// for the most that a list has.
#[tactic(auto, unfolding(crate::specs::Inheritance::inherited_of))]
pub(crate) fn inherit<const N: usize>(
    alloc: Global,
    draft: &mut ArrayVec<RawAce, N>,
    raws: &[RawAce],
    kind: Kind,
) -> Result<(), Nfs4Error>
    requires room { (length raws.now ≤ N) ⊎ (N ≡ MAX_ACES) }
    requires empty { draft.old.items ≡ [] }
    ensures value { Answers (λ _. draft.new.items) result (inherited_of kind raws.now) }
    ensures few { OnOk result (length draft.new.items ≤ length raws.now) }
    ensures short { length raws.now ≤ INLINE_ACES
        → IfErr result (λ error. error ≢ Nfs4Error.Memory) }
{
    let acl = read_raw_aces(alloc, Purpose::Decide, raws)?;
    put_inherited(draft, raws, acl.aces(), kind);
    Ok(())
}

/// Puts what a list inherits, in room for so many entries. Never inlined, so that short lists don't
/// pay for the room of long ones.
#[inline(never)]
fn write_within<const N: usize>(
    alloc: Global,
    raws: &[RawAce],
    kind: Kind,
    out: &mut [RawAce],
) -> Result<usize, Nfs4Error>
    requires most { N ≤ MAX_ACES }
    requires room { (length raws.now ≤ N) ⊎ (N ≡ MAX_ACES) }
    ensures value { PutsUnless (inherited_of kind raws.now) result out.old out.new }
    ensures short { length raws.now ≤ INLINE_ACES
        → IfErr result (λ error. error ≢ Nfs4Error.Memory) }
{
    let mut draft = ArrayVec::<RawAce, N>::new();
    inherit(alloc, &mut draft, raws, kind)?;
    Ok(write_raws(draft.as_slice(), out))
}

/// Puts the entries that a new file, or a new directory, inherits, before a mode is set, in front
/// of `out`, if it has room for all, and else leaves `out` as it was, and answers how many there
/// are. All bits that have a meaning stay, `ACE4_INHERITED_ACE` as the folder's entry has it.
/// Memory runs out only for more than `INLINE_ACES` entries.
pub fn write_inherited(
    alloc: Global,
    raws: &[RawAce],
    kind: Kind,
    out: &mut [RawAce],
) -> Result<usize, Nfs4Error>
    ensures value { PutsUnless (inherited_of kind raws.now) result out.old out.new }
    ensures short { length raws.now ≤ INLINE_ACES
        → IfErr result (λ error. error ≢ Nfs4Error.Memory) }
{
    if raws.len() <= INLINE_ACES {
        write_within::<INLINE_ACES>(alloc, raws, kind, out)
    } else {
        write_within::<MAX_ACES>(alloc, raws, kind, out)
    }
}
