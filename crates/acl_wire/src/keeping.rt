//! Setting a mode that leaves the entries that name users and groups (RFC 8881, section 6.4.1.1).

ghost use Rattle.std.specs.Prelude.{◌≡◌, ◌≤◌, ◌<◌, ◌++◌, ℕ, [], true, OnErr, OnOk, length};
ghost use Rattle.acl_nfs4.specs.Ace.{plain_ace};
ghost use Rattle.acl_nfs4.specs.Mask.{mask_bits, mask_of, rest_of};
ghost use Rattle.acl_nfs4.specs.ModeChange.{names_someone};
ghost use Rattle.acl_nfs4.specs.Who.{is_special};
ghost use Rattle.acl_nfs4.specs.declared.ace.AceType.TheVariants.{Allow, Deny};
ghost use Rattle.acl_posix.specs.Perms.{bits_of};
ghost use Rattle.acl_wire.specs.Keeping.{left_of_entry, left_of_list, with_mode_keep};
ghost use Rattle.acl_wire.specs.Kept.{kept_ace, kept_aces};
ghost use Rattle.acl_wire.specs.RawAcesWriting.{raws_of};

use crate::RawAce;
use crate::draft::{Full, push, push_unless_empty};
use crate::mode_change::{decides, kept_raw, push_kept_of};
use crate::raw_writing::{kind_number, special_number};
use acl_nfs4::{Ace, AceType, Mask, Who, mask_of, rest_of};
use acl_posix::{Mode, Perms};
use arrayvec::ArrayVec;
use bitflags::Flags as FlagSet;

/// All three permissions.
const ALL_PERMS: u8 = 7;

/// Whether the entry, with these flags, decides about a named user or group.
fn names_someone(ace: &Ace, flags: u32) -> bool
    ensures { (mask : ℕ) → result ≡ names_someone (record ace.now {
      flags = flags;
      mask = mask;
    }) }
{
    match ace.who() {
        Who::Owner | Who::Group | Who::Everyone => false,
        Who::User(_) | Who::NamedGroup(_) => decides(ace.kind(), flags),
    }
}

/// What an entry leaves, with all bits that have a meaning: one that names someone stays, and
/// another keeps no bit of the mode.
fn push_left_of<const N: usize>(
    draft: &mut ArrayVec<RawAce, N>,
    raw: &RawAce,
    ace: &Ace,
) -> Result<(), Full>
    ensures ok { OnOk result (draft.new.items ≡ draft.old.items
        ++ raws_of (left_of_entry (kept_ace raw.now ace.now))) }
    ensures full { OnErr result (N < length (draft.old.items
        ++ raws_of (left_of_entry (kept_ace raw.now ace.now)))) }
{
    let kept = kept_raw(raw, ace);
    if names_someone(ace, kept.flags) {
        return push(draft, kept);
    }
    push_kept_of(draft, raw, ace, Perms::from_bits_retain(ALL_PERMS))
}

/// What the old entries leave.
fn push_left<const N: usize>(
    draft: &mut ArrayVec<RawAce, N>,
    raws: &[RawAce],
    aces: &[Ace],
) -> Result<(), Full>
    requires { length raws.now ≡ length aces.now }
    ensures ok { OnOk result (draft.new.items ≡ draft.old.items
        ++ raws_of (left_of_list (kept_aces raws.now aces.now))) }
    ensures full { OnErr result (N < length (draft.old.items
        ++ raws_of (left_of_list (kept_aces raws.now aces.now)))) }
{
    for (place, raw) in raws.iter().enumerate() {
        push_left_of(draft, raw, &aces[place])?;
    }
    Ok(())
}

/// An entry for one of the three special identifiers, unless its mask is empty.
fn push_special<const N: usize>(
    draft: &mut ArrayVec<RawAce, N>,
    kind: AceType,
    who: &Who,
    mask: Mask,
) -> Result<(), Full>
    requires { is_special who.now ≡ true }
    ensures ok { OnOk result (draft.new.items ≡ draft.old.items
        ++ raws_of (plain_ace kind who.now (mask_bits mask))) }
    ensures full { OnErr result (N < length (draft.old.items
        ++ raws_of (plain_ace kind who.now (mask_bits mask)))) }
{
    push_unless_empty(
        draft,
        RawAce {
            kind: kind_number(kind),
            flags: 0,
            mask: mask.bits(),
            special: special_number(who),
            id: 0,
        },
    )
}

/// What these permissions stand for is allowed to the who, and the rest of the mode's bits denied.
fn push_class<const N: usize>(
    draft: &mut ArrayVec<RawAce, N>,
    who: &Who,
    perms: Perms,
) -> Result<(), Full>
    requires { is_special who.now ≡ true }
    ensures ok { OnOk result (draft.new.items ≡ draft.old.items
        ++ raws_of (plain_ace Allow who.now (mask_of (bits_of perms))
        ++ plain_ace Deny who.now (rest_of (bits_of perms)))) }
    ensures full { OnErr result (N < length (draft.old.items
        ++ raws_of (plain_ace Allow who.now (mask_of (bits_of perms))
        ++ plain_ace Deny who.now (rest_of (bits_of perms))))) }
{
    push_special(draft, AceType::Allow, who, mask_of(perms))?;
    push_special(draft, AceType::Deny, who, rest_of(perms))
}

/// Puts the list with the mode set, and the entries that name users and groups as they were, into
/// the empty draft.
pub(crate) fn put_beside_named<const N: usize>(
    draft: &mut ArrayVec<RawAce, N>,
    raws: &[RawAce],
    aces: &[Ace],
    mode: Mode,
) -> Result<(), Full>
    requires same { length raws.now ≡ length aces.now }
    requires empty { draft.old.items ≡ [] }
    ensures ok { OnOk result (draft.new.items
        ≡ raws_of (with_mode_keep (kept_aces raws.now aces.now) mode)) }
    ensures full { OnErr result (N < length (with_mode_keep (kept_aces raws.now aces.now) mode)) }
    ensures few { OnOk result (length draft.new.items ≤ N) }
{
    push_class(draft, &Who::Owner, mode.user)?;
    push_left(draft, raws, aces)?;
    push_class(draft, &Who::Group, mode.group)?;
    let other = mask_of(mode.other);
    push_special(draft, AceType::Allow, &Who::Everyone, other)?;
    // There are no more than it has room for.
    let _len = draft.len();
    Ok(())
}
