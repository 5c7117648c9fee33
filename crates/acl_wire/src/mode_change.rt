//! Setting the mode of a list of numbers, all of whose bits stay (RFC 8881, section 6.4.1.1).

ghost use Rattle.std.specs.Prelude.{◌≡◌, ◌≢◌, ◌≤◌, ◌<◌, ◌↔◌, ◌==◌, ◌||◌, ◌++◌, ℕ, [], Err, IfErr};
ghost use Rattle.std.specs.Prelude.{IfOk, IsOk, Ok, OnErr, OnOk, if◌then◌else◌, length};
ghost use Rattle.acl_names.specs.Bits.{has};
ghost use Rattle.acl_nfs4.specs.Ace.{decides};
ghost use Rattle.acl_nfs4.specs.Flags.{directory_inherit, file_inherit};
ghost use Rattle.acl_nfs4.specs.ModeChange.{for_owner, kept_mask, kept_of_entry, kept_of_list};
ghost use Rattle.acl_nfs4.specs.ModeChange.{with_denials};
ghost use Rattle.acl_nfs4.specs.declared.limits.TheConstants.{INLINE_ACES, MAX_ACES};
ghost use Rattle.acl_nfs4.specs.declared.who.Who.{Who};
ghost use Rattle.acl_posix.specs.Perms.{bits_of};
ghost use Rattle.acl_wire.specs.Kept.{kept_ace, kept_aces, kept_list};
ghost use Rattle.acl_wire.specs.ModeChange.{changed, changed_by, chmod_of, classes_in, denied_by};
ghost use Rattle.acl_wire.specs.ModeChange.{IsDraftFor, fits, rule_in};
ghost use Rattle.acl_wire.specs.Keeping.{with_mode_keep};
ghost use Rattle.acl_wire.specs.RawAces.{Answers, list_of};
ghost use Rattle.acl_wire.specs.RawAcesWriting.{raw_of, raws_of};
ghost use Rattle.acl_wire.specs.Writing.{PutsUnless};

use crate::draft::{Full, push, push_aces, push_unless_empty, write_raws};
use crate::keeping::put_beside_named;
use crate::numbers::{has_bit, without_bits};
use crate::raw_ace::tidied;
use crate::raw_writing::raw_of;
use crate::{Nfs4Error, Nfs4Fault, Purpose, RawAce, read_raw_aces};
use acl_nfs4::{Ace, AceType, Acl4, Fault4, MAX_ACES, Who, mask_of, rest_of};
use acl_posix::{Mode, Perms};
use arrayvec::ArrayVec;
use bitflags::Flags as FlagSet;
use std::alloc::Global;

/// The bits of a mask that a file mode controls.
pub(crate) const OF_MODE: u32 = 0x27;

/// `FILE_INHERIT`.
const FILE_INHERIT: u32 = 0x1;

/// `DIRECTORY_INHERIT`.
const DIRECTORY_INHERIT: u32 = 0x2;

/// `INHERIT_ONLY`.
const INHERIT_ONLY: u32 = 0x8;

/// The flags of inheritance.
const INHERITANCE: u32 = 0xF;

/// Few entries.
const FEW_ACES: usize = 9;

/// The most entries that few become by a mode: three each, and five.
const MADE_OF_FEW: usize = 32;

/// The mode of this number, at most octal 777.
pub(crate) fn mode_of_number(mode: u32) -> Result<Mode, Nfs4Fault>
    ensures { result ≡ classes_in mode }
{
    match u16::try_from(mode) {
        Ok(bits) => match Mode::from_bits(bits) {
            Some(mode) => Ok(mode),
            None => Err(Nfs4Fault::Argument),
        },
        Err(_) => Err(Nfs4Fault::Argument),
    }
}

/// How a mode is set.
#[derive(Clone, Copy, Debug, PartialEq, Eq)]
pub enum ModeRule {
    /// As the profile defines: all that the mode's group lacks is denied to those whom entries
    /// name.
    Profile,
    /// With as few denials as necessary, so that a mode that is set later can lift the others.
    Least,
    /// Without denials for those whom entries name: these entries stay as they are, and the mode
    /// gives the owner, the group and everyone what they don't decide.
    Keep,
}

/// The rule of this number.
pub(crate) fn rule_of_number(how: u32) -> Result<ModeRule, Nfs4Fault>
    ensures { result ≡ rule_in how }
{
    match how {
        0 => Ok(ModeRule::Profile),
        1 => Ok(ModeRule::Least),
        2 => Ok(ModeRule::Keep),
        _ => Err(Nfs4Fault::Argument),
    }
}

/// Whether an entry of this type with these flags decides.
#[tactic(auto, unfolding(acl_nfs4::specs::Ace::decides))]
pub(crate) fn decides(kind: AceType, flags: u32) -> bool
    ensures { (who : Who) (mask : ℕ) → result ≡ decides (record {
      kind = kind;
      flags = flags;
      who = who;
      mask = mask;
    }) }
{
    matches!(kind, AceType::Allow | AceType::Deny) && !has_bit(flags, INHERIT_ONLY)
}

/// Whether an entry with these flags is inherited.
fn is_inheritable(flags: u32) -> bool
    ensures { result ≡ (has flags file_inherit || has flags directory_inherit) }
{
    has_bit(flags, FILE_INHERIT) || has_bit(flags, DIRECTORY_INHERIT)
}

/// What the entry with this mask keeps of it, if it decides.
#[tactic(auto, unfolding(acl_nfs4::specs::ModeChange::kept_mask))]
fn kept_mask(ace: &Ace, mask: u32, group: Perms) -> u32
    ensures { (flags : ℕ) → result ≡ kept_mask (bits_of group) (record ace.now {
      flags = flags;
      mask = mask;
    }) }
{
    match ace.who() {
        Who::Owner | Who::Group | Who::Everyone => without_bits(mask, OF_MODE),
        Who::User(_) | Who::NamedGroup(_) => match ace.kind() {
            AceType::Allow => without_bits(mask, rest_of(group).bits()),
            _ => mask,
        },
    }
}

/// The numbers of the entry, with all bits that have a meaning.
pub(crate) fn kept_raw(raw: &RawAce, ace: &Ace) -> RawAce
    ensures { result ≡ raw_of (kept_ace raw.now ace.now) }
{
    RawAce {
        flags: tidied(raw).flags,
        mask: raw.mask,
        ..raw_of(ace)
    }
}

/// What an entry leaves beside a mode, with all bits that have a meaning: one that doesn't decide
/// stays; one that is inherited too becomes one entry for each; and what takes effect keeps no bit
/// that the mode takes.
pub(crate) fn push_kept_of<const N: usize>(
    draft: &mut ArrayVec<RawAce, N>,
    raw: &RawAce,
    ace: &Ace,
    group: Perms,
) -> Result<(), Full>
    ensures ok { OnOk result (draft.new.items ≡ draft.old.items
        ++ raws_of (kept_of_entry (bits_of group) (kept_ace raw.now ace.now))) }
    ensures full { OnErr result (N < length (draft.old.items
        ++ raws_of (kept_of_entry (bits_of group) (kept_ace raw.now ace.now)))) }
{
    let kept = kept_raw(raw, ace);
    if !decides(ace.kind(), kept.flags) {
        return push(draft, kept);
    }
    let mask = kept_mask(ace, kept.mask, group);
    if is_inheritable(kept.flags) {
        let flags = kept.flags | INHERIT_ONLY;
        push(draft, RawAce { flags, ..kept })?;
        let flags = without_bits(kept.flags, INHERITANCE);
        return push_unless_empty(
            draft,
            RawAce {
                flags,
                mask,
                ..kept
            },
        );
    }
    push_unless_empty(draft, RawAce { mask, ..kept })
}

/// What the old entries leave.
fn push_kept<const N: usize>(
    draft: &mut ArrayVec<RawAce, N>,
    raws: &[RawAce],
    aces: &[Ace],
    group: Perms,
) -> Result<(), Full>
    requires { length raws.now ≡ length aces.now }
    ensures ok { OnOk result (draft.new.items ≡ draft.old.items
        ++ raws_of (kept_of_list (bits_of group) (kept_aces raws.now aces.now))) }
    ensures full { OnErr result (N < length (draft.old.items
        ++ raws_of (kept_of_list (bits_of group) (kept_aces raws.now aces.now)))) }
{
    for (place, raw) in raws.iter().enumerate() {
        push_kept_of(draft, raw, &aces[place], group)?;
    }
    Ok(())
}

/// Puts the entries in front, what is left of the old ones, and the entries at the end, into the
/// empty draft.
fn assemble<const N: usize>(
    draft: &mut ArrayVec<RawAce, N>,
    front: &[Ace],
    raws: &[RawAce],
    aces: &[Ace],
    group: Perms,
    back: &[Ace],
) -> Result<(), Full>
    requires same { length raws.now ≡ length aces.now }
    requires empty { draft.old.items ≡ [] }
    ensures ok { OnOk result (draft.new.items ≡ raws_of (front.now
        ++ (kept_of_list (bits_of group) (kept_aces raws.now aces.now) ++ back.now))) }
    ensures full { OnErr result (N < length (front.now
        ++ (kept_of_list (bits_of group) (kept_aces raws.now aces.now) ++ back.now))) }
    ensures few { OnOk result (length draft.new.items ≤ N) }
{
    push_aces(draft, front)?;
    push_kept(draft, raws, aces, group)?;
    push_aces(draft, back)?;
    // There are no more than it has room for.
    let _len = draft.len();
    Ok(())
}

/// How many entries of these bits there are: one if there is any.
fn count_of(bits: u32) -> usize
    ensures value { result ≡ (if bits == 0 then 0 else 1) }
    ensures few { result ≤ 1 }
{
    if bits == 0 { 0 } else { 1 }
}

/// How many entries stand in front.
fn front_len(user: Perms) -> usize
    ensures value { result ≡ length (for_owner (bits_of user)) }
    ensures few { result ≤ 2 }
{
    count_of(mask_of(user).bits()) + count_of(rest_of(user).bits())
}

/// How many entries an entry leaves.
fn kept_len_of(ace: &Ace, group: Perms) -> usize
    ensures value { result ≡ length (kept_of_entry (bits_of group) ace.now) }
    ensures few { result ≤ 2 }
{
    let flags = u32::from(ace.flags().bits());
    if !decides(ace.kind(), flags) {
        return 1;
    }
    let rest = count_of(kept_mask(ace, ace.mask().bits(), group));
    if is_inheritable(flags) {
        1 + rest
    } else {
        rest
    }
}

/// How many entries the old ones leave.
fn kept_len(aces: &[Ace], group: Perms) -> usize
    requires { length aces.now ≤ MAX_ACES }
    ensures value { result ≡ length (kept_of_list (bits_of group) aces.now) }
    ensures few { result ≤ 256 }
{
    let mut len = 0;
    for ace in aces {
        len += kept_len_of(ace, group);
    }
    len
}

/// Sets the mode with denials, all or the least.
fn set_mode(alloc: Global, acl: &mut Acl4, mode: Mode, least: bool) -> Result<(), Fault4>
    ensures ok { OnOk result (acl.new ≡ with_denials (denied_by least mode) acl.old mode) }
    ensures too_many { (result ≡ Err Fault4.TooMany)
        ↔ (MAX_ACES < length (with_denials (denied_by least mode) acl.old mode)) }
    ensures short { length (with_denials (denied_by least mode) acl.old mode) ≤ INLINE_ACES
        → IsOk result }
{
    if least {
        acl.chmod4_least(alloc, mode)
    } else {
        acl.chmod4(alloc, mode)
    }
}

/// Puts what is left of the old entries, with the entries in front and at the end, into the draft.
fn put_around<const N: usize>(
    alloc: Global,
    draft: &mut ArrayVec<RawAce, N>,
    raws: &[RawAce],
    aces: &[Ace],
    base: Acl4,
    mode: Mode,
    least: bool,
) -> Result<(), Nfs4Error>
    requires read { list_of Purpose.Decide raws.now ≡ Ok aces.now }
    requires base { base ≡ aces.now }
    requires room { IsDraftFor N (length raws.now) }
    requires empty { draft.old.items ≡ [] }
    ensures value { Answers (λ _. draft.new.items) result
        (fits (with_denials (denied_by least mode) (kept_aces raws.now aces.now) mode)) }
    ensures short { length (with_denials (denied_by least mode) (kept_aces raws.now aces.now) mode)
        ≤ INLINE_ACES → IfErr result (λ error. error ≢ Nfs4Error.Memory) }
{
    let mut around = base;
    let front = front_len(mode.user);
    let behind = front + kept_len(around.aces(), mode.group);
    match set_mode(alloc, &mut around, mode, least) {
        Ok(()) => {}
        Err(Fault4::TooMany) => return Err(Nfs4Error::Fault(Nfs4Fault::TooMany)),
        Err(Fault4::Memory) => return Err(Nfs4Error::Memory),
    }
    let around = around.aces();
    match assemble(
        draft,
        &around[..front],
        raws,
        aces,
        mode.group,
        &around[behind..],
    ) {
        Ok(()) => Ok(()),
        Err(_) => Err(Nfs4Error::Fault(Nfs4Fault::TooMany)),
    }
}

/// Puts the list with the mode set with denials, all or the least, into the draft.
fn put_with_denials<const N: usize>(
    alloc: Global,
    draft: &mut ArrayVec<RawAce, N>,
    raws: &[RawAce],
    mode: Mode,
    least: bool,
) -> Result<(), Nfs4Error>
    requires room { IsDraftFor N (length raws.now) }
    requires empty { draft.old.items ≡ [] }
    ensures value { Answers (λ _. draft.new.items) result
        (changed_by (λ list. with_denials (denied_by least mode) list mode) raws.now) }
    ensures short { length raws.now ≤ INLINE_ACES → IfOk (kept_list raws.now)
        (λ aces. length (with_denials (denied_by least mode) aces mode) ≤ INLINE_ACES)
        → IfErr result (λ error. error ≢ Nfs4Error.Memory) }
{
    let acl = read_raw_aces(alloc, Purpose::Decide, raws)?;
    // Read again, since one is changed while the other still reports what the entries were.
    let base = read_raw_aces(alloc, Purpose::Decide, raws)?;
    put_around(alloc, draft, raws, acl.aces(), base, mode, least)
}

/// Puts the list with the mode set, and the entries that name users and groups as they were, into
/// the draft.
fn put_with_named<const N: usize>(
    alloc: Global,
    draft: &mut ArrayVec<RawAce, N>,
    raws: &[RawAce],
    mode: Mode,
) -> Result<(), Nfs4Error>
    requires room { IsDraftFor N (length raws.now) }
    requires empty { draft.old.items ≡ [] }
    ensures value { Answers (λ _. draft.new.items) result
        (changed_by (λ list. with_mode_keep list mode) raws.now) }
    ensures short { length raws.now ≤ INLINE_ACES
        → IfErr result (λ error. error ≢ Nfs4Error.Memory) }
{
    let acl = read_raw_aces(alloc, Purpose::Decide, raws)?;
    match put_beside_named(draft, raws, acl.aces(), mode) {
        Ok(()) => Ok(()),
        Err(_) => Err(Nfs4Error::Fault(Nfs4Fault::TooMany)),
    }
}

/// Puts the list with the mode set by the rule into the empty draft.
#[tactic(auto, unfolding(crate::specs::ModeChange::changed))]
fn change<const N: usize>(
    alloc: Global,
    draft: &mut ArrayVec<RawAce, N>,
    raws: &[RawAce],
    mode: Mode,
    rule: ModeRule,
) -> Result<(), Nfs4Error>
    requires room { IsDraftFor N (length raws.now) }
    requires empty { draft.old.items ≡ [] }
    ensures value { Answers (λ _. draft.new.items) result (changed rule mode raws.now) }
    ensures short { length raws.now ≤ INLINE_ACES
        → IfOk (changed rule mode raws.now) (λ made. length made ≤ INLINE_ACES)
        → IfErr result (λ error. error ≢ Nfs4Error.Memory) }
{
    match rule {
        ModeRule::Profile => put_with_denials(alloc, draft, raws, mode, false),
        ModeRule::Least => put_with_denials(alloc, draft, raws, mode, true),
        ModeRule::Keep => put_with_named(alloc, draft, raws, mode),
    }
}

/// Puts the list with the mode set, in room for so many entries. Never inlined, so that short lists
/// don't pay for the room of long ones.
#[inline(never)]
fn write_within<const N: usize>(
    alloc: Global,
    raws: &[RawAce],
    mode: Mode,
    rule: ModeRule,
    out: &mut [RawAce],
) -> Result<usize, Nfs4Error>
    requires { IsDraftFor N (length raws.now) }
    ensures value { PutsUnless (changed rule mode raws.now) result out.old out.new }
    ensures short { length raws.now ≤ INLINE_ACES
        → IfOk (changed rule mode raws.now) (λ made. length made ≤ INLINE_ACES)
        → IfErr result (λ error. error ≢ Nfs4Error.Memory) }
{
    let mut draft = ArrayVec::<RawAce, N>::new();
    change(alloc, &mut draft, raws, mode, rule)?;
    Ok(write_raws(draft.as_slice(), out))
}

/// Puts the list with the mode set by the rule.
pub(crate) fn write_changed(
    alloc: Global,
    raws: &[RawAce],
    mode: Mode,
    rule: ModeRule,
    out: &mut [RawAce],
) -> Result<usize, Nfs4Error>
    ensures value { PutsUnless (changed rule mode raws.now) result out.old out.new }
    ensures short { length raws.now ≤ INLINE_ACES
        → IfOk (changed rule mode raws.now) (λ made. length made ≤ INLINE_ACES)
        → IfErr result (λ error. error ≢ Nfs4Error.Memory) }
{
    if raws.len() <= FEW_ACES {
        write_within::<MADE_OF_FEW>(alloc, raws, mode, rule, out)
    } else {
        write_within::<MAX_ACES>(alloc, raws, mode, rule, out)
    }
}

/// Puts the list with a mode set (within RFC 8881, section 6.4.1.1) in front of `out`, if it has
/// room for it, and else leaves `out` as it was, and answers how many entries it has. The mode is
/// set by the rule of this number: 0 is `Profile`, 1 `Least`, 2 `Keep`. All bits that have a
/// meaning stay. A mode above octal 777, or no rule, is the fault `Argument`, before all others,
/// and a list that would have more than 128 entries is `TooMany`. Memory runs out only if the list,
/// or the one that it becomes, has more than `INLINE_ACES` entries.
#[tactic(auto, unfolding(crate::specs::ModeChange::chmod_of))]
pub fn write_with_mode(
    alloc: Global,
    raws: &[RawAce],
    mode: u32,
    how: u32,
    out: &mut [RawAce],
) -> Result<usize, Nfs4Error>
    ensures value { PutsUnless (chmod_of raws.now mode how) result out.old out.new }
    ensures short { length raws.now ≤ INLINE_ACES
        → IfOk (chmod_of raws.now mode how) (λ made. length made ≤ INLINE_ACES)
        → IfErr result (λ error. error ≢ Nfs4Error.Memory) }
{
    let mode = mode_of_number(mode)?;
    let rule = rule_of_number(how)?;
    write_changed(alloc, raws, mode, rule, out)
}
