//! NFSv4 entries as numbers.

ghost use Rattle.std.specs.Prelude.{◌≡◌, ◌≢◌, ◌≤◌, ◌<◌, ◌++◌, ◌∷◌, [], length, IfErr, OnOk};
ghost use Rattle.acl_names.specs.Bits.{has};
ghost use Rattle.acl_nfs4.specs.Flags.{identifier_group};
ghost use Rattle.acl_nfs4.specs.declared.limits.TheConstants.{INLINE_ACES, MAX_ACES};
ghost use Rattle.acl_wire.specs.Decision.{value_of};
ghost use Rattle.acl_wire.specs.RawAces.{Answers, ace_of_raw, aces_of, effective, flags_fault};
ghost use Rattle.acl_wire.specs.Written.{tidied_raw};
ghost use Rattle.acl_wire.specs.RawAces.{is_request, kind_of, list_of, mask_fault, seen, who_of};

use crate::numbers::without_bits;
use crate::{Nfs4Error, Nfs4Fault};
use acl_names::{Gid, Uid};
use acl_nfs4::{Ace, AceFault, AceType, Acl4, Flags, MAX_ACES, Mask, Who};
use bitflags::Flags as FlagSet;
use std::alloc::Global;

/// An entry as numbers (RFC 8881, section 6.2.1).
#[repr(C)]
#[derive(Clone, Copy, Debug, Default, PartialEq, Eq)]
pub struct RawAce {
    /// 0 allows, 1 denies, 2 audits, 3 sounds an alarm.
    pub kind: u32,
    /// The flags, of which 0x40 says that `id` is a group.
    pub flags: u32,
    /// The access mask.
    pub mask: u32,
    /// 1 is `OWNER@`, 2 `GROUP@`, 3 `EVERYONE@`, and 0 whom `id` names.
    pub special: u32,
    /// The user or the group, if `special` is 0.
    pub id: u32,
}

/// What entries are read for.
#[derive(Clone, Copy, Debug, PartialEq, Eq)]
pub enum Purpose {
    /// To be decided by: `ACE4_INHERITED_ACE`, `ACE4_WRITE_RETENTION` and
    /// `ACE4_WRITE_RETENTION_HOLD` are passed over, since they decide nothing that is asked here.
    Decide,
    /// To be printed: these three are the fault `Unkept`, since an `Acl4` doesn't keep them, and a
    /// text has no letters for them.
    Write,
}

/// The bits of flags that have a name.
const ALL_FLAGS: u32 = 0x7F;

/// The bits of masks that have a name.
const ALL_MASKS: u32 = 0x1F_01FF;

/// All bits but `ACE4_INHERITED_ACE`.
const BUT_INHERITED: u32 = 0xFFFF_FF7F;

/// All bits but those of retention.
const BUT_RETENTION: u32 = 0xFFFF_F9FF;

/// Whether lists are asked these bits: none of those of retention, which are passed over.
#[inline(always)]
pub(crate) fn is_request(bits: u32) -> bool
    ensures { result ≡ is_request bits }
{
    bits & BUT_RETENTION == bits
}

fn kind_of(number: u32) -> Result<AceType, Nfs4Fault>
    ensures { result ≡ kind_of number }
{
    match number {
        0 => Ok(AceType::Allow),
        1 => Ok(AceType::Deny),
        2 => Ok(AceType::Audit),
        3 => Ok(AceType::Alarm),
        _ => Err(Nfs4Fault::Type),
    }
}

/// Whether the flags say that the who is a group.
#[tactic(auto, unfolding(acl_names::specs::Bits::has))]
fn is_group(flags: u32) -> bool
    ensures { result ≡ has flags identifier_group }
{
    flags / 0x40 % 2 == 1
}

fn who_of(special: u32, is_group: bool, id: u32) -> Result<Who, Nfs4Fault>
    ensures { result ≡ who_of special is_group id }
{
    match special {
        0 => {
            if is_group {
                match Gid::new(id) {
                    Some(gid) => Ok(Who::NamedGroup(gid)),
                    None => Err(Nfs4Fault::Id),
                }
            } else {
                match Uid::new(id) {
                    Some(uid) => Ok(Who::User(uid)),
                    None => Err(Nfs4Fault::Id),
                }
            }
        }
        1 => Ok(Who::Owner),
        2 => Ok(Who::Group),
        3 => Ok(Who::Everyone),
        _ => Err(Nfs4Fault::Who),
    }
}

/// Why flags with a further bit are refused.
fn flags_fault(flags: u32) -> Nfs4Fault
    ensures { result ≡ flags_fault flags }
{
    if flags & BUT_INHERITED <= ALL_FLAGS {
        Nfs4Fault::Unkept
    } else {
        Nfs4Fault::Flags
    }
}

/// Why a mask with a further bit is refused.
fn mask_fault(mask: u32) -> Nfs4Fault
    ensures { result ≡ mask_fault mask }
{
    let rest = mask & BUT_RETENTION;
    if rest & ALL_MASKS == rest {
        Nfs4Fault::Unkept
    } else {
        Nfs4Fault::Mask
    }
}

/// What of the numbers counts for the purpose.
fn seen(purpose: Purpose, raw: &RawAce) -> RawAce
    ensures { result ≡ seen purpose raw.now }
{
    match purpose {
        Purpose::Decide => RawAce {
            kind: raw.kind,
            flags: raw.flags & BUT_INHERITED,
            mask: raw.mask & BUT_RETENTION,
            special: raw.special,
            id: raw.id,
        },
        Purpose::Write => *raw,
    }
}

/// The entry of these numbers.
#[tactic(auto, unfolding(crate::specs::RawAces::ace_of_raw))]
pub(crate) fn ace_of_raw(raw: &RawAce) -> Result<Ace, Nfs4Fault>
    ensures { result ≡ ace_of_raw raw.now }
{
    let kind = kind_of(raw.kind)?;
    if raw.flags > ALL_FLAGS {
        return Err(flags_fault(raw.flags));
    }
    if raw.mask & ALL_MASKS != raw.mask {
        return Err(mask_fault(raw.mask));
    }
    let flags = Flags::from_bits_retain(raw.flags as u8);
    let who = who_of(raw.special, is_group(raw.flags), raw.id)?;
    Ok(Ace::new(kind, flags, who, Mask::from_bits_retain(raw.mask)))
}

/// The entry of these numbers, where it is decided by.
#[inline(always)]
pub(crate) fn value_of(raw: &RawAce) -> Result<Ace, Nfs4Fault>
    ensures { result ≡ value_of raw.now }
{
    ace_of_raw(&seen(Purpose::Decide, raw))
}

/// The numbers of an entry, less what plays no part.
pub(crate) fn tidied(raw: &RawAce) -> RawAce
    ensures { result ≡ tidied_raw raw.now }
{
    if raw.special == 0 {
        return *raw;
    }
    RawAce {
        kind: raw.kind,
        flags: without_bits(raw.flags, 0x40),
        mask: raw.mask,
        special: raw.special,
        id: 0,
    }
}

/// Puts the entry after the others, if it has an effect somewhere.
pub(crate) fn push(aces: &mut Acl4, ace: Ace) -> Result<(), Nfs4Error>
    requires { length aces.old < MAX_ACES }
    ensures value { Answers (λ _. ace) result (effective ace) }
    ensures ok { OnOk result (aces.new ≡ aces.old ++ ace ∷ []) }
    ensures short { length aces.old < INLINE_ACES
        → IfErr result (λ error. error ≢ Nfs4Error.Memory) }
{
    match aces.push(ace) {
        Ok(()) => Ok(()),
        Err(AceFault::InheritOnly) => Err(Nfs4Error::Fault(Nfs4Fault::InheritOnly)),
        Err(_) => Err(Nfs4Error::Memory),
    }
}

/// The list of entries that are not too many.
fn aces_of(alloc: Global, purpose: Purpose, raws: &[RawAce]) -> Result<Acl4, Nfs4Error>
    requires { length raws.now ≤ MAX_ACES }
    ensures value { Answers (λ aces. aces) result (aces_of purpose raws.now) }
    ensures short { length raws.now ≤ INLINE_ACES
        → IfErr result (λ error. error ≢ Nfs4Error.Memory) }
{
    let mut aces = Acl4::with_capacity(alloc, raws.len())?;
    for raw in raws {
        let ace = ace_of_raw(&seen(purpose, raw))?;
        push(&mut aces, ace)?;
    }
    Ok(aces)
}

/// The NFSv4 list of these entries, in their order, as it is read for the purpose. An entry is
/// refused for what its numbers say, in the order of `Nfs4Fault`. Memory runs out for more than
/// `INLINE_ACES` entries alone.
pub fn read_raw_aces(alloc: Global, purpose: Purpose, raws: &[RawAce]) -> Result<Acl4, Nfs4Error>
    ensures value { Answers (λ aces. aces) result (list_of purpose raws.now) }
    ensures short { length raws.now ≤ INLINE_ACES
        → IfErr result (λ error. error ≢ Nfs4Error.Memory) }
{
    if raws.len() > MAX_ACES {
        return Err(Nfs4Error::Fault(Nfs4Fault::TooMany));
    }
    aces_of(alloc, purpose, raws)
}
