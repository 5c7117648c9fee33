//! The passes over a list that make its translation.
ghost use Rattle.std.specs.Prelude.{◌≡◌, ◌<◌, ◌≤◌, false, [], ◌∷◌, ◌++◌, length};
ghost use Rattle.std.specs.Prelude.{IsOk, OnOk};
ghost use Rattle.acl_names.specs.Bits.{◌∩◌};
ghost use Rattle.acl_posix.specs.Perms.{bits_of};
ghost use Rattle.acl_nfs4.specs.Ace.{is_idle, plain_ace};
ghost use Rattle.acl_nfs4.specs.declared.limits.TheConstants.{INLINE_ACES, MAX_ACES};
ghost use Rattle.acl_nfs4.specs.Flags.{flag_bits};
ghost use Rattle.acl_nfs4.specs.Mask.{mask_bits, all_masks};
ghost use Rattle.acl_bridge.specs.Effects.{flags_of, with_effect};
ghost use Rattle.acl_bridge.specs.Translation.{is_in, aces_for, aces_of_pass};

use acl_nfs4::{AboutWho, Ace, AceFault, AceType, Acl4, Flags, Mask, Who, mask_of, rest_of};
use acl_posix::{Acl, Entry, Perms, Tag};
use bitflags::Flags as FlagSet;
use std::alloc::AllocError;

/// The classes of entries.
#[derive(Clone, Copy)]
pub(crate) enum Class {
    Owner,
    Users,
    /// The file's group, and groups by id.
    Groups,
    Others,
}

/// What a pass makes of each entry of its class.
#[derive(Clone, Copy)]
pub(crate) enum Part {
    /// What the entry allows.
    Allowed,
    /// What the entry denies: the rest.
    Denied,
    /// What the entry allows, and then what it denies.
    Settled,
}

/// Where the entries of a translation take effect.
#[derive(Clone, Copy)]
pub(crate) enum Effect {
    /// On the file itself.
    Here,
    /// On what is created below it, and only there.
    Below,
}

/// The passes in their order. Entries for groups work together: none denies before all have
/// allowed.
pub(crate) const PASSES: [(Class, Part); 5] = [
    (Class::Owner, Part::Settled),
    (Class::Users, Part::Settled),
    (Class::Groups, Part::Allowed),
    (Class::Groups, Part::Denied),
    (Class::Others, Part::Allowed),
];

impl Class {
    /// Whether an entry with this tag is of the class.
    fn contains(self, tag: Tag) -> bool
        ensures { result ≡ is_in self tag }
    {
        match (self, tag) {
            (Class::Owner, Tag::UserObj) => true,
            (Class::Users, Tag::User(_)) => true,
            (Class::Groups, Tag::GroupObj) => true,
            (Class::Groups, Tag::Group(_)) => true,
            (Class::Others, Tag::Other) => true,
            _ => false,
        }
    }
}

impl Effect {
    /// The flags of inheritance of entries with this effect.
    fn flags(self) -> Flags
        ensures { flag_bits result ≡ flags_of self }
    {
        match self {
            Effect::Here => Flags::empty(),
            Effect::Below => Flags::FILE_INHERIT
                .union(Flags::DIRECTORY_INHERIT)
                .union(Flags::INHERIT_ONLY),
        }
    }
}

/// Appends an entry. The list has room for it, so this fails only if memory runs out.
fn push(aces: &mut Acl4, ace: Ace) -> Result<(), AllocError>
    requires room { length aces.old < MAX_ACES }
    requires effective { is_idle ace ≡ false }
    ensures ok { OnOk result (aces.new ≡ aces.old ++ ace ∷ []) }
    ensures short { length aces.old < INLINE_ACES → IsOk result }
{
    match aces.push(ace) {
        Ok(()) => Ok(()),
        Err(AceFault::Memory) => Err(AllocError),
        Err(_) => unreachable!(),
    }
}

/// Appends an entry of these parts, unless its mask is empty.
fn push_made(
    aces: &mut Acl4,
    kind: AceType,
    who: Who,
    mask: Mask,
    effect: Effect,
) -> Result<(), AllocError>
    requires known { mask_bits mask ∩ all_masks ≡ mask_bits mask }
    requires room { length (aces.old ++ with_effect effect (plain_ace kind who (mask_bits mask)))
        ≤ MAX_ACES }
    ensures ok { OnOk result (aces.new ≡ aces.old
        ++ with_effect effect (plain_ace kind who (mask_bits mask))) }
    ensures short { length (aces.old ++ with_effect effect (plain_ace kind who (mask_bits mask)))
        ≤ INLINE_ACES → IsOk result }
{
    if mask.is_empty() {
        return Ok(());
    }
    push(aces, Ace::new(kind, effect.flags(), who, mask))
}

/// Appends an entry that allows these permissions.
fn append_allowed(aces: &mut Acl4, who: Who, perms: Perms, effect: Effect) -> Result<(), AllocError>
    requires room { length (aces.old ++ with_effect effect
        (aces_for Part.Allowed who (bits_of perms))) ≤ MAX_ACES }
    ensures ok { OnOk result (aces.new ≡ aces.old
        ++ with_effect effect (aces_for Part.Allowed who (bits_of perms))) }
    ensures short { length (aces.old ++ with_effect effect
        (aces_for Part.Allowed who (bits_of perms))) ≤ INLINE_ACES → IsOk result }
{
    push_made(aces, AceType::Allow, who, mask_of(perms), effect)
}

/// Appends an entry that denies the permissions other than these.
fn append_denied(aces: &mut Acl4, who: Who, perms: Perms, effect: Effect) -> Result<(), AllocError>
    requires room { length (aces.old ++ with_effect effect
        (aces_for Part.Denied who (bits_of perms))) ≤ MAX_ACES }
    ensures ok { OnOk result (aces.new ≡ aces.old
        ++ with_effect effect (aces_for Part.Denied who (bits_of perms))) }
    ensures short { length (aces.old ++ with_effect effect
        (aces_for Part.Denied who (bits_of perms))) ≤ INLINE_ACES → IsOk result }
{
    push_made(aces, AceType::Deny, who, rest_of(perms), effect)
}

/// Appends what a pass makes for a `who` with these permissions.
fn append_made(
    aces: &mut Acl4,
    part: Part,
    who: Who,
    perms: Perms,
    effect: Effect,
) -> Result<(), AllocError>
    requires room { length (aces.old ++ with_effect effect (aces_for part who (bits_of perms)))
        ≤ MAX_ACES }
    ensures ok { OnOk result (aces.new ≡ aces.old
        ++ with_effect effect (aces_for part who (bits_of perms))) }
    ensures short { length (aces.old ++ with_effect effect (aces_for part who (bits_of perms)))
        ≤ INLINE_ACES → IsOk result }
{
    match part {
        Part::Allowed => append_allowed(aces, who, perms, effect),
        Part::Denied => append_denied(aces, who, perms, effect),
        Part::Settled => {
            // For the proof only: a copy by itself for each of the two calls.
            let denied = who;
            append_allowed(aces, who, perms, effect)?;
            append_denied(aces, denied, perms, effect)
        }
    }
}

/// Appends what a pass makes of the entries of its class, in their order.
pub(crate) fn append_pass(
    aces: &mut Acl4,
    acl: &Acl,
    pass: (Class, Part),
    effect: Effect,
) -> Result<(), AllocError>
    requires room { length (aces.old ++ with_effect effect (aces_of_pass pass acl.now)) ≤ MAX_ACES }
    ensures ok { OnOk result (aces.new ≡ aces.old ++ with_effect effect (aces_of_pass pass acl.now)) }
    ensures short { length (aces.old ++ with_effect effect (aces_of_pass pass acl.now))
        ≤ INLINE_ACES → IsOk result }
{
    let (class, part) = pass;
    let mask = acl.mask();
    for entry in acl.entries() {
        if class.contains(entry.tag) {
            append_made(aces, part, entry.who(), entry.perms_under(mask), effect)?;
        }
    }
    Ok(())
}
