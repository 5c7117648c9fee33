//! The NFSv4 list of a file.
ghost use Rattle.std.specs.Prelude.{◌≡◌, ◌++◌, ◌∷◌, [], IfOk, OnOk};
ghost use Rattle.acl_posix.specs.Linux.{linux_list};
ghost use Rattle.acl_nfs4.specs.Ace.{ace_of};
ghost use Rattle.acl_nfs4.specs.declared.ace.AceType.TheVariants.{Allow};
ghost use Rattle.acl_bridge.specs.Translation.{translation};
ghost use Rattle.acl_listings.specs.Faults.{ReadsAs};
ghost use Rattle.acl_listings.specs.declared.lists.Lists.TheVariants.{Posix};
ghost use Rattle.acl_listing_translation.specs.Translated.{aces_of, as_list, attributes_if};
ghost use Rattle.acl_listing_translation.specs.Translated.{below_of};

use acl_bridge::{translate, translate_default};
use acl_listings::{BlockFault, FileFault, Lists};
use acl_nfs4::{Ace, AceType, Acl4, Flags, MAX_ACES, Mask, Who};
use acl_posix::{Acl, AclFault};
use bitflags::Flags as FlagSet;
use std::alloc::{AllocError, Global};

/// What servers also check for an owner: `tTnNcCoy`.
const OWNER_ATTRIBUTES: u32 = 0x1E_0198;

/// And for everybody: `tncy`.
const ATTRIBUTES: u32 = 0x12_0088;

/// The NFSv4 list of a file with these lists: its own, or the translation of its POSIX lists. Fails
/// if it would have more than 128 entries, and if memory runs out.
pub(crate) fn nfs4_list(alloc: Global, attributes: bool, lists: Lists) -> Result<Acl4, FileFault>
    ensures { ReadsAs (as_list (aces_of attributes lists)) result }
{
    match lists {
        Lists::Posix { access, default } => translated(alloc, attributes, access, default),
        Lists::Nfs4 { acl } => own(acl),
    }
}

/// An NFSv4 list, unchanged.
fn own(acl: Acl4) -> Result<Acl4, FileFault>
    ensures { ReadsAs (as_list acl) result }
{
    if acl.aces().len() > MAX_ACES {
        return Err(FileFault::Block(BlockFault::Acl(AclFault::TooMany)));
    }
    Ok(acl)
}

/// The translation of these lists. Each is dropped where it has been translated.
fn translated(
    alloc: Global,
    attributes: bool,
    access: Acl,
    default: Option<Acl>,
) -> Result<Acl4, FileFault>
    ensures { ReadsAs (as_list (aces_of attributes (Posix access default))) result }
{
    let below = below_of(alloc, default)?;
    let acl = translation_of(alloc, access)?;
    let besides = attributes_if(alloc, attributes)?;
    joined(acl, below.aces(), besides.aces())
}

/// The list with these entries behind its own. Fails if it would have more than 128 entries, and if
/// memory runs out.
fn joined(mut acl: Acl4, below: &[Ace], besides: &[Ace]) -> Result<Acl4, FileFault>
    ensures { ReadsAs (as_list (acl ++ (below.now ++ besides.now))) result }
{
    if acl.aces().len() + below.len() + besides.len() > MAX_ACES {
        return Err(FileFault::Block(BlockFault::Acl(AclFault::TooMany)));
    }
    append(&mut acl, below)?;
    append(&mut acl, besides)?;
    Ok(acl)
}

/// The translation of an access list, as Linux evaluates it.
fn translation_of(alloc: Global, access: Acl) -> Result<Acl4, AllocError>
    ensures { IfOk result (λ acl. acl ≡ translation (linux_list access)) }
{
    translate(alloc, &access.for_linux(alloc)?)
}

/// The translation of a default list; empty without one.
fn below_of(alloc: Global, default: Option<Acl>) -> Result<Acl4, AllocError>
    ensures { IfOk result (λ acl. acl ≡ below_of default) }
{
    match default {
        Some(default) => translate_default(alloc, &default.for_linux(alloc)?),
        None => Ok(Acl4::empty(alloc)),
    }
}

/// What servers also check, if `attributes` is set; else empty.
fn attributes_if(alloc: Global, attributes: bool) -> Result<Acl4, AllocError>
    ensures { IfOk result (λ acl. acl ≡ attributes_if attributes) }
{
    let mut acl = Acl4::empty(alloc);
    if attributes {
        push_allowed(&mut acl, &Who::Owner, OWNER_ATTRIBUTES)?;
        push_allowed(&mut acl, &Who::Everyone, ATTRIBUTES)?;
    }
    Ok(acl)
}

/// Appends an entry that allows these bits.
fn push_allowed(acl: &mut Acl4, who: &Who, bits: u32) -> Result<(), AllocError>
    ensures { OnOk result (acl.new ≡ acl.old ++ ace_of Allow 0 who.now bits ∷ []) }
{
    let mask = Mask::from_bits_retain(bits);
    let ace = Ace::new(AceType::Allow, Flags::empty(), *who, mask);
    // Only memory can be lacking: there is room, and the entry has an effect.
    match acl.push(ace) {
        Ok(()) => Ok(()),
        Err(_) => Err(AllocError),
    }
}

/// Appends the entries of another list. There must be room for them.
fn append(acl: &mut Acl4, more: &[Ace]) -> Result<(), AllocError>
    ensures { OnOk result (acl.new ≡ acl.old ++ more.now) }
{
    for ace in more {
        if acl.push(*ace).is_err() {
            return Err(AllocError);
        }
    }
    Ok(())
}
