//! Folders in which anybody may delete what others own.
ghost use Rattle.std.specs.Prelude.{◌≡◌, ◌^◌, ◌&&◌, ℕ, not};
ghost use Rattle.acl_names.specs.Bits.{has, has_all};
ghost use Rattle.acl_nfs4.specs.Ace.{decides};
ghost use Rattle.acl_nfs4.specs.Evaluation.{allows, speaks, verdict};
ghost use Rattle.acl_nfs4.specs.Flags.{flag_bits, inherit_only};
ghost use Rattle.acl_nfs4.specs.Mask.{mask_bits};
ghost use Rattle.acl_posix.specs.Entry.{same_tag};
ghost use Rattle.acl_posix.specs.Perms.{bits_of};
ghost use Rattle.acl_posix.specs.declared.entry.Tag.TheVariants.{Other};
ghost use Rattle.acl_listing_lint.specs.Deletions.{anyone_adds, anyone_deletes, anyone_searches};
ghost use Rattle.acl_listing_lint.specs.Deletions.{is_everyone, other_has, said_to_anyone};

use acl_access::deletes_by;
use acl_bridge::AnyAcl;
use acl_nfs4::{Ace, AceType, Acl4, Flags, Mask, Who};
use acl_posix::{Acl, Entry, Perms, Tag};
use bitflags::Flags as FlagSet;

/// Whether the entry is for the others, and has all of the request.
fn is_others_with(entry: &Entry, request: Perms) -> bool
    ensures { result
        ≡ (same_tag entry.now.tag Other && has_all entry.now.perms (bits_of request)) }
{
    entry.tag.is(Tag::Other) && entry.perms.contains(request)
}

/// Whether the entry for the others has all of the request.
fn other_has(acl: &Acl, request: Perms) -> bool
    ensures { result ≡ other_has acl.now (bits_of request) }
{
    acl.entries()
        .iter()
        .any(|entry| is_others_with(entry, request))
}

fn has_inherit_only(flags: Flags) -> bool
    ensures { result ≡ has (flag_bits flags) inherit_only }
{
    flags.contains(Flags::INHERIT_ONLY)
}

/// Whether the entry allows or denies, and not only what is made below.
#[tactic(auto, unfolding(acl_nfs4::specs::Ace::decides))]
fn decides(ace: &Ace) -> bool
    ensures { result ≡ decides ace.now }
{
    match ace.kind() {
        AceType::Allow | AceType::Deny => !has_inherit_only(ace.flags()),
        AceType::Audit | AceType::Alarm => false,
    }
}

/// Whether the entry is for everyone.
fn is_everyone(who: &Who) -> bool
    ensures { result ≡ is_everyone who.now }
{
    matches!(who, Who::Everyone)
}

/// Whether the entry decides about everyone.
fn concerns(ace: &Ace) -> bool
    ensures { result ≡ (decides ace.now && is_everyone ace.now.who) }
{
    decides(ace) && is_everyone(&ace.who())
}

/// Whether the entry speaks of the bit to everyone.
fn speaks(ace: &Ace, bit: Mask) -> bool
    ensures { (place : ℕ) → mask_bits bit ≡ 2 ^ place
        → result ≡ speaks is_everyone place ace.now }
{
    concerns(ace) && ace.mask().contains(bit)
}

/// What the first entry says that speaks of the bit to everyone, if there is one.
fn verdict(acl: &Acl4, bit: Mask) -> Option<bool>
    ensures { (place : ℕ) → mask_bits bit ≡ 2 ^ place
        → result ≡ verdict is_everyone place acl.now }
{
    for ace in acl.aces() {
        if speaks(ace, bit) {
            return Some(matches!(ace.kind(), AceType::Allow));
        }
    }
    None
}

/// Whether the list allows everyone the bit.
fn allows(acl: &Acl4, bit: Mask) -> bool
    ensures { (place : ℕ) → mask_bits bit ≡ 2 ^ place
        → result ≡ allows is_everyone place acl.now }
{
    verdict(acl, bit).unwrap_or(false)
}

/// Whether whoever the list doesn't name may search the folder.
fn anyone_searches(list: &AnyAcl) -> bool
    ensures { result ≡ anyone_searches list.now }
{
    match list {
        AnyAcl::Posix(acl) => other_has(acl, Perms::EXECUTE),
        AnyAcl::Nfs4(acl) => allows(acl, Mask::EXECUTE),
    }
}

/// Whether they may add to it.
fn anyone_adds(list: &AnyAcl) -> bool
    ensures { result ≡ anyone_adds list.now }
{
    match list {
        AnyAcl::Posix(acl) => other_has(acl, Perms::WRITE | Perms::EXECUTE),
        AnyAcl::Nfs4(acl) => allows(acl, Mask::WRITE_DATA),
    }
}

/// What it says to them of `DELETE_CHILD`.
fn said_to_anyone(list: &AnyAcl) -> Option<bool>
    ensures { result ≡ said_to_anyone list.now }
{
    match list {
        AnyAcl::Posix(_) => None,
        AnyAcl::Nfs4(acl) => verdict(acl, Mask::DELETE_CHILD),
    }
}

/// Whether they may add to it, and it has no sticky bit.
fn anyone_adds_freely(sticky: bool, list: &AnyAcl) -> bool
    ensures { result ≡ (anyone_adds list.now && not sticky) }
{
    anyone_adds(list) && !sticky
}

/// Whether anybody may delete what others own in a folder with this list.
pub(crate) fn anyone_deletes(sticky: bool, list: &AnyAcl) -> bool
    ensures { result ≡ anyone_deletes sticky list.now }
{
    let otherwise = anyone_adds_freely(sticky, list);
    let child = said_to_anyone(list);
    anyone_searches(list) && deletes_by(None, child, otherwise)
}
