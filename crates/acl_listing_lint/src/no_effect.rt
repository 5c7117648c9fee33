//! Entries of access lists without which everybody is granted the same.
ghost use Rattle.std.specs.Prelude.{◌≡◌, ◌++◌, ◌∷◌, [], IfOk, OnOk, if◌then◌else◌};
ghost use Rattle.acl_bridge.specs.Lists.{Finds};
ghost use Rattle.acl_listing_lint.specs.Effects.{DecideAlike, IsEffectSaid, SaysExactly, but_entry};
ghost use Rattle.acl_listing_lint.specs.Effects.{file_by, is_other, list_without, no_effect_line};
ghost use Rattle.acl_listing_lint.specs.LintSteps.{Adds, IsSaidUnlessFound, view_spot};

use crate::found::{Spot, push_entry_at, push_start};
use acl_bridge::{AnyAclRef, FileAcl, list_difference};
use acl_nfs4::{Difference, Owners};
use acl_posix::{Acl, Entries, Entry};
use std::alloc::{AllocError, Global};

/// Puts the entry behind the others, unless it has the tag of the one to leave out.
fn push_other(left: &Entry, entry: &Entry, kept: &mut Entries) -> Result<(), AllocError>
    ensures { OnOk result (kept.new ≡ kept.old
        ++ (if is_other left.now.tag entry.now then entry.now ∷ [] else [])) }
{
    if entry.tag.is(left.tag) {
        return Ok(());
    }
    match kept.push(*entry) {
        Ok(()) => Ok(()),
        // Only memory can lack: a list has no more.
        Err(_) => Err(AllocError),
    }
}

/// The entries of the list but for this one.
fn entries_but(alloc: Global, acl: &Acl, left: &Entry) -> Result<Entries, AllocError>
    ensures { IfOk result (λ kept. kept ≡ but_entry left.now.tag acl.now) }
{
    let entries = acl.entries();
    let mut kept = Entries::with_capacity(alloc, entries.len())?;
    for entry in entries {
        push_other(left, entry, &mut kept)?;
    }
    Ok(kept)
}

/// The list without the entry, if there is such a list.
fn list_without(alloc: Global, acl: &Acl, left: &Entry) -> Result<Option<Acl>, AllocError>
    ensures { IfOk result (λ other. other ≡ list_without left.now.tag acl.now) }
{
    let kept = entries_but(alloc, acl, left)?;
    match Acl::new(kept) {
        Ok(other) => Ok(Some(other)),
        Err(_) => Ok(None),
    }
}

/// What Linux decides otherwise by the other list, for a file of these owners.
fn difference_between(
    alloc: Global,
    owners: &Owners,
    acl: &Acl,
    other: Acl,
) -> Result<Option<Difference>, AllocError>
    ensures { IfOk result (Finds (file_by owners.now acl.now) (file_by owners.now other)) }
{
    let before = acl.try_clone(alloc)?.for_linux(alloc)?;
    let after = other.for_linux(alloc)?;
    let first = FileAcl {
        owners: *owners,
        list: AnyAclRef::Posix(&before),
    };
    let second = FileAcl {
        owners: *owners,
        list: AnyAclRef::Posix(&after),
    };
    list_difference(alloc, &first, &second)
}

/// Appends the line of the entry.
pub(crate) fn push_no_effect_line(spot: &Spot<'_>, out: &mut Vec<u8>) -> Result<(), AllocError>
    ensures { OnOk result (out.new.items ≡ out.old.items ++ no_effect_line (view_spot spot.now)) }
{
    push_start(spot.name, spot.line, b"no-effect", out)?;
    push_entry_at(spot, out)?;
    out.push(b'\n')?;
    Ok(())
}

/// Appends the line of the entry, if nothing is found that the other list decides otherwise.
fn push_unless_found(
    alloc: Global,
    spot: &Spot<'_>,
    owners: &Owners,
    acl: &Acl,
    other: Acl,
    out: &mut Vec<u8>,
) -> Result<(), AllocError>
    ensures { OnOk result (Adds (IsSaidUnlessFound (file_by owners.now acl.now)
        (file_by owners.now other) (no_effect_line (view_spot spot.now)))
        out.old.items out.new.items) }
{
    match difference_between(alloc, owners, acl, other) {
        Ok(Some(_)) => Ok(()),
        Ok(None) => push_no_effect_line(spot, out),
        Err(refused) => Err(refused),
    }
}

/// Appends the line of the entry, if the other list decides alike.
fn push_if_alike(
    alloc: Global,
    spot: &Spot<'_>,
    owners: &Owners,
    acl: &Acl,
    other: Acl,
    out: &mut Vec<u8>,
) -> Result<(), AllocError>
    ensures { OnOk result (Adds (SaysExactly (DecideAlike owners.now acl.now other)
        (no_effect_line (view_spot spot.now))) out.old.items out.new.items) }
{
    push_unless_found(alloc, spot, owners, acl, other, out)
}

/// Appends the line of an entry of an access list, if there is a list without it, and that grants
/// everybody the same.
pub(crate) fn push_no_effect(
    alloc: Global,
    spot: &Spot<'_>,
    owners: &Owners,
    acl: &Acl,
    entry: &Entry,
    out: &mut Vec<u8>,
) -> Result<(), AllocError>
    ensures { OnOk result (Adds (IsEffectSaid owners.now acl.now (view_spot spot.now) entry.now)
        out.old.items out.new.items) }
{
    match list_without(alloc, acl, entry)? {
        Some(other) => push_if_alike(alloc, spot, owners, acl, other, out),
        None => Ok(()),
    }
}
