//! Entries from which the mask takes permissions.
ghost use Rattle.std.specs.Prelude.{◌≡◌, ◌++◌, OnOk};
ghost use Rattle.acl_posix.specs.Perms.{bits_of};
ghost use Rattle.acl_listing_lint.specs.LintSteps.{view_spot};
ghost use Rattle.acl_listing_lint.specs.Masked.{masked_text, taken_of};

use crate::found::{Spot, push_entry_at, push_start};
use acl_posix::{Acl, Entry, Perms, push_perms, without};
use bitflags::Flags;
use std::alloc::AllocError;

/// The permissions that the list's mask takes from the entry.
fn taken_of(acl: &Acl, entry: &Entry) -> Perms
    ensures { bits_of result ≡ taken_of acl.now entry.now }
{
    without(entry.perms, acl.effective_perms(entry))
}

/// Appends the line of the entry, if the list's mask takes permissions from it.
pub(crate) fn push_masked(
    spot: &Spot<'_>,
    acl: &Acl,
    entry: &Entry,
    out: &mut Vec<u8>,
) -> Result<(), AllocError>
    ensures { OnOk result (out.new.items ≡ out.old.items
        ++ masked_text (view_spot spot.now) acl.now entry.now) }
{
    let taken = taken_of(acl, entry);
    if taken.is_empty() {
        return Ok(());
    }
    push_start(spot.name, spot.line, b"masked", out)?;
    push_entry_at(spot, out)?;
    out.push(b' ')?;
    push_perms(taken, out)?;
    out.push(b'\n')?;
    Ok(())
}
