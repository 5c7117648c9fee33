//! Which blocks are those of folders in which anybody may delete.
ghost use Rattle.std.specs.Prelude.{◌≡◌, ◌++◌, IfOk, OnOk};
ghost use Rattle.acl_listings.specs.Views.{view_file};
ghost use Rattle.acl_listing_lint.specs.Pending.{deletes_line, is_open, pending_then, reported_at};
ghost use Rattle.acl_listing_lint.specs.Pending.{reported_before};

use crate::deletions::anyone_deletes;
use crate::found::push_start;
use acl_access::{Rules, push_printed_path};
use acl_listings::{File, is_above, says_folder};
use acl_reports::owners_and_list;
use std::alloc::{AllocError, Global};
use std::marker::Model;

/// A file in which anybody may delete, if it is a folder, which what comes after it shows.
#[derive(Drop)]
pub(crate) struct Pending {
    path: Vec<u8>,
    /// The number of its block's first line.
    line: u64,
}

impl Model for Pending {
    ghost use Rattle.acl_listing_lint.specs.Pending.{Pending as PendingValue};

    ghost Value = { PendingValue };

    ghost view = { λ inside. record { path = inside.path.items; line = inside.line } };
}

/// Appends the line of a folder in which anybody may delete.
fn push_deletes(name: &str, path: &[u8], line: u64, out: &mut Vec<u8>) -> Result<(), AllocError>
    ensures { OnOk result (out.new.items ≡ out.old.items
        ++ deletes_line name.now (record { path = path.now; line = line })) }
{
    push_start(name, line, b"anyone-deletes", out)?;
    push_printed_path(path, out)?;
    out.push(b'\n')?;
    Ok(())
}

/// Appends the line of the file that is pending, if what has this path lies below it.
pub(crate) fn push_before(
    name: &str,
    pending: &Option<Pending>,
    path: &[u8],
    out: &mut Vec<u8>,
) -> Result<(), AllocError>
    ensures { OnOk result (out.new.items ≡ out.old.items
        ++ reported_before name.now pending.now path.now) }
{
    match pending {
        Some(pending) => {
            if is_above(pending.path.as_slice(), path) {
                push_deletes(name, pending.path.as_slice(), pending.line, out)?;
            }
            Ok(())
        }
        None => Ok(()),
    }
}

/// Whether anybody may delete in the file, if it is a folder. It takes no memory.
#[tactic(auto, using(crate::proofs::DeletionLemmas::open_by))]
fn is_open(alloc: Global, file: File<'_>) -> Result<bool, AllocError>
    ensures { IfOk result (λ answer. answer ≡ is_open (view_file file.entry)) }
{
    let sticky = file.flags.sticky;
    let (_, list) = owners_and_list(alloc, Rules::Linux, file)?;
    Ok(anyone_deletes(sticky, &list))
}

/// What is pending behind the file, whose block's first line has this number. Appends its line, if
/// anybody may delete in it and it says itself that it is a folder.
pub(crate) fn push_after(
    alloc: Global,
    name: &str,
    line: u64,
    file: File<'_>,
    out: &mut Vec<u8>,
) -> Result<Option<Pending>, AllocError>
    ensures pending { IfOk result (λ pending. pending ≡ pending_then line (view_file file.entry)) }
    ensures reported { OnOk result (out.new.items ≡ out.old.items
        ++ reported_at name.now line (view_file file.entry)) }
{
    let path = file.path;
    let says = says_folder(&file);
    let is_free = is_open(alloc, file)?;
    if !is_free {
        return Ok(None);
    }
    if says {
        push_deletes(name, path, line, out)?;
        return Ok(None);
    }
    let path = Vec::from_slice(alloc, path)?;
    Ok(Some(Pending { path, line }))
}
