//! The lines of `impact`.
ghost use Rattle.std.specs.Prelude.{◌≡◌, ◌++◌, OnOk, codes, decimal};
ghost use Rattle.acl_nfs4.specs.Mask.{mask_bits};
ghost use Rattle.acl_queries.specs.Differences.{bits_text, gids_text};
ghost use Rattle.acl_listing_changes.specs.ImpactText.{all_gids_text, differ_text, gone_text};
ghost use Rattle.acl_listing_changes.specs.ImpactText.{new_text, path_text};
ghost use Rattle.acl_listing_changes.specs.Impacting.{apart_line};

use acl_access::push_printed_path;
use acl_names::{Asker, Gid, Requester, Uid, push_decimal};
use acl_nfs4::Mask;
use acl_queries::{push_bits, push_gids};
use std::alloc::AllocError;

/// Appends the gids of a user.
fn push_all_gids(gids: &[Gid], out: &mut Vec<u8>) -> Result<(), AllocError>
    ensures { OnOk result (out.new.items ≡ out.old.items ++ all_gids_text gids.now) }
{
    let Some((first, others)) = gids.split_first() else {
        out.push(b'-')?;
        return Ok(());
    };
    push_decimal(first.value(), out)?;
    for gid in others {
        out.push(b',')?;
        push_decimal(gid.value(), out)?;
    }
    Ok(())
}

/// Appends a line's first fields: the user.
fn push_who(name: &[u8], uid: Uid, out: &mut Vec<u8>) -> Result<(), AllocError>
    ensures { OnOk result (out.new.items
        ≡ out.old.items ++ (codes "differ " ++ name.now ++ codes " " ++ decimal uid ++ codes " ")) }
{
    out.extend_from_slice(b"differ ")?;
    out.extend_from_slice(name)?;
    out.push(b' ')?;
    push_decimal(uid.value(), out)?;
    out.push(b' ')?;
    Ok(())
}

/// Appends a line's last fields: what is lost and gained, and the path.
fn push_what(lost: Mask, gained: Mask, path: &[u8], out: &mut Vec<u8>) -> Result<(), AllocError>
    ensures { OnOk result (out.new.items ≡ out.old.items
        ++ (codes " " ++ bits_text (mask_bits lost) ++ codes " " ++ bits_text (mask_bits gained)
        ++ codes " " ++ path.now ++ codes "\n")) }
{
    out.push(b' ')?;
    push_bits(lost, out)?;
    out.push(b' ')?;
    push_bits(gained, out)?;
    out.push(b' ')?;
    out.extend_from_slice(path)?;
    out.push(b'\n')?;
    Ok(())
}

/// Appends a user's line, `differ NAME UID GIDS LOST GAINED PATH`. Fails only if memory runs out.
pub(crate) fn push_person(
    name: &[u8],
    requester: &Requester,
    lost: Mask,
    gained: Mask,
    path: &[u8],
    out: &mut Vec<u8>,
) -> Result<(), AllocError>
    ensures { OnOk result (out.new.items ≡ out.old.items ++ differ_text name.now requester.now.uid
        (all_gids_text requester.now.gids) (mask_bits lost) (mask_bits gained) path.now) }
{
    push_who(name, requester.uid(), out)?;
    push_all_gids(requester.gids(), out)?;
    push_what(lost, gained, path, out)
}

/// Appends the line of somebody who is none of the users, with the name `-`. Fails only if memory
/// runs out.
pub(crate) fn push_somebody(
    asker: Asker,
    lost: Mask,
    gained: Mask,
    path: &[u8],
    out: &mut Vec<u8>,
) -> Result<(), AllocError>
    ensures { OnOk result (out.new.items ≡ out.old.items ++ differ_text (codes "-") asker.uid
        (gids_text asker.gid asker.other_gid) (mask_bits lost) (mask_bits gained) path.now) }
{
    push_who(b"-", asker.uid, out)?;
    push_gids(asker.gid, asker.other_gid, out)?;
    push_what(lost, gained, path, out)
}

/// Appends the line of a path that is new.
fn push_new(path: &[u8], out: &mut Vec<u8>) -> Result<(), AllocError>
    ensures { OnOk result (out.new.items ≡ out.old.items ++ new_text path.now) }
{
    out.extend_from_slice(b"new ")?;
    out.extend_from_slice(path)?;
    out.push(b'\n')?;
    Ok(())
}

/// Appends the line of a path that is gone.
fn push_gone(path: &[u8], out: &mut Vec<u8>) -> Result<(), AllocError>
    ensures { OnOk result (out.new.items ≡ out.old.items ++ gone_text path.now) }
{
    out.extend_from_slice(b"gone ")?;
    out.extend_from_slice(path)?;
    out.push(b'\n')?;
    Ok(())
}

/// Appends the line of a path that is gone, or new. Fails only if memory runs out.
pub fn push_path(gone: bool, path: &[u8], out: &mut Vec<u8>) -> Result<(), AllocError>
    ensures { OnOk result (out.new.items ≡ out.old.items ++ path_text gone path.now) }
{
    if gone {
        push_gone(path, out)
    } else {
        push_new(path, out)
    }
}

/// Appends the line for listings without a common path, with the first path of each. Fails only if
/// memory runs out.
pub fn push_apart(first: &[u8], second: &[u8], beside: &mut Vec<u8>) -> Result<(), AllocError>
    ensures { OnOk result (beside.new.items ≡ beside.old.items ++ apart_line first.now second.now) }
{
    beside.extend_from_slice(b"aclctl: no path of AFTER is in BEFORE, which begins with ")?;
    push_printed_path(first, beside)?;
    beside.extend_from_slice(b"; AFTER begins with ")?;
    push_printed_path(second, beside)?;
    beside.push(b'\n')?;
    Ok(())
}
