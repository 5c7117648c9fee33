//! Printing who loses or gains what.
ghost use Rattle.std.specs.Prelude.{◌≡◌, ◌++◌, OnOk};
ghost use Rattle.acl_nfs4.specs.Mask.{mask_bits};
ghost use Rattle.acl_queries.specs.Differences.{bits_text, gids_text};

use acl_names::{Gid, push_decimal};
use acl_nfs4::{Mask, push_mask};
use bitflags::Flags;
use std::alloc::AllocError;

/// Appends the gids of a requester in at most two groups, each once, with a comma between them, or
/// `-` without groups. Fails only if memory runs out.
pub fn push_gids(
    gid: Option<Gid>,
    other_gid: Option<Gid>,
    out: &mut Vec<u8>,
) -> Result<(), AllocError>
    ensures { OnOk result (out.new.items ≡ out.old.items ++ gids_text gid other_gid) }
{
    match (gid, other_gid) {
        (None, None) => out.push(b'-')?,
        (Some(gid), None) => push_decimal(gid.value(), out)?,
        (None, Some(gid)) => push_decimal(gid.value(), out)?,
        (Some(gid), Some(other)) => {
            push_decimal(gid.value(), out)?;
            if gid != other {
                out.push(b',')?;
                push_decimal(other.value(), out)?;
            }
        }
    }
    Ok(())
}

/// Appends the letters of what is lost or gained, or `-` if there are none. Fails only if memory
/// runs out.
pub fn push_bits(bits: Mask, out: &mut Vec<u8>) -> Result<(), AllocError>
    ensures { OnOk result (out.new.items ≡ out.old.items ++ bits_text (mask_bits bits)) }
{
    if bits.is_empty() {
        out.push(b'-')?;
        return Ok(());
    }
    push_mask(bits, out)
}
