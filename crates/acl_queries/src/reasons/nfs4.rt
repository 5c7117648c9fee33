//! The entries of an NFSv4 list that decide.
ghost use Rattle.std.specs.Prelude.{◌≡◌, ◌<◌, ◌+◌, ◌++◌, OnOk, codes, decimal};
ghost use Rattle.acl_nfs4.specs.Mask.{mask_bits};
ghost use Rattle.acl_nfs4.specs.PrintedText.{ace_text};
ghost use Rattle.acl_nfs4.specs.Who.{matches};
ghost use Rattle.acl_nfs4.specs.declared.limits.TheConstants.{MAX_ACES};
ghost use Rattle.acl_queries.specs.Reasons.{bit_line, bit_line_if, nfs4_reasons, speaker_text};

use super::FileRequest;
use crate::explanation::first_speaker;
use acl_names::Directory;
use acl_nfs4::{Ace, Acl4, Mask, mask_of, push_ace, push_mask};
use bitflags::Flags;
use itoa::Buffer;
use std::alloc::AllocError;

/// Appends the place of an entry, from 1, and the entry.
fn push_placed(
    place: usize,
    ace: &Ace,
    directory: &Directory,
    out: &mut Vec<u8>,
) -> Result<(), AllocError>
    requires { place < MAX_ACES }
    ensures { OnOk result (out.new.items ≡ out.old.items
        ++ decimal (place + 1) ++ codes " " ++ ace_text directory.now ace.now) }
{
    out.extend_from_slice(Buffer::new().format(place + 1).as_bytes())?;
    out.push(b' ')?;
    push_ace(ace, directory, out)
}

/// Appends the entry at the place, or hyphens for none.
fn push_speaker(
    acl: &Acl4,
    place: Option<usize>,
    directory: &Directory,
    out: &mut Vec<u8>,
) -> Result<(), AllocError>
    ensures { OnOk result (out.new.items ≡ out.old.items
        ++ speaker_text directory.now acl.now place) }
{
    let Some(place) = place else {
        return out.extend_from_slice("- -".as_bytes());
    };
    match acl.aces().get(place) {
        Some(ace) => push_placed(place, ace, directory, out),
        None => Ok(()),
    }
}

/// Appends the line of a bit, a mask of one: its letter, and the first entry that allows or denies
/// it to the requester, or `- -` if none does. Fails only if memory runs out.
pub fn push_bit(
    bit: Mask,
    asked: &FileRequest<'_>,
    acl: &Acl4,
    directory: &Directory,
    out: &mut Vec<u8>,
) -> Result<(), AllocError>
    ensures { OnOk result (out.new.items ≡ out.old.items ++ bit_line directory.now
        (matches asked.now.owner asked.now.group asked.now.requester) acl.now
        (mask_bits bit)) }
{
    push_mask(bit, out)?;
    out.push(b' ')?;
    let (owner, group) = (asked.owner, asked.group);
    let place = first_speaker(acl, owner, group, asked.requester, bit);
    push_speaker(acl, place, directory, out)?;
    out.push(b'\n')?;
    Ok(())
}

/// Appends the line of a bit, if it is in the mask.
fn push_bit_if(
    bit: Mask,
    mask: Mask,
    asked: &FileRequest<'_>,
    acl: &Acl4,
    directory: &Directory,
    out: &mut Vec<u8>,
) -> Result<(), AllocError>
    ensures { OnOk result (out.new.items ≡ out.old.items ++ bit_line_if directory.now
        (matches asked.now.owner asked.now.group asked.now.requester) (mask_bits mask)
        acl.now (mask_bits bit)) }
{
    if mask.contains(bit) {
        push_bit(bit, asked, acl, directory, out)?;
    }
    Ok(())
}

/// Appends a line for each bit that is requested: its letter, and the first entry that allows or
/// denies it, as [`Explain`](crate::Explain) reports it. Fails only if memory runs out.
pub(super) fn push_nfs4_reasons(
    asked: &FileRequest<'_>,
    acl: &Acl4,
    directory: &Directory,
    out: &mut Vec<u8>,
) -> Result<(), AllocError>
    ensures { OnOk result (out.new.items
        ≡ out.old.items ++ nfs4_reasons directory.now asked.now acl.now) }
{
    let mask = mask_of(asked.request);
    push_bit_if(Mask::READ_DATA, mask, asked, acl, directory, out)?;
    push_bit_if(Mask::WRITE_DATA, mask, asked, acl, directory, out)?;
    push_bit_if(Mask::APPEND_DATA, mask, asked, acl, directory, out)?;
    push_bit_if(Mask::EXECUTE, mask, asked, acl, directory, out)
}
