//! The answer of `compare` as text.
ghost use Rattle.std.specs.Prelude.{◌≡◌, ◌++◌, IfOk, OnOk};
ghost use Rattle.acl_queries.specs.Differences.{comparison_text, difference_text};

use crate::command::change_text::{push_bits, push_gids};
use acl_names::push_decimal;
use acl_nfs4::Difference;
use std::alloc::{AllocError, Global};

/// Appends the lines of a difference.
fn push_difference(difference: &Difference, out: &mut Vec<u8>) -> Result<(), AllocError>
    ensures { OnOk result (out.new.items ≡ out.old.items ++ difference_text difference.now) }
{
    out.extend_from_slice("differ\nrequester ".as_bytes())?;
    push_decimal(difference.asker.uid.value(), out)?;
    out.push(b' ')?;
    push_gids(difference.asker.gid, difference.asker.other_gid, out)?;
    out.extend_from_slice("\nlost ".as_bytes())?;
    push_bits(difference.lost, out)?;
    out.extend_from_slice("\ngained ".as_bytes())?;
    push_bits(difference.gained, out)?;
    out.push(b'\n')?;
    Ok(())
}

/// The answer for a difference, or for none.
pub(super) fn answer_text(alloc: Global, found: Option<Difference>) -> Result<Vec<u8>, AllocError>
    ensures { IfOk result (λ text. text.items ≡ comparison_text found) }
{
    let mut text = Vec::new(alloc);
    match found {
        Some(difference) => push_difference(&difference, &mut text)?,
        None => text.extend_from_slice("alike\n".as_bytes())?,
    }
    Ok(text)
}
