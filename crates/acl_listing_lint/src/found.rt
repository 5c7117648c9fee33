//! How it is reported what is found.
ghost use Rattle.std.specs.Prelude.{◌≡◌, ◌++◌, OnOk, codes, decimal};
ghost use Rattle.acl_listing_lint.specs.Found.{entry_at};
ghost use Rattle.acl_listing_lint.specs.LintSteps.{view_spot};

use acl_names::push_shown;
use itoa::Buffer;
use std::alloc::AllocError;

/// An entry as the listing writes it, and where.
#[derive(Clone, Copy)]
pub(crate) struct Spot<'t> {
    /// The name of the listing.
    pub name: &'t str,
    /// The number of the line.
    pub line: u64,
    /// What stands before the entry there.
    pub before: &'t [u8],
    pub piece: &'t [u8],
}

/// Appends how a line begins that reports something: `LISTING:LINE: WORD `.
pub(crate) fn push_start(
    name: &str,
    line: u64,
    word: &[u8],
    out: &mut Vec<u8>,
) -> Result<(), AllocError>
    ensures { OnOk result (out.new.items ≡ out.old.items ++ (name.now ++ codes ":" ++ decimal line
        ++ codes ": " ++ word.now ++ codes " ")) }
{
    out.extend_from_slice(name.as_bytes())?;
    out.push(b':')?;
    out.extend_from_slice(Buffer::new().format(line).as_bytes())?;
    out.extend_from_slice(b": ")?;
    out.extend_from_slice(word)?;
    out.push(b' ')?;
    Ok(())
}

/// Appends the entry.
pub(crate) fn push_entry_at(spot: &Spot<'_>, out: &mut Vec<u8>) -> Result<(), AllocError>
    ensures { OnOk result (out.new.items ≡ out.old.items ++ entry_at (view_spot spot.now)) }
{
    out.extend_from_slice(spot.before)?;
    push_shown(spot.piece, out)
}
