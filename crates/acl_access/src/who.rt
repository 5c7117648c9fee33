//! Who may do what, line by line.
ghost use Rattle.std.specs.Prelude.{◌≡◌, ◌++◌, OnOk};
ghost use Rattle.acl_access.specs.Who.{may_line, written_line};

use crate::letters::LetterSet;
use std::alloc::AllocError;

/// Appends the line with a user's letters: letters, name and path.
pub fn push_letters_line<L: LetterSet>(
    path: &[u8],
    name: &[u8],
    letters: L,
    out: &mut Vec<u8>,
) -> Result<(), AllocError>
    ensures { OnOk result (out.new.items ≡ out.old.items
        ++ written_line L.text path.now name.now (L.number letters)) }
{
    letters.push(out)?;
    out.push(b' ')?;
    out.extend_from_slice(name)?;
    out.push(b' ')?;
    out.extend_from_slice(path)?;
    out.push(b'\n')?;
    Ok(())
}

/// Appends the line of a user who may: name and path.
pub fn push_may_line(path: &[u8], name: &[u8], out: &mut Vec<u8>) -> Result<(), AllocError>
    ensures { OnOk result (out.new.items ≡ out.old.items ++ may_line path.now name.now) }
{
    out.extend_from_slice(name)?;
    out.push(b' ')?;
    out.extend_from_slice(path)?;
    out.push(b'\n')?;
    Ok(())
}
