//! Removing the escapes of getfacl from paths.
ghost use Rattle.std.specs.Prelude.{◌≡◌, ◌++◌, OnOk};
ghost use Rattle.acl_accounts.specs.Names.{unquoted};

use acl_accounts::first_unquoted;
use std::alloc::AllocError;

/// Appends a path as the file system has it.
pub(crate) fn push_unescaped(path: &[u8], out: &mut Vec<u8>) -> Result<(), AllocError>
    ensures { OnOk result (out.new.items ≡ out.old.items ++ unquoted path.now) }
{
    let mut rest = path;
    while let Some((byte, behind)) = first_unquoted(rest) {
        out.push(byte)?;
        rest = behind;
    }
    Ok(())
}
