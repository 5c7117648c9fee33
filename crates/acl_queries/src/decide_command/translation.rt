//! The translation that `decide --nfs4` prints.
ghost use Rattle.std.specs.Prelude.{◌≡◌, ◌++◌, OnOk};
ghost use Rattle.acl_queries.specs.DecideAnswer.{translation_text};

use crate::command::acl::empty_directory;
use acl_bridge::translate;
use acl_posix::Acl;
use std::alloc::{AllocError, Global};

/// Appends the entries of the NFSv4 list to which an access control list translates, one a line,
/// with decimal ids.
pub(super) fn print_translation(
    alloc: Global,
    acl: &Acl,
    out: &mut Vec<u8>,
) -> Result<(), AllocError>
    ensures { OnOk result (out.new.items ≡ out.old.items ++ translation_text acl.now) }
{
    let directory = empty_directory(alloc)?;
    translate(alloc, acl)?.print_aces(&directory, out)
}
