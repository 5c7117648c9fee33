//! The rules by which POSIX lists are evaluated.
ghost use Rattle.std.specs.Prelude.{◌≡◌, IfOk, IsOk};
ghost use Rattle.acl_access.specs.Evaluated.{evaluated_by};

use acl_posix::Acl;
use std::alloc::{AllocError, Global};

/// The rules by which POSIX lists are evaluated.
#[derive(Clone, Copy, Debug, PartialEq, Eq)]
pub enum Rules {
    /// Those of 1003.1e draft 17, section 23.
    Draft,
    /// Those of Linux, which ignores a list whose mask is empty, and uses the mode.
    Linux,
}

/// The list that these rules evaluate for a file with this list. It takes no memory.
pub fn evaluated_by(alloc: Global, rules: Rules, acl: Acl) -> Result<Acl, AllocError>
    ensures value { IfOk result (λ list. list ≡ evaluated_by rules acl) }
    ensures succeeds { IsOk result }
{
    match rules {
        Rules::Draft => Ok(acl),
        Rules::Linux => acl.for_linux(alloc),
    }
}
