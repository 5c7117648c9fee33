//! Setups that commands open.
ghost use Rattle.std.specs.Prelude.{IfErr, IfOk, Some};
ghost use Rattle.acl_service.specs.Setups.{BecomesFailure, IsSetupFailure};
ghost use Rattle.acl_setup.specs.Opened.{Opens};

use acl_cli::{Failure, Refusal, RunFault};
use acl_names::Directory;
use acl_setup::{SetupError, read_setup};
use acl_tree::Tree;
use std::alloc::Global;

/// A refused setup, unless memory ran out.
fn failure_of<'n>(error: SetupError) -> Failure<'n>
    ensures { BecomesFailure error result }
{
    match error {
        SetupError::Memory => Failure::Lacks(RunFault::Memory),
        _ => Failure::Refused(Refusal::as_a_whole("setup", error.words())),
    }
}

/// The directory and the tree of a setup with these bytes.
pub fn open_setup<'n>(alloc: Global, bytes: &[u8]) -> Result<(Directory, Tree), Failure<'n>>
    ensures opened { IfOk result (λ opened. Opens bytes.now opened.0 opened.1) }
    ensures refused { IfErr result (IsSetupFailure (Some bytes.now)) }
{
    match read_setup(alloc, bytes) {
        Ok(opened) => Ok(opened),
        Err(error) => Err(failure_of(error)),
    }
}
