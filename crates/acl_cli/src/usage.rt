//! Words that the parser takes one by one, and that are wrong together.
ghost use Rattle.acl_cli.specs.Usage.{IsUsage};

use crate::command_line::{CommandLine, command_of};
use crate::{Failure, RunFault};
use clap::error::ErrorKind;
use std::alloc::Global;

/// Wrong usage of this kind, which is reported as the parser reports its own. Out of memory
/// instead, if memory runs out.
pub fn wrong_usage<'a, C: CommandLine>(alloc: Global, kind: ErrorKind, message: &str) -> Failure<'a>
    ensures { IsUsage kind result }
{
    let Ok(mut command) = command_of::<C>(alloc) else {
        return Failure::Lacks(RunFault::Memory);
    };
    match command.error(kind, message) {
        Ok(error) => Failure::Usage(error),
        Err(_) => Failure::Lacks(RunFault::Memory),
    }
}
