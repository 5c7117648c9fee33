//! What a valid command lacked.
ghost use Rattle.std.specs.Prelude.{◌≡◌, Some};

use std::alloc::AllocError;
use std::{fmt, io};
use thiserror::Error;

/// What a command lacked. It is reported after `aclctl: run: `.
#[derive(Clone, Copy, Debug, PartialEq, Eq, Error)]
pub enum RunFault {
    /// Memory ran out.
    Memory,
    /// The gate stopped a request.
    Stopped,
    /// A thread couldn't be started.
    NoThread,
    /// The answer couldn't be written.
    Output,
}

impl RunFault {
    ghost use Rattle.acl_cli.specs.RunFaults.{run_fault_words};

    /// What follows `aclctl: run: ` on the fault line.
    pub fn words(&self) -> &'static str
        ensures { result.now ≡ run_fault_words self.now }
    {
        match self {
            RunFault::Memory => "memory",
            RunFault::Stopped => "stopped",
            RunFault::NoThread => "no thread",
            RunFault::Output => "output",
        }
    }
}

impl fmt::Display for RunFault {
    ghost use Rattle.acl_cli.specs.RunFaults.{run_fault_words};

    ghost output = { λ fault. Some (run_fault_words fault) };

    fn fmt<W: fmt::Write>(&self, f: &mut fmt::Formatter<W>) -> fmt::Result {
        f.write_str(self.words())
    }
}

impl From<AllocError> for RunFault {
    ghost use Rattle.acl_cli.specs.declared.run_fault.RunFault.TheVariants.{Memory};

    ghost from_gives = { λ _ becomes. becomes ≡ Memory };

    fn from(_refused: AllocError) -> RunFault {
        RunFault::Memory
    }
}

impl From<io::Error> for RunFault {
    ghost use Rattle.acl_cli.specs.declared.run_fault.RunFault.TheVariants.{Output};

    ghost from_gives = { λ _ becomes. becomes ≡ Output };

    fn from(_failed: io::Error) -> RunFault {
        RunFault::Output
    }
}
