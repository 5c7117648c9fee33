//! Why sessions print nothing, or not all of it.
ghost use Rattle.std.specs.Prelude.{◌≡◌};
ghost use Rattle.acl_service.specs.TextsFailures.{failure_of_serve};

use crate::OneFault;
use acl_cli::{Failure, RunFault};
use acl_runs::ServeFault;

/// What one session by itself lacks.
impl<'n> From<OneFault> for Failure<'n> {
    ghost use Rattle.acl_service.specs.TextsFailures.{failure_of_one};

    ghost from_gives = { λ fault becomes. becomes ≡ failure_of_one fault };

    fn from(fault: OneFault) -> Failure<'n> {
        match fault {
            OneFault::Memory => Failure::Lacks(RunFault::Memory),
            OneFault::Write => Failure::Lacks(RunFault::Output),
        }
    }
}

/// What a run lacks.
pub(super) fn failure_of_serve<'n>(fault: ServeFault) -> Failure<'n>
    ensures { result ≡ failure_of_serve fault }
{
    match fault {
        ServeFault::Memory => Failure::Lacks(RunFault::Memory),
        ServeFault::GateStopped => Failure::Lacks(RunFault::Stopped),
        ServeFault::ThreadRefused => Failure::Lacks(RunFault::NoThread),
    }
}
