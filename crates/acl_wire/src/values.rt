//! Whether entries of numbers can be decided by, where the caller keeps them.

ghost use Rattle.std.specs.Prelude.{◌≡◌};
ghost use Rattle.acl_wire.specs.Decision.{values_of};
ghost use Rattle.acl_wire.specs.XdrRaws.{fault_in};

use crate::raw_ace::value_of;
use crate::{Nfs4Fault, RawAce};

/// What is wrong with the first of the entries that can't be decided by; none if all can. There
/// may be any number of them, and some may take effect nowhere. It takes no memory.
pub fn raws_fault(raws: &[RawAce]) -> Option<Nfs4Fault>
    ensures { result ≡ fault_in (values_of raws.now) }
{
    for raw in raws {
        if let Err(fault) = value_of(raw) {
            return Some(fault);
        }
    }
    None
}
