//! The bits and requests in which lists are compared.
ghost use Rattle.std.specs.Prelude.{◌≡◌, map};
ghost use Rattle.acl_bridge.specs.Comparison.{mask_for, permission_bits, whole_requests};
ghost use Rattle.acl_nfs4.specs.Mask.{mask_bits, mode_bits};
ghost use Rattle.acl_posix.specs.Perms.{bits_of};

use acl_nfs4::{Mask, mask_of};
use acl_posix::Perms;
use bitflags::Flags;

/// The bits that a file mode's permissions mean.
pub fn mode_bits() -> Mask
    ensures { mask_bits result ≡ mode_bits }
{
    Mask::READ_DATA.union(Mask::WRITE_DATA.union(Mask::APPEND_DATA.union(Mask::EXECUTE)))
}

/// One bit for each permission: READ_DATA, WRITE_DATA and EXECUTE.
pub fn permission_bits() -> Mask
    ensures { mask_bits result ≡ permission_bits }
{
    Mask::READ_DATA.union(Mask::WRITE_DATA.union(Mask::EXECUTE))
}

/// The bits that report a request, one for each permission.
pub fn mask_for(request: Perms) -> Mask
    ensures { mask_bits result ≡ mask_for (bits_of request) }
{
    mask_of(request).intersection(permission_bits())
}

/// The requests of several permissions, in the order in which they are compared: rw, rx, wx, rwx.
pub fn whole_requests() -> [Perms; 4]
    ensures { map bits_of result ≡ whole_requests }
{
    [
        Perms::READ | Perms::WRITE,
        Perms::READ | Perms::EXECUTE,
        Perms::WRITE | Perms::EXECUTE,
        Perms::READ | Perms::WRITE | Perms::EXECUTE,
    ]
}
