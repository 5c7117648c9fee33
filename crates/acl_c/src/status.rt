//! The numbers of what goes wrong.

ghost use Rattle.std.specs.Prelude.{◌≡◌};
ghost use Rattle.acl_c.specs.Status.{nfs4_error_number, nfs4_number, posix_error_number};
ghost use Rattle.acl_c.specs.Status.{posix_number, no_room, ace_fault_number, text_number};
ghost use Rattle.acl_c.specs.Status.{text_error_number};

use acl_nfs4::AceFault;
use acl_posix::{AclFault, ReadAclFault};
use acl_wire::{Nfs4Error, Nfs4Fault, PosixError, PosixFault};

/// That a buffer is too small.
pub(crate) fn no_room() -> i32
    ensures { result ≡ no_room }
{
    -2
}

/// The number of a fault.
pub(crate) fn posix_number(fault: PosixFault) -> i32
    ensures { result ≡ posix_number fault }
{
    match fault {
        PosixFault::Argument => -3,
        PosixFault::Size => -4,
        PosixFault::Version => -5,
        PosixFault::TooMany => -6,
        PosixFault::Tag => -7,
        PosixFault::Id => -8,
        PosixFault::Perms => -9,
        PosixFault::Missing => -10,
        PosixFault::Repeated => -11,
        PosixFault::NoMask => -12,
    }
}

/// The number of an error.
pub(crate) fn posix_error_number(error: PosixError) -> i32
    ensures { result ≡ posix_error_number error }
{
    match error {
        PosixError::Memory => -1,
        PosixError::Fault(fault) => posix_number(fault),
    }
}

/// The number of a fault.
pub(crate) fn nfs4_number(fault: Nfs4Fault) -> i32
    ensures { result ≡ nfs4_number fault }
{
    match fault {
        Nfs4Fault::Argument => -3,
        Nfs4Fault::Size => -4,
        Nfs4Fault::TooMany => -6,
        Nfs4Fault::Type => -13,
        Nfs4Fault::Flags => -14,
        Nfs4Fault::Mask => -15,
        Nfs4Fault::Who => -16,
        Nfs4Fault::Id => -8,
        Nfs4Fault::UnknownName => -19,
        Nfs4Fault::InheritOnly => -17,
        Nfs4Fault::Unkept => -21,
    }
}

/// The number of an error.
pub(crate) fn nfs4_error_number(error: Nfs4Error) -> i32
    ensures { result ≡ nfs4_error_number error }
{
    match error {
        Nfs4Error::Memory => -1,
        Nfs4Error::Fault(fault) => nfs4_number(fault),
    }
}

/// The number of a fault of a text.
fn text_number(fault: AclFault) -> i32
    ensures { result ≡ text_number fault }
{
    match fault {
        AclFault::BadAcl => -18,
        AclFault::UnknownName => -19,
        AclFault::TooMany => -6,
        AclFault::InvalidAcl => -20,
    }
}

/// The number of why a text gives no POSIX list.
pub(crate) fn text_error_number(error: ReadAclFault) -> i32
    ensures { result ≡ text_error_number error }
{
    match error {
        ReadAclFault::Memory => -1,
        ReadAclFault::Acl(fault) => text_number(fault),
    }
}

/// The number of why a text gives no NFSv4 list.
pub(crate) fn ace_fault_number(fault: AceFault) -> i32
    ensures { result ≡ ace_fault_number fault }
{
    match fault {
        AceFault::Syntax => -18,
        AceFault::UnknownName => -19,
        AceFault::TooMany => -6,
        AceFault::InheritOnly => -17,
        AceFault::Memory => -1,
    }
}
