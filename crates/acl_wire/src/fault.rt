//! Why a call on bytes or on entries fails.

ghost use Rattle.std.specs.Prelude.{◌≡◌};
ghost use Rattle.acl_wire.specs.declared.fault.PosixError.TheVariants as posix;
ghost use Rattle.acl_wire.specs.declared.fault.Nfs4Error.TheVariants as nfs4;

use acl_posix::TextFault;
use std::alloc::AllocError;

/// Why a call on the bytes of a POSIX list is refused: the first of these that applies.
#[derive(Clone, Copy, Debug, PartialEq, Eq)]
pub enum PosixFault {
    /// A uid, a gid, a mode or a request is out of its range.
    Argument,
    /// The bytes aren't a version and a whole number of entries.
    Size,
    /// The version is not 2.
    Version,
    /// There are more than 64 entries.
    TooMany,
    /// An entry's tag is none of the six.
    Tag,
    /// An entry names a user or a group by the undefined id.
    Id,
    /// An entry has more than permissions to read, write and execute.
    Perms,
    /// The entry for the owner, the file's group or the others is missing.
    Missing,
    /// Two entries have the same tag and id.
    Repeated,
    /// There is an entry for a user or a group by id, and no mask.
    NoMask,
}

/// Why a call on the bytes of a POSIX list fails.
#[derive(Clone, Copy, Debug, PartialEq, Eq)]
pub enum PosixError {
    /// The bytes, or the other arguments, are refused.
    Fault(PosixFault),
    /// Memory ran out; the bytes may be a list.
    Memory,
}

impl From<PosixFault> for PosixError {
    ghost from_gives = { λ fault error. error ≡ posix.Fault fault };

    fn from(fault: PosixFault) -> PosixError {
        PosixError::Fault(fault)
    }
}

impl From<TextFault> for PosixError {
    ghost from_gives = { λ _ error. error ≡ posix.Memory };

    fn from(_refused: TextFault) -> PosixError {
        PosixError::Memory
    }
}

impl From<AllocError> for PosixError {
    ghost from_gives = { λ _ error. error ≡ posix.Memory };

    fn from(_refused: AllocError) -> PosixError {
        PosixError::Memory
    }
}

/// Why a call on NFSv4 entries is refused: the first of these that applies, entry by entry from
/// `Type` on.
#[derive(Clone, Copy, Debug, PartialEq, Eq)]
pub enum Nfs4Fault {
    /// A uid, a gid or a mode is out of its range.
    Argument,
    /// The bytes end too early, or go on after the last entry.
    Size,
    /// There are more than 128 entries.
    TooMany,
    /// The type of an entry is none of the four.
    Type,
    /// An entry has a flag without a name.
    Flags,
    /// An entry has a bit of the mask without a name.
    Mask,
    /// An entry has `ACE4_INHERITED_ACE` or a bit of retention, in the place of `Flags` or `Mask`:
    /// a text wouldn't keep it.
    Unkept,
    /// An entry doesn't say whom it is for.
    Who,
    /// An entry names a user or a group by the undefined id.
    Id,
    /// The who of an entry is a name, which only a directory resolves, or none at all.
    UnknownName,
    /// An entry has `INHERIT_ONLY` without `FILE_INHERIT` or `DIRECTORY_INHERIT`.
    InheritOnly,
}

/// Why a call on NFSv4 entries fails.
#[derive(Clone, Copy, Debug, PartialEq, Eq)]
pub enum Nfs4Error {
    /// The entries, or the other arguments, are refused.
    Fault(Nfs4Fault),
    /// Memory ran out; the entries may be a list.
    Memory,
}

impl From<Nfs4Fault> for Nfs4Error {
    ghost from_gives = { λ fault error. error ≡ nfs4.Fault fault };

    fn from(fault: Nfs4Fault) -> Nfs4Error {
        Nfs4Error::Fault(fault)
    }
}

impl From<AllocError> for Nfs4Error {
    ghost from_gives = { λ _ error. error ≡ nfs4.Memory };

    fn from(_refused: AllocError) -> Nfs4Error {
        Nfs4Error::Memory
    }
}
