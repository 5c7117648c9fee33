//! Reading access control lists from text.

ghost use Rattle.std.specs.Prelude.{◌≡◌, ◌≢◌, ◌≤◌, length, IfErr, IfOk};
ghost use Rattle.acl_names.specs.Pieces.{pieces};
ghost use Rattle.acl_posix.specs.AclText.{ReadsAs, SpellsBy, acl_by, entries_fault};
ghost use Rattle.acl_posix.specs.AclText.{text_fault};
ghost use Rattle.acl_posix.specs.declared.limits.TheConstants.{INLINE_ENTRIES};

use crate::{Acl, Invalid, TextFault, read_entries};
use acl_names::ResolveNames;
use std::alloc::Global;

/// Why a text isn't an access control list.
#[derive(Clone, Copy, Debug, PartialEq, Eq)]
pub enum AclFault {
    /// A piece has none of the shapes of entries.
    BadAcl,
    /// An entry has a name that no user, or no group, has.
    UnknownName,
    /// There are more than 64 entries.
    TooMany,
    /// The entries don't make an access control list, as `Acl::new` requires.
    InvalidAcl,
}

impl AclFault {
    ghost use Rattle.acl_posix.specs.AclText.{fault_word};

    /// The word by which commands report it, as `bad-acl`.
    pub fn word(self) -> &'static str
        ensures { result.now ≡ fault_word self }
    {
        match self {
            AclFault::BadAcl => "bad-acl",
            AclFault::UnknownName => "unknown-name",
            AclFault::TooMany => "too-many",
            AclFault::InvalidAcl => "invalid-acl",
        }
    }
}

/// Why no access control list was read.
#[derive(Clone, Copy, Debug, PartialEq, Eq)]
pub enum ReadAclFault {
    /// The text isn't one.
    Acl(AclFault),
    /// Memory ran out; the text may be one.
    Memory,
}

impl From<TextFault> for ReadAclFault {
    ghost from_gives = { λ error fault. fault ≡ text_fault error };

    fn from(error: TextFault) -> ReadAclFault {
        match error {
            TextFault::Syntax => ReadAclFault::Acl(AclFault::BadAcl),
            TextFault::UnknownName => ReadAclFault::Acl(AclFault::UnknownName),
            TextFault::TooMany => ReadAclFault::Acl(AclFault::TooMany),
            TextFault::Memory => ReadAclFault::Memory,
        }
    }
}

impl From<Invalid> for ReadAclFault {
    ghost from_gives = { λ error fault. fault ≡ entries_fault error };

    fn from(error: Invalid) -> ReadAclFault {
        match error {
            Invalid::Missing | Invalid::Repeated | Invalid::NoMask => {
                ReadAclFault::Acl(AclFault::InvalidAcl)
            }
            Invalid::Memory => ReadAclFault::Memory,
        }
    }
}

/// Reads an access control list: entries as `read_entries` reads them, which `Acl::new` must
/// accept. The first piece that is malformed or one too many decides the fault; only without one
/// does `Acl::new`.
pub fn read_acl<N: ResolveNames>(alloc: Global, text: &[u8], names: &N) -> Result<Acl, ReadAclFault>
    ensures value { ReadsAs (acl_by (N.names names.now) (pieces text.now)) result }
    ensures spelt { IfOk result (SpellsBy (N.names names.now) text.now) }
    ensures short { length (pieces text.now) ≤ INLINE_ENTRIES
        → IfErr result (λ fault. fault ≢ ReadAclFault.Memory) }
{
    let entries = read_entries(alloc, text, names)?;
    Ok(Acl::new(entries)?)
}
