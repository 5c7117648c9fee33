//! Why a block isn't a file.

ghost use Rattle.std.specs.Prelude.{◌≡◌};
ghost use Rattle.acl_listings.specs.Faults.{aces_fault, entries_fault, out_of_memory};
ghost use Rattle.acl_listings.specs.declared.fault.FileFault.TheVariants.{Block};

use crate::rule::Rule;
use acl_nfs4::AceFault;
use acl_posix::{AclFault, TextFault};
use std::alloc::AllocError;

/// What is wrong with a block. The first in this order is reported.
#[derive(Clone, Copy, Debug, PartialEq, Eq)]
pub enum BlockFault {
    /// It has more than 65,536 bytes.
    TooLong,
    /// Its first three lines aren't those of a file, its owner and its group.
    BadHeader,
    /// A block before it has the same path, where a path may occur once.
    RepeatedPath,
    /// No user has the owner's name.
    UnknownOwner,
    /// No group has the group's name.
    UnknownGroup,
    /// Its other lines aren't entries.
    Acl(AclFault),
    /// Its entries don't make an access control list: they break this rule.
    InvalidAcl(Rule),
    /// It is a file, but a parent folder's block is malformed or missing.
    UnknownWay,
}

impl BlockFault {
    ghost use Rattle.acl_listings.specs.Faults.{fault_word};

    /// The word by which commands report it, as `bad-header`.
    pub fn word(self) -> &'static str
        ensures { result.now ≡ fault_word self }
    {
        match self {
            BlockFault::TooLong => "too-long",
            BlockFault::BadHeader => "bad-header",
            BlockFault::RepeatedPath => "repeated-path",
            BlockFault::UnknownOwner => "unknown-name",
            BlockFault::UnknownGroup => "unknown-name",
            BlockFault::Acl(fault) => fault.word(),
            BlockFault::InvalidAcl(_) => "invalid-acl",
            BlockFault::UnknownWay => "unknown-way",
        }
    }
}

/// Why no file was read from a block.
#[derive(Clone, Copy, Debug, PartialEq, Eq)]
pub enum FileFault {
    /// The block isn't one.
    Block(BlockFault),
    /// Memory ran out; the block may be one.
    Memory,
}

impl From<AllocError> for FileFault {
    ghost from_gives = { λ _ fault. fault ≡ out_of_memory };

    fn from(_error: AllocError) -> FileFault {
        FileFault::Memory
    }
}

impl From<BlockFault> for FileFault {
    ghost from_gives = { λ error fault. fault ≡ Block error };

    fn from(error: BlockFault) -> FileFault {
        FileFault::Block(error)
    }
}

impl From<TextFault> for FileFault {
    ghost from_gives = { λ error fault. fault ≡ entries_fault error };

    fn from(error: TextFault) -> FileFault {
        match error {
            TextFault::Syntax => FileFault::Block(BlockFault::Acl(AclFault::BadAcl)),
            TextFault::UnknownName => FileFault::Block(BlockFault::Acl(AclFault::UnknownName)),
            TextFault::TooMany => FileFault::Block(BlockFault::Acl(AclFault::TooMany)),
            TextFault::Memory => FileFault::Memory,
        }
    }
}

impl From<AceFault> for FileFault {
    ghost from_gives = { λ error fault. fault ≡ aces_fault error };

    fn from(error: AceFault) -> FileFault {
        match error {
            // An entry without any effect isn't an entry here.
            AceFault::Syntax | AceFault::InheritOnly => {
                FileFault::Block(BlockFault::Acl(AclFault::BadAcl))
            }
            AceFault::UnknownName => FileFault::Block(BlockFault::Acl(AclFault::UnknownName)),
            AceFault::TooMany => FileFault::Block(BlockFault::Acl(AclFault::TooMany)),
            AceFault::Memory => FileFault::Memory,
        }
    }
}
