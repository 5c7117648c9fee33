//! The mask of an entry: what it allows, denies or watches (RFC 8881, section 6.2.1.3).
ghost use Rattle.std.specs.Prelude.{⊤, ◌≡◌, [], ◌∷◌, codes};
ghost use Rattle.acl_names.specs.Bits.{◌∩◌};
ghost use Rattle.acl_posix.specs.Perms.{bits_of};
ghost use Rattle.acl_nfs4.specs.Mask.{mask_bits, all_masks, mask_of, rest_of};

use acl_posix::{Perms, bits_if, without};
use bitflags::{Flag, Flags as FlagSet, bitflag_items};

/// What an entry allows, denies or watches: an access mask (RFC 8881, section 6.2.1.3).
#[derive(Clone, Copy, Debug, PartialEq, Eq)]
pub struct Mask(u32);

bitflag_items! {
    impl Mask: u32 {
        /// To read a file, or to list a directory.
        const READ_DATA = 0x1;

        /// To write within a file, or to add a file to a directory.
        const WRITE_DATA = 0x2;

        /// To write after the end of a file, or to add a directory to a directory.
        const APPEND_DATA = 0x4;

        /// To read named attributes.
        const READ_NAMED_ATTRS = 0x8;

        /// To write named attributes.
        const WRITE_NAMED_ATTRS = 0x10;

        /// To execute a file, or to go through a directory.
        const EXECUTE = 0x20;

        /// To delete what is in a directory.
        const DELETE_CHILD = 0x40;

        /// To read basic attributes.
        const READ_ATTRIBUTES = 0x80;

        /// To change times.
        const WRITE_ATTRIBUTES = 0x100;

        /// To delete the file or directory.
        const DELETE = 0x10000;

        /// To read the access control list.
        const READ_ACL = 0x20000;

        /// To change the access control list and the mode.
        const WRITE_ACL = 0x40000;

        /// To change the owner and the group.
        const WRITE_OWNER = 0x80000;

        /// To wait on the file.
        const SYNCHRONIZE = 0x100000;
    }
}

impl FlagSet for Mask {
    type Bits = u32;

    ghost exact = { ⊤ };

    ghost table = { (codes "READ_DATA", 0x1)
        ∷ (codes "WRITE_DATA", 0x2)
        ∷ (codes "APPEND_DATA", 0x4)
        ∷ (codes "READ_NAMED_ATTRS", 0x8)
        ∷ (codes "WRITE_NAMED_ATTRS", 0x10)
        ∷ (codes "EXECUTE", 0x20)
        ∷ (codes "DELETE_CHILD", 0x40)
        ∷ (codes "READ_ATTRIBUTES", 0x80)
        ∷ (codes "WRITE_ATTRIBUTES", 0x100)
        ∷ (codes "DELETE", 0x10000)
        ∷ (codes "READ_ACL", 0x20000)
        ∷ (codes "WRITE_ACL", 0x40000)
        ∷ (codes "WRITE_OWNER", 0x80000)
        ∷ (codes "SYNCHRONIZE", 0x100000)
        ∷ [] };

    ghost set_of = { mask_bits };

    fn flags<'a>() -> &'a [Flag<Mask>] {
        Mask::FLAGS
    }

    fn bits(&self) -> u32 {
        self.0
    }

    fn from_bits_retain(bits: u32) -> Mask {
        Mask(bits)
    }
}

impl Mask {
    /// The bits that a file mode controls.
    pub(crate) const OF_MODE: Mask = Mask(0x27);

    /// `WRITE_DATA` and `APPEND_DATA`, which are one permission in a file mode.
    pub(crate) const WRITE: Mask = Mask(0x6);

    /// The bits that have a name.
    pub(crate) fn named_bits(self) -> Mask
        ensures { mask_bits result ≡ mask_bits self ∩ all_masks }
    {
        self.intersection(Mask::all())
    }
}

/// The mask of a file mode's permissions; `WRITE` is `WRITE_DATA` and `APPEND_DATA` (RFC 8881,
/// section 6.3.2).
pub fn mask_of(perms: Perms) -> Mask
    ensures { mask_bits result ≡ mask_of (bits_of perms) }
{
    let read = bits_if(Mask::READ_DATA, perms.contains(Perms::READ));
    let write = bits_if(Mask::WRITE, perms.contains(Perms::WRITE));
    let execute = bits_if(Mask::EXECUTE, perms.contains(Perms::EXECUTE));
    read.union(write).union(execute)
}

/// The mask of the permissions that are lacking: the rest of `mask_of(Perms::all())`.
pub fn rest_of(perms: Perms) -> Mask
    ensures { mask_bits result ≡ rest_of (bits_of perms) }
{
    without(Mask::OF_MODE, mask_of(perms))
}
