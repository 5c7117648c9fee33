//! The flags of an entry (RFC 8881, section 6.2.1.4).
ghost use Rattle.std.specs.Prelude.{⊤, ◌≡◌, ◌==◌, [], ◌∷◌, codes, not};
ghost use Rattle.acl_names.specs.Bits.{has, without, ◌∩◌};

use acl_posix::without;
use bitflags::{Flag, Flags as FlagSet, bitflag_items};

/// The flags of an entry (RFC 8881, section 6.2.1.4).
#[derive(Clone, Copy, Debug, PartialEq, Eq)]
pub struct Flags(u8);

bitflag_items! {
    impl Flags: u8 {
        /// New files inherit the entry.
        const FILE_INHERIT = 0x1;

        /// New directories inherit the entry.
        const DIRECTORY_INHERIT = 0x2;

        /// New directories inherit the entry, but what is created in them doesn't.
        const NO_PROPAGATE_INHERIT = 0x4;

        /// The entry has no effect on the directory itself.
        const INHERIT_ONLY = 0x8;

        /// An audit or alarm entry is about accesses that succeed.
        const SUCCESSFUL_ACCESS = 0x10;

        /// An audit or alarm entry is about accesses that fail.
        const FAILED_ACCESS = 0x20;

        /// The entry's `who` is a group.
        const IDENTIFIER_GROUP = 0x40;
    }
}

impl FlagSet for Flags {
    ghost use Rattle.acl_nfs4.specs.Flags.{flag_bits};

    type Bits = u8;

    ghost exact = { ⊤ };

    ghost table = { (codes "FILE_INHERIT", 0x1)
        ∷ (codes "DIRECTORY_INHERIT", 0x2)
        ∷ (codes "NO_PROPAGATE_INHERIT", 0x4)
        ∷ (codes "INHERIT_ONLY", 0x8)
        ∷ (codes "SUCCESSFUL_ACCESS", 0x10)
        ∷ (codes "FAILED_ACCESS", 0x20)
        ∷ (codes "IDENTIFIER_GROUP", 0x40)
        ∷ [] };

    ghost set_of = { flag_bits };

    fn flags<'a>() -> &'a [Flag<Flags>] {
        Flags::FLAGS
    }

    fn bits(&self) -> u8 {
        self.0
    }

    fn from_bits_retain(bits: u8) -> Flags {
        Flags(bits)
    }
}

impl Flags {
    ghost use Rattle.acl_nfs4.specs.Flags.{flag_bits, all_flags, file_inherit, directory_inherit};
    ghost use Rattle.acl_nfs4.specs.Flags.{no_propagate_inherit, inherit_only, inheritance_flags};
    ghost use Rattle.acl_nfs4.specs.Flags.{identifier_group};

    /// The flags of an entry in a new directory, if only files inherit it.
    pub(crate) const PASSED_TO_FILES: Flags = Flags(0x9);

    /// The flags of an entry in a new directory, if files and directories inherit it.
    pub(crate) const PASSED_TO_ALL: Flags = Flags(0x3);

    /// The flags of inheritance.
    const INHERITANCE: Flags = Flags(0xF);

    pub(crate) fn has_file_inherit(self) -> bool
        ensures { result ≡ has (flag_bits self) file_inherit }
    {
        self.contains(Flags::FILE_INHERIT)
    }

    pub(crate) fn has_directory_inherit(self) -> bool
        ensures { result ≡ has (flag_bits self) directory_inherit }
    {
        self.contains(Flags::DIRECTORY_INHERIT)
    }

    pub(crate) fn has_no_propagate_inherit(self) -> bool
        ensures { result ≡ has (flag_bits self) no_propagate_inherit }
    {
        self.contains(Flags::NO_PROPAGATE_INHERIT)
    }

    pub(crate) fn has_inherit_only(self) -> bool
        ensures { result ≡ has (flag_bits self) inherit_only }
    {
        self.contains(Flags::INHERIT_ONLY)
    }

    pub(crate) fn has_identifier_group(self) -> bool
        ensures { result ≡ has (flag_bits self) identifier_group }
    {
        self.contains(Flags::IDENTIFIER_GROUP)
    }

    /// Whether any flag is one of inheritance.
    pub(crate) fn has_inheritance(self) -> bool
        ensures { result ≡ not (flag_bits self ∩ inheritance_flags == 0) }
    {
        self.intersects(Flags::INHERITANCE)
    }

    /// The flags without those of inheritance.
    pub(crate) fn without_inheritance(self) -> Flags
        ensures { flag_bits result ≡ without (flag_bits self) inheritance_flags }
    {
        without(self, Flags::INHERITANCE)
    }

    /// The bits that have a name.
    pub(crate) fn named_bits(self) -> Flags
        ensures { flag_bits result ≡ flag_bits self ∩ all_flags }
    {
        self.intersection(Flags::all())
    }
}
