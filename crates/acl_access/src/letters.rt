//! What a file grants somebody, letter by letter.
ghost use Rattle.std.specs.Prelude.{◌≡◌, ◌==◌, ◌++◌, List, OnOk, ℕ};
ghost use Rattle.acl_names.specs.Requester.{Identity};
ghost use Rattle.acl_nfs4.specs.Mask.{mask_bits};
ghost use Rattle.acl_posix.specs.Perms.{bits_of};
ghost use Rattle.acl_bridge.specs.Files.{File, view_acl};
ghost use Rattle.acl_access.specs.Letters.{effective, granted_mask, if_may};

use crate::allowed::allowed;
use acl_bridge::bits::mode_bits;
use acl_bridge::{AnyAclRef, FileAcl};
use acl_forms::Places;
use acl_names::Requester;
use acl_nfs4::Mask;
use acl_posix::Perms;
use bitflags::Flags;
use std::alloc::AllocError;

/// The permission, if it is granted by itself.
fn if_may(file: &FileAcl<'_>, requester: &Requester, perm: Perms) -> Perms
    ensures { bits_of result ≡ if_may (view_acl file.now) requester.now (bits_of perm) }
{
    if file.may(requester, perm) {
        perm
    } else {
        Perms::empty()
    }
}

/// The permissions of which the file's list grants the requester each by itself. It takes no
/// memory.
pub fn effective(file: &FileAcl<'_>, requester: &Requester) -> Perms
    ensures { bits_of result ≡ effective (view_acl file.now) requester.now }
{
    if_may(file, requester, Perms::READ)
        | if_may(file, requester, Perms::WRITE)
        | if_may(file, requester, Perms::EXECUTE)
}

/// The bits of a mask of which the file's list grants the requester each by itself; for a POSIX
/// list, those that its permissions mean. It takes no memory.
pub fn granted_mask(file: &FileAcl<'_>, requester: &Requester) -> Mask
    ensures { mask_bits result ≡ granted_mask (view_acl file.now) requester.now }
{
    match file.list {
        AnyAclRef::Posix(_) => allowed(file, requester, mode_bits()),
        AnyAclRef::Nfs4(_) => allowed(file, requester, Mask::all()),
    }
}

/// Letters for what is granted, each by itself: the permissions of a file mode, or the bits of a
/// mask.
pub trait LetterSet: Copy + Drop {
    /// The set as a number with these bits.
    ghost number: { Self → ℕ };

    /// What a file grants a requester, as a number.
    ghost granted: { File → Identity → ℕ };

    /// How the set of a number is printed.
    ghost text: { ℕ → List ℕ };

    /// The empty set.
    fn none() -> Self
        ensures { number result ≡ 0 };

    /// Whether the set is empty.
    fn is_none(&self) -> bool
        ensures { result ≡ (number self.now == 0) };

    /// What the file grants the requester, each by itself. It takes no memory.
    fn granted(file: &FileAcl<'_>, requester: &Requester) -> Self
        ensures { number result ≡ granted (view_acl file.now) requester.now };

    /// Appends the letters, with `-` for each that is denied. Fails only if memory runs out.
    fn push(&self, out: &mut Vec<u8>) -> Result<(), AllocError>
        ensures { OnOk result (out.new.items ≡ out.old.items ++ text (number self.now)) };
}

/// The permissions: `rwx`, with `-` for each that is denied.
impl LetterSet for Perms {
    ghost use Rattle.acl_posix.specs.Perms.{bits_of};
    ghost use Rattle.acl_posix.specs.PermsText.{perms_text};
    ghost use Rattle.acl_access.specs.Letters.{effective};

    ghost number = { bits_of };

    ghost granted = { effective };

    ghost text = { perms_text };

    fn none() -> Perms {
        Perms::empty()
    }

    fn is_none(&self) -> bool {
        self.is_empty()
    }

    fn granted(file: &FileAcl<'_>, requester: &Requester) -> Perms {
        effective(file, requester)
    }

    fn push(&self, out: &mut Vec<u8>) -> Result<(), AllocError> {
        acl_posix::push_perms(*self, out)
    }
}

/// The bits of a mask: `rwxpdDaARWcCos`, with `-` for each that is denied.
impl LetterSet for Mask {
    ghost use Rattle.acl_nfs4.specs.Mask.{mask_bits};
    ghost use Rattle.acl_access.specs.Letters.{granted_mask, mask_text};

    ghost number = { mask_bits };

    ghost granted = { granted_mask };

    ghost text = { mask_text };

    fn none() -> Mask {
        Mask::empty()
    }

    fn is_none(&self) -> bool {
        self.is_empty()
    }

    fn granted(file: &FileAcl<'_>, requester: &Requester) -> Mask {
        granted_mask(file, requester)
    }

    fn push(&self, out: &mut Vec<u8>) -> Result<(), AllocError> {
        acl_forms::push_perms(Places::Full, *self, out)
    }
}
