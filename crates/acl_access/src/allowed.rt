//! Which bits a file's list grants.
ghost use Rattle.std.specs.Prelude.{◌≡◌, ◌⊎◌, ℕ, ◌&&◌, if◌then◌else◌};
ghost use Rattle.acl_names.specs.Bits.{has};
ghost use Rattle.acl_nfs4.specs.Mask.{mask_bits, mode_bits};
ghost use Rattle.acl_posix.specs.Access.{grants};
ghost use Rattle.acl_posix.specs.Perms.{bits_of};
ghost use Rattle.acl_bridge.specs.Comparison.{granted_by, permission_bits};
ghost use Rattle.acl_bridge.specs.Files.{decider_of, view_acl};
ghost use Rattle.acl_access.specs.Steps.{IsComparedIn, granted_alone};

use acl_bridge::{AnyAclRef, FileAcl};
use acl_names::{Gid, Subject, Uid};
use acl_nfs4::{Mask, mask_of};
use acl_posix::{Acl, Perms};
use bitflags::Flags;

/// The permission, if the list grants it by itself.
fn if_granted<S: Subject>(acl: &Acl, owner: Uid, group: Gid, subject: &S, perm: Perms) -> Perms
    ensures { bits_of result
        ≡ (if grants acl.now owner group (S.identity subject.now) (bits_of perm)
        then bits_of perm else 0) }
{
    if acl.grants(owner, group, subject, perm) {
        perm
    } else {
        Perms::empty()
    }
}

/// The permissions of which the list grants each by itself.
fn granted_alone<S: Subject>(acl: &Acl, owner: Uid, group: Gid, subject: &S) -> Perms
    ensures { bits_of result ≡ granted_alone acl.now owner group (S.identity subject.now) }
{
    if_granted(acl, owner, group, subject, Perms::READ)
        | if_granted(acl, owner, group, subject, Perms::WRITE)
        | if_granted(acl, owner, group, subject, Perms::EXECUTE)
}

/// The bits of `bits` that a POSIX list grants the subject, out of those of a file mode.
fn allowed_alone<S: Subject>(acl: &Acl, owner: Uid, group: Gid, subject: &S, bits: Mask) -> Mask
    requires { (mask_bits bits ≡ mode_bits) ⊎ (mask_bits bits ≡ permission_bits) }
    ensures { (bit : ℕ) → has (mask_bits result) bit
        ≡ (has (mask_bits bits) bit && granted_by acl.now owner group (S.identity subject.now) bit) }
{
    bits.intersection(mask_of(granted_alone(acl, owner, group, subject)))
}

/// The bits of `bits` that the file's list grants the subject; a POSIX list grants bits of a file
/// mode. It takes no memory.
pub(crate) fn allowed<S: Subject>(file: &FileAcl<'_>, subject: &S, bits: Mask) -> Mask
    requires { IsComparedIn (view_acl file.now).list (mask_bits bits) }
    ensures { (bit : ℕ) → has (mask_bits result) bit
        ≡ (has (mask_bits bits) bit && decider_of (view_acl file.now) (S.identity subject.now) bit) }
{
    let owner = file.owners.owner;
    let group = file.owners.group;
    match file.list {
        AnyAclRef::Posix(acl) => allowed_alone(acl, owner, group, subject, bits),
        AnyAclRef::Nfs4(acl) => acl.allowed(owner, group, subject, bits),
    }
}
