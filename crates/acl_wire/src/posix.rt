//! Questions of POSIX lists in bytes.

ghost use Rattle.std.specs.Prelude.{◌≡◌, ◌≢◌, ◌+◌, ◌*◌, length, IfErr, IfOk, List, Ok};
ghost use Rattle.acl_wire.specs.XattrReading.{Gives};
ghost use Rattle.acl_wire.specs.Posix.{IsShort, acl_of, acl_of_entries, refused};
ghost use Rattle.acl_bridge.specs.TranslationLaws.{DecideAlike};
ghost use Rattle.acl_posix.specs.Entry.{EntryValue};
ghost use Rattle.acl_wire.specs.Posix.{at_creation_of, chmod_of, classes_in, translation_of};
ghost use Rattle.acl_wire.specs.Posix.{default_translation_of, of_mode_of};

use crate::{PosixError, PosixFault, read_xattr};
use acl_bridge::{translate, translate_default};
use acl_nfs4::Acl4;
use acl_posix::{Acl, Entries, Invalid, Mode};
use std::alloc::Global;

/// The fault that the entries have.
pub(crate) fn refused(invalid: Invalid) -> PosixFault
    ensures { result ≡ refused invalid }
{
    match invalid {
        Invalid::Missing => PosixFault::Missing,
        Invalid::Repeated => PosixFault::Repeated,
        Invalid::NoMask => PosixFault::NoMask,
        Invalid::Memory => PosixFault::Missing,
    }
}

fn acl_of_entries(entries: Entries) -> Result<Acl, PosixError>
    ensures value { Gives (λ acl. acl) result (acl_of_entries entries) }
    ensures count { IfOk result (λ acl. length acl ≡ length entries) }
    ensures no_memory { IfErr result (λ error. error ≢ PosixError.Memory) }
{
    match Acl::new(entries) {
        Ok(acl) => Ok(acl),
        Err(invalid) => Err(PosixError::Fault(refused(invalid))),
    }
}

/// The POSIX list of the bytes of an extended attribute: `read_xattr`'s entries, if they are a
/// valid list. Memory runs out for more than `INLINE_ENTRIES` entries alone.
pub fn acl_of_xattr(alloc: Global, bytes: &[u8]) -> Result<Acl, PosixError>
    ensures value { Gives (λ acl. acl) result (acl_of bytes.now) }
    ensures count { IfOk result (λ acl. length bytes.now ≡ 4 + 8 * length acl) }
    ensures short { IsShort bytes.now → IfErr result (λ error. error ≢ PosixError.Memory) }
{
    acl_of_entries(read_xattr(alloc, bytes)?)
}

/// The mode of this number, at most octal 777.
fn mode_of_number(mode: u32) -> Result<Mode, PosixFault>
    ensures { result ≡ classes_in mode }
{
    match u16::try_from(mode) {
        Ok(bits) => match Mode::from_bits(bits) {
            Some(mode) => Ok(mode),
            None => Err(PosixFault::Argument),
        },
        Err(_) => Err(PosixFault::Argument),
    }
}

/// The list that says what a mode says, with three entries. A mode above octal 777 is the fault
/// `Argument`. It takes no memory.
#[tactic(auto, unfolding(crate::specs::Posix::of_mode_of))]
pub fn acl_of_mode(alloc: Global, mode: u32) -> Result<Acl, PosixError>
    ensures value { Gives (λ acl. acl) result (of_mode_of mode) }
    ensures memory { IfErr result (λ error. error ≢ PosixError.Memory) }
{
    let mode = mode_of_number(mode)?;
    Ok(Acl::of_mode(alloc, mode)?)
}

/// The list of the bytes with its mode changed (1003.1e draft 17, section 23). A mode above octal
/// 777 is the fault `Argument`, before all others. Memory runs out for more than `INLINE_ENTRIES`
/// entries alone.
#[tactic(auto, unfolding(crate::specs::Posix::chmod_of))]
pub fn xattr_with_mode(alloc: Global, bytes: &[u8], mode: u32) -> Result<Acl, PosixError>
    ensures value { Gives (λ acl. acl) result (chmod_of bytes.now mode) }
    ensures short { IsShort bytes.now → IfErr result (λ error. error ≢ PosixError.Memory) }
{
    let mode = mode_of_number(mode)?;
    let mut acl = acl_of_xattr(alloc, bytes)?;
    acl.chmod(mode);
    Ok(acl)
}

/// The list of a new file with this mode, under the default list of the bytes (1003.1e draft 17,
/// section 23). A mode above octal 777 is the fault `Argument`, before all others. Memory runs out
/// for more than `INLINE_ENTRIES` entries alone.
#[tactic(auto, unfolding(crate::specs::Posix::at_creation_of))]
pub fn xattr_at_creation(alloc: Global, bytes: &[u8], mode: u32) -> Result<Acl, PosixError>
    ensures value { Gives (λ acl. acl) result (at_creation_of bytes.now mode) }
    ensures short { IsShort bytes.now → IfErr result (λ error. error ≢ PosixError.Memory) }
{
    let mode = mode_of_number(mode)?;
    let default = acl_of_xattr(alloc, bytes)?;
    Ok(Acl::at_creation(alloc, &default, mode)?)
}

/// The list of the bytes as an NFSv4 list: for every owner, group and requester both decide alike
/// of each single permission to read, write or execute. Memory runs out for more than
/// `INLINE_ENTRIES` entries alone.
#[tactic(auto, unfolding(crate::specs::Posix::translation_of))]
pub fn xattr_translated(alloc: Global, bytes: &[u8]) -> Result<Acl4, PosixError>
    ensures value { Gives (λ aces. aces) result (translation_of bytes.now) }
    ensures alike { IfOk result (λ aces. (acl : List EntryValue) → acl_of bytes.now ≡ Ok acl
        → DecideAlike acl aces) }
    ensures short { IsShort bytes.now → IfErr result (λ error. error ≢ PosixError.Memory) }
{
    let acl = acl_of_xattr(alloc, bytes)?;
    Ok(translate(alloc, &acl)?)
}

/// The default list of the bytes as an NFSv4 list, which takes no effect on the directory itself;
/// what is made there inherits the translation. Memory runs out for more than `INLINE_ENTRIES`
/// entries alone.
#[tactic(auto, unfolding(crate::specs::Posix::default_translation_of))]
pub fn xattr_translated_default(alloc: Global, bytes: &[u8]) -> Result<Acl4, PosixError>
    ensures value { Gives (λ aces. aces) result (default_translation_of bytes.now) }
    ensures short { IsShort bytes.now → IfErr result (λ error. error ≢ PosixError.Memory) }
{
    let acl = acl_of_xattr(alloc, bytes)?;
    Ok(translate_default(alloc, &acl)?)
}
