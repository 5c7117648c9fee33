//! Calls on POSIX lists, in the bytes of extended attributes.

ghost use Rattle.std.specs.Prelude.{◌≡◌, ◌≢◌};
ghost use Rattle.acl_c.specs.Answers.{PutsAnswer, Reports, granted_number, mode_number};
ghost use Rattle.acl_c.specs.Answers.{number_of_answer, zero_number};
ghost use Rattle.acl_c.specs.Status.{out_of_memory, posix_number};
ghost use Rattle.acl_posix.specs.Mode.{mode_of};
ghost use Rattle.acl_wire.specs.Check.{check_of};
ghost use Rattle.acl_wire.specs.Posix.{IsShort, acl_of, at_creation_of, chmod_of};
ghost use Rattle.acl_wire.specs.Posix.{default_translation_of, of_mode_of, translation_of};
ghost use Rattle.acl_wire.specs.RawAcesWriting.{raws_of};
ghost use Rattle.acl_wire.specs.Xattr.{xattr_of};

use crate::buffers::{put_raw_aces, put_xattr};
use crate::status::{posix_error_number, posix_number};
use acl_wire::{
    PosixFault, RawAce, Rules, acl_of_mode, acl_of_xattr, xattr_at_creation, xattr_grants,
    xattr_translated, xattr_translated_default, xattr_with_mode,
};
use std::alloc::Global;

/// Whether the list grants the request: 1 or 0.
#[unsafe(no_mangle)]
pub extern "C" fn meardwyn_posix_check(
    xattr: &[u8],
    owner: u32,
    group: u32,
    uid: u32,
    gids: &[u32],
    request: u32,
) -> i32
    ensures { result ≡ number_of_answer posix_number granted_number
        (check_of Rules.Draft xattr.now owner group (record { uid = uid; gids = gids.now })
        request) }
{
    granted_number(xattr_grants(Rules::Draft, xattr, owner, group, uid, gids, request))
}

/// Whether Linux grants the request by the list: 1 or 0.
#[unsafe(no_mangle)]
pub extern "C" fn meardwyn_posix_check_linux(
    xattr: &[u8],
    owner: u32,
    group: u32,
    uid: u32,
    gids: &[u32],
    request: u32,
) -> i32
    ensures { result ≡ number_of_answer posix_number granted_number
        (check_of Rules.Linux xattr.now owner group (record { uid = uid; gids = gids.now })
        request) }
{
    granted_number(xattr_grants(Rules::Linux, xattr, owner, group, uid, gids, request))
}

/// The number of the answer to a check.
fn granted_number(answer: Result<bool, PosixFault>) -> i32
    ensures { result ≡ number_of_answer posix_number granted_number answer }
{
    match answer {
        Ok(granted) => i32::from(granted),
        Err(fault) => posix_number(fault),
    }
}

/// Whether the bytes are a list: 0, or why not.
#[unsafe(no_mangle)]
pub extern "C" fn meardwyn_posix_valid(alloc: Global, xattr: &[u8]) -> i32
    ensures value { Reports posix_number zero_number (acl_of xattr.now) result }
    ensures short { IsShort xattr.now → result ≢ out_of_memory }
{
    match acl_of_xattr(alloc, xattr) {
        Ok(_) => 0,
        Err(error) => posix_error_number(error),
    }
}

/// The mode of a file with the list.
#[unsafe(no_mangle)]
pub extern "C" fn meardwyn_posix_mode(alloc: Global, xattr: &[u8]) -> i32
    ensures value { Reports posix_number (mode_number mode_of) (acl_of xattr.now) result }
    ensures short { IsShort xattr.now → result ≢ out_of_memory }
{
    match acl_of_xattr(alloc, xattr) {
        Ok(acl) => i32::from(acl.mode().bits()),
        Err(error) => posix_error_number(error),
    }
}

/// The list in canonical order.
#[unsafe(no_mangle)]
pub extern "C" fn meardwyn_posix_canonical(
    alloc: Global,
    xattr: &[u8],
    out: &mut [u8],
    needed: &mut usize,
) -> i32
    ensures value { PutsAnswer posix_number xattr_of (acl_of xattr.now) result out.old out.new
        needed.old needed.new }
    ensures short { IsShort xattr.now → result ≢ out_of_memory }
{
    match acl_of_xattr(alloc, xattr) {
        Ok(acl) => put_xattr(&acl, out, needed),
        Err(error) => posix_error_number(error),
    }
}

/// The list with its mode changed.
#[unsafe(no_mangle)]
pub extern "C" fn meardwyn_posix_chmod(
    alloc: Global,
    xattr: &[u8],
    mode: u32,
    out: &mut [u8],
    needed: &mut usize,
) -> i32
    ensures value { PutsAnswer posix_number xattr_of (chmod_of xattr.now mode) result out.old
        out.new needed.old needed.new }
    ensures short { IsShort xattr.now → result ≢ out_of_memory }
{
    match xattr_with_mode(alloc, xattr, mode) {
        Ok(acl) => put_xattr(&acl, out, needed),
        Err(error) => posix_error_number(error),
    }
}

/// The list of a new file under a default list.
#[unsafe(no_mangle)]
pub extern "C" fn meardwyn_posix_create(
    alloc: Global,
    default_xattr: &[u8],
    mode: u32,
    out: &mut [u8],
    needed: &mut usize,
) -> i32
    ensures value { PutsAnswer posix_number xattr_of (at_creation_of default_xattr.now mode) result
        out.old out.new needed.old needed.new }
    ensures short { IsShort default_xattr.now → result ≢ out_of_memory }
{
    match xattr_at_creation(alloc, default_xattr, mode) {
        Ok(acl) => put_xattr(&acl, out, needed),
        Err(error) => posix_error_number(error),
    }
}

/// The list that says what a mode says.
#[unsafe(no_mangle)]
pub extern "C" fn meardwyn_posix_of_mode(
    alloc: Global,
    mode: u32,
    out: &mut [u8],
    needed: &mut usize,
) -> i32
    ensures value { PutsAnswer posix_number xattr_of (of_mode_of mode) result out.old out.new
        needed.old needed.new }
    ensures memory { result ≢ out_of_memory }
{
    match acl_of_mode(alloc, mode) {
        Ok(acl) => put_xattr(&acl, out, needed),
        Err(error) => posix_error_number(error),
    }
}

/// The list as an NFSv4 list.
#[unsafe(no_mangle)]
pub extern "C" fn meardwyn_posix_to_nfs4(
    alloc: Global,
    xattr: &[u8],
    out: &mut [RawAce],
    needed: &mut usize,
) -> i32
    ensures value { PutsAnswer posix_number raws_of (translation_of xattr.now) result out.old
        out.new needed.old needed.new }
    ensures short { IsShort xattr.now → result ≢ out_of_memory }
{
    match xattr_translated(alloc, xattr) {
        Ok(acl) => put_raw_aces(&acl, out, needed),
        Err(error) => posix_error_number(error),
    }
}

/// The default list as an NFSv4 list.
#[unsafe(no_mangle)]
pub extern "C" fn meardwyn_posix_default_to_nfs4(
    alloc: Global,
    xattr: &[u8],
    out: &mut [RawAce],
    needed: &mut usize,
) -> i32
    ensures value { PutsAnswer posix_number raws_of (default_translation_of xattr.now) result
        out.old out.new needed.old needed.new }
    ensures short { IsShort xattr.now → result ≢ out_of_memory }
{
    match xattr_translated_default(alloc, xattr) {
        Ok(acl) => put_raw_aces(&acl, out, needed),
        Err(error) => posix_error_number(error),
    }
}
