//! Lists from and to texts, with ids in decimal.

ghost use Rattle.acl_c.specs.Answers.{PutsAnswer};
ghost use Rattle.acl_c.specs.Status.{nfs4_number, posix_number};
ghost use Rattle.acl_c.specs.Texts.{PutsAcesOfText, PutsAclOfText, itself};
ghost use Rattle.acl_wire.specs.Text.{raws_text_of, xattr_text_of};

use crate::buffers::{put_bytes, put_raw_aces, put_xattr};
use crate::status::{ace_fault_number, nfs4_error_number, posix_error_number, text_error_number};
use acl_wire::{RawAce, acl_of_text, acl4_of_text, raws_text, xattr_text};
use std::alloc::Global;

/// The POSIX list that a text spells.
#[unsafe(no_mangle)]
pub extern "C" fn meardwyn_posix_from_text(
    alloc: Global,
    text: &[u8],
    out: &mut [u8],
    needed: &mut usize,
) -> i32
    ensures { PutsAclOfText text.now result out.old out.new needed.old needed.new }
{
    match acl_of_text(alloc, text) {
        Ok(acl) => put_xattr(&acl, out, needed),
        Err(error) => text_error_number(error),
    }
}

/// The list as a text.
#[unsafe(no_mangle)]
pub extern "C" fn meardwyn_posix_to_text(
    alloc: Global,
    xattr: &[u8],
    out: &mut [u8],
    needed: &mut usize,
) -> i32
    ensures { PutsAnswer posix_number itself (xattr_text_of xattr.now) result out.old out.new
        needed.old needed.new }
{
    match xattr_text(alloc, xattr) {
        Ok(text) => put_bytes(&text, out, needed),
        Err(error) => posix_error_number(error),
    }
}

/// The NFSv4 list that a text spells.
#[unsafe(no_mangle)]
pub extern "C" fn meardwyn_nfs4_from_text(
    alloc: Global,
    text: &[u8],
    out: &mut [RawAce],
    needed: &mut usize,
) -> i32
    ensures { PutsAcesOfText text.now result out.old out.new needed.old needed.new }
{
    match acl4_of_text(alloc, text) {
        Ok(acl) => put_raw_aces(&acl, out, needed),
        Err(fault) => ace_fault_number(fault),
    }
}

/// The list as a text.
#[unsafe(no_mangle)]
pub extern "C" fn meardwyn_nfs4_to_text(
    alloc: Global,
    aces: &[RawAce],
    out: &mut [u8],
    needed: &mut usize,
) -> i32
    ensures { PutsAnswer nfs4_number itself (raws_text_of aces.now) result out.old out.new
        needed.old needed.new }
{
    match raws_text(alloc, aces) {
        Ok(text) => put_bytes(&text, out, needed),
        Err(error) => nfs4_error_number(error),
    }
}
