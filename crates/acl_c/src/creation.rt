//! What is made in a folder with an NFSv4 list, and the NFSv4 list of a mode.

ghost use Rattle.std.specs.Prelude.{◌≢◌, ◌≤◌, IfOk, IfSome, length};
ghost use Rattle.acl_c.specs.Answers.{PutsAnswer};
ghost use Rattle.acl_c.specs.Created.{PutsMade};
ghost use Rattle.acl_c.specs.Status.{nfs4_number, out_of_memory};
ghost use Rattle.acl_nfs4.specs.declared.limits.TheConstants.{INLINE_ACES};
ghost use Rattle.acl_wire.specs.Creation.{aces_of_mode, created_of};
ghost use Rattle.acl_wire.specs.RawAcesWriting.{raws_of};

use crate::buffers::{put_raw_aces, report_count};
use crate::status::{nfs4_error_number, nfs4_number as nfs4_fault_number};
use acl_wire::{Making, RawAce, acl4_of_mode, mode_made, write_created};
use std::alloc::Global;

/// The list of what is made in a folder, and its mode: 0, or 1 if it inherits nothing and has no
/// list.
#[unsafe(no_mangle)]
pub extern "C" fn meardwyn_nfs4_create(
    alloc: Global,
    folder_aces: &[RawAce],
    making: &Making,
    out: &mut [RawAce],
    needed: &mut usize,
    mode: &mut u32,
) -> i32
    ensures value { PutsMade (created_of folder_aces.now making.now) making.now result out.old
        out.new needed.old needed.new mode.old mode.new }
    ensures short { length folder_aces.now ≤ INLINE_ACES
        → IfOk (created_of folder_aces.now making.now)
        (λ made. IfSome made (λ list. length list ≤ INLINE_ACES))
        → result ≢ out_of_memory }
{
    match write_created(alloc, folder_aces, making, out) {
        Ok(Some(count)) => {
            *mode = mode_made(making, true);
            report_count(count, out.len(), needed)
        }
        Ok(None) => {
            *mode = mode_made(making, false);
            *needed = 0;
            1
        }
        Err(error) => nfs4_error_number(error),
    }
}

/// The NFSv4 list that says what a mode says.
#[unsafe(no_mangle)]
pub extern "C" fn meardwyn_nfs4_of_mode(
    alloc: Global,
    mode: u32,
    attributes: bool,
    out: &mut [RawAce],
    needed: &mut usize,
) -> i32
    ensures value { PutsAnswer nfs4_number raws_of (aces_of_mode mode attributes) result out.old
        out.new needed.old needed.new }
    ensures memory { result ≢ out_of_memory }
{
    match acl4_of_mode(alloc, mode, attributes) {
        Ok(list) => put_raw_aces(&list, out, needed),
        Err(fault) => nfs4_fault_number(fault),
    }
}
