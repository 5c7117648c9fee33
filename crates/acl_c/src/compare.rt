//! Lists compared for everybody.

ghost use Rattle.std.specs.Prelude.{◌≢◌};
ghost use Rattle.acl_c.specs.Compared.{ReportsDifference, ReportsUnlike};
ghost use Rattle.acl_c.specs.Status.{out_of_memory};
ghost use Rattle.acl_wire.specs.Posix.{IsShort};

use crate::status::{nfs4_number, posix_error_number};
use acl_wire::{RawAce, RawAsker, RawDifference, raws_difference, xattr_difference};
use std::alloc::Global;

/// Whether two POSIX lists grant a request to the same requesters: 0, or 1 if somebody loses it by
/// the second list, or 2 if somebody gains it.
#[unsafe(no_mangle)]
pub extern "C" fn meardwyn_posix_compare(
    alloc: Global,
    first: &[u8],
    owner: u32,
    group: u32,
    second: &[u8],
    other_owner: u32,
    other_group: u32,
    request: u32,
    who: &mut RawAsker,
) -> i32
    ensures value { ReportsUnlike first.now owner group second.now other_owner other_group request
        result who.old who.new }
    ensures short { IsShort first.now → IsShort second.now → result ≢ out_of_memory }
{
    match xattr_difference(
        alloc,
        first,
        owner,
        group,
        second,
        other_owner,
        other_group,
        request,
    ) {
        Ok(None) => 0,
        Ok(Some(unlike)) => {
            *who = unlike.asker;
            if unlike.before { 1 } else { 2 }
        }
        Err(error) => posix_error_number(error),
    }
}

/// Whether two NFSv4 lists decide these bits alike for everybody: 0, or 1 if not.
#[unsafe(no_mangle)]
pub extern "C" fn meardwyn_nfs4_compare(
    first: &[RawAce],
    owner: u32,
    group: u32,
    second: &[RawAce],
    other_owner: u32,
    other_group: u32,
    bits: u32,
    difference: &mut RawDifference,
) -> i32
    ensures { ReportsDifference first.now owner group second.now other_owner other_group bits result
        difference.old difference.new }
{
    match raws_difference(first, owner, group, second, other_owner, other_group, bits) {
        Ok(None) => 0,
        Ok(Some(found)) => {
            *difference = found;
            1
        }
        Err(fault) => nfs4_number(fault),
    }
}
