//! Calls on NFSv4 lists, as entries of numbers.

ghost use Rattle.std.specs.Prelude.{◌≡◌, ◌≢◌, ◌≤◌, ◌↔◌, IfOk, IsTrue, length};
ghost use Rattle.acl_c.specs.Answers.{AreGranting, PutsAnswer, PutsItems, ReportsAllowed};
ghost use Rattle.acl_c.specs.Answers.{ReportsDecided, ReportsWhether, classes_number};
ghost use Rattle.acl_c.specs.Answers.{number_of_answer};
ghost use Rattle.acl_c.specs.Answers.{kind_below, zero_number};
ghost use Rattle.acl_c.specs.Status.{nfs4_number, out_of_memory};
ghost use Rattle.acl_c.specs.Texts.{itself};
ghost use Rattle.acl_names.specs.Requester.{Identity};
ghost use Rattle.acl_nfs4.specs.Evaluation.{Grants};
ghost use Rattle.acl_nfs4.specs.Who.{matches};
ghost use Rattle.acl_nfs4.specs.declared.limits.TheConstants.{INLINE_ACES};
ghost use Rattle.acl_wire.specs.Decision.{decided_by, values_of};
ghost use Rattle.acl_wire.specs.Inheritance.{inherited_of};
ghost use Rattle.acl_wire.specs.ModeChange.{chmod_of};
ghost use Rattle.acl_wire.specs.Shown.{mode_shown};
ghost use Rattle.acl_wire.specs.XdrRaws.{xdr_raws_of};
ghost use Rattle.acl_wire.specs.XdrWriting.{raws_xdr_of};

use crate::buffers::report_count;
use crate::status::{nfs4_error_number, nfs4_number as nfs4_fault_number};
use acl_nfs4::Kind;
use acl_wire::{
    Decided, RawAce, put_xdr_raws, raws_allow, raws_decide, raws_fault, raws_grant, raws_mode,
    write_inherited, write_with_mode, write_xdr,
};
use std::alloc::Global;

/// Of a file, whose it is.
#[repr(C)]
#[derive(Clone, Copy, Debug, PartialEq, Eq)]
pub struct File {
    /// Its owner.
    pub owner: u32,
    /// Its group.
    pub group: u32,
}

/// Whether the list grants the request: 1 or 0.
#[unsafe(no_mangle)]
pub extern "C" fn meardwyn_nfs4_check(
    aces: &[RawAce],
    owner: u32,
    group: u32,
    uid: u32,
    gids: &[u32],
    request: u32,
) -> i32
    ensures { let who : Identity = record { uid = uid; gids = gids.now } in
        ReportsWhether nfs4_number (decided_by aces.now owner group who request)
        (λ list. Grants (matches owner group who) list request) result }
{
    match raws_grant(aces, owner, group, uid, gids, request) {
        Ok(granted) => { if granted { 1 } else { 0 } }
        Err(fault) => nfs4_fault_number(fault),
    }
}

/// What the list allows of the request.
#[unsafe(no_mangle)]
pub extern "C" fn meardwyn_nfs4_allowed(
    aces: &[RawAce],
    owner: u32,
    group: u32,
    uid: u32,
    gids: &[u32],
    request: u32,
    allowed: &mut u32,
) -> i32
    ensures { let who : Identity = record { uid = uid; gids = gids.now } in
        ReportsAllowed (decided_by aces.now owner group who request) owner group who request result
        allowed.old allowed.new }
{
    match raws_allow(aces, owner, group, uid, gids, request) {
        Ok(bits) => {
            *allowed = bits;
            0
        }
        Err(fault) => nfs4_fault_number(fault),
    }
}

/// What the list allows and denies of the request. If it is no list, all is denied.
#[unsafe(no_mangle)]
pub extern "C" fn meardwyn_nfs4_decide(
    aces: &[RawAce],
    file: &File,
    uid: u32,
    gids: &[u32],
    request: u32,
    decided: &mut Decided,
) -> i32
    ensures { let who : Identity = record { uid = uid; gids = gids.now } in
        ReportsDecided (decided_by aces.now file.now.owner file.now.group who request)
        file.now.owner file.now.group who request result decided.new }
{
    match raws_decide(aces, file.owner, file.group, uid, gids, request) {
        Ok(found) => {
            *decided = found;
            0
        }
        Err(fault) => {
            *decided = Decided {
                allowed: 0,
                denied: request,
            };
            nfs4_fault_number(fault)
        }
    }
}

/// Whether there is a list and it grants the request; and 0, or why there is no list.
#[unsafe(no_mangle)]
pub extern "C" fn meardwyn_nfs4_grants(
    aces: &[RawAce],
    file: &File,
    uid: u32,
    gids: &[u32],
    request: u32,
    error: &mut i32,
) -> bool
    ensures granted { let who : Identity = record { uid = uid; gids = gids.now } in
        IsTrue result ↔ AreGranting
        (decided_by aces.now file.now.owner file.now.group who request) file.now.owner
        file.now.group who request }
    ensures error { let who : Identity = record { uid = uid; gids = gids.now } in
        error.new ≡ number_of_answer nfs4_number zero_number
        (decided_by aces.now file.now.owner file.now.group who request) }
{
    match raws_grant(aces, file.owner, file.group, uid, gids, request) {
        Ok(granted) => {
            *error = 0;
            granted
        }
        Err(fault) => {
            *error = nfs4_fault_number(fault);
            false
        }
    }
}

/// Whether each of the entries can be decided by: 0, or why the first doesn't that can't.
#[unsafe(no_mangle)]
pub extern "C" fn meardwyn_nfs4_valid(aces: &[RawAce]) -> i32
    ensures { result ≡ number_of_answer nfs4_number zero_number (values_of aces.now) }
{
    match raws_fault(aces) {
        None => 0,
        Some(fault) => nfs4_fault_number(fault),
    }
}

/// The mode of a file with the list.
#[unsafe(no_mangle)]
pub extern "C" fn meardwyn_nfs4_mode(aces: &[RawAce]) -> i32
    ensures { result ≡ number_of_answer nfs4_number classes_number (mode_shown aces.now) }
{
    match raws_mode(aces) {
        Ok(mode) => i32::from(mode.bits()),
        Err(fault) => nfs4_fault_number(fault),
    }
}

/// The list with a mode set, by the rule of this number.
#[unsafe(no_mangle)]
pub extern "C" fn meardwyn_nfs4_chmod(
    alloc: Global,
    aces: &[RawAce],
    mode: u32,
    how: u32,
    out: &mut [RawAce],
    needed: &mut usize,
) -> i32
    ensures value { PutsAnswer nfs4_number itself (chmod_of aces.now mode how) result out.old
        out.new needed.old needed.new }
    ensures short { length aces.now ≤ INLINE_ACES
        → IfOk (chmod_of aces.now mode how) (λ list. length list ≤ INLINE_ACES)
        → result ≢ out_of_memory }
{
    match write_with_mode(alloc, aces, mode, how, out) {
        Ok(count) => report_count(count, out.len(), needed),
        Err(error) => nfs4_error_number(error),
    }
}

/// The kind of what is made.
fn kind_below(is_dir: bool) -> Kind
    ensures { result ≡ kind_below is_dir }
{
    if is_dir { Kind::Dir } else { Kind::File }
}

/// What a new file, or a new directory, inherits.
#[unsafe(no_mangle)]
pub extern "C" fn meardwyn_nfs4_inherit(
    alloc: Global,
    aces: &[RawAce],
    is_dir: bool,
    out: &mut [RawAce],
    needed: &mut usize,
) -> i32
    ensures value { PutsAnswer nfs4_number itself (inherited_of (kind_below is_dir) aces.now)
        result out.old out.new needed.old needed.new }
    ensures short { length aces.now ≤ INLINE_ACES → result ≢ out_of_memory }
{
    match write_inherited(alloc, aces, kind_below(is_dir), out) {
        Ok(count) => report_count(count, out.len(), needed),
        Err(error) => nfs4_error_number(error),
    }
}

/// The entries of the bytes of a list in XDR.
#[unsafe(no_mangle)]
pub extern "C" fn meardwyn_nfs4_from_xdr(xdr: &[u8], out: &mut [RawAce], needed: &mut usize) -> i32
    ensures { PutsItems (xdr_raws_of xdr.now) result out.old out.new needed.old needed.new }
{
    match put_xdr_raws(xdr, out) {
        Ok(count) => report_count(count, out.len(), needed),
        Err(fault) => nfs4_fault_number(fault),
    }
}

/// The list in XDR.
#[unsafe(no_mangle)]
pub extern "C" fn meardwyn_nfs4_to_xdr(aces: &[RawAce], out: &mut [u8], needed: &mut usize) -> i32
    ensures { PutsItems (raws_xdr_of aces.now) result out.old out.new needed.old needed.new }
{
    match write_xdr(aces, out) {
        Ok(count) => report_count(count, out.len(), needed),
        Err(fault) => nfs4_fault_number(fault),
    }
}
