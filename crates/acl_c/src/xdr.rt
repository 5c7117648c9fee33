//! Lists in XDR entry by entry, with the names that clients send.

ghost use Rattle.std.specs.Int.{w32, to_be_bytes};
ghost use Rattle.acl_c.specs.Answers.{Puts, PutsItems};
ghost use Rattle.acl_c.specs.Entries.{ReportsEntry};
ghost use Rattle.acl_wire.specs.XdrNames.{entry_of, next_of};

use crate::buffers::{put_bytes, report_count};
use crate::status::nfs4_number;
use acl_wire::{RawAce, XdrPlace, put_xdr_entry, xdr_next};

/// The next entry of a list in XDR: 1, or 0 if none is left.
#[unsafe(no_mangle)]
pub extern "C" fn meardwyn_nfs4_xdr_next(xdr: &[u8], place: &mut XdrPlace, ace: &mut RawAce) -> i32
    ensures { ReportsEntry (next_of xdr.now place.old) result place.old place.new ace.old ace.new }
{
    match xdr_next(xdr, place) {
        Ok((Some(raw), behind)) => {
            *place = behind;
            *ace = raw;
            1
        }
        Ok((None, behind)) => {
            *place = behind;
            0
        }
        Err(fault) => nfs4_number(fault),
    }
}

/// The number of entries, with which a list in XDR begins.
#[unsafe(no_mangle)]
pub extern "C" fn meardwyn_nfs4_xdr_begin(aces_len: u32, out: &mut [u8], needed: &mut usize) -> i32
    ensures { Puts (to_be_bytes w32 aces_len) result out.old out.new needed.new }
{
    put_bytes(&aces_len.to_be_bytes(), out, needed)
}

/// An entry of a list in XDR, with a name if its who is one.
#[unsafe(no_mangle)]
pub extern "C" fn meardwyn_nfs4_xdr_put(
    ace: &RawAce,
    name: &[u8],
    out: &mut [u8],
    needed: &mut usize,
) -> i32
    ensures { PutsItems (entry_of ace.now name.now) result out.old out.new needed.old needed.new }
{
    match put_xdr_entry(ace, name, out) {
        Ok(count) => report_count(count, out.len(), needed),
        Err(fault) => nfs4_number(fault),
    }
}
