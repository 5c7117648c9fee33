//! NFSv4 entries as numbers, for a caller's buffer.

ghost use Rattle.std.specs.Prelude.{◌≡◌, ◌≤◌, ◌++◌, length, drop};
ghost use Rattle.acl_nfs4.specs.Who.{id_of};
ghost use Rattle.acl_wire.specs.RawAcesWriting.{kind_number, raw_of, raws_of, special_number};
ghost use Rattle.acl_wire.specs.Writing.{PutsInFront};

use crate::RawAce;
use acl_nfs4::{Ace, AceType, Acl4, Who};
use bitflags::Flags as FlagSet;

pub(crate) fn kind_number(kind: AceType) -> u32
    ensures { result ≡ kind_number kind }
{
    match kind {
        AceType::Allow => 0,
        AceType::Deny => 1,
        AceType::Audit => 2,
        AceType::Alarm => 3,
    }
}

pub(crate) fn special_number(who: &Who) -> u32
    ensures { result ≡ special_number who.now }
{
    match *who {
        Who::Owner => 1,
        Who::Group => 2,
        Who::Everyone => 3,
        Who::User(_) | Who::NamedGroup(_) => 0,
    }
}

fn id_of(who: &Who) -> u32
    ensures { result ≡ id_of who.now }
{
    match *who {
        Who::User(uid) => uid.value(),
        Who::NamedGroup(gid) => gid.value(),
        _ => 0,
    }
}

/// The entry as numbers.
pub(crate) fn raw_of(ace: &Ace) -> RawAce
    ensures { result ≡ raw_of ace.now }
{
    let who = ace.who();
    RawAce {
        kind: kind_number(ace.kind()),
        flags: u32::from(ace.flags().bits()),
        mask: ace.mask().bits(),
        special: special_number(&who),
        id: id_of(&who),
    }
}

fn put_aces(aces: &[Ace], out: &mut [RawAce])
    requires { length aces.now ≤ length out.old }
    ensures { out.new ≡ raws_of aces.now ++ drop (length aces.now) out.old }
{
    for (place, ace) in aces.iter().enumerate() {
        out[place] = raw_of(ace);
    }
}

/// Puts the entries as numbers in front of `out`, if it has room for all, and else leaves `out` as
/// it was. The answer is how many entries the list has.
pub fn write_raw_aces(acl: &Acl4, out: &mut [RawAce]) -> usize
    ensures { PutsInFront (raws_of acl.now) result out.old out.new }
{
    let aces = acl.aces();
    if aces.len() <= out.len() {
        put_aces(aces, out);
    }
    aces.len()
}
