//! The mode that entries of numbers show, where the caller keeps them (RFC 8881, section 6.3.2).

ghost use Rattle.std.specs.Prelude.{◌≡◌, ◌&&◌, List, Ok, true};
ghost use Rattle.acl_nfs4.specs.Ace.{Nfsace4, decides};
ghost use Rattle.acl_nfs4.specs.Evaluation.{of_class};
ghost use Rattle.acl_nfs4.specs.Mask.{mode_bits};
ghost use Rattle.acl_nfs4.specs.Who.{is_special};
ghost use Rattle.acl_posix.specs.Perms.{bits_of};
ghost use Rattle.acl_wire.specs.Decision.{values_of};
ghost use Rattle.acl_wire.specs.DecisionSteps.{goes_on, with_ace};
ghost use Rattle.acl_wire.specs.Shown.{IsShown, mode_shown, perms_shown};

use crate::decision::Found;
use crate::mode_change::{OF_MODE, decides};
use crate::numbers::has_bit;
use crate::raw_ace::value_of;
use crate::values::raws_fault;
use crate::{Nfs4Fault, RawAce};
use acl_nfs4::{Ace, Who};
use acl_posix::{Mode, Perms, bits_if};
use bitflags::Flags as FlagSet;

/// `READ_DATA`.
const READ_DATA: u32 = 0x1;

/// `WRITE_DATA`.
const WRITE_DATA: u32 = 0x2;

/// `APPEND_DATA`.
const APPEND_DATA: u32 = 0x4;

/// `EXECUTE`.
const EXECUTE: u32 = 0x20;

/// Whether entries about this who report the mode of one of `OWNER@`, `GROUP@` and `EVERYONE@`.
fn is_of_class(who: &Who, class: &Who) -> bool
    requires { is_special class.now ≡ true }
    ensures { result ≡ of_class class.now who.now }
{
    match *who {
        Who::Owner => matches!(*class, Who::Owner),
        Who::Group => matches!(*class, Who::Group),
        Who::Everyone => true,
        Who::User(_) | Who::NamedGroup(_) => false,
    }
}

/// Whether the entry decides about a class of the mode.
fn reports_mode_of(ace: &Ace, class: &Who) -> bool
    requires { is_special class.now ≡ true }
    ensures { result ≡ (decides ace.now && of_class class.now ace.now.who) }
{
    let flags = u32::from(ace.flags().bits());
    if !decides(ace.kind(), flags) {
        return false;
    }
    is_of_class(&ace.who(), class)
}

/// What is found of a class with an entry more.
#[tactic(auto, unfolding(crate::specs::DecisionSteps::with_ace))]
fn with_ace(found: Found, ace: &Ace, class: &Who) -> Found
    requires { is_special class.now ≡ true }
    ensures { result ≡ with_ace (of_class class.now) found ace.now }
{
    if reports_mode_of(ace, class) {
        found.with_word(ace)
    } else {
        found
    }
}

/// What is found of the bits of the mode for a class.
fn found_of(raws: &[RawAce], class: &Who) -> Result<Found, Nfs4Fault>
    requires { is_special class.now ≡ true }
    ensures { result ≡ goes_on (of_class class.now) (record { allowed = 0; left = mode_bits })
        raws.now }
{
    let mut found = Found {
        allowed: 0,
        left: OF_MODE,
    };
    for raw in raws {
        if found.left == 0 {
            return Ok(found);
        }
        let ace = value_of(raw)?;
        found = with_ace(found, &ace, class);
    }
    Ok(found)
}

/// The permissions that these bits of a mask show: to write if both `WRITE_DATA` and `APPEND_DATA`
/// are allowed.
fn perms_of(allowed: u32) -> Perms
    ensures { bits_of result ≡ perms_shown allowed }
{
    let writes = has_bit(allowed, WRITE_DATA) && has_bit(allowed, APPEND_DATA);
    let read = bits_if(Perms::READ, has_bit(allowed, READ_DATA));
    let write = bits_if(Perms::WRITE, writes);
    let execute = bits_if(Perms::EXECUTE, has_bit(allowed, EXECUTE));
    read | write | execute
}

/// The permissions that the entries show for a class.
fn shown_to(raws: &[RawAce], class: &Who) -> Result<Perms, Nfs4Fault>
    requires { is_special class.now ≡ true }
    ensures { (aces : List Nfsace4) → values_of raws.now ≡ Ok aces
        → IsShown (of_class class.now) aces result }
{
    let found = found_of(raws, class)?;
    Ok(perms_of(found.allowed))
}

/// The mode of a file with these entries, however many there are and whether or not they take
/// effect somewhere: for each of `OWNER@`, `GROUP@` and `EVERYONE@` what its own entries and those
/// of `EVERYONE@` grant. Each entry has to be one that can be decided by. It takes no memory.
#[tactic(auto, unfolding(crate::specs::Shown::mode_shown))]
pub fn raws_mode(raws: &[RawAce]) -> Result<Mode, Nfs4Fault>
    ensures { result ≡ mode_shown raws.now }
{
    if let Some(fault) = raws_fault(raws) {
        return Err(fault);
    }
    let user = shown_to(raws, &Who::Owner)?;
    let group = shown_to(raws, &Who::Group)?;
    let other = shown_to(raws, &Who::Everyone)?;
    Ok(Mode { user, group, other })
}
