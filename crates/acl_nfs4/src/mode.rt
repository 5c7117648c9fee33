//! The mode of a file with a list (RFC 8881, section 6.3.2).
ghost use Rattle.std.specs.Prelude.{◌≡◌, ◌&&◌, ◌||◌, IsTrue, ℕ};
ghost use Rattle.acl_names.specs.Bits.{has};
ghost use Rattle.acl_posix.specs.Perms.{bits_of};
ghost use Rattle.acl_nfs4.specs.Ace.{decides};
ghost use Rattle.acl_nfs4.specs.Mask.{mask_bits, mode_bits, write_data, append_data};
ghost use Rattle.acl_nfs4.specs.Evaluation.{allows, mode_of, of_class, shown_to};

use crate::{Ace, Acl4, Mask, Who};
use acl_posix::{Mode, Perms, bits_if, without};
use bitflags::Flags as FlagSet;

impl Who {
    /// Whether the entry's `who` counts for the mode of this one of `OWNER@`, `GROUP@` and
    /// `EVERYONE@`.
    fn is_of_class(&self, class: &Who) -> bool
        ensures { result ≡ of_class class.now self.now }
    {
        self.is(class) || self.is(&Who::Everyone)
    }
}

impl Ace {
    /// Whether the entry allows or denies something in the mode of this class.
    fn reports_mode_of(&self, class: &Who) -> bool
        ensures { result ≡ (decides self.now && of_class class.now self.now.who) }
    {
        self.decides() && self.who().is_of_class(class)
    }
}

/// The bits of the mode that the entries allow a class. It reads the list once, until every bit is
/// decided.
fn allowed_to(aces: &[Ace], class: &Who) -> Mask
    ensures { (bit : ℕ) → IsTrue (has mode_bits bit)
        → has (mask_bits result) bit ≡ allows (of_class class.now) bit aces.now }
{
    let mut allowed = Mask::empty();
    let mut open = Mask::OF_MODE;
    for ace in aces {
        if open.is_empty() {
            return allowed;
        }
        if ace.reports_mode_of(class) {
            if ace.kind().is_allow() {
                allowed = allowed.union(open.intersection(ace.mask()));
            }
            open = without(open, ace.mask());
        }
    }
    allowed
}

/// Whether all bits of the mode's permission to write are allowed.
fn allows_writing(allowed: Mask) -> bool
    ensures { result ≡ (has (mask_bits allowed) write_data && has (mask_bits allowed) append_data) }
{
    allowed.contains(Mask::WRITE_DATA) && allowed.contains(Mask::APPEND_DATA)
}

/// The permissions of a class in the mode: to write if both `WRITE_DATA` and `APPEND_DATA` are
/// allowed.
fn shown_to(aces: &[Ace], class: &Who) -> Perms
    ensures { bits_of result ≡ shown_to (of_class class.now) aces.now }
{
    let allowed = allowed_to(aces, class);
    let read = bits_if(Perms::READ, allowed.contains(Mask::READ_DATA));
    let write = bits_if(Perms::WRITE, allows_writing(allowed));
    let execute = bits_if(Perms::EXECUTE, allowed.contains(Mask::EXECUTE));
    read | write | execute
}

impl Acl4 {
    /// The mode of a file with this list: for each of `OWNER@`, `GROUP@` and `EVERYONE@` what its
    /// own entries and those of `EVERYONE@` grant (RFC 8881, section 6.3.2).
    pub fn mode4(&self) -> Mode
        ensures { result ≡ mode_of self.now }
    {
        let aces = self.aces();
        Mode {
            user: shown_to(aces, &Who::Owner),
            group: shown_to(aces, &Who::Group),
            other: shown_to(aces, &Who::Everyone),
        }
    }
}
