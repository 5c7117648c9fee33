//! The access check (RFC 8881, section 6.2.1).
ghost use Rattle.std.specs.Prelude.{◌≡◌, ◌↔◌, ◌&&◌, IsTrue};
ghost use Rattle.acl_nfs4.specs.Ace.{decides};
ghost use Rattle.acl_nfs4.specs.Who.{matches};
ghost use Rattle.acl_nfs4.specs.Mask.{mask_bits};
ghost use Rattle.acl_nfs4.specs.Evaluation.{Grants, grants4};

use crate::{Ace, Acl4, Mask};
use acl_names::{Gid, Requester, Subject, Uid};
use acl_posix::without;
use bitflags::Flags as FlagSet;

impl Ace {
    /// Whether the entry allows or denies the subject something, on a file of this owner and this
    /// group.
    pub fn concerns<S: Subject>(&self, owner: Uid, group: Gid, subject: &S) -> bool
        ensures { result ≡ (decides self.now && matches owner group (S.identity subject.now)
            self.now.who) }
    {
        self.decides() && self.who().matches(owner, group, subject)
    }
}

/// Whether the entries grant all of the request. It reads the list once and keeps the bits that are
/// still undecided: an `ALLOW` removes those of its mask; a `DENY` with one of them ends the
/// search, and so do no bits left.
fn grants(aces: &[Ace], owner: Uid, group: Gid, requester: &Requester, requested: Mask) -> bool
    ensures { IsTrue result ↔ Grants (matches owner group requester.now) aces.now
        (mask_bits requested) }
{
    let mut open = requested;
    for ace in aces {
        if open.is_empty() {
            return true;
        }
        if ace.concerns(owner, group, requester) {
            if ace.kind().is_allow() {
                open = without(open, ace.mask());
            } else if open.intersects(ace.mask()) {
                return false;
            }
        }
    }
    open.is_empty()
}

impl Acl4 {
    /// Whether the list grants the requester all of the request, for a file of this owner and this
    /// group. The first entry that applies to the requester and has a bit decides it, and a bit
    /// that no such entry has is denied (RFC 8881, section 6.2.1). The empty request is granted.
    pub fn grants4(&self, owner: Uid, group: Gid, requester: &Requester, requested: Mask) -> bool
        ensures grants { IsTrue result ↔ Grants (matches owner group requester.now) self.now
            (mask_bits requested) }
        ensures test { result ≡ grants4 self.now owner group requester.now (mask_bits requested) }
    {
        // For the proof only: it knows that a mask has 32 bits after its number is read.
        let _bits = requested.bits();
        grants(self.aces(), owner, group, requester, requested)
    }
}
