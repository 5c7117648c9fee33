//! Which of several bits a list grants (RFC 8881, section 6.2.1).
ghost use Rattle.std.specs.Prelude.{◌≡◌, ◌&&◌, ℕ};
ghost use Rattle.acl_names.specs.Bits.{has};
ghost use Rattle.acl_nfs4.specs.Evaluation.{allows};
ghost use Rattle.acl_nfs4.specs.Mask.{mask_bits};
ghost use Rattle.acl_nfs4.specs.Who.{matches};

use crate::{Ace, Acl4, Mask};
use acl_names::{Gid, Subject, Uid};
use acl_posix::without;
use bitflags::Flags as FlagSet;

/// The bits of `bits` that the entries grant the subject. It reads the list once, until every bit
/// is decided. Never inlined, so that its loop has the registers to itself where lists are
/// compared.
#[inline(never)]
pub(crate) fn allowed_to<S: Subject>(
    aces: &[Ace],
    owner: Uid,
    group: Gid,
    subject: &S,
    bits: Mask,
) -> Mask
    ensures { (bit : ℕ) → has (mask_bits result) bit
        ≡ (has (mask_bits bits) bit && allows (matches owner group (S.identity subject.now)) bit
        aces.now) }
{
    let mut allowed = Mask::empty();
    let mut open = bits;
    for ace in aces {
        if open.is_empty() {
            return allowed;
        }
        if ace.concerns(owner, group, subject) {
            if ace.kind().is_allow() {
                allowed = allowed.union(open.intersection(ace.mask()));
            }
            open = without(open, ace.mask());
        }
    }
    allowed
}

impl Acl4 {
    /// The bits of `bits` that the list grants the subject, for a file of this owner and this
    /// group: each exactly if `grants4` grants it alone. It takes no memory.
    pub fn allowed<S: Subject>(&self, owner: Uid, group: Gid, subject: &S, bits: Mask) -> Mask
        ensures { (bit : ℕ) → has (mask_bits result) bit
            ≡ (has (mask_bits bits) bit && allows (matches owner group (S.identity subject.now)) bit
            self.now) }
    {
        allowed_to(self.aces(), owner, group, subject, bits)
    }
}
