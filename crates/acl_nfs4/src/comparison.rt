//! Whether two lists grant everyone the same.
ghost use Rattle.std.specs.Prelude.{◌≡◌, ◌↔◌, None, IfSome};
ghost use Rattle.acl_nfs4.specs.Comparison.{DecideAlike, IsDifference, decided_at};
ghost use Rattle.acl_nfs4.specs.Mask.{mask_bits};

use crate::allowed::allowed_to;
use crate::pairs::{Compared, difference_by_pairs};
use crate::{Ace, Acl4, Mask, Owners};
use acl_names::Asker;
use acl_posix::without;

/// A requester whom two lists grant different bits, and which.
#[derive(Clone, Copy, Debug, PartialEq, Eq)]
pub struct Difference {
    /// The requester.
    pub asker: Asker,
    /// The bits that only the first list grants.
    pub lost: Mask,
    /// The bits that only the second list grants.
    pub gained: Mask,
}

impl Difference {
    /// The difference with the lists in the other order.
    pub fn reversed(self) -> Difference
        ensures { result ≡ record {
          asker = self.asker;
          lost = self.gained;
          gained = self.lost;
        } }
    {
        Difference {
            asker: self.asker,
            lost: self.gained,
            gained: self.lost,
        }
    }
}

/// Two lists to compare in these bits, each for a file of its own owners.
#[derive(Drop)]
struct Lists<'a> {
    first: &'a [Ace],
    owners: &'a Owners,
    second: &'a [Ace],
    other_owners: &'a Owners,
    bits: Mask,
}

impl<'a> Compared for Lists<'a> {
    ghost use Rattle.acl_nfs4.specs.Comparison.{AlikeFor, IsDifference, decided_at};
    ghost use Rattle.acl_nfs4.specs.Mask.{mask_bits};

    type Difference = Difference;

    ghost Alike = { λ lists. AlikeFor lists.first.now lists.second.now lists.owners.now
        lists.other_owners.now (mask_bits lists.bits) };

    ghost Differs = { λ lists. IsDifference (decided_at lists.first.now lists.owners.now)
        (decided_at lists.second.now lists.other_owners.now) (mask_bits lists.bits) };

    fn difference(&self, asker: &Asker) -> Option<Difference> {
        let owners = self.owners;
        let others = self.other_owners;
        let before = allowed_to(self.first, owners.owner, owners.group, asker, self.bits);
        let after = allowed_to(self.second, others.owner, others.group, asker, self.bits);
        if before == after {
            return None;
        }
        Some(Difference {
            asker: *asker,
            lost: without(before, after),
            gained: without(after, before),
        })
    }
}

impl Acl4 {
    /// Compares this list with another in these bits, each for a file of its own owners. `None`
    /// exactly if they grant every requester the same, of whatever uid and groups; else a requester
    /// in at most two groups, with the bits that only this list and only the other one grants. It
    /// tries a requester for each pair of entries, at most 129 times 129, and takes no memory.
    pub fn difference(
        &self,
        owners: &Owners,
        other: &Acl4,
        other_owners: &Owners,
        bits: Mask,
    ) -> Option<Difference>
        ensures none { (result ≡ None) ↔ DecideAlike (decided_at self.now owners.now)
            (decided_at other.now other_owners.now) (mask_bits bits) }
        ensures some { IfSome result (IsDifference (decided_at self.now owners.now)
            (decided_at other.now other_owners.now) (mask_bits bits)) }
    {
        let first = self.aces();
        let second = other.aces();
        let lists = Lists {
            first,
            owners,
            second,
            other_owners,
            bits,
        };
        difference_by_pairs(&lists, first, owners, second, other_owners)
    }
}
