//! Lists under construction.
ghost use Rattle.std.specs.Prelude.{◌≡◌, ◌<◌, ◌≤◌, false, [], ◌∷◌, ◌++◌, length, OnOk, OnErr};

use crate::limits::{INLINE_ACES, MAX_ACES};
use crate::{Ace, AceType, Acl4, Mask, Who};
use bitflags::Flags as FlagSet;
use smallvec::SmallVec;
use std::alloc::Global;
use std::marker::Model;

/// There is no room for another entry.
#[derive(Clone, Copy, Debug)]
pub(crate) struct Full;

/// A list under construction, with inline room for `N` entries. A `Draft<MAX_ACES>` has all its
/// entries inline, 2 KiB, and never allocates; a `Draft<INLINE_ACES>` has as many inline as the
/// finished list, and allocates for more.
#[derive(Drop)]
pub(crate) struct Draft<const N: usize> {
    aces: SmallVec<Ace, N>,
}

impl<const N: usize> Model for Draft<N> {
    ghost use Rattle.std.specs.Prelude.{List};
    ghost use Rattle.acl_nfs4.specs.Ace.{Nfsace4};
    ghost use Rattle.acl_nfs4.specs.Acl.{IsDraft};

    ghost Value = { List Nfsace4 };

    ghost view = { λ draft. draft.aces.items };

    ghost invariant = { λ draft. IsDraft N draft.aces.items draft.aces.capacity };
}

impl<const N: usize> Draft<N> {
    ghost use Rattle.acl_nfs4.specs.Acl.{IsTooLong};
    ghost use Rattle.acl_nfs4.specs.Ace.{is_idle, unless_empty, plain_ace};
    ghost use Rattle.acl_nfs4.specs.Mask.{mask_bits, all_masks};
    ghost use Rattle.acl_names.specs.Bits.{◌∩◌};

    pub(crate) fn new(alloc: Global) -> Draft<N>
        requires { N ≤ MAX_ACES }
        ensures { result ≡ [] }
    {
        Draft {
            aces: SmallVec::new(alloc),
        }
    }

    /// A draft is no longer than a list may be. There is nothing to run here: a proof cites the
    /// contract.
    pub(crate) fn length_is_within_limit(&self)
        ensures { length self.now ≤ MAX_ACES }
    {
        let _ = &self.aces;
    }

    /// Appends the entry. Fails only if memory runs out, and never up to `N` entries.
    pub(crate) fn push_within(&mut self, ace: Ace) -> Result<(), Full>
        requires room { length self.old < MAX_ACES }
        requires effective { is_idle ace ≡ false }
        ensures ok { OnOk result (self.new ≡ self.old ++ ace ∷ []) }
        ensures full { OnErr result (IsTooLong N (self.old ++ ace ∷ [])) }
    {
        // For the proof only: calling a reader brings the invariant of `ace` into scope.
        let _mask = ace.mask();
        match self.aces.push(ace) {
            Ok(()) => Ok(()),
            Err(_) => Err(Full),
        }
    }

    /// Appends the entry, unless there is no room.
    pub(crate) fn push(&mut self, ace: Ace) -> Result<(), Full>
        requires { is_idle ace ≡ false }
        ensures ok { OnOk result (self.new ≡ self.old ++ ace ∷ []) }
        ensures full { OnErr result (IsTooLong N (self.old ++ ace ∷ [])) }
    {
        if self.aces.len() >= MAX_ACES {
            return Err(Full);
        }
        self.push_within(ace)
    }

    /// Appends the entry, unless its mask is empty.
    #[tactic(auto, unfolding(crate::specs::Ace::unless_empty))]
    pub(crate) fn push_unless_empty(&mut self, ace: Ace) -> Result<(), Full>
        requires { is_idle ace ≡ false }
        ensures ok { OnOk result (self.new ≡ self.old ++ unless_empty ace) }
        ensures full { OnErr result (IsTooLong N (self.old ++ unless_empty ace)) }
    {
        if ace.mask().is_empty() {
            return Ok(());
        }
        self.push(ace)
    }

    /// Appends an entry with no flags of its own, unless its mask is empty.
    pub(crate) fn push_plain(&mut self, kind: AceType, who: Who, mask: Mask) -> Result<(), Full>
        requires { mask_bits mask ∩ all_masks ≡ mask_bits mask }
        ensures ok { OnOk result (self.new ≡ self.old ++ plain_ace kind who (mask_bits mask)) }
        ensures full { OnErr result (IsTooLong N (self.old ++ plain_ace kind who (mask_bits mask))) }
    {
        self.push_unless_empty(Ace::plain_ace(kind, who, mask))
    }
}

impl Draft<INLINE_ACES> {
    /// The finished list.
    pub(crate) fn into_acl(self) -> Acl4
        ensures { result ≡ self }
    {
        let Draft { aces } = self;
        Acl4::from_items(aces)
    }
}
