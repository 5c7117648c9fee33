//! NFSv4 access control lists: their entries in order, at most 128.
ghost use Rattle.std.specs.Prelude.{◌≡◌, ◌≢◌, ◌<◌, ◌≤◌, IsOk, IsTrue, ◌↔◌, true, [], ◌∷◌, ◌++◌};
ghost use Rattle.std.specs.Prelude.{length, OnOk, OnErr, IfOk, IfErr, Err};

use crate::Ace;
use crate::limits::{INLINE_ACES, MAX_ACES};
use smallvec::SmallVec;
use std::alloc::{AllocError, Global};
use std::marker::Model;

/// Why a text, or an entry, is refused.
#[derive(Clone, Copy, Debug, PartialEq, Eq)]
pub enum AceFault {
    /// A piece of the text has none of the shapes of an entry.
    Syntax,
    /// An entry has a name that no user, or no group, has.
    UnknownName,
    /// The list would have more than 128 entries.
    TooMany,
    /// An entry has `INHERIT_ONLY` without `FILE_INHERIT` or `DIRECTORY_INHERIT`.
    InheritOnly,
    /// Memory ran out.
    Memory,
}

/// An access control list: at most 128 entries, in the order in which they are evaluated. No entry
/// has `INHERIT_ONLY` without `FILE_INHERIT` or `DIRECTORY_INHERIT`.
#[derive(Debug, Drop)]
pub struct Acl4 {
    aces: SmallVec<Ace, INLINE_ACES>,
}

impl Model for Acl4 {
    ghost use Rattle.std.specs.Prelude.{List, length, ◌≤◌};
    ghost use Rattle.acl_nfs4.specs.Ace.{Nfsace4};
    ghost use Rattle.acl_nfs4.specs.Acl.{AreAces};
    ghost use Rattle.acl_nfs4.specs.declared.limits.TheConstants.{INLINE_ACES};

    ghost Value = { List Nfsace4 };

    ghost view = { λ acl. acl.aces.items };

    ghost invariant = { λ acl. AreAces acl.aces.items
        × (length acl.aces.items ≤ INLINE_ACES → INLINE_ACES ≤ acl.aces.capacity) };
}

impl Acl4 {
    ghost use Rattle.acl_nfs4.specs.Acl.{AreAces, IsPushFault};
    ghost use Rattle.acl_nfs4.specs.Ace.{is_idle};

    /// The list with no entries. It grants nothing but the empty request.
    pub fn empty(alloc: Global) -> Acl4
        ensures { result ≡ [] }
    {
        Acl4 {
            aces: SmallVec::new(alloc),
        }
    }

    /// The list with no entries and room for `capacity`, so that it grows once at most. Fails only
    /// if memory runs out.
    pub fn with_capacity(alloc: Global, capacity: usize) -> Result<Acl4, AllocError>
        ensures value { IfOk result (λ acl. acl ≡ []) }
        ensures short { capacity ≤ INLINE_ACES → IsOk result }
    {
        let mut aces = SmallVec::new(alloc);
        aces.reserve(capacity)?;
        Ok(Acl4 { aces })
    }

    /// The list of these entries.
    pub(crate) fn from_items(aces: SmallVec<Ace, INLINE_ACES>) -> Acl4
        requires are_aces { AreAces aces.items }
        requires room { length aces.items ≤ INLINE_ACES → INLINE_ACES ≤ aces.capacity }
        ensures { result ≡ aces.items }
    {
        Acl4 { aces }
    }

    /// Appends the entry. Fails with `TooMany` if there are 128 already, else with `InheritOnly` if
    /// the entry has no effect, else with `Memory`; then the list stays as it was.
    pub fn push(&mut self, ace: Ace) -> Result<(), AceFault>
        ensures ok { OnOk result (self.new ≡ self.old ++ ace ∷ []) }
        ensures too_many { (result ≡ Err AceFault.TooMany) ↔ (length self.old ≡ MAX_ACES) }
        ensures inherit_only { (result ≡ Err AceFault.InheritOnly)
            ↔ ((length self.old < MAX_ACES) × (is_idle ace ≡ true)) }
        ensures only { IfErr result IsPushFault }
        ensures err { OnErr result (self.new ≡ self.old) }
        ensures short { length self.old < INLINE_ACES → result ≢ Err AceFault.Memory }
    {
        // For the proof only: calling a reader brings the invariant of `ace` into scope.
        let _mask = ace.mask();
        if self.aces.len() >= MAX_ACES {
            return Err(AceFault::TooMany);
        }
        if ace.is_idle() {
            return Err(AceFault::InheritOnly);
        }
        match self.aces.push(ace) {
            Ok(()) => Ok(()),
            Err(_) => Err(AceFault::Memory),
        }
    }

    /// The entries, in the order in which they are evaluated.
    pub fn aces(&self) -> &[Ace]
        ensures value { result.now ≡ self.now }
        ensures aces { AreAces self.now }
    {
        self.aces.as_slice()
    }

    /// Whether the other list has the same entries in the same order.
    pub fn has_same_entries(&self, other: &Acl4) -> bool
        ensures { IsTrue result ↔ (self.now ≡ other.now) }
    {
        self.aces() == other.aces()
    }

    /// Clones the list. Fails only if memory runs out.
    pub fn try_clone(&self, alloc: Global) -> Result<Acl4, AllocError>
        ensures value { IfOk result (λ acl. acl ≡ self.now) }
        ensures short { length self.now ≤ INLINE_ACES → IsOk result }
    {
        let aces = SmallVec::from_slice(alloc, self.aces.as_slice())?;
        Ok(Acl4 { aces })
    }
}
