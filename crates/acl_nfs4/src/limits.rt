//! How many entries a list may have.
ghost use Rattle.std.specs.Prelude.{◌≡◌};
ghost use Rattle.acl_nfs4.specs.declared.limits.TheConstants.{INLINE_ACES, MAX_ACES};
ghost use Rattle.acl_nfs4.specs.declared.marks.TheConstants.{MARKS};

/// How many entries an access control list may have.
pub const MAX_ACES: usize = 128;

/// How many entries a list stores inline; a longer list has all of them on the heap.
pub const INLINE_ACES: usize = 16;

/// The limits as numbers. There is nothing to run here: a proof cites the contract.
pub fn limits_in_numbers()
    ensures aces { MAX_ACES ≡ 128 }
    ensures inline { INLINE_ACES ≡ 16 }
    ensures marks { MARKS ≡ 64 }
{}
