//! The entries of NFSv4 access control lists (RFC 8881, section 6.2.1).
ghost use Rattle.std.specs.Prelude.{◌≡◌, ◌||◌, false};
ghost use Rattle.acl_nfs4.specs.Flags.{flag_bits};
ghost use Rattle.acl_nfs4.specs.Mask.{mask_bits};

use crate::{Flags, Mask, Who};
use acl_posix::without;
use bitflags::Flags as FlagSet;
use std::marker::Model;

/// What an entry does with the bits of its mask (RFC 8881, section 6.2.1.1).
#[derive(Clone, Copy, Debug, PartialEq, Eq)]
pub enum AceType {
    /// Allows the bits of its mask.
    Allow,
    /// Denies the bits of its mask.
    Deny,
    /// Logs an access; it decides nothing.
    Audit,
    /// Raises an alarm at an access; it decides nothing.
    Alarm,
}

impl AceType {
    ghost use Rattle.acl_nfs4.specs.Ace.{is_allow, is_deny};

    pub(crate) fn is_allow(&self) -> bool
        ensures { result ≡ is_allow self.now }
    {
        matches!(*self, AceType::Allow)
    }

    /// Whether an entry of this type allows or denies.
    pub(crate) fn decides(&self) -> bool
        ensures { result ≡ (is_allow self.now || is_deny self.now) }
    {
        matches!(*self, AceType::Allow | AceType::Deny)
    }

    pub(crate) fn is_deny(&self) -> bool
        ensures { result ≡ is_deny self.now }
    {
        matches!(*self, AceType::Deny)
    }
}

/// An entry of an access control list (RFC 8881, section 6.2.1). It has only bits with a name, and
/// has the flag `IDENTIFIER_GROUP` exactly if it names a group.
#[derive(Clone, Copy, Debug, PartialEq, Eq)]
pub struct Ace {
    kind: AceType,
    flags: Flags,
    who: Who,
    mask: Mask,
}

/// An entry that allows the owner nothing: it fills the unused places of a list.
impl Default for Ace {
    ghost use Rattle.acl_nfs4.specs.declared.ace.AceType.TheVariants.{Allow};
    ghost use Rattle.acl_nfs4.specs.declared.who.Who.TheVariants.{Owner};

    /// An entry that allows the owner nothing.
    fn default() -> Ace
        ensures { result ≡ record { kind = Allow; flags = 0; who = Owner; mask = 0 } }
    {
        Ace {
            kind: AceType::Allow,
            flags: Flags::empty(),
            who: Who::Owner,
            mask: Mask::empty(),
        }
    }
}

impl Model for Ace {
    ghost use Rattle.acl_nfs4.specs.Ace.{Nfsace4, IsAce};
    ghost use Rattle.acl_nfs4.specs.Flags.{flag_bits};
    ghost use Rattle.acl_nfs4.specs.Mask.{mask_bits};

    ghost Value = { Nfsace4 };

    ghost view = { λ ace. record {
      kind = ace.kind;
      flags = flag_bits ace.flags;
      who = ace.who;
      mask = mask_bits ace.mask;
    } };

    ghost invariant = { λ ace. IsAce (record {
      kind = ace.kind;
      flags = flag_bits ace.flags;
      who = ace.who;
      mask = mask_bits ace.mask;
    }) };

    ghost inverse = { λ value. record {
      kind = value.kind;
      flags = record { 0 = value.flags };
      who = value.who;
      mask = record { 0 = value.mask };
    } };
}

impl Ace {
    ghost use Rattle.acl_nfs4.specs.Ace.{Nfsace4, IsAce, ace_of, decides, is_inheritable, is_idle};
    ghost use Rattle.acl_names.specs.Bits.{has, ◌∩◌};
    ghost use Rattle.acl_nfs4.specs.Flags.{all_flags, identifier_group};
    ghost use Rattle.acl_nfs4.specs.Mask.{all_masks};
    ghost use Rattle.acl_nfs4.specs.Who.{flags_of_who};

    /// Makes an entry of these parts. It sets `IDENTIFIER_GROUP` if `who` is a group by id and else
    /// clears it, and drops bits without a name.
    pub fn new(kind: AceType, flags: Flags, who: Who, mask: Mask) -> Ace
        ensures { result ≡ ace_of kind (flag_bits flags) who (mask_bits mask) }
    {
        let own = without(flags.named_bits(), Flags::IDENTIFIER_GROUP);
        Ace {
            kind,
            flags: own.union(who.flags()),
            who,
            mask: mask.named_bits(),
        }
    }

    /// Whether the entry allows, denies, audits or raises an alarm.
    pub fn kind(&self) -> AceType
        ensures { result ≡ self.now.kind }
    {
        self.kind
    }

    /// The flags, with `IDENTIFIER_GROUP` exactly if the entry names a group.
    pub fn flags(&self) -> Flags
        ensures value { flag_bits result ≡ self.now.flags }
        ensures ace { IsAce self.now }
    {
        self.flags
    }

    /// Whom the entry is for.
    pub fn who(&self) -> Who
        ensures { result ≡ self.now.who }
    {
        self.who
    }

    /// The bits that the entry allows, denies or watches.
    pub fn mask(&self) -> Mask
        ensures value { mask_bits result ≡ self.now.mask }
        ensures ace { IsAce self.now }
    {
        self.mask
    }

    /// Whether the entry allows or denies something on the file itself: it isn't inherit-only.
    #[tactic(auto, unfolding(crate::specs::Ace::decides))]
    pub(crate) fn decides(&self) -> bool
        ensures { result ≡ decides self.now }
    {
        let kind = self.kind;
        kind.decides() && !self.flags.has_inherit_only()
    }

    /// Whether new files or directories inherit the entry.
    pub(crate) fn is_inheritable(&self) -> bool
        ensures { result ≡ is_inheritable self.now }
    {
        let flags = self.flags;
        flags.has_file_inherit() || flags.has_directory_inherit()
    }

    /// Whether the entry has no effect, neither on the file itself nor on what inherits it.
    pub fn is_idle(&self) -> bool
        ensures { result ≡ is_idle self.now }
    {
        let flags = self.flags;
        flags.has_inherit_only() && !self.is_inheritable()
    }

    /// An entry with no flags but those that its `who` requires.
    pub(crate) fn plain_ace(kind: AceType, who: Who, mask: Mask) -> Ace
        requires { mask_bits mask ∩ all_masks ≡ mask_bits mask }
        ensures value { result ≡ record {
          kind = kind;
          flags = flags_of_who who;
          who = who;
          mask = mask_bits mask;
        } }
        ensures effective { is_idle result ≡ false }
    {
        let flags = who.flags();
        Ace {
            kind,
            flags,
            who,
            mask,
        }
    }

    /// The entry with these flags instead of its own.
    pub(crate) fn with_flags(&self, flags: Flags) -> Ace
        requires known { flag_bits flags ∩ all_flags ≡ flag_bits flags }
        requires group { has (flag_bits flags) identifier_group
            ≡ has self.now.flags identifier_group }
        ensures { result ≡ record self.now { flags = flag_bits flags } }
    {
        Ace {
            kind: self.kind,
            flags,
            who: self.who,
            mask: self.mask,
        }
    }

    /// The entry with this mask instead of its own.
    pub(crate) fn with_mask(&self, mask: Mask) -> Ace
        requires { mask_bits mask ∩ all_masks ≡ mask_bits mask }
        ensures { result ≡ record self.now { mask = mask_bits mask } }
    {
        Ace {
            kind: self.kind,
            flags: self.flags,
            who: self.who,
            mask,
        }
    }
}
