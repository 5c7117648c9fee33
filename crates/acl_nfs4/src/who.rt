//! Whom an entry is for (RFC 8881, section 6.2.1.5).
ghost use Rattle.std.specs.Prelude.{◌≡◌};
ghost use Rattle.acl_nfs4.specs.Flags.{flag_bits};

use crate::Flags;
use acl_names::{Gid, Subject, Uid};
use bitflags::Flags as FlagSet;

/// Whom an entry is for (RFC 8881, section 6.2.1.5).
#[derive(Clone, Copy, Debug, PartialEq, Eq)]
pub enum Who {
    /// `OWNER@`: the file's owner.
    Owner,
    /// `GROUP@`: everybody in the file's group.
    Group,
    /// `EVERYONE@`: everybody, the owner and the group included.
    Everyone,
    /// A user by id.
    User(Uid),
    /// Everybody in a group by id.
    NamedGroup(Gid),
}

impl Who {
    ghost use Rattle.acl_nfs4.specs.Who.{matches, is_special, same_who, flags_of_who};

    /// Whether an entry for this `who` applies to the subject, for a file of this owner and this
    /// group. Users come first: long lists are mostly about them.
    pub(crate) fn matches<S: Subject>(&self, owner: Uid, group: Gid, subject: &S) -> bool
        ensures { result ≡ matches owner group (S.identity subject.now) self.now }
    {
        if let Who::User(uid) = *self {
            return subject.uid() == uid;
        }
        self.matches_any(owner, group, subject)
    }

    /// `matches` for any kind of `who`. Never inlined, so that the common test for a user is one
    /// comparison at the call.
    #[inline(never)]
    fn matches_any<S: Subject>(&self, owner: Uid, group: Gid, subject: &S) -> bool
        ensures { result ≡ matches owner group (S.identity subject.now) self.now }
    {
        match *self {
            Who::Owner => subject.uid() == owner,
            Who::Group => subject.is_in_group(group),
            Who::Everyone => true,
            Who::User(uid) => subject.uid() == uid,
            Who::NamedGroup(gid) => subject.is_in_group(gid),
        }
    }

    /// Whether this is one of `OWNER@`, `GROUP@` and `EVERYONE@`.
    pub(crate) fn is_special(&self) -> bool
        ensures { result ≡ is_special self.now }
    {
        match *self {
            Who::Owner => true,
            Who::Group => true,
            Who::Everyone => true,
            Who::User(_) => false,
            Who::NamedGroup(_) => false,
        }
    }

    /// Whether both are equal: `==`, with a clause that proofs can cite.
    pub(crate) fn is(&self, other: &Who) -> bool
        ensures { result ≡ same_who self.now other.now }
    {
        *self == *other
    }

    /// The flags that an entry for this `who` requires.
    pub(crate) fn flags(&self) -> Flags
        ensures { flag_bits result ≡ flags_of_who self.now }
    {
        match *self {
            Who::Owner => Flags::empty(),
            Who::Group => Flags::empty(),
            Who::Everyone => Flags::empty(),
            Who::User(_) => Flags::empty(),
            Who::NamedGroup(_) => Flags::IDENTIFIER_GROUP,
        }
    }
}
