//! Faults of fields.
ghost use Rattle.std.specs.Prelude.{◌≡◌};

use acl_posix::AclFault;

/// What is wrong with a field of the words.
#[derive(Clone, Copy, Debug, PartialEq, Eq)]
pub enum FieldFault {
    /// An id isn't a decimal.
    BadId,
    /// There are more than 32 groups.
    TooMany,
    BadPerms,
    /// A text isn't a list.
    Acl(AclFault),
    /// No style of list has this name.
    BadStyle,
    /// An entry has no effect: it is inherit-only and not inherited.
    InheritOnly,
    /// No user has this name.
    UnknownUser,
    /// The user is uid 0, which is never evaluated.
    RootUser,
}

impl FieldFault {
    ghost use Rattle.acl_cli.specs.Faults.{field_fault_words};

    /// What follows `aclctl: ` on the fault line.
    pub fn words(&self) -> &'static str
        ensures { result.now ≡ field_fault_words self.now }
    {
        match self {
            FieldFault::BadId => "bad-id",
            FieldFault::TooMany => "too-many",
            FieldFault::BadPerms => "bad-perms",
            FieldFault::Acl(fault) => fault.word(),
            FieldFault::BadStyle => "bad-style",
            FieldFault::InheritOnly => "inherit-only",
            FieldFault::UnknownUser => "unknown-name",
            FieldFault::RootUser => "root",
        }
    }
}
