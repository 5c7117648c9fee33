//! The rules of access control lists.

ghost use Rattle.std.specs.Prelude.{◌≡◌};
ghost use Rattle.acl_listings.specs.Rules.{lacks, missing_of};

use acl_posix::{Entry, Tag};

/// A rule of access control lists that a block's entries break.
#[derive(Clone, Copy, Debug, PartialEq, Eq)]
pub enum Rule {
    /// There is no entry for the owner.
    NoOwner,
    /// There is no entry for the file's group.
    NoGroup,
    /// There is no entry for the others.
    NoOther,
    /// Two entries are for the same class, user or group, or are both masks.
    Twice,
    /// There is an entry for a user or a group by id, and no mask.
    NoMask,
}

impl Rule {
    ghost use Rattle.acl_listings.specs.Rules.{rule_word};

    /// The word by which commands report it.
    pub fn word(self) -> &'static str
        ensures { result.now ≡ rule_word self }
    {
        match self {
            Rule::NoOwner => "no-owner",
            Rule::NoGroup => "no-group",
            Rule::NoOther => "no-other",
            Rule::Twice => "twice",
            Rule::NoMask => "no-mask",
        }
    }
}

/// Whether none of the entries has the tag.
fn lacks(entries: &[Entry], tag: &Tag) -> bool
    ensures { result ≡ lacks tag.now entries.now }
{
    for entry in entries {
        if entry.tag == *tag {
            return false;
        }
    }
    true
}

/// The first that is missing of the three entries that every list must have.
pub(crate) fn missing_of(entries: &[Entry]) -> Rule
    ensures { result ≡ missing_of entries.now }
{
    if lacks(entries, &Tag::UserObj) {
        Rule::NoOwner
    } else if lacks(entries, &Tag::GroupObj) {
        Rule::NoGroup
    } else {
        Rule::NoOther
    }
}
