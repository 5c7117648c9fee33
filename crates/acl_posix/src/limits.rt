//! How many entries a list may have, and how long its lines are.
ghost use Rattle.std.specs.Prelude.{◌≡◌};
ghost use Rattle.acl_posix.specs.declared.limits.TheConstants.{INLINE_ENTRIES, MAX_ENTRIES};
ghost use Rattle.acl_posix.specs.declared.limits.TheConstants.{MAX_DEFAULT_LINE, MAX_LINE};
ghost use Rattle.acl_posix.specs.declared.limits.TheConstants.{MAX_SHORT_ENTRY};

/// How many entries an access control list may have.
pub const MAX_ENTRIES: usize = 64;

/// How many entries a list stores inline; a longer list has all of them on the heap.
pub const INLINE_ENTRIES: usize = 8;

/// How many bytes a printed line may have: a word and a colon, a name, a colon and permissions, a
/// mark, and a newline.
pub const MAX_LINE: usize = 58;

/// How many bytes a printed line of a default list may have, with its `default:`.
pub const MAX_DEFAULT_LINE: usize = 66;

/// How many bytes an entry may have in the short text form: a letter and a colon, a decimal, a
/// colon and permissions, and a comma.
pub const MAX_SHORT_ENTRY: usize = 17;

/// The limits as numbers. There is nothing to run here: a proof cites the contract.
pub fn limits_in_numbers()
    ensures entries { MAX_ENTRIES ≡ 64 }
    ensures inline { INLINE_ENTRIES ≡ 8 }
    ensures line { MAX_LINE ≡ 58 }
    ensures default_line { MAX_DEFAULT_LINE ≡ 66 }
    ensures short_entry { MAX_SHORT_ENTRY ≡ 17 }
{}
