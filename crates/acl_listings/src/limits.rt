//! How long a block may be, and the bytes of paths and flags.
ghost use Rattle.std.specs.Prelude.{◌≡◌};
ghost use Rattle.acl_listings.specs.declared.file_flags.TheConstants.{ID_LETTER, STICKY_LETTER};
ghost use Rattle.acl_listings.specs.declared.limits.TheConstants.{MAX_BLOCK};
ghost use Rattle.acl_listings.specs.declared.way.TheConstants.{SLASH};
ghost use Rattle.acl_listings.specs.declared.window.TheConstants.{CAPACITY};

/// How many bytes a block may have, without the newline of its last line.
pub const MAX_BLOCK: usize = 65_536;

/// The limits as numbers. There is nothing to run here: a proof cites the contract.
pub fn limits_in_numbers()
    ensures block { MAX_BLOCK ≡ 65536 }
    ensures window { CAPACITY ≡ 131072 }
{}

/// The separator of a path's steps, `/`, and the letters of a file's flags, `s` and `t`, as
/// numbers. There is nothing to run here: a proof cites the contract.
pub fn bytes_in_numbers()
    ensures slash { SLASH ≡ 47 }
    ensures set_id { ID_LETTER ≡ 115 }
    ensures sticky { STICKY_LETTER ≡ 116 }
{}
