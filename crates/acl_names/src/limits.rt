//! Limits of directories and names, and how many bytes of a line are shown.
ghost use Rattle.std.specs.Prelude.{◌≡◌};
ghost use Rattle.acl_names.specs.declared.limits.TheConstants.{MAX_USERS, MAX_GROUPS};
ghost use Rattle.acl_names.specs.declared.limits.TheConstants.{MAX_GROUPS_OF_USER, MAX_NAME_LEN};
ghost use Rattle.acl_names.specs.declared.limits.TheConstants.{MAX_DOMAIN_LEN, MAX_ID, MAX_DIGITS};
ghost use Rattle.acl_names.specs.declared.limits.TheConstants.{MAX_SHOWN, NOBODY};

/// How many users a directory may have.
pub const MAX_USERS: usize = 1024;

/// How many groups a directory may have.
pub const MAX_GROUPS: usize = 1024;

/// How many groups a user may be in.
pub const MAX_GROUPS_OF_USER: usize = 32;

/// How many bytes a user's or group's name may have.
pub const MAX_NAME_LEN: usize = 32;

/// How many bytes a domain may have.
pub const MAX_DOMAIN_LEN: usize = 255;

/// The greatest uid or gid. The next number means "no id" to `chown`, and no user has it.
pub const MAX_ID: u32 = 4_294_967_294;

/// How many digits an id may have.
pub const MAX_DIGITS: usize = 10;

/// The uid that systems give to the user `nobody`. A search for a uid that no list names begins
/// here.
pub const NOBODY: u32 = 65534;

/// How many bytes of a line are shown at most.
pub const MAX_SHOWN: usize = 200;

/// The limits as numbers. There is nothing to run here: a proof cites the contract.
pub fn limits_in_numbers()
    ensures users { MAX_USERS ≡ 1024 }
    ensures groups { MAX_GROUPS ≡ 1024 }
    ensures groups_of_user { MAX_GROUPS_OF_USER ≡ 32 }
    ensures names { MAX_NAME_LEN ≡ 32 }
    ensures domains { MAX_DOMAIN_LEN ≡ 255 }
    ensures ids { MAX_ID ≡ 4294967294 }
    ensures digits { MAX_DIGITS ≡ 10 }
    ensures nobody { NOBODY ≡ 65534 }
    ensures shown { MAX_SHOWN ≡ 200 }
{}
