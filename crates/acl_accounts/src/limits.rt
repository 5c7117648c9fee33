//! Limits of an accounts file.
ghost use Rattle.std.specs.Prelude.{◌≡◌};
ghost use Rattle.acl_accounts.specs.declared.limits.TheConstants.{MAX_ACCOUNT_USERS};
ghost use Rattle.acl_accounts.specs.declared.limits.TheConstants.{MAX_ACCOUNT_GROUPS};
ghost use Rattle.acl_accounts.specs.declared.limits.TheConstants.{MAX_ACCOUNT_NAME};
ghost use Rattle.acl_accounts.specs.declared.limits.TheConstants.{MAX_ACCOUNTS_TEXT};

/// How many lines of users there may be.
pub const MAX_ACCOUNT_USERS: usize = 65_536;

/// How many lines of groups there may be.
pub const MAX_ACCOUNT_GROUPS: usize = 65_536;

/// How many bytes a name may have.
pub const MAX_ACCOUNT_NAME: usize = 255;

/// How many bytes an accounts file may have.
pub const MAX_ACCOUNTS_TEXT: usize = 16_777_216;

/// The limits as numbers. There is nothing to run here: a proof cites the contract.
pub fn limits_in_numbers()
    ensures users { MAX_ACCOUNT_USERS ≡ 65536 }
    ensures groups { MAX_ACCOUNT_GROUPS ≡ 65536 }
    ensures name { MAX_ACCOUNT_NAME ≡ 255 }
    ensures text { MAX_ACCOUNTS_TEXT ≡ 16777216 }
{}
