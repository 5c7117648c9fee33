//! Why a text isn't accounts.

ghost use Rattle.std.specs.Prelude.{◌≡◌};
ghost use Rattle.acl_accounts.specs.declared.fault.AccountsFault.TheVariants.{Memory};

use std::alloc::{AllocError, AllocFailed};

/// Why a text isn't accounts.
#[derive(Clone, Copy, Debug, PartialEq, Eq)]
pub enum AccountsFault {
    /// The line of this number, from 1, is neither a user nor a group nor a line to skip; or it is
    /// the rest of a user's line.
    BadAccount(usize),
    /// There are more users or groups than `MAX_ACCOUNT_USERS` or `MAX_ACCOUNT_GROUPS`, or more
    /// bytes than `MAX_ACCOUNTS_TEXT`.
    TooMany,
    /// Memory ran out.
    Memory,
}

impl<T: Drop> From<AllocFailed<T>> for AccountsFault {
    ghost from_gives = { λ _ fault. fault ≡ Memory };

    fn from(_refused: AllocFailed<T>) -> AccountsFault {
        AccountsFault::Memory
    }
}

impl From<AllocError> for AccountsFault {
    ghost from_gives = { λ _ fault. fault ≡ Memory };

    fn from(_refused: AllocError) -> AccountsFault {
        AccountsFault::Memory
    }
}
