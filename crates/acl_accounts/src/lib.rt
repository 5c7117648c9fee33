//! Accounts: the users and groups of a host, as `getent` prints them, and names as `getfacl` writes
//! them.
#![tactic(auto)]

mod account;
mod accounts;
mod fault;
mod group;
mod guesses;
mod index;
mod laws;
mod limits;
mod members;
mod memberships;
mod named;
mod places;
mod quoting;
mod requesters;
mod rows;
mod space;
mod written;

pub use account::Account;
pub use accounts::Accounts;
pub use fault::AccountsFault;
pub use group::AccountGroup;
pub use laws::{lines_have_shapes, rows_are_read_again};
pub use limits::{
    MAX_ACCOUNT_GROUPS, MAX_ACCOUNT_NAME, MAX_ACCOUNT_USERS, MAX_ACCOUNTS_TEXT, limits_in_numbers,
};
pub use quoting::{first_unquoted, is_pair, octal_front, push_name};
pub use written::{WrittenAccount, is_account_name};
