//! What the tests of all crates share: the users and groups of the worked examples, lists that
//! texts spell, and a count of failed allocations. No part of the service.
#![tactic(auto)]

mod lists;
mod office;
mod refusals;

pub use lists::{acl, acl4};
pub use office::{directory, group, groups, user, users};
pub use refusals::Refusals;
