//! `lint` of a listing of real files: what in it is wrong, or of no use, and where.
#![tactic(auto)]

mod aces;
mod block;
mod command;
mod deletions;
mod entries;
mod found;
mod from_default;
mod laws;
mod masked;
mod no_account;
mod no_effect;
mod pending;
mod report;
mod seen;

pub use command::LintListing;
pub use laws::{anybody_deletes, creation_laws};
