//! `next`: the file that a user would create in each folder of a listing.
#![tactic(auto)]

mod command;
mod created;
mod creation;
mod laws;
mod lists;
mod maker;
mod modes;
mod reporter;

pub use command::Next;
pub use laws::{each_folder_is_reported, trees_create_alike, what_is_reported_is_read_again};
