//! `restore` of two listings.

mod command;
mod laws;
mod no_names;
mod reporter;

pub use command::Restore;
pub use laws::restore_brings_back;
