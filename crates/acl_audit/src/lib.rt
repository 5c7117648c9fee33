//! Dumping trees: the commands that make one again.
#![tactic(auto)]

mod dump;
mod laws;

pub use dump::{close, push_creation, push_lists};
pub use laws::{check_laws, dump_laws};
