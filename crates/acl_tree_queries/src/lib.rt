//! A setup's tree, or what sessions leave on it, printed from the words of a command line: as a
//! listing, of which the other commands ask (`list`), and as the session that makes it again
//! (`dump`); and its users and groups as an accounts file (`accounts`).
#![tactic(auto)]

mod accounts_command;
mod answering;
mod dump_command;
mod laws;
mod list_command;
mod setup_tree;

pub use accounts_command::Accounts;
pub use dump_command::Dump;
pub use laws::{accounts_laws, draft_laws, dump_laws, list_laws};
pub use list_command::List;
