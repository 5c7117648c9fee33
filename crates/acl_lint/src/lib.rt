//! The command `lint` for setups and sessions: what is wrong with them, and where, before they run.
#![tactic(auto)]

mod answer;
mod command_line;
mod laws;
mod line;
mod lint_command;
mod piece;
mod place;
mod sessions;
mod setup;

pub use laws::lint_laws;
pub use lint_command::Lint;
