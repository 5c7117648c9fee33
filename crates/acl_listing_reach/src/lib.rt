//! Changes between two listings of real files by reach: who gains or loses what on each file, if
//! access counts only for users who may also search each parent folder.
#![tactic(auto)]

mod answered;
mod between;
mod command;
mod known;
mod laws;
mod lines;
mod misfit;
mod report;

pub use command::Impact;
pub use laws::reach_laws;
