//! `who` of a listing.

mod answers;
mod asked;
mod command;
mod decided;
mod lines;
mod listed;
mod numbered;
mod numbers;
mod reach;
mod via;
mod way;

pub use command::Who;
pub use numbered::letters_by_reach;
pub use reach::ReachReporter;
