//! `why` of a listing.

mod answer;
mod asked;
mod command;
mod deletion;
mod folders;
mod path_word;
mod question;
mod search;
mod text;
mod way;

pub use command::Why;
