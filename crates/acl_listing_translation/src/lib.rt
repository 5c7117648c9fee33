//! `translate`: the files of a listing with NFSv4 lists.
#![tactic(auto)]

mod command;
mod escapes;
mod form;
mod laws;
mod lists;
mod printing;
mod reporter;

pub use command::Translate;
pub use laws::{
    attributes_in_numbers, translations_are_read_again, translations_change_nothing,
    translations_decide_alike,
};
