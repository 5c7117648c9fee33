//! Who may do what with a file, and for whom that changes with the file's owners and list, of
//! either style.
#![tactic(auto)]

mod allowed;
mod anybody;
mod changes;
mod laws;
mod letters;
mod marks;
mod path;
mod rules;
mod same;
mod standing;
mod who;

pub use anybody::change_for_anybody;
pub use changes::{Change, change_for};
pub use laws::{change_laws, letter_laws};
pub use letters::{LetterSet, effective, granted_mask};
pub use marks::{both, is_set, letters_at, letters_of_each, places_of_those_who_may, which_may};
pub use path::{PrintedPath, push_printed_path};
pub use rules::{Rules, evaluated_by};
pub use same::is_same_file;
pub use standing::{
    Standing, deletes, deletes_by, places_of_takers, standing_of, standings_of_each,
};
pub use who::{push_letters_line, push_may_line};
