//! Who may do what with the files of a listing, and why.
#![tactic(auto)]

mod above;
mod beginning;
mod laws;
mod places;
mod roots;
mod who;
mod why;

pub use laws::{deletion_laws, limits_in_numbers, output_laws, path_laws, via_laws, way_laws};
pub use places::{PLACES, place_for_text};
pub use who::{ReachReporter, Who, letters_by_reach};
pub use why::Why;
