//! `impact` of two listings.

mod asked;
mod changed;
mod command;
mod concerned;
mod reporter;

pub use asked::push_person_at;
pub use command::{each_has_a_line, report_impact};
