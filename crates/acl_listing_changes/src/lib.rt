//! Changes between two listings of real files: who gains or loses access, and what restores the
//! files.
#![tactic(auto)]

mod between;
mod impact;
mod impact_lines;
mod laws;
mod restore;

pub use between::{after_field, before_field, is_input_twice, open_listing, unless_repeated};
pub use impact::{each_has_a_line, push_person_at, report_impact};
pub use impact_lines::{push_apart, push_path};
pub use laws::alike_laws;
pub use restore::{Restore, restore_brings_back};
