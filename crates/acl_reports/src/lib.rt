//! Reports on listings of real files, block by block, with a line on standard error for each block
//! that can't be evaluated.
#![tactic(auto)]

mod blocks;
mod counts;
mod endings;
mod files;
mod laws;
mod lines;
mod named;
mod next_block;
pub mod options;
mod rules;
mod sighting;
mod stranger;
mod strangers;
mod tally;

pub use blocks::{BlockReporter, push_fault, push_fault_at};
pub use counts::Counts;
pub use endings::{ending_of_both, with_difference};
pub use files::owners_and_list;
pub use laws::{closing_laws, output_laws};
pub use named::{INPUT, listing_field, report_named};
pub use next_block::advance;
pub use rules::rules_field;
pub use sighting::{Sighting, sighting_of};
pub use stranger::{Stranger, block_stranger, names_stranger};
pub use strangers::{FirstStranger, Strangers};
pub use tally::Tally;
