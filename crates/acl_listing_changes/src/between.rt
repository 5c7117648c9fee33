//! The report on two listings, one before and one after.

mod changes;
mod faults;
mod kept;
mod known;
mod marks;
mod named;
mod opening;
mod progress;
mod reporter;
mod seen;
mod sides;

pub use faults::unless_repeated;
pub(crate) use known::{Known, found_by};
pub(crate) use named::report_between;
pub use named::{after_field, before_field, is_input_twice, open_listing};
pub(crate) use reporter::{ChangeReporter, Found};
