//! The users and groups of a host, and the users to evaluate.
#![tactic(auto)]

mod elsewhere;
mod everyone;
mod host;
pub mod options;
mod people;
mod person;
mod written;

pub use elsewhere::people_elsewhere;
pub use host::{Host, read_host, read_other_host};
pub use people::{People, read_people, user_fields};
pub use person::Person;
