//! The setup: a TOML file with users and groups, and the root with which a tree starts. It doesn't
//! depend on sessions and threads.
#![tactic(auto)]

mod fault;
mod fields;
mod key;
mod laws;
mod parts;
mod repeats;
mod setup;
mod spot;
mod value;

pub use fault::SetupError;
pub use key::Key;
pub use laws::setup_laws;
pub use setup::read_setup;
pub use spot::Spot;
