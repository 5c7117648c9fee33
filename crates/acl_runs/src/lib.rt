//! Runs of sessions over any service: each session's requests go through a broker into one journal,
//! and its answers are printed. Two traits define a session's requests, and how replies are printed
//! and which of them are errors.
#![tactic(auto)]

mod error_limits;
mod gate;
mod idle;
mod printed;
mod replies;
mod report;
mod request_source;
mod rounds;
mod serving;
mod stop;
mod taking;
mod worker;
mod workers;

pub(crate) use error_limits::ErrorLimits;
pub use gate::{Gate, OpenGate};
pub(crate) use idle::Idle;
pub(crate) use printed::Printed;
pub use replies::Replies;
pub use report::RunReport;
pub use request_source::RequestSource;
pub use rounds::serve_in_rounds;
pub use serving::serve_sessions;
pub use stop::ServeFault;
pub(crate) use stop::Stop;
pub(crate) use worker::{Finished, Setting, work};
