//! The service: many sessions on one tree, and the command `run`, over any words, readers and
//! writers.
#![tactic(auto)]

mod files;
mod laws;
mod one;
mod run_command;
mod served;
mod sessions;
mod setups;

pub use acl_cli::session_files::setup_field;
pub use acl_cli::{CapFault, ErrorOutput, RunFault, WordsFault, read_capped, words_of, write_text};
pub use acl_runs::{Gate, OpenGate, ServeFault};
pub use files::{OpenFiles, Texts, read_texts};
pub use laws::{
    journal_explains_every_answer, one_session_is_served_as_alone, run_statuses_report_the_words,
};
pub use one::{OneFault, apply_text, run_one};
pub use run_command::{RunLine, SESSION_WORDS, run, run_texts, session_names};
pub use served::Served;
pub(crate) use served::ServedInPrint;
pub use sessions::{Report, serve, serve_rounds};
pub use setups::open_setup;
