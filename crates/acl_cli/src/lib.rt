//! The shell of all commands: words, options and fields, files, output, failures, and the function
//! that runs a command and reports how it ended.
#![tactic(auto)]

mod command;
mod command_line;
mod error_output;
mod failure;
mod field_fault;
pub mod fields;
pub mod ids;
mod input;
mod malformed;
mod misuse;
mod open_files;
pub mod options;
mod output;
mod perms;
mod pieces;
mod reason;
mod refusal;
mod reporting;
mod run_fault;
pub mod session_files;
mod tip;
mod usage;
mod word;
mod words;

pub use command::{Command, Ending, run_command};
pub use command_line::{CommandLine, Line, parse};
pub use error_output::ErrorOutput;
pub use failure::Failure;
pub use field_fault::FieldFault;
pub use input::{CapFault, read_capped, read_file, read_named};
pub use malformed::{Malformed, Place};
pub use misuse::Misuse;
pub use open_files::OpenFiles;
pub use output::write_text;
pub use perms::{optional_perms_field, perms_field};
pub use pieces::send_full;
pub use reason::Reason;
pub use refusal::Refusal;
pub use reporting::{Reporting, report_each};
pub use run_fault::RunFault;
pub use usage::wrong_usage;
pub use word::{Given, Word};
pub use words::{WordsFault, words_of};
