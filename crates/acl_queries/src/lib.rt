//! Queries about access control lists by themselves, from the words of a command line to the
//! printed answer: who may do what (`decide`), why (`explain`), and who gains or loses what between
//! two lists (`compare`).
#![tactic(auto)]

mod command;
mod compare_command;
mod decide_command;
mod explain_command;
mod explanation;
mod laws;
mod reasons;

pub use command::{answer_line, empty_directory, push_bits, push_gids};
pub use compare_command::Compare;
pub use decide_command::Decide;
pub use explain_command::Explain;
pub use explanation::{Class, class_of, first_speaker, lacks};
pub use laws::{
    alike_lists_differ_for_nobody, explanation_laws, statuses_are_those_of_the_words,
    words_ask_what_they_give,
};
pub use reasons::{FileRequest, push_bit, push_reasons};
