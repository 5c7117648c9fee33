//! What the commands share: lists in fields, and making an answer before writing it.

pub(crate) mod acl;
pub(crate) mod answer;
pub(crate) mod change_text;
pub(crate) mod list;
pub(crate) mod query;

pub use acl::empty_directory;
pub use answer::answer_line;
pub use change_text::{push_bits, push_gids};
