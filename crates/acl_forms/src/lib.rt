//! The forms in which tools print NFSv4 access control lists: recognising a text's form, and the
//! form of FreeBSD and libarchive, `tag:perms:flags:type`.
#![tactic(auto)]

mod fields;
mod form;
mod laws;
mod marks;
mod printing;
mod reading;
mod short;
mod tags;

pub use form::{Form, form_of};
pub use laws::entries_have_shapes;
pub use marks::push_perms;
pub use printing::{Places, print_entries, push_entry};
pub use reading::{EntryReader, read_entries, read_entry};
pub use short::push_short_entry;
