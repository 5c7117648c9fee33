//! POSIX access control lists, after 1003.1e draft 17, section 23: entries, valid lists, the access
//! check, and modes.
#![tactic(auto)]

mod acl;
mod acl_text;
mod bits;
mod entries;
mod entry;
mod front;
mod kinds;
mod laws;
mod limits;
mod mode;
mod perms;
mod printing;
mod reading;
mod short;
mod sorted_copy;

pub use acl::{Acl, Invalid, entries_grant, entries_grant_on_linux};
pub use acl_text::{AclFault, ReadAclFault, read_acl};
pub use bits::{bits_if, without};
pub use entries::{Entries, TextFault};
pub use entry::{Entry, Tag};
pub use laws::{faults_of_pieces, linux_laws, pieces_have_shapes};
pub use limits::{
    INLINE_ENTRIES, MAX_DEFAULT_LINE, MAX_ENTRIES, MAX_LINE, MAX_SHORT_ENTRY, limits_in_numbers,
};
pub use mode::Mode;
pub use perms::{Perms, read_perms};
pub use printing::{push_entry, push_perms};
pub use reading::{EntryReader, PieceFault, read_entries};
