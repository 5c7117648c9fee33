//! Access control lists as bytes and as entries of numbers, as file servers hold them: the binary
//! form of Linux's extended attributes for POSIX lists, and the entries of NFSv4 lists.
#![tactic(auto)]

mod caller;
mod check;
mod compare;
mod creation;
mod decision;
mod deletion;
mod draft;
mod fault;
mod inheritance;
mod keeping;
mod laws;
mod mode_change;
mod numbers;
mod one_pass;
mod posix;
mod raw_ace;
mod raw_writing;
mod shown;
mod text;
mod values;
mod xattr_reading;
mod xattr_writing;
mod xdr;
mod xdr_entry;
mod xdr_names;
mod xdr_raws;
mod xdr_writing;

pub use acl_access::Rules;
pub use caller::Caller;
pub use check::xattr_grants;
pub use compare::{RawAsker, RawDifference, RawUnlike, raws_difference, xattr_difference};
pub use creation::{Making, acl4_of_mode, mode_made, write_created};
pub use decision::{Decided, raws_allow, raws_decide, raws_grant};
pub use deletion::{raws_delete, xattr_delete};
pub use fault::{Nfs4Error, Nfs4Fault, PosixError, PosixFault};
pub use inheritance::write_inherited;
pub use laws::{decision_laws, keeping_laws, wire_laws};
pub use mode_change::{ModeRule, write_with_mode};
pub use posix::{
    acl_of_mode, acl_of_xattr, xattr_at_creation, xattr_translated, xattr_translated_default,
    xattr_with_mode,
};
pub use raw_ace::{Purpose, RawAce, read_raw_aces};
pub use raw_writing::write_raw_aces;
pub use shown::raws_mode;
pub use text::{acl_of_text, acl4_of_text, raws_text, write_bytes, xattr_text};
pub use values::raws_fault;
pub use xattr_reading::read_xattr;
pub use xattr_writing::{XATTR_ENTRY_LEN, XATTR_HEADER_LEN, write_xattr};
pub use xdr::acl4_of_xdr;
pub use xdr_entry::put_xdr_entry;
pub use xdr_names::{BY_NAME, XdrPlace, xdr_next};
pub use xdr_raws::put_xdr_raws;
pub use xdr_writing::write_xdr;
