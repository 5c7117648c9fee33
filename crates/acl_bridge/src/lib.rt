//! The two styles of access control list, and the translation of POSIX lists to NFSv4 lists.
#![tactic(auto)]

mod any_acl;
pub mod bits;
mod comparison;
mod file_acl;
mod laws;
mod lists;
mod passes;
mod requests;
mod style;
mod translation;
mod whole_requests;

pub use any_acl::{AnyAcl, AnyAclRef};
pub use comparison::posix_difference;
pub use file_acl::FileAcl;
pub use laws::{default_translation_laws, posix_comparison_laws, translation_laws};
pub use lists::list_difference;
pub use requests::{Unlike, request_difference};
pub use style::Style;
pub use translation::{translate, translate_default};
pub use whole_requests::whole_request_difference;
