//! NFSv4 access control lists, after RFC 8881, sections 6.2 to 6.4: ordered evaluation, the mode of
//! a list, setting a mode without losing what the administrator wrote, inheritance, and the text
//! form of this project.
#![tactic(auto)]

mod ace;
mod acl;
mod allowed;
mod comparison;
mod domain;
mod draft;
mod evaluation;
mod flags;
mod front;
mod inheritance;
mod laws;
mod letter_bits;
mod letters;
mod limits;
mod marks;
mod mask;
mod mode;
mod mode_change;
mod named;
mod owners;
mod pairs;
mod printing;
mod reading;
mod short;
mod who;

pub use ace::{Ace, AceType};
pub use acl::{AceFault, Acl4};
pub use comparison::Difference;
pub use domain::NamesInDomain;
pub use flags::Flags;
pub use inheritance::Kind;
pub use laws::{
    comparison_laws, faults_of_pieces, letters_are_distinct, mask_laws, mode_laws,
    pieces_have_shapes,
};
pub use letters::{push_mask, read_letters};
pub use limits::{INLINE_ACES, MAX_ACES, limits_in_numbers};
pub use mask::{Mask, mask_of, rest_of};
pub use mode_change::Fault4;
pub use named::named_who;
pub use owners::Owners;
pub use pairs::{AboutWho, Compared, difference_by_pairs, difference_with, is_known, stranger};
pub use printing::push_ace;
pub use reading::{
    NamedAceReader, PieceFault, read_aces, read_aces_by, read_aces_with, refuse_idle,
};
pub use short::push_short_ace;
pub use who::Who;
