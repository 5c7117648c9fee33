//! What is known of the blocks before, so that those which the listing after has unchanged aren't
//! read again.
ghost use Rattle.std.specs.Prelude.{◌≡◌, IfSome, None};
ghost use Rattle.acl_listing_changes.specs.ChangeSteps.{found_by, known_at, known_by};

use super::reporter::Found;

/// What is known of a block before.
#[derive(Clone, Copy, Debug, PartialEq, Eq)]
pub(crate) enum Known {
    /// It may have a fault.
    Nothing,
    /// It has no fault, and names no id without an account.
    Plain,
    /// It has no fault, and names an id without an account.
    Strange,
}

/// What is known of a block in which this was found.
pub(super) fn known_by(found: Found) -> Known
    ensures { result ≡ known_by found.fault found.strange }
{
    match found.fault {
        Some(_) => Known::Nothing,
        None if found.strange => Known::Strange,
        None => Known::Plain,
    }
}

/// What is found in a block of which this is known: no fault. `None` if it may have one.
pub(crate) fn found_by(known: Known) -> Option<Found>
    ensures known { result ≡ found_by known }
    ensures plain { IfSome result (λ found. found.fault ≡ None) }
{
    match known {
        Known::Nothing => None,
        Known::Plain => Some(Found {
            fault: None,
            strange: false,
        }),
        Known::Strange => Some(Found {
            fault: None,
            strange: true,
        }),
    }
}

/// What is known of the block at the place, if there is one.
pub(super) fn known_at(all: &[Known], place: Option<usize>) -> Known
    ensures { result ≡ known_at all.now place }
{
    match place {
        Some(place) => all.get(place).copied().unwrap_or(Known::Nothing),
        None => Known::Nothing,
    }
}
