//! Why a setup is refused.
ghost use Rattle.std.specs.Prelude.{◌≡◌, Some};
ghost use Rattle.acl_setup.specs.SetupFaults.{parts_fault_words};
ghost use Rattle.acl_setup.specs.declared.fault.SetupError.TheVariants.{Memory};

use crate::key::Key;
use crate::spot::Spot;
use acl_names::SetupFault;
use std::alloc::{AllocError, AllocFailed};
use std::fmt;
use thiserror::Error;

/// Why a setup is refused, and where. It is displayed as the words after `aclctl: setup: `, which
/// don't name the place.
#[derive(Clone, Copy, Debug, PartialEq, Eq, Error)]
pub enum SetupError {
    /// The bytes aren't a TOML document; the fault is at this spot.
    NotToml(Spot),
    /// The key is missing, or its value has another type or is out of its range.
    BadField(Key),
    /// The users and groups can't make a directory; this is the first key with the fault. It is
    /// never `SetupFault::Memory`.
    Parts(SetupFault, Key),
    Memory,
}

impl fmt::Display for SetupError {
    ghost use Rattle.acl_setup.specs.SetupFaults.{setup_error_words};

    ghost output = { λ error. Some (setup_error_words error) };

    fn fmt<W: fmt::Write>(&self, f: &mut fmt::Formatter<W>) -> fmt::Result {
        f.write_str(self.words())
    }
}

impl SetupError {
    ghost use Rattle.acl_setup.specs.SetupFaults.{setup_error_words};

    /// What follows `aclctl: setup: ` on the fault line.
    pub fn words(&self) -> &'static str
        ensures { result.now ≡ setup_error_words self.now }
    {
        match self {
            SetupError::NotToml(_) => "not toml",
            SetupError::BadField(_) => "bad field",
            SetupError::Parts(fault, _) => parts_words(*fault),
            SetupError::Memory => "memory",
        }
    }
}

/// The words for users and groups that can't make a directory.
fn parts_words(fault: SetupFault) -> &'static str
    ensures { result.now ≡ parts_fault_words fault }
{
    match fault {
        SetupFault::BadName => "bad name",
        SetupFault::RepeatedName => "repeated name",
        SetupFault::RepeatedId => "repeated id",
        SetupFault::UnknownGroup => "unknown group",
        SetupFault::TooMany => "too many",
        SetupFault::Memory => "memory",
    }
}

impl From<AllocError> for SetupError {
    ghost from_gives = { λ _ becomes. becomes ≡ Memory };

    fn from(_refused: AllocError) -> SetupError {
        SetupError::Memory
    }
}

impl<T: Drop> From<AllocFailed<T>> for SetupError {
    ghost from_gives = { λ _ becomes. becomes ≡ Memory };

    fn from(_refused: AllocFailed<T>) -> SetupError {
        SetupError::Memory
    }
}
