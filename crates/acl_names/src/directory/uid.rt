//! The numbers of users.

ghost use Rattle.std.specs.Prelude.{◌≡◌, ℕ, ◌≤◌, nat_le, if◌then◌else◌};
ghost use Rattle.acl_names.specs.declared.limits.TheConstants.{MAX_ID};

use crate::limits::MAX_ID;
use std::marker::Model;

/// A user's number.
#[derive(Clone, Copy, Debug, PartialEq, Eq, PartialOrd, Ord)]
pub struct Uid {
    number: u32,
}

impl Model for Uid {
    ghost Value = { ℕ };

    ghost view = { λ id. id.number };

    ghost invariant = { λ id. id.number ≤ MAX_ID };

    ghost inverse = { λ n. record { number = n } };
}

impl Uid {
    /// The uid with this number; `None` above `MAX_ID`.
    pub fn new(number: u32) -> Option<Self>
        ensures { result ≡ (if nat_le number MAX_ID then Some number else None) }
    {
        if number <= MAX_ID {
            Some(Uid { number })
        } else {
            None
        }
    }

    /// Its number.
    pub fn value(self) -> u32
        ensures value { result ≡ self }
        ensures in_range { result ≤ MAX_ID }
    {
        self.number
    }
}
