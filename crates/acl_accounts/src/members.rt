//! The members of a group.

ghost use Rattle.std.specs.Prelude.{◌≡◌, [], ◌∷◌, MatchOption, IfNone, option_map};
ghost use Rattle.acl_accounts.specs.Rows.{members_of, number_alone};

use crate::rows::is_numeric;
use crate::space::skip_space;
use acl_names::Parts;
use std::marker::Model;

/// The names of a group's members that are still to come. A contract sees the list of them.
#[derive(Drop)]
pub(crate) struct Members<'a> {
    parts: Parts<'a>,
}

impl<'a> Model for Members<'a> {
    ghost use Rattle.std.specs.Prelude.{ℕ, List};
    ghost use Rattle.acl_accounts.specs.Rows.{members_of_parts};

    ghost Value = { List (List ℕ) };

    ghost view = { λ inside. members_of_parts inside.parts };
}

impl<'a> Members<'a> {
    /// The names between the commas of a field.
    pub(crate) fn new(field: &'a [u8]) -> Members<'a>
        ensures { result ≡ members_of field.now }
    {
        Members {
            parts: Parts::new(b',', field),
        }
    }

    /// Takes the next name; `None` after the last one, in each later call too.
    pub(crate) fn next(&mut self) -> Option<&'a [u8]>
        ensures name { MatchOption result (self.old ≡ []) (λ name. self.old ≡ name.now ∷ self.new) }
        ensures end { IfNone result (self.new ≡ []) }
    {
        loop {
            let name = skip_space(self.parts.next()?);
            if !name.is_empty() {
                return Some(name);
            }
        }
    }
}

/// The only member of a group, if it is a number.
pub(crate) fn number_alone(field: &[u8]) -> Option<&[u8]>
    ensures { option_map (λ name. name.now) result ≡ number_alone (members_of field.now) }
{
    let mut members = Members::new(field);
    let name = members.next()?;
    if members.next().is_none() && is_numeric(name) {
        Some(name)
    } else {
        None
    }
}
