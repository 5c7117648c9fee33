//! Where the members of a list are, by their names and their ids.

ghost use Rattle.std.specs.Prelude.{◌≡◌, ◌==◌, ℕ, IfOk, nat_eq};
ghost use Rattle.std.specs.HashMap.{get};
ghost use Rattle.std.specs.List.{position};

use crate::guesses::guesses_of;
use crate::named::Named;
use crate::places::{Numbered, places_by_id};
use std::alloc::{AllocError, Global};
use std::collections::HashMap;

/// Where the members of a list are.
#[derive(Debug, Drop)]
pub(crate) struct Index {
    /// Guesses of the members' places by their names.
    pub(crate) guesses: Vec<u32>,
    /// The place of the first member with each id.
    pub(crate) places: HashMap<u32, usize>,
}

impl Index {
    /// The index of these members.
    pub(crate) fn new<T: Named + Numbered>(
        alloc: Global,
        members: &[T],
    ) -> Result<Index, AllocError>
        ensures { IfOk result (λ index. (id : ℕ) → get nat_eq index.places id
            ≡ position (λ member. T.id_of member == id) members.now) }
    {
        let guesses = guesses_of(alloc, members)?;
        let places = places_by_id(alloc, members)?;
        Ok(Index { guesses, places })
    }
}
