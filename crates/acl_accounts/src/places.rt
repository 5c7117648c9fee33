//! The place of the member with an id, and the member at a place.

ghost use Rattle.std.specs.Prelude.{◌≡◌, ◌==◌, ℕ, IfOk, find, nat_eq, slice_get};
ghost use Rattle.std.specs.HashMap.{get};
ghost use Rattle.std.specs.List.{position};
ghost use Rattle.std.specs.Option.{option_and_then, option_copied};

use crate::account::Account;
use crate::group::AccountGroup;
use std::alloc::{AllocError, Global};
use std::collections::HashMap;

/// A member with an id.
pub(crate) trait Numbered {
    ghost id_of: { Self → ℕ };

    fn id(&self) -> u32
        ensures { result ≡ id_of self.now };
}

impl Numbered for Account {
    ghost id_of = { λ user. user.uid };

    fn id(&self) -> u32 {
        self.uid().value()
    }
}

impl Numbered for AccountGroup {
    ghost id_of = { λ group. group.gid };

    fn id(&self) -> u32 {
        self.gid().value()
    }
}

/// The place of the first member with each id.
pub(crate) fn places_by_id<T: Numbered>(
    alloc: Global,
    members: &[T],
) -> Result<HashMap<u32, usize>, AllocError>
    ensures { IfOk result (λ places. (id : ℕ) → get nat_eq places id
        ≡ position (λ member. T.id_of member == id) members.now) }
{
    let mut places = HashMap::with_capacity(alloc, members.len())?;
    let mut place = members.len();
    // From the last to the first, so that the first stays.
    while place > 0 {
        place -= 1;
        places.insert(members[place].id(), place)?;
    }
    Ok(places)
}

/// The first member with this id, by the table of `places_by_id`.
pub(crate) fn find_by_id<'a, T: Numbered>(
    members: &'a [T],
    places: &HashMap<u32, usize>,
    id: u32,
) -> Option<&'a T>
    requires { get nat_eq places.now id ≡ position (λ member. T.id_of member == id) members.now }
    ensures { option_copied result ≡ find (λ member. T.id_of member == id) members.now }
{
    member_at(members, places.get(&id).copied())
}

/// The member at the place; `None` if there is no place, or no member at it.
pub(crate) fn member_at<T>(members: &[T], place: Option<usize>) -> Option<&T>
    ensures { option_copied result ≡ option_and_then (slice_get members.now) place }
{
    members.get(place?)
}
