//! All users of a host, sorted by name.
ghost use Rattle.std.specs.Prelude.{◌≡◌, ◌≤◌, IfOk, length, option_map, slice_get};
ghost use Rattle.acl_people.specs.People.{everyone};
ghost use Rattle.acl_people.specs.Person.{person};

use crate::person::Person;
use acl_accounts::Accounts;
use acl_names::Requester;
use std::alloc::{AllocError, Global};

/// The user of this name, as the requester at this place.
fn listed_at(
    alloc: Global,
    name: &[u8],
    requesters: &[Requester],
    place: usize,
) -> Result<Option<Person>, AllocError>
    ensures { IfOk result (λ found. found
        ≡ option_map (person name.now) (slice_get requesters.now place)) }
{
    let Some(requester) = requesters.get(place) else {
        return Ok(None);
    };
    let person = Person::listed(alloc, name, requester)?;
    Ok(Some(person))
}

/// The user at this place of the accounts.
pub(crate) fn account_at(
    alloc: Global,
    accounts: &Accounts,
    place: usize,
) -> Result<Option<Person>, AllocError>
    ensures { IfOk result (λ found. found ≡ slice_get (everyone accounts.now) place) }
{
    let Some(user) = accounts.users().get(place) else {
        return Ok(None);
    };
    listed_at(alloc, user.name(), accounts.requesters(), place)
}

/// How many users there are.
pub(crate) fn user_count(accounts: &Accounts) -> usize
    ensures { length (everyone accounts.now) ≤ result }
{
    accounts.users().len()
}
