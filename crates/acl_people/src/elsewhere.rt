//! The same users by other accounts.
ghost use Rattle.std.specs.Prelude.{◌≡◌, ◌==◌, IfErr, IfOk, List, Ok, map, slice_get};
ghost use Rattle.std.specs.List.{position};
ghost use Rattle.acl_people.specs.Asked.{ArePeople};
ghost use Rattle.acl_people.specs.Elsewhere.{asked_elsewhere, elsewhere, name_at};
ghost use Rattle.acl_people.specs.People.{IsAskedFailure};
ghost use Rattle.acl_people.specs.Person.{Person as PersonValue, is_root};

use crate::host::Host;
use crate::people::People;
use crate::person::Person;
use crate::written::account_in;
use acl_cli::{Failure, Refusal};
use acl_names::Requester;
use std::alloc::{AllocError, Global};

/// The user of this name by the accounts of the host; without one, the requester's uid in no group.
fn elsewhere(
    alloc: Global,
    host: &Host,
    name: &[u8],
    requester: &Requester,
) -> Result<Person, AllocError>
    ensures { IfOk result (λ other. other
        ≡ elsewhere host.now (record { name = name.now; who = requester.now })) }
{
    let copy = Vec::from_slice(alloc, name)?;
    match account_in(alloc, host.accounts(), name)? {
        Some(other) => Ok(Person {
            name: copy,
            requester: other.requester,
        }),
        None => Ok(Person {
            name: copy,
            requester: Requester::new(requester.uid(), Vec::new(alloc)),
        }),
    }
}

/// The user at the place of these people, by the accounts of the host.
fn elsewhere_at(
    alloc: Global,
    host: &Host,
    people: &People,
    place: usize,
) -> Result<Option<Person>, AllocError>
    ensures { (persons : List PersonValue) → ArePeople persons people.now → IfOk result (λ found.
        found ≡ slice_get (map (elsewhere host.now) persons) place) }
{
    let Some(requester) = people.requesters.get(place) else {
        return Ok(None);
    };
    let Some(name) = people.names.get(place) else {
        return Ok(None);
    };
    let other = elsewhere(alloc, host, name.as_slice(), requester)?;
    Ok(Some(other))
}

/// All of these people, by the accounts of the host.
fn all_elsewhere(alloc: Global, host: &Host, people: &People) -> Result<People, AllocError>
    ensures { (persons : List PersonValue) → ArePeople persons people.now
        → IfOk result (ArePeople (map (elsewhere host.now) persons)) }
{
    let mut others = People::new(alloc);
    for place in 0..people.requesters.len() {
        let Some(other) = elsewhere_at(alloc, host, people, place)? else {
            return Ok(others);
        };
        others.push(other)?;
    }
    Ok(others)
}

/// Whether the requester is uid 0.
fn asks_as_root(requester: &Requester) -> bool
    ensures { result ≡ (requester.now.uid == 0) }
{
    requester.uid().value() == 0
}

/// The place of the first requester who is uid 0.
fn first_root(requesters: &[Requester]) -> Option<usize>
    ensures { result ≡ position (λ who. who.uid == 0) requesters.now }
{
    requesters
        .iter()
        .position(|requester| asks_as_root(requester))
}

/// The place of the first of these people who is uid 0.
fn root_place(people: &People) -> Option<usize>
    ensures { (persons : List PersonValue) → ArePeople persons people.now
        → result ≡ position is_root persons }
{
    first_root(people.requesters.as_slice())
}

/// The name of the user at the place.
fn name_at(alloc: Global, people: &People, place: usize) -> Result<Vec<u8>, AllocError>
    ensures { (persons : List PersonValue) → ArePeople persons people.now
        → IfOk result (λ name. name.items ≡ name_at persons place) }
{
    match people.names.get(place) {
        Some(name) => Vec::from_slice(alloc, name.as_slice()),
        None => Ok(Vec::new(alloc)),
    }
}

/// These people by the accounts of the file `name`, in their order: each is the user whom these
/// accounts have by the printed name, or, if they have none, keeps the uid, in no group. Fails for
/// a user who has uid 0 there, since uid 0 is never evaluated, and if memory runs out.
pub fn people_elsewhere<'a>(
    alloc: Global,
    name: &'a str,
    host: &Host,
    people: &People,
) -> Result<People, Failure<'a>>
    ensures read { (persons : List PersonValue) → ArePeople persons people.now
        → IfOk result (λ others. (those : List PersonValue) × ArePeople those others
        × (asked_elsewhere name.entry.now host.now persons ≡ Ok those)) }
    ensures refused { (persons : List PersonValue) → ArePeople persons people.now
        → IfErr result (IsAskedFailure (asked_elsewhere name.entry.now host.now persons)) }
{
    let others = all_elsewhere(alloc, host, people)?;
    match root_place(&others) {
        Some(place) => {
            let user = name_at(alloc, &others, place)?;
            Err(Failure::Refused(Refusal::for_text(name, "root", user)))
        }
        None => Ok(others),
    }
}
