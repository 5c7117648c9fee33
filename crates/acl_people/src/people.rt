//! The users to evaluate.
ghost use Rattle.std.specs.Prelude.{◌≡◌, ◌≢◌, ◌+◌, ◌++◌, ◌∷◌, [], IfErr, IfOk, List, Ok, OnOk};
ghost use Rattle.std.specs.Prelude.{codes, map, option_map, take};
ghost use Rattle.std.specs.Bool.{MatchBool};
ghost use Rattle.clap.specs.Words.{all_of, found_of, rows_of};
ghost use Rattle.acl_cli.specs.Failures.{Explains};
ghost use Rattle.acl_names.specs.ReadList.{each_read};
ghost use Rattle.acl_people.specs.Asked.{ArePeople};
ghost use Rattle.acl_people.specs.People.{IsAskedFailure, accounts_in, asked_in, asked_of};
ghost use Rattle.acl_people.specs.People.{everyone, people_of, person_in};
ghost use Rattle.acl_people.specs.Person.{Person as PersonValue, without_root};

use crate::everyone::{account_at, user_count};
use crate::host::{Host, OWN_FILES};
use crate::person::Person;
use acl_accounts::Accounts;
use acl_cli::fields::text_field;
use acl_cli::{Failure, Refusal};
use acl_names::Requester;
use clap::ArgMatches;
use std::alloc::{AllocError, Global};

/// The users to evaluate: the name of each as getfacl prints it, and at the same place its
/// requester.
#[derive(Drop)]
pub struct People {
    /// The names, as `who` prints them.
    pub names: Vec<Vec<u8>>,
    /// Each of them as a requester.
    pub requesters: Vec<Requester>,
}

impl People {
    /// Whether there are no users.
    fn is_empty(&self) -> bool
        ensures { (persons : List PersonValue) → ArePeople persons self.now
            → MatchBool result (persons ≡ []) (persons ≢ []) }
    {
        self.requesters.is_empty()
    }

    /// No users.
    pub(crate) fn new(alloc: Global) -> People
        ensures { ArePeople [] result }
    {
        People {
            names: Vec::new(alloc),
            requesters: Vec::new(alloc),
        }
    }

    /// Appends a user.
    pub(crate) fn push(&mut self, person: Person) -> Result<(), AllocError>
        ensures { (persons : List PersonValue) → ArePeople persons self.old
            → OnOk result (ArePeople (persons ++ person ∷ []) self.new) }
    {
        let Person { name, requester } = person;
        self.names.push(name)?;
        self.requesters.push(requester)?;
        Ok(())
    }
}

/// Appends the user at this place, unless it is uid 0.
fn push_user_at(
    alloc: Global,
    accounts: &Accounts,
    place: usize,
    people: &mut People,
) -> Result<(), AllocError>
    ensures { ArePeople (without_root (take place (everyone accounts.now))) people.old → OnOk result
        (ArePeople (without_root (take (place + 1) (everyone accounts.now))) people.new) }
{
    let Some(person) = account_at(alloc, accounts, place)? else {
        return Ok(());
    };
    if person.is_root() {
        return Ok(());
    }
    people.push(person)
}

/// All users but uid 0.
fn all_people(alloc: Global, accounts: &Accounts) -> Result<People, AllocError>
    ensures { IfOk result (ArePeople (people_of accounts.now)) }
{
    let mut people = People::new(alloc);
    for place in 0..user_count(accounts) {
        push_user_at(alloc, accounts, place, &mut people)?;
    }
    Ok(people)
}

/// All users but uid 0 of the accounts of this name. Fails if there is none: an empty answer would
/// otherwise look as if nobody had access.
fn everybody<'a>(alloc: Global, host: &Host, name: &'a str) -> Result<People, Failure<'a>>
    ensures read { IfOk result (λ people. (persons : List PersonValue) × ArePeople persons people
        × (asked_of name.entry.now host.now [] ≡ Ok persons)) }
    ensures refused { IfErr result (IsAskedFailure (asked_of name.entry.now host.now [])) }
{
    let people = all_people(alloc, host.accounts())?;
    if people.is_empty() {
        return Err(Failure::Refused(Refusal::as_a_whole(name, "no user")));
    }
    Ok(people)
}

/// The users whom these texts name.
fn people_in<'a>(alloc: Global, host: &Host, texts: &[&'a str]) -> Result<People, Failure<'a>>
    ensures read { IfOk result (λ people. (persons : List PersonValue) × ArePeople persons people
        × (each_read (person_in host.now) (map (λ text. text.now) texts.now) ≡ Ok persons)) }
    ensures refused { IfErr result
        (Explains (each_read (person_in host.now) (map (λ text. text.now) texts.now))) }
{
    let mut people = People::new(alloc);
    for text in texts {
        let person = host.read_person(alloc, *text)?;
        people.push(person)?;
    }
    Ok(people)
}

/// The users whom these texts name; without texts, all but uid 0 of the accounts of this name.
fn people_asked<'a>(
    alloc: Global,
    host: &Host,
    name: &'a str,
    texts: &[&'a str],
) -> Result<People, Failure<'a>>
    ensures read { IfOk result (λ people. (persons : List PersonValue) × ArePeople persons people
        × (asked_of name.entry.now host.now (map (λ text. text.now) texts.now) ≡ Ok persons)) }
    ensures refused { IfErr result
        (IsAskedFailure (asked_of name.entry.now host.now (map (λ text. text.now) texts.now))) }
{
    if texts.is_empty() {
        return everybody(alloc, host, name);
    }
    people_in(alloc, host, texts)
}

/// The values of `--user`; `None` if the option isn't given.
pub fn user_fields<'m, 'a>(matches: &'m ArgMatches<'a>) -> Option<&'m [&'a str]>
    ensures { option_map (λ texts. map (λ text. text.now) texts.now) result
        ≡ all_of (codes "user") (rows_of (found_of matches.now)) }
{
    matches.get_strs("user")
}

/// The name under which faults of the accounts are reported.
fn accounts_name<'a>(matches: &ArgMatches<'a>) -> &'a str
    ensures { result.now ≡ accounts_in (rows_of (found_of matches.now)) }
{
    text_field(matches, "accounts").unwrap_or(OWN_FILES)
}

/// The users to evaluate: those of `--user`, in its order, or else all but uid 0. Fails for a name
/// that no user has, a malformed one, uid 0, and accounts without another user; and if memory runs
/// out.
pub fn read_people<'a>(
    alloc: Global,
    host: &Host,
    matches: &ArgMatches<'a>,
) -> Result<People, Failure<'a>>
    ensures read { IfOk result (λ people. (persons : List PersonValue) × ArePeople persons people
        × (asked_in host.now (rows_of (found_of matches.now)) ≡ Ok persons)) }
    ensures refused { IfErr result
        (IsAskedFailure (asked_in host.now (rows_of (found_of matches.now)))) }
{
    let name = accounts_name(matches);
    match user_fields(matches) {
        Some(texts) => people_asked(alloc, host, name, texts),
        None => people_asked(alloc, host, name, &[]),
    }
}
