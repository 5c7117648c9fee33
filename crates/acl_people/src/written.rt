//! Users as a text writes them: by a name, or by an id.
ghost use Rattle.std.specs.Prelude.{◌≡◌, IfErr, IfOk, None, Ok, option_and_then};
ghost use Rattle.std.specs.Prelude.{option_map};
ghost use Rattle.acl_accounts.specs.Names.{written_account};
ghost use Rattle.acl_accounts.specs.Views.{view_written};
ghost use Rattle.acl_cli.specs.Failures.{Explains, ExplainsText};
ghost use Rattle.acl_names.specs.Ids.{id_of_written};
ghost use Rattle.acl_people.specs.People.{person_asked, person_in, person_written};
ghost use Rattle.acl_people.specs.Person.{stranger};

use crate::everyone::account_at;
use crate::host::Host;
use crate::person::Person;
use acl_accounts::{Accounts, WrittenAccount};
use acl_cli::{Failure, FieldFault, Place};
use acl_names::Uid;
use arrayvec::ArrayVec;
use std::alloc::{AllocError, Global};

/// The requester with the written id, which no user has.
fn stranger_written(
    alloc: Global,
    written: WrittenAccount<'_>,
) -> Result<Option<Person>, AllocError>
    ensures { IfOk result (λ found. found
        ≡ option_map stranger (id_of_written (λ name. None) (view_written written.entry))) }
{
    let WrittenAccount::Number(number) = written else {
        return Ok(None);
    };
    let Some(uid) = Uid::new(number) else {
        return Ok(None);
    };
    let person = Person::stranger(alloc, uid)?;
    Ok(Some(person))
}

/// The user whom the text writes, by the accounts.
fn account_written(
    alloc: Global,
    accounts: &Accounts,
    written: WrittenAccount<'_>,
) -> Result<Option<Person>, AllocError>
    ensures { IfOk result (λ found. found
        ≡ person_written accounts.now (view_written written.entry)) }
{
    if let Some(place) = accounts.user_place(written) {
        if let Some(person) = account_at(alloc, accounts, place)? {
            return Ok(Some(person));
        }
    }
    stranger_written(alloc, written)
}

/// The user whom a text names, by the accounts.
pub(crate) fn account_in(
    alloc: Global,
    accounts: &Accounts,
    text: &[u8],
) -> Result<Option<Person>, AllocError>
    ensures { IfOk result (λ found. found
        ≡ option_and_then (person_written accounts.now) (written_account text.now)) }
{
    let mut room = ArrayVec::new();
    match WrittenAccount::read(text, &mut room) {
        Some(written) => account_written(alloc, accounts, written),
        None => Ok(None),
    }
}

impl Host {
    /// The user whom a text names; never uid 0.
    fn person_asked<'a>(&self, alloc: Global, text: &'a str) -> Result<Person, Failure<'a>>
        ensures read { IfOk result (λ person. person_asked self.now text.entry.now ≡ Ok person) }
        ensures refused { IfErr result (ExplainsText (person_asked self.now text.entry.now)) }
    {
        let text = self.by_itself(text.as_bytes());
        let Some(person) = account_in(alloc, self.accounts(), text)? else {
            return Err(Failure::Field(FieldFault::UnknownUser));
        };
        if person.is_root() {
            return Err(Failure::Field(FieldFault::RootUser));
        }
        Ok(person)
    }

    /// The user whom a value of `--user` names. Fails for a name that no user has, a malformed one,
    /// and uid 0; and if memory runs out.
    pub fn read_person<'a>(&self, alloc: Global, text: &'a str) -> Result<Person, Failure<'a>>
        ensures read { IfOk result (λ person. person_in self.now text.entry.now ≡ Ok person) }
        ensures refused { IfErr result (Explains (person_in self.now text.entry.now)) }
    {
        match self.person_asked(alloc, text) {
            Ok(person) => Ok(person),
            Err(failure) => Err(failure.at(Place::Option("user"), Some(text))),
        }
    }
}
