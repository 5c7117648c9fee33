//! One user to evaluate.
ghost use Rattle.std.specs.Prelude.{◌≡◌, IfOk, decimal};
ghost use Rattle.acl_accounts.specs.Names.{quoted};
ghost use Rattle.acl_people.specs.Person.{is_root, person, stranger};

use acl_accounts::push_name;
use acl_names::{Requester, Uid, push_decimal};
use std::alloc::{AllocError, Global};
use std::marker::Model;

/// A user to evaluate, with the name as getfacl prints it.
#[derive(Drop)]
pub struct Person {
    pub name: Vec<u8>,
    pub requester: Requester,
}

impl Model for Person {
    ghost use Rattle.acl_people.specs.Person.{Person as PersonValue};

    ghost Value = { PersonValue };

    ghost view = { λ inside. record { name = inside.name.items; who = inside.requester } };
}

/// A name as getfacl prints it.
pub(crate) fn printed_name(alloc: Global, name: &[u8]) -> Result<Vec<u8>, AllocError>
    ensures { IfOk result (λ printed. printed.items ≡ quoted name.now) }
{
    let mut printed = Vec::new(alloc);
    push_name(name, &mut printed)?;
    Ok(printed)
}

/// An id as getfacl prints it if no user has it.
pub(crate) fn printed_id(alloc: Global, uid: Uid) -> Result<Vec<u8>, AllocError>
    ensures { IfOk result (λ printed. printed.items ≡ decimal uid) }
{
    let mut printed = Vec::new(alloc);
    push_decimal(uid.value(), &mut printed)?;
    Ok(printed)
}

/// A copy of the requester.
fn copy_of(alloc: Global, requester: &Requester) -> Result<Requester, AllocError>
    ensures { IfOk result (λ copy. copy ≡ requester.now) }
{
    let gids = Vec::from_slice(alloc, requester.gids())?;
    Ok(Requester::new(requester.uid(), gids))
}

impl Person {
    /// A user of this name.
    pub(crate) fn listed(
        alloc: Global,
        name: &[u8],
        requester: &Requester,
    ) -> Result<Person, AllocError>
        ensures { IfOk result (λ made. made ≡ person name.now requester.now) }
    {
        let name = printed_name(alloc, name)?;
        let requester = copy_of(alloc, requester)?;
        Ok(Person { name, requester })
    }

    /// The requester with an id that no user has, in no group.
    pub(crate) fn stranger(alloc: Global, uid: Uid) -> Result<Person, AllocError>
        ensures { IfOk result (λ made. made ≡ stranger uid) }
    {
        let name = printed_id(alloc, uid)?;
        let requester = Requester::new(uid, Vec::new(alloc));
        Ok(Person { name, requester })
    }

    /// Whether it is uid 0.
    pub(crate) fn is_root(&self) -> bool
        ensures { result ≡ is_root self.now }
    {
        self.requester.uid().value() == 0
    }
}
