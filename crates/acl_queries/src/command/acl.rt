//! Access control lists in fields: with decimal ids, since no names are known.
ghost use Rattle.std.specs.Prelude.{◌≡◌, Ok, IfErr, IfOk};
ghost use Rattle.acl_queries.specs.AclText.{acl_of, nobody};
ghost use Rattle.acl_cli.specs.Failures.{ExplainsText};

use acl_cli::{Failure, FieldFault, RunFault};
use acl_names::{Directory, SetupFault};
use acl_posix::{Acl, ReadAclFault};
use std::alloc::{AllocError, Global};

/// A directory without users and groups, by which ids are read and printed. Fails only if memory
/// runs out.
pub fn empty_directory(alloc: Global) -> Result<Directory, AllocError>
    ensures { IfOk result (λ directory. directory ≡ nobody) }
{
    let domain = String::from_str(alloc, "local")?;
    match Directory::from_parts(alloc, domain, Vec::new(alloc), Vec::new(alloc)) {
        Ok(directory) => Ok(directory),
        Err(SetupFault::Memory) => Err(AllocError),
        // Nothing else can be wrong with them.
        Err(_) => unreachable!(),
    }
}

/// Reads an access control list from a text.
pub(crate) fn read_acl<'a>(alloc: Global, text: &'a str) -> Result<Acl, Failure<'a>>
    ensures read { IfOk result (λ acl. acl_of text.entry.now ≡ Ok acl) }
    ensures refused { IfErr result (ExplainsText (acl_of text.entry.now)) }
{
    let directory = empty_directory(alloc)?;
    match acl_posix::read_acl(alloc, text.as_bytes(), &directory) {
        Ok(acl) => Ok(acl),
        Err(ReadAclFault::Acl(fault)) => Err(Failure::Field(FieldFault::Acl(fault))),
        Err(ReadAclFault::Memory) => Err(Failure::Lacks(RunFault::Memory)),
    }
}
