//! Reading and answering the query of `decide`.
ghost use Rattle.std.specs.Prelude.{◌≡◌, Ok, IfErr, IfOk, option_map};
ghost use Rattle.clap.specs.Words.{found_of, rows_of};
ghost use Rattle.acl_posix.specs.declared.acl_text.AclFault.TheVariants.{BadAcl};
ghost use Rattle.acl_queries.specs.Asked.{acl_in, asked_in};
ghost use Rattle.acl_queries.specs.AclText.{acl_of};
ghost use Rattle.acl_cli.specs.Failures.{Explains, ExplainsText};
ghost use Rattle.acl_cli.specs.Fields.{given};
ghost use Rattle.acl_cli.specs.declared.field_fault.FieldFault.TheVariants.{Acl as AclField};

use super::translation::print_translation;
use crate::command::acl::read_acl;
use crate::command::answer::answer_line;
use crate::command::query::Query;
use acl_cli::fields::{flag_field, text_field};
use acl_cli::ids::{gid_field, gids_field, uid_field};
use acl_cli::{Failure, FieldFault, Place, perms_field};
use acl_names::{Gid, Requester, Uid};
use acl_posix::{Acl, AclFault, Perms};
use clap::ArgMatches;
use std::alloc::{AllocError, Global};
use std::marker::Model;

/// Whether a requester is granted a request on a file; and, with `nfs4`, the translation of the
/// file's access control list.
#[derive(Drop)]
pub(super) struct Question {
    pub owner: Uid,
    pub group: Gid,
    pub requester: Requester,
    pub request: Perms,
    pub acl: Acl,
    pub nfs4: bool,
}

impl Model for Question {
    ghost use Rattle.acl_posix.specs.Perms.{bits_of};
    ghost use Rattle.acl_queries.specs.Asked.{Asked};

    ghost Value = { Asked };

    ghost view = { λ question. record {
      owner = question.owner;
      group = question.group;
      requester = question.requester;
      request = bits_of question.request;
      acl = question.acl;
      nfs4 = question.nfs4;
    } };
}

impl Question {
    ghost use Rattle.acl_queries.specs.DecideAnswer.{is_granted};

    /// The answer.
    fn is_granted(&self) -> bool
        ensures { result ≡ is_granted self.now }
    {
        self.acl
            .grants(self.owner, self.group, &self.requester, self.request)
    }
}

/// Reads the access control list from a word, which must be given.
fn acl_given<'a>(alloc: Global, word: Option<&'a str>) -> Result<Acl, Failure<'a>>
    ensures read { IfOk result (λ acl. given (AclField BadAcl) acl_of
        (option_map (λ text. text.now) word.entry) ≡ Ok acl) }
    ensures refused { IfErr result (ExplainsText (given (AclField BadAcl) acl_of
        (option_map (λ text. text.now) word.entry))) }
{
    match word {
        Some(text) => read_acl(alloc, text),
        None => Err(Failure::Field(FieldFault::Acl(AclFault::BadAcl))),
    }
}

/// The file's access control list.
fn acl_field<'a>(alloc: Global, matches: &ArgMatches<'a>) -> Result<Acl, Failure<'a>>
    ensures read { IfOk result (λ acl. acl_in (rows_of (found_of matches.now)) ≡ Ok acl) }
    ensures refused { IfErr result (Explains (acl_in (rows_of (found_of matches.now)))) }
{
    let word = text_field(matches, "text");
    match acl_given(alloc, word) {
        Ok(acl) => Ok(acl),
        Err(failure) => Err(failure.at(Place::Word("TEXT"), word)),
    }
}

/// Reads the query from the fields, in their order.
#[tactic(auto, unfolding(crate::specs::Asked::asked_in))]
fn read_question<'a>(alloc: Global, matches: &ArgMatches<'a>) -> Result<Question, Failure<'a>>
    ensures read { IfOk result (λ question. asked_in (rows_of (found_of matches.now)) ≡ Ok question) }
    ensures refused { IfErr result (Explains (asked_in (rows_of (found_of matches.now)))) }
{
    let owner = uid_field(matches, "owner")?;
    let group = gid_field(matches, "group")?;
    let uid = uid_field(matches, "uid")?;
    let gids = gids_field(alloc, matches)?;
    let request = perms_field(matches)?;
    let acl = acl_field(alloc, matches)?;
    Ok(Question {
        owner,
        group,
        requester: Requester::new(uid, gids),
        request,
        acl,
        nfs4: flag_field(matches, "nfs4"),
    })
}

impl Query for Question {
    ghost use Rattle.std.specs.Prelude.{false};
    ghost use Rattle.acl_queries.specs.Asked.{asked_in};
    ghost use Rattle.acl_queries.specs.DecideAnswer.{IsDecideText};

    ghost asked_in = { asked_in };

    ghost located = { false };

    ghost IsAnswer = { IsDecideText };

    /// The place of a malformed field isn't reported.
    fn read<'a>(alloc: Global, matches: &ArgMatches<'a>) -> Result<Question, Failure<'a>> {
        match read_question(alloc, matches) {
            Ok(question) => Ok(question),
            Err(failure) => Err(failure.without_place()),
        }
    }

    /// The line of the answer, and after it the translation if the words ask for it.
    fn answer_text(&self, alloc: Global) -> Result<Vec<u8>, AllocError> {
        let mut text = Vec::new(alloc);
        text.extend_from_slice(answer_line(self.is_granted()).as_bytes())?;
        if self.nfs4 {
            print_translation(alloc, &self.acl, &mut text)?;
        }
        Ok(text)
    }
}
