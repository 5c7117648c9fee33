//! Reading the query of `explain`.
ghost use Rattle.std.specs.Prelude.{Ok};

use super::text::explanation_text;
use crate::command::list::list_field;
use crate::command::query::Query;
use acl_bridge::AnyAcl;
use acl_cli::ids::{gid_field, gids_field, uid_field};
use acl_cli::{Failure, perms_field};
use acl_names::{Gid, Requester, Uid};
use acl_posix::Perms;
use clap::ArgMatches;
use std::alloc::{AllocError, Global};
use std::marker::Model;

/// Why a requester is granted a request on a file, or isn't.
#[derive(Drop)]
pub(super) struct Question {
    pub owner: Uid,
    pub group: Gid,
    pub requester: Requester,
    pub request: Perms,
    pub acl: AnyAcl,
}

impl Model for Question {
    ghost use Rattle.acl_posix.specs.Perms.{bits_of};
    ghost use Rattle.acl_queries.specs.Explained.{Explained};

    ghost Value = { Explained };

    ghost view = { λ question. record {
      asked = record {
        owner = question.owner;
        group = question.group;
        requester = question.requester;
        request = bits_of question.request;
      };
      acl = question.acl;
    } };
}

impl Query for Question {
    ghost use Rattle.std.specs.Prelude.{true};
    ghost use Rattle.acl_queries.specs.ExplainText.{IsExplanation};
    ghost use Rattle.acl_queries.specs.Explained.{explained_in};

    ghost asked_in = { explained_in };

    ghost located = { true };

    ghost IsAnswer = { IsExplanation };

    #[tactic(auto, unfolding(crate::specs::Explained::explained_in))]
    fn read<'a>(alloc: Global, matches: &ArgMatches<'a>) -> Result<Question, Failure<'a>> {
        let owner = uid_field(matches, "owner")?;
        let group = gid_field(matches, "group")?;
        let uid = uid_field(matches, "uid")?;
        let gids = gids_field(alloc, matches)?;
        let request = perms_field(matches)?;
        let acl = list_field(alloc, matches, "style", "text")?;
        Ok(Question {
            owner,
            group,
            requester: Requester::new(uid, gids),
            request,
            acl,
        })
    }

    fn answer_text(&self, alloc: Global) -> Result<Vec<u8>, AllocError> {
        explanation_text(alloc, self)
    }
}
