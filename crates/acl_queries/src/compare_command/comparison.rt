//! Reading and answering the query of `compare`.
ghost use Rattle.std.specs.Prelude.{◌≡◌, IfOk, MatchOption, Ok};
ghost use Rattle.acl_queries.specs.Differences.{AreAlike, Differ, owners_of};

use super::text::answer_text;
use crate::command::list::list_field;
use crate::command::query::Query;
use acl_bridge::{AnyAcl, FileAcl, list_difference};
use acl_cli::Failure;
use acl_cli::ids::{gid_field, uid_field};
use acl_names::{Gid, Uid};
use acl_nfs4::{Difference, Owners};
use clap::ArgMatches;
use std::alloc::{AllocError, Global};
use std::marker::Model;

/// Two lists to compare, for a file of this owner and this group.
#[derive(Drop)]
pub(super) struct Comparison {
    pub owner: Uid,
    pub group: Gid,
    pub first: AnyAcl,
    pub second: AnyAcl,
}

impl Model for Comparison {
    ghost use Rattle.acl_queries.specs.Compared.{Compared};
    ghost use Rattle.acl_queries.specs.Comparing.{between};

    ghost Value = { Compared };

    ghost view = { λ comparison. between comparison.owner comparison.group comparison.first
        comparison.second };
}

impl Comparison {
    /// The file's owner and group.
    fn owners(&self) -> Owners
        ensures { result ≡ owners_of self.now }
    {
        Owners {
            owner: self.owner,
            group: self.group,
        }
    }

    /// What the lists grant differently, and to whom; `None` if they grant everyone the same.
    fn difference(&self, alloc: Global) -> Result<Option<Difference>, AllocError>
        ensures { IfOk result (λ found. MatchOption found (AreAlike self.now)
            (Differ self.now)) }
    {
        let first = FileAcl {
            owners: self.owners(),
            list: self.first.as_ref(),
        };
        let second = FileAcl {
            owners: self.owners(),
            list: self.second.as_ref(),
        };
        list_difference(alloc, &first, &second)
    }
}

impl Query for Comparison {
    ghost use Rattle.std.specs.Prelude.{true};
    ghost use Rattle.acl_queries.specs.Compared.{compared_in};
    ghost use Rattle.acl_queries.specs.Differences.{IsComparison};

    ghost asked_in = { compared_in };

    ghost located = { true };

    ghost IsAnswer = { IsComparison };

    #[tactic(auto, unfolding(crate::specs::Compared::compared_in))]
    fn read<'a>(alloc: Global, matches: &ArgMatches<'a>) -> Result<Comparison, Failure<'a>> {
        let owner = uid_field(matches, "owner")?;
        let group = gid_field(matches, "group")?;
        let first = list_field(alloc, matches, "style", "text")?;
        let second = list_field(alloc, matches, "other-style", "other-text")?;
        Ok(Comparison {
            owner,
            group,
            first,
            second,
        })
    }

    fn answer_text(&self, alloc: Global) -> Result<Vec<u8>, AllocError> {
        match self.difference(alloc) {
            Ok(found) => answer_text(alloc, found),
            Err(refused) => Err(refused),
        }
    }
}
