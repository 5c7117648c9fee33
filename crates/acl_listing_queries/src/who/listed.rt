//! What `who` prints for a block without regard to its parents.
ghost use Rattle.std.specs.Prelude.{◌≡◌, [], false};
ghost use Rattle.acl_listing_queries.specs.WhoSteps.{AreRight, IsEveryone, IsListing, whos_of};

use super::answers::Answers;
use super::way::Inside;
use acl_listings::{FileFault, path_and_lines};
use acl_reports::{BlockReporter, Stranger};
use std::alloc::Global;

/// Prints what each user is granted, whatever the parent folders grant.
#[derive(Drop)]
pub(super) struct ListedReporter<'t> {
    answers: Answers<'t>,
    /// `true` for every user.
    everyone: Vec<bool>,
}

impl<'t> ListedReporter<'t> {
    /// Before any block.
    pub fn new(answers: Answers<'t>, everyone: Vec<bool>) -> ListedReporter<'t>
        ensures users { result.answers.users ≡ answers.entry.users }
        ensures stands { AreRight answers.entry → answers.entry.users.reach ≡ false
            → IsEveryone (whos_of answers.entry.users) everyone.items → IsListing result [] }
    {
        ListedReporter { answers, everyone }
    }
}

impl<'t> BlockReporter for ListedReporter<'t> {
    ghost use Rattle.acl_listing_queries.specs.WhoPart.{who_part};
    ghost use Rattle.acl_listing_queries.specs.WhoSteps.{IsListing, asking_of, stranger_by};

    ghost Stands = { IsListing };

    ghost part = { λ reporter. who_part (asking_of reporter.answers.users) };

    ghost stranger = { λ reporter. stranger_by reporter.answers.users };

    ghost found = { λ reporter. reporter.answers.found };

    fn push(&mut self, alloc: Global, text: &[u8], out: &mut Vec<u8>) -> Result<(), FileFault> {
        let (path, lines) = path_and_lines(text);
        let place = self.answers.find(alloc, path, text, lines)?;
        let Some(path) = path else {
            // What reads has a path.
            return Ok(());
        };
        let inside = Inside {
            reach: self.everyone.as_slice(),
            folder: None,
        };
        self.answers.push_at(alloc, place, inside, path, out)
    }

    fn names_stranger(&self) -> bool {
        self.answers.found()
    }

    fn stranger(&self, text: &[u8]) -> Option<Stranger> {
        self.answers.stranger(text)
    }
}
