//! The way to a path, in the blocks of a listing that were read.
ghost use Rattle.std.specs.Prelude.{◌≡◌, ◌++◌, ◌∷◌, [], ℕ, true, IfErr, IfOk, List, OnOk, Some};
ghost use Rattle.acl_names.specs.Names.{Names};
ghost use Rattle.acl_listing_queries.specs.Readings.{Reading, reading_of};
ghost use Rattle.acl_listing_queries.specs.Ways.{begins_apart, known_way, way_of};
ghost use Rattle.acl_listing_queries.specs.WhySteps.{IsUnknown, IsWayTo, IsWayReported, asked_by};

use super::folders::{Folders, report_folders};
use super::question::Question;
use crate::above::may_be_above;
use crate::beginning::Beginning;
use acl_listings::{BlockFault, FileFault, is_above, path_of};
use std::alloc::{AllocError, Global};

/// The way to a path, after some blocks of a listing.
#[derive(Drop)]
pub(super) struct Way {
    /// The blocks of its parent folders, the outermost first.
    folders: Vec<Vec<u8>>,
    /// Where the way to the previous block begins.
    beginning: Beginning,
    /// Whether a block had no readable path: it may be a parent of everything after it.
    lost: bool,
}

impl Way {
    /// Before any block.
    pub fn new(alloc: Global) -> Way
        ensures { (names : Names) (path : List ℕ) → IsWayTo names path [] result }
    {
        Way {
            folders: Vec::new(alloc),
            beginning: Beginning::new(alloc),
            lost: false,
        }
    }

    /// Goes on to the block with this text, on the way to the path. Fails only if memory runs out.
    pub fn go_on(&mut self, alloc: Global, path: &[u8], text: &[u8]) -> Result<(), AllocError>
        ensures { (names : Names) (earlier : List Reading) → IsWayTo names path.now earlier self.old
            → OnOk result (IsWayTo names path.now (earlier ++ reading_of names text.now ∷ [])
            self.new) }
    {
        if self.lost {
            return Ok(());
        }
        let Some(here) = path_of(text) else {
            self.lost = true;
            return Ok(());
        };
        self.beginning.come_to(alloc, here)?;
        self.folders
            .retain(|folder| may_be_above(folder.as_slice(), here));
        if is_above(here, path) {
            let folder = Vec::from_slice(alloc, text)?;
            self.folders.push(folder)?;
        }
        Ok(())
    }

    /// Ends the way at the path: returns the report on its parent folders. Fails with `UnknownWay`
    /// if they aren't known.
    pub fn come_to(
        &mut self,
        alloc: Global,
        question: &Question<'_>,
        path: &[u8],
    ) -> Result<Folders<'_>, FileFault>
        ensures reported { (earlier : List Reading) (here : Reading)
            → IsWayTo (asked_by question.now).names path.now earlier self.old
            → here.path ≡ Some path.now
            → IfOk result (IsWayReported (asked_by question.now) (way_of earlier here) here) }
        ensures apart { (earlier : List Reading) (here : Reading)
            → IsWayTo (asked_by question.now).names path.now earlier self.old
            → here.path ≡ Some path.now
            → IfOk result (λ folders. begins_apart earlier here ≡ true) }
        ensures refused { (earlier : List Reading) (here : Reading)
            → IsWayTo (asked_by question.now).names path.now earlier self.old
            → here.path ≡ Some path.now
            → IfErr result (IsUnknown (known_way earlier here)) }
    {
        if self.lost {
            return Err(FileFault::Block(BlockFault::UnknownWay));
        }
        if !self.beginning.come_to(alloc, path)? {
            return Err(FileFault::Block(BlockFault::UnknownWay));
        }
        report_folders(alloc, question, self.folders.as_slice(), path)
    }
}
