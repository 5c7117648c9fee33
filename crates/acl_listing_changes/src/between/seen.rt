//! The part of the listing after that was seen.
ghost use Rattle.std.specs.Prelude.{◌≡◌, IfErr, IfOk, OnOk, Option, option_map};
ghost use Rattle.acl_listings.specs.Block.{path_of};
ghost use Rattle.acl_reports.specs.Paths.{or_first};
ghost use Rattle.acl_reports.specs.Reporting.{IsListingFailure};
ghost use Rattle.acl_reports.specs.Strangers.{IsSighting};
ghost use Rattle.acl_reports.specs.declared.stranger.Stranger.{Stranger};
ghost use Rattle.acl_listing_changes.specs.ChangeSteps.{is_marked, nothing_seen, with_seen};

use super::marks::{is_marked, mark};
use acl_cli::Failure;
use acl_listings::{BlockFault, path_of};
use acl_reports::{Counts, Sighting, Strangers};
use std::alloc::{AllocError, Global};
use std::marker::Model;

/// The part of the listing after that was seen.
#[derive(Drop)]
pub(super) struct Seen {
    /// Whether the path of the block before at each place was seen, if that is the first block with
    /// it.
    met: Vec<bool>,
    counts: Counts,
    /// The first path of it.
    first: Option<Vec<u8>>,
    /// Whether the listing before has any path of it.
    known: bool,
}

impl Model for Seen {
    ghost use Rattle.std.specs.Prelude.{option_map};
    ghost use Rattle.acl_listing_changes.specs.ChangeSteps.{SeenValue};

    ghost Value = { SeenValue };

    ghost view = { λ inside. record {
      met = inside.met.items;
      tally = inside.counts.tally;
      strangers = inside.counts.strangers;
      first = option_map (λ path. path.items) inside.first;
      known = inside.known;
    } };
}

/// A copy of this text's path, if it has one. Fails only if memory runs out.
fn path_kept(alloc: Global, text: &[u8]) -> Result<Option<Vec<u8>>, AllocError>
    ensures { IfOk result (λ path. option_map (λ path. path.items) path ≡ path_of text.now) }
{
    match path_of(text) {
        Some(path) => Ok(Some(Vec::from_slice(alloc, path)?)),
        None => Ok(None),
    }
}

impl Seen {
    /// No blocks. `count` is how many the listing before has.
    pub fn new(alloc: Global, count: usize) -> Result<Seen, AllocError>
        ensures { IfOk result (λ seen. seen ≡ nothing_seen count) }
    {
        Ok(Seen {
            met: Vec::from_elem(alloc, false, count)?,
            counts: Counts::new(),
            first: None,
            known: false,
        })
    }

    /// Whether the path of the block before at this place was seen.
    pub fn is_met(&self, place: Option<usize>) -> bool
        ensures { result ≡ is_marked self.now.met place }
    {
        is_marked(self.met.as_slice(), place)
    }

    /// How many blocks were seen.
    pub fn counts(&self) -> Counts
        ensures tally { result.tally ≡ self.now.tally }
        ensures strangers { result.strangers ≡ self.now.strangers }
    {
        self.counts
    }

    /// How many of the blocks that were seen name ids without an account, and the first of these.
    pub fn strangers(&self) -> &Strangers
        ensures { result.now ≡ self.now.strangers }
    {
        &self.counts.strangers
    }

    /// The first path that was seen.
    pub fn first(&self) -> Option<&[u8]>
        ensures { option_map (λ path. path.now) result ≡ self.now.first }
    {
        match &self.first {
            Some(path) => Some(path.as_slice()),
            None => None,
        }
    }

    /// Whether the listing before has any path that was seen.
    pub fn is_known(&self) -> bool
        ensures { result ≡ self.now.known }
    {
        self.known
    }

    /// Keeps the path of this text, if it is the first.
    fn keep_first(&mut self, alloc: Global, text: &[u8]) -> Result<(), AllocError>
        ensures { OnOk result (self.new
            ≡ record self.old { first = or_first self.old.first (path_of text.now) }) }
    {
        if self.first.is_none() {
            self.first = path_kept(alloc, text)?;
        }
        Ok(())
    }

    /// Adds a block with this text, whose first line has this number, with its fault, if it has
    /// one. `sighting` is what it has to do with ids that no account has, `place` that of the block
    /// before with its path, and `name` the listing's.
    pub fn add<'n>(
        &mut self,
        alloc: Global,
        name: &'n str,
        place: Option<usize>,
        line: u64,
        text: &[u8],
        fault: Option<BlockFault>,
        sighting: Sighting,
    ) -> Result<(), Failure<'n>>
        ensures seen { (stranger : Option Stranger)
            → IsSighting self.old.strangers stranger sighting
            → OnOk result (self.new ≡ with_seen self.old place
            (record { line = line; text = text.now }) fault stranger) }
        ensures failed { IfErr result (IsListingFailure name.entry.now) }
    {
        self.keep_first(alloc, text)?;
        self.counts.add(name, line, text, fault, sighting)?;
        mark(self.met.as_mut_slice(), place);
        self.known = self.known || place.is_some();
        Ok(())
    }
}
