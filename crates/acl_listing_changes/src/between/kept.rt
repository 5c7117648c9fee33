//! A listing in memory.
ghost use Rattle.std.specs.Prelude.{◌≡◌, ◌++◌, ◌∷◌, ℕ, IfErr, IfOk, List, [], None, OnOk};
ghost use Rattle.std.specs.Prelude.{bytes_eq, length, map, option_map, slice_get};
ghost use Rattle.std.specs.HashMap.{get_by};
ghost use Rattle.std.specs.Option.{option_and_then};
ghost use Rattle.acl_listings.specs.Cursor.{blocks_to_come};
ghost use Rattle.acl_reports.specs.Paths.{first_path, has_path};
ghost use Rattle.acl_reports.specs.Reporting.{IsListingFailure};
ghost use Rattle.acl_listing_changes.specs.Kept.{AreAll, block_of, first_place, is_earlier};
ghost use Rattle.acl_listing_changes.specs.Kept.{place_of};

use acl_cli::Failure;
use acl_listings::{Blocks, path_of};
use acl_reports::advance;
use std::alloc::{AllocError, Global};
use std::collections::HashMap;
use std::io::Read;
use std::marker::Model;

/// A block of a listing, and the number of its first line.
#[derive(Drop)]
pub(super) struct KeptBlock {
    pub line: u64,
    pub text: Vec<u8>,
}

/// Keeps a block. Fails only if memory runs out.
fn keep(alloc: Global, line: u64, text: &[u8], kept: &mut Vec<KeptBlock>) -> Result<(), AllocError>
    ensures { OnOk result (map block_of kept.new.items ≡ map block_of kept.old.items
        ++ record { line = line; text = text.now } ∷ []) }
{
    let text = Vec::from_slice(alloc, text)?;
    kept.push(KeptBlock { line, text })?;
    Ok(())
}

/// Keeps the blocks to come of the listing of this name.
fn keep_each<'n, R: Read + Drop>(
    alloc: Global,
    name: &'n str,
    blocks: &mut Blocks<R>,
) -> Result<Vec<KeptBlock>, Failure<'n>>
    ensures kept { IfOk result (λ kept. AreAll blocks.old.coming (map block_of kept.items)) }
    ensures failed { IfErr result (IsListingFailure name.entry.now) }
{
    let mut kept = Vec::new(alloc);
    for _ in 0..u64::MAX {
        if !advance(name, blocks)? {
            return Ok(kept);
        }
        keep(alloc, blocks.line(), blocks.text(), &mut kept)?;
    }
    // No listing has so many blocks.
    Err(Failure::Unread(name))
}

/// The blocks of the listing that the reader reads, in its order. Of a block that is too long it
/// keeps only the first bytes, which are enough to report it.
pub(super) fn keep_blocks<'n, R: Read + Drop>(
    alloc: Global,
    name: &'n str,
    reader: R,
) -> Result<Vec<KeptBlock>, Failure<'n>>
    ensures kept { IfOk result (λ kept. AreAll (blocks_to_come 1 (R.remaining reader))
        (map block_of kept.items)) }
    ensures failed { IfErr result (IsListingFailure name.entry.now) }
{
    let mut blocks = Blocks::new(alloc, reader)?;
    keep_each(alloc, name, &mut blocks)
}

/// The place of the first block of each path.
fn first_places<'t>(
    alloc: Global,
    blocks: &'t [KeptBlock],
) -> Result<HashMap<&'t [u8], usize>, AllocError>
    ensures { IfOk result (λ places. (path : List ℕ) → get_by (λ key. bytes_eq path key.now) places
        ≡ first_place (has_path path) (map block_of blocks.entry.now)) }
{
    let mut places = HashMap::with_capacity(alloc, blocks.len())?;
    let mut place = blocks.len();
    // From the last to the first, so that the first of a path stays.
    while place > 0 {
        place -= 1;
        if let Some(path) = path_of(blocks[place].text.as_slice()) {
            places.insert(path, place)?;
        }
    }
    Ok(places)
}

/// A listing with a table of its paths. A contract sees the list of its blocks.
#[derive(Drop)]
pub(super) struct KeptListing<'t> {
    blocks: &'t [KeptBlock],
    /// The place of the first block of each path.
    places: HashMap<&'t [u8], usize>,
}

impl<'t> Model for KeptListing<'t> {
    ghost use Rattle.std.specs.Prelude.{◌≡◌, ℕ, List, bytes_eq, map};
    ghost use Rattle.std.specs.HashMap.{get_by};
    ghost use Rattle.acl_listings.specs.Listing.{Block};
    ghost use Rattle.acl_reports.specs.Paths.{has_path};
    ghost use Rattle.acl_listing_changes.specs.Kept.{block_of, first_place};

    ghost Value = { List Block };

    ghost view = { λ inside. map block_of inside.blocks.now };

    ghost invariant = { λ inside. (path : List ℕ)
        → get_by (λ key. bytes_eq path key.now) inside.places
        ≡ first_place (has_path path) (map block_of inside.blocks.now) };
}

impl<'t> KeptListing<'t> {
    /// The listing of these blocks. Fails only if memory runs out.
    pub fn new(alloc: Global, blocks: &'t [KeptBlock]) -> Result<KeptListing<'t>, AllocError>
        ensures { IfOk result (λ kept. kept ≡ map block_of blocks.entry.now) }
    {
        let places = first_places(alloc, blocks)?;
        Ok(KeptListing { blocks, places })
    }

    /// How many blocks there are.
    pub fn len(&self) -> usize
        ensures { result ≡ length self.now }
    {
        self.blocks.len()
    }

    /// The block at the place, if there is one.
    pub fn block(&self, place: usize) -> Option<&KeptBlock>
        ensures { option_map (λ block. block_of block.now) result ≡ slice_get self.now place }
    {
        self.blocks.get(place)
    }

    /// The block at the place; `None` without a place, or without a block at it.
    pub fn block_at(&self, place: Option<usize>) -> Option<&KeptBlock>
        ensures { option_map (λ block. block_of block.now) result
            ≡ option_and_then (slice_get self.now) place }
    {
        self.block(place?)
    }

    /// The place of the first block with the path of this text, if there are both.
    pub fn place_of(&self, text: &[u8]) -> Option<usize>
        ensures { result ≡ place_of self.now text.now }
    {
        let path = path_of(text)?;
        self.places.get(path).copied()
    }

    /// The first path of the listing.
    pub fn first_path(&self) -> Option<&[u8]>
        ensures { option_map (λ path. path.now) result ≡ first_path self.now }
    {
        for place in 0..self.blocks.len() {
            if let Some(path) = path_of(self.blocks[place].text.as_slice()) {
                return Some(path);
            }
        }
        None
    }

    /// Whether a block before the one at the place has the same path as this text.
    pub fn repeats(&self, place: usize, text: &[u8]) -> bool
        ensures { result ≡ is_earlier place (place_of self.now text.now) }
    {
        match self.place_of(text) {
            Some(first) => first < place,
            None => false,
        }
    }
}
