//! Finding the block of a listing that has a path.
ghost use Rattle.std.specs.Prelude.{◌≡◌, bytes_eq, false, IfErr, IfOk};
ghost use Rattle.std.specs.Option.{option_map_or};
ghost use Rattle.acl_listings.specs.Block.{path_of};
ghost use Rattle.acl_listings.specs.Cursor.{blocks_to_come};
ghost use Rattle.acl_reports.specs.ListingMeaning.{inputs_of};
ghost use Rattle.acl_listing_queries.specs.WhyMeaning.{AnswersPath, FailsForPath, blocks_named};
ghost use Rattle.acl_listing_queries.specs.WhySteps.{asked_by};

use super::answer::{Made, answer_block};
use super::question::Question;
use super::way::Way;
use acl_cli::{Failure, OpenFiles, Reason, Refusal};
use acl_listings::{Blocks, path_of};
use acl_reports::{INPUT, advance};
use std::alloc::Global;
use std::io::Read;

/// Whether the block with this text has the path.
fn has_path(text: &[u8], path: &[u8]) -> bool
    ensures { result ≡ option_map_or (bytes_eq path.now) (path_of text.now) false }
{
    match path_of(text) {
        Some(own) => path == own,
        None => false,
    }
}

/// The answer about the first block with the path, out of the blocks still to come of the listing
/// of this name.
fn seek<'n, R: Read + Drop>(
    alloc: Global,
    name: &'n str,
    path: &[u8],
    question: &Question<'_>,
    blocks: &mut Blocks<R>,
) -> Result<Made, Failure<'n>>
    ensures made { IfOk result (AnswersPath (asked_by question.now) name.entry.now path.now
        blocks.old.coming) }
    ensures failed { IfErr result
        (FailsForPath name.entry.now path.now blocks.old.coming) }
{
    let mut way = Way::new(alloc);
    for _ in 0..u64::MAX {
        if !advance(name, blocks)? {
            let path = Vec::from_slice(alloc, path)?;
            return Err(Failure::Refused(Refusal::for_text(name, "no such file", path)));
        }
        let text = blocks.text();
        if has_path(text, path) {
            return answer_block(alloc, name, question, &mut way, blocks.line(), text);
        }
        way.go_on(alloc, path, text)?;
    }
    // No listing has so many blocks.
    Err(Failure::Unread(name))
}

/// The same for the listing that the reader reads.
fn seek_in<'n, R: Read + Drop>(
    alloc: Global,
    name: &'n str,
    path: &[u8],
    question: &Question<'_>,
    reader: R,
) -> Result<Made, Failure<'n>>
    ensures made { IfOk result (AnswersPath (asked_by question.now) name.entry.now path.now
        (blocks_to_come 1 (R.remaining reader))) }
    ensures failed { IfErr result (FailsForPath name.entry.now path.now
        (blocks_to_come 1 (R.remaining reader))) }
{
    let mut blocks = Blocks::new(alloc, reader)?;
    seek(alloc, name, path, question, &mut blocks)
}

/// The same for the listing of this name: `input` for `-`, and else the file with the name, which
/// leaves `input` as it is.
pub(super) fn seek_named<'n, F: OpenFiles, I: Read>(
    alloc: Global,
    files: &F,
    name: &'n str,
    path: &[u8],
    question: &Question<'_>,
    input: &mut I,
) -> Result<Made, Failure<'n>>
    ensures made { IfOk result (AnswersPath (asked_by question.now) name.entry.now path.now
        (blocks_named (F.bytes_of files.now) (I.remaining input.old) name.entry.now)) }
    ensures failed { IfErr result (FailsForPath name.entry.now path.now
        (blocks_named (F.bytes_of files.now) (I.remaining input.old) name.entry.now)) }
    ensures untouched { inputs_of name.entry.now ≡ 0 → input.new ≡ input.old }
{
    if name == INPUT {
        return seek_in(alloc, name, path, question, input);
    }
    match files.open(name) {
        Ok(file) => seek_in(alloc, name, path, question, file),
        Err(error) => Err(Failure::CannotRead(name, Reason::of(error.kind()))),
    }
}
