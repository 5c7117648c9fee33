//! What is answered of a listing, path by path.
ghost use Rattle.std.specs.Prelude.{◌≡◌, ◌++◌, ◌∷◌, [], ℕ, IfErr, IfOk, IfSome, List, OnOk, false};
ghost use Rattle.std.specs.Prelude.{is_some, option_map};
ghost use Rattle.std.specs.Option.{option_map_or};
ghost use Rattle.acl_listings.specs.Block.{path_of};
ghost use Rattle.acl_listings.specs.Cursor.{blocks_to_come};
ghost use Rattle.acl_people.specs.Host.{names_of_host};
ghost use Rattle.acl_reports.specs.Listed.{IsSaid, Item, items_after, no_blocks};
ghost use Rattle.acl_reports.specs.Reporting.{IsListingFailure};
ghost use Rattle.acl_reports.specs.Strangers.{no_strangers};
ghost use Rattle.acl_listing_changes.specs.Changes.{part_of};
ghost use Rattle.acl_listing_reach.specs.AnsweredSteps.{AreAnswered, AreListed, IsPartBy};
ghost use Rattle.acl_listing_reach.specs.AnsweredSteps.{letters_unless};
ghost use Rattle.acl_listing_reach.specs.Once.{has_path, part_once, with_path};

use crate::known::KnownPaths;
use acl_cli::Failure;
use acl_listing_changes::unless_repeated;
use acl_listings::{BlockFault, Blocks, FileFault, path_of};
use acl_people::Host;
use acl_reports::{BlockReporter, Counts, advance, push_fault, sighting_of};
use std::alloc::{AllocError, Global};
use std::io::Read;

/// What is answered of a listing.
#[derive(Drop)]
pub(crate) struct Answered {
    pub known: KnownPaths,
    /// What is said of blocks of which that isn't known.
    pub said: Vec<u8>,
    pub counts: Counts,
}

/// Answers a block in place of what `letters` had. Returns what is wrong with it, if anything is;
/// else `letters` are what it results in. In either case the reporter has found whether it names an
/// id without an account. It fails only if memory runs out.
fn letters_of<T: BlockReporter>(
    alloc: Global,
    reporter: &mut T,
    text: &[u8],
    letters: &mut Vec<u8>,
) -> Result<Option<BlockFault>, AllocError>
    ensures same { OnOk result (T.part reporter.new ≡ T.part reporter.old) }
    ensures strangers { OnOk result (T.stranger reporter.new ≡ T.stranger reporter.old) }
    ensures found { (earlier : List (List ℕ)) → T.Stands reporter.old earlier
        → OnOk result (T.found reporter.new ≡ is_some (T.stranger reporter.old text.now)) }
    ensures stands { (earlier : List (List ℕ)) → T.Stands reporter.old earlier
        → OnOk result (T.Stands reporter.new (earlier ++ text.now ∷ [])) }
    ensures part { (earlier : List (List ℕ)) → T.Stands reporter.old earlier
        → IfOk result (λ fault. IsPartBy (T.part reporter.old earlier text.now) fault
        letters.new.items) }
{
    letters.clear();
    match reporter.push(alloc, text, letters) {
        Ok(()) => Ok(None),
        Err(FileFault::Block(fault)) => Ok(Some(fault)),
        Err(FileFault::Memory) => Err(AllocError),
    }
}

/// Whether the path of this text is known.
fn is_known(known: &KnownPaths, text: &[u8]) -> bool
    ensures { result
        ≡ option_map_or (λ path. has_path path known.now) (path_of text.now) false }
{
    match path_of(text) {
        Some(path) => known.has(path),
        None => false,
    }
}

/// The letters, if nothing is wrong.
fn letters_unless(fault: Option<BlockFault>, letters: &[u8]) -> Option<&[u8]>
    ensures { option_map (λ letters. letters.now) result ≡ letters_unless fault letters.now }
{
    match fault {
        Some(_) => None,
        None => Some(letters),
    }
}

/// Adds the path of this text to those that are known, with its letters, if it isn't one of them.
fn keep(
    alloc: Global,
    repeated: bool,
    text: &[u8],
    letters: Option<&[u8]>,
    known: &mut KnownPaths,
) -> Result<(), AllocError>
    requires { repeated ≡ option_map_or (λ path. has_path path known.old) (path_of text.now) false }
    ensures { OnOk result (known.new ≡ with_path known.old (path_of text.now)
        (option_map (λ letters. letters.now) letters.entry)) }
{
    if repeated {
        return Ok(());
    }
    match path_of(text) {
        Some(path) => known.push(alloc, path, letters),
        None => Ok(()),
    }
}

/// Appends the line of the block with this text, whose first line has this number, if this is wrong
/// with it.
fn say<'n>(
    name: &'n str,
    host: &Host,
    line: u64,
    text: &[u8],
    fault: Option<BlockFault>,
    said: &mut Vec<u8>,
) -> Result<(), Failure<'n>>
    ensures said { OnOk result ((line_said : List ℕ) × IsSaid name.entry.now
        (names_of_host host.now) (record { line = line; text = text.now }) (part_of fault) line_said
        × (said.new.items ≡ said.old.items ++ line_said)) }
    ensures failed { IfErr result (IsListingFailure name.entry.now) }
{
    match fault {
        Some(fault) => push_fault(name, host, line, text, fault, said),
        None => Ok(()),
    }
}

impl Answered {
    /// Nothing yet.
    fn new(alloc: Global) -> Answered
        ensures known { result.known ≡ [] }
        ensures said { result.said.items ≡ [] }
        ensures tally { result.counts.tally ≡ no_blocks }
        ensures strangers { result.counts.strangers ≡ no_strangers }
    {
        Answered {
            known: KnownPaths::new(alloc),
            said: Vec::new(alloc),
            counts: Counts::new(),
        }
    }

    /// Answers one block more of the listing of this name. In `letters` is what the last one
    /// resulted in.
    fn add<'n, T: BlockReporter>(
        &mut self,
        alloc: Global,
        name: &'n str,
        host: &Host,
        reporter: &mut T,
        line: u64,
        text: &[u8],
        letters: &mut Vec<u8>,
    ) -> Result<(), Failure<'n>>
        ensures same { OnOk result (T.part reporter.new ≡ T.part reporter.old) }
        ensures strangers { OnOk result (T.stranger reporter.new ≡ T.stranger reporter.old) }
        ensures stands { (earlier : List (List ℕ)) → T.Stands reporter.old earlier
            → OnOk result (T.Stands reporter.new (earlier ++ text.now ∷ [])) }
        ensures answered { (earlier : List (List ℕ)) (items : List Item)
            → T.Stands reporter.old earlier → AreListed earlier self.old.known
            → AreAnswered name.entry.now (names_of_host host.now) (T.stranger reporter.old) items
            self.old.known self.old.said.items self.old.counts
            → OnOk result (AreAnswered name.entry.now (names_of_host host.now)
            (T.stranger reporter.old) (items ++ record {
              block = record { line = line; text = text.now };
              part = part_once (T.part reporter.old) earlier text.now;
            } ∷ []) self.new.known self.new.said.items self.new.counts
            × AreListed (earlier ++ text.now ∷ []) self.new.known) }
        ensures failed { IfErr result (IsListingFailure name.entry.now) }
    {
        let own = letters_of(alloc, reporter, text, letters)?;
        let sighting = sighting_of(reporter, &self.counts.strangers, text);
        let repeated = is_known(&self.known, text);
        let fault = unless_repeated(repeated, own);
        say(name, host, line, text, fault, &mut self.said)?;
        self.counts.add(name, line, text, fault, sighting)?;
        let letters = letters_unless(fault, letters.as_slice());
        keep(alloc, repeated, text, letters, &mut self.known)?;
        Ok(())
    }
}

/// Answers the blocks that are still to come, of the listing of this name.
fn answer_each<'n, T: BlockReporter + Drop, R: Read + Drop>(
    alloc: Global,
    name: &'n str,
    host: &Host,
    reporter: T,
    blocks: &mut Blocks<R>,
) -> Result<Answered, Failure<'n>>
    requires { T.Stands reporter [] }
    ensures answered { IfOk result (λ answered. IfSome blocks.old.coming (λ blocks.
        AreAnswered name.entry.now (names_of_host host.now) (T.stranger reporter)
        (items_after (part_once (T.part reporter)) [] blocks) answered.known answered.said.items
        answered.counts)) }
    ensures failed { IfErr result (IsListingFailure name.entry.now) }
{
    let mut answered = Answered::new(alloc);
    let mut reporter = reporter;
    let mut letters = Vec::new(alloc);
    for _ in 0..u64::MAX {
        if !advance(name, blocks)? {
            return Ok(answered);
        }
        answered.add(
            alloc,
            name,
            host,
            &mut reporter,
            blocks.line(),
            blocks.text(),
            &mut letters,
        )?;
    }
    // No listing has so many blocks.
    Err(Failure::Unread(name))
}

/// What is answered of the listing of this name that the reader reads: of each path by the first
/// block that has it.
pub(crate) fn answer_listing<'n, T: BlockReporter + Drop, R: Read + Drop>(
    alloc: Global,
    name: &'n str,
    host: &Host,
    reporter: T,
    reader: R,
) -> Result<Answered, Failure<'n>>
    requires { T.Stands reporter [] }
    ensures answered { IfOk result (λ answered. IfSome (blocks_to_come 1 (R.remaining reader))
        (λ blocks. AreAnswered name.entry.now (names_of_host host.now) (T.stranger reporter)
        (items_after (part_once (T.part reporter)) [] blocks) answered.known answered.said.items
        answered.counts)) }
    ensures failed { IfErr result (IsListingFailure name.entry.now) }
{
    let mut blocks = Blocks::new(alloc, reader)?;
    answer_each(alloc, name, host, reporter, &mut blocks)
}
