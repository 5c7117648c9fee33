//! Reporting on a listing, block by block.
ghost use Rattle.std.specs.Prelude.{◌≡◌, ◌+◌, ◌++◌, ◌∷◌, ◌⊎◌, ℕ, Bool, IfErr, IfOk, List, []};
ghost use Rattle.std.specs.Prelude.{OnErr, OnOk, Option, codes, decimal, is_some, true};
ghost use Rattle.acl_cli.specs.Commands.{FrontWentOut, NothingWentOut, WentOut};
ghost use Rattle.acl_cli.specs.ErrorOutput.{line_of_words};
ghost use Rattle.acl_cli.specs.Failures.{failed_write};
ghost use Rattle.acl_names.specs.Shown.{shown};
ghost use Rattle.acl_people.specs.Host.{names_of_host};
ghost use Rattle.acl_reports.specs.Listed.{AnswersNaming, BeginsNaming, IsFaultLine};
ghost use Rattle.acl_reports.specs.Listed.{Part, fault_words};
ghost use Rattle.acl_reports.specs.Reporting.{IsItemDone, IsItemReported, IsListingFailure};
ghost use Rattle.acl_reports.specs.Reporting.{IsPart, UnlessMemory};

use crate::counts::Counts;
use crate::lines::push_fault_line;
use crate::next_block::advance;
use crate::sighting::sighting_of;
use crate::stranger::Stranger;
use acl_cli::{Ending, ErrorOutput, Failure, Reporting, RunFault, report_each};
use acl_listings::{BlockFault, Blocks, FileFault, faulty_line};
use acl_people::Host;
use std::alloc::Global;
use std::io::{Read, Write};

/// Reports on the blocks of a listing, one after the other.
pub trait BlockReporter {
    ghost use Rattle.acl_reports.specs.declared.stranger.Stranger.{Stranger};

    /// It stands behind blocks with these texts.
    ghost Stands: { Self → List (List ℕ) → Type 0 };

    /// What a block with a text results in, behind blocks with others.
    ghost part: { Self → List (List ℕ) → List ℕ → Part };

    /// Which id without an account a block with a text names first, if one.
    ghost stranger: { Self → List ℕ → Option Stranger };

    /// Whether the block that was pushed last names one.
    ghost found: { Self → Bool };

    /// Appends what is reported for the block with this text, or reports why that isn't known.
    fn push(&mut self, alloc: Global, text: &[u8], out: &mut Vec<u8>) -> Result<(), FileFault>
        ensures same { UnlessMemory result (part self.new ≡ part self.old) }
        ensures stands { (earlier : List (List ℕ)) → Stands self.old earlier
            → UnlessMemory result (Stands self.new (earlier ++ text.now ∷ [])) }
        ensures part { (earlier : List (List ℕ)) → Stands self.old earlier
            → IsPart (part self.old earlier text.now) result out.old.items out.new.items }
        ensures strangers { UnlessMemory result (stranger self.new ≡ stranger self.old) }
        ensures found { (earlier : List (List ℕ)) → Stands self.old earlier
            → UnlessMemory result (found self.new ≡ is_some (stranger self.old text.now)) };

    /// Whether the block that was pushed last names an id without an account, if that is looked
    /// for.
    fn names_stranger(&self) -> bool
        ensures { result ≡ found self.now };

    /// The first such id that the block with this text names, which names one.
    fn stranger(&self, text: &[u8]) -> Option<Stranger>
        ensures { is_some (stranger self.now text.now) ≡ true
            → result ≡ stranger self.now text.now };
}

/// The rest of a listing, and its report so far.
#[derive(Drop)]
pub(crate) struct Listing<'n, 't, T: BlockReporter + Drop, R: Read + Drop> {
    name: &'n str,
    host: &'t Host,
    reporter: T,
    blocks: Blocks<R>,
    counts: Counts,
    /// Whether what is said at the end was said.
    closed: bool,
}

/// Appends the line about a faulty block whose first line has this number; the line at fault is
/// `before` lines further on. Fails if memory runs out, or if that line's number doesn't fit in 64
/// bits.
pub fn push_fault_at<'n>(
    name: &'n str,
    line: u64,
    before: usize,
    fault: BlockFault,
    faulty: &[u8],
    out: &mut Vec<u8>,
) -> Result<(), Failure<'n>>
    ensures said { OnOk result (out.new.items ≡ out.old.items ++ line_of_words (name.entry.now
        ++ codes ":" ++ decimal (line + before) ++ codes ": " ++ fault_words fault ++ codes ": "
        ++ shown faulty.now)) }
    ensures failed { IfErr result (IsListingFailure name.entry.now) }
{
    let Some(place) = line.checked_add(before as u64) else {
        // No listing has so many lines.
        return Err(Failure::Unread(name));
    };
    push_fault_line(name, place, fault, faulty, out)?;
    Ok(())
}

/// Appends the line about a faulty block, `aclctl: NAME:LINE: WORD: TEXT`, with its line at fault.
/// `line` is the number of its first line. Fails if memory runs out, or if the number doesn't fit
/// in 64 bits.
pub fn push_fault<'n>(
    name: &'n str,
    host: &Host,
    line: u64,
    text: &[u8],
    fault: BlockFault,
    out: &mut Vec<u8>,
) -> Result<(), Failure<'n>>
    ensures said { OnOk result ((said : List ℕ) × IsFaultLine name.entry.now
        (names_of_host host.now) (record { line = line; text = text.now }) fault said
        × (out.new.items ≡ out.old.items ++ said)) }
    ensures failed { IfErr result (IsListingFailure name.entry.now) }
{
    let (before, faulty) = faulty_line(text, fault, host);
    push_fault_at(name, line, before, fault, faulty, out)
}

/// Appends the report for the block with this text to `out`, or the line about its fault to
/// `beside`, and returns the fault, if there is one.
#[inline(always)]
fn report_block<'n, T: BlockReporter>(
    alloc: Global,
    name: &'n str,
    host: &Host,
    reporter: &mut T,
    line: u64,
    text: &[u8],
    out: &mut Vec<u8>,
    beside: &mut Vec<u8>,
) -> Result<Option<BlockFault>, Failure<'n>>
    ensures same { OnOk result (T.part reporter.new ≡ T.part reporter.old) }
    ensures strangers { OnOk result (T.stranger reporter.new ≡ T.stranger reporter.old) }
    ensures found { (earlier : List (List ℕ)) → T.Stands reporter.old earlier
        → OnOk result (T.found reporter.new ≡ is_some (T.stranger reporter.old text.now)) }
    ensures stands { (earlier : List (List ℕ)) → T.Stands reporter.old earlier
        → OnOk result (T.Stands reporter.new (earlier ++ text.now ∷ [])) }
    ensures reported { (earlier : List (List ℕ)) → T.Stands reporter.old earlier
        → IfOk result (λ fault. IsItemReported name.entry.now (names_of_host host.now)
        (record {
          block = record { line = line; text = text.now };
          part = T.part reporter.old earlier text.now;
        }) fault out.old.items out.new.items
        beside.old.items beside.new.items) }
    ensures failed { IfErr result (IsListingFailure name.entry.now) }
{
    match reporter.push(alloc, text, out) {
        Ok(()) => Ok(None),
        Err(FileFault::Block(fault)) => {
            push_fault(name, host, line, text, fault, beside)?;
            Ok(Some(fault))
        }
        Err(FileFault::Memory) => Err(Failure::Lacks(RunFault::Memory)),
    }
}

impl<'n, 't, T: BlockReporter + Drop, R: Read + Drop> Listing<'n, 't, T, R> {
    /// Reports on the current block.
    fn report_here(
        &mut self,
        alloc: Global,
        out: &mut Vec<u8>,
        beside: &mut Vec<u8>,
    ) -> Result<(), Failure<'n>>
        ensures name { self.new.name ≡ self.old.name }
        ensures rest { OnOk result (self.new ≡ record self.old {
          reporter = self.new.reporter;
          counts = self.new.counts;
        }) }
        ensures same { OnOk result (T.part self.new.reporter ≡ T.part self.old.reporter) }
        ensures same_strangers { OnOk result
            (T.stranger self.new.reporter ≡ T.stranger self.old.reporter) }
        ensures stands { (earlier : List (List ℕ)) → T.Stands self.old.reporter earlier
            → OnOk result (T.Stands self.new.reporter
            (earlier ++ self.old.blocks.block.text ∷ [])) }
        ensures reported { (earlier : List (List ℕ)) → T.Stands self.old.reporter earlier
            → OnOk result (IsItemDone self.old.name.now (names_of_host self.old.host.now)
            (record {
              block = self.old.blocks.block;
              part = T.part self.old.reporter earlier self.old.blocks.block.text;
            })
            (T.stranger self.old.reporter self.old.blocks.block.text) self.old.counts.tally
            self.new.counts.tally self.old.counts.strangers self.new.counts.strangers
            out.old.items out.new.items beside.old.items beside.new.items) }
        ensures failed { IfErr result (IsListingFailure self.old.name.now) }
    {
        let line = self.blocks.line();
        let text = self.blocks.text();
        let fault = report_block(
            alloc,
            self.name,
            self.host,
            &mut self.reporter,
            line,
            text,
            out,
            beside,
        )?;
        let sighting = sighting_of(&self.reporter, &self.counts.strangers, text);
        self.counts.add(self.name, line, text, fault, sighting)?;
        Ok(())
    }
}

impl<'n, 't, T: BlockReporter + Drop, R: Read + Drop> Reporting<'n> for Listing<'n, 't, T, R> {
    ghost use Rattle.acl_reports.specs.Reporting.{BeginsOf, EndsOf, IsListingFailure};
    ghost use Rattle.acl_reports.specs.Reporting.{ReportsOf, left_of};

    ghost Reports = { λ listing. ReportsOf (T.Stands listing.reporter)
        (left_of T.part T.stranger listing) };

    ghost Begins = { λ listing. BeginsOf (T.Stands listing.reporter)
        (left_of T.part T.stranger listing) };

    ghost Ends = { λ listing. EndsOf (T.Stands listing.reporter)
        (left_of T.part T.stranger listing) };

    ghost Fails = { λ listing. IsListingFailure listing.name.now };

    fn report_next(
        &mut self,
        alloc: Global,
        out: &mut Vec<u8>,
        beside: &mut Vec<u8>,
    ) -> Result<bool, Failure<'n>> {
        if self.closed {
            return Ok(false);
        }
        if advance(self.name, &mut self.blocks)? {
            self.report_here(alloc, out, beside)?;
            return Ok(true);
        }
        self.counts.push_last(self.name, beside)?;
        self.closed = true;
        Ok(true)
    }
}

/// Writes the report on each block of the listing, in pieces as they are read, and to `err` a line
/// for each faulty block, and at the end how many these are.
pub(crate) fn report_listing<'n, 't, T, R, W, E>(
    alloc: Global,
    name: &'n str,
    host: &'t Host,
    reporter: T,
    reader: R,
    out: &mut W,
    err: &mut ErrorOutput<E>,
) -> Result<Ending, Failure<'n>>
where
    T: BlockReporter + Drop,
    R: Read + Drop,
    W: Write,
    E: Write + Drop,
    requires { T.Stands reporter [] }
    ensures answered { IfOk result (λ ending. WentOut (AnswersNaming name.entry.now
        (names_of_host host.entry.now) (T.part reporter) (T.stranger reporter) (R.remaining reader))
        ending (W.contents out.old) (W.contents out.new) err.old err.new) }
    ensures cut { OnErr result (NothingWentOut (W.contents out.old) (W.contents out.new) err.old
        err.new ⊎ FrontWentOut (BeginsNaming name.entry.now (names_of_host host.entry.now)
        (T.part reporter) (T.stranger reporter) (R.remaining reader)) (W.contents out.old)
        (W.contents out.new) err.old err.new) }
    ensures failed { IfErr result (λ failure. IsListingFailure name.entry.now failure
        ⊎ (failure ≡ failed_write)) }
{
    let blocks = Blocks::new(alloc, reader)?;
    let mut listing = Listing {
        name,
        host,
        reporter,
        blocks,
        counts: Counts::new(),
        closed: false,
    };
    report_each(alloc, &mut listing, out, err)?;
    if listing.closed {
        Ok(listing.counts.ending())
    } else {
        // Everything is reported only after the closing lines.
        Err(Failure::Unread(name))
    }
}
