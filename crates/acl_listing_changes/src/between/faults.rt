//! Faults of a block of one of two listings, and their lines.
ghost use Rattle.std.specs.Prelude.{◌≡◌, ◌++◌, ℕ, IfErr, IfOk, List, OnOk, is_some};
ghost use Rattle.acl_reports.specs.Listed.{IsFaultLine, IsSaid};
ghost use Rattle.acl_reports.specs.Reporting.{IsListingFailure};
ghost use Rattle.acl_listing_changes.specs.Changes.{part_of, unless_repeated};

use super::reporter::{ChangeReporter, Found};
use acl_cli::Failure;
use acl_listings::BlockFault;
use acl_reports::push_fault_at;
use std::alloc::Global;

/// The fault of a block: `RepeatedPath` if an earlier block has its path, unless it is malformed.
pub fn unless_repeated(repeated: bool, fault: Option<BlockFault>) -> Option<BlockFault>
    ensures { result ≡ unless_repeated repeated fault }
{
    if !repeated {
        return fault;
    }
    match fault {
        Some(BlockFault::TooLong) => Some(BlockFault::TooLong),
        Some(BlockFault::BadHeader) => Some(BlockFault::BadHeader),
        _ => Some(BlockFault::RepeatedPath),
    }
}

/// Appends the line about the block with this text and this fault, whose first line has this
/// number.
pub(super) fn push_fault<'n, C: ChangeReporter>(
    name: &'n str,
    reporter: &C,
    line: u64,
    text: &[u8],
    fault: BlockFault,
    out: &mut Vec<u8>,
) -> Result<(), Failure<'n>>
    ensures said { OnOk result ((said : List ℕ) × IsFaultLine name.entry.now
        (C.wording reporter.now).names (record { line = line; text = text.now }) fault said
        × (out.new.items ≡ out.old.items ++ said)) }
    ensures failed { IfErr result (IsListingFailure name.entry.now) }
{
    let (before, faulty) = reporter.faulty_line(text, fault);
    push_fault_at(name, line, before, fault, faulty, out)
}

/// Appends the line about the block with this text if it has a fault, and returns what is found in
/// it.
pub(super) fn say_block<'n, C: ChangeReporter>(
    alloc: Global,
    name: &'n str,
    reporter: &C,
    line: u64,
    text: &[u8],
    repeated: bool,
    out: &mut Vec<u8>,
) -> Result<Found, Failure<'n>>
    ensures fault { IfOk result (λ found. found.fault
        ≡ unless_repeated repeated ((C.wording reporter.now).fault text.now)) }
    ensures strange { IfOk result (λ found.
        found.strange ≡ is_some ((C.wording reporter.now).stranger text.now)) }
    ensures said { IfOk result (λ found. (said : List ℕ) × IsSaid name.entry.now
        (C.wording reporter.now).names (record { line = line; text = text.now })
        (part_of found.fault) said
        × (out.new.items ≡ out.old.items ++ said)) }
    ensures failed { IfErr result (IsListingFailure name.entry.now) }
{
    let found = reporter.find(alloc, text)?;
    let strange = found.strange;
    let fault = unless_repeated(repeated, found.fault);
    if let Some(fault) = fault {
        push_fault(name, reporter, line, text, fault, out)?;
    }
    Ok(Found { fault, strange })
}
