//! What is found in the block of a file.
ghost use Rattle.std.specs.Prelude.{◌≡◌, IfErr, IfOk, OnOk};
ghost use Rattle.acl_listings.specs.Views.{view_file};
ghost use Rattle.acl_names.specs.Bytes.{newline};
ghost use Rattle.acl_names.specs.Pieces.{parts};
ghost use Rattle.acl_reports.specs.Reporting.{IsListingFailure};
ghost use Rattle.acl_listing_lint.specs.Findings.{IsFoundBetween, IsFoundInBlock, IsFoundInLists};
ghost use Rattle.acl_listing_lint.specs.Findings.{created_of, owners_of};
ghost use Rattle.acl_listing_lint.specs.Seen.{seen_then};
ghost use Rattle.acl_listing_lint.specs.LintSteps.{Adds, IsBlockReported, IsRefusalSaid};

use crate::aces::{ListedAces, push_ace_lines};
use crate::entries::{ListedLists, line_behind, push_lines};
use crate::from_default::push_lacking;
use crate::no_account::push_owners;
use crate::seen::{Seen, created_for, push_shown, see};
use acl_cli::{Failure, RunFault};
use acl_listings::{BlockFault, File, FileFault, Lists, lines_behind, read_file};
use acl_nfs4::Owners;
use acl_people::Host;
use acl_posix::Acl;
use acl_reports::push_fault;
use std::alloc::Global;

/// How many lines a block's header has.
const HEADER_LINES: u64 = 3;

/// Whose the file is, and its group.
fn owners_of(file: &File<'_>) -> Owners
    ensures { result ≡ owners_of (view_file file.now) }
{
    Owners {
        owner: file.owner,
        group: file.group,
    }
}

/// Appends what is found in the lines behind a header, of which the first has this number, of a
/// file that would have got the created list.
fn push_lists<'n>(
    alloc: Global,
    name: &'n str,
    host: &Host,
    owners: &Owners,
    created: &Option<Acl>,
    lists: &Lists,
    first: u64,
    list: &[u8],
    out: &mut Vec<u8>,
) -> Result<(), Failure<'n>>
    ensures found { OnOk result (Adds (IsFoundInLists
        (record { name = name.entry.now; host = host.now }) owners.now created.now lists.now first
        (parts newline list.now)) out.old.items out.new.items) }
    ensures failed { IfErr result (IsListingFailure name.entry.now) }
{
    match lists {
        Lists::Posix { access, default } => {
            let listed = ListedLists {
                owners: *owners,
                access,
                default,
                created,
            };
            push_lines(alloc, name, host, &listed, first, list, out)
        }
        Lists::Nfs4 { acl } => {
            let listed = ListedAces {
                acl,
                owners: *owners,
                host,
            };
            push_ace_lines(alloc, name, &listed, first, list, out)
        }
    }
}

/// Appends what is found in the block with this text, whose first line has this number, and which
/// says the file, which would have got the created list.
fn push_found<'n>(
    alloc: Global,
    name: &'n str,
    host: &Host,
    created: &Option<Acl>,
    line: u64,
    text: &[u8],
    file: &File<'_>,
    out: &mut Vec<u8>,
) -> Result<(), Failure<'n>>
    ensures found { OnOk result (Adds (IsFoundInBlock
        (record { name = name.entry.now; host = host.now }) created.now
        (record { line = line; text = text.now }) (view_file file.now))
        out.old.items out.new.items) }
    ensures failed { IfErr result (IsListingFailure name.entry.now) }
{
    let owners = owners_of(file);
    push_lacking(name, line, created, &file.lists, out)?;
    push_owners(name, host, line, &owners, out)?;
    let list = lines_behind(lines_behind(lines_behind(text)));
    let first = line_behind(name, line, HEADER_LINES)?;
    push_lists(
        alloc,
        name,
        host,
        &owners,
        created,
        &file.lists,
        first,
        list,
        out,
    )?;
    Ok(())
}

/// Appends what is found in such a block, by the folders that were seen.
fn push_found_by<'n>(
    alloc: Global,
    name: &'n str,
    host: &Host,
    seen: &Seen,
    line: u64,
    text: &[u8],
    file: &File<'_>,
    out: &mut Vec<u8>,
) -> Result<(), Failure<'n>>
    ensures found { OnOk result (Adds (IsFoundInBlock
        (record { name = name.entry.now; host = host.now })
        (created_of seen.now (view_file file.now))
        (record { line = line; text = text.now }) (view_file file.now))
        out.old.items out.new.items) }
    ensures failed { IfErr result (IsListingFailure name.entry.now) }
{
    let created = created_for(alloc, seen, file)?;
    push_found(alloc, name, host, &created, line, text, file, out)
}

/// Appends what is found in such a block and at its file, and what that shows of the one that is
/// pending, and makes of what was seen what is seen behind it.
fn push_file<'n>(
    alloc: Global,
    name: &'n str,
    host: &Host,
    seen: &mut Seen,
    line: u64,
    text: &[u8],
    file: File<'_>,
    out: &mut Vec<u8>,
) -> Result<(), Failure<'n>>
    ensures found { OnOk result (Adds (IsFoundBetween
        (record { name = name.entry.now; host = host.now }) seen.old
        (record { line = line; text = text.now }) (view_file file.entry))
        out.old.items out.new.items) }
    ensures seen { OnOk result (seen.new ≡ seen_then seen.old line (view_file file.entry)) }
    ensures failed { IfErr result (IsListingFailure name.entry.now) }
{
    push_shown(name, seen, file.path, out)?;
    push_found_by(alloc, name, host, seen, line, text, &file, out)?;
    see(alloc, name, line, file, seen, out)?;
    Ok(())
}

/// Appends what is said of the block with this text, which says no file for this, and returns what
/// is wrong with it.
fn push_refusal<'n>(
    name: &'n str,
    host: &Host,
    line: u64,
    text: &[u8],
    refused: FileFault,
    beside: &mut Vec<u8>,
) -> Result<Option<BlockFault>, Failure<'n>>
    ensures said { IfOk result (λ fault. IsRefusalSaid
        (record { name = name.entry.now; host = host.now })
        (record { line = line; text = text.now }) refused fault beside.old.items beside.new.items) }
    ensures failed { IfErr result (IsListingFailure name.entry.now) }
{
    match refused {
        FileFault::Block(fault) => {
            push_fault(name, host, line, text, fault, beside)?;
            Ok(Some(fault))
        }
        FileFault::Memory => Err(Failure::Lacks(RunFault::Memory)),
    }
}

/// Appends what is found in the block with this text, or what is said of it, and returns what is
/// wrong with it, if it says no file.
pub(crate) fn report_block<'n>(
    alloc: Global,
    name: &'n str,
    host: &Host,
    seen: &mut Seen,
    line: u64,
    text: &[u8],
    out: &mut Vec<u8>,
    beside: &mut Vec<u8>,
) -> Result<Option<BlockFault>, Failure<'n>>
    ensures reported { IfOk result (λ fault. IsBlockReported
        (record { name = name.entry.now; host = host.now }) seen.old seen.new
        (record { line = line; text = text.now }) fault out.old.items out.new.items
        beside.old.items beside.new.items) }
    ensures failed { IfErr result (IsListingFailure name.entry.now) }
{
    match read_file(alloc, text, host) {
        Ok(file) => {
            push_file(alloc, name, host, seen, line, text, file, out)?;
            Ok(None)
        }
        Err(refused) => push_refusal(name, host, line, text, refused, beside),
    }
}
