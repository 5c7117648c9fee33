//! The answer of `why` about the block that has a path.
ghost use Rattle.std.specs.Prelude.{◌≡◌, ℕ, IfErr, IfOk, List, Ok, Some};
ghost use Rattle.acl_listings.specs.Block.{path_of};
ghost use Rattle.acl_listings.specs.Faults.{IsFaultOf};
ghost use Rattle.acl_listings.specs.Listing.{Block};
ghost use Rattle.acl_posix.specs.Perms.{bits_of};
ghost use Rattle.acl_reports.specs.Reporting.{IsListingFailure};
ghost use Rattle.acl_listing_queries.specs.Readings.{Reading};
ghost use Rattle.acl_listing_queries.specs.WhyMeaning.{IsWhyAnswer, readings};
ghost use Rattle.acl_listing_queries.specs.WhySteps.{IsNearest, IsWayTo, asked_by, view_at};
ghost use Rattle.acl_listing_queries.specs.WhyText.{Deletion, nearest, permissions_text};
ghost use Rattle.acl_listing_queries.specs.WhyText.{sought_part, why_part};

use super::deletion::{FileAt, push_deletion};
use super::folders::Folders;
use super::question::{Question, Sought};
use super::text::push_decision;
use super::way::Way;
use acl_access::deletes;
use acl_bridge::FileAcl;
use acl_cli::{Ending, Failure, RunFault};
use acl_listings::{FileFault, read_file};
use acl_names::Requester;
use acl_posix::Perms;
use acl_queries::answer_line;
use acl_reports::{owners_and_list, push_fault};
use std::alloc::{AllocError, Global};
use std::marker::Model;

/// An answer that is made, and not yet written.
#[derive(Drop)]
pub(super) struct Made {
    pub text: Vec<u8>,
    /// The lines for standard error.
    pub beside: Vec<u8>,
    pub ending: Ending,
}

impl Model for Made {
    ghost use Rattle.acl_cli.specs.Commands.{Answer};

    ghost Value = { Answer };

    ghost view = { λ made. record {
      text = made.text.items;
      beside = made.beside.items;
      ending = made.ending;
    } };
}

/// The report on the file at the path after these folders, about permissions.
fn report_permissions(
    alloc: Global,
    requester: &Requester,
    perms: Perms,
    folders: &Folders<'_>,
    at: &FileAt<'_, '_>,
) -> Result<Vec<u8>, AllocError>
    ensures { IfOk result (λ text. text.items ≡ permissions_text requester.now (bits_of perms)
        folders.now.reach folders.now.text.items (view_at at.now)) }
{
    let granted = at.acl.may(requester, perms) && folders.reach;
    let mut text = Vec::new(alloc);
    text.extend_from_slice(answer_line(granted).as_bytes())?;
    text.extend_from_slice(folders.text.as_slice())?;
    push_decision(alloc, "file", at.path, &at.acl, requester, perms, &mut text)?;
    Ok(text)
}

/// The report on the file at the path after these folders, about deleting it.
fn report_deletion(
    alloc: Global,
    question: &Question<'_>,
    folders: &Folders<'_>,
    at: &FileAt<'_, '_>,
) -> Result<Vec<u8>, FileFault>
    ensures reported { let asking = asked_by question.now in (way : List Reading)
        → IsNearest asking.names folders.now.last way
        → IfOk result (λ text. sought_part asking.rules Deletion asking.who folders.now.reach
        folders.now.text.items (nearest way) (view_at at.now) ≡ Ok text.items) }
    ensures refused { let asking = asked_by question.now in (way : List Reading)
        → IsNearest asking.names folders.now.last way
        → IfErr result (IsFaultOf (sought_part asking.rules Deletion asking.who folders.now.reach
        folders.now.text.items (nearest way) (view_at at.now))) }
{
    let folder = folders.nearest(alloc, question.host)?;
    let (path, sticky) = (folder.path, folder.flags.sticky);
    let (owners, list) = owners_and_list(alloc, question.rules, folder)?;
    let acl = FileAcl {
        owners,
        list: list.as_ref(),
    };
    let above = FileAt { path, acl };
    let requester = question.requester;
    let granted = deletes(sticky, &above.acl, &at.acl, requester) && folders.reach;
    let mut text = Vec::new(alloc);
    text.extend_from_slice(answer_line(granted).as_bytes())?;
    text.extend_from_slice(folders.text.as_slice())?;
    push_deletion(alloc, requester, sticky, &above, at, &mut text)?;
    Ok(text)
}

/// The report on the file at the path after these folders.
fn report_sought(
    alloc: Global,
    question: &Question<'_>,
    folders: &Folders<'_>,
    at: &FileAt<'_, '_>,
) -> Result<Vec<u8>, FileFault>
    ensures reported { let asking = asked_by question.now in (way : List Reading)
        → IsNearest asking.names folders.now.last way
        → IfOk result (λ text. sought_part asking.rules asking.sought asking.who
        folders.now.reach folders.now.text.items (nearest way) (view_at at.now)
        ≡ Ok text.items) }
    ensures refused { let asking = asked_by question.now in (way : List Reading)
        → IsNearest asking.names folders.now.last way
        → IfErr result (IsFaultOf (sought_part asking.rules asking.sought asking.who
        folders.now.reach folders.now.text.items (nearest way) (view_at at.now))) }
{
    match question.sought {
        Sought::Permissions(perms) => {
            let text = report_permissions(alloc, question.requester, perms, folders, at)?;
            Ok(text)
        }
        Sought::Deletion => report_deletion(alloc, question, folders, at),
    }
}

/// The report on the file of the block with this text, at the end of this way. Fails with the fault
/// of the block or of a parent, or if memory runs out.
fn report_block(
    alloc: Global,
    question: &Question<'_>,
    way: &mut Way,
    text: &[u8],
) -> Result<Vec<u8>, FileFault>
    ensures reported { (path : List ℕ) (earlier : List Reading) → path_of text.now ≡ Some path
        → IsWayTo (asked_by question.now).names path earlier way.old
        → IfOk result (λ reported. why_part (asked_by question.now) earlier text.now
        ≡ Ok reported.items) }
    ensures refused { (path : List ℕ) (earlier : List Reading) → path_of text.now ≡ Some path
        → IsWayTo (asked_by question.now).names path earlier way.old
        → IfErr result (IsFaultOf (why_part (asked_by question.now) earlier text.now)) }
{
    let file = read_file(alloc, text, question.host)?;
    let path = file.path;
    let (owners, list) = owners_and_list(alloc, question.rules, file)?;
    let acl = FileAcl {
        owners,
        list: list.as_ref(),
    };
    let folders = way.come_to(alloc, question, path)?;
    let at = FileAt { path, acl };
    report_sought(alloc, question, &folders, &at)
}

/// The answer about the block with this text, whose first line has this number, at the end of this
/// way.
pub(super) fn answer_block<'n>(
    alloc: Global,
    name: &'n str,
    question: &Question<'_>,
    way: &mut Way,
    line: u64,
    text: &[u8],
) -> Result<Made, Failure<'n>>
    ensures made { (path : List ℕ) (earlier : List Block) → path_of text.now ≡ Some path
        → IsWayTo (asked_by question.now).names path
        (readings (asked_by question.now).names earlier) way.old → IfOk result
        (IsWhyAnswer (asked_by question.now) name.entry.now (record {
          earlier = earlier;
          here = record { line = line; text = text.now };
        })) }
    ensures failed { IfErr result (IsListingFailure name.entry.now) }
{
    let mut beside = Vec::new(alloc);
    match report_block(alloc, question, way, text) {
        Ok(text) => Ok(Made {
            text,
            beside,
            ending: Ending::Answered,
        }),
        Err(FileFault::Block(fault)) => {
            push_fault(name, question.host, line, text, fault, &mut beside)?;
            Ok(Made {
                text: Vec::new(alloc),
                beside,
                ending: Ending::InPart,
            })
        }
        Err(FileFault::Memory) => Err(Failure::Lacks(RunFault::Memory)),
    }
}
