//! What is found of the entries of POSIX lists.
ghost use Rattle.std.specs.Prelude.{◌≡◌, ◌+◌, ◌++◌, IfErr, IfOk, OnOk, option_map};
ghost use Rattle.acl_names.specs.Bytes.{newline};
ghost use Rattle.acl_names.specs.Pieces.{parts};
ghost use Rattle.acl_people.specs.Host.{names_of_host};
ghost use Rattle.acl_posix.specs.EntryText.{entry_by};
ghost use Rattle.acl_listings.specs.Header.{after_prefix};
ghost use Rattle.acl_reports.specs.Reporting.{IsListingFailure};
ghost use Rattle.acl_listing_lint.specs.Findings.{AreFoundFrom, AreFoundInText, IsFoundInLine};
ghost use Rattle.acl_listing_lint.specs.Findings.{IsEffectSaidIn, differs_text_in};
ghost use Rattle.acl_listing_lint.specs.Findings.{IsFoundOfEntry, IsFoundOfRead, default_word};
ghost use Rattle.acl_listing_lint.specs.Findings.{word_of};
ghost use Rattle.acl_listing_lint.specs.LintSteps.{Adds, view_list, view_lists, view_spot};

use crate::found::Spot;
use crate::from_default::push_differs;
use crate::masked::push_masked;
use crate::no_account::{lacks_tag, push_no_account};
use crate::no_effect::push_no_effect;
use acl_cli::Failure;
use acl_names::{Parts, PieceReader, Pieces};
use acl_nfs4::Owners;
use acl_people::Host;
use acl_posix::{Acl, Entry, EntryReader};
use std::alloc::{AllocError, Global};

/// The access list of a file of these owners, or its default list.
#[derive(Clone, Copy)]
pub(crate) struct Listed<'t> {
    pub acl: &'t Acl,
    pub owners: Owners,
    pub host: &'t Host,
    /// The list that the file would have got by its folder's default list, if that is known.
    pub created: &'t Option<Acl>,
    pub is_default: bool,
}

/// The POSIX lists of a file of these owners, and the list that it would have got.
#[derive(Clone, Copy)]
pub(crate) struct ListedLists<'t> {
    pub owners: Owners,
    pub access: &'t Acl,
    pub default: &'t Option<Acl>,
    pub created: &'t Option<Acl>,
}

/// What stands before the entries of a default list.
const DEFAULT: &[u8] = b"default:";

impl<'t> Listed<'t> {
    /// What stands before its entries.
    fn word(&self) -> &'static [u8]
        ensures { result.now ≡ word_of (view_list self.now) }
    {
        if self.is_default { DEFAULT } else { b"" }
    }
}

/// Appends the line of an entry of an access list that has no effect.
fn push_effect(
    alloc: Global,
    listed: &Listed<'_>,
    spot: &Spot<'_>,
    entry: &Entry,
    out: &mut Vec<u8>,
) -> Result<(), AllocError>
    ensures { OnOk result (Adds (IsEffectSaidIn listed.now.is_default (view_list listed.now)
        (view_spot spot.now) entry.now) out.old.items out.new.items) }
{
    if listed.is_default {
        return Ok(());
    }
    push_no_effect(alloc, spot, &listed.owners, listed.acl, entry, out)
}

/// Appends the line of an entry of an access list that grants otherwise than at the creation.
fn push_otherwise(
    listed: &Listed<'_>,
    spot: &Spot<'_>,
    entry: &Entry,
    out: &mut Vec<u8>,
) -> Result<(), AllocError>
    ensures { OnOk result (out.new.items ≡ out.old.items ++ differs_text_in listed.now.is_default
        (view_list listed.now) (view_spot spot.now) entry.now) }
{
    if !listed.is_default {
        push_differs(listed.created, listed.acl, spot, entry, out)?;
    }
    Ok(())
}

/// Appends what is found of an entry of the list.
fn push_entry(
    alloc: Global,
    listed: &Listed<'_>,
    spot: &Spot<'_>,
    entry: &Entry,
    out: &mut Vec<u8>,
) -> Result<(), AllocError>
    ensures found { OnOk result (Adds (IsFoundOfEntry (view_list listed.now) (view_spot spot.now)
        entry.now) out.old.items out.new.items) }
{
    push_effect(alloc, listed, spot, entry, out)?;
    push_masked(spot, listed.acl, entry, out)?;
    push_no_account(lacks_tag(listed.host, &entry.tag), spot, out)?;
    push_otherwise(listed, spot, entry, out)?;
    Ok(())
}

/// Appends what is found of a piece, if it is an entry of the list.
fn push_piece(
    alloc: Global,
    host: &Host,
    listed: &Listed<'_>,
    spot: &Spot<'_>,
    out: &mut Vec<u8>,
) -> Result<(), AllocError>
    ensures found { OnOk result (Adds (IsFoundOfRead (view_list listed.now) (view_spot spot.now)
        (entry_by (names_of_host host.now) spot.now.piece.now)) out.old.items out.new.items) }
{
    match (EntryReader { names: host }).read(spot.piece) {
        Ok(entry) => push_entry(alloc, listed, spot, &entry, out),
        Err(_) => Ok(()),
    }
}

/// Appends what is found of the entries of the list in a text, which stands in this line.
fn push_said(
    alloc: Global,
    name: &str,
    host: &Host,
    listed: &Listed<'_>,
    line: u64,
    said: &[u8],
    out: &mut Vec<u8>,
) -> Result<(), AllocError>
    ensures found { OnOk result (Adds (AreFoundInText
        (record { name = name.now; host = host.now }) (view_list listed.now) line said.now)
        out.old.items out.new.items) }
{
    let before = listed.word();
    let mut pieces = Pieces::new(said);
    while let Some(piece) = pieces.next() {
        let spot = Spot {
            name,
            line,
            before,
            piece,
        };
        push_piece(alloc, host, listed, &spot, out)?;
    }
    Ok(())
}

/// What stands in the line behind the word of a default list.
fn after_default(line: &[u8]) -> Option<&[u8]>
    ensures { option_map (λ behind. behind.now) result ≡ after_prefix default_word line.now }
{
    match line.strip_prefix(DEFAULT) {
        Some(behind) => Some(behind),
        None => None,
    }
}

/// Appends what is found of the entries in a line of the block.
fn push_line(
    alloc: Global,
    name: &str,
    host: &Host,
    listed: &ListedLists<'_>,
    line: u64,
    said: &[u8],
    out: &mut Vec<u8>,
) -> Result<(), AllocError>
    ensures found { OnOk result (Adds (IsFoundInLine
        (record { name = name.now; host = host.now }) (view_lists listed.now) line said.now)
        out.old.items out.new.items) }
{
    match after_default(said) {
        Some(behind) => match listed.default {
            Some(acl) => {
                let list = Listed {
                    acl,
                    owners: listed.owners,
                    host,
                    created: listed.created,
                    is_default: true,
                };
                push_said(alloc, name, host, &list, line, behind, out)
            }
            None => Ok(()),
        },
        None => {
            let list = Listed {
                acl: listed.access,
                owners: listed.owners,
                host,
                created: listed.created,
                is_default: false,
            };
            push_said(alloc, name, host, &list, line, said, out)
        }
    }
}

/// The number of the line so many further on in the listing of this name.
pub(crate) fn line_behind<'n>(name: &'n str, line: u64, by: u64) -> Result<u64, Failure<'n>>
    ensures is { IfOk result (λ behind. behind ≡ line + by) }
    ensures failed { IfErr result (IsListingFailure name.entry.now) }
{
    match line.checked_add(by) {
        Some(behind) => Ok(behind),
        // No listing has so many lines.
        None => Err(Failure::Unread(name)),
    }
}

/// Appends what is found of the entries in the lines behind a header, of which the first has this
/// number.
pub(crate) fn push_lines<'n>(
    alloc: Global,
    name: &'n str,
    host: &Host,
    listed: &ListedLists<'_>,
    first: u64,
    list: &[u8],
    out: &mut Vec<u8>,
) -> Result<(), Failure<'n>>
    ensures found { OnOk result (Adds (AreFoundFrom (IsFoundInLine
        (record { name = name.entry.now; host = host.now }) (view_lists listed.now))
        first (parts newline list.now)) out.old.items out.new.items) }
    ensures failed { IfErr result (IsListingFailure name.entry.now) }
{
    let mut number = first;
    let mut lines = Parts::new(b'\n', list);
    while let Some(line) = lines.next() {
        push_line(alloc, name, host, listed, number, line, out)?;
        number = line_behind(name, number, 1)?;
    }
    Ok(())
}
