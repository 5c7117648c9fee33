//! What is found of the entries of NFSv4 lists.
ghost use Rattle.std.specs.Prelude.{◌≡◌, ◌+◌, ◌++◌, ◌<◌, IfErr, IfOk, OnOk, Some, length};
ghost use Rattle.std.specs.Prelude.{slice_get};
ghost use Rattle.acl_bridge.specs.Lists.{Finds};
ghost use Rattle.acl_names.specs.Bytes.{newline};
ghost use Rattle.acl_names.specs.Pieces.{parts, pieces};
ghost use Rattle.acl_reports.specs.Reporting.{IsListingFailure};
ghost use Rattle.acl_listing_lint.specs.AceEffects.{AcesDecideAlike, IsAceEffectSaid, but_place};
ghost use Rattle.acl_listing_lint.specs.AceEffects.{is_asked, nfs4_file};
ghost use Rattle.acl_listing_lint.specs.Effects.{SaysExactly, no_effect_line};
ghost use Rattle.acl_listing_lint.specs.Findings.{AreFoundFrom, AreFoundInAceLines};
ghost use Rattle.acl_listing_lint.specs.Findings.{IsFoundOfAce, IsFoundOfAcePiece};
ghost use Rattle.acl_listing_lint.specs.LintSteps.{Adds, IsSaidUnlessFound, view_aces};
ghost use Rattle.acl_listing_lint.specs.LintSteps.{view_spot};

use crate::entries::line_behind;
use crate::found::Spot;
use crate::no_account::{lacks_who, push_no_account};
use crate::no_effect::push_no_effect_line;
use acl_bridge::{AnyAclRef, FileAcl, list_difference};
use acl_cli::Failure;
use acl_names::{Parts, Pieces};
use acl_nfs4::{Ace, AceType, Acl4, Difference, Flags, Owners};
use acl_people::Host;
use bitflags::Flags as FlagSet;
use std::alloc::{AllocError, Global};

/// An NFSv4 list of a file, and who owns that.
#[derive(Clone, Copy)]
pub(crate) struct ListedAces<'t> {
    pub acl: &'t Acl4,
    pub owners: Owners,
    pub host: &'t Host,
}

/// Whether the entry allows or denies, and says nothing of inheritance.
fn is_asked(ace: &Ace) -> bool
    ensures { result ≡ is_asked ace.now }
{
    let inheritance = Flags::from_bits_retain(0xF);
    match ace.kind() {
        AceType::Allow | AceType::Deny => !ace.flags().intersects(inheritance),
        AceType::Audit | AceType::Alarm => false,
    }
}

/// Appends entries of another list, for which there is room.
fn append(acl: &mut Acl4, more: &[Ace]) -> Result<(), AllocError>
    ensures { OnOk result (acl.new ≡ acl.old ++ more.now) }
{
    for ace in more {
        if acl.push(*ace).is_err() {
            return Err(AllocError);
        }
    }
    Ok(())
}

/// The list but for the entry at this place.
fn aces_but(alloc: Global, acl: &Acl4, place: usize) -> Result<Acl4, AllocError>
    requires { place < length acl.now }
    ensures { IfOk result (λ other. other ≡ but_place place acl.now) }
{
    let aces = acl.aces();
    let mut other = Acl4::with_capacity(alloc, aces.len())?;
    append(&mut other, &aces[..place])?;
    append(&mut other, &aces[place + 1..])?;
    Ok(other)
}

/// What the other list decides otherwise, for a file of these owners.
fn difference_between(
    alloc: Global,
    listed: &ListedAces<'_>,
    other: &Acl4,
) -> Result<Option<Difference>, AllocError>
    ensures { IfOk result (Finds (nfs4_file listed.now.owners listed.now.acl.now)
        (nfs4_file listed.now.owners other.now)) }
{
    let first = FileAcl {
        owners: listed.owners,
        list: AnyAclRef::Nfs4(listed.acl),
    };
    let second = FileAcl {
        owners: listed.owners,
        list: AnyAclRef::Nfs4(other),
    };
    list_difference(alloc, &first, &second)
}

/// Appends the line of the entry, if nothing is found that the other list decides otherwise.
fn push_unless_found(
    alloc: Global,
    listed: &ListedAces<'_>,
    other: &Acl4,
    spot: &Spot<'_>,
    out: &mut Vec<u8>,
) -> Result<(), AllocError>
    ensures { OnOk result (Adds (IsSaidUnlessFound
        (nfs4_file listed.now.owners listed.now.acl.now) (nfs4_file listed.now.owners other.now)
        (no_effect_line (view_spot spot.now))) out.old.items out.new.items) }
{
    match difference_between(alloc, listed, other) {
        Ok(Some(_)) => Ok(()),
        Ok(None) => push_no_effect_line(spot, out),
        Err(refused) => Err(refused),
    }
}

/// Appends the line of the entry at this place, if the list without it decides alike.
fn push_if_alike(
    alloc: Global,
    listed: &ListedAces<'_>,
    place: usize,
    spot: &Spot<'_>,
    out: &mut Vec<u8>,
) -> Result<(), AllocError>
    requires { place < length listed.now.acl.now }
    ensures { OnOk result (Adds (SaysExactly (AcesDecideAlike listed.now.owners listed.now.acl.now
        (but_place place listed.now.acl.now)) (no_effect_line (view_spot spot.now)))
        out.old.items out.new.items) }
{
    let other = aces_but(alloc, listed.acl, place)?;
    push_unless_found(alloc, listed, &other, spot, out)
}

/// Appends the line of this entry, which stands at this place, if it is asked about and has no
/// effect.
fn push_effect(
    alloc: Global,
    listed: &ListedAces<'_>,
    place: usize,
    ace: &Ace,
    spot: &Spot<'_>,
    out: &mut Vec<u8>,
) -> Result<(), AllocError>
    requires { place < length listed.now.acl.now }
    ensures { OnOk result (Adds (IsAceEffectSaid listed.now.owners listed.now.acl.now place
        (view_spot spot.now) ace.now) out.old.items out.new.items) }
{
    if is_asked(ace) {
        push_if_alike(alloc, listed, place, spot, out)
    } else {
        Ok(())
    }
}

/// Appends what is found of this entry, which stands at this place.
fn push_ace(
    alloc: Global,
    listed: &ListedAces<'_>,
    place: usize,
    ace: &Ace,
    spot: &Spot<'_>,
    out: &mut Vec<u8>,
) -> Result<(), AllocError>
    requires { place < length listed.now.acl.now }
    ensures { OnOk result (Adds (IsFoundOfAce (view_aces listed.now) (view_spot spot.now) place
        (Some ace.now)) out.old.items out.new.items) }
{
    push_effect(alloc, listed, place, ace, spot, out)?;
    push_no_account(lacks_who(listed.host, &ace.who()), spot, out)?;
    Ok(())
}

/// Appends what is found of the entry at this place, if there is one, which the listing writes so.
fn push_at_place(
    alloc: Global,
    listed: &ListedAces<'_>,
    place: usize,
    spot: &Spot<'_>,
    out: &mut Vec<u8>,
) -> Result<(), AllocError>
    ensures { OnOk result (Adds (IsFoundOfAce (view_aces listed.now) (view_spot spot.now) place
        (slice_get listed.now.acl.now place)) out.old.items out.new.items) }
{
    match listed.acl.aces().get(place) {
        Some(ace) => push_ace(alloc, listed, place, ace, spot, out),
        None => Ok(()),
    }
}

/// The place behind this one, in a list of the listing of this name.
fn place_behind<'n>(name: &'n str, place: usize) -> Result<usize, Failure<'n>>
    ensures is { IfOk result (λ behind. behind ≡ place + 1) }
    ensures failed { IfErr result (IsListingFailure name.entry.now) }
{
    match place.checked_add(1) {
        Some(behind) => Ok(behind),
        // No list has so many entries.
        None => Err(Failure::Unread(name)),
    }
}

/// Appends what is found of the entries in a line, of which the first stands at this place. Returns
/// the place behind them.
fn push_ace_line<'n>(
    alloc: Global,
    name: &'n str,
    listed: &ListedAces<'_>,
    line: u64,
    place: usize,
    said: &[u8],
    out: &mut Vec<u8>,
) -> Result<usize, Failure<'n>>
    ensures found { OnOk result (Adds (AreFoundFrom (IsFoundOfAcePiece
        name.entry.now (view_aces listed.now) line) place
        (pieces said.now)) out.old.items out.new.items) }
    ensures behind { IfOk result (λ behind. behind ≡ place + length (pieces said.now)) }
    ensures failed { IfErr result (IsListingFailure name.entry.now) }
{
    let mut at = place;
    let mut pieces = Pieces::new(said);
    while let Some(piece) = pieces.next() {
        let spot = Spot {
            name,
            line,
            before: b"",
            piece,
        };
        push_at_place(alloc, listed, at, &spot, out)?;
        at = place_behind(name, at)?;
    }
    Ok(at)
}

/// Appends what is found of the entries in the lines behind a header, of which the first has this
/// number.
pub(crate) fn push_ace_lines<'n>(
    alloc: Global,
    name: &'n str,
    listed: &ListedAces<'_>,
    first: u64,
    list: &[u8],
    out: &mut Vec<u8>,
) -> Result<(), Failure<'n>>
    ensures found { OnOk result (Adds (AreFoundInAceLines
        name.entry.now (view_aces listed.now) first 0
        (parts newline list.now)) out.old.items out.new.items) }
    ensures failed { IfErr result (IsListingFailure name.entry.now) }
{
    let mut number = first;
    let mut place = 0;
    let mut lines = Parts::new(b'\n', list);
    while let Some(line) = lines.next() {
        place = push_ace_line(alloc, name, listed, number, place, line, out)?;
        number = line_behind(name, number, 1)?;
    }
    Ok(())
}
