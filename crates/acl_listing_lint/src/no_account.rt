//! Ids that no account has.
ghost use Rattle.std.specs.Prelude.{◌≡◌, ◌++◌, IfErr, OnOk, decimal};
ghost use Rattle.acl_reports.specs.Reporting.{IsListingFailure};
ghost use Rattle.acl_listing_lint.specs.LintSteps.{view_spot};
ghost use Rattle.acl_listing_lint.specs.NoAccount.{lacks_tag, lacks_who};
ghost use Rattle.acl_listing_lint.specs.NoAccount.{line_if_lacking, no_account_text};
ghost use Rattle.acl_listing_lint.specs.NoAccount.{owners_text};

use crate::entries::line_behind;
use crate::found::{Spot, push_entry_at, push_start};
use acl_cli::Failure;
use acl_names::push_decimal;
use acl_nfs4::{Owners, Who};
use acl_people::Host;
use acl_posix::Tag;
use std::alloc::AllocError;

/// How a line begins that reports such an id.
const WORD: &[u8] = b"no-account";

/// Whether an entry with this tag names a user or a group whom the accounts lack.
pub(crate) fn lacks_tag(host: &Host, tag: &Tag) -> bool
    ensures { result ≡ lacks_tag host.now tag.now }
{
    match tag {
        Tag::User(uid) => host.lacks_user(*uid),
        Tag::Group(gid) => host.lacks_group(*gid),
        _ => false,
    }
}

/// Whether an entry of this who does.
pub(crate) fn lacks_who(host: &Host, who: &Who) -> bool
    ensures { result ≡ lacks_who host.now who.now }
{
    match who {
        Who::User(uid) => host.lacks_user(*uid),
        Who::NamedGroup(gid) => host.lacks_group(*gid),
        _ => false,
    }
}

/// Appends the line of an entry that names somebody whom the accounts lack.
pub(crate) fn push_no_account(
    lacks: bool,
    spot: &Spot<'_>,
    out: &mut Vec<u8>,
) -> Result<(), AllocError>
    ensures { OnOk result (out.new.items ≡ out.old.items
        ++ no_account_text lacks (view_spot spot.now)) }
{
    if !lacks {
        return Ok(());
    }
    push_start(spot.name, spot.line, WORD, out)?;
    push_entry_at(spot, out)?;
    out.push(b'\n')?;
    Ok(())
}

/// Appends the line of an id in a header, if the accounts lack it.
fn push_id(
    lacks: bool,
    name: &str,
    line: u64,
    before: &[u8],
    id: u32,
    out: &mut Vec<u8>,
) -> Result<(), AllocError>
    ensures { OnOk result (out.new.items ≡ out.old.items
        ++ line_if_lacking lacks name.now line (before.now ++ decimal id)) }
{
    if !lacks {
        return Ok(());
    }
    push_start(name, line, WORD, out)?;
    out.extend_from_slice(before)?;
    push_decimal(id, out)?;
    out.push(b'\n')?;
    Ok(())
}

/// Appends the lines of the owner and the group of a file whom the accounts lack: of a block whose
/// first line has this number.
pub(crate) fn push_owners<'n>(
    name: &'n str,
    host: &Host,
    line: u64,
    owners: &Owners,
    out: &mut Vec<u8>,
) -> Result<(), Failure<'n>>
    ensures found { OnOk result (out.new.items ≡ out.old.items
        ++ owners_text host.now name.entry.now line owners.now) }
    ensures failed { IfErr result (IsListingFailure name.entry.now) }
{
    let second = line_behind(name, line, 1)?;
    let third = line_behind(name, line, 2)?;
    let lacks_owner = host.lacks_user(owners.owner);
    push_id(
        lacks_owner,
        name,
        second,
        b"owner ",
        owners.owner.value(),
        out,
    )?;
    let lacks_group = host.lacks_group(owners.group);
    push_id(
        lacks_group,
        name,
        third,
        b"group ",
        owners.group.value(),
        out,
    )?;
    Ok(())
}
