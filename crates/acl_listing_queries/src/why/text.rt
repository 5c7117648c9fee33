//! The report on a list that decides.
ghost use Rattle.std.specs.Prelude.{◌≡◌, ◌++◌, IfOk, OnOk};
ghost use Rattle.acl_posix.specs.Perms.{bits_of};
ghost use Rattle.acl_bridge.specs.Files.{may, view_acl};
ghost use Rattle.acl_listing_queries.specs.WhyReasons.{decision_text, file_reasons, named_line};

use acl_access::push_printed_path;
use acl_bridge::FileAcl;
use acl_names::Requester;
use acl_posix::Perms;
use acl_queries::{FileRequest, answer_line, empty_directory, push_reasons};
use std::alloc::{AllocError, Global};

/// Appends the entries of the file's list that decide. Fails only if memory runs out.
fn push_file_reasons(
    alloc: Global,
    file: &FileAcl<'_>,
    requester: &Requester,
    request: Perms,
    out: &mut Vec<u8>,
) -> Result<(), AllocError>
    ensures { OnOk result (out.new.items
        ≡ out.old.items ++ file_reasons (view_acl file.now) requester.now (bits_of request)) }
{
    let directory = empty_directory(alloc)?;
    let asked = FileRequest {
        owner: file.owners.owner,
        group: file.owners.group,
        requester,
        request,
    };
    push_reasons(&asked, file.list, &directory, out)
}

/// Appends `WORD PATH` and the rest of a line. It fails only if memory runs out.
pub(super) fn push_named(
    word: &str,
    path: &[u8],
    rest: &str,
    out: &mut Vec<u8>,
) -> Result<(), AllocError>
    ensures { OnOk result (out.new.items ≡ out.old.items ++ named_line word.now path.now rest.now) }
{
    out.extend_from_slice(word.as_bytes())?;
    out.push(b' ')?;
    push_printed_path(path, out)?;
    out.push(b' ')?;
    out.extend_from_slice(rest.as_bytes())
}

/// Appends whether the list of the file at the path grants the permissions, and the entries that
/// decide. Returns whether it grants them. Fails only if memory runs out.
pub(super) fn push_decision(
    alloc: Global,
    word: &str,
    path: &[u8],
    file: &FileAcl<'_>,
    requester: &Requester,
    perms: Perms,
    out: &mut Vec<u8>,
) -> Result<bool, AllocError>
    ensures granted { IfOk result (λ granted. granted
        ≡ may (view_acl file.now) requester.now (bits_of perms)) }
    ensures reported { OnOk result (out.new.items ≡ out.old.items
        ++ decision_text word.now path.now (view_acl file.now) requester.now (bits_of perms)) }
{
    let granted = file.may(requester, perms);
    push_named(word, path, answer_line(granted), out)?;
    push_file_reasons(alloc, file, requester, perms, out)?;
    Ok(granted)
}
