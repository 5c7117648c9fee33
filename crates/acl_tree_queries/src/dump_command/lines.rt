//! The lines of a dump.
ghost use Rattle.std.specs.Prelude.{◌≡◌, ◌≤◌, ◌<◌, ◌+◌, ◌++◌, ◌∷◌, [], IfErr, OnOk, Some};
ghost use Rattle.std.specs.Prelude.{codes, length};
ghost use Rattle.acl_names.specs.Bytes.{newline};
ghost use Rattle.acl_tree.specs.declared.request.Request.TheVariants.{Create, SetAccess};
ghost use Rattle.acl_tree.specs.declared.request.Request.TheVariants.{SetDefault, SetNfs4};
ghost use Rattle.acl_audit.specs.Dump.{creation, no_mode, set_default, set_lists};
ghost use Rattle.acl_lang.specs.CommandText.{command_text};
ghost use Rattle.acl_lang.specs.declared.limits.TheConstants.{MAX_LINE_LEN};
ghost use Rattle.acl_tree_queries.specs.TreeMeaning.{IsAnswerFailure};
ghost use Rattle.acl_tree_queries.specs.DumpText.{AddsLines, HasLongLine, SaysAgain};

use acl_cli::{Failure, Refusal};
use acl_lang::MAX_LINE_LEN;
use acl_names::{Uid, push_decimal};
use acl_nfs4::{Acl4, Kind};
use acl_posix::Acl;
use acl_tree::{Node, NodeAcl};
use std::alloc::AllocError;

/// Ends the line that began at the place, unless it is longer than lines may be.
fn end_line<'n>(start: usize, out: &mut Vec<u8>) -> Result<(), Failure<'n>>
    requires { start ≤ length out.now.items }
    ensures ended { OnOk result (out.new.items ≡ out.old.items ++ newline ∷ []) }
    ensures short { OnOk result (length out.old.items ≤ start + MAX_LINE_LEN) }
    ensures refused { IfErr result (IsAnswerFailure (start + MAX_LINE_LEN < length out.old.items)) }
{
    if out.len() - start > MAX_LINE_LEN {
        return Err(Failure::Refused(Refusal::as_a_whole("dump", "line too long")));
    }
    out.extend_from_slice(b"\n")?;
    Ok(())
}

/// Appends `create KIND PATH UID 000`.
fn push_create(kind: Kind, path: &[u8], owner: Uid, out: &mut Vec<u8>) -> Result<(), AllocError>
    ensures text { OnOk result (out.new.items
        ≡ out.old.items ++ command_text (Create kind path.now owner no_mode)) }
    ensures printable { OnOk result (SaysAgain (Create kind path.now owner no_mode)) }
{
    let number = owner.value();
    let word: &[u8] = match kind {
        Kind::File => b"create file ",
        Kind::Dir => b"create dir ",
    };
    out.extend_from_slice(word)?;
    out.extend_from_slice(path)?;
    out.push(b' ')?;
    push_decimal(number, out)?;
    out.extend_from_slice(b" 000")
}

/// Appends `set PATH WORD` and a space.
fn push_set(path: &[u8], word: &[u8], out: &mut Vec<u8>) -> Result<(), AllocError>
    ensures { OnOk result (out.new.items ≡ out.old.items
        ++ (codes "set " ++ path.now ++ codes " " ++ word.now ++ codes " ")) }
{
    out.extend_from_slice(b"set ")?;
    out.extend_from_slice(path)?;
    out.push(b' ')?;
    out.extend_from_slice(word)?;
    out.push(b' ')?;
    Ok(())
}

/// Appends `set PATH access TEXT`.
fn push_access(path: &[u8], access: &Acl, out: &mut Vec<u8>) -> Result<(), AllocError>
    ensures text { OnOk result (out.new.items
        ≡ out.old.items ++ command_text (SetAccess path.now access.now)) }
    ensures printable { OnOk result (SaysAgain (SetAccess path.now access.now)) }
{
    // For the proof only: the call says that the entries are a list.
    let _entries = access.entries();
    push_set(path, b"access", out)?;
    access.print_short(out)
}

/// Appends `set PATH default TEXT`.
fn push_default(path: &[u8], default: &Acl, out: &mut Vec<u8>) -> Result<(), AllocError>
    ensures text { OnOk result (out.new.items
        ≡ out.old.items ++ command_text (SetDefault path.now (Some default.now))) }
    ensures printable { OnOk result (SaysAgain (SetDefault path.now (Some default.now))) }
{
    // For the proof only: the call says that the entries are a list.
    let _entries = default.entries();
    push_set(path, b"default", out)?;
    default.print_short(out)
}

/// Appends `set PATH nfs4 TEXT`; the text of no entries is `#`.
fn push_nfs4(path: &[u8], acl: &Acl4, out: &mut Vec<u8>) -> Result<(), AllocError>
    ensures text { OnOk result (out.new.items
        ≡ out.old.items ++ command_text (SetNfs4 path.now acl.now)) }
    ensures printable { OnOk result (SaysAgain (SetNfs4 path.now acl.now)) }
{
    push_set(path, b"nfs4", out)?;
    if acl.aces().is_empty() {
        out.extend_from_slice(b"#")
    } else {
        acl.print_short(out)
    }
}

/// Appends the line that sets the access list.
fn push_access_line<'n>(path: &[u8], access: &Acl, out: &mut Vec<u8>) -> Result<(), Failure<'n>>
    ensures lines { OnOk result (AddsLines (SetAccess path.now access.now ∷ []) out.old.items
        out.new.items) }
    ensures refused { IfErr result (IsAnswerFailure
        (HasLongLine (SetAccess path.now access.now ∷ []))) }
{
    let start = out.len();
    push_access(path, access, out)?;
    end_line(start, out)
}

/// Appends the line that sets the default list.
fn push_default_line<'n>(path: &[u8], default: &Acl, out: &mut Vec<u8>) -> Result<(), Failure<'n>>
    ensures lines { OnOk result (AddsLines (SetDefault path.now (Some default.now) ∷ [])
        out.old.items out.new.items) }
    ensures refused { IfErr result (IsAnswerFailure
        (HasLongLine (SetDefault path.now (Some default.now) ∷ []))) }
{
    let start = out.len();
    push_default(path, default, out)?;
    end_line(start, out)
}

/// Appends the line that sets the default list, if there is one.
fn push_any_default_line<'n>(
    path: &[u8],
    default: &Option<Acl>,
    out: &mut Vec<u8>,
) -> Result<(), Failure<'n>>
    ensures lines { OnOk result (AddsLines (set_default path.now default.now) out.old.items
        out.new.items) }
    ensures refused { IfErr result (IsAnswerFailure
        (HasLongLine (set_default path.now default.now))) }
{
    match default {
        None => Ok(()),
        Some(default) => push_default_line(path, default, out),
    }
}

/// Appends the line that sets the NFSv4 list.
fn push_nfs4_line<'n>(path: &[u8], acl: &Acl4, out: &mut Vec<u8>) -> Result<(), Failure<'n>>
    ensures lines { OnOk result (AddsLines (SetNfs4 path.now acl.now ∷ []) out.old.items
        out.new.items) }
    ensures refused { IfErr result (IsAnswerFailure (HasLongLine (SetNfs4 path.now acl.now ∷ []))) }
{
    let start = out.len();
    push_nfs4(path, acl, out)?;
    end_line(start, out)
}

/// Appends the line that creates a node at the path, of which nobody may do anything yet.
fn push_create_line<'n>(
    kind: Kind,
    path: &[u8],
    owner: Uid,
    out: &mut Vec<u8>,
) -> Result<(), Failure<'n>>
    ensures lines { OnOk result (AddsLines (Create kind path.now owner no_mode ∷ []) out.old.items
        out.new.items) }
    ensures refused { IfErr result (IsAnswerFailure
        (HasLongLine (Create kind path.now owner no_mode ∷ []))) }
{
    let start = out.len();
    push_create(kind, path, owner, out)?;
    end_line(start, out)
}

/// Appends the line that creates the node at the path; none for the root, which is there.
pub(super) fn push_creation<'n>(
    path: &[u8],
    node: &Node,
    out: &mut Vec<u8>,
) -> Result<(), Failure<'n>>
    ensures lines { OnOk result (AddsLines (creation (path.now, node.now)) out.old.items
        out.new.items) }
    ensures refused { IfErr result (IsAnswerFailure (HasLongLine (creation (path.now, node.now)))) }
{
    if path == b"/".as_slice() {
        return Ok(());
    }
    push_create_line(node.kind, path, node.owner, out)
}

/// Appends the lines that give a node that was just created at the path the lists that this one
/// has.
pub(super) fn push_lists<'n>(
    path: &[u8],
    acl: &NodeAcl,
    out: &mut Vec<u8>,
) -> Result<(), Failure<'n>>
    ensures lines { OnOk result (AddsLines (set_lists path.now acl.now) out.old.items
        out.new.items) }
    ensures refused { IfErr result (IsAnswerFailure (HasLongLine (set_lists path.now acl.now))) }
{
    match acl {
        NodeAcl::Posix { access, default } => {
            push_access_line(path, access, out)?;
            push_any_default_line(path, default, out)
        }
        NodeAcl::Nfs4 { acl } => push_nfs4_line(path, acl, out),
    }
}
