//! Printing requests as lines, from which they are read again.

ghost use Rattle.std.specs.Prelude.{◌≡◌, ◌≤◌, ◌++◌, ◌∷◌, [], codes, decimal, OnOk, OnErr};
ghost use Rattle.acl_names.specs.Bytes.{space};
ghost use Rattle.acl_names.specs.Pushing.{Pushes};
ghost use Rattle.acl_names.specs.declared.limits.TheConstants.{MAX_ID};
ghost use Rattle.acl_nfs4.specs.Acl.{AreAces};
ghost use Rattle.acl_posix.specs.Canonical.{IsAcl};
ghost use Rattle.acl_posix.specs.Mode.{AreClasses};
ghost use Rattle.acl_posix.specs.PrintedText.{short_text};
ghost use Rattle.acl_tree.specs.declared.request.Request.TheVariants.{Check, Check4, Chmod};
ghost use Rattle.acl_tree.specs.declared.request.Request.TheVariants.{Create, SetAccess};
ghost use Rattle.acl_tree.specs.declared.request.Request.TheVariants.{SetDefault, SetNfs4};
ghost use Rattle.acl_lang.specs.CommandText.{aces_field, command_text, default_field, HasLine};
ghost use Rattle.acl_lang.specs.CommandText.{IsDefault, IsPrintable};
ghost use Rattle.acl_lang.specs.Printed.{mode_text};
ghost use Rattle.acl_lang.specs.ReadAgain.{NameIds, NameIdsOfAces};
ghost use Rattle.acl_lang.specs.Shapes.{IsPath};

use crate::printing::{kind_text, mode_text};
use acl_names::{Uid, push_decimal};
use acl_nfs4::{Acl4, Kind, Mask, push_mask};
use acl_posix::{Acl, Mode, Perms, push_perms};
use acl_tree::{Boxed, Path, Request};
use std::alloc::AllocError;

/// Appends the request's line, without its newline: the words of the command, with a space between
/// each two, with ids in decimal and lists in the short text form. Appends nothing for `Bad`, which
/// has no line. Fails only if memory runs out; then `out` is as it was.
///
/// The law `printed_commands_are_read_again` says that the line is read as this request, if it
/// isn't longer than lines may be.
pub fn push_command(request: &Request, out: &mut Vec<u8>) -> Result<(), AllocError>
    ensures text { OnOk result (out.new.items ≡ out.old.items ++ command_text request.now) }
    ensures unchanged { OnErr result (out.new.items ≡ out.old.items) }
    // So the law speaks of it.
    ensures printable { OnOk result (HasLine request.now → IsPrintable request.now) }
{
    let old_len = out.len();
    let printed = push_request(request, out);
    if printed.is_err() {
        out.truncate(old_len);
    }
    printed
}

fn push_request(request: &Request, out: &mut Vec<u8>) -> Result<(), AllocError>
    ensures printed { Pushes (command_text request.now) result out.old out.new }
    ensures printable { OnOk result (HasLine request.now → IsPrintable request.now) }
{
    match request {
        Request::Get(path) => push_path(b"get", path, out),
        Request::SetAccess(path, acl) => push_set_access(path, acl, out),
        Request::SetDefault(path, default) => push_set_default(path, default, out),
        Request::SetNfs4(path, acl) => push_set_nfs4(path, acl, out),
        Request::Chmod(path, mode) => push_chmod(path, *mode, out),
        Request::Create(kind, path, user, mode) => push_create(*kind, path, *user, *mode, out),
        Request::Check(path, user, perms) => push_check(path, *user, *perms, out),
        Request::Check4(path, user, mask) => push_check4(path, *user, *mask, out),
        Request::Translate(path) => push_path(b"translate", path, out),
        Request::Bad(_) => Ok(()),
    }
}

/// Appends the command's word, a space and the path.
fn push_path(command: &[u8], path: &Path, out: &mut Vec<u8>) -> Result<(), AllocError>
    ensures printed { Pushes (command.now ++ space ∷ path.now) result out.old out.new }
    ensures path { IsPath path.now }
{
    let path = path.as_bytes();
    out.extend_from_slice(command)?;
    out.extend_from_slice(b" ")?;
    out.extend_from_slice(path)
}

/// Appends a space and the user.
fn push_user(user: Uid, out: &mut Vec<u8>) -> Result<(), AllocError>
    ensures printed { Pushes (space ∷ decimal user) result out.old out.new }
    ensures in_range { user ≤ MAX_ID }
{
    let number = user.value();
    out.extend_from_slice(b" ")?;
    push_decimal(number, out)
}

/// Appends a space and the mode.
fn push_mode(mode: Mode, out: &mut Vec<u8>) -> Result<(), AllocError>
    ensures printed { Pushes (space ∷ mode_text mode) result out.old out.new }
    ensures classes { AreClasses mode }
{
    let digits = mode_text(mode);
    out.extend_from_slice(b" ")?;
    out.extend_from_slice(&digits)
}

/// `chmod P OOO`
fn push_chmod(path: &Path, mode: Mode, out: &mut Vec<u8>) -> Result<(), AllocError>
    ensures printed { Pushes (command_text (Chmod path.now mode)) result out.old out.new }
    ensures printable { OnOk result (IsPath path.now × AreClasses mode) }
{
    push_path(b"chmod", path, out)?;
    push_mode(mode, out)
}

/// `create file P USER OOO`, `create dir P USER OOO`
#[tactic(auto, using(acl_names::proofs::Prefixes::printing_steps))]
fn push_create(
    kind: Kind,
    path: &Path,
    user: Uid,
    mode: Mode,
    out: &mut Vec<u8>,
) -> Result<(), AllocError>
    ensures printed { Pushes (command_text (Create kind path.now user mode))
        result out.old out.new }
    ensures printable { OnOk result (IsPath path.now × (user ≤ MAX_ID) × AreClasses mode) }
{
    out.extend_from_slice(b"create ")?;
    push_path(kind_text(kind), path, out)?;
    push_user(user, out)?;
    push_mode(mode, out)
}

/// `COMMAND P USER`
fn push_asked(command: &[u8], path: &Path, user: Uid, out: &mut Vec<u8>) -> Result<(), AllocError>
    ensures printed { Pushes (command.now ++ space ∷ (path.now ++ space ∷ decimal user))
        result out.old out.new }
    ensures path { IsPath path.now }
    ensures in_range { OnOk result (user ≤ MAX_ID) }
{
    push_path(command, path, out)?;
    push_user(user, out)
}

/// `check P USER PERMS`
fn push_check(path: &Path, user: Uid, perms: Perms, out: &mut Vec<u8>) -> Result<(), AllocError>
    ensures printed { Pushes (command_text (Check path.now user perms)) result out.old out.new }
    ensures printable { OnOk result (IsPath path.now × (user ≤ MAX_ID)) }
{
    push_asked(b"check", path, user, out)?;
    out.extend_from_slice(b" ")?;
    push_perms(perms, out)
}

/// `check4 P USER LETTERS`
#[tactic(auto, using(acl_names::proofs::Prefixes::printing_steps))]
fn push_check4(path: &Path, user: Uid, mask: Mask, out: &mut Vec<u8>) -> Result<(), AllocError>
    ensures printed { Pushes (command_text (Check4 path.now user mask)) result out.old out.new }
    ensures printable { OnOk result (IsPath path.now × (user ≤ MAX_ID)) }
{
    push_asked(b"check4", path, user, out)?;
    out.extend_from_slice(b" ")?;
    push_mask(mask, out)
}

/// Appends `set P KIND` and a space.
fn push_set(path: &Path, kind: &[u8], out: &mut Vec<u8>) -> Result<(), AllocError>
    ensures printed { Pushes (codes "set" ++ space ∷ (path.now ++ space ∷ (kind.now ++ space ∷ [])))
        result out.old out.new }
    ensures path { IsPath path.now }
{
    push_path(b"set", path, out)?;
    out.extend_from_slice(b" ")?;
    out.extend_from_slice(kind)?;
    out.extend_from_slice(b" ")
}

/// `set P access TEXT`
fn push_set_access(path: &Path, acl: &Acl, out: &mut Vec<u8>) -> Result<(), AllocError>
    ensures printed { Pushes (command_text (SetAccess path.now acl.now)) result out.old out.new }
    ensures printable { OnOk result (IsPath path.now × IsAcl acl.now × NameIds acl.now) }
{
    push_set(path, b"access", out)?;
    push_acl(acl, out)
}

/// `set P default TEXT`
fn push_set_default(
    path: &Path,
    default: &Option<Boxed<Acl>>,
    out: &mut Vec<u8>,
) -> Result<(), AllocError>
    ensures printed { Pushes (command_text (SetDefault path.now default.now))
        result out.old out.new }
    ensures printable { OnOk result (IsPath path.now × IsDefault default.now) }
{
    push_set(path, b"default", out)?;
    push_default(default, out)
}

/// `set P nfs4 TEXT`
fn push_set_nfs4(path: &Path, acl: &Acl4, out: &mut Vec<u8>) -> Result<(), AllocError>
    ensures printed { Pushes (command_text (SetNfs4 path.now acl.now)) result out.old out.new }
    ensures printable { OnOk result (IsPath path.now × AreAces acl.now × NameIdsOfAces acl.now) }
{
    push_set(path, b"nfs4", out)?;
    push_aces(acl, out)
}

fn push_acl(acl: &Acl, out: &mut Vec<u8>) -> Result<(), AllocError>
    ensures printed { Pushes (short_text acl.now) result out.old out.new }
    ensures acl { IsAcl acl.now }
    ensures ids { OnOk result (NameIds acl.now) }
{
    // For the proof only: the call says that the entries are a list.
    let _entries = acl.entries();
    acl.print_short(out)
}

fn push_default(default: &Option<Boxed<Acl>>, out: &mut Vec<u8>) -> Result<(), AllocError>
    ensures printed { Pushes (default_field default.now) result out.old out.new }
    ensures lists { OnOk result (IsDefault default.now) }
{
    match default {
        Some(acl) => push_acl(acl, out),
        None => out.extend_from_slice(b"none"),
    }
}

/// Appends the entries; for a list without any a comment, since the line needs a text.
fn push_aces(acl: &Acl4, out: &mut Vec<u8>) -> Result<(), AllocError>
    ensures printed { Pushes (aces_field acl.now) result out.old out.new }
    ensures aces { AreAces acl.now }
    ensures ids { OnOk result (NameIdsOfAces acl.now) }
{
    if acl.aces().is_empty() {
        out.extend_from_slice(b"#")
    } else {
        acl.print_short(out)
    }
}
