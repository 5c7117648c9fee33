//! Printing replies.

ghost use Rattle.std.specs.Prelude.{◌≡◌, ◌++◌, ◌∷◌, [], codes};
ghost use Rattle.acl_names.specs.Bytes.{space};
ghost use Rattle.acl_names.specs.Pushing.{Pushes};
ghost use Rattle.acl_lang.specs.Printed.{acl_text, below_text, error_text, head_text, kind_text};
ghost use Rattle.acl_lang.specs.Printed.{mode_text, owners_text, reply_text, style_text, view_text};

use crate::fault_words::{line_fault_word, tree_fault_word};
use crate::shown::Shown;
use acl_names::{Directory, Gid, Uid, push_decimal, push_id};
use acl_nfs4::Kind;
use acl_posix::{Acl, Mode};
use acl_tree::{NodeAcl, Reply};
use bitflags::Flags;
use std::alloc::AllocError;

pub(crate) fn push_reply(
    reply: &Reply,
    directory: &Directory,
    out: &mut Vec<u8>,
) -> Result<(), AllocError>
    ensures { Pushes (reply_text directory.now reply.now) result out.old out.new }
{
    match reply {
        Reply::Done => out.extend_from_slice(b"ok\n"),
        Reply::Granted => out.extend_from_slice(b"granted\n"),
        Reply::Denied => out.extend_from_slice(b"denied\n"),
        Reply::Node(view) => push_view(&Shown::of_view(view), directory, out),
        Reply::Translated(acl) => {
            out.extend_from_slice(b"translated\n")?;
            acl.print_aces(directory, out)
        }
        Reply::TranslatedBoth { access, inherit } => {
            out.extend_from_slice(b"translated\n")?;
            access.print_aces(directory, out)?;
            inherit.print_aces(directory, out)
        }
        Reply::Refused(fault) => push_error(fault.number(), tree_fault_word(*fault), out),
        Reply::Fault(fault) => push_error(fault.number(), line_fault_word(*fault), out),
    }
}

/// Appends `error CODE WORD`.
fn push_error(code: u8, word: &[u8], out: &mut Vec<u8>) -> Result<(), AllocError>
    ensures { Pushes (error_text code word.now) result out.old out.new }
{
    out.extend_from_slice(b"error ")?;
    push_decimal(u32::from(code), out)?;
    out.extend_from_slice(b" ")?;
    out.extend_from_slice(word)?;
    out.extend_from_slice(b"\n")
}

pub(crate) fn push_view(
    shown: &Shown<'_>,
    directory: &Directory,
    out: &mut Vec<u8>,
) -> Result<(), AllocError>
    ensures { Pushes (view_text directory.now shown.now) result out.old out.new }
{
    push_head(shown, directory, out)?;
    out.extend_from_slice(b"\n")?;
    push_acl(shown.acl, directory, out)
}

/// Appends `get PATH KIND OWNER GROUP MODE STYLE`.
fn push_head(shown: &Shown<'_>, directory: &Directory, out: &mut Vec<u8>) -> Result<(), AllocError>
    ensures { Pushes (head_text directory.now shown.now) result out.old out.new }
{
    push_what(shown, out)?;
    push_owners(shown.owner, shown.group, directory, out)?;
    push_how(shown, out)
}

/// Appends `get PATH KIND` and a blank.
fn push_what(shown: &Shown<'_>, out: &mut Vec<u8>) -> Result<(), AllocError>
    ensures { Pushes (codes "get " ++ (shown.now.path
        ++ space ∷ (kind_text shown.now.kind ++ space ∷ []))) result out.old out.new }
{
    out.extend_from_slice(b"get ")?;
    out.extend_from_slice(shown.path.as_bytes())?;
    out.extend_from_slice(b" ")?;
    out.extend_from_slice(kind_text(shown.kind))?;
    out.extend_from_slice(b" ")
}

/// Appends a blank and `MODE STYLE`.
fn push_how(shown: &Shown<'_>, out: &mut Vec<u8>) -> Result<(), AllocError>
    ensures { Pushes (space ∷ mode_text shown.now.mode ++ space ∷ style_text shown.now.acl)
        result out.old out.new }
{
    out.extend_from_slice(b" ")?;
    out.extend_from_slice(&mode_text(shown.mode))?;
    out.extend_from_slice(b" ")?;
    out.extend_from_slice(style_text(shown.acl))
}

/// Appends `OWNER GROUP`.
#[tactic(auto, using(acl_names::proofs::Prefixes::printing_steps))]
fn push_owners(
    owner: Uid,
    group: Gid,
    directory: &Directory,
    out: &mut Vec<u8>,
) -> Result<(), AllocError>
    ensures { Pushes (owners_text directory.now owner group) result out.old out.new }
{
    push_id(directory.user_name(owner), owner.value(), out)?;
    out.extend_from_slice(b" ")?;
    push_id(directory.group_name(group), group.value(), out)
}

pub(crate) fn kind_text(kind: Kind) -> &'static [u8]
    ensures { result.now ≡ kind_text kind }
{
    match kind {
        Kind::File => b"file",
        Kind::Dir => b"dir",
    }
}

/// Three octal digits.
pub(crate) fn mode_text(mode: Mode) -> [u8; 3]
    ensures { result ≡ mode_text mode }
{
    [
        b'0' + mode.user.bits(),
        b'0' + mode.group.bits(),
        b'0' + mode.other.bits(),
    ]
}

fn style_text(acl: &NodeAcl) -> &'static [u8]
    ensures { result.now ≡ style_text acl.now }
{
    match acl {
        NodeAcl::Posix { .. } => b"posix",
        NodeAcl::Nfs4 { .. } => b"nfs4",
    }
}

#[tactic(auto, using(acl_names::proofs::Prefixes::printing_steps))]
fn push_acl(acl: &NodeAcl, directory: &Directory, out: &mut Vec<u8>) -> Result<(), AllocError>
    ensures { Pushes (acl_text directory.now acl.now) result out.old out.new }
{
    match acl {
        NodeAcl::Posix { access, default } => {
            access.print_effective(directory, out)?;
            push_default(default, directory, out)
        }
        NodeAcl::Nfs4 { acl } => acl.print_aces(directory, out),
    }
}

fn push_default(
    default: &Option<Acl>,
    directory: &Directory,
    out: &mut Vec<u8>,
) -> Result<(), AllocError>
    ensures { Pushes (below_text directory.now default.now) result out.old out.new }
{
    match default {
        Some(acl) => acl.print_default(directory, out),
        None => Ok(()),
    }
}
