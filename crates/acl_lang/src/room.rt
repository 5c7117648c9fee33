//! How many bytes an answer may have, so that printing it allocates once at most.

ghost use Rattle.std.specs.Prelude.{◌≤◌};

use crate::shown::Shown;
use acl_names::{Directory, MAX_DOMAIN_LEN};
use acl_nfs4::{Acl4, MAX_ACES};
use acl_posix::{Acl, MAX_DEFAULT_LINE, MAX_ENTRIES};
use acl_tree::{MAX_PATH_LEN, NodeAcl, Reply};

/// How many bytes an answer of one line may have: the number of the line, and a fault's code and
/// word.
const MAX_SHORT_ANSWER: usize = 40;

/// How many bytes the line of a view may have without its path: the number of the line, words, two
/// names, and a mode.
const MAX_HEAD: usize = 100;

/// How many bytes the line of an ACE may have without the domain: a type, flags, a name and
/// letters, and what separates them.
const MAX_ACE_LINE: usize = 60;

/// How many bytes the answer that shows this node may have.
pub(crate) fn room_for_shown(shown: &Shown<'_>, directory: &Directory) -> usize {
    let path_len = shown.path.as_bytes().len().min(MAX_PATH_LEN);
    MAX_HEAD + path_len + room_for_acl(shown.acl, directory)
}

/// How many bytes the answer may have.
pub(crate) fn room_for(reply: &Reply, directory: &Directory) -> usize {
    match reply {
        Reply::Node(view) => room_for_shown(&Shown::of_view(view), directory),
        Reply::Translated(acl) => MAX_SHORT_ANSWER + room_for_aces(acl, directory),
        Reply::TranslatedBoth { access, inherit } => {
            MAX_SHORT_ANSWER + room_for_aces(access, directory) + room_for_aces(inherit, directory)
        }
        _ => MAX_SHORT_ANSWER,
    }
}

fn room_for_acl(acl: &NodeAcl, directory: &Directory) -> usize
    ensures { result ≤ 65536 }
{
    match acl {
        NodeAcl::Posix { access, default } => {
            let entries = entry_count(access) + default.as_ref().map_or(0, |acl| entry_count(acl));
            entries * MAX_DEFAULT_LINE
        }
        NodeAcl::Nfs4 { acl } => room_for_aces(acl, directory),
    }
}

fn entry_count(acl: &Acl) -> usize
    ensures { result ≤ MAX_ENTRIES }
{
    acl.entries().len().min(MAX_ENTRIES)
}

fn room_for_aces(acl: &Acl4, directory: &Directory) -> usize
    ensures { result ≤ 65536 }
{
    let domain_len = directory.domain().len().min(MAX_DOMAIN_LEN);
    acl.aces().len().min(MAX_ACES) * (MAX_ACE_LINE + domain_len)
}
