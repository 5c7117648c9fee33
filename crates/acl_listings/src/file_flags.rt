//! The flags of a file, as `getfacl` prints them.

ghost use Rattle.std.specs.Prelude.{◌≡◌, unwrap_or};
ghost use Rattle.acl_listings.specs.FileFlags.{flag_at, flags_by, flags_in, no_flags};

use crate::header::{after_prefix, split_line};

/// The letter of the flags setuid and setgid.
const ID_LETTER: u8 = b's';

const STICKY_LETTER: u8 = b't';

/// The flags of a file: the bits of its mode that aren't permissions.
#[derive(Clone, Copy, Debug, PartialEq, Eq)]
pub struct FileFlags {
    pub set_user_id: bool,
    pub set_group_id: bool,
    pub sticky: bool,
}

/// Reads the flags in the lines after a block's header: `# flags: -s-` in the first of them.
/// Without that line there are none.
pub(crate) fn read_flags(list: &[u8]) -> FileFlags
    ensures { result ≡ flags_by list.now }
{
    let (line, _) = split_line(list);
    match after_prefix(b"# flags: ", line) {
        Some(text) => flags_or_none(text),
        None => no_flags(),
    }
}

fn no_flags() -> FileFlags
    ensures { result ≡ no_flags }
{
    FileFlags {
        set_user_id: false,
        set_group_id: false,
        sticky: false,
    }
}

fn flags_or_none(text: &[u8]) -> FileFlags
    ensures { result ≡ unwrap_or (flags_in text.now) no_flags }
{
    match flags_in(text) {
        Some(flags) => flags,
        None => no_flags(),
    }
}

/// Reads flags of three characters; `None` for other texts.
fn flags_in(text: &[u8]) -> Option<FileFlags>
    ensures { result ≡ flags_in text.now }
{
    let [user, group, sticky] = text else {
        return None;
    };
    match (
        flag_at(ID_LETTER, *user),
        flag_at(ID_LETTER, *group),
        flag_at(STICKY_LETTER, *sticky),
    ) {
        (Some(set_user_id), Some(set_group_id), Some(sticky)) => Some(FileFlags {
            set_user_id,
            set_group_id,
            sticky,
        }),
        _ => None,
    }
}

/// Whether the byte sets the flag of the letter; a hyphen doesn't; `None` for other bytes.
fn flag_at(letter: u8, byte: u8) -> Option<bool>
    ensures { result ≡ flag_at letter byte }
{
    if byte == letter {
        Some(true)
    } else if byte == b'-' {
        Some(false)
    } else {
        None
    }
}
