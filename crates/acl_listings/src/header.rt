//! The lines at the front of a block: those of the file, its owner and its group.

ghost use Rattle.std.specs.Prelude.{◌≡◌, option_map};
ghost use Rattle.acl_listings.specs.Header.{after_file_word, after_prefix, header_of, path_in};
ghost use Rattle.acl_listings.specs.Lines.{after_line, first_line};
ghost use Rattle.acl_listings.specs.Views.{view_header};

use acl_names::before_byte;

/// The fields of a block's header, and the lines after it.
#[derive(Clone, Copy, Debug)]
pub(crate) struct Header<'t> {
    pub path: &'t [u8],
    /// The owner and the group, as the block writes them.
    pub owner: &'t [u8],
    pub group: &'t [u8],
    /// The lines after the group's.
    pub list: &'t [u8],
}

/// The header of a block, and its list. `None` if the first three lines aren't those of a file, its
/// owner and its group.
pub(crate) fn read_header(text: &[u8]) -> Option<Header<'_>>
    ensures { option_map view_header result ≡ header_of text.now }
{
    let (file_line, behind_file) = split_line(text);
    let (owner_line, behind_owner) = split_line(behind_file);
    let (group_line, list) = split_line(behind_owner);
    match (
        read_path(file_line),
        after_prefix(b"# owner: ", owner_line),
        after_prefix(b"# group: ", group_line),
    ) {
        (Some(path), Some(owner), Some(group)) => Some(Header {
            path,
            owner,
            group,
            list,
        }),
        _ => None,
    }
}

/// The path in a file's line: the text after `# file: ` or `# File: `, unchanged; `None` if it is
/// empty.
pub(crate) fn read_path(line: &[u8]) -> Option<&[u8]>
    ensures { option_map (λ path. path.now) result ≡ path_in line.now }
{
    match after_file_word(line) {
        Some([]) | None => None,
        Some(path) => Some(path),
    }
}

/// The text after either word for a file: some servers' tools print a capital F.
fn after_file_word(line: &[u8]) -> Option<&[u8]>
    ensures { option_map (λ rest. rest.now) result ≡ after_file_word line.now }
{
    match after_prefix(b"# file: ", line) {
        Some(rest) => Some(rest),
        None => after_prefix(b"# File: ", line),
    }
}

/// The text after a word, if the line begins with it. The word's length is known, so that it is
/// compared in one step.
pub(crate) fn after_prefix<'t, const N: usize>(word: &[u8; N], line: &'t [u8]) -> Option<&'t [u8]>
    ensures { option_map (λ rest. rest.now) result ≡ after_prefix word.now line.now }
{
    match line.split_first_chunk::<N>() {
        Some((front, rest)) if front == word => Some(rest),
        _ => None,
    }
}

/// The first line of a text, and the text after its newline.
pub(crate) fn split_line(text: &[u8]) -> (&[u8], &[u8])
    ensures line { result.0.now ≡ first_line text.now }
    ensures rest { result.1.now ≡ after_line text.now }
{
    let line = before_byte(b'\n', text);
    if line.len() < text.len() {
        (line, &text[line.len() + 1..])
    } else {
        (line, &[])
    }
}
