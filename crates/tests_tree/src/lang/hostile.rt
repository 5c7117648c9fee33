//! Texts that are cut anywhere, or have another byte anywhere, are read without a fault of the
//! reader's own.
use crate::lang::fixture::code;
use acl_lang::{Line, MAX_TEXT_LEN, Numbered, read_line, read_text};
use acl_names::Directory;
use acl_tree::Request;
use std::alloc::Global;
use std::test::Fail;
use tests_common::directory;

/// The first two have no comment, so that no byte of theirs may be another than a printed one.
const TEXTS: [&[u8]; 4] = [
    b"set /a nfs4 A::OWNER@:rwatTcC,A::bob@example.org:rwa,A:g:ops@example.org:r,A::EVERYONE@:r",
    b"chmod /a 604",
    b"set /a access user : : rwx , group::r-x\nmask:rwx # all\nother:r",
    b"create file /a alice 666\n\n# none\nset /a access u::rw,u:bob:rw,g::r,m::r,o::-\ncheck /a bob w\nget /a",
];

const BYTES: [u8; 6] = [0, b':', b',', b'#', b'\n', 0x80];

/// Whether the line is read, and gives a request.
fn is_read(alloc: Global, names: &Directory, line: &[u8]) -> bool {
    matches!(read_line(alloc, line, names), Ok(Line::Command(_)))
}

/// Whether a line counts as a command: its first byte that is no blank is no `#`.
fn counts(line: &[u8]) -> bool {
    for byte in line {
        if *byte != b' ' && *byte != b'\t' {
            return *byte != b'#';
        }
    }
    false
}

/// The numbers of the lines that count.
fn numbers(alloc: Global, text: &[u8]) -> Option<Vec<u32>> {
    let mut numbers = Vec::new(alloc);
    let mut number: u32 = 0;
    for line in text.split(|byte| *byte == b'\n') {
        number = number.saturating_add(1);
        if counts(line) {
            numbers.push(number).ok()?;
        }
    }
    Some(numbers)
}

/// Whether there is a request for each number, with a fault from 1 to 10 where it is a faulty
/// line's.
fn are_numbered(requests: &[Numbered], numbers: &[u32]) -> bool {
    if requests.len() != numbers.len() {
        return false;
    }
    for (numbered, number) in requests.iter().zip(numbers) {
        if numbered.line != *number {
            return false;
        }
        if let Request::Bad(fault) = &numbered.request {
            if code(*fault) < 1 || code(*fault) > 10 {
                return false;
            }
        }
    }
    true
}

/// Whether the text gives a request for each line that counts, and for no other.
fn is_read_whole(alloc: Global, names: &Directory, text: &[u8]) -> Option<bool> {
    if text.len() > MAX_TEXT_LEN {
        return None;
    }
    let requests = read_text(alloc, text, names).ok()?;
    let numbers = numbers(alloc, text)?;
    Some(are_numbered(&requests, &numbers))
}

/// Whether the line gives a request or not, as it is said, and the same bytes are read as a text.
fn is_taken(alloc: Global, names: &Directory, line: &[u8], gives: bool) -> bool {
    is_read(alloc, names, line) == gives && is_read_whole(alloc, names, line) == Some(true)
}

/// How long the first front of the text is that isn't read. All but the empty one give a request.
fn first_wrong_front(alloc: Global, names: &Directory, text: &[u8]) -> Option<usize> {
    for len in 0..text.len() {
        if !is_taken(alloc, names, &text[..len], len > 0) {
            return Some(len);
        }
    }
    None
}

#[test]
fn prefixes(rt: HostRuntime) -> Result<(), Fail> {
    let names = directory(rt.alloc()).ok_or("memory")?;
    for text in TEXTS {
        assert_eq!(rt;
            first_wrong_front(rt.alloc(), &names, text),
            None,
            "of {text:?}"
        );
    }
    Ok(())
}

/// The text with another byte at the place.
fn with_byte(alloc: Global, text: &[u8], at: usize, byte: u8) -> Option<Vec<u8>> {
    let mut line = Vec::from_slice(alloc, text).ok()?;
    *line.get_mut(at)? = byte;
    Some(line)
}

/// Whether the text with another byte at the place is read. It gives a request unless it begins
/// with `#`.
fn takes(alloc: Global, names: &Directory, text: &[u8], at: usize, byte: u8) -> bool {
    match with_byte(alloc, text, at, byte) {
        Some(line) => is_taken(alloc, names, &line, at > 0 || byte != b'#'),
        None => false,
    }
}

/// The first place at which the text with this byte isn't read.
fn first_wrong_place(alloc: Global, names: &Directory, text: &[u8], byte: u8) -> Option<usize> {
    for at in 0..text.len() {
        if !takes(alloc, names, text, at, byte) {
            return Some(at);
        }
    }
    None
}

/// The first byte with which the text isn't read, and its place.
fn first_wrong_byte(alloc: Global, names: &Directory, text: &[u8]) -> Option<(u8, usize)> {
    for byte in BYTES {
        if let Some(at) = first_wrong_place(alloc, names, text, byte) {
            return Some((byte, at));
        }
    }
    None
}

#[test]
fn other_bytes(rt: HostRuntime) -> Result<(), Fail> {
    let names = directory(rt.alloc()).ok_or("memory")?;
    for text in TEXTS {
        assert_eq!(rt;
            first_wrong_byte(rt.alloc(), &names, text),
            None,
            "in {text:?}"
        );
    }
    Ok(())
}
