//! Texts that were cut or bent: what each comes to, by tests/read-texts.py, which shares nothing
//! with the readers. Over each row stands the text, with `|` for a newline. What stands in the row
//! under a byte is the outcome of the text cut off before that byte, if the row is for None, and
//! else of the text with the row's byte in its place.
use crate::bent::{ACES, BENDS, ENTRIES, bent, is_refused_behind};
use crate::texts::is_text;
use acl_names::Directory;
use acl_posix::{TextFault, read_entries};
use std::alloc::Global;
use tests_common::directory;

/// How many entries a text has, at most 9, or its fault by its first letter.
fn outcome(alloc: Global, names: &Directory, text: &[u8]) -> u8 {
    match read_entries(alloc, text, names) {
        Ok(list) => {
            let counts = b"0123456789";
            counts.get(list.as_slice().len()).copied().unwrap_or(b'+')
        }
        Err(TextFault::Syntax) => b'S',
        Err(TextFault::UnknownName) => b'U',
        Err(TextFault::TooMany) => b'T',
        Err(TextFault::Memory) => b'M',
    }
}

/// What the text comes to that is bent at each place in turn.
fn outcomes(alloc: Global, text: &str, byte: Option<u8>) -> Option<String> {
    let names = directory(alloc)?;
    let mut found = Vec::new(alloc);
    for place in 0..text.len() {
        let bent = bent(alloc, text.as_bytes(), place, byte)?;
        found.push(outcome(alloc, &names, &bent)).ok()?;
    }
    String::from_utf8(found).ok()
}

#[test]
fn cut_and_bent_texts(rt: HostRuntime) {
    const ROWS: [(Option<u8>, &str); 7] = [
        //      user : : rwx , g::r-x|mask:rwx # all|other:r
        (None, "0SSSSSSSSS1111SSSSS2222SSSSS3333333333SSSSSS"),
        //         user : : rwx , g::r-x|mask:rwx # all|other:r
        (Some(0), "SSSSSSSSSSSSSSSSSSSSSSSSSSSSSSSS44443SSSSSSS"),
        //            user : : rwx , g::r-x|mask:rwx # all|other:r
        (Some(b':'), "SSSSS4S4SSSSSSSS44SSSSSSSS44SSSS44443SSSSS4S"),
        //            user : : rwx , g::r-x|mask:rwx # all|other:r
        (Some(b','), "SSSSSSSSSSSSS4SSSSSSS4SSSSSSSSSS44443SSSSSSS"),
        //            user : : rwx , g::r-x|mask:rwx # all|other:r
        (Some(b'#'), "2SSSSSSSSS3333SSSSS4433SSSSS4444444433SSSSSS"),
        //             user : : rwx , g::r-x|mask:rwx # all|other:r
        (Some(b'\n'), "SSSSSSSSSSSSS4SSSSSS44SSSSSSS44SSSS44SSSSSSS"),
        //            user : : rwx , g::r-x|mask:rwx # all|other:r
        (Some(0x80), "SSSSSSSSSSSSSSSSSSSSSSSSSSSSSSSS44443SSSSSSS"),
    ];
    for (byte, wanted) in ROWS {
        let found = outcomes(rt.alloc(), ENTRIES, byte);
        assert!(rt; is_text(found, wanted) == Some(true), "{byte:?}");
    }
}

/// A text of the other style has no entry, unless nothing of it is left.
#[test]
fn texts_of_the_other_kind(rt: HostRuntime) {
    for byte in BENDS {
        let nothing_left = byte.is_none() || byte == Some(b'#');
        let first = if nothing_left { b'0' } else { b'S' };
        let found = outcomes(rt.alloc(), ACES, byte);
        let refused = is_refused_behind(found, first);
        assert!(rt; refused == Some(true), "{byte:?}");
    }
}
