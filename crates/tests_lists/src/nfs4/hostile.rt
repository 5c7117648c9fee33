//! Texts that were cut or bent: what each comes to, by tests/read-texts.py, which shares nothing
//! with the readers. Over each row stands the text. What stands in the row under a byte is the
//! outcome of the text cut off before that byte, if the row is for None, and else of the text with
//! the row's byte in its place.
use crate::bent::{ACES, BENDS, ENTRIES, bent, is_refused_behind};
use crate::texts::is_text;
use acl_names::Directory;
use acl_nfs4::{AceFault, read_aces};
use std::alloc::Global;
use tests_common::directory;

/// How many entries a text has, at most 9, or its fault by its first letter.
fn outcome(alloc: Global, names: &Directory, text: &[u8]) -> u8 {
    match read_aces(alloc, text, names) {
        Ok(list) => {
            let counts = b"0123456789";
            counts.get(list.aces().len()).copied().unwrap_or(b'+')
        }
        Err(AceFault::Syntax) => b'S',
        Err(AceFault::UnknownName) => b'U',
        Err(AceFault::InheritOnly) => b'I',
        Err(AceFault::TooMany) => b'T',
        Err(AceFault::Memory) => b'M',
    }
}

/// What the text comes to that is bent at each place in turn.
fn outcomes(alloc: Global, text: &str, byte: Option<u8>) -> Option<String> {
    let names = directory(alloc)?;
    let mut found = Vec::new(alloc);
    for place in 0..text.len() {
        let bent = bent(alloc, text.as_bytes(), place, byte)?;
        found.push(outcome(alloc, &names, &bent)).ok()?;
    }
    String::from_utf8(found).ok()
}

#[test]
fn cut_and_bent_texts(rt: HostRuntime) {
    const ROWS: [(Option<u8>, &str); 7] = [
        //   A::OWNER@:rwatTcC,A::bob@example.org:rwa,A:g:ops@example.org:r,A::EVERYONE@:r
        (
            None,
            "0SSSSSSSSS11111111SSSSSSSSSSSSSSSSSSS2222SSSSSSSSSSSSSSSSSSSS33SSSSSSSSSSSSS4",
        ),
        //   A::OWNER@:rwatTcC,A::bob@example.org:rwa,A:g:ops@example.org:r,A::EVERYONE@:r
        (
            Some(0),
            "SSSSSSSSSSSSSSSSSSSSSSSSSSSSSSSSSSSSSSSSSSSSSSSSSSSSSSSSSSSSSSSSSSSSSSSSSSSSS",
        ),
        //   A::OWNER@:rwatTcC,A::bob@example.org:rwa,A:g:ops@example.org:r,A::EVERYONE@:r
        (
            Some(b':'),
            "S44SSSSSS4SSSSSSSSS44SSSSSSSSSSSSSSS4SSSSS4S4SSSSSSSSSSSSSSS4SSS44SSSSSSSSS4S",
        ),
        //   A::OWNER@:rwatTcC,A::bob@example.org:rwa,A:g:ops@example.org:r,A::EVERYONE@:r
        (
            Some(b','),
            "SSSSSSSSSSSSSSSSS4SSSSSSSSSSSSSSSSSSSSSS4SSSSSSSSSSSSSSSSSSSSS4SSSSSSSSSSSSSS",
        ),
        //   A::OWNER@:rwatTcC,A::bob@example.org:rwa,A:g:ops@example.org:r,A::EVERYONE@:r
        (
            Some(b'#'),
            "0SSSSSSSSS11111111SSSSSSSSSSSSSSSSSSS2222SSSSSSSSSSSSSSSSSSSS33SSSSSSSSSSSSS4",
        ),
        //   A::OWNER@:rwatTcC,A::bob@example.org:rwa,A:g:ops@example.org:r,A::EVERYONE@:r
        (
            Some(b'\n'),
            "SSSSSSSSSSSSSSSSS4SSSSSSSSSSSSSSSSSSSSSS4SSSSSSSSSSSSSSSSSSSSS4SSSSSSSSSSSSS4",
        ),
        //   A::OWNER@:rwatTcC,A::bob@example.org:rwa,A:g:ops@example.org:r,A::EVERYONE@:r
        (
            Some(0x80),
            "SSSSSSSSSSSSSSSSSSSSSSSSSSSSSSSSSSSSSSSSSSSSSSSSSSSSSSSSSSSSSSSSSSSSSSSSSSSSS",
        ),
    ];
    for (byte, wanted) in ROWS {
        let found = outcomes(rt.alloc(), ACES, byte);
        assert!(rt; is_text(found, wanted) == Some(true), "{byte:?}");
    }
}

/// A text of the other style has no entry, unless nothing of it is left.
#[test]
fn texts_of_the_other_kind(rt: HostRuntime) {
    for byte in BENDS {
        let nothing_left = byte.is_none();
        let first = if nothing_left { b'0' } else { b'S' };
        let found = outcomes(rt.alloc(), ENTRIES, byte);
        let refused = is_refused_behind(found, first);
        assert!(rt; refused == Some(true), "{byte:?}");
    }
}
