//! Texts to cut off and to bend, which the readers of both styles read.
use std::alloc::Global;

/// A text of POSIX entries, with blanks, a comment, and words in full and short.
pub const ENTRIES: &str = "user : : rwx , g::r-x\nmask:rwx # all\nother:r";

/// A text of NFSv4 entries, with each kind of who.
pub const ACES: &str =
    "A::OWNER@:rwatTcC,A::bob@example.org:rwa,A:g:ops@example.org:r,A::EVERYONE@:r";

/// How a text of the other style is bent.
pub const BENDS: [Option<u8>; 7] = [
    None,
    Some(0),
    Some(b':'),
    Some(b','),
    Some(b'#'),
    Some(b'\n'),
    Some(0x80),
];

/// The text cut off at the place, if there is no byte; else with the byte at that place.
pub fn bent(alloc: Global, text: &[u8], place: usize, byte: Option<u8>) -> Option<Vec<u8>> {
    let Some(byte) = byte else {
        return Vec::from_slice(alloc, text.get(..place)?).ok();
    };
    let mut bent = Vec::from_slice(alloc, text).ok()?;
    *bent.get_mut(place)? = byte;
    Some(bent)
}

/// Whether the first outcome is this, and each other that of wrong syntax.
pub fn is_refused_behind(outcomes: Option<String>, first: u8) -> Option<bool> {
    let outcomes = outcomes?;
    let (own, others) = outcomes.as_bytes().split_first()?;
    Some(*own == first && others.iter().all(|it| *it == b'S'))
}
