//! Lists that texts spell, with the names of the examples; none if memory is refused or a text is.
use crate::office::directory;
use acl_nfs4::{Acl4, read_aces};
use acl_posix::{Acl, read_acl};
use std::alloc::Global;

/// The POSIX list that the text spells.
pub fn acl(alloc: Global, text: &str) -> Option<Acl> {
    let names = directory(alloc)?;
    read_acl(alloc, text.as_bytes(), &names).ok()
}

/// The NFSv4 list that the text spells.
pub fn acl4(alloc: Global, text: &str) -> Option<Acl4> {
    let names = directory(alloc)?;
    read_aces(alloc, text.as_bytes(), &names).ok()
}
