//! Modes and permissions that are written, and what lists are printed and copied as; none where
//! memory is refused or a text is.
use acl_posix::{Acl, Mode, Perms, read_perms};
use std::alloc::Global;
use tests_common::{acl, directory};

/// The mode of an octal number.
pub fn mode(bits: u16) -> Option<Mode> {
    Mode::from_bits(bits)
}

/// The permissions that the text says.
pub fn perms(text: &str) -> Option<Perms> {
    read_perms(text.as_bytes())
}

/// What `print_effective` appends.
fn effective(alloc: Global, acl: &Acl) -> Option<String> {
    let names = directory(alloc)?;
    let mut out = Vec::new(alloc);
    acl.print_effective(&names, &mut out).ok()?;
    String::from_utf8(out).ok()
}

/// What `print_long` appends.
pub fn long(alloc: Global, acl: &Acl) -> Option<String> {
    let names = directory(alloc)?;
    let mut out = Vec::new(alloc);
    acl.print_long(&names, &mut out).ok()?;
    String::from_utf8(out).ok()
}

/// What `print_effective` appends of the list that the text spells.
pub fn effective_of(alloc: Global, text: &str) -> Option<String> {
    let list = acl(alloc, text)?;
    effective(alloc, &list)
}

/// What `print_long` appends of the list that the text spells.
pub fn long_of(alloc: Global, text: &str) -> Option<String> {
    let list = acl(alloc, text)?;
    long(alloc, &list)
}

/// What `print_short` appends of the list that the text spells.
pub fn short_of(alloc: Global, text: &str) -> Option<String> {
    let list = acl(alloc, text)?;
    let mut out = Vec::new(alloc);
    list.print_short(&mut out).ok()?;
    String::from_utf8(out).ok()
}

/// Whether a copy has the list's entries.
pub fn is_copied(alloc: Global, list: &Acl) -> Option<bool> {
    let copy = list.try_clone(alloc).ok()?;
    Some(copy.entries() == list.entries())
}
