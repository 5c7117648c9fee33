//! What lists are printed as, and why texts are refused; none where memory is refused.
use acl_nfs4::{AceFault, Acl4, read_aces};
use std::alloc::Global;
use tests_common::{acl4, directory};

/// What `print_aces` appends.
pub fn printed(alloc: Global, acl: &Acl4) -> Option<String> {
    let names = directory(alloc)?;
    let mut out = Vec::new(alloc);
    acl.print_aces(&names, &mut out).ok()?;
    String::from_utf8(out).ok()
}

/// What is printed of the list that the text spells.
pub fn shown(alloc: Global, text: &str) -> Option<String> {
    let list = acl4(alloc, text)?;
    printed(alloc, &list)
}

/// What `print_short` appends of the list that the text spells.
pub fn short_of(alloc: Global, text: &str) -> Option<String> {
    let list = acl4(alloc, text)?;
    let mut out = Vec::new(alloc);
    list.print_short(&mut out).ok()?;
    String::from_utf8(out).ok()
}

/// Why the text is refused.
pub fn fault_of(alloc: Global, text: &str) -> Option<AceFault> {
    read_aces(alloc, text.as_bytes(), &directory(alloc)?).err()
}
