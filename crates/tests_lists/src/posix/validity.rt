//! Tests of the validity of POSIX lists.
use acl_posix::{Acl, Invalid, read_entries};
use std::alloc::Global;
use tests_common::directory;

/// Why the entries that the text spells are no list; `None` where they are one.
fn fault(alloc: Global, text: &str) -> Option<Option<Invalid>> {
    let names = directory(alloc)?;
    let entries = read_entries(alloc, text.as_bytes(), &names).ok()?;
    Some(Acl::new(entries).err())
}

#[test]
fn lists_are_refused_for_the_first_fault(rt: HostRuntime) {
    const ROWS: [(&str, Option<Invalid>); 5] = [
        ("", Some(Invalid::Missing)),
        ("u::rw,u:bob:r,u:bob:r,g::r", Some(Invalid::Missing)),
        (
            "u::rw,u:bob:r,u:1001:w,g::r,m::r,o::-",
            Some(Invalid::Repeated),
        ),
        ("u::rw,u:bob:r,g::r,o::-", Some(Invalid::NoMask)),
        ("u::rw,u:bob:r,g::r,m::r,o::-", None),
    ];
    for (text, wanted) in ROWS {
        assert_eq!(rt; fault(rt.alloc(), text), Some(wanted), "{text}");
    }
}
