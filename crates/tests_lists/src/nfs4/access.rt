//! Tests of the evaluation of NFSv4 lists.
use crate::files::{grants4, requester_named};
use acl_nfs4::read_letters;
use std::alloc::Global;

/// Whether the user may do it under the list that the text spells.
fn may(alloc: Global, text: &str, user: &str, letters: &str) -> Option<bool> {
    let request = read_letters(letters.as_bytes())?;
    grants4(alloc, text, &requester_named(alloc, user)?, request)
}

#[test]
fn the_first_entry_that_speaks_decides(rt: HostRuntime) {
    const ROWS: [(&str, &str, &str, bool); 7] = [
        ("D::EVERYONE@:r,A::OWNER@:r", "alice", "r", false),
        ("A::OWNER@:r,D::EVERYONE@:r", "alice", "r", true),
        // The empty request is granted.
        ("D::EVERYONE@:r", "carol", "", true),
        // The file's group, and a named one.
        ("A::GROUP@:r,A:g:ops:w", "bob", "rw", true),
        ("A::GROUP@:r,A:g:ops:w", "carol", "r", false),
        // What is only inherited has no effect, and audits decide nothing.
        ("A:fi:EVERYONE@:x", "bob", "x", false),
        ("U:F:EVERYONE@:x,A::bob:x", "bob", "x", true),
    ];
    for (list, user, letters, wanted) in ROWS {
        assert_eq!(rt;
            may(rt.alloc(), list, user, letters),
            Some(wanted),
            "{list} {user} {letters}"
        );
    }
}
