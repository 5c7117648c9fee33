//! Tests of the access check of POSIX lists.
use crate::files::{grants, requester_named};
use crate::posix::fixture::perms;
use std::alloc::Global;

/// Whether the user may do it under the list that the text spells.
fn may(alloc: Global, text: &str, user: &str, request: &str) -> Option<bool> {
    let request = perms(request)?;
    grants(alloc, text, &requester_named(alloc, user)?, request)
}

#[test]
fn each_case_of_the_check(rt: HostRuntime) {
    const ROWS: [(&str, &str, &str, bool); 9] = [
        // Groups don't add up.
        ("u::-,g::r,g:ops:w,m::rw,o::-", "bob", "rw", false),
        // No fall-through to others.
        ("u::-,g::r,o::rwx", "bob", "x", false),
        // The owner before a named user.
        ("u::r,u:alice:rwx,g::-,m::rwx,o::-", "alice", "w", false),
        // The mask limits users and the file's group, and neither the owner nor the others.
        ("u::rw,u:bob:rw,g::r,m::r,o::-", "bob", "w", false),
        ("u::rw,u:bob:rw,g::r,m::r,o::-", "bob", "r", true),
        ("u::rw,u:bob:r,g::rw,m::r,o::rwx", "alice", "w", true),
        ("u::rw,u:carol:r,g::rw,m::r,o::rwx", "bob", "w", false),
        ("u::rw,u:bob:r,g::rw,m::r,o::rwx", "carol", "x", true),
        // The empty request is granted.
        ("u::-,g::-,o::-", "carol", "-", true),
    ];
    for (list, user, request, wanted) in ROWS {
        assert_eq!(rt;
            may(rt.alloc(), list, user, request),
            Some(wanted),
            "{list} {user} {request}"
        );
    }
}
