//! Tests of the POSIX lists that texts spell.
use crate::posix::fixture::short_of;
use crate::posix::sizes::text_of;
use crate::texts::is_text;
use acl_posix::{ReadAclFault, read_acl};
use std::alloc::Global;
use tests_common::directory;

/// The word for why the text gives no list; an empty one if it gives a list.
fn word(alloc: Global, text: &str) -> Option<&'static str> {
    let names = directory(alloc)?;
    match read_acl(alloc, text.as_bytes(), &names) {
        Ok(_) => Some(""),
        Err(ReadAclFault::Acl(fault)) => Some(fault.word()),
        Err(ReadAclFault::Memory) => None,
    }
}

/// The same of 64 entries with more behind them.
fn word_behind(alloc: Global, more: &str) -> Option<&'static str> {
    let mut text = text_of(alloc, 64)?;
    text.push_str(more).ok()?;
    word(alloc, text.as_str())
}

#[test]
fn lists_are_read_in_canonical_order(rt: HostRuntime) {
    const ROWS: [(&str, &str); 2] = [
        (
            "other:-\ngroup::r # the group\nuser::rw",
            "u::rw-,g::r--,o::---",
        ),
        (
            "o::-,m::rw,g:60:x,u:1002:w,u:bob:r,g:0:r,g::r,u::rwx",
            "u::rwx,u:1001:r--,u:1002:-w-,g::r--,g:0:r--,g:60:--x,m::rw-,o::---",
        ),
    ];
    for (text, wanted) in ROWS {
        assert_eq!(rt;
            is_text(short_of(rt.alloc(), text), wanted),
            Some(true),
            "{text}"
        );
    }
}

#[test]
fn texts_are_refused_for_the_first_fault(rt: HostRuntime) {
    const ROWS: [(&str, &str); 12] = [
        ("u::rw,g::r,o::-", ""),
        ("u::rw,u:bob:r,g::r,m::r,o::-", ""),
        ("u::rr,g::r,o::-", "bad-acl"),
        ("u::rw,g::r,o::-,", "bad-acl"),
        ("u::rw,u:dave:r,g::r,m::r,o::-", "unknown-name"),
        ("", "invalid-acl"),
        ("u::rw,g::r", "invalid-acl"),
        ("u::rw,u:bob:r,u:1001:w,g::r,m::r,o::-", "invalid-acl"),
        ("u::rw,u:bob:r,g::r,o::-", "invalid-acl"),
        // The first piece decides, and any piece before what the entries are.
        ("u:dave:r,u::rr", "unknown-name"),
        ("u::rr,u:dave:r", "bad-acl"),
        ("u::rw,u::rw,g:nobodies:r", "unknown-name"),
    ];
    for (text, wanted) in ROWS {
        assert_eq!(rt; word(rt.alloc(), text), Some(wanted), "{text}");
    }
}

#[test]
fn a_65th_piece_is_too_many(rt: HostRuntime) {
    // A 65th that is an entry, and one that is none; and a 64th that is none.
    const ROWS: [(&str, &str); 4] = [
        ("", ""),
        (",u:64:r", "too-many"),
        (",none", "too-many"),
        ("none", "bad-acl"),
    ];
    for (more, wanted) in ROWS {
        assert_eq!(rt; word_behind(rt.alloc(), more), Some(wanted), "{more}");
    }
}
