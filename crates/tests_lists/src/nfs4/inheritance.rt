//! Tests of inheritance.
use crate::nfs4::fixture::printed;
use crate::texts::is_text;
use acl_nfs4::Kind;
use std::alloc::Global;
use tests_common::acl4;

/// The list of the example of a directory.
const PARENT: &str = "A:f:bob:r,A:dng:ops:rx,D:fn:carol:w,A:fdi:EVERYONE@:tc";

/// What the directory of the example hands down to one made in it.
const BELOW: &str = "A:fi:bob@example.org:r\nA:g:ops@example.org:rx\nA:fd:EVERYONE@:tc\n";

/// What is printed of what a directory with the list hands down.
fn below(alloc: Global, text: &str, kind: Kind) -> Option<String> {
    let list = acl4(alloc, text)?;
    printed(alloc, &list.inherited(alloc, kind).ok()?)
}

#[test]
fn what_is_inherited(rt: HostRuntime) {
    const FILE: &str = "A::bob@example.org:r\nD::carol@example.org:w\nA::EVERYONE@:tc\n";
    const AGAIN: &str = "A:fi:bob@example.org:r\nA:fd:EVERYONE@:tc\n";
    const OPS: &str = "A:Sg:ops@example.org:r\n";
    const ROWS: [(&str, Kind, &str); 4] = [
        (PARENT, Kind::File, FILE),
        (PARENT, Kind::Dir, BELOW),
        (BELOW, Kind::Dir, AGAIN),
        // Where f, d and n stand together nothing is passed on.
        ("A:fdnSg:ops:r", Kind::Dir, OPS),
    ];
    for (list, kind, wanted) in ROWS {
        let below = below(rt.alloc(), list, kind);
        assert!(rt; is_text(below, wanted) == Some(true), "{list} {kind:?}");
    }
}

/// Whether a directory with the list hands anything down.
fn hands_down(alloc: Global, text: &str) -> Option<bool> {
    Some(acl4(alloc, text)?.has_inheritance())
}

#[test]
fn flags_of_inheritance(rt: HostRuntime) {
    const ROWS: [(&str, bool); 4] = [
        ("A::OWNER@:r,A:n:OWNER@:r", true),
        ("A:fi:OWNER@:r", true),
        ("A:SFg:ops:r", false),
        ("", false),
    ];
    for (list, wanted) in ROWS {
        assert_eq!(rt; hands_down(rt.alloc(), list), Some(wanted));
    }
}
