//! Entries of the freebsd form: what is read of them, and how they are printed.
use acl_forms::{Places, print_entries, read_entries, read_entry};
use acl_nfs4::{AceFault, PieceFault};
use std::alloc::Global;
use tests_common::{acl4, directory};

/// Whether the freebsd text and the text of the project's own form spell one list.
pub(crate) fn is_same(alloc: Global, text: &str, own: &str) -> Option<bool> {
    let names = directory(alloc)?;
    let read = read_entries(alloc, text.as_bytes(), &names).ok()?;
    let wanted = acl4(alloc, own)?;
    Some(read.has_same_entries(&wanted))
}

/// Lines that no tool prints, and what they say in the project's form.
#[test]
fn what_entries_say(rt: HostRuntime) {
    const ROWS: [(&str, &str); 7] = [
        ("owner@:rw:allow,group:60:x:deny", "A::OWNER@:rw,D:g:60:x"),
        // Letters in any order, and again.
        ("user:bob:wrwr:SFS:audit", "U:SF:bob:rw"),
        // I decides nothing.
        ("group@:r:fdI:alarm # inherited", "L:fd:GROUP@:r"),
        ("everyone@:--------------:------I:allow", "A::EVERYONE@:"),
        // No perms at all.
        ("everyone@:::deny", "D::EVERYONE@:"),
        ("user:1003:a:in-f:allow", "A:inf:1003:t"),
        ("", ""),
    ];
    for (text, own) in ROWS {
        assert!(rt; is_same(rt.alloc(), text, own) == Some(true), "{text}");
    }
}

fn entry_fault(alloc: Global, piece: &str) -> Option<PieceFault> {
    let names = directory(alloc)?;
    read_entry(piece.as_bytes(), &names).err()
}

#[test]
fn entries_that_are_refused(rt: HostRuntime) {
    const ROWS: [(&str, PieceFault); 12] = [
        ("OWNER@:r::allow", PieceFault::Syntax),
        ("owner@:r::Allow", PieceFault::Syntax),
        ("owner@:rt::allow", PieceFault::Syntax),
        ("owner@:r:g:allow", PieceFault::Syntax),
        ("owner@:alice:r::allow", PieceFault::Syntax),
        ("user:r:allow", PieceFault::Syntax),
        ("user:al ice:r::allow", PieceFault::Syntax),
        ("owner@:read_data::allow", PieceFault::Syntax),
        ("user:alice:r::allow:1000", PieceFault::Syntax),
        ("user:dave:r:i:allow", PieceFault::UnknownName),
        ("group:alice:r::allow", PieceFault::UnknownName),
        ("owner@:r:i:allow", PieceFault::InheritOnly),
    ];
    for (piece, wanted) in ROWS {
        assert_eq!(rt; entry_fault(rt.alloc(), piece), Some(wanted), "{piece}");
    }
}

pub(crate) fn text_fault(alloc: Global, text: &str) -> Option<AceFault> {
    let names = directory(alloc)?;
    read_entries(alloc, text.as_bytes(), &names).err()
}

/// The first faulty piece decides.
#[test]
fn texts_that_are_refused(rt: HostRuntime) {
    const ROWS: [(&str, AceFault); 3] = [
        ("owner@:r::allow\nA::OWNER@:r\n", AceFault::Syntax),
        ("user:dave:r::allow\nq\n", AceFault::UnknownName),
        ("owner@:r::allow,", AceFault::Syntax),
    ];
    for (text, wanted) in ROWS {
        assert_eq!(rt; text_fault(rt.alloc(), text), Some(wanted), "{text}");
    }
}

/// Whether the list is printed so.
fn is_printed(alloc: Global, places: Places, own: &str, wanted: &str) -> Option<bool> {
    let names = directory(alloc)?;
    let list = acl4(alloc, own)?;
    let mut out = Vec::new(alloc);
    print_entries(places, &list, &names, &mut out).ok()?;
    Some(out.as_slice() == wanted.as_bytes())
}

#[test]
fn lists_in_print(rt: HostRuntime) {
    const LIST: &str =
        "A:fd:OWNER@:rwxaDdtTnNcCoy,A::alice:rwatTnNcy,D:g:staff:r,U:SF:1003:x,A::EVERYONE@:";
    const COMPACT: &str =
        "owner@:rwxpdDaARWcCos:fd:allow\nuser:alice:rwpaARWcs::allow\ngroup:staff:r::deny\nuser:1003:x:SF:audit\neveryone@:::allow\n";
    const FULL: &str =
        "owner@:rwxpdDaARWcCos:fd-----:allow\nuser:alice:rw-p--aARWc--s:-------:allow\ngroup:staff:r-------------:-------:deny\nuser:1003:--x-----------:----SF-:audit\neveryone@:--------------:-------:allow\n";
    assert!(rt; is_printed(rt.alloc(), Places::Compact, LIST, COMPACT) == Some(true));
    assert!(rt; is_printed(rt.alloc(), Places::Full, LIST, FULL) == Some(true));
    assert!(rt; is_same(rt.alloc(), COMPACT, LIST) == Some(true));
    assert!(rt; is_same(rt.alloc(), FULL, LIST) == Some(true));
}
