//! Tests of the texts of POSIX lists.
use crate::posix::fixture::{effective_of, long_of, short_of};
use crate::texts::is_text;
use acl_posix::{TextFault, read_entries};
use std::alloc::Global;
use tests_common::{acl, directory};

/// Why the text is refused, if it is.
fn fault(alloc: Global, text: &str) -> Option<Option<TextFault>> {
    let names = directory(alloc)?;
    Some(read_entries(alloc, text.as_bytes(), &names).err())
}

/// The two lists of the examples.
const LONG: &str = "user : : rwx , g::r-x\nmask:rwx # all\nother:r\n";

const MARKED: &str = "u::rw,u:bob:rw,g::r,m::r,o::-";

/// Whether what is printed of a list is read as its entries.
fn is_read_again(alloc: Global, text: &str, printed: &str) -> Option<bool> {
    let list = acl(alloc, text)?;
    let again = acl(alloc, printed)?;
    Some(again.entries() == list.entries())
}

#[test]
fn texts_in_their_printed_form(rt: HostRuntime) {
    let long = "user::rwx\ngroup::r-x\nmask::rwx\nother::r--\n";
    assert!(rt; is_text(long_of(rt.alloc(), LONG), long) == Some(true));
    let marked = "user::rw-\nuser:bob:rw-\t#effective:r--\ngroup::r--\nmask::r--\nother::---\n";
    assert!(rt; is_text(effective_of(rt.alloc(), MARKED), marked) == Some(true));
    assert!(rt; is_read_again(rt.alloc(), MARKED, marked) == Some(true));
    let text = "g:ops:w,g:0:x,g::r,u:4294967294:r,u:root:-,u::-,m::-,o::-";
    let short = "u::---,u:0:---,u:4294967294:r--,g::r--,g:0:--x,g:60:-w-,m::---,o::---";
    assert!(rt; is_text(short_of(rt.alloc(), text), short) == Some(true));
}

#[test]
fn the_first_faulty_piece_decides(rt: HostRuntime) {
    const ROWS: [(&str, Option<TextFault>); 11] = [
        ("u::rr,g::r,o::r", Some(TextFault::Syntax)),
        ("u::r,,g::r", Some(TextFault::Syntax)),
        ("user:4294967295:r", Some(TextFault::Syntax)),
        ("u:00000000007:r", Some(TextFault::Syntax)),
        ("u::rw-x", Some(TextFault::Syntax)),
        ("u:dave:r,u::rr", Some(TextFault::UnknownName)),
        ("u:4294967294:r", None),
        ("u:0000000007:r", None),
        ("u::---", None),
        ("u::r # a comment\r", None),
        ("", None),
    ];
    for (text, wanted) in ROWS {
        assert_eq!(rt; fault(rt.alloc(), text), Some(wanted), "{text}");
    }
}
