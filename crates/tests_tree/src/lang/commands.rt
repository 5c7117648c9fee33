//! Tests of requests that are printed as lines.
use acl_lang::{Line, push_command, read_line};
use std::alloc::Global;
use tests_common::directory;

/// Lines, and what is printed of what they ask for.
const LINES: [(&str, &str); 13] = [
    ("\tget  / ", "get /"),
    (
        "set /a access  user::rwx , u:bob:rx, g::-\t,m::rwx,o::- # all",
        "set /a access u::rwx,u:1001:r-x,g::---,m::rwx,o::---",
    ),
    (
        "set /d default g:ops:w,u::rwx,g::x,m::-,o::-",
        "set /d default u::rwx,g::--x,g:60:-w-,m::---,o::---",
    ),
    ("set /d default none", "set /d default none"),
    (
        "set /a nfs4 A:f:bob@example.org:wr,D:g:ops:,A::OWNER@:y",
        "set /a nfs4 A:f:1001:rw,D:g:60:,A::OWNER@:y",
    ),
    // A list with no entries, which is written as a comment.
    ("set /a nfs4 # nobody", "set /a nfs4 #"),
    ("chmod /a 0640", "chmod /a 640"),
    ("create dir /d/e-1 carol 0000", "create dir /d/e-1 1002 000"),
    (
        "create file /d/e-1/f 4294967294 751",
        "create file /d/e-1/f 4294967294 751",
    ),
    ("check /a bob -", "check /a 1001 ---"),
    ("check4 /a alice yr", "check4 /a 1000 ry"),
    ("translate /a", "translate /a"),
    // No command, of which nothing is printed.
    ("tell /a", ""),
];

/// Whether this is printed of what the line asks for.
fn is_printed_as(alloc: Global, line: &str, wanted: &str) -> Option<bool> {
    let names = directory(alloc)?;
    match read_line(alloc, line.as_bytes(), &names).ok()? {
        Line::Nothing => Some(false),
        Line::Command(request) => {
            let mut out = Vec::new(alloc);
            push_command(&request, &mut out).ok()?;
            Some(out.as_slice() == wanted.as_bytes())
        }
    }
}

#[test]
fn requests_are_printed_as_lines(rt: HostRuntime) {
    for (line, wanted) in LINES {
        let right = is_printed_as(rt.alloc(), line, wanted);
        assert!(rt; right == Some(true), "{line}");
    }
}
