//! Tests of lines and their faults.
use crate::lang::fixture::code_of;
use std::alloc::Global;

/// Codes, each with lines that have it.
const LINES: [(u8, &[&str]); 10] = [
    // Commands.
    (
        0,
        &[
            " \tset\t/a default u::rwx , g::r-x,o::- ",
            "chmod /a 0640",
            "check /a bob -",
            "check4 /a bob rwaxdDtTnNcCoy",
        ],
    ),
    // Lines that give nothing.
    (100, &[" \t", "  # get /"]),
    // No commands.
    (
        1,
        &[
            "\r",
            "Get /",
            "get / /",
            "create pipe x y z",
            "set x access",
        ],
    ),
    // The first fault of the fields.
    (2, &["create file x dave 9"]),
    (5, &["check / dave q", "set /a access u:dave:r"]),
    (3, &["chmod / 1644"]),
    (4, &["check / bob rr", "check4 / bob -"]),
    // Faults of lists.
    (6, &["set /a access u::rr,g::r,o::r"]),
    (7, &["set /a access u::rw,u:bob:r,g::r,o::-"]),
    (9, &["set /a nfs4 A:i:OWNER@:r"]),
];

/// What stands first, the piece that stands so many times after it, how long the line is, and its
/// code.
const LONG: [(&str, &str, usize, usize, u8); 8] = [
    // As many entries as there may be, which are no list, and one more.
    ("set /a access u::r,", "u:1:r", 63, 396, 7),
    ("set /a access u::r,", "u:1:r", 64, 402, 8),
    ("set /a nfs4 ", "A::0:t", 128, 907, 0),
    ("set /a nfs4 ", "A::0:t", 129, 914, 8),
    ("#", ",", 512, 1024, 100),
    ("##", ",", 512, 1025, 10),
    // As long as a line may be, with a fault of its first word and of its last.
    ("x", ",", 512, 1024, 1),
    ("set /a access u::q,", "u:1:r", 167, 1020, 6),
];

/// The first of the lines that hasn't the code.
fn first_other<'a>(alloc: Global, lines: &[&'a str], code: u8) -> Option<&'a str> {
    for line in lines {
        if code_of(alloc, line.as_bytes()) != Some(code) {
            return Some(*line);
        }
    }
    None
}

/// `count` times the piece, with a comma before each but the first, after the front.
fn list_line(alloc: Global, front: &str, piece: &str, count: usize) -> Option<Vec<u8>> {
    let mut line = Vec::new(alloc);
    line.extend_from_slice(front.as_bytes()).ok()?;
    for number in 0..count {
        if number > 0 {
            line.push(b',').ok()?;
        }
        line.extend_from_slice(piece.as_bytes()).ok()?;
    }
    Some(line)
}

/// How long the line of these pieces is, and its code.
fn length_and_code(alloc: Global, front: &str, piece: &str, count: usize) -> Option<(usize, u8)> {
    let line = list_line(alloc, front, piece, count)?;
    Some((line.len(), code_of(alloc, &line)?))
}

#[test]
fn codes(rt: HostRuntime) {
    for (code, lines) in LINES {
        assert_eq!(rt; first_other(rt.alloc(), lines, code), None, "of {code}");
    }
}

#[test]
fn longest_lists_and_lines(rt: HostRuntime) {
    for (front, piece, count, length, code) in LONG {
        let found = length_and_code(rt.alloc(), front, piece, count);
        assert_eq!(rt; found, Some((length, code)), "{count} behind {front}");
    }
}
