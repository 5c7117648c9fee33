//! Tests of texts of commands.
use crate::lang::fixture::code;
use acl_lang::{Numbered, read_text};
use acl_tree::Request;
use std::alloc::Global;
use tests_common::directory;

/// The requests of a text.
fn requests(alloc: Global, text: &[u8]) -> Option<Vec<Numbered>> {
    let names = directory(alloc)?;
    if text.len() > 1_048_576 {
        return None;
    }
    read_text(alloc, text, &names).ok()
}

/// The line of a request, and its fault's code; 0 of a command.
fn coded(numbered: &Numbered) -> (u32, u8) {
    match &numbered.request {
        Request::Bad(fault) => (numbered.line, code(*fault)),
        _ => (numbered.line, 0),
    }
}

fn repeated(alloc: Global, piece: &[u8], count: usize) -> Option<Vec<u8>> {
    let mut text = Vec::new(alloc);
    for _ in 0..count {
        text.extend_from_slice(piece).ok()?;
    }
    Some(text)
}

/// How many requests so many lines give, and the line and the code of the last.
fn count_and_last(alloc: Global, line: &[u8], lines: usize) -> Option<(usize, Option<(u32, u8)>)> {
    let text = repeated(alloc, line, lines)?;
    let requests = requests(alloc, &text)?;
    Some((requests.len(), requests.last().map(coded)))
}

#[test]
fn longest_texts(rt: HostRuntime) {
    for (line, lines, count, last) in [
        (b"x\n".as_slice(), 524_288, 524_288, Some((524_288, 1))),
        (b"\n".as_slice(), 1_048_576, 0, None),
    ] {
        let read = count_and_last(rt.alloc(), line, lines);
        assert_eq!(rt; read, Some((count, last)));
    }
}
