//! The calls that bench/lang times: each prepares once, does its work a number of times, and
//! answers how much it came to. Nothing here is part of the service.
#![tactic(auto)]

use acl_lang::{Answer, MAX_TEXT_LEN, Requests, read_text, render};
use acl_names::{Directory, Gid, Uid};
use acl_posix::Mode;
use acl_tree::{Style, Tree};
use std::alloc::Global;

fn no_names(alloc: Global) -> Option<Directory> {
    let domain = String::from_str(alloc, "local").ok()?;
    Directory::from_parts(alloc, domain, Vec::new(alloc), Vec::new(alloc)).ok()
}

fn tree(alloc: Global) -> Option<Tree> {
    let mode = Mode::from_bits(0o755)?;
    let umask = Mode::from_bits(0o022)?;
    Tree::new(alloc, Uid::new(0)?, Gid::new(0)?, mode, Style::Posix, umask).ok()
}

/// The answers to the text's requests, of a tree of a root alone.
fn answers(alloc: Global, text: &[u8], names: &Directory) -> Option<Vec<Answer>> {
    if text.len() > MAX_TEXT_LEN {
        return None;
    }
    let mut tree = tree(alloc)?;
    let mut answers = Vec::new(alloc);
    for numbered in read_text(alloc, text, names).ok()?.iter() {
        let reply = tree.apply(alloc, &numbered.request, names).ok()?;
        let answer = Answer {
            line: numbered.line,
            reply,
        };
        answers.push(answer).ok()?;
    }
    Some(answers)
}

/// How many requests the text has, read one after the other and let go.
fn count_requests(alloc: Global, text: &[u8], names: &Directory) -> Option<u64> {
    if text.len() > MAX_TEXT_LEN {
        return None;
    }
    let mut count: u64 = 0;
    let mut requests = Requests::new(text, names);
    while let Some(numbered) = requests.next(alloc).ok()? {
        count = count.wrapping_add(u64::from(numbered.line > 0));
    }
    Some(count)
}

fn times_read(alloc: Global, text: &[u8], rounds: u32) -> Option<u64> {
    let names = no_names(alloc)?;
    let mut sum: u64 = 0;
    for _ in 0..rounds {
        sum = sum.wrapping_add(count_requests(alloc, text, &names)?);
    }
    Some(sum)
}

fn times_gathered(alloc: Global, text: &[u8], rounds: u32) -> Option<u64> {
    let names = no_names(alloc)?;
    if text.len() > MAX_TEXT_LEN {
        return None;
    }
    let mut sum: u64 = 0;
    for _ in 0..rounds {
        let requests = read_text(alloc, text, &names).ok()?;
        sum = sum.wrapping_add(requests.len() as u64);
    }
    Some(sum)
}

fn times_rendered(alloc: Global, text: &[u8], rounds: u32) -> Option<u64> {
    let names = no_names(alloc)?;
    let answers = answers(alloc, text, &names)?;
    let mut sum: u64 = 0;
    for _ in 0..rounds {
        let mut out = Vec::new(alloc);
        for answer in answers.iter() {
            render(answer, &names, &mut out).ok()?;
        }
        sum = sum.wrapping_add(out.len() as u64);
    }
    Some(sum)
}

/// Reads the text's requests one after the other, `rounds` times; how many there were in all.
#[unsafe(no_mangle)]
pub extern "C" fn lang_times_read(alloc: Global, text: &[u8], rounds: u32) -> u64 {
    times_read(alloc, text, rounds).unwrap_or(0)
}

/// The same into a list of them.
#[unsafe(no_mangle)]
pub extern "C" fn lang_times_gathered(alloc: Global, text: &[u8], rounds: u32) -> u64 {
    times_gathered(alloc, text, rounds).unwrap_or(0)
}

/// Prints the answers to the text's requests, which are made once; how many bytes there were in
/// all.
#[unsafe(no_mangle)]
pub extern "C" fn lang_times_rendered(alloc: Global, text: &[u8], rounds: u32) -> u64 {
    times_rendered(alloc, text, rounds).unwrap_or(0)
}
