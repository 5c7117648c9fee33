//! Runs of texts: what goes to the output and to standard error.
use crate::fixture::SETUP;
use crate::gates::AfterAnswer;
use crate::texts::are_short;
use acl_service::{ErrorOutput, Gate, OpenGate, run_texts};
use std::alloc::Global;
use std::sync::Wait;
use std::thread::Threads;
use std::time::Clock;

/// Lets all through but a session's one request.
#[derive(Clone, Copy)]
struct Closed {
    session: u32,
    nth: u32,
}

impl Gate for Closed {
    fn may_submit(&self, session: u32, nth: u32) -> bool {
        (session, nth) != (self.session, self.nth)
    }

    fn answered(&self, _session: u32, _nth: u32) {}
}

const P: &str = "create dir /p alice 755\ncreate file /p/f alice 600\nget /p/f\n";

const Q: &str = "create dir /q bob 755\ncreate file /q/f bob 600\nget /q/f\n";

/// The texts' bytes.
fn texts_of(alloc: Global, given: &[&str]) -> Option<Vec<Vec<u8>>> {
    let mut texts = Vec::new(alloc);
    for text in given {
        texts
            .push(Vec::from_slice(alloc, text.as_bytes()).ok()?)
            .ok()?;
    }
    Some(texts)
}

/// How a run ends: its status, and what goes to the output and to standard error.
type Ending<'a> = (u8, &'a str, &'a str);

/// Whether a run of these texts ends so. None where memory is refused, or they are no run's.
fn ends_with<R: Threads + Wait + Clock + Sync, G: Gate>(
    rt: &R,
    alloc: Global,
    gate: &G,
    setup: &str,
    given: &[&str],
    journal: bool,
    ending: Ending<'_>,
) -> Option<bool> {
    let texts = texts_of(alloc, given)?;
    if texts.is_empty() || !are_short(&texts) {
        return None;
    }
    let mut out = Vec::new(alloc);
    let mut err = Vec::new(alloc);
    let setup = setup.as_bytes();
    let texts = texts.as_slice();
    let status = run_texts(
        rt,
        alloc,
        gate,
        setup,
        texts,
        journal,
        None,
        &mut out,
        &mut ErrorOutput::new(&mut err),
    );
    let (wanted, text, fault) = ending;
    Some(
        status == wanted && out.as_slice() == text.as_bytes() && err.as_slice() == fault.as_bytes(),
    )
}

/// How many requests each of two sessions has: more than are taken in a turn, which are 64.
const MANY: u32 = 70;

/// A line, and then another so often that there are `MANY`.
fn many_lines(alloc: Global, first: &str, other: &str) -> Option<String> {
    let mut text = String::new(alloc);
    text.push_str(first).ok()?;
    for _ in 1..MANY {
        text.push_str(other).ok()?;
    }
    Some(text)
}

/// Appends `MANY` lines, each a number, from the first on, between two texts.
fn push_lines(
    alloc: Global,
    text: &mut String,
    before: &str,
    first: u32,
    after: &str,
) -> Option<()> {
    for place in 0..MANY {
        let number = first.checked_add(place)?;
        let line = format!(in alloc; "{before}{number}{after}\n").ok()?;
        text.push_str(line.as_str()).ok()?;
    }
    Some(())
}

/// The texts of two sessions: one creates a file and changes it, the other asks for it.
fn change_and_check(alloc: Global) -> Option<(String, String)> {
    let change = many_lines(alloc, "create file /a alice 600\n", "chmod /a 644\n")?;
    let check = many_lines(alloc, "check /a bob r\n", "check /a bob r\n")?;
    Some((change, check))
}

/// Whether both sessions, the second once the first is done, print their answers and the journal.
fn prints_both<R: Threads + Wait + Clock + Sync>(rt: &R, alloc: Global) -> Option<bool> {
    let (change, check) = change_and_check(alloc)?;
    let mut text = String::new(alloc);
    text.push_str("session 0\n").ok()?;
    push_lines(alloc, &mut text, "", 1, " ok")?;
    text.push_str("session 1\n").ok()?;
    push_lines(alloc, &mut text, "", 1, " granted")?;
    text.push_str("journal\n").ok()?;
    push_lines(alloc, &mut text, "0 ", 1, "")?;
    push_lines(alloc, &mut text, "1 ", 1, "")?;
    let gate = AfterAnswer::new(1, 1, MANY);
    let given = [change.as_str(), check.as_str()];
    let ending = (0, text.as_str(), "");
    ends_with(rt, alloc, &gate, SETUP, &given, true, ending)
}

#[test]
fn one_session_after_the_other(rt: HostRuntime) {
    assert_eq!(rt; prints_both(&rt, rt.alloc()), Some(true));
}

#[test]
fn stopped_by_the_gate(rt: HostRuntime) {
    let alloc = rt.alloc();
    let gate = Closed { session: 0, nth: 2 };
    let ending = (3, "", "aclctl: run: stopped\n");
    let ended = ends_with(&rt, alloc, &gate, SETUP, &[P, Q], false, ending);
    assert_eq!(rt; ended, Some(true));
}

/// One session needs no thread, and no gate: nobody works beside it. With its journal it is a run
/// as any other.
#[test]
fn one_session_alone_asks_no_gate(rt: HostRuntime) {
    let gate = Closed { session: 0, nth: 1 };
    for (journal, ending) in [
        (false, (0, "1 error 1 syntax\n", "")),
        (true, (3, "", "aclctl: run: stopped\n")),
    ] {
        let ended = ends_with(&rt, rt.alloc(), &gate, SETUP, &["x"], journal, ending);
        assert_eq!(rt; ended, Some(true));
    }
}

#[test]
fn more_than_64_texts_come_before_the_setup(rt: HostRuntime) {
    let alloc = rt.alloc();
    for (texts, status, line) in [
        ([P; 65].as_slice(), 2, "aclctl: at most 64 sessions\n"),
        ([P; 64].as_slice(), 1, "aclctl: setup: not toml\n"),
    ] {
        let ending = (status, "", line);
        let ended = ends_with(&rt, alloc, &OpenGate, "[[", texts, false, ending);
        assert_eq!(rt; ended, Some(true), "with {status}");
    }
}
