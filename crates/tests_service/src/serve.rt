//! Tests of sessions in threads.
use crate::fixture::tree;
use crate::gates::{AfterAnswer, Counting, Meeting, Shut, ShutAt};
use crate::texts::{Seen, serving};
use acl_service::{OpenGate, ServeFault, run_one};
use acl_tree::Tree;
use std::alloc::Global;
use std::sync::Wait;
use std::test::Fail;
use std::thread::Threads;
use std::time::Clock;
use tests_common::directory;

/// A directory and a file in it for each of two users.
const TWO_DIRECTORIES: [&str; 2] = [
    "create dir /p alice 755\ncreate file /p/f alice 600\nget /p/f\n",
    "create dir /q bob 755\ncreate file /q/f bob 600\nget /q/f\n",
];

const CHECKS: &str = "check / bob r\ncheck / bob r\ncheck / bob r\n";

const GRANTED: &str = "1 granted\n2 granted\n3 granted\n";

/// What is run over a tree of a root alone: a name, the texts, how many errors end a session, and
/// what is seen.
const RUNS: [(&str, &[&str], Option<u32>, &[Seen<'static>]); 4] = [
    (
        "empty text",
        &[""],
        None,
        &[Seen::Output(0, ""), Seen::Entries(0)],
    ),
    (
        "blanks and comments",
        &[" \n# nothing\n\t\n"],
        None,
        &[Seen::Output(0, ""), Seen::Entries(0)],
    ),
    (
        "two sessions, two directories",
        &TWO_DIRECTORIES,
        None,
        &[
            Seen::Output(
                0,
                "1 ok\n2 ok\n3 get /p/f file alice staff 600 posix\nuser::rw-\ngroup::---\nother::---\n",
            ),
            Seen::Output(
                1,
                "1 ok\n2 ok\n3 get /q/f file bob staff 600 posix\nuser::rw-\ngroup::---\nother::---\n",
            ),
            Seen::Nodes(5),
        ],
    ),
    // `denied` is no error, and a session with fewer errors than are allowed goes to its end.
    (
        "an error limit that one session reaches",
        &[
            "x\nget /\nx\nx\n",
            "check / bob w\ncheck / bob w\nx\ncheck / bob r\n",
        ],
        Some(2),
        &[
            Seen::EntriesOf(0, 3),
            Seen::Output(1, "1 denied\n2 denied\n3 error 1 syntax\n4 granted\n"),
        ],
    ),
];

#[test]
fn runs(rt: HostRuntime) {
    for (name, texts, max_errors, seen) in RUNS {
        let tree = tree(rt.alloc());
        let served = serving(&rt, rt.alloc(), &OpenGate, tree, texts, max_errors, seen);
        assert_eq!(rt; served, Some(Ok(true)), "{name}");
    }
}

/// The examples' tree with the file /a of alice's.
fn with_a(alloc: Global) -> Option<Tree> {
    let names = directory(alloc)?;
    let root = tree(alloc)?;
    let mut lines = [0; 64];
    let mut out = lines.as_mut_slice();
    let text = b"create file /a alice 666\n".as_slice();
    run_one(alloc, &names, root, text, &mut out).ok()
}

/// A check is granted exactly where it stands before the change of the mode.
#[test]
fn two_sessions_one_file(rt: HostRuntime) {
    let texts = ["chmod /a 600\nget /a\n", "check /a bob r\n"];
    let shown = "1 ok\n2 get /a file alice staff 600 posix\nuser::rw-\ngroup::---\nother::---\n";
    let checked_first = [(1, 1), (0, 1), (0, 2)];
    let seen = [
        Seen::Output(0, shown),
        Seen::OutputBy(1, &checked_first, "1 granted\n", "1 denied\n"),
    ];
    let served = serving(
        &rt,
        rt.alloc(),
        &OpenGate,
        with_a(rt.alloc()),
        &texts,
        None,
        &seen,
    );
    assert_eq!(rt; served, Some(Ok(true)));
}

#[test]
fn both_sessions_run_at_the_same_time(rt: HostRuntime) {
    let seen = [Seen::Output(0, GRANTED), Seen::Output(1, GRANTED)];
    let served = serving(
        &rt,
        rt.alloc(),
        &Meeting::new(),
        tree(rt.alloc()),
        &[CHECKS, CHECKS],
        None,
        &seen,
    );
    assert_eq!(rt; served, Some(Ok(true)));
}

#[test]
fn each_session_waits_for_the_others_answer(rt: HostRuntime) {
    let seen = [Seen::Output(0, GRANTED), Seen::Output(1, GRANTED)];
    for waiting in 0..2 {
        let gate = AfterAnswer::new(waiting, 2, 1);
        let tree = tree(rt.alloc());
        let served = serving(&rt, rt.alloc(), &gate, tree, &[CHECKS, CHECKS], None, &seen);
        assert_eq!(rt; served, Some(Ok(true)), "at {waiting}");
    }
}

/// The gate is asked of each request once and hears of each answer once, by their numbers from 1.
/// Lines that are blank or comments are no requests, and a faulty line is one: the numbers are
/// those of the requests and not of the lines.
#[test]
fn a_gate_sees_each_request_and_each_answer(rt: HostRuntime) {
    let gate = Counting::new();
    let texts = ["\n# nothing\nx\n\ncheck / bob r\n", CHECKS];
    let seen = [
        Seen::Output(0, "3 error 1 syntax\n5 granted\n"),
        Seen::Output(1, GRANTED),
    ];
    let served = serving(
        &rt,
        rt.alloc(),
        &gate,
        tree(rt.alloc()),
        &texts,
        None,
        &seen,
    );
    assert_eq!(rt; served, Some(Ok(true)));
    assert!(rt; gate.has_counted([2, 3], [2, 3]));
}

#[test]
fn a_gate_that_lets_nothing_through(rt: HostRuntime) {
    let served = serving(
        &rt,
        rt.alloc(),
        &Shut,
        tree(rt.alloc()),
        &[CHECKS, CHECKS],
        None,
        &[],
    );
    assert_eq!(rt; served, Some(Err(ServeFault::GateStopped)));
}

#[test]
fn a_gate_that_shuts_at_the_second_request(rt: HostRuntime) {
    let gate = ShutAt { session: 0, nth: 2 };
    let served = serving(
        &rt,
        rt.alloc(),
        &gate,
        tree(rt.alloc()),
        &TWO_DIRECTORIES,
        None,
        &[],
    );
    assert_eq!(rt; served, Some(Err(ServeFault::GateStopped)));
}

/// So many times the line.
fn repeated(alloc: Global, line: &str, count: usize) -> Option<String> {
    let mut text = String::new(alloc);
    for _ in 0..count {
        text.push_str(line).ok()?;
    }
    Some(text)
}

/// How many requests a session has: about as many as are taken in a turn, which are 64, and as a
/// ring has slots, which are 256.
const COUNTS: [usize; 6] = [63, 64, 65, 256, 257, 321];

/// What so many checks are answered.
fn all_granted(alloc: Global, count: usize) -> Option<String> {
    let mut text = String::new(alloc);
    for number in 1..=count {
        let line = format!(in alloc; "{number} granted\n").ok()?;
        text.push_str(line.as_str()).ok()?;
    }
    Some(text)
}

/// Whether each of two sessions of so many checks has its answers.
fn serves_checks<R: Threads + Wait + Clock + Sync>(
    rt: &R,
    alloc: Global,
    count: usize,
) -> Option<Result<bool, ServeFault>> {
    let text = repeated(alloc, "check / bob r\n", count)?;
    let answers = all_granted(alloc, count)?;
    let texts = [text.as_str(); 2];
    let seen = [
        Seen::Output(0, answers.as_str()),
        Seen::Output(1, answers.as_str()),
        Seen::EntriesOf(0, count),
        Seen::EntriesOf(1, count),
    ];
    serving(rt, alloc, &OpenGate, tree(alloc), &texts, None, &seen)
}

#[test]
fn about_a_turn_and_a_ring(rt: HostRuntime) {
    for count in COUNTS {
        let served = serves_checks(&rt, rt.alloc(), count);
        assert_eq!(rt; served, Some(Ok(true)), "{count} requests");
    }
}

#[test]
fn sixty_four_sessions(rt: HostRuntime) -> Result<(), Fail> {
    let text = repeated(rt.alloc(), "check / bob r\n", 100).ok_or("a text")?;
    let texts = [text.as_str(); 64];
    let seen = [Seen::Entries(6400), Seen::EntriesOf(63, 100)];
    let tree = tree(rt.alloc());
    let served = serving(&rt, rt.alloc(), &OpenGate, tree, &texts, None, &seen);
    assert_eq!(rt; served, Some(Ok(true)));
    Ok(())
}

/// More requests than a ring has slots lie after the last error that is allowed.
#[test]
fn a_long_session_ends_at_its_limit(rt: HostRuntime) -> Result<(), Fail> {
    let text = repeated(rt.alloc(), "x\n", 1000).ok_or("a text")?;
    let texts = [text.as_str(), CHECKS];
    let seen = [Seen::EntriesOf(0, 300), Seen::Output(1, GRANTED)];
    let tree = tree(rt.alloc());
    let served = serving(&rt, rt.alloc(), &OpenGate, tree, &texts, Some(300), &seen);
    assert_eq!(rt; served, Some(Ok(true)));
    Ok(())
}
