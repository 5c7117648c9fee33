//! Calls that may run out of memory: one failed allocation, wherever it falls, is reported by the
//! call in which it falls, and the call may be made again.
//!
//! `rt try --test --fail-alloc N` fails allocation N of a test. Each test here passes whichever
//! growth that is, and prints how many failures it saw: one up to the last allocation that it asks
//! for, and none from then on. A test that starts threads passes whichever thread is refused, too,
//! and prints whether that is what it saw.
use crate::fixture::{SETUP, tree};
use crate::texts::{are_short, has_output, serve_texts, serve_texts_in_rounds};
use acl_service::{ErrorOutput, OpenGate, Report, ServeFault, run_texts};
use std::alloc::Global;
use std::sync::Wait;
use std::test::Fail;
use std::thread::Threads;
use std::time::Clock;

/// How a command ended.
#[derive(Clone, Copy, Debug, PartialEq, Eq)]
enum Ending {
    /// With its answer, and nothing else.
    Answered,
    /// With the line that says that memory ran out, and nothing else.
    Memory,
    /// With the line that says that a thread was refused, and nothing else. Starting a thread takes
    /// memory, too.
    Thread,
    /// In any other way.
    Other,
}

/// Sessions that create, set a long list and show it, and one with a faulty line.
const SESSIONS: [&str; 2] = [
    "create dir /d alice 755\nset /d default u::rwx,u:1:r,u:2:r,u:3:r,u:4:r,u:5:r,u:6:r,g::r,m::r,o::-\ntranslate /d\n",
    "get /\nx\n",
];

const SECOND_OUTPUT: &str =
    "1 get / dir root root 755 posix\nuser::rwx\ngroup::r-x\nother::r-x\n2 error 1 syntax\n";

/// How a run of the sessions ended.
fn ending_of(ran: Option<Result<Report, ServeFault>>) -> Ending {
    match ran {
        Some(Ok(report)) if report.journal.len() == 5 && has_output(&report, 1, SECOND_OUTPUT) => {
            Ending::Answered
        }
        None | Some(Err(ServeFault::Memory)) => Ending::Memory,
        Some(Err(ServeFault::ThreadRefused)) => Ending::Thread,
        Some(_) => Ending::Other,
    }
}

fn run_in_rounds(alloc: Global) -> Ending {
    match tree(alloc) {
        Some(tree) => ending_of(serve_texts_in_rounds(alloc, tree, SESSIONS.as_slice())),
        None => Ending::Memory,
    }
}

#[test]
fn serve_rounds_under_a_refused_growth(rt: HostRuntime) -> Result<(), Fail> {
    let mut refusals = 0;
    let mut ended = run_in_rounds(rt.alloc());
    if ended == Ending::Memory {
        refusals = 1;
        ended = run_in_rounds(rt.alloc());
    }
    assert_eq!(rt; ended, Ending::Answered);
    println!(rt; "refusals: {refusals}")?;
    Ok(())
}

/// How a run ended, or the next one if memory or a thread was refused.
fn again<F: Fn() -> Ending>(refused: Ending, run: F) -> Ending
    requires { F.IsAlwaysCallable run }
{
    match refused {
        Ending::Memory | Ending::Thread => run(),
        _ => refused,
    }
}

fn run_in_threads<R: Threads + Wait + Clock + Sync>(rt: &R, alloc: Global) -> Ending {
    match tree(alloc) {
        Some(tree) => ending_of(serve_texts(
            rt,
            alloc,
            &OpenGate,
            tree,
            SESSIONS.as_slice(),
            Some(2),
        )),
        None => Ending::Memory,
    }
}

#[test]
fn serve_under_a_refused_growth(rt: HostRuntime) -> Result<(), Fail> {
    let refused = run_in_threads(&rt, rt.alloc());
    let ended = again(refused, || run_in_threads(&rt, rt.alloc()));
    assert_eq!(rt; ended, Ending::Answered);
    println!(rt; "refusals: {}", u32::from(refused != Ending::Answered))?;
    println!(rt; "threads: {}", u32::from(refused == Ending::Thread))?;
    Ok(())
}

/// How a run of one session with its journal ended, by its status, what it wrote and how much room
/// it left, and the same of its faults.
fn ending_of_status(
    status: u8,
    lines: &[u8; 1024],
    room: usize,
    faults: &[u8; 64],
    fault_room: usize,
) -> Ending {
    let answered = match lines.get(..lines.len().saturating_sub(room)) {
        Some(written) => written.ends_with(b"2 error 1 syntax\njournal\n0 1\n0 2\n".as_slice()),
        None => false,
    };
    let line = faults.len().saturating_sub(fault_room);
    let reported = faults.get(..line);
    if (status, fault_room, answered) == (0, 64, true) {
        Ending::Answered
    } else if (status, room, reported) == (3, 1024, Some(b"aclctl: run: memory\n".as_slice())) {
        Ending::Memory
    } else if (status, room, reported) == (3, 1024, Some(b"aclctl: run: no thread\n".as_slice())) {
        Ending::Thread
    } else {
        Ending::Other
    }
}

/// One session with its journal, where both writers have room enough without any memory of their
/// own.
fn print_journal<R: Threads + Wait + Clock + Sync>(
    rt: &R,
    alloc: Global,
    texts: &[Vec<u8>],
) -> Ending {
    if texts.is_empty() {
        return Ending::Other;
    }
    if !are_short(texts) {
        return Ending::Other;
    }
    let mut lines = [0; 1024];
    let mut faults = [0; 64];
    let mut out = lines.as_mut_slice();
    let mut err = faults.as_mut_slice();
    let setup = SETUP.as_bytes();
    let status = run_texts(
        rt,
        alloc,
        &OpenGate,
        setup,
        texts,
        true,
        None,
        &mut out,
        &mut ErrorOutput::new(&mut err),
    );
    let (room, fault_room) = (out.len(), err.len());
    ending_of_status(status, &lines, room, &faults, fault_room)
}

fn one_text(alloc: Global) -> Option<Vec<Vec<u8>>> {
    let mut texts = Vec::new(alloc);
    texts
        .push(Vec::from_slice(alloc, b"get /\nx\n").ok()?)
        .ok()?;
    Some(texts)
}

/// How a run of the text ended, and how the next one did if memory or a thread was refused.
fn print_twice<R: Threads + Wait + Clock + Sync>(rt: &R, alloc: Global) -> Option<[Ending; 2]> {
    let Some(texts) = one_text(alloc) else {
        let texts = one_text(alloc)?;
        return Some([Ending::Memory, print_journal(rt, alloc, texts.as_slice())]);
    };
    let refused = print_journal(rt, alloc, texts.as_slice());
    let ended = again(refused, || print_journal(rt, alloc, texts.as_slice()));
    Some([refused, ended])
}

#[test]
fn run_texts_under_a_refused_growth(rt: HostRuntime) -> Result<(), Fail> {
    let [refused, ended] = print_twice(&rt, rt.alloc()).ok_or("refused without cause")?;
    assert_eq!(rt; ended, Ending::Answered);
    println!(rt; "refusals: {}", u32::from(refused != Ending::Answered))?;
    println!(rt; "threads: {}", u32::from(refused == Ending::Thread))?;
    Ok(())
}
