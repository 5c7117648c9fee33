//! Sessions on one tree, each with the text of its commands.
ghost use Rattle.std.specs.Prelude.{◌≡◌, ◌≢◌, ◌≤◌, All, IfErr, IfOk, None, Some, length};
ghost use Rattle.acl_broker.specs.declared.limits.TheConstants.{SESSIONS};
ghost use Rattle.acl_lang.specs.declared.limits.TheConstants.{MAX_TEXT_LEN};
ghost use Rattle.acl_runs.specs.Rounds.{AreRounds};
ghost use Rattle.acl_service.specs.Sessions.{ExplainsSessions, requests_of_each};
ghost use Rattle.acl_service.specs.ReportOf.{report_of};

mod cursor;
mod printer;
mod report;

use crate::{Served, ServedInPrint};
use acl_lang::Answer;
use acl_names::Directory;
use acl_runs::{Gate, ServeFault, serve_in_rounds, serve_sessions};
use acl_tree::Tree;
use cursor::open_all;
pub(crate) use printer::PrintedAnswer;
use printer::Printer;
pub use report::Report;
pub(crate) use report::RunInPrint;
use report::{report_of, report_of_kept};
use std::alloc::Global;
use std::marker::PhantomData;
use std::sync::Wait;
use std::thread::Threads;
use std::time::Clock;

/// Lets a session for each text work on the tree, all at the same time.
///
/// Each session has a thread of its own, which reads its text line by line, asks the gate before it
/// submits a request, prints its answers and reports the gate of each. This thread applies the
/// requests of all, one after the other, and delivers the answers. With `max_errors` of K, a
/// session ends at its K-th answer that is a refusal or a faulty line. A thread that finds nothing
/// to do yields, and then naps.
///
/// A fault ends the run: every worker is joined, and the journal, the answers and the tree are
/// dropped. The texts are 1 to 64, each of at most 1,048,576 bytes, and an error limit is at least
/// 1.
pub fn serve<R: Threads + Wait + Clock + Sync, G: Gate>(
    rt: &R,
    alloc: Global,
    gate: &G,
    directory: &Directory,
    tree: Tree,
    texts: &[Vec<u8>],
    max_errors: Option<u32>,
) -> Result<Report, ServeFault>
    requires count { (1 ≤ length texts.now) × (length texts.now ≤ SESSIONS) }
    requires short { All (λ text. length text.items ≤ MAX_TEXT_LEN) texts.now }
    requires some { max_errors ≢ Some 0 }
    ensures { IfOk result (ExplainsSessions directory.now tree max_errors texts.now) }
{
    let sessions = open_all(alloc, directory, texts)?;
    let printer = Printer::<Answer> {
        directory,
        kept: PhantomData,
    };
    let service = Served {
        alloc,
        directory,
        tree,
    };
    let run = serve_sessions(rt, alloc, gate, &printer, service, sessions, max_errors)?;
    let report = report_of_kept(alloc, run)?;
    Ok(report)
}

/// Like `serve`, but it keeps only the printed text of each answer, so that long sessions take less
/// memory.
pub(crate) fn serve_in_print<'a, R: Threads + Wait + Clock + Sync, G: Gate>(
    rt: &R,
    alloc: Global,
    gate: &G,
    directory: &'a Directory,
    tree: Tree,
    texts: &[Vec<u8>],
    max_errors: Option<u32>,
) -> Result<RunInPrint<'a>, ServeFault>
    requires count { (1 ≤ length texts.now) × (length texts.now ≤ SESSIONS) }
    requires short { All (λ text. length text.items ≤ MAX_TEXT_LEN) texts.now }
    requires some { max_errors ≢ Some 0 }
    ensures { IfOk result (λ run. ExplainsSessions directory.now tree max_errors texts.now
        (report_of run)) }
{
    let sessions = open_all(alloc, directory, texts)?;
    let alone = Printer::<PrintedAnswer> {
        directory,
        kept: PhantomData,
    };
    let service = ServedInPrint {
        served: Served {
            alloc,
            directory,
            tree,
        },
    };
    let run = serve_sessions(rt, alloc, gate, &alone, service, sessions, max_errors)?;
    Ok(run)
}

/// Lets a session for each text work on the tree, all on this thread and in turn: the first request
/// of each text that has one, in the order of the sessions, then the second of each, and so on.
///
/// The only fault is that memory runs out; the journal, the answers and the tree are dropped then.
/// The texts are 1 to 64, each of at most 1,048,576 bytes.
pub fn serve_rounds(
    alloc: Global,
    directory: &Directory,
    tree: Tree,
    texts: &[Vec<u8>],
) -> Result<Report, ServeFault>
    requires count { (1 ≤ length texts.now) × (length texts.now ≤ SESSIONS) }
    requires short { All (λ text. length text.items ≤ MAX_TEXT_LEN) texts.now }
    ensures report { IfOk result (ExplainsSessions directory.now tree None texts.now) }
    ensures journal { IfOk result (λ report. AreRounds (requests_of_each directory.now texts.now)
        report.journal.items) }
    ensures fault { IfErr result (λ fault. fault ≡ ServeFault.Memory) }
{
    let sessions = open_all(alloc, directory, texts)?;
    let printer = Printer::<Answer> {
        directory,
        kept: PhantomData,
    };
    let service = Served {
        alloc,
        directory,
        tree,
    };
    let run = serve_in_rounds(alloc, &printer, service, sessions)?;
    Ok(report_of(run))
}
