//! Sessions whose texts are at hand.
ghost use Rattle.std.specs.Prelude.{◌≢◌, ◌≤◌, ℕ, All, IfErr, IsErrOf, List, OnOk, Some};
ghost use Rattle.std.specs.Prelude.{length, map};
ghost use Rattle.std.specs.Io.KnownBytes.{Appends, Keeps};
ghost use Rattle.acl_lang.specs.declared.limits.TheConstants.{MAX_TEXT_LEN};
ghost use Rattle.acl_broker.specs.declared.limits.TheConstants.{SESSIONS};
ghost use Rattle.acl_cli.specs.Failures.{failed_write};
ghost use Rattle.acl_cli.specs.Output.{AppendsFront};
ghost use Rattle.acl_service.specs.TextsFailures.{IsLack, IsTextsFailure};
ghost use Rattle.acl_service.specs.RunText.{run_text};
ghost use Rattle.acl_service.specs.RunTexts.{IsOfReport, RunsTexts};
ghost use Rattle.acl_service.specs.Runs.{session_text};

use super::failure::failure_of_serve;
use super::printing::{print_journal, write_outputs};
use crate::sessions::{RunInPrint, serve_in_print};
use crate::{open_setup, run_one};
use acl_broker::SESSIONS;
use acl_cli::{Failure, Misuse, write_text};
use acl_names::Directory;
use acl_runs::Gate;
use acl_tree::Tree;
use std::alloc::Global;
use std::io::Write;
use std::sync::Wait;
use std::thread::Threads;
use std::time::Clock;

/// What a run prints besides the outputs, and when it ends sessions.
#[derive(Clone, Copy)]
pub(super) struct Options {
    /// Whether the journal is printed.
    pub journal: bool,
    /// After how many errors a session ends, if that is limited.
    pub max_errors: Option<u32>,
}

/// Writes the outputs of a run, and after them its journal if `options` ask for it. All that takes
/// memory comes first.
fn print_report<'n, W: Write>(
    alloc: Global,
    report: &RunInPrint<'_>,
    journal: bool,
    out: &mut W,
) -> Result<(), Failure<'n>>
    ensures printed { OnOk result (Appends (W.contents out.old) (W.contents out.new)
        (run_text journal report.now.journal.items
        (map (λ output. output.items) report.now.outputs.items))) }
    ensures silent { IfErr result (λ failure. failure ≢ failed_write
        → Keeps (W.contents out.old) (W.contents out.new)) }
    ensures cut { IsErrOf result failed_write → AppendsFront (W.contents out.old)
        (W.contents out.new)
        (run_text journal report.now.journal.items
        (map (λ output. output.items) report.now.outputs.items)) }
    ensures lack { IfErr result IsLack }
{
    let entries = if journal {
        print_journal(alloc, report.journal.as_slice())?
    } else {
        Vec::new(alloc)
    };
    write_outputs(report.outputs.as_slice(), out)?;
    write_text(entries.as_slice(), out)?;
    Ok(())
}

/// Runs one session by itself, and writes its output.
fn print_session<'n, W: Write>(
    alloc: Global,
    directory: &Directory,
    tree: Tree,
    text: &[u8],
    out: &mut W,
) -> Result<(), Failure<'n>>
    requires { length text.now ≤ MAX_TEXT_LEN }
    ensures printed { OnOk result (Appends (W.contents out.old) (W.contents out.new)
        (session_text directory.now tree text.now)) }
    ensures silent { IfErr result (λ failure. failure ≢ failed_write
        → Keeps (W.contents out.old) (W.contents out.new)) }
    ensures cut { IsErrOf result failed_write → AppendsFront (W.contents out.old)
        (W.contents out.new) (session_text directory.now tree text.now) }
    ensures lack { IfErr result IsLack }
{
    run_one(alloc, directory, tree, text, out)?;
    Ok(())
}

/// Runs all sessions at the same time, and writes what is reported for them.
fn print_sessions<'n, R: Threads + Wait + Clock + Sync, G: Gate, W: Write>(
    rt: &R,
    alloc: Global,
    gate: &G,
    directory: &Directory,
    tree: Tree,
    texts: &[Vec<u8>],
    options: Options,
    out: &mut W,
) -> Result<(), Failure<'n>>
    requires count { (1 ≤ length texts.now) × (length texts.now ≤ SESSIONS) }
    requires short { All (λ text. length text.items ≤ MAX_TEXT_LEN) texts.now }
    requires some { options.max_errors ≢ Some 0 }
    ensures printed { OnOk result ((text : List ℕ)
        × IsOfReport directory.now tree texts.now options.journal options.max_errors text
        × Appends (W.contents out.old) (W.contents out.new) text) }
    ensures silent { IfErr result (λ failure. failure ≢ failed_write
        → Keeps (W.contents out.old) (W.contents out.new)) }
    ensures cut { IsErrOf result failed_write → (text : List ℕ)
        × IsOfReport directory.now tree texts.now options.journal options.max_errors text
        × AppendsFront (W.contents out.old) (W.contents out.new) text }
    ensures lack { IfErr result IsLack }
{
    match serve_in_print(rt, alloc, gate, directory, tree, texts, options.max_errors) {
        Ok(report) => print_report(alloc, &report, options.journal, out),
        Err(fault) => Err(failure_of_serve(fault)),
    }
}

/// Runs the sessions over what the setup opens, and writes what they print.
pub(super) fn print_texts<'n, R: Threads + Wait + Clock + Sync, G: Gate, W: Write>(
    rt: &R,
    alloc: Global,
    gate: &G,
    setup: &[u8],
    texts: &[Vec<u8>],
    options: Options,
    out: &mut W,
) -> Result<(), Failure<'n>>
    requires count { 1 ≤ length texts.now }
    requires short { All (λ text. length text.items ≤ MAX_TEXT_LEN) texts.now }
    requires some { options.max_errors ≢ Some 0 }
    ensures few { OnOk result (length texts.now ≤ SESSIONS) }
    ensures printed { OnOk result (RunsTexts setup.now texts.now options.journal options.max_errors
        (Appends (W.contents out.old) (W.contents out.new))) }
    ensures silent { IfErr result (λ failure. failure ≢ failed_write
        → Keeps (W.contents out.old) (W.contents out.new)) }
    ensures cut { IsErrOf result failed_write → RunsTexts setup.now texts.now options.journal
        options.max_errors (AppendsFront (W.contents out.old) (W.contents out.new)) }
    ensures refused { IfErr result (IsTextsFailure setup.now (length texts.now)) }
{
    if texts.len() > SESSIONS as usize {
        return Err(Failure::Misuse(Misuse::TooManySessions));
    }
    let (directory, tree) = open_setup(alloc, setup)?;
    match texts {
        [text] if !options.journal && options.max_errors.is_none() => {
            print_session(alloc, &directory, tree, text.as_slice(), out)
        }
        _ => print_sessions(rt, alloc, gate, &directory, tree, texts, options, out),
    }
}
