//! Texts of sessions, and what is looked for in their report.
ghost use Rattle.std.specs.Prelude.{◌≢◌, ◌≤◌, All, IfSome, Some, length};
ghost use Rattle.std.specs.Bool.{OnTrue};
ghost use Rattle.acl_broker.specs.declared.limits.TheConstants.{SESSIONS};
ghost use Rattle.acl_lang.specs.declared.limits.TheConstants.{MAX_TEXT_LEN};

use acl_lang::MAX_TEXT_LEN;
use acl_service::{Gate, Report, ServeFault, serve, serve_rounds};
use acl_tree::Tree;
use std::alloc::Global;
use std::sync::Wait;
use std::thread::Threads;
use std::time::Clock;
use tests_common::directory;

/// These texts, as they are handed to a run.
fn copies(alloc: Global, texts: &[&str]) -> Option<Vec<Vec<u8>>> {
    let mut own = Vec::new(alloc);
    for text in texts {
        own.push(text.as_bytes().to_vec(alloc).ok()?).ok()?;
    }
    Some(own)
}

/// Whether there are 1 to 64 texts.
fn are_few(texts: &[Vec<u8>]) -> bool
    ensures { OnTrue result ((1 ≤ length texts.now) × (length texts.now ≤ SESSIONS)) }
{
    !texts.is_empty() && texts.len() <= 64
}

/// Whether none of the texts is too long.
pub fn are_short(texts: &[Vec<u8>]) -> bool
    ensures { OnTrue result (All (λ text. length text.items ≤ MAX_TEXT_LEN) texts.now) }
{
    texts.iter().all(|text| text.len() <= MAX_TEXT_LEN)
}

/// The texts as they are handed to a run. None if memory runs out, or they are no run's.
fn texts_of(alloc: Global, texts: &[&str]) -> Option<Vec<Vec<u8>>>
    ensures few { IfSome result (λ own. (1 ≤ length own.items) × (length own.items ≤ SESSIONS)) }
    ensures short { IfSome result (λ own. All (λ text. length text.items ≤ MAX_TEXT_LEN) own.items) }
{
    let own = copies(alloc, texts)?;
    if are_few(&own) && are_short(&own) {
        Some(own)
    } else {
        None
    }
}

/// Serves sessions with these texts. None where memory ran out before, or the texts are no run's.
pub fn serve_texts<R: Threads + Wait + Clock + Sync, G: Gate>(
    rt: &R,
    alloc: Global,
    gate: &G,
    tree: Tree,
    texts: &[&str],
    max_errors: Option<u32>,
) -> Option<Result<Report, ServeFault>>
    requires { max_errors ≢ Some 0 }
{
    let names = directory(alloc)?;
    let texts = texts_of(alloc, texts)?;
    Some(serve(rt, alloc, gate, &names, tree, &texts, max_errors))
}

/// The same, in rounds.
pub fn serve_texts_in_rounds(
    alloc: Global,
    tree: Tree,
    texts: &[&str],
) -> Option<Result<Report, ServeFault>> {
    let names = directory(alloc)?;
    let texts = texts_of(alloc, texts)?;
    Some(serve_rounds(alloc, &names, tree, &texts))
}

/// Whether this is the output of a session.
pub fn has_output(report: &Report, session: usize, text: &str) -> bool {
    match report.outputs.get(session) {
        Some(output) => output.as_slice() == text.as_bytes(),
        None => false,
    }
}

/// Whether the journal has these sessions and lines, in this order.
fn has_journal(report: &Report, entries: &[(u32, u32)]) -> bool {
    let journal = report.journal.as_slice();
    journal.len() == entries.len()
        && journal.iter().zip(entries.iter()).all(|(entry, wanted)| (entry.session, entry.item.line)
            == *wanted)
}

/// How many entries of the journal are a session's.
fn entries_of(report: &Report, session: u32) -> usize {
    let mut count: usize = 0;
    for entry in report.journal.as_slice() {
        if entry.session == session {
            count = count.saturating_add(1);
        }
    }
    count
}

/// What is seen of a report.
#[derive(Clone, Copy)]
pub enum Seen<'a> {
    /// The output of a session.
    Output(usize, &'a str),
    /// The output of a session: the first text if the journal has these sessions and lines, and
    /// else the second.
    OutputBy(usize, &'a [(u32, u32)], &'a str, &'a str),
    /// The sessions and lines of the journal, in their order.
    Journal(&'a [(u32, u32)]),
    /// How many entries the journal has.
    Entries(usize),
    /// How many of them are a session's.
    EntriesOf(u32, usize),
    /// How many sessions have answers.
    Sessions(usize),
    /// How many nodes the tree has.
    Nodes(usize),
}

fn is_seen(report: &Report, seen: Seen<'_>) -> bool {
    match seen {
        Seen::Output(session, text) => has_output(report, session, text),
        Seen::OutputBy(session, entries, text, other) => {
            let text = if has_journal(report, entries) {
                text
            } else {
                other
            };
            has_output(report, session, text)
        }
        Seen::Journal(entries) => has_journal(report, entries),
        Seen::Entries(count) => report.journal.len() == count,
        Seen::EntriesOf(session, count) => entries_of(report, session) == count,
        Seen::Sessions(count) => report.answers.len() == count,
        Seen::Nodes(count) => report.tree.len() == count,
    }
}

/// Whether all of it is seen of the report, if the run has one.
fn all_are_seen(
    served: &Option<Result<Report, ServeFault>>,
    seen: &[Seen<'_>],
) -> Option<Result<bool, ServeFault>> {
    match served {
        Some(Ok(report)) => {
            for one in seen {
                if !is_seen(report, *one) {
                    return Some(Ok(false));
                }
            }
            Some(Ok(true))
        }
        Some(Err(fault)) => Some(Err(*fault)),
        None => None,
    }
}

/// Whether all of it is seen of a run of sessions with these texts, or the run's fault. None where
/// memory ran out before, or the texts are no run's, or no error is allowed.
pub fn serving<R: Threads + Wait + Clock + Sync, G: Gate>(
    rt: &R,
    alloc: Global,
    gate: &G,
    tree: Option<Tree>,
    texts: &[&str],
    max_errors: Option<u32>,
    seen: &[Seen<'_>],
) -> Option<Result<bool, ServeFault>> {
    if max_errors == Some(0) {
        return None;
    }
    let served = serve_texts(rt, alloc, gate, tree?, texts, max_errors);
    all_are_seen(&served, seen)
}

/// The same of a run in rounds.
pub fn serving_in_rounds(
    alloc: Global,
    tree: Option<Tree>,
    texts: &[&str],
    seen: &[Seen<'_>],
) -> Option<Result<bool, ServeFault>> {
    let served = serve_texts_in_rounds(alloc, tree?, texts);
    all_are_seen(&served, seen)
}
