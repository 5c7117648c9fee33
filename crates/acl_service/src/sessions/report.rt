//! What is reported for sessions.
ghost use Rattle.std.specs.Prelude.{◌≡◌, IfOk};
ghost use Rattle.acl_service.specs.ReportOf.{IsReportOf, report_of};

use crate::sessions::PrintedAnswer;
use crate::{Served, ServedInPrint};
use acl_broker::{JournalEntry, KeptEntry};
use acl_lang::{Answer, Numbered};
use acl_runs::{RunReport, ServeFault};
use acl_tree::Tree;
use std::alloc::{AllocError, Global};

/// The result of a run of which only the outputs and the lines of the journal are needed.
pub(crate) type RunInPrint<'a> = RunReport<
    ServedInPrint<'a>,
    KeptEntry<ServedInPrint<'a>>,
    PrintedAnswer,
>;

/// The result of a run of sessions on one tree. `answers` and `outputs` have a place for each
/// session.
#[derive(Drop)]
pub struct Report {
    /// The commands of all sessions in the order in which they took effect.
    pub journal: Vec<JournalEntry<Numbered>>,
    /// Each session's answers, in order.
    pub answers: Vec<Vec<Answer>>,
    /// Each session's answers as they are printed.
    pub outputs: Vec<Vec<u8>>,
    /// The tree after all commands.
    pub tree: Tree,
}

/// The report of a run over the tree.
pub(super) fn report_of(run: RunReport<Served<'_>, JournalEntry<Numbered>, Answer>) -> Report
    ensures { result ≡ report_of run.entry }
{
    let RunReport {
        journal,
        answers,
        outputs,
        service,
    } = run;
    Report {
        journal,
        answers,
        outputs,
        tree: service.tree,
    }
}

/// The entries, each with the item that was kept whole.
fn entries_of(
    alloc: Global,
    kept: Vec<KeptEntry<Served<'_>>>,
) -> Result<Vec<JournalEntry<Numbered>>, AllocError>
    ensures { IfOk result (λ entries. entries.items ≡ kept.entry.items) }
{
    let mut entries = Vec::with_capacity(alloc, kept.len())?;
    for entry in kept {
        let session = entry.session();
        let item = entry.into_kept();
        entries.push_reserved(JournalEntry { session, item });
    }
    Ok(entries)
}

/// The report of a run over the tree that kept its requests.
pub(super) fn report_of_kept(
    alloc: Global,
    run: RunReport<Served<'_>, KeptEntry<Served<'_>>, Answer>,
) -> Result<Report, ServeFault>
    ensures { IfOk result (IsReportOf run.entry) }
{
    let RunReport {
        journal,
        answers,
        outputs,
        service,
    } = run;
    let Ok(journal) = entries_of(alloc, journal) else {
        return Err(ServeFault::Memory);
    };
    Ok(Report {
        journal,
        answers,
        outputs,
        tree: service.tree,
    })
}
