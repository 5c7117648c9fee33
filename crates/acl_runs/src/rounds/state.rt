//! A run in rounds as it stands: how it begins, and what it reports.
ghost use Rattle.std.specs.Prelude.{◌<◌, IfOk};
ghost use Rattle.acl_runs.specs.RoundsState.{HasBegun, IsReported};

use crate::{RequestSource, RunReport};
use acl_broker::{JournalEntry, Service};
use std::alloc::{AllocError, Global};

/// A session with what it was answered.
#[derive(Drop)]
pub(super) struct Progress<C, A> {
    pub(super) requests: C,
    pub(super) answers: Vec<A>,
    pub(super) output: Vec<u8>,
}

/// All sessions with the service and the journal.
#[derive(Drop)]
pub(super) struct Run<C, S, I, A> {
    pub(super) service: S,
    pub(super) journal: Vec<JournalEntry<I>>,
    pub(super) sessions: Vec<Progress<C, A>>,
}

/// All sessions, to which nothing was answered yet.
pub(super) fn begin_all<S: Service + Drop, C: RequestSource<Request = S::Request>>(
    alloc: Global,
    service: S,
    sessions: Vec<C>,
) -> Result<Run<C, S, S::Request, S::Reply>, AllocError>
    ensures { IfOk result (HasBegun C.rest service sessions.items) }
{
    let mut begun = Vec::with_capacity(alloc, sessions.len())?;
    for requests in sessions {
        begun.push_reserved(Progress {
            requests,
            answers: Vec::new(alloc),
            output: Vec::new(alloc),
        });
    }
    Ok(Run {
        service,
        journal: Vec::new(alloc),
        sessions: begun,
    })
}

/// What each session was answered, with the journal and the service.
pub(super) fn report_all<S: Service + Drop, C: RequestSource<Request = S::Request>>(
    alloc: Global,
    run: Run<C, S, S::Request, S::Reply>,
) -> Result<RunReport<S, JournalEntry<S::Request>, S::Reply>, AllocError>
    ensures { IfOk result (IsReported run) }
{
    let Run {
        service,
        journal,
        sessions,
    } = run;
    let mut answers = Vec::with_capacity(alloc, sessions.len())?;
    let mut outputs = Vec::with_capacity(alloc, sessions.len())?;
    for progress in sessions {
        answers.push_reserved(progress.answers);
        outputs.push_reserved(progress.output);
    }
    Ok(RunReport {
        journal,
        answers,
        outputs,
        service,
    })
}
