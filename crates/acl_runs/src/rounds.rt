//! All sessions on one thread, a request of each in turn.
ghost use Rattle.std.specs.Prelude.{◌≡◌, ◌<◌, ◌≤◌, ◌^◌, All, None, length, map, IfErr, IfOk};
ghost use Rattle.acl_runs.specs.Handling.{keeping_all};
ghost use Rattle.acl_runs.specs.RunReport.{IsReport};
ghost use Rattle.acl_runs.specs.Rounds.{AreRounds};

mod state;
mod turns;

use crate::{Replies, RequestSource, RunReport, ServeFault};
use acl_broker::{JournalEntry, Service};
use state::{begin_all, report_all};
use std::alloc::{AllocError, Global};
use turns::take_rounds;

/// Serves all sessions on this thread in rounds: the first request of each, then the second of each
/// that has one, and so on, in the order of the sessions. There must be fewer than 2^32 sessions,
/// each with fewer than 2^32 requests. The only fault is `Memory`; it drops the journal, the
/// answers and the service.
pub fn serve_in_rounds<P, S, C>(
    alloc: Global,
    replies: &P,
    service: S,
    sessions: Vec<C>,
) -> Result<RunReport<S, JournalEntry<S::Request>, S::Reply>, ServeFault>
where
    P: Replies<Reply = S::Reply>,
    S: Service + Drop,
    C: RequestSource<Request = S::Request>,
    requires count { length sessions.items < 2 ^ 32 }
    requires few { All (λ session. length (C.rest session) < 2 ^ 32) sessions.items }
    ensures report { IfOk result (IsReport S.next S.reply (keeping_all (P.handling replies.now))
        service None (map C.rest sessions.items)) }
    ensures journal { IfOk result (λ report. AreRounds (map C.rest sessions.items)
        report.journal.items) }
    ensures fault { IfErr result (λ fault. fault ≡ ServeFault.Memory) }
{
    match serve_at_most(alloc, replies, service, sessions, u32::MAX) {
        Ok(report) => Ok(report),
        Err(_) => Err(ServeFault::Memory),
    }
}

/// `serve_in_rounds` for sessions with at most so many requests.
fn serve_at_most<P, S, C>(
    alloc: Global,
    replies: &P,
    service: S,
    sessions: Vec<C>,
    most: u32,
) -> Result<RunReport<S, JournalEntry<S::Request>, S::Reply>, AllocError>
where
    P: Replies<Reply = S::Reply>,
    S: Service + Drop,
    C: RequestSource<Request = S::Request>,
    requires count { length sessions.items < 2 ^ 32 }
    requires few { All (λ session. length (C.rest session) ≤ most) sessions.items }
    ensures report { IfOk result (IsReport S.next S.reply (keeping_all (P.handling replies.now))
        service None (map C.rest sessions.items)) }
    ensures journal { IfOk result (λ report. AreRounds (map C.rest sessions.items)
        report.journal.items) }
{
    let mut begun = begin_all(alloc, service, sessions)?;
    take_rounds(replies, &mut begun, most)?;
    report_all(alloc, begun)
}
