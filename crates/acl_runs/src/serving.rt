//! All sessions in threads of their own.
ghost use Rattle.std.specs.Prelude.{◌≢◌, ◌<◌, ◌≤◌, ◌^◌, All, length, map, Some, IfOk};
ghost use Rattle.acl_broker.specs.Ends.{AreEndsOf};
ghost use Rattle.acl_broker.specs.Takers.{view, Keeps};
ghost use Rattle.acl_broker.specs.declared.limits.TheConstants.{SESSIONS};
ghost use Rattle.acl_runs.specs.RunReport.{IsReport};
ghost use Rattle.acl_runs.specs.Threads.{IsBegun, ReportsWhatIsKept, Settles};

use crate::taking::serve_until_done;
use crate::workers::{Gathered, join_workers, start_workers};
use crate::{ErrorLimits, Gate, Replies, RequestSource, RunReport, ServeFault, Setting, Stop};
use acl_broker::{Broker, End, KeptEntry, Service, Taker};
use std::alloc::{AllocError, Global};
use std::sync::Wait;
use std::thread;
use std::thread::{Scope, Threads};
use std::time::Clock;

/// Serves each session by a worker in a thread of its own, while this thread takes all requests
/// into one journal and delivers the answers. A worker calls the gate before it submits a request,
/// and after each answer that it printed.
///
/// With `max_errors` of K, a session is cancelled at its K-th error: after that no request of it
/// enters the journal.
///
/// There must be 1 to `SESSIONS` sessions, each with fewer than 2^32 requests, and an error limit
/// of at least 1. A fault (`Memory`, `GateStopped` or `ThreadRefused`; any one of several) joins
/// all workers and drops the journal, the answers and the service.
pub fn serve_sessions<R, G, P, S, C>(
    rt: &R,
    alloc: Global,
    gate: &G,
    replies: &P,
    service: S,
    sessions: Vec<C>,
    max_errors: Option<u32>,
) -> Result<RunReport<S, KeptEntry<S>, P::Kept>, ServeFault>
where
    R: Threads + Wait + Clock + Sync,
    G: Gate,
    P: Replies<Reply = S::Reply>,
    S: Service + Drop,
    C: RequestSource<Request = S::Request>,
    requires count { (1 ≤ length sessions.items) × (length sessions.items ≤ SESSIONS) }
    requires few { All (λ session. length (C.rest session) < 2 ^ 32) sessions.items }
    requires some { max_errors ≢ Some 0 }
    ensures { IfOk result (IsReport S.next S.reply (P.handling replies.now) service max_errors
        (map C.rest sessions.items)) }
{
    let Ok(begun) = begin(alloc, &sessions, service, max_errors) else {
        return Err(ServeFault::Memory);
    };
    let stop = Stop::new();
    let stop = &stop;
    thread::scope(
        thread::scope_env(),
        rt,
        |scope| -> Result<RunReport<S, KeptEntry<S>, P::Kept>, ServeFault>
            requires { IsBegun C.rest max_errors sessions.items begun }
            ensures { IfOk result (ReportsWhatIsKept S.next S.reply (P.handling replies.entry.now)
                (view begun.taker) max_errors (map C.rest sessions.items)) }
        {
            let setting = Setting {
                rt,
                alloc,
                gate,
                replies,
                max_errors,
                stop,
            };
            run_workers(scope, &setting, sessions, begun)
        },
    )
}

/// What a run begins with.
#[derive(Drop)]
struct Begun<S: Service> {
    ends: Vec<End<S::Request, S::Reply>>,
    taker: Taker<S>,
    limits: ErrorLimits,
}

/// The ends of these sessions and their taker, to which nothing was submitted yet, and the errors
/// allowed to each.
fn begin<S: Service + Drop, C: RequestSource<Request = S::Request>>(
    alloc: Global,
    sessions: &Vec<C>,
    service: S,
    max_errors: Option<u32>,
) -> Result<Begun<S>, AllocError>
    requires count { (1 ≤ length sessions.now.items) × (length sessions.now.items ≤ SESSIONS) }
    requires few { All (λ session. length (C.rest session) < 2 ^ 32) sessions.now.items }
    requires some { max_errors ≢ Some 0 }
    ensures begun { IfOk result (IsBegun C.rest max_errors sessions.now.items) }
    ensures keeps { IfOk result (λ begun. Keeps S.next S.reply service (view begun.taker)) }
{
    let count = sessions.len() as u32;
    let limits = ErrorLimits::new(alloc, count, max_errors)?;
    let Ok(broker) = Broker::open(alloc, count, service) else {
        return Err(AllocError);
    };
    let (ends, taker) = broker.split();
    Ok(Begun {
        ends,
        taker,
        limits,
    })
}

/// Starts the workers, takes until all sessions have ended, joins the workers and ties both sides
/// together.
fn run_workers<'s, E, R, G, P, S, C>(
    scope: &Scope<'s, E>,
    setting: &Setting<'s, R, G, P>,
    sessions: Vec<C>,
    begun: Begun<S>,
) -> Result<RunReport<S, KeptEntry<S>, P::Kept>, ServeFault>
where
    R: Threads + Wait + Clock + Sync + 's,
    G: Gate + 's,
    P: Replies<Reply = S::Reply> + 's,
    S: Service + Drop,
    C: RequestSource<Request = S::Request> + 's,
    S::Request: 's,
    S::Reply: 's,
    P::Kept: 's,
    requires { IsBegun C.rest setting.now.max_errors sessions.items begun }
    ensures { IfOk result (ReportsWhatIsKept S.next S.reply (P.handling setting.now.replies.now)
        (view begun.taker) setting.now.max_errors (map C.rest sessions.items)) }
{
    let Begun {
        ends,
        mut taker,
        mut limits,
    } = begun;
    let count = sessions.len() as u32;
    let workers = start_workers(scope, setting, sessions, ends)?;
    if let Err(fault) = serve_until_done(
        setting.rt,
        setting.stop,
        setting.replies,
        &mut taker,
        &mut limits,
        count,
    ) {
        setting.stop.raise(fault);
        return Err(fault);
    }
    let gathered = join_workers(setting.rt, setting.alloc, workers)?;
    Ok(settle(taker, gathered))
}

/// Ties both sides together.
fn settle<S: Service, K>(
    taker: Taker<S>,
    gathered: Gathered<S::Request, S::Reply, K>,
) -> RunReport<S, KeptEntry<S>, K>
    requires { AreEndsOf gathered.ends.items (view taker).sides }
    ensures { Settles S.next S.reply (view taker) gathered result }
{
    let Gathered {
        ends,
        answers,
        outputs,
    } = gathered;
    let (journal, service) = taker.rejoin(ends).into_parts();
    RunReport {
        journal,
        answers,
        outputs,
        service,
    }
}
