//! Workers in threads of their own: how they are started and joined.
ghost use Rattle.std.specs.Prelude.{◌≡◌, ◌<◌, ◌^◌, All, length, IfOk};
ghost use Rattle.acl_broker.specs.declared.end.End.TheVariants.{Open, Closed};
ghost use Rattle.acl_runs.specs.Workers.{IsNew, Finishes};
ghost use Rattle.acl_runs.specs.Threads.{IsStarted, AreStarted, AreGathered, AreFresh, HasRoom};

use crate::{Finished, Gate, Printed, Replies, RequestSource, ServeFault, Setting, work};
use acl_broker::{End, SessionEnd};
use std::alloc::{AllocError, Global};
use std::snapshot::Snapshot;
use std::sync::Wait;
use std::thread::{Promise, PromisedHandle, Scope, Threads};
use std::time::Clock;

/// That a worker serves a session by the end with which it began.
#[derive(Drop)]
pub(crate) struct Serves<'a, C: RequestSource, P: Replies> {
    start: Snapshot<SessionEnd<C::Request, P::Reply>>,
    requests: Snapshot<C>,
    replies: &'a P,
    max_errors: Option<u32>,
}

impl<'a, C: RequestSource, P: Replies> Promise<
    Result<Finished<C::Request, P::Reply, P::Kept>, ServeFault>,
> for Serves<'a, C, P> {
    ghost kept_by = { λ promise result. IfOk result
        (Finishes (P.handling promise.replies.now) promise.start.value promise.max_errors
        (C.rest promise.requests.value)) };
}

pub(crate) type Worker<'a, C, P> = PromisedHandle<
    Result<
        Finished<<C as RequestSource>::Request, <P as Replies>::Reply, <P as Replies>::Kept>,
        ServeFault,
    >,
    Serves<'a, C, P>,
>;

/// Starts a worker for each session. If one can't be started, the others are stopped.
pub(crate) fn start_workers<'s, E, R, G, P, C>(
    scope: &Scope<'s, E>,
    setting: &Setting<'s, R, G, P>,
    sessions: Vec<C>,
    ends: Vec<End<C::Request, P::Reply>>,
) -> Result<Vec<Worker<'s, C, P>>, ServeFault>
where
    R: Threads + Wait + Clock + Sync + 's,
    G: Gate + 's,
    P: Replies + 's,
    C: RequestSource + 's,
    C::Request: 's,
    P::Reply: 's,
    P::Kept: 's,
    requires count { length ends.items ≡ length sessions.items }
    requires fresh { AreFresh ends.items }
    requires few { All (λ session. length (C.rest session) < 2 ^ 32) sessions.items }
    ensures { IfOk result (λ workers. AreStarted setting.now.replies.now setting.now.max_errors
        ends.items sessions.items workers.items) }
{
    let Ok(mut workers) = Vec::with_capacity(setting.alloc, sessions.len()) else {
        return Err(ServeFault::Memory);
    };
    let mut sessions = sessions.into_iter();
    for end in ends {
        let Some(requests) = sessions.next() else {
            unreachable!()
        };
        let End::Open(end) = end else { unreachable!() };
        match start_worker(scope, setting, end, requests) {
            Ok(worker) => workers.push_reserved(worker),
            Err(fault) => {
                setting.stop.raise(fault);
                return Err(fault);
            }
        }
    }
    Ok(workers)
}

/// Starts the worker of a session. The closure captures plain references, and makes its setting
/// anew.
fn start_worker<
    's,
    E,
    R: Threads + Wait + Clock + Sync + 's,
    G: Gate + 's,
    P: Replies + 's,
    C: RequestSource + 's,
>(
    scope: &Scope<'s, E>,
    setting: &Setting<'s, R, G, P>,
    end: SessionEnd<C::Request, P::Reply>,
    requests: C,
) -> Result<Worker<'s, C, P>, ServeFault>
where
    C::Request: 's,
    P::Reply: 's,
    P::Kept: 's,
    requires fresh { IsNew end }
    requires few { length (C.rest requests) < 2 ^ 32 }
    ensures { IfOk result (λ worker. IsStarted setting.now.replies.now setting.now.max_errors
        (Open end) requests worker) }
{
    let Setting {
        rt,
        alloc,
        gate,
        replies,
        max_errors,
        stop,
    } = *setting;
    let promise = Serves {
        start: Snapshot::of(&end),
        requests: Snapshot::of(&requests),
        replies,
        max_errors,
    };
    let worker = move || -> Result<Finished<C::Request, P::Reply, P::Kept>, ServeFault>
        requires { IsNew end × (length (C.rest requests) < 2 ^ 32) }
        ensures { IfOk result (Finishes (P.handling replies.entry.now) end max_errors
            (C.rest requests)) }
    {
        let setting = Setting {
            rt,
            alloc,
            gate,
            replies,
            max_errors,
            stop,
        };
        work(&setting, end, requests)
    };
    match scope.spawn_with(promise, worker) {
        Ok(worker) => Ok(worker),
        Err(_) => Err(ServeFault::ThreadRefused),
    }
}

/// What the workers hand on, with a place for each session.
#[derive(Drop)]
pub(crate) struct Gathered<I, A, K> {
    pub(crate) ends: Vec<End<I, A>>,
    pub(crate) answers: Vec<Vec<K>>,
    pub(crate) outputs: Vec<Vec<u8>>,
}

/// Joins the workers, in order.
pub(crate) fn join_workers<R: Threads, P: Replies, C: RequestSource>(
    rt: &R,
    alloc: Global,
    workers: Vec<Worker<'_, C, P>>,
) -> Result<Gathered<C::Request, P::Reply, P::Kept>, ServeFault>
    ensures { IfOk result (AreGathered C.rest P.handling workers.entry.items) }
{
    let Ok(mut gathered) = make_room(alloc, workers.len()) else {
        return Err(ServeFault::Memory);
    };
    for worker in workers {
        let Finished { end, printed } = worker.join(rt)?;
        let Printed {
            answers,
            output,
            left: _,
        } = printed;
        gathered.ends.push_reserved(End::Closed(end));
        gathered.answers.push_reserved(answers);
        gathered.outputs.push_reserved(output);
    }
    Ok(gathered)
}

/// Room for what so many workers hand on.
fn make_room<I: Drop, A: Drop, K: Drop>(
    alloc: Global,
    count: usize,
) -> Result<Gathered<I, A, K>, AllocError>
    ensures { IfOk result (HasRoom count) }
{
    let ends = Vec::with_capacity(alloc, count)?;
    let answers = Vec::with_capacity(alloc, count)?;
    let outputs = Vec::with_capacity(alloc, count)?;
    Ok(Gathered {
        ends,
        answers,
        outputs,
    })
}
