//! Sessions that submit from threads of their own, while the taker takes.
ghost use Rattle.std.specs.Prelude.{◌≡◌, [], ◌∷◌, IfOk};
ghost use Rattle.acl_broker.specs.Ends.{StaysEndOf, KeepEnds};
ghost use Rattle.acl_broker.specs.Takers.{view};
ghost use Rattle.acl_broker.specs.declared.end.End.TheVariants.{Open};

use crate::fixture::{Follows, Last, open_broker, reply_to};
use acl_broker::{Broker, End, SessionEnd, TakeRefused, Taker};
use std::alloc::{AllocError, Global};
use std::snapshot::Snapshot;
use std::sync::Arc;
use std::sync::atomic::{AtomicU64, Ordering};
use std::test::Fail;
use std::thread;
use std::thread::{Promise, PromisedHandle, Threads};

/// How often a wait is tried before it is given up.
const TURNS: u32 = 100_000_000;

/// How many items each session submits.
const ITEMS: u16 = 1000;

/// How many sessions have started, and how many have submitted all.
#[derive(Drop)]
struct Progress {
    started: AtomicU64,
    finished: AtomicU64,
}

/// What a session's thread gives back: its end, and whether all its items were accepted in time.
#[derive(Drop)]
struct Worked {
    end: SessionEnd<u16, Follows>,
    in_time: bool,
}

/// That a session's end comes back.
#[derive(Drop)]
struct ComesBack {
    end: Snapshot<SessionEnd<u16, Follows>>,
}

impl Promise<Worked> for ComesBack {
    ghost kept_by = { λ promise worked. StaysEndOf (Open promise.end.value) (Open worked.end) };
}

/// Whether a count comes to two within the limit of turns.
fn comes_to_two(count: &AtomicU64) -> bool {
    for _ in 0..TURNS {
        if count.load(Ordering::SeqCst) == 2 {
            return true;
        }
        thread::yield_now();
    }
    false
}

/// Submits an item, again and again where the end is full.
fn submit_in_time(end: &mut SessionEnd<u16, Follows>, item: u16) -> bool
    ensures { StaysEndOf (Open end.old) (Open end.new) }
{
    for _ in 0..TURNS {
        if end.submit(item).is_ok() {
            return true;
        }
        thread::yield_now();
    }
    false
}

/// Submits all items of a session, once the other session has started too.
fn submit_all(mut end: SessionEnd<u16, Follows>, progress: &Progress) -> Worked
    ensures { StaysEndOf (Open end) (Open result.end) }
{
    progress.started.fetch_add(1, Ordering::SeqCst);
    let mut in_time = comes_to_two(&progress.started);
    for item in 0..ITEMS {
        in_time = in_time && submit_in_time(&mut end, item);
    }
    progress.finished.fetch_add(1, Ordering::SeqCst);
    Worked { end, in_time }
}

/// Takes from both sessions in turn until both have submitted all. False where a take was refused
/// memory, or time was up.
fn take_in_turn(taker: &mut Taker<Last>, progress: &Progress) -> bool
    ensures { KeepEnds (view taker.old).sides (view taker.new).sides }
{
    for turn in 0..TURNS {
        if progress.finished.load(Ordering::SeqCst) == 2 {
            return true;
        }
        if taker.take(turn % 2) == Err(TakeRefused::Memory) {
            return false;
        }
        thread::yield_now();
    }
    false
}

/// Starts the thread of a session.
fn start(
    rt: &impl Threads,
    end: SessionEnd<u16, Follows>,
    progress: &Arc<Progress, Global>,
) -> Result<PromisedHandle<Worked, ComesBack>, AllocError>
    ensures { IfOk result (λ handle. handle.promise.end.value ≡ end) }
{
    let progress = Arc::try_clone(progress)?;
    let promise = ComesBack {
        end: Snapshot::of(&end),
    };
    let worker = move || -> Worked
        ensures { StaysEndOf (Open end) (Open result.end) }
    { submit_all(end, &progress) };
    match thread::spawn_with(rt, promise, worker) {
        Ok(handle) => Ok(handle),
        Err(_) => Err(AllocError),
    }
}

/// The two ends of a broker of two sessions.
fn two_open_ends(
    mut ends: Vec<End<u16, Follows>>,
) -> Result<(SessionEnd<u16, Follows>, SessionEnd<u16, Follows>), Fail>
    ensures { IfOk result (λ found. ends.items ≡ Open found.0 ∷ Open found.1 ∷ []) }
{
    let Some(End::Open(second)) = ends.pop() else {
        return Err("no second end that is open".into());
    };
    let Some(End::Open(first)) = ends.pop() else {
        return Err("no first end that is open".into());
    };
    if !ends.is_empty() {
        return Err("more than two ends".into());
    }
    Ok((first, second))
}

/// Both sessions of a broker, each in a thread of its own, while the taker takes here. The broker
/// is that of both ends again.
fn submit_from_two_threads(
    rt: &impl Threads,
    alloc: Global,
    broker: Broker<Last>,
) -> Result<Broker<Last>, Fail> {
    if !broker.all_open() {
        return Err("a session that isn't open".into());
    }
    let (ends, mut taker) = broker.split();
    let (first, second) = two_open_ends(ends)?;
    let progress = Arc::new(
        alloc,
        Progress {
            started: AtomicU64::new(0),
            finished: AtomicU64::new(0),
        },
    )?;
    let first = start(rt, first, &progress)?;
    let second = match start(rt, second, &progress) {
        Ok(second) => second,
        Err(_) => {
            progress.started.fetch_add(1, Ordering::SeqCst);
            first.join(rt);
            return Err("no second thread".into());
        }
    };
    let in_time = take_in_turn(&mut taker, &progress);
    let first = first.join(rt);
    let second = second.join(rt);
    if !in_time || !first.in_time || !second.in_time {
        return Err("time was up".into());
    }
    Ok(taker.rejoin(vec![in alloc; End::Open(first.end), End::Open(second.end)]?))
}

/// Takes what waits of a session.
fn take_rest(broker: &mut Broker<Last>, session: u32) -> Result<(), TakeRefused> {
    for _ in 0..ITEMS {
        match broker.take(session) {
            Ok(_) => {}
            Err(TakeRefused::Empty) => return Ok(()),
            Err(refused) => return Err(refused),
        }
    }
    Ok(())
}

/// Whether the journal has all items of a session, in their order.
fn has_all(broker: &Broker<Last>, session: u32) -> bool {
    let mut items = 0..ITEMS;
    for entry in broker.journal() {
        if entry.session() == session && Some(*entry.kept()) != items.next() {
            return false;
        }
    }
    items.next().is_none()
}

/// Whether nothing waits of a session once the rest is taken, and the journal has all its items.
fn takes_all(broker: &mut Broker<Last>, session: u32) -> bool {
    take_rest(broker, session) == Ok(())
        && broker.take(session) == Err(TakeRefused::Empty)
        && has_all(broker, session)
}

/// The answer to each item of the journal, with its session.
fn replies(alloc: Global, broker: &Broker<Last>) -> Option<Vec<(u32, Option<Follows>)>> {
    let mut replies = Vec::new(alloc);
    let mut before = 0;
    for entry in broker.journal() {
        replies
            .push((entry.session(), reply_to(before, *entry.kept())))
            .ok()?;
        before = *entry.kept();
    }
    Some(replies)
}

/// The place of the first of these that isn't what its session is answered.
fn wrong_answer(broker: &mut Broker<Last>, replies: &[(u32, Option<Follows>)]) -> Option<usize> {
    for (place, (session, reply)) in replies.iter().enumerate() {
        if broker.answer(*session) != *reply {
            return Some(place);
        }
    }
    None
}

/// The same of all answers. The outer is none where memory is refused.
fn wrong_of_all(alloc: Global, broker: &mut Broker<Last>) -> Option<Option<usize>> {
    let replies = replies(alloc, broker)?;
    Some(wrong_answer(broker, replies.as_slice()))
}

#[test]
fn two_threads_submit(rt: HostRuntime) -> Result<(), Fail> {
    let mut broker = submit_from_two_threads(&rt, rt.alloc(), open_broker(rt.alloc(), 2)?)?;
    assert!(rt; takes_all(&mut broker, 0));
    assert!(rt; takes_all(&mut broker, 1));
    assert_eq!(rt; broker.journal().len(), 2 * ITEMS as usize);
    assert_eq!(rt; wrong_of_all(rt.alloc(), &mut broker), Some(None));
    assert_eq!(rt; broker.answer(0), None);
    assert_eq!(rt; broker.answer(1), None);
    Ok(())
}
