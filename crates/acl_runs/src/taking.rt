//! What the thread of a run does while its workers run: it takes and delivers.
ghost use Rattle.acl_broker.specs.Takers.{view};
ghost use Rattle.acl_runs.specs.Taking.{TakesOn};
ghost use Rattle.acl_runs.specs.declared.error_limits.ErrorLimits.{ErrorLimits};

use crate::error_limits::take_within_limits;
use crate::{ErrorLimits, Idle, Replies, ServeFault, Stop};
use acl_broker::{SLOTS, Service, TakeRefused, Taker};
use std::sync::Wait;
use std::time::Clock;

/// Takes and delivers for the sessions in turn, until all have ended and nothing is owed.
pub(crate) fn serve_until_done<R: Wait + Clock, P: Replies<Reply = S::Reply>, S: Service>(
    rt: &R,
    stop: &Stop,
    replies: &P,
    taker: &mut Taker<S>,
    limits: &mut ErrorLimits,
    count: u32,
) -> Result<(), ServeFault>
    ensures { TakesOn S.next S.reply (P.handling replies.now).is_error (view taker.old) limits.old
        (view taker.new) limits.new }
{
    let mut idle = Idle::new();
    for _ in rt.forever() {
        stop.check()?;
        match serve_each_once(replies, taker, limits, count)? {
            Round::Moved => idle.end(),
            Round::Idle => idle.wait(rt),
            Round::Over => return Ok(()),
        }
    }
    unreachable!()
}

/// What a round of takes and deliveries has brought.
enum Round {
    /// Something was taken or delivered.
    Moved,
    /// Nothing was.
    Idle,
    /// All sessions have ended, and nothing is owed.
    Over,
}

/// The most requests that are taken for a session in its turn.
const TURN: u32 = 64;

/// Takes and delivers for each session in turn.
fn serve_each_once<P: Replies<Reply = S::Reply>, S: Service>(
    replies: &P,
    taker: &mut Taker<S>,
    limits: &mut ErrorLimits,
    count: u32,
) -> Result<Round, ServeFault>
    ensures { TakesOn S.next S.reply (P.handling replies.now).is_error (view taker.old) limits.old
        (view taker.new) limits.new }
{
    let mut moved = false;
    for session in 0..count {
        moved |= serve_one(replies, taker, limits, session)?;
    }
    Ok(if moved {
        Round::Moved
    } else if are_over(taker, count) {
        Round::Over
    } else {
        Round::Idle
    })
}

/// Whether so many sessions have ended, and nothing is owed to any.
fn are_over<S: Service>(taker: &Taker<S>, count: u32) -> bool {
    for session in 0..count {
        if !taker.ended(session) || taker.owed(session) > 0 {
            return false;
        }
    }
    true
}

/// Takes for a session what it has submitted, and delivers its answers. False if nothing was taken
/// or delivered.
fn serve_one<P: Replies<Reply = S::Reply>, S: Service>(
    replies: &P,
    taker: &mut Taker<S>,
    limits: &mut ErrorLimits,
    session: u32,
) -> Result<bool, ServeFault>
    ensures { TakesOn S.next S.reply (P.handling replies.now).is_error (view taker.old) limits.old
        (view taker.new) limits.new }
{
    let taken = take_some(replies, taker, limits, session)?;
    let delivered = deliver_some(replies, taker, session);
    Ok(taken | delivered)
}

/// Takes for a session until nothing is there to be taken, `TURN` times at the most. False if
/// nothing was taken.
fn take_some<P: Replies<Reply = S::Reply>, S: Service>(
    replies: &P,
    taker: &mut Taker<S>,
    limits: &mut ErrorLimits,
    session: u32,
) -> Result<bool, ServeFault>
    ensures { TakesOn S.next S.reply (P.handling replies.now).is_error (view taker.old) limits.old
        (view taker.new) limits.new }
{
    let mut taken = false;
    for _ in 0..TURN {
        match take_within_limits(replies, taker, limits, session) {
            Ok(()) => taken = true,
            Err(TakeRefused::Memory) => return Err(ServeFault::Memory),
            Err(_) => return Ok(taken),
        }
    }
    Ok(taken)
}

/// Delivers to a session until nothing can be delivered, as often as a ring has slots at the most.
/// False if nothing was delivered.
fn deliver_some<P: Replies<Reply = S::Reply>, S: Service>(
    replies: &P,
    taker: &mut Taker<S>,
    session: u32,
) -> bool
    ensures { (limits : ErrorLimits)
        → TakesOn S.next S.reply (P.handling replies.now).is_error (view taker.old) limits
        (view taker.new) limits }
{
    let mut delivered = false;
    for _ in 0..SLOTS {
        if !taker.deliver(session) {
            return delivered;
        }
        delivered = true;
    }
    delivered
}
