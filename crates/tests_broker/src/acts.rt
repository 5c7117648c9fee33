//! What is done with a broker, or with its halves, and what it results in, as rows of the examples.
use crate::fixture::{Follows, Halves, Last, open_broker, reply_to};
use acl_broker::{
    Broker, CancelRefused, CloseRefused, Refused, Step, StepResult, SubmitRefusal, TakeRefused,
};
use std::alloc::Global;
use std::test::Fail;

/// A call of a broker and what it results in, or what the broker has then. After `Submit(0, 7,
/// None)` and `Take(0, Ok(0))` item 7 of session 0 is the first of the journal, and `Journal(1)`
/// holds.
#[derive(Clone, Copy)]
pub(super) enum Act {
    /// A session submits the item, which is accepted, or comes back with this refusal.
    Submit(u32, u16, Option<SubmitRefusal>),
    /// Session 0 submits the items from the one up to the other, which are accepted.
    SubmitAll(u16, u16),
    Take(u32, Result<usize, TakeRefused>),
    /// Items of session 0 are taken at the places from the one up to the other.
    TakeAll(usize, usize),
    Answer(u32, Option<Follows>),
    /// Session 0 has the answers to the items from the one up to the other.
    AnswerAll(u16, u16),
    Close(u32, Result<(), CloseRefused>),
    Cancel(u32, Result<(), CancelRefused>),
    /// So many items were taken.
    Journal(usize),
    /// The service applied this request last.
    Applied(u16),
    AllOpen(bool),
}

/// The same of a broker of one session that is split.
#[derive(Clone, Copy)]
pub(super) enum HalfAct {
    Submit(u16),
    /// The item comes back.
    Refused(u16),
    /// The items from the one up to the other are submitted.
    SubmitAll(u16, u16),
    Take(Result<usize, TakeRefused>),
    /// Items are taken at the places from the one up to the other.
    TakeAll(usize, usize),
    /// The items from the one up to the other are submitted, and each is taken before the next.
    SubmitAndTakeAll(u16, u16),
    Poll(Option<Follows>),
    Deliver(u32, bool),
    /// So many answers are delivered.
    DeliverAll(usize),
    Cancel(Result<(), CancelRefused>),
    /// The end is this session's.
    Session(u32),
    /// So many answers are owed to a session.
    Owed(u32, usize),
    /// So many items were taken.
    Journal(usize),
    /// The newest answer is to this request.
    Newest(u16),
}

fn is_submitted(
    broker: &mut Broker<Last>,
    session: u32,
    item: u16,
    why: Option<SubmitRefusal>,
) -> bool {
    match broker.submit(session, item) {
        Ok(()) => why.is_none(),
        Err(refused) => Some(refused.why) == why && refused.item == item,
    }
}

fn all_are_submitted(broker: &mut Broker<Last>, from: u16, upto: u16) -> bool {
    for item in from..upto {
        if !is_submitted(broker, 0, item, None) {
            return false;
        }
    }
    true
}

fn all_are_taken(broker: &mut Broker<Last>, from: usize, upto: usize) -> bool {
    for place in from..upto {
        if broker.take(0) != Ok(place) {
            return false;
        }
    }
    true
}

fn all_are_answered(broker: &mut Broker<Last>, from: u16, upto: u16) -> bool {
    for item in from..upto {
        if broker.answer(0) != reply_to(item.saturating_sub(1), item) {
            return false;
        }
    }
    true
}

fn comes_so(broker: &mut Broker<Last>, act: Act) -> bool {
    match act {
        Act::Submit(session, item, why) => is_submitted(broker, session, item, why),
        Act::SubmitAll(from, upto) => all_are_submitted(broker, from, upto),
        Act::Take(session, taken) => broker.take(session) == taken,
        Act::TakeAll(from, upto) => all_are_taken(broker, from, upto),
        Act::Answer(session, answer) => broker.answer(session) == answer,
        Act::AnswerAll(from, upto) => all_are_answered(broker, from, upto),
        Act::Close(session, closed) => broker.close(session) == closed,
        Act::Cancel(session, cancelled) => broker.cancel(session) == cancelled,
        Act::Journal(len) => broker.journal().len() == len,
        Act::Applied(request) => broker.service().request == request,
        Act::AllOpen(open) => broker.all_open() == open,
    }
}

/// The place of the first act that doesn't come to what it says, one after the other.
pub(super) fn wrong_of(broker: &mut Broker<Last>, acts: &[Act]) -> Option<usize> {
    for (place, act) in acts.iter().enumerate() {
        if !comes_so(broker, *act) {
            return Some(place);
        }
    }
    None
}

/// The same of this broker.
pub(super) fn wrong_act(mut broker: Broker<Last>, acts: &[Act]) -> Option<usize> {
    wrong_of(&mut broker, acts)
}

fn step_of(act: Act) -> Option<Step<u16>> {
    match act {
        Act::Submit(session, item, _) => Some(Step::Submit(session, item)),
        Act::Take(session, _) => Some(Step::Take(session)),
        Act::Answer(session, _) => Some(Step::Answer(session)),
        Act::Close(session, _) => Some(Step::Close(session)),
        _ => None,
    }
}

fn steps_of(alloc: Global, acts: &[Act]) -> Option<Vec<Step<u16>>> {
    let mut steps = Vec::new(alloc);
    for act in acts {
        steps.push(step_of(*act)?).ok()?;
    }
    Some(steps)
}

fn is_refused(refused: &Refused<u16>, item: u16, why: SubmitRefusal) -> bool {
    refused.item == item && refused.why == why
}

fn is_result(act: Act, step: &StepResult<u16, Follows>) -> bool {
    match (act, step) {
        (Act::Submit(_, _, None), StepResult::Submitted(Ok(()))) => true,
        (Act::Submit(_, item, Some(why)), StepResult::Submitted(Err(refused))) => is_refused(
            refused, item, why,
        ),
        (Act::Take(_, taken), StepResult::Taken(result)) => *result == taken,
        (Act::Answer(_, answer), StepResult::Answered(result)) => *result == answer,
        (Act::Close(_, closed), StepResult::ClosedNow(result)) => *result == closed,
        _ => false,
    }
}

/// The place of the first result that isn't what the act says; how many acts there are if they are
/// more or fewer than the results.
fn wrong_result(acts: &[Act], results: &[StepResult<u16, Follows>]) -> Option<usize> {
    for (place, (act, step)) in acts.iter().zip(results).enumerate() {
        if !is_result(*act, step) {
            return Some(place);
        }
    }
    if acts.len() == results.len() {
        None
    } else {
        Some(acts.len())
    }
}

/// The same where the acts are the steps of one run. The outer is none where memory is refused, or
/// an act is no step.
pub(super) fn wrong_step(
    alloc: Global,
    broker: &mut Broker<Last>,
    acts: &[Act],
) -> Option<Option<usize>> {
    let steps = steps_of(alloc, acts)?;
    let results = broker.run_steps(alloc, steps).ok()?;
    Some(wrong_result(acts, results.as_slice()))
}

fn half_all_are_submitted(halves: &mut Halves, from: u16, upto: u16) -> bool {
    for item in from..upto {
        if halves.submit(item) != Ok(()) {
            return false;
        }
    }
    true
}

fn half_all_are_taken(halves: &mut Halves, from: usize, upto: usize) -> bool {
    for place in from..upto {
        if halves.take() != Ok(place) {
            return false;
        }
    }
    true
}

fn half_all_are_submitted_and_taken(halves: &mut Halves, from: u16, upto: u16) -> bool {
    for item in from..upto {
        if halves.submit(item) != Ok(()) || halves.take() != Ok((item as usize).saturating_sub(1)) {
            return false;
        }
    }
    true
}

fn half_all_are_delivered(halves: &mut Halves, count: usize) -> bool {
    for _ in 0..count {
        if !halves.deliver(0) {
            return false;
        }
    }
    true
}

fn is_newest(halves: &Halves, request: u16) -> bool {
    match halves.taker.newest(0) {
        Some(reply) => reply.request == request,
        None => false,
    }
}

fn half_comes_so(halves: &mut Halves, act: HalfAct) -> bool {
    match act {
        HalfAct::Submit(item) => halves.submit(item) == Ok(()),
        HalfAct::Refused(item) => halves.submit(item) == Err(item),
        HalfAct::SubmitAll(from, upto) => half_all_are_submitted(halves, from, upto),
        HalfAct::Take(taken) => halves.take() == taken,
        HalfAct::TakeAll(from, upto) => half_all_are_taken(halves, from, upto),
        HalfAct::SubmitAndTakeAll(from, upto) => half_all_are_submitted_and_taken(
            halves, from, upto,
        ),
        HalfAct::Poll(answer) => halves.poll() == answer,
        HalfAct::Deliver(session, delivered) => halves.deliver(session) == delivered,
        HalfAct::DeliverAll(count) => half_all_are_delivered(halves, count),
        HalfAct::Cancel(cancelled) => halves.cancel() == cancelled,
        HalfAct::Session(session) => halves.end.session() == session,
        HalfAct::Owed(session, count) => halves.taker.owed(session) == count,
        HalfAct::Journal(len) => halves.taker.journal().len() == len,
        HalfAct::Newest(request) => is_newest(halves, request),
    }
}

fn wrong_of_halves(halves: &mut Halves, acts: &[HalfAct]) -> Option<usize> {
    for (place, act) in acts.iter().enumerate() {
        if !half_comes_so(halves, *act) {
            return Some(place);
        }
    }
    None
}

/// The place of the first act that doesn't come to what it says, one after the other.
pub(super) fn wrong_half_act(mut halves: Halves, acts: &[HalfAct]) -> Option<usize> {
    wrong_of_halves(&mut halves, acts)
}

/// The halves of a new broker of one session, after these acts.
pub(super) fn halves_after(alloc: Global, acts: &[HalfAct]) -> Result<Halves, Fail> {
    let mut halves = Halves::split(open_broker(alloc, 1)?)?;
    match wrong_of_halves(&mut halves, acts) {
        None => Ok(halves),
        Some(_) => Err("an act that comes to something else".into()),
    }
}

/// The broker of these halves.
pub(super) fn rejoined_after(alloc: Global, acts: &[HalfAct]) -> Result<Broker<Last>, Fail> {
    halves_after(alloc, acts)?.rejoin(alloc)
}

/// The broker of these halves, the end closed.
pub(super) fn rejoined_closed_after(alloc: Global, acts: &[HalfAct]) -> Result<Broker<Last>, Fail> {
    halves_after(alloc, acts)?.rejoin_closed(alloc)
}
