//! Calls that may run out of memory: one failed allocation, wherever it falls, is reported by the
//! call in which it falls, leaves everything as it was, and leaves the call free to be made again.
//!
//! `rt try --test --fail-alloc N` fails allocation N of a test. Each test here passes whichever
//! growth that is, and prints how many failures it saw: one up to the last allocation that it asks
//! for, and none from then on.
use crate::fixture::{Follows, Halves, Last, reply_to};
use acl_broker::{Broker, KeptEntry, Step, StepResult, TakeRefused, Taker};
use std::alloc::Global;
use std::test::Fail;
use tests_common::Refusals;

/// The request that the service knows when a broker opens.
const OPENING: u16 = 900;

/// How many items are submitted: enough for lists to grow more than once.
const ITEMS: u16 = 20;

/// A broker, at the second attempt if the first is refused. The refused call gives the service
/// back.
fn open_again(alloc: Global, reported: &mut Refusals) -> Result<Broker<Last>, Fail> {
    let service = match Broker::open(alloc, 1, Last { request: OPENING }) {
        Ok(broker) => return Ok(broker),
        Err(service) => service,
    };
    reported.one_more();
    if service.request != OPENING {
        return Err("another service came back".into());
    }
    match Broker::open(alloc, 1, service) {
        Ok(broker) => Ok(broker),
        Err(_) => Err("refused without cause".into()),
    }
}

/// The item that was applied before the item of a place, where the items are 1, 2, 3 and so on.
fn item_before(place: u16) -> u16 {
    if place == 0 { OPENING } else { place }
}

/// Whether the items 1, 2, 3 and so on are in the journal, so many of them.
fn is_journal_of(journal: &[KeptEntry<Last>], taken: u16) -> bool {
    journal.len() == taken as usize
        && journal.iter().zip(0..taken).all(|(entry, place)| entry.session() == 0
            && *entry.kept() == place + 1)
}

/// Whether the broker is open and stands before the item of a place.
fn stands_before(broker: &Broker<Last>, place: u16) -> bool {
    is_journal_of(broker.journal(), place)
        && broker.service().request == item_before(place)
        && broker.all_open()
}

#[test]
fn open_under_a_refused_growth(rt: HostRuntime) -> Result<(), Fail> {
    let mut reported = Refusals::new();
    let broker = open_again(rt.alloc(), &mut reported)?;
    assert!(rt; stands_before(&broker, 0));
    println!(rt; "refusals: {}", reported.reported())?;
    Ok(())
}

/// Whether the item of a place is taken, at the second attempt if the first is refused, which
/// changes nothing.
fn takes(broker: &mut Broker<Last>, reported: &mut Refusals, place: u16) -> bool {
    let mut taken = broker.take(0);
    if taken == Err(TakeRefused::Memory) {
        reported.one_more();
        if !stands_before(broker, place) {
            return false;
        }
        taken = broker.take(0);
    }
    taken == Ok(place as usize)
}

fn submits_all(broker: &mut Broker<Last>) -> bool {
    for item in 1..ITEMS + 1 {
        if broker.submit(0, item).is_err() {
            return false;
        }
    }
    true
}

fn takes_all(broker: &mut Broker<Last>, reported: &mut Refusals) -> bool {
    for place in 0..ITEMS {
        if !takes(broker, reported, place) {
            return false;
        }
    }
    is_journal_of(broker.journal(), ITEMS)
}

fn answers_all(broker: &mut Broker<Last>) -> bool {
    for place in 0..ITEMS {
        if broker.answer(0) != reply_to(item_before(place), place + 1) {
            return false;
        }
    }
    broker.answer(0).is_none()
}

#[test]
fn take_under_a_refused_growth(rt: HostRuntime) -> Result<(), Fail> {
    let mut reported = Refusals::new();
    let mut broker = open_again(rt.alloc(), &mut reported)?;
    assert!(rt; submits_all(&mut broker));
    assert!(rt; takes_all(&mut broker, &mut reported));
    assert!(rt; answers_all(&mut broker));
    println!(rt; "refusals: {}", reported.reported())?;
    Ok(())
}

/// Whether so many items were taken, and their answers are owed.
fn has_taken(taker: &Taker<Last>, count: u16) -> bool {
    is_journal_of(taker.journal(), count) && taker.owed(0) == count as usize && !taker.ended(0)
}

/// The same as of a broker.
fn half_takes(halves: &mut Halves, reported: &mut Refusals, place: u16) -> bool {
    let mut taken = halves.take();
    if taken == Err(TakeRefused::Memory) {
        reported.one_more();
        if !has_taken(&halves.taker, place) {
            return false;
        }
        taken = halves.take();
    }
    taken == Ok(place as usize)
}

fn half_submits_all(halves: &mut Halves) -> bool {
    for item in 1..ITEMS + 1 {
        if halves.submit(item) != Ok(()) {
            return false;
        }
    }
    true
}

fn half_takes_all(halves: &mut Halves, reported: &mut Refusals) -> bool {
    for place in 0..ITEMS {
        if !half_takes(halves, reported, place) {
            return false;
        }
    }
    is_journal_of(halves.taker.journal(), ITEMS)
}

fn half_answers_all(halves: &mut Halves) -> bool {
    for place in 0..ITEMS {
        if !halves.deliver(0) || halves.poll() != reply_to(item_before(place), place + 1) {
            return false;
        }
    }
    halves.taker.owed(0) == 0
}

#[test]
fn taker_under_a_refused_growth(rt: HostRuntime) -> Result<(), Fail> {
    let mut reported = Refusals::new();
    let mut halves = Halves::split(open_again(rt.alloc(), &mut reported)?)?;
    assert!(rt; half_submits_all(&mut halves));
    assert!(rt; half_takes_all(&mut halves, &mut reported));
    assert!(rt; half_answers_all(&mut halves));
    println!(rt; "refusals: {}", reported.reported())?;
    Ok(())
}

/// A submit and a take of each item, and then an answer of each, in room that is asked for twice if
/// need be.
fn steps_of_all_items(alloc: Global, reported: &mut Refusals) -> Result<Vec<Step<u16>>, Fail> {
    let mut steps = Vec::new(alloc);
    if steps.reserve(3 * ITEMS as usize).is_err() {
        reported.one_more();
        steps.reserve(3 * ITEMS as usize)?;
    }
    for item in 1..ITEMS + 1 {
        steps.push(Step::Submit(0, item))?;
        steps.push(Step::Take(0))?;
    }
    for _ in 0..ITEMS {
        steps.push(Step::Answer(0))?;
    }
    Ok(steps)
}

/// Whether the step table gives these results, one by one, with `Memory` for a take here and there,
/// which is reported.
fn are_by_the_table(results: &[StepResult<u16, Follows>], reported: &mut Refusals) -> bool {
    let mut taken = 0_u16;
    let mut answered = 0_u16;
    for step in results {
        match step {
            StepResult::Submitted(submitted) => {
                if submitted.is_err() {
                    return false;
                }
            }
            StepResult::Taken(Ok(place)) => {
                if *place != taken as usize || taken >= ITEMS {
                    return false;
                }
                taken += 1;
            }
            StepResult::Taken(Err(refused)) => {
                if *refused != TakeRefused::Memory {
                    return false;
                }
                reported.one_more();
            }
            StepResult::Answered(answer) => {
                if answered < taken {
                    if *answer != reply_to(item_before(answered), answered + 1) {
                        return false;
                    }
                    answered += 1;
                } else if answer.is_some() {
                    return false;
                }
            }
            _ => return false,
        }
    }
    true
}

/// The results of the steps, at the second attempt if the first is refused, which gives the steps
/// back and changes nothing.
fn run_again(
    alloc: Global,
    broker: &mut Broker<Last>,
    steps: Vec<Step<u16>>,
    reported: &mut Refusals,
) -> Option<Vec<StepResult<u16, Follows>>> {
    let steps = match broker.run_steps(alloc, steps) {
        Ok(results) => return Some(results),
        Err(steps) => steps,
    };
    reported.one_more();
    if steps.len() != 3 * ITEMS as usize || !stands_before(broker, 0) {
        return None;
    }
    broker.run_steps(alloc, steps).ok()
}

/// Whether the steps of all items give what the step table says.
fn steps_go_so(
    alloc: Global,
    broker: &mut Broker<Last>,
    reported: &mut Refusals,
) -> Result<bool, Fail> {
    let steps = steps_of_all_items(alloc, reported)?;
    match run_again(alloc, broker, steps, reported) {
        Some(results) => Ok(
            results.len() == 3 * ITEMS as usize && are_by_the_table(results.as_slice(), reported),
        ),
        None => Ok(false),
    }
}

#[test]
fn run_steps_under_a_refused_growth(rt: HostRuntime) -> Result<(), Fail> {
    let mut reported = Refusals::new();
    let mut broker = open_again(rt.alloc(), &mut reported)?;
    assert!(rt; steps_go_so(rt.alloc(), &mut broker, &mut reported)?);
    println!(rt; "refusals: {}", reported.reported())?;
    Ok(())
}
