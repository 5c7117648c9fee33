//! Examples of a broker that is split, and rejoined.
use crate::acts::{
    Act, HalfAct, halves_after, rejoined_after, rejoined_closed_after, wrong_act, wrong_half_act,
    wrong_step,
};
use crate::fixture::{Follows, Halves, open_broker, reply_to};
use acl_broker::{SLOTS, SubmitRefusal, TakeRefused};
use std::alloc::Global;
use std::test::Fail;

#[test]
fn cancelled_by_the_taker(rt: HostRuntime) -> Result<(), Fail> {
    let acts = [
        HalfAct::SubmitAll(1, 4),
        HalfAct::Take(Ok(0)),
        HalfAct::Cancel(Ok(())),
        HalfAct::Take(Err(TakeRefused::Empty)),
        HalfAct::Take(Err(TakeRefused::Empty)),
        HalfAct::Take(Err(TakeRefused::Empty)),
        HalfAct::Submit(4),
        HalfAct::Deliver(0, true),
        HalfAct::Poll(reply_to(0, 1)),
        HalfAct::Journal(1),
    ];
    let halves = Halves::split(open_broker(rt.alloc(), 1)?)?;
    assert_eq!(rt; wrong_half_act(halves, &acts), None);
    Ok(())
}

/// Whether the session has ended once its end is closed, and not before.
fn ends_by_close(halves: Halves) -> bool {
    let Halves { end, mut taker } = halves;
    let open = !taker.ended(0);
    let Ok(mut closed) = end.close() else {
        return false;
    };
    open && closed.session() == 0
        && closed.poll().is_none()
        && taker.take(0) == Err(TakeRefused::Empty)
        && taker.ended(0)
}

#[test]
fn split_and_rejoined(rt: HostRuntime) -> Result<(), Fail> {
    let acts = [
        HalfAct::Session(0),
        HalfAct::SubmitAll(1, 4),
        HalfAct::Take(Ok(0)),
    ];
    let then = [
        Act::Take(0, Ok(1)),
        Act::Take(0, Ok(2)),
        Act::Take(0, Err(TakeRefused::Empty)),
        Act::Answer(0, reply_to(0, 1)),
        Act::Answer(0, reply_to(1, 2)),
        Act::Answer(0, reply_to(2, 3)),
        Act::Answer(0, None),
    ];
    let mut broker = rejoined_after(rt.alloc(), &acts)?;
    assert_eq!(rt; wrong_step(rt.alloc(), &mut broker, &then), Some(None));
    assert!(rt; ends_by_close(Halves::split(broker)?));
    Ok(())
}

/// Whether a full end closes once an item of it is taken, and not before.
fn closes_after_a_take(halves: Halves) -> bool {
    let Halves { end, mut taker } = halves;
    let Err(end) = end.close() else {
        return false;
    };
    let taken = taker.take(0);
    let Ok(mut closed) = end.close() else {
        return false;
    };
    taken == Ok(0) && taker.deliver(0) && closed.poll() == reply_to(0, 1) && closed.poll().is_none()
}

#[test]
fn full_end(rt: HostRuntime) -> Result<(), Fail> {
    let acts = [HalfAct::SubmitAll(1, 257), HalfAct::Refused(500)];
    assert!(rt; closes_after_a_take(halves_after(rt.alloc(), &acts)?));
    Ok(())
}

#[test]
fn outbox(rt: HostRuntime) -> Result<(), Fail> {
    let acts = [
        HalfAct::SubmitAll(1, 65),
        HalfAct::TakeAll(0, 64),
        HalfAct::SubmitAll(65, 101),
        HalfAct::TakeAll(64, 100),
        HalfAct::Owed(0, 100),
        HalfAct::DeliverAll(100),
        HalfAct::Deliver(0, false),
        HalfAct::Owed(0, 0),
        HalfAct::Poll(reply_to(0, 1)),
        HalfAct::Deliver(0, false),
        HalfAct::Owed(0, 0),
        HalfAct::Deliver(1, false),
        HalfAct::Owed(1, 0),
    ];
    let then = [Act::AnswerAll(2, 101), Act::Answer(0, None)];
    assert_eq!(rt; wrong_act(rejoined_after(rt.alloc(), &acts)?, &then), None);
    Ok(())
}

/// A slot that a poll freed is found again.
#[test]
fn outbox_beyond_the_ring(rt: HostRuntime) -> Result<(), Fail> {
    let acts = [
        HalfAct::SubmitAndTakeAll(1, 301),
        HalfAct::Owed(0, 300),
        HalfAct::Newest(300),
        HalfAct::DeliverAll(SLOTS),
        HalfAct::Deliver(0, false),
        HalfAct::Owed(0, 44),
        HalfAct::Poll(reply_to(0, 1)),
        HalfAct::Deliver(0, true),
        HalfAct::Deliver(0, false),
    ];
    let then = [Act::AnswerAll(2, 301), Act::Answer(0, None)];
    assert_eq!(rt; wrong_act(rejoined_after(rt.alloc(), &acts)?, &then), None);
    Ok(())
}

/// The halves again once the broker of them gave this answer.
fn after_answer(alloc: Global, halves: Halves, answer: Option<Follows>) -> Result<Halves, Fail> {
    let mut broker = halves.rejoin(alloc)?;
    if broker.answer(0) != answer {
        return Err("another answer".into());
    }
    Halves::split(broker)
}

/// Neither `rejoin` nor `split` delivers; a local answer delivers itself alone, and only where the
/// ring is empty.
#[test]
fn outbox_stays_over_rejoin_and_split(rt: HostRuntime) -> Result<(), Fail> {
    let acts = [HalfAct::SubmitAndTakeAll(1, 4), HalfAct::Deliver(0, true)];
    let halves = Halves::split(rejoined_after(rt.alloc(), &acts)?)?;
    assert_eq!(rt; halves.taker.owed(0), 2);
    let halves = after_answer(rt.alloc(), halves, reply_to(0, 1))?;
    assert_eq!(rt; halves.taker.owed(0), 2);
    let halves = after_answer(rt.alloc(), halves, reply_to(1, 2))?;
    assert_eq!(rt; halves.taker.owed(0), 1);
    Ok(())
}

/// An end mark in a rejoined lane is no waiting item.
#[test]
fn rejoined_with_a_closed_end(rt: HostRuntime) -> Result<(), Fail> {
    let acts = [HalfAct::SubmitAll(1, 4), HalfAct::Take(Ok(0))];
    let then = [
        Act::AllOpen(false),
        Act::Submit(0, 9, Some(SubmitRefusal::Closed)),
        Act::TakeAll(1, 3),
        Act::Take(0, Err(TakeRefused::Empty)),
        Act::AnswerAll(1, 4),
        Act::Answer(0, None),
    ];
    assert_eq!(rt;
        wrong_act(rejoined_closed_after(rt.alloc(), &acts)?, &then),
        None
    );
    Ok(())
}

/// Whether the session has ended once its end is closed and four takes found nothing, and not
/// before.
fn ends_by_four_takes(halves: Halves) -> bool {
    let Halves { end, mut taker } = halves;
    let Ok(_closed) = end.close() else {
        return false;
    };
    for _ in 0..3 {
        if taker.take(0) != Err(TakeRefused::Empty) || taker.ended(0) {
            return false;
        }
    }
    taker.take(0) == Err(TakeRefused::Empty) && taker.ended(0)
}

/// A cancelled session ends too: its items are dropped one with each take, and then its end mark is
/// seen.
#[test]
fn cancelled_session_ends(rt: HostRuntime) -> Result<(), Fail> {
    let acts = [HalfAct::SubmitAll(1, 4), HalfAct::Cancel(Ok(()))];
    assert!(rt; ends_by_four_takes(halves_after(rt.alloc(), &acts)?));
    Ok(())
}
