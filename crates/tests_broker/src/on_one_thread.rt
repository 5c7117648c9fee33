//! Examples of a broker on one thread.
use crate::acts::{Act, wrong_act, wrong_of, wrong_step};
use crate::fixture::{Last, open_broker, reply_to};
use acl_broker::{Broker, CancelRefused, CloseRefused, SubmitRefusal, TakeRefused};
use std::test::Fail;

#[test]
fn limits_of_a_local_broker(rt: HostRuntime) -> Result<(), Fail> {
    let acts = [
        Act::SubmitAll(1, 257),
        Act::Submit(0, 500, Some(SubmitRefusal::Full)),
        Act::Take(0, Ok(0)),
        Act::Submit(0, 257, None),
        Act::Close(0, Ok(())),
        Act::Submit(0, 501, Some(SubmitRefusal::Closed)),
        Act::Close(0, Err(CloseRefused::Closed)),
        Act::TakeAll(1, 257),
        Act::Take(0, Err(TakeRefused::Empty)),
        Act::AnswerAll(1, 258),
        Act::Answer(0, None),
        Act::Submit(1, 502, Some(SubmitRefusal::UnknownSession)),
        Act::Take(1, Err(TakeRefused::UnknownSession)),
        Act::Close(1, Err(CloseRefused::UnknownSession)),
        Act::Answer(1, None),
    ];
    assert_eq!(rt; wrong_act(open_broker(rt.alloc(), 1)?, &acts), None);
    Ok(())
}

/// Whether one item, 7, is all that was taken and applied.
fn has_taken_seven(broker: Broker<Last>) -> bool {
    let (journal, service) = broker.into_parts();
    match journal.as_slice() {
        [entry] => entry.session() == 0 && *entry.kept() == 7 && service.request == 7,
        _ => false,
    }
}

#[test]
fn steps_of_a_local_broker(rt: HostRuntime) -> Result<(), Fail> {
    let acts = [
        Act::Submit(0, 7, None),
        Act::Take(0, Ok(0)),
        Act::Answer(0, reply_to(0, 7)),
        Act::Close(0, Ok(())),
        Act::Submit(0, 8, Some(SubmitRefusal::Closed)),
        Act::Take(0, Err(TakeRefused::Empty)),
        Act::Answer(1, None),
    ];
    let then = [Act::AllOpen(false), Act::Applied(7), Act::Journal(1)];
    let mut broker = open_broker(rt.alloc(), 1)?;
    assert_eq!(rt; wrong_step(rt.alloc(), &mut broker, &acts), Some(None));
    assert_eq!(rt; wrong_of(&mut broker, &then), None);
    assert!(rt; has_taken_seven(broker));
    Ok(())
}

#[test]
fn cancelled(rt: HostRuntime) -> Result<(), Fail> {
    let acts = [
        Act::SubmitAll(1, 4),
        Act::Take(0, Ok(0)),
        Act::Cancel(0, Ok(())),
        Act::Cancel(0, Err(CancelRefused::Cancelled)),
        Act::Take(0, Err(TakeRefused::Empty)),
        Act::Submit(0, 4, Some(SubmitRefusal::Closed)),
        Act::Close(0, Err(CloseRefused::Closed)),
        Act::Answer(0, reply_to(0, 1)),
        Act::Answer(0, None),
        Act::Cancel(1, Err(CancelRefused::UnknownSession)),
        Act::Journal(1),
        Act::AllOpen(false),
    ];
    assert_eq!(rt; wrong_act(open_broker(rt.alloc(), 1)?, &acts), None);
    Ok(())
}
