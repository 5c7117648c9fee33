//! Rounds of turns.
ghost use Rattle.std.specs.Prelude.{◌<◌, ◌^◌, None, length, IfOk, OnOk};
ghost use Rattle.acl_runs.specs.Turns.{AnswersNext, Turns, Rounds, AllRounds};

use super::state::{Progress, Run};
use crate::{Replies, RequestSource};
use acl_broker::{JournalEntry, Service};
use std::alloc::AllocError;

/// Answers the next request of a session. `None` if it has none.
fn answer_next<P: Replies<Reply = S::Reply>, S: Service, C: RequestSource<Request = S::Request>>(
    replies: &P,
    service: &mut S,
    progress: &mut Progress<C, S::Reply>,
) -> Result<Option<S::Request>, AllocError>
    ensures { IfOk result (λ taken. AnswersNext C.rest S.next S.reply (P.handling replies.now).text
        service.old progress.old taken service.new progress.new) }
{
    let Some(request) = progress.requests.next()? else {
        return Ok(None);
    };
    progress.answers.reserve(1)?;
    let reply = service.apply(&request)?;
    replies.print(&reply, &mut progress.output)?;
    progress.answers.push_reserved(reply);
    Ok(Some(request))
}

/// The turn of a session. False if it had no request left.
fn take_turn<P: Replies<Reply = S::Reply>, S: Service, C: RequestSource<Request = S::Request>>(
    replies: &P,
    run: &mut Run<C, S, S::Request, S::Reply>,
    session: u32,
) -> Result<bool, AllocError>
    requires { session < length run.old.sessions.items }
    ensures { IfOk result (λ more. Turns C.rest S.next S.reply (P.handling replies.now).text session
        run.old more run.new) }
{
    run.journal.reserve(1)?;
    let progress = &mut run.sessions[session as usize];
    let Some(item) = answer_next(replies, &mut run.service, progress)? else {
        return Ok(false);
    };
    run.journal.push_reserved(JournalEntry { session, item });
    Ok(true)
}

/// The turn of each session. False if none had a request left.
fn take_turns<P: Replies<Reply = S::Reply>, S: Service, C: RequestSource<Request = S::Request>>(
    replies: &P,
    run: &mut Run<C, S, S::Request, S::Reply>,
) -> Result<bool, AllocError>
    requires { length run.old.sessions.items < 2 ^ 32 }
    ensures { IfOk result (λ more. Rounds C.rest S.next S.reply (P.handling replies.now).text
        run.old more run.new) }
{
    let mut more = false;
    for session in 0..run.sessions.len() as u32 {
        more |= take_turn(replies, run, session)?;
    }
    Ok(more)
}

/// Round after round, at most so many, until no session has a request left.
pub(super) fn take_rounds<
    P: Replies<Reply = S::Reply>,
    S: Service,
    C: RequestSource<Request = S::Request>,
>(replies: &P, run: &mut Run<C, S, S::Request, S::Reply>, most: u32) -> Result<(), AllocError>
    requires { length run.old.sessions.items < 2 ^ 32 }
    ensures { OnOk result (AllRounds C.rest S.next S.reply (P.handling replies.now).text most
        run.old run.new) }
{
    for _ in 0..most {
        if !take_turns(replies, run)? {
            return Ok(());
        }
    }
    Ok(())
}
