//! The end of a session, open or closed.
ghost use Rattle.acl_broker.specs.Ends.{AreEndsOf, AreSeen};

use crate::{ClosedEnd, Refused, SessionEnd, SubmitRefusal, TakerSide, lane};

/// The end of a session, which may go to a thread of its own.
#[derive(Drop)]
pub enum End<I, R> {
    /// An end that may submit.
    Open(SessionEnd<I, R>),
    /// An end that submits no more, and still polls.
    Closed(ClosedEnd<I, R>),
}

/// What a broker, which holds both sides of each lane, does to one of them.
impl<I: Drop, R: Drop> End<I, R> {
    ghost use Rattle.std.specs.Prelude.{◌≡◌, ◌++◌, [], true, OnOk, OnErr, IfNone, option_to_list};
    ghost use Rattle.acl_broker.specs.Lanes.{IsPaired, submitted, handed, submit_answer};
    ghost use Rattle.acl_broker.specs.Ends.{IsSamePair, EndSeen, lane_of, side_of, is_closed};
    ghost use Rattle.acl_broker.specs.TakerSides.{known_waiting, known_in_ring, received_items};
    ghost use Rattle.acl_broker.specs.TakerSides.{IsUnmoved, AnswerMoves};
    ghost use Rattle.acl_broker.specs.SessionSides as session_side;

    /// Accepts an item, unless the session is closed or cancelled, or as many items wait as a lane
    /// holds.
    pub(crate) fn submit_beside(
        &mut self,
        taker: &mut TakerSide<I, R>,
        item: I,
    ) -> Result<(), Refused<I>>
        requires paired { IsPaired (side_of self.old) taker.old }
        requires closed { is_closed self.old ≡ true → taker.old.closed ≡ true }
        ensures same { IsSamePair self.old taker.old self.new taker.new }
        ensures answer { result ≡ submit_answer taker.old.closed taker.old.cancelled
            (lane_of self.old taker.old).waiting item }
        ensures ok { OnOk result (lane_of self.new taker.new
            ≡ submitted (lane_of self.old taker.old) item) }
        ensures refused { OnErr result (lane_of self.new taker.new ≡ lane_of self.old taker.old) }
        ensures unmoved { IsUnmoved taker.old taker.new }
    {
        if taker.closed || taker.cancelled {
            return Err(Refused {
                why: SubmitRefusal::Closed,
                item,
            });
        }
        let End::Open(open) = self else {
            unreachable!()
        };
        match lane::submit(&mut open.side, taker, item) {
            Ok(()) => Ok(()),
            Err(item) => Err(Refused {
                why: SubmitRefusal::Full,
                item,
            }),
        }
    }

    /// Gives out the first answer that is owed.
    pub(crate) fn answer_beside(&mut self, taker: &mut TakerSide<I, R>) -> Option<R>
        requires { IsPaired (side_of self.old) taker.old }
        ensures same { IsSamePair self.old taker.old self.new taker.new }
        ensures given { (lane_of self.old taker.old).owed ≡ option_to_list result
            ++ (lane_of self.new taker.new).owed }
        ensures kept { lane_of self.new taker.new
            ≡ handed (lane_of self.old taker.old) result (lane_of self.new taker.new).owed }
        ensures none { IfNone result ((lane_of self.old taker.old).owed ≡ []) }
        ensures moves { AnswerMoves result taker.old taker.new }
    {
        match self {
            End::Open(open) => lane::answer(&mut open.side, taker),
            End::Closed(closed) => lane::answer(&mut closed.side, taker),
        }
    }

    /// Lets the taker know all that waits.
    pub(crate) fn see_entries_beside(&mut self, taker: &mut TakerSide<I, R>)
        requires { IsPaired (side_of self.old) taker.old }
        ensures same { IsSamePair self.old taker.old self.new taker.new }
        ensures state { lane_of self.new taker.new ≡ lane_of self.old taker.old }
        ensures seen { known_waiting taker.new ≡ (lane_of self.old taker.old).waiting }
        ensures order { received_items taker.new ++ known_in_ring taker.new
            ≡ session_side.sent (side_of self.new) }
        ensures unmoved { IsUnmoved taker.old taker.new }
    {
        match self {
            End::Open(open) => lane::see_entries(&mut open.side, taker),
            End::Closed(closed) => lane::see_entries(&mut closed.side, taker),
        }
    }

    /// Lets both sides know all that lies in the rings. The session is closed if its end is.
    pub(crate) fn see_rings_beside(&mut self, taker: &mut TakerSide<I, R>)
        requires { IsPaired (side_of self.old) taker.old }
        ensures { EndSeen self.old taker.old self.new taker.new }
    {
        match self {
            End::Open(open) => {
                lane::see_rings(&mut open.side, taker);
                taker.closed = false;
            }
            End::Closed(closed) => {
                lane::see_rings(&mut closed.side, taker);
                taker.closed = true;
            }
        }
    }
}

/// Lets both sides of each lane know all that lies in its rings. Nothing is moved, and nothing is
/// refused.
pub(crate) fn see_all_rings<I: Drop, R: Drop>(
    ends: &mut Vec<End<I, R>>,
    takers: &mut Vec<TakerSide<I, R>>,
)
    requires { AreEndsOf ends.old.items takers.old.items }
    ensures { AreSeen ends.old.items takers.old.items ends.new.items takers.new.items }
{
    for session in 0..takers.len() {
        ends[session].see_rings_beside(&mut takers[session]);
    }
}
