//! The end of a session that is open.
ghost use Rattle.std.specs.Prelude.{◌≡◌, false};
ghost use Rattle.rtrb.specs.Ring.{sent, producer_capacity};
ghost use Rattle.acl_broker.specs.Messages.{has_end_mark};
ghost use Rattle.acl_broker.specs.declared.limits.TheConstants.{SLOTS};

use crate::{ClosedEnd, SessionSide};

/// The end of an open session. It may go to a thread of its own. No call waits.
///
/// Two counts bound what it can do: at least `spare` submits will be accepted, and at least `due`
/// answers are there. Other calls may succeed or not, as the taker goes on.
#[derive(Drop)]
pub struct SessionEnd<I, R> {
    pub(crate) session: u32,
    pub(crate) side: SessionSide<I, R>,
    ghost unmarked: { has_end_mark (sent side.entries) ≡ false },
    ghost slots: { producer_capacity side.entries ≡ SLOTS },
}

impl<I: Drop, R: Drop> SessionEnd<I, R> {
    ghost use Rattle.std.specs.Prelude.{◌≡◌, ◌+◌, ◌<◌, ◌≤◌, [], ◌∷◌, ◌++◌, IsOk, OnOk, IfErr};
    ghost use Rattle.std.specs.Prelude.{IfNone, MatchResult, option_to_list};
    ghost use Rattle.acl_broker.specs.Ends.{session_of, sent_by, polled_by, spare, due, IsSameEnd};
    ghost use Rattle.acl_broker.specs.Ends.{IsUnmovedEnd, StaysEndOf};
    ghost use Rattle.acl_broker.specs.declared.end.End.TheVariants.{Open, Closed};

    /// The number of the session, from 0.
    pub fn session(&self) -> u32
        ensures { result ≡ session_of (Open self.now) }
    {
        self.session
    }

    /// Submits an item, after those submitted before. `Err` means "full" and gives the item back;
    /// it comes only if no slot is known to be free, and another try may succeed after the taker
    /// has taken.
    pub fn submit(&mut self, item: I) -> Result<(), I>
        ensures same { IsSameEnd (Open self.old) (Open self.new) }
        ensures pairs { StaysEndOf (Open self.old) (Open self.new) }
        ensures polled { (polled_by (Open self.new) ≡ polled_by (Open self.old))
            × (due (Open self.new) ≡ due (Open self.old)) }
        ensures sent { OnOk result (sent_by (Open self.new) ≡ sent_by (Open self.old)
            ++ item ∷ []) }
        ensures spare { OnOk result (spare (Open self.old) ≤ spare (Open self.new) + 1) }
        ensures full { IfErr result (λ back. (back ≡ item)
            × (sent_by (Open self.new) ≡ sent_by (Open self.old))) }
        ensures succeeds { 0 < spare (Open self.old) → IsOk result }
    {
        self.side.submit(item)
    }

    /// The next answer, in the order of the journal; `None` if none has come yet.
    pub fn poll(&mut self) -> Option<R>
        ensures same { IsSameEnd (Open self.old) (Open self.new) }
        ensures pairs { StaysEndOf (Open self.old) (Open self.new) }
        ensures sent { (sent_by (Open self.new) ≡ sent_by (Open self.old))
            × (spare (Open self.new) ≡ spare (Open self.old)) }
        ensures polled { polled_by (Open self.new) ≡ polled_by (Open self.old)
            ++ option_to_list result }
        ensures due { due (Open self.old) ≤ due (Open self.new) + 1 }
        ensures none { IfNone result (due (Open self.old) ≡ 0) }
    {
        self.side.poll()
    }

    /// Ends the session: nothing can be submitted by the end that comes back, and answers can still
    /// be polled. `Err` gives the end back as it was, if no slot is known to be free for the end
    /// mark.
    pub fn close(self) -> Result<ClosedEnd<I, R>, SessionEnd<I, R>>
        ensures end { MatchResult result
            (λ closed. IsUnmovedEnd (Open self) (Closed closed))
            (λ back. IsUnmovedEnd (Open self) (Open back)) }
        ensures pairs { MatchResult result
            (λ closed. StaysEndOf (Open self) (Closed closed))
            (λ back. StaysEndOf (Open self) (Open back)) }
        ensures succeeds { 0 < spare (Open self) → IsOk result }
    {
        let SessionEnd { session, mut side } = self;
        if side.mark_end() {
            Ok(ClosedEnd { session, side })
        } else {
            Err(SessionEnd { session, side })
        }
    }
}
