//! The end of a session that is closed.
ghost use Rattle.std.specs.Prelude.{◌≡◌, true};
ghost use Rattle.rtrb.specs.Ring.{sent, producer_capacity};
ghost use Rattle.acl_broker.specs.Messages.{has_end_mark};
ghost use Rattle.acl_broker.specs.declared.limits.TheConstants.{SLOTS};

use crate::SessionSide;

/// The end of a session that has closed: its end mark was pushed, it submits no more, and it polls
/// what is still owed. No call waits.
#[derive(Drop)]
pub struct ClosedEnd<I, R> {
    pub(crate) session: u32,
    pub(crate) side: SessionSide<I, R>,
    ghost marked: { has_end_mark (sent side.entries) ≡ true },
    ghost slots: { producer_capacity side.entries ≡ SLOTS },
}

impl<I: Drop, R: Drop> ClosedEnd<I, R> {
    ghost use Rattle.std.specs.Prelude.{◌≡◌, ◌+◌, ◌≤◌, ◌++◌, IfNone, option_to_list};
    ghost use Rattle.acl_broker.specs.Ends.{session_of, sent_by, polled_by, due, IsSameEnd};
    ghost use Rattle.acl_broker.specs.Ends.{StaysEndOf};
    ghost use Rattle.acl_broker.specs.declared.end.End.TheVariants.{Closed};

    /// The number of the session, from 0.
    pub fn session(&self) -> u32
        ensures { result ≡ session_of (Closed self.now) }
    {
        self.session
    }

    /// The next answer, in the order of the journal; `None` if none has come yet.
    pub fn poll(&mut self) -> Option<R>
        ensures same { IsSameEnd (Closed self.old) (Closed self.new) }
        ensures pairs { StaysEndOf (Closed self.old) (Closed self.new) }
        ensures sent { sent_by (Closed self.new) ≡ sent_by (Closed self.old) }
        ensures polled { polled_by (Closed self.new) ≡ polled_by (Closed self.old)
            ++ option_to_list result }
        ensures due { due (Closed self.old) ≤ due (Closed self.new) + 1 }
        ensures none { IfNone result (due (Closed self.old) ≡ 0) }
    {
        self.side.poll()
    }
}
