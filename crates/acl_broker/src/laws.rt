//! The law that the broker is built for.
ghost use Rattle.acl_broker.specs.Points.{BrokerState};
ghost use Rattle.acl_broker.specs.Steps.{History, GoesOnAll};
ghost use Rattle.acl_broker.specs.Headline.{Merges};

use crate::Service;

/// For every service and every list of steps with their results: if a broker went on by these
/// steps, each by its row of the step table, its journal is a merge of prefixes of the sessions'
/// accepted commands, each once, in its session's order, none submitted after that session's close,
/// none taken after its cancel; each answer is the service's answer at its place; and the state is
/// the journal's result.
///
/// It holds from every point at which the broker stood: from its opening, after other steps, or
/// where `rejoin` has put it, and for no step at all it says so of that point. `run_steps` says the
/// same of the steps that it ran. There is nothing to run here: a proof cites the contract.
pub fn journal_merges_prefixes<S: Service>()
    ensures { (old : BrokerState S S.Request S.Reply) (history : History S.Request S.Reply)
        (new : BrokerState S S.Request S.Reply)
        → GoesOnAll S.next S.reply old history new → Merges S.next S.reply old history new }
{}
