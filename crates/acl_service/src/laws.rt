//! What the service is built for, as laws.
ghost use Rattle.std.specs.Prelude.{◌≡◌, [], ◌∷◌, ℕ, None, Some};
ghost use Rattle.std.specs.declared.alloc.Global.{Global};
ghost use Rattle.std.specs.declared.vec.Vec.{Vec};
ghost use Rattle.acl_names.specs.Directory.{Known};
ghost use Rattle.acl_tree.specs.Tree.{NodesUnderUmask};
ghost use Rattle.acl_broker.specs.Headline.{Merges};
ghost use Rattle.acl_broker.specs.Points.{BrokerState};
ghost use Rattle.acl_broker.specs.Steps.{GoesOnAll, History};
ghost use Rattle.acl_bridge.specs.TranslationLaws.{TranslationDecidesAlike};
ghost use Rattle.acl_cli.specs.Failures.{words_of};
ghost use Rattle.acl_cli.specs.declared.failure.Failure.TheVariants.{Misuse};
ghost use Rattle.acl_cli.specs.declared.misuse.Misuse.TheVariants.{TooManySessions};
ghost use Rattle.acl_lang.specs.declared.answer.Answer.{Answer};
ghost use Rattle.acl_lang.specs.declared.text.Numbered.{Numbered};
ghost use Rattle.acl_service.specs.Headline.{IsServedBy};
ghost use Rattle.acl_service.specs.RunLaws.{StatusesReportTheWords, too_many_sessions};
ghost use Rattle.acl_service.specs.Served.{next_served, reply_served};
ghost use Rattle.acl_service.specs.Sessions.{ExplainsSessions, IsServedAlone};
ghost use Rattle.acl_service.specs.declared.served.Served.{Served};
ghost use Rattle.acl_service.specs.declared.sessions.report.Report.{Report};

/// The journal explains every answer. For every list of steps by which a broker before a tree went
/// on, its journal is a merge of prefixes of the sessions' accepted commands, each once, in its
/// session's order, none submitted after that session's close, none taken after its cancel; each
/// answer is the one that the tree gives at the command's place; and the tree is the journal's
/// result. What the tree becomes and replies is the commands' own meaning.
///
/// And whatever list a command translates, the translation grants the same: for every owner, group
/// and requester, both grant the same single permissions to read, write and execute.
///
/// There is nothing to run here: a proof cites the contract.
pub fn journal_explains_every_answer()
    ensures journal { (old : BrokerState Served Numbered Answer) (history : History Numbered Answer)
        (new : BrokerState Served Numbered Answer)
        → GoesOnAll next_served reply_served old history new
        → Merges next_served reply_served old history new }
    ensures tree { (served : Served) (numbered : Numbered) → IsServedBy served numbered }
    ensures translation { TranslationDecidesAlike }
{}

/// A run of one session prints what `run_one` writes for its text, and leaves the same tree.
///
/// There is nothing to run here: a proof cites the contract.
pub fn one_session_is_served_as_alone()
    ensures { (known : Known) (tree : NodesUnderUmask) (text : Vec ℕ Global) (report : Report)
        → ExplainsSessions known tree None (text ∷ []) report
        → IsServedAlone known tree text.items report }
{}

/// The exit status of `run` follows from its words. With 0 and 1 the parser took them, and the
/// sessions that they name can run together; 2 means that it didn't, or that they name no sessions,
/// too many, or standard input twice. The line about too many says how many there may be.
///
/// There is nothing to run here: a proof cites the contract.
pub fn run_statuses_report_the_words()
    ensures statuses { StatusesReportTheWords }
    ensures number { words_of (Misuse TooManySessions) ≡ Some too_many_sessions }
{}
