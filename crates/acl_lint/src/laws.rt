//! Laws of what is reported, about the definitions alone.
ghost use Rattle.acl_lint.specs.LintLaws.{ReportsAPlace, ReportsThePiece, ReportsWhatIsAnswered};

/// A line of a session is reported exactly if a session with this text has a fault as its answer,
/// and with that fault, whatever the tree (`answered`). If a line that sets a list has a fault that
/// a piece may have, the first malformed piece is reported, and it has that very fault (`read`). No
/// reported place is empty (`places`). `setup_laws` of `acl_setup` says what the place of a setup's
/// fault is. There is nothing to run here: a proof cites the contract.
pub fn lint_laws()
    ensures answered { ReportsWhatIsAnswered }
    ensures read { ReportsThePiece }
    ensures places { ReportsAPlace }
{}
