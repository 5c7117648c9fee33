//! The laws of what is reported for a listing, about the definitions alone.
ghost use Rattle.acl_reports.specs.ClosingLaws.{ClosingShapes, EndingShapes};
ghost use Rattle.acl_reports.specs.OutputLaws.{AnswersPrint, BegunAnswersPrintFronts};
ghost use Rattle.acl_reports.specs.StrangersLaws.{CountsStrangers, StrangersStandInLines};

/// The closing lines of a listing, and how its report ends, by what became of its blocks: a listing
/// without blocks is reported as such, one whose blocks are all evaluated has no line, and another
/// has the number that aren't, after a guess what it is if no block is a file. As many files are
/// counted as name ids without an account, and the first of these ids is kept. A file names such an
/// id exactly if a line of its block does. There is nothing to run here: a proof cites the
/// contract.
pub fn closing_laws()
    ensures says { ClosingShapes }
    ensures ends { EndingShapes }
    ensures strangers { CountsStrangers }
    ensures lines { StrangersStandInLines }
{}

/// Standard output has what is reported for each block, in the listing's order, and nothing else.
/// If the report fails midway, it has what is reported for the first of them. So it can be read
/// without the definitions of faults, counts and closing lines. There is nothing to run here: a
/// proof cites the contract.
pub fn output_laws()
    ensures whole { AnswersPrint }
    ensures front { BegunAnswersPrintFronts }
{}
