//! How reports end: over two listings, and where there are differences.
ghost use Rattle.std.specs.Prelude.{◌≡◌, ◌&&◌};
ghost use Rattle.acl_reports.specs.Endings.{ending_of_both, with_difference};

use acl_cli::Ending;

/// How a report on two listings ends, if the blocks of each, counted alone, end so.
pub fn ending_of_both(first: Ending, second: Ending) -> Ending
    ensures { result ≡ ending_of_both first second }
{
    match first {
        Ending::Answered => second,
        _ => Ending::InPart,
    }
}

/// How a report ends, if `asks` says that the exit status depends on differences, and `some` that
/// there are any.
pub fn with_difference(asks: bool, some: bool, ending: Ending) -> Ending
    ensures { result ≡ with_difference (asks && some) ending }
{
    match ending {
        Ending::Answered if asks && some => Ending::Differs,
        _ => ending,
    }
}
