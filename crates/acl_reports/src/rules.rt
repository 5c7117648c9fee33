//! The word that names the rules by which POSIX lists are evaluated.
ghost use Rattle.std.specs.Prelude.{◌≡◌};
ghost use Rattle.clap.specs.Words.{found_of, rows_of};
ghost use Rattle.acl_reports.specs.RulesMeaning.{rules_in};

use acl_access::Rules;
use acl_cli::fields::flag_field;
use clap::ArgMatches;

/// The rules by which the words have POSIX lists evaluated: the draft's with `--draft`, else those
/// of Linux.
pub fn rules_field(matches: &ArgMatches<'_>) -> Rules
    ensures { result ≡ rules_in (rows_of (found_of matches.now)) }
{
    if flag_field(matches, "draft") {
        return Rules::Draft;
    }
    Rules::Linux
}
