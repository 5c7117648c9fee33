//! Words of `impact` that are wrong together.
ghost use Rattle.std.specs.Prelude.{◌≡◌, IfSome, option_map};
ghost use Rattle.clap.specs.Words.{found_of, rows_of};
ghost use Rattle.acl_listing_reach.specs.Misfits.{misfit_message};
ghost use Rattle.acl_listing_reach.specs.ImpactMeaning.{misfit_in};

use acl_cli::fields::{flag_field, text_field};
use clap::ArgMatches;
use clap::error::ErrorKind;

/// What is wrong with them, and what is said of it.
#[derive(Clone, Copy)]
pub(crate) struct Misfit {
    pub kind: ErrorKind,
    pub message: &'static str,
}

/// What is wrong with the words together, of which the parser knows nothing: `--accounts-after`
/// wants `--reach`, and `--text` excludes it.
pub(crate) fn find_misfit(matches: &ArgMatches<'_>) -> Option<Misfit>
    ensures kind { option_map (λ misfit. misfit.kind) result
        ≡ misfit_in (rows_of (found_of matches.now)) }
    ensures message { IfSome result (λ misfit. misfit.message.now ≡ misfit_message misfit.kind) }
{
    if flag_field(matches, "reach") {
        if flag_field(matches, "text") {
            return Some(Misfit {
                kind: ErrorKind::ArgumentConflict,
                message: "the argument '--reach' cannot be used with '--text'",
            });
        }
        return None;
    }
    if text_field(matches, "accounts-after").is_some() {
        return Some(Misfit {
            kind: ErrorKind::MissingRequiredArgument,
            message: "the following required arguments were not provided:\n  --reach",
        });
    }
    None
}
