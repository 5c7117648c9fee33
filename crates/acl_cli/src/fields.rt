//! Fields of command lines: what the parser found under a name.
ghost use Rattle.std.specs.Prelude.{◌≡◌, option_map};
ghost use Rattle.clap.specs.Words.{first_of, found_of, rows_of};
ghost use Rattle.acl_cli.specs.Fields.{flag_in};

use clap::ArgMatches;

/// The text that the words give for a name; `None` if they don't.
pub fn text_field<'a>(matches: &ArgMatches<'a>, name: &str) -> Option<&'a str>
    ensures { option_map (λ text. text.now) result
        ≡ first_of name.now (rows_of (found_of matches.now)) }
{
    matches.get_str(name)
}

/// Whether a flag is set.
pub fn flag_field(matches: &ArgMatches<'_>, name: &str) -> bool
    ensures { result ≡ flag_in name.now (rows_of (found_of matches.now)) }
{
    match text_field(matches, name) {
        Some(text) => text == "true",
        None => false,
    }
}
