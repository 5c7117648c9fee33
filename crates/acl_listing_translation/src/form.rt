//! The form in which entries are printed.
ghost use Rattle.std.specs.Prelude.{◌≡◌, Err, IfErr, IfOk, Ok, option_map};
ghost use Rattle.clap.specs.Words.{found_of, rows_of};
ghost use Rattle.acl_listing_translation.specs.TranslateMeaning.{form_in, form_of};

use acl_cli::fields::text_field;
use acl_cli::{FieldFault, Malformed, Place};
use clap::ArgMatches;

/// A form of NFSv4 entries.
#[derive(Clone, Copy, Debug, PartialEq, Eq)]
pub(crate) enum AceForm {
    /// `type:flags:who:letters`.
    Nfs4,
    /// `tag:perms:flags:type`.
    Freebsd,
}

/// The form that the words name; without one, that of nfs4. Fails if no form has the name.
pub(crate) fn form_field<'a>(matches: &ArgMatches<'a>) -> Result<AceForm, Malformed<'a>>
    ensures read { IfOk result (λ form. form_in (rows_of (found_of matches.now)) ≡ Ok form) }
    ensures refused { IfErr result (λ malformed. form_in (rows_of (found_of matches.now))
        ≡ Err malformed) }
{
    let word = text_field(matches, "form");
    match form_given(word) {
        Ok(form) => Ok(form),
        Err(fault) => Err(Malformed::new(Place::Option("form"), word, fault)),
    }
}

/// The form that a word names.
fn form_given(word: Option<&str>) -> Result<AceForm, FieldFault>
    ensures { result ≡ form_of (option_map (λ text. text.now) word.entry) }
{
    let Some(text) = word else {
        return Ok(AceForm::Nfs4);
    };
    if text == "nfs4" {
        return Ok(AceForm::Nfs4);
    }
    if text == "freebsd" {
        return Ok(AceForm::Freebsd);
    }
    Err(FieldFault::BadStyle)
}
