//! Lists of either style in fields: with decimal ids, since no names are known.
ghost use Rattle.std.specs.Prelude.{◌≡◌, Ok, IfErr, IfOk, codes, option_map};
ghost use Rattle.clap.specs.Words.{found_of, rows_of};
ghost use Rattle.acl_posix.specs.declared.acl_text.AclFault.TheVariants.{BadAcl};
ghost use Rattle.acl_queries.specs.ListField.{aces_of, failure_of_aces, list_in, list_of};
ghost use Rattle.acl_queries.specs.ListField.{style_given};
ghost use Rattle.acl_cli.specs.Fields.{given, of_word};
ghost use Rattle.acl_cli.specs.declared.field_fault.FieldFault.TheVariants.{Acl};
ghost use Rattle.acl_cli.specs.Failures.{Explains, ExplainsText};

use super::acl::{empty_directory, read_acl};
use acl_bridge::{AnyAcl, Style};
use acl_cli::fields::text_field;
use acl_cli::{Failure, FieldFault, Malformed, Place, RunFault};
use acl_nfs4::{AceFault, Acl4, read_aces};
use acl_posix::AclFault;
use clap::ArgMatches;
use std::alloc::Global;

/// The failure of a field that isn't an NFSv4 list.
fn failure_of<'a>(fault: AceFault) -> Failure<'a>
    ensures { result ≡ failure_of_aces fault }
{
    match fault {
        AceFault::Syntax => Failure::Field(FieldFault::Acl(AclFault::BadAcl)),
        AceFault::UnknownName => Failure::Field(FieldFault::Acl(AclFault::UnknownName)),
        AceFault::TooMany => Failure::Field(FieldFault::Acl(AclFault::TooMany)),
        AceFault::InheritOnly => Failure::Field(FieldFault::InheritOnly),
        AceFault::Memory => Failure::Lacks(RunFault::Memory),
    }
}

/// Reads an NFSv4 list from a text.
fn read_acl4<'a>(alloc: Global, text: &'a str) -> Result<Acl4, Failure<'a>>
    ensures read { IfOk result (λ aces. aces_of text.entry.now ≡ Ok aces) }
    ensures refused { IfErr result (ExplainsText (aces_of text.entry.now)) }
{
    let directory = empty_directory(alloc)?;
    match read_aces(alloc, text.as_bytes(), &directory) {
        Ok(aces) => Ok(aces),
        Err(fault) => Err(failure_of(fault)),
    }
}

/// Reads a list of this style from a text.
fn read_list<'a>(alloc: Global, style: Style, text: &'a str) -> Result<AnyAcl, Failure<'a>>
    ensures read { IfOk result (λ acl. list_of style text.entry.now ≡ Ok acl) }
    ensures refused { IfErr result (ExplainsText (list_of style text.entry.now)) }
{
    match style {
        Style::Posix => Ok(AnyAcl::Posix(read_acl(alloc, text)?)),
        Style::Nfs4 => Ok(AnyAcl::Nfs4(read_acl4(alloc, text)?)),
    }
}

/// The style in the word of this name. Fails with `BadStyle` if it is none.
fn style_field<'a>(matches: &ArgMatches<'a>, name: &str) -> Result<Style, Malformed<'a>>
    ensures { result ≡ of_word name.now (codes "STYLE") style_given
        (rows_of (found_of matches.now)) }
{
    let word = text_field(matches, name);
    match word.and_then(|word| Style::read(word)) {
        Some(style) => Ok(style),
        None => Err(Malformed::new(Place::Word("STYLE"), word, FieldFault::BadStyle)),
    }
}

/// Reads a list of this style from a word, which must be given.
fn list_given<'a>(alloc: Global, style: Style, word: Option<&'a str>) -> Result<AnyAcl, Failure<'a>>
    ensures read { IfOk result (λ acl. given (Acl BadAcl) (list_of style)
        (option_map (λ text. text.now) word.entry) ≡ Ok acl) }
    ensures refused { IfErr result (ExplainsText (given (Acl BadAcl) (list_of style)
        (option_map (λ text. text.now) word.entry))) }
{
    match word {
        Some(text) => read_list(alloc, style, text),
        None => Err(Failure::Field(FieldFault::Acl(AclFault::BadAcl))),
    }
}

/// Reads a list of this style from the word of this name.
fn text_of_list<'a>(
    alloc: Global,
    matches: &ArgMatches<'a>,
    style: Style,
    name: &str,
) -> Result<AnyAcl, Failure<'a>>
    ensures read { IfOk result (λ acl. of_word name.now (codes "TEXT") (given (Acl BadAcl)
        (list_of style)) (rows_of (found_of matches.now)) ≡ Ok acl) }
    ensures refused { IfErr result (Explains (of_word name.now (codes "TEXT") (given (Acl BadAcl)
        (list_of style)) (rows_of (found_of matches.now)))) }
{
    let word = text_field(matches, name);
    match list_given(alloc, style, word) {
        Ok(list) => Ok(list),
        Err(failure) => Err(failure.at(Place::Word("TEXT"), word)),
    }
}

/// The list whose style and text are the words of these names.
pub(crate) fn list_field<'a>(
    alloc: Global,
    matches: &ArgMatches<'a>,
    style_name: &str,
    text_name: &str,
) -> Result<AnyAcl, Failure<'a>>
    ensures read { IfOk result (λ acl. list_in style_name.now text_name.now
        (rows_of (found_of matches.now)) ≡ Ok acl) }
    ensures refused { IfErr result (Explains (list_in style_name.now text_name.now
        (rows_of (found_of matches.now)))) }
{
    let style = style_field(matches, style_name)?;
    text_of_list(alloc, matches, style, text_name)
}
