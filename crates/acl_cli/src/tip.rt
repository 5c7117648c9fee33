//! What to do about a word that the parser takes for an option that there isn't.
//!
//! The parser's own tip is to put the word after `--`. That helps if the word belongs to no option,
//! as a file's name. A value that begins with `-` has to follow its option and `=`.
ghost use Rattle.std.specs.Prelude.{◌≡◌, IfOk, map, option_map};
ghost use Rattle.std.specs.String.{string_bytes};
ghost use Rattle.acl_cli.specs.Tips.{begins, better_message, has_value, is_named, is_option};
ghost use Rattle.acl_cli.specs.Tips.{is_option_of, is_value, value_of_option, with_tip};
ghost use Rattle.acl_cli.specs.Usage.{IsRefused};

use crate::Failure;
use crate::command_line::CommandLine;
use crate::usage::wrong_usage;
use crate::word::{Given, Word};
use clap::error::ErrorKind;
use std::alloc::{AllocError, Global};
use std::convert::AsStr;

/// Where the parser's text has its tip to put a word after `--`; the word follows.
const TIP: &str = "\n\n  tip: to pass '";

/// Whether a word of a line is an option with a value.
fn has_value(word: &Word<'_>) -> bool
    ensures { result ≡ has_value word.now.given }
{
    matches!(
        word.given,
        Given::Option | Given::RequiredOption | Given::RepeatedOption | Given::CountOption(_)
    )
}

/// Whether the text is the option of this name.
fn is_named(name: &str, text: &str) -> bool
    ensures { result ≡ is_named name.now text.now }
{
    match text.as_bytes().strip_prefix(b"--") {
        Some(rest) => rest == name.as_bytes(),
        None => false,
    }
}

/// Whether the text is this word, an option with a value.
fn is_option_of(text: &str, word: &Word<'_>) -> bool
    ensures { result ≡ is_option_of text.now word.now }
{
    has_value(word) && is_named(word.name, text)
}

/// Whether it is one of the options that have a value.
fn is_option(known: &[Word<'_>], text: &str) -> bool
    ensures { result ≡ is_option known.now text.now }
{
    known.iter().any(|word| is_option_of(text, word))
}

fn begins(front: &str, text: &str) -> bool
    ensures { result ≡ begins front.now text.now }
{
    text.as_bytes().starts_with(front.as_bytes())
}

/// Whether the word after this one begins as `refused` does, and is the value of an option.
fn is_value(known: &[Word<'_>], refused: &str, before: &str, word: &str) -> bool
    ensures { result ≡ is_value known.now refused.now (before.now, word.now) }
{
    begins(refused, word) && is_option(known, before)
}

/// The first of the words that begins as `refused` does and follows an option with a value, after
/// that option.
fn value_of_option<'w, S: AsStr>(
    known: &[Word<'_>],
    refused: &str,
    words: &'w [S],
) -> Option<(&'w str, &'w str)>
    ensures { option_map (λ pair. (pair.0.now, pair.1.now)) result
        ≡ value_of_option known.now refused.now (map S.text words.entry.now) }
{
    let mut before: &'w str = "";
    for word in words {
        let text = word.as_str();
        if is_value(known, refused, before, text) {
            return Some((before, text));
        }
        before = text;
    }
    None
}

/// The message with the tip to write a value after its option and `=`.
fn with_tip(alloc: Global, message: &str, option: &str, value: &str) -> Result<String, AllocError>
    ensures { IfOk result (λ text. string_bytes text
        ≡ with_tip message.now (option.now, value.now)) }
{
    let mut text = String::from_str(alloc, message)?;
    text.push_str(TIP)?;
    text.push_str(value)?;
    text.push_str("' as the value of '")?;
    text.push_str(option)?;
    text.push_str("', use '")?;
    text.push_str(option)?;
    text.push_str("=")?;
    text.push_str(value)?;
    text.push_str("'")?;
    Ok(text)
}

/// The parser's message about the refused word with a better tip, or with none if that is a long
/// option. `None` if the parser's own tip is right.
fn better_message<S: AsStr>(
    alloc: Global,
    known: &[Word<'_>],
    words: &[S],
    message: &str,
    refused: &str,
) -> Result<Option<String>, AllocError>
    ensures { IfOk result (λ better. option_map (λ text. string_bytes text) better
        ≡ better_message known.now (map S.text words.now) message.now refused.now) }
{
    if begins("--", refused) {
        return Ok(Some(String::from_str(alloc, message)?));
    }
    match value_of_option(known, refused, words) {
        Some((option, value)) => Ok(Some(with_tip(alloc, message, option, value)?)),
        None => Ok(None),
    }
}

/// A better message than the parser's text. `None` if its own is right, or memory runs out.
fn better_text<S: AsStr>(
    alloc: Global,
    known: &[Word<'_>],
    words: &[S],
    error: &clap::Error,
) -> Option<String> {
    let text = format!(in alloc; "{error}").ok()?;
    let (message, rest) = text.split_once(TIP)?;
    let (refused, _) = rest.split_once("'")?;
    let message = message.strip_prefix("error: ")?;
    better_message(alloc, known, words, message, refused).ok()?
}

/// The failure of words that the parser refuses with this error, by the error's kind. If the parser
/// takes the value of an option for an option, it says how to write both.
pub(crate) fn refusal_of_words<'a, C: CommandLine, S: AsStr>(
    alloc: Global,
    words: &[S],
    error: clap::Error,
) -> Failure<'a>
    ensures { IsRefused error result }
{
    match error.kind() {
        ErrorKind::UnknownArgument => match better_text(alloc, C::line().words, words, &error) {
            Some(message) => wrong_usage::<C>(alloc, ErrorKind::UnknownArgument, message.as_str()),
            None => Failure::from(error),
        },
        _ => Failure::from(error),
    }
}
