//! The two commands called `lint`: for a listing, and for a setup and sessions.
ghost use Rattle.std.specs.Prelude.{◌≡◌, map};
ghost use Rattle.std.specs.List.{list_any};
ghost use Rattle.acl_cli.specs.Commands.{Ends};
ghost use Rattle.aclctl.specs.Lint.{is_setup_option, lint_by, names_setup};

use acl_cli::{ErrorOutput, OpenFiles};
use acl_lint::Lint;
use acl_listing_lint::LintListing;
use std::alloc::Global;
use std::convert::AsStr;
use std::io::{Read, Write};

/// Whether the word is the option `--setup`, by itself or with its value.
fn is_setup_option(word: &str) -> bool
    ensures { result ≡ is_setup_option word.now }
{
    word == "--setup" || word.as_bytes().starts_with(b"--setup=")
}

/// Whether one of the words is that option.
fn names_setup<S: AsStr>(words: &[S]) -> bool
    ensures { result ≡ list_any (λ word. is_setup_option (S.text word)) words.now }
{
    words.iter().any(|word| is_setup_option(word.as_str()))
}

/// Runs the one for a setup if the words have `--setup`, and else the one for a listing.
pub(crate) fn run_lint<F, S, I, W, E>(
    alloc: Global,
    files: &F,
    words: &[S],
    input: &mut I,
    out: &mut W,
    err: &mut ErrorOutput<E>,
) -> u8
where
    F: OpenFiles,
    S: AsStr,
    I: Read,
    W: Write,
    E: Write + Drop,
    ensures { Ends (lint_by (names_setup (map S.text words.now)) (F.bytes_of files.now)
        (I.remaining input.old) (map S.text words.now)) result (W.contents out.old)
        (W.contents out.new) err.old err.new input.old input.new }
{
    if names_setup(words) {
        acl_cli::run_command(&Lint, alloc, files, words, input, out, err)
    } else {
        acl_cli::run_command(&LintListing, alloc, files, words, input, out, err)
    }
}
