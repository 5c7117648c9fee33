//! The files of a setup and of sessions, as several commands name them.
ghost use Rattle.std.specs.Prelude.{◌≡◌, ◌≢◌, ◌≤◌, All, Contains, IfErr, IfOk, bytes_eq, codes};
ghost use Rattle.std.specs.Prelude.{false, length, map, option_map};
ghost use Rattle.clap.specs.Words.{all_of, found_of, rows_of};
ghost use Rattle.acl_cli.specs.Failures.{IsUnexplained, status_of};
ghost use Rattle.acl_cli.specs.SessionFiles.{HasBytes, HaveBytes, bytes_of_session, input_count};
ghost use Rattle.acl_cli.specs.SessionFiles.{setup_in, shown_names};

use crate::fields::text_field;
use crate::{Failure, OpenFiles, Reason, RunFault, read_named};
use clap::ArgMatches;
use std::alloc::Global;
use std::io::Read;

/// The name of standard input as a session.
const INPUT: &str = "-";

/// The name of the setup's file.
#[tactic(auto, unfolding(crate::specs::SessionFiles::setup_in))]
pub fn setup_field<'a>(matches: &ArgMatches<'a>) -> &'a str
    ensures { result.now ≡ setup_in (rows_of (found_of matches.now)) }
{
    text_field(matches, "setup").unwrap_or("")
}

/// The names of files that the words give for an option or a word; `None` if they give none.
pub fn names_field<'m, 'a>(matches: &'m ArgMatches<'a>, name: &str) -> Option<&'m [&'a str]>
    ensures { option_map shown_names result ≡ all_of name.now (rows_of (found_of matches.now)) }
{
    matches.get_strs(name)
}

/// How many of the names are `-`, standard input.
pub fn count_inputs(names: &[&str]) -> usize
    ensures { result ≡ input_count (map (λ name. name.now) names.now) }
{
    names.iter().filter(|name| **name == INPUT).count()
}

/// All bytes of the file of this name, at most `cap`. If it can't be read, the failure has no
/// reason.
pub fn read_unexplained<'a, F: OpenFiles>(
    alloc: Global,
    files: &F,
    name: &'a str,
    cap: usize,
) -> Result<Vec<u8>, Failure<'a>>
    ensures capped { IfOk result (λ bytes. length bytes.items ≤ cap) }
    ensures bytes { IfOk result (λ bytes.
        HasBytes (F.bytes_of files.now name.entry.now) bytes.items) }
    ensures usage { IfErr result (λ failure. status_of failure ≢ 2) }
    ensures refused { IfErr result (IsUnexplained (λ refused. refused ≡ name.entry.now)) }
{
    match files.open(name) {
        Ok(mut file) => read_named(alloc, name, &mut file, cap),
        Err(_) => Err(Failure::CannotRead(name, Reason::Unknown)),
    }
}

/// The text of a session: from `input` for `-`, and else from the file of the name, which leaves
/// `input` as it is.
fn read_session<'a, F: OpenFiles, I: Read>(
    alloc: Global,
    files: &F,
    input: &mut I,
    name: &'a str,
    cap: usize,
) -> Result<Vec<u8>, Failure<'a>>
    ensures capped { IfOk result (λ text. length text.items ≤ cap) }
    ensures bytes { IfOk result (λ text.
        HasBytes (bytes_of_session (F.bytes_of files.now) (I.remaining input.old) name.entry.now)
        text.items) }
    ensures untouched { bytes_eq name.entry.now (codes "-") ≡ false → input.new ≡ input.old }
    ensures usage { IfErr result (λ failure. status_of failure ≢ 2) }
    ensures refused { IfErr result (IsUnexplained (λ refused. refused ≡ name.entry.now)) }
{
    if name == INPUT {
        read_named(alloc, name, input, cap)
    } else {
        read_unexplained(alloc, files, name, cap)
    }
}

/// The texts of the sessions of these names, read in this order, at most `cap` bytes each. One of
/// the names may be `-`, for `input`; otherwise `input` isn't read.
pub fn read_sessions<'a, F: OpenFiles, I: Read>(
    alloc: Global,
    files: &F,
    input: &mut I,
    names: &[&'a str],
    cap: usize,
) -> Result<Vec<Vec<u8>>, Failure<'a>>
    requires { input_count (map (λ name. name.now) names.now) ≤ 1 }
    ensures count { IfOk result (λ texts. length texts.items ≡ length names.now) }
    ensures capped { IfOk result (λ texts. All (λ text. length text.items ≤ cap) texts.items) }
    ensures bytes { IfOk result (λ texts. HaveBytes (F.bytes_of files.now) (I.remaining input.old)
        (map (λ name. name.now) names.now) texts.items) }
    ensures untouched { input_count (map (λ name. name.now) names.now) ≡ 0 → input.new ≡ input.old }
    ensures usage { IfErr result (λ failure. status_of failure ≢ 2) }
    ensures refused { IfErr result (IsUnexplained
        (Contains (map (λ name. name.now) names.now))) }
{
    let Ok(mut texts) = Vec::with_capacity(alloc, names.len()) else {
        return Err(Failure::Lacks(RunFault::Memory));
    };
    for name in names {
        let text = read_session(alloc, files, input, *name, cap)?;
        texts.push_reserved(text);
    }
    Ok(texts)
}
