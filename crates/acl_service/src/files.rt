//! The files of a setup and of sessions.
ghost use Rattle.std.specs.Prelude.{◌≡◌, ◌≤◌, All, IfErr, IfOk, OnOk, length, map};
ghost use Rattle.acl_lang.specs.declared.limits.TheConstants.{MAX_TEXT_LEN};
ghost use Rattle.acl_cli.specs.Failures.{status_of};
ghost use Rattle.acl_cli.specs.SessionFiles.{HasBytes, HaveBytes, input_count};
ghost use Rattle.acl_service.specs.Files.{IsFilesFailure};
ghost use Rattle.acl_service.specs.RunWords.{CanRun};

use acl_broker::SESSIONS;
pub use acl_cli::OpenFiles;
use acl_cli::session_files::{count_inputs, read_sessions, read_unexplained};
use acl_cli::{Failure, Misuse};
use acl_lang::MAX_TEXT_LEN;
use std::alloc::Global;
use std::io::Read;

/// The input of a run: the bytes of the setup, and of each session in the order of their names.
#[derive(Drop)]
pub struct Texts {
    pub setup: Vec<u8>,
    pub sessions: Vec<Vec<u8>>,
}

/// Reads the setup with one name and then the sessions with the others, in their order, each of at
/// most 1,048,576 bytes. There must be 1 to 64 sessions. One of them may be `-`, for `input`, which
/// otherwise isn't read.
pub fn read_texts<'a, F: OpenFiles, I: Read>(
    alloc: Global,
    files: &F,
    input: &mut I,
    setup: &'a str,
    names: &[&'a str],
) -> Result<Texts, Failure<'a>>
    ensures taken { OnOk result (CanRun (map (λ name. name.now) names.now)) }
    ensures count { IfOk result (λ texts. length texts.sessions.items ≡ length names.now) }
    ensures capped { IfOk result (λ texts. All (λ text. length text.items ≤ MAX_TEXT_LEN)
        texts.sessions.items) }
    ensures setup { IfOk result (λ texts. HasBytes (F.bytes_of files.now setup.entry.now)
        texts.setup.items) }
    ensures sessions { IfOk result (λ texts. HaveBytes (F.bytes_of files.now)
        (I.remaining input.old) (map (λ name. name.now) names.now) texts.sessions.items) }
    ensures untouched { input_count (map (λ name. name.now) names.now) ≡ 0 → input.new ≡ input.old }

    // Before any file is opened.
    ensures unread { IfErr result (λ failure. status_of failure ≡ 2 → input.new ≡ input.old) }
    ensures refused { IfErr result (IsFilesFailure setup.entry.now
        (map (λ name. name.now) names.now)) }
{
    if names.is_empty() || names.len() > SESSIONS as usize {
        return Err(Failure::Misuse(Misuse::TooManySessions));
    }
    if count_inputs(names) > 1 {
        return Err(Failure::Misuse(Misuse::InputTwice));
    }
    let setup = read_unexplained(alloc, files, setup, MAX_TEXT_LEN)?;
    let sessions = read_sessions(alloc, files, input, names, MAX_TEXT_LEN)?;
    Ok(Texts { setup, sessions })
}
