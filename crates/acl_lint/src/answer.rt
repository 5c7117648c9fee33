//! The report on the files that the words name.
ghost use Rattle.std.specs.Prelude.{◌≡◌, ◌≤◌, ◌⊎◌, ℕ, All, IfErr, List, OnErr, OnOk, length, map};
ghost use Rattle.std.specs.Io.KnownBytes.{Appends, Keeps};
ghost use Rattle.acl_lang.specs.declared.limits.TheConstants.{MAX_TEXT_LEN};
ghost use Rattle.acl_cli.specs.Output.{AppendsFront};
ghost use Rattle.acl_cli.specs.Failures.{IsAnswerLack};
ghost use Rattle.acl_lint.specs.LintAnswer.{IsLint};

use crate::sessions::write_sessions;
use crate::setup::write_setup;
use acl_cli::{Failure, RunFault};
use acl_service::Texts;
use acl_setup::{SetupError, read_setup};
use std::alloc::Global;
use std::io::Write;

/// Writes the report on the setup of this name, or, if it opens, on the sessions of these names.
pub(crate) fn write_answer<'n, W: Write>(
    alloc: Global,
    setup: &str,
    names: &[&str],
    texts: &Texts,
    out: &mut W,
) -> Result<(), Failure<'n>>
    requires count { length names.now ≡ length texts.now.sessions.items }
    requires short { All (λ text. length text.items ≤ MAX_TEXT_LEN) texts.now.sessions.items }
    ensures written { OnOk result ((text : List ℕ) × IsLint setup.now texts.now.setup.items
        (map (λ name. name.now) names.now) texts.now.sessions.items text
        × Appends (W.contents out.old) (W.contents out.new) text) }
    ensures cut { OnErr result (Keeps (W.contents out.old) (W.contents out.new)
        ⊎ ((text : List ℕ) × IsLint setup.now texts.now.setup.items
        (map (λ name. name.now) names.now) texts.now.sessions.items text
        × AppendsFront (W.contents out.old) (W.contents out.new) text)) }
    ensures lack { IfErr result IsAnswerLack }
{
    let bytes = texts.setup.as_slice();
    match read_setup(alloc, bytes) {
        Ok((directory, _)) => {
            write_sessions(alloc, &directory, names, texts.sessions.as_slice(), out)
        }
        Err(SetupError::Memory) => Err(Failure::Lacks(RunFault::Memory)),
        Err(error) => write_setup(alloc, setup, error, out),
    }
}
