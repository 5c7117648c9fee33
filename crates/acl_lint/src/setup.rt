//! The report on a setup.
ghost use Rattle.std.specs.Prelude.{◌≡◌, ◌++◌, ◌⊎◌, IfErr, IfOk, OnErr, OnOk};
ghost use Rattle.std.specs.Io.KnownBytes.{Appends, Keeps};
ghost use Rattle.acl_cli.specs.Output.{AppendsFront};
ghost use Rattle.acl_cli.specs.Failures.{IsAnswerLack};
ghost use Rattle.acl_lint.specs.LintAnswer.{setup_text, with_hyphens};

use crate::place::push_place;
use acl_cli::{Failure, write_text};
use acl_setup::SetupError;
use std::alloc::{AllocError, Global};
use std::io::Write;

/// Appends words with `-` between them.
fn push_joined(words: &[u8], out: &mut Vec<u8>) -> Result<(), AllocError>
    ensures { OnOk result (out.new.items ≡ out.old.items ++ with_hyphens words.now) }
{
    for byte in words {
        out.push(if *byte == b' ' { b'-' } else { *byte })?;
    }
    Ok(())
}

/// The line about a setup.
fn setup_line(alloc: Global, name: &str, error: SetupError) -> Result<Vec<u8>, AllocError>
    ensures { IfOk result (λ line. line.items ≡ setup_text name.now error) }
{
    let mut line = Vec::new(alloc);
    line.extend_from_slice(name.as_bytes())?;
    line.extend_from_slice(b": ")?;
    push_joined(error.words().as_bytes(), &mut line)?;
    line.push(b' ')?;
    push_place(error, &mut line)?;
    line.push(b'\n')?;
    Ok(line)
}

/// Writes the report on the setup of this name, which is refused with this error. If memory runs
/// out, nothing was written, and if a write fails, a prefix of it.
pub(crate) fn write_setup<'n, W: Write>(
    alloc: Global,
    name: &str,
    error: SetupError,
    out: &mut W,
) -> Result<(), Failure<'n>>
    ensures written { OnOk result
        (Appends (W.contents out.old) (W.contents out.new) (setup_text name.now error)) }
    ensures cut { OnErr result (Keeps (W.contents out.old) (W.contents out.new)
        ⊎ AppendsFront (W.contents out.old) (W.contents out.new) (setup_text name.now error)) }
    ensures lack { IfErr result IsAnswerLack }
{
    let line = setup_line(alloc, name, error)?;
    write_text(line.as_slice(), out)?;
    Ok(())
}
