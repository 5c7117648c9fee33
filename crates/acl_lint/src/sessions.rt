//! The report on sessions.
ghost use Rattle.std.specs.Prelude.{◌≡◌, ◌≤◌, All, IfErr, OnErr, OnOk, length, map};
ghost use Rattle.std.specs.Io.KnownBytes.{Appends};
ghost use Rattle.acl_lang.specs.declared.limits.TheConstants.{MAX_TEXT_LEN};
ghost use Rattle.acl_cli.specs.Output.{AppendsFront};
ghost use Rattle.acl_cli.specs.Failures.{IsAnswerLack};
ghost use Rattle.acl_lint.specs.LintText.{session_text, sessions_text};

use crate::line::push_line;
use acl_cli::{Failure, send_full, write_text};
use acl_names::{Directory, Parts};
use std::alloc::Global;
use std::io::Write;

/// Writes the report on the session of this name, with this text, in pieces of some 64 KiB.
fn write_session<'n, W: Write>(
    alloc: Global,
    directory: &Directory,
    name: &str,
    text: &[u8],
    out: &mut W,
) -> Result<(), Failure<'n>>
    requires { length text.now ≤ MAX_TEXT_LEN }
    ensures written { OnOk result (Appends (W.contents out.old) (W.contents out.new)
        (session_text directory.now name.now text.now)) }
    ensures cut { OnErr result (AppendsFront (W.contents out.old) (W.contents out.new)
        (session_text directory.now name.now text.now)) }
    ensures lack { IfErr result IsAnswerLack }
{
    let mut lines = Parts::new(b'\n', text);
    let mut number: u32 = 0;
    let mut kept = Vec::new(alloc);
    while let Some(line) = lines.next() {
        number += 1;
        push_line(alloc, directory, name, number, line, &mut kept)?;
        send_full(&mut kept, out)?;
    }
    write_text(kept.as_slice(), out)?;
    Ok(())
}

/// Writes the report on the sessions of these names, with these texts, one after the other. If
/// memory runs out or a write fails, a prefix of it was written.
pub(crate) fn write_sessions<'n, W: Write>(
    alloc: Global,
    directory: &Directory,
    names: &[&str],
    texts: &[Vec<u8>],
    out: &mut W,
) -> Result<(), Failure<'n>>
    requires count { length names.now ≡ length texts.now }
    requires short { All (λ text. length text.items ≤ MAX_TEXT_LEN) texts.now }
    ensures written { OnOk result (Appends (W.contents out.old) (W.contents out.new)
        (sessions_text directory.now (map (λ name. name.now) names.now) texts.now)) }
    ensures cut { OnErr result (AppendsFront (W.contents out.old) (W.contents out.new)
        (sessions_text directory.now (map (λ name. name.now) names.now) texts.now)) }
    ensures lack { IfErr result IsAnswerLack }
{
    for session in 0..texts.len() {
        let text = texts[session].as_slice();
        write_session(alloc, directory, names[session], text, out)?;
    }
    Ok(())
}
