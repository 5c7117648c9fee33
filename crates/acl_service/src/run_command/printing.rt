//! What is printed of a run.
ghost use Rattle.std.specs.Prelude.{◌≡◌, ◌++◌, map, IfOk, OnOk};
ghost use Rattle.std.specs.Io.KnownBytes.{Appends};
ghost use Rattle.std.specs.List.{flat_map};
ghost use Rattle.acl_cli.specs.Output.{AppendsFront};
ghost use Rattle.acl_service.specs.RunText.{entry_text, journal_text, outputs_text, sessions_text};

use crate::ServedInPrint;
use acl_broker::KeptEntry;
use acl_cli::write_text;
use acl_names::{put_bytes, put_decimal};
use itoa::Buffer;
use std::alloc::{AllocError, Global};
use std::io;
use std::io::Write;

/// The most bytes of an entry's line: two decimals of ten digits, a blank and a newline.
const MAX_ENTRY_LINE: usize = 22;

/// Appends the line of an entry.
fn push_entry(entry: &KeptEntry<ServedInPrint<'_>>, text: &mut Vec<u8>) -> Result<(), AllocError>
    ensures { OnOk result (text.new.items ≡ text.old.items ++ entry_text entry.now) }
{
    text.reserve(MAX_ENTRY_LINE)?;
    put_decimal(entry.session(), text);
    put_bytes(b" ", text);
    put_decimal(entry.kept().line(), text);
    put_bytes(b"\n", text);
    Ok(())
}

/// The line `journal`, and after it a line for each entry: its session and the number of its
/// request's line.
pub(super) fn print_journal(
    alloc: Global,
    journal: &[KeptEntry<ServedInPrint<'_>>],
) -> Result<Vec<u8>, AllocError>
    ensures { IfOk result (λ text. text.items ≡ journal_text journal.now) }
{
    let mut text = Vec::new(alloc);
    text.extend_from_slice(b"journal\n")?;
    for entry in journal {
        push_entry(entry, &mut text)?;
    }
    Ok(text)
}

/// Writes texts, one after the other. If a write fails, a prefix of them all went out.
fn write_texts<W: Write>(texts: &[&[u8]], out: &mut W) -> io::Result<()>
    ensures written { OnOk result (Appends (W.contents out.old) (W.contents out.new)
        (flat_map (λ text. text.now) texts.now)) }
    ensures front { AppendsFront (W.contents out.old) (W.contents out.new)
        (flat_map (λ text. text.now) texts.now) }
{
    for text in texts {
        write_text(text, out)?;
    }
    Ok(())
}

/// Writes the output of each session after a line that reports which it is.
fn write_sessions<W: Write>(outputs: &[Vec<u8>], out: &mut W) -> io::Result<()>
    ensures written { OnOk result (Appends (W.contents out.old) (W.contents out.new)
        (sessions_text 0 (map (λ output. output.items) outputs.now))) }
    ensures front { AppendsFront (W.contents out.old) (W.contents out.new)
        (sessions_text 0 (map (λ output. output.items) outputs.now)) }
{
    let mut buffer = Buffer::new();
    for session in 0..outputs.len() {
        let number = buffer.format(session).as_bytes();
        write_texts(
            &[b"session ", number, b"\n", outputs[session].as_slice()],
            out,
        )?;
    }
    Ok(())
}

/// Writes the outputs of the sessions. That of a single one has no heading.
pub(super) fn write_outputs<W: Write>(outputs: &[Vec<u8>], out: &mut W) -> io::Result<()>
    ensures written { OnOk result (Appends (W.contents out.old) (W.contents out.new)
        (outputs_text (map (λ output. output.items) outputs.now))) }
    ensures front { AppendsFront (W.contents out.old) (W.contents out.new)
        (outputs_text (map (λ output. output.items) outputs.now)) }
{
    match outputs {
        [output] => write_text(output.as_slice(), out),
        _ => write_sessions(outputs, out),
    }
}
