//! Writing a text as a whole.
ghost use Rattle.std.specs.Prelude.{OnOk};
ghost use Rattle.std.specs.Io.KnownBytes.{Appends};
ghost use Rattle.acl_cli.specs.Output.{AppendsFront};

use std::io::{self, ErrorKind, Write};

/// Writes all of a text, and repeats interrupted writes. If a write fails, a prefix of the text was
/// written.
pub fn write_text<W: Write>(text: &[u8], out: &mut W) -> io::Result<()>
    ensures written { OnOk result (Appends (W.contents out.old) (W.contents out.new) text.now) }
    ensures front { AppendsFront (W.contents out.old) (W.contents out.new) text.now }
{
    let mut written = 0;
    for _ in 0..u64::MAX {
        if written == text.len() {
            return Ok(());
        }
        match out.write(&text[written..]) {
            Ok(0) => return Err(io::Error::from(ErrorKind::WriteZero)),
            Ok(count) => written += count,
            Err(error) if error.kind() == ErrorKind::Interrupted => {}
            Err(error) => return Err(error),
        }
    }
    Err(io::Error::from(ErrorKind::Other))
}
