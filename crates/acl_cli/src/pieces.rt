//! Writing a text in pieces.
ghost use Rattle.std.specs.Prelude.{◌≡◌, ◌++◌, ℕ, List, OnErr, OnOk};
ghost use Rattle.std.specs.Io.KnownBytes.{Appends};
ghost use Rattle.acl_cli.specs.Output.{AppendsFront};

use crate::write_text;
use std::io::{self, Write};

/// How many bytes are kept before they are written.
const PIECE: usize = 65_536;

/// Writes the text and empties it, if it has at least the bytes of a piece.
pub fn send_full<W: Write>(text: &mut Vec<u8>, out: &mut W) -> io::Result<()>
    ensures sent { OnOk result ((sent : List ℕ)
        × Appends (W.contents out.old) (W.contents out.new) sent
        × (text.old.items ≡ sent ++ text.new.items)) }
    ensures front { OnErr result (AppendsFront (W.contents out.old) (W.contents out.new)
        text.old.items) }
{
    if text.len() >= PIECE {
        write_text(text.as_slice(), out)?;
        text.clear();
    }
    Ok(())
}
