//! The report on a line.
ghost use Rattle.std.specs.Prelude.{◌≡◌, ◌++◌, OnOk};
ghost use Rattle.std.specs.List.{flat_map};
ghost use Rattle.acl_lint.specs.LintText.{found_in_line, found_text, place_text};

use crate::piece::{Piece, piece_at_fault};
use acl_lang::{Line, line_fault_word, read_line};
use acl_names::{Directory, push_decimal};
use acl_tree::{LineFault, Request};
use std::alloc::{AllocError, Global};

/// Appends the number and the piece, or `-` for none.
fn push_place(piece: &Option<Piece<'_>>, out: &mut Vec<u8>) -> Result<(), AllocError>
    ensures { OnOk result (out.new.items ≡ out.old.items ++ place_text piece.now) }
{
    let Some(piece) = piece else {
        out.push(b'-')?;
        return Ok(());
    };
    push_decimal(piece.number, out)?;
    out.push(b' ')?;
    if piece.text.is_empty() {
        out.push(b'-')?;
    }
    out.extend_from_slice(piece.text)?;
    Ok(())
}

/// Appends the line about a fault.
fn push_found(
    name: &str,
    line: u32,
    fault: LineFault,
    piece: &Option<Piece<'_>>,
    out: &mut Vec<u8>,
) -> Result<(), AllocError>
    ensures { OnOk result (out.new.items ≡ out.old.items
        ++ found_text name.now (record { line = line; fault = fault; piece = piece.now })) }
{
    out.extend_from_slice(name.as_bytes())?;
    out.push(b':')?;
    push_decimal(line, out)?;
    out.extend_from_slice(b": ")?;
    out.extend_from_slice(line_fault_word(fault))?;
    out.push(b' ')?;
    push_place(piece, out)?;
    out.push(b'\n')?;
    Ok(())
}

/// Appends the report on a line of the session of this name: one line if it has a fault, and else
/// nothing. Fails only if memory runs out.
pub(crate) fn push_line(
    alloc: Global,
    directory: &Directory,
    name: &str,
    number: u32,
    line: &[u8],
    out: &mut Vec<u8>,
) -> Result<(), AllocError>
    ensures { OnOk result (out.new.items ≡ out.old.items
        ++ flat_map (found_text name.now) (found_in_line directory.now number line.now)) }
{
    match read_line(alloc, line, directory)? {
        Line::Command(Request::Bad(fault)) => {
            let piece = piece_at_fault(directory, fault, line);
            push_found(name, number, fault, &piece, out)
        }
        _ => Ok(()),
    }
}
