//! Paths as commands print them.
ghost use Rattle.std.specs.Prelude.{◌≡◌, ◌++◌, IfOk, OnOk};
ghost use Rattle.std.specs.List.{list_any};
ghost use Rattle.acl_access.specs.Paths.{is_control, path_byte, printed_path};

use acl_names::octal;
use std::alloc::{AllocError, Global};
use std::marker::Model;

/// Whether the byte could control a terminal or end a line.
fn is_control(byte: u8) -> bool
    ensures { result ≡ is_control byte }
{
    byte < b' ' || byte == 127
}

/// How many bytes of a path are compared in one step.
const CHUNK: usize = 16;

/// Whether any of these bytes is such a control.
#[inline(always)]
fn chunk_has_controls(bytes: &[u8; CHUNK]) -> bool
    ensures { result ≡ list_any is_control bytes.now }
{
    let mut found = false;
    // It goes on to the end, so that one step compares all of them.
    for byte in bytes {
        found |= is_control(*byte);
    }
    found
}

/// Whether any byte is such a control. The last chunk has what is left behind the whole ones, and
/// maybe bytes in front of it again.
fn has_controls(path: &[u8]) -> bool
    ensures { result ≡ list_any is_control path.now }
{
    let Some(last) = path.last_chunk::<CHUNK>() else {
        return path.iter().any(|byte| is_control(*byte));
    };
    let mut found = false;
    let mut rest = path;
    while let Some((chunk, behind)) = rest.split_first_chunk::<CHUNK>() {
        found |= chunk_has_controls(chunk);
        rest = behind;
    }
    found || chunk_has_controls(last)
}

/// Appends a byte as paths are printed.
fn push_byte(byte: u8, out: &mut Vec<u8>) -> Result<(), AllocError>
    ensures { OnOk result (out.new.items ≡ out.old.items ++ path_byte byte) }
{
    if is_control(byte) {
        let text = octal(byte);
        out.extend_from_slice(&text)?;
    } else {
        out.push(byte)?;
    }
    Ok(())
}

/// Appends a path as commands print it: each byte below 32, and 127, as `\` and three octal digits.
/// Fails only if memory runs out.
pub fn push_printed_path(path: &[u8], out: &mut Vec<u8>) -> Result<(), AllocError>
    ensures { OnOk result (out.new.items ≡ out.old.items ++ printed_path path.now) }
{
    for byte in path {
        push_byte(*byte, out)?;
    }
    Ok(())
}

/// The path as it is printed.
fn escaped(alloc: Global, path: &[u8]) -> Result<Vec<u8>, AllocError>
    ensures { IfOk result (λ text. text.items ≡ printed_path path.now) }
{
    let mut text = Vec::new(alloc);
    push_printed_path(path, &mut text)?;
    Ok(text)
}

/// A path as commands print it, so that it can't control a terminal or end a line. A contract sees
/// the printed bytes.
#[derive(Drop)]
pub struct PrintedPath<'t> {
    path: &'t [u8],
    /// The printed bytes, if they differ from the path.
    escaped: Option<Vec<u8>>,
}

impl<'t> Model for PrintedPath<'t> {
    ghost use Rattle.std.specs.Prelude.{ℕ, List};
    ghost use Rattle.std.specs.Option.{option_map_or};

    ghost Value = { List ℕ };

    ghost view = { λ inside.
        option_map_or (λ text. text.items) inside.escaped inside.path.now };
}

impl<'t> PrintedPath<'t> {
    /// The path as it is printed. It takes no memory if that is the path itself. Fails only if
    /// memory runs out.
    pub fn of(alloc: Global, path: &'t [u8]) -> Result<PrintedPath<'t>, AllocError>
        ensures { IfOk result (λ printed. printed ≡ printed_path path.entry.now) }
    {
        let escaped = if has_controls(path) {
            Some(escaped(alloc, path)?)
        } else {
            None
        };
        Ok(PrintedPath { path, escaped })
    }

    /// The printed bytes.
    pub fn bytes(&self) -> &[u8]
        ensures { result.now ≡ self.now }
    {
        match &self.escaped {
            Some(text) => text.as_slice(),
            None => self.path,
        }
    }
}
