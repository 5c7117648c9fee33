//! Printing a file with its NFSv4 list.
ghost use Rattle.std.specs.Prelude.{◌≡◌, ◌++◌, ◌∷◌, [], OnOk};
ghost use Rattle.std.specs.List.{flat_map};
ghost use Rattle.acl_names.specs.Bytes.{comma, newline};
ghost use Rattle.acl_listings.specs.Guess.{begins};
ghost use Rattle.acl_listings.specs.Nfs4Block.{aces_lines, ended_line, flags_line, front_of};
ghost use Rattle.acl_listings.specs.Nfs4Block.{nfs4_block};
ghost use Rattle.acl_reports.specs.Reporting.{IsPart};
ghost use Rattle.acl_listing_translation.specs.Translated.{entry_in, if_short, pair_in, spec_in};

use crate::escapes::push_unescaped;
use crate::form::AceForm;
use acl_forms::{Places, push_short_entry};
use acl_listings::{BlockFault, FileFault, MAX_BLOCK, lines_behind};
use acl_names::before_byte;
use acl_nfs4::{Ace, push_short_ace};
use std::alloc::AllocError;

/// Appends an entry, with its id in decimal.
fn push_entry(form: AceForm, ace: &Ace, out: &mut Vec<u8>) -> Result<(), AllocError>
    ensures { OnOk result (out.new.items ≡ out.old.items ++ entry_in form ace.now) }
{
    match form {
        AceForm::Nfs4 => push_short_ace(ace, out),
        AceForm::Freebsd => push_short_entry(Places::Full, ace, out),
    }
}

fn push_newline(out: &mut Vec<u8>) -> Result<(), AllocError>
    ensures { OnOk result (out.new.items ≡ out.old.items ++ newline ∷ []) }
{
    out.push(b'\n')?;
    Ok(())
}

fn push_line(form: AceForm, ace: &Ace, out: &mut Vec<u8>) -> Result<(), AllocError>
    ensures { OnOk result (out.new.items
        ≡ out.old.items ++ (entry_in form ace.now ++ newline ∷ [])) }
{
    push_entry(form, ace, out)?;
    push_newline(out)
}

/// Appends a line for each entry.
fn push_lines(form: AceForm, aces: &[Ace], out: &mut Vec<u8>) -> Result<(), AllocError>
    ensures { OnOk result (out.new.items
        ≡ out.old.items ++ aces_lines (entry_in form) aces.now) }
{
    for ace in aces {
        push_line(form, ace, out)?;
    }
    Ok(())
}

/// Appends the first line of a text.
fn push_first_line(text: &[u8], out: &mut Vec<u8>) -> Result<(), AllocError>
    ensures { OnOk result (out.new.items ≡ out.old.items ++ ended_line text.now) }
{
    out.extend_from_slice(before_byte(b'\n', text))?;
    push_newline(out)
}

/// Appends the line of the flags, if the list begins with one.
fn push_flags_line(list: &[u8], out: &mut Vec<u8>) -> Result<(), AllocError>
    ensures { OnOk result (out.new.items ≡ out.old.items ++ flags_line list.now) }
{
    if begins(b"# flags: ", before_byte(b'\n', list)) {
        push_first_line(list, out)
    } else {
        Ok(())
    }
}

fn begins(word: &[u8], text: &[u8]) -> bool
    ensures { result ≡ begins word.now text.now }
{
    text.starts_with(word)
}

/// Appends the lines of a block's header, unchanged.
fn push_front(text: &[u8], out: &mut Vec<u8>) -> Result<(), AllocError>
    ensures { OnOk result (out.new.items ≡ out.old.items ++ front_of text.now) }
{
    let second = lines_behind(text);
    let third = lines_behind(second);
    push_first_line(text, out)?;
    push_first_line(second, out)?;
    push_first_line(third, out)?;
    push_flags_line(lines_behind(third), out)
}

fn push_front_and_lines(
    form: AceForm,
    text: &[u8],
    aces: &[Ace],
    out: &mut Vec<u8>,
) -> Result<(), AllocError>
    ensures { OnOk result (out.new.items
        ≡ out.old.items ++ nfs4_block (entry_in form) text.now aces.now) }
{
    push_front(text, out)?;
    push_lines(form, aces, out)
}

/// Appends the block of the same file with these entries, and an empty line. Appends nothing if the
/// block would be too long.
pub(crate) fn push_block(
    form: AceForm,
    text: &[u8],
    aces: &[Ace],
    out: &mut Vec<u8>,
) -> Result<(), FileFault>
    ensures { IsPart (if_short (nfs4_block (entry_in form) text.now aces.now)) result out.old.items
        out.new.items }
{
    let old_len = out.len();
    push_front_and_lines(form, text, aces, out)?;
    if out.len() - old_len > MAX_BLOCK + 1 {
        out.truncate(old_len);
        return Err(FileFault::Block(BlockFault::TooLong));
    }
    push_newline(out)?;
    Ok(())
}

/// Appends the entries with a comma before each.
fn push_further(form: AceForm, aces: &[Ace], out: &mut Vec<u8>) -> Result<(), AllocError>
    ensures { OnOk result (out.new.items ≡ out.old.items
        ++ flat_map (λ ace. comma ∷ entry_in form ace) aces.now) }
{
    for ace in aces {
        push_further_entry(form, ace, out)?;
    }
    Ok(())
}

fn push_further_entry(form: AceForm, ace: &Ace, out: &mut Vec<u8>) -> Result<(), AllocError>
    ensures { OnOk result (out.new.items ≡ out.old.items ++ comma ∷ entry_in form ace.now) }
{
    out.push(b',')?;
    push_entry(form, ace, out)
}

/// Appends the entries with commas between them.
fn push_spec(form: AceForm, aces: &[Ace], out: &mut Vec<u8>) -> Result<(), AllocError>
    ensures { OnOk result (out.new.items ≡ out.old.items ++ spec_in form aces.now) }
{
    match aces.split_first() {
        Some((first, rest)) => {
            push_entry(form, first, out)?;
            push_further(form, rest, out)
        }
        None => Ok(()),
    }
}

/// Appends the entries, and the path without escapes, each with a zero byte after it.
pub(crate) fn push_pair(
    form: AceForm,
    path: &[u8],
    aces: &[Ace],
    out: &mut Vec<u8>,
) -> Result<(), AllocError>
    ensures { OnOk result (out.new.items ≡ out.old.items ++ pair_in form path.now aces.now) }
{
    push_spec(form, aces, out)?;
    out.push(0)?;
    push_unescaped(path, out)?;
    out.push(0)?;
    Ok(())
}
