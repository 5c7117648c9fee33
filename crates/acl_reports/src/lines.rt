//! Lines on standard error about a listing.
ghost use Rattle.std.specs.Prelude.{◌≡◌, ◌++◌, OnOk, codes, decimal};
ghost use Rattle.acl_cli.specs.ErrorOutput.{line_of_words};
ghost use Rattle.acl_names.specs.Shown.{shown};
ghost use Rattle.acl_reports.specs.Listed.{fault_words};

use acl_listings::BlockFault;
use acl_names::push_shown;
use itoa::Buffer;
use std::alloc::AllocError;

/// Appends the prefix of a line: the program's name, and that of the listing.
pub(crate) fn push_start(name: &str, out: &mut Vec<u8>) -> Result<(), AllocError>
    ensures { OnOk result (out.new.items ≡ out.old.items ++ codes "aclctl: " ++ name.now) }
{
    out.extend_from_slice(b"aclctl: ")?;
    out.extend_from_slice(name.as_bytes())
}

/// Appends a number in decimal.
pub(crate) fn push_number(number: u64, out: &mut Vec<u8>) -> Result<(), AllocError>
    ensures { OnOk result (out.new.items ≡ out.old.items ++ decimal number) }
{
    out.extend_from_slice(Buffer::new().format(number).as_bytes())
}

/// Appends a line about the listing of this name: `aclctl: NAME: WORDS`.
pub(crate) fn push_line(name: &str, words: &str, out: &mut Vec<u8>) -> Result<(), AllocError>
    ensures { OnOk result (out.new.items ≡ out.old.items
        ++ line_of_words (name.now ++ codes ": " ++ words.now)) }
{
    push_start(name, out)?;
    out.extend_from_slice(b": ")?;
    out.extend_from_slice(words.as_bytes())?;
    out.push(b'\n')?;
    Ok(())
}

/// Appends the word of a fault, and the rule that a list breaks.
fn push_fault_words(fault: BlockFault, out: &mut Vec<u8>) -> Result<(), AllocError>
    ensures { OnOk result (out.new.items ≡ out.old.items ++ fault_words fault) }
{
    if let BlockFault::InvalidAcl(rule) = fault {
        out.extend_from_slice(b"invalid-acl ")?;
        return out.extend_from_slice(rule.word().as_bytes());
    }
    out.extend_from_slice(fault.word().as_bytes())
}

/// Appends the place of a fault: `aclctl: NAME:LINE: `.
fn push_place(name: &str, line: u64, out: &mut Vec<u8>) -> Result<(), AllocError>
    ensures { OnOk result (out.new.items ≡ out.old.items ++ (codes "aclctl: " ++ name.now
        ++ codes ":" ++ decimal line ++ codes ": ")) }
{
    push_start(name, out)?;
    out.push(b':')?;
    push_number(line, out)?;
    out.extend_from_slice(b": ")
}

/// Appends the line about a fault at this line of the listing of this name: `aclctl: NAME:LINE:
/// WORD: TEXT`, with the front of the text.
pub(crate) fn push_fault_line(
    name: &str,
    line: u64,
    fault: BlockFault,
    faulty: &[u8],
    out: &mut Vec<u8>,
) -> Result<(), AllocError>
    ensures { OnOk result (out.new.items ≡ out.old.items ++ line_of_words (name.now ++ codes ":"
        ++ decimal line ++ codes ": " ++ fault_words fault ++ codes ": " ++ shown faulty.now)) }
{
    push_place(name, line, out)?;
    push_fault_words(fault, out)?;
    out.extend_from_slice(b": ")?;
    push_shown(faulty, out)?;
    out.push(b'\n')?;
    Ok(())
}
