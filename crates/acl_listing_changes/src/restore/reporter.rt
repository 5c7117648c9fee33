//! What `restore` prints for blocks.
ghost use Rattle.std.specs.Prelude.{◌≡◌, ◌++◌, OnOk};
ghost use Rattle.acl_listing_changes.specs.Restoring.{path_line, restore_fault, restored_text};

use super::no_names::NoNames;
use crate::between::{ChangeReporter, Found, Known};
use acl_listings::{BlockFault, MAX_BLOCK, faulty_line, path_of};
use acl_reports::Stranger;
use std::alloc::{AllocError, Global};

/// Prints the blocks before that the listing after has otherwise.
#[derive(Clone, Copy)]
pub(super) struct RestoreReporter;

/// The fault of a block with this text, if it is too long, or its first line isn't a file's.
fn fault_of(text: &[u8]) -> Option<BlockFault>
    ensures { result ≡ restore_fault text.now }
{
    if text.len() > MAX_BLOCK {
        return Some(BlockFault::TooLong);
    }
    if path_of(text).is_none() {
        return Some(BlockFault::BadHeader);
    }
    None
}

/// Appends a line about the path of a block: `aclctl: PATH: WORD`.
fn push_path_line(text: &[u8], word: &str, beside: &mut Vec<u8>) -> Result<(), AllocError>
    ensures { OnOk result (beside.new.items ≡ beside.old.items ++ path_line text.now word.now) }
{
    beside.extend_from_slice(b"aclctl: ")?;
    beside.extend_from_slice(path_of(text).unwrap_or(b""))?;
    beside.extend_from_slice(b": ")?;
    beside.extend_from_slice(word.as_bytes())?;
    beside.push(b'\n')?;
    Ok(())
}

/// Appends the block before and an empty line, if the block after differs.
fn push_restored(old: &[u8], text: &[u8], out: &mut Vec<u8>) -> Result<(), AllocError>
    ensures { OnOk result (out.new.items ≡ out.old.items ++ restored_text old.now text.now) }
{
    if old == text {
        return Ok(());
    }
    out.extend_from_slice(old)?;
    out.extend_from_slice(b"\n\n")
}

impl ChangeReporter for RestoreReporter {
    ghost use Rattle.acl_listing_changes.specs.Restoring.{restoring};

    ghost wording = { λ _. restoring };

    fn asks(&self) -> bool {
        false
    }

    // Ids without an account aren't looked for.
    fn find(&self, _alloc: Global, text: &[u8]) -> Result<Found, AllocError> {
        Ok(Found {
            fault: fault_of(text),
            strange: false,
        })
    }

    fn stranger(&self, _text: &[u8]) -> Option<Stranger> {
        None
    }

    fn faulty_line<'a>(&self, text: &'a [u8], fault: BlockFault) -> (usize, &'a [u8]) {
        faulty_line(text, fault, &NoNames)
    }

    fn push_new(
        &self,
        _alloc: Global,
        text: &[u8],
        _out: &mut Vec<u8>,
        beside: &mut Vec<u8>,
    ) -> Result<Found, AllocError> {
        let fault = fault_of(text);
        let found = Found {
            fault,
            strange: false,
        };
        if fault.is_some() {
            return Ok(found);
        }
        push_path_line(text, "new", beside)?;
        Ok(found)
    }

    fn push_changed(
        &self,
        _alloc: Global,
        old: &[u8],
        _known: Known,
        text: &[u8],
        out: &mut Vec<u8>,
        _beside: &mut Vec<u8>,
    ) -> Result<Found, AllocError> {
        let fault = fault_of(text);
        let found = Found {
            fault,
            strange: false,
        };
        if fault.is_some() {
            return Ok(found);
        }
        if fault_of(old).is_some() {
            return Ok(found);
        }
        push_restored(old, text, out)?;
        Ok(found)
    }

    fn push_gone(
        &self,
        _alloc: Global,
        old: &[u8],
        _out: &mut Vec<u8>,
        beside: &mut Vec<u8>,
    ) -> Result<(), AllocError> {
        if fault_of(old).is_some() {
            return Ok(());
        }
        push_path_line(old, "gone", beside)
    }

    fn push_apart(
        &self,
        _first: &[u8],
        _second: &[u8],
        _beside: &mut Vec<u8>,
    ) -> Result<(), AllocError> {
        Ok(())
    }
}
