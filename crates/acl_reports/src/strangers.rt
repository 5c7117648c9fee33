//! How many files of a listing name ids that no account has.
ghost use Rattle.std.specs.Prelude.{◌≡◌, ◌++◌, IfSome, OnOk, Option};
ghost use Rattle.acl_reports.specs.Strangers.{IsSighting, first_of, first_words, no_strangers};
ghost use Rattle.acl_reports.specs.Strangers.{strangers_line, with_stranger};
ghost use Rattle.acl_reports.specs.declared.stranger.Stranger.{Stranger};

use crate::lines::{push_number, push_start};
use crate::sighting::Sighting;
use crate::stranger::Stranger;
use std::alloc::AllocError;

/// An id that no account has, and the first line of a listing that names one.
#[derive(Clone, Copy)]
pub struct FirstStranger {
    pub id: u32,
    pub line: u64,
}

/// How many files name ids that no account has, and the first of these.
#[derive(Clone, Copy)]
pub struct Strangers {
    pub files: u64,
    pub first: Option<FirstStranger>,
}

impl FirstStranger {
    /// The id of a block whose first line has this number. `None` if the line's number doesn't fit
    /// in 64 bits.
    fn of(line: u64, stranger: Stranger) -> Option<FirstStranger>
        ensures { IfSome result (λ first. first ≡ first_of line stranger) }
    {
        let line = line.checked_add(stranger.before as u64)?;
        Some(FirstStranger {
            id: stranger.id,
            line,
        })
    }
}

impl Strangers {
    /// No block was seen.
    pub fn new() -> Strangers
        ensures { result ≡ no_strangers }
    {
        Strangers {
            files: 0,
            first: None,
        }
    }

    /// Counts another block, whose first line has this number; `sighting` is what it has to do with
    /// such ids. `None` if there are more than can be counted, which no listing has; then it is no
    /// count any more.
    pub fn add(&mut self, line: u64, sighting: Sighting) -> Option<()>
        ensures { (found : Option Stranger) → IsSighting self.old found sighting
            → IfSome result (λ _. self.new ≡ with_stranger self.old line found) }
    {
        match sighting {
            Sighting::Nobody => return Some(()),
            Sighting::Another => {}
            Sighting::First(stranger) => self.first = Some(FirstStranger::of(line, stranger)?),
        }
        self.files = self.files.checked_add(1)?;
        Some(())
    }

    /// Appends the line about so many files of the listing of this name, if one names such an id.
    pub fn push_line(self, name: &str, blocks: u64, out: &mut Vec<u8>) -> Result<(), AllocError>
        ensures { OnOk result (out.new.items
            ≡ out.old.items ++ strangers_line name.now blocks self) }
    {
        let Some(first) = self.first else {
            return Ok(());
        };
        push_start(name, out)?;
        out.extend_from_slice(b": ")?;
        push_number(self.files, out)?;
        out.extend_from_slice(b" of ")?;
        push_number(blocks, out)?;
        out.extend_from_slice(b" files name ids without an account, the first is ")?;
        push_first(first, out)?;
        out.push(b'\n')?;
        Ok(())
    }
}

/// Appends the first id and its line.
fn push_first(first: FirstStranger, out: &mut Vec<u8>) -> Result<(), AllocError>
    ensures { OnOk result (out.new.items ≡ out.old.items ++ first_words first) }
{
    push_number(u64::from(first.id), out)?;
    out.extend_from_slice(b" (line ")?;
    push_number(first.line, out)?;
    out.extend_from_slice(b")")
}
