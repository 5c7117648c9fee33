//! How many blocks a listing has, and how many can't be evaluated.
ghost use Rattle.std.specs.Prelude.{◌≡◌, ◌++◌, IfSome, OnOk};
ghost use Rattle.acl_reports.specs.Listed.{closing, count_line, counted, ending_of};
ghost use Rattle.acl_reports.specs.Listed.{guess_line, is_fault, is_unread};
ghost use Rattle.acl_reports.specs.Listed.{no_blocks};

use crate::lines::{push_line, push_number, push_start};
use acl_cli::Ending;
use acl_listings::{BlockFault, Guess};
use std::alloc::AllocError;

/// How many blocks there are, how many can't be evaluated, and the guess for the first.
#[derive(Clone, Copy)]
pub struct Tally {
    pub blocks: u64,
    pub faults: u64,
    /// How many of these are malformed, whatever their parents are.
    pub unread: u64,
    pub guess: Option<Guess>,
}

/// 1 if the block can't be evaluated.
fn is_fault(fault: Option<BlockFault>) -> u64
    ensures { result ≡ is_fault fault }
{
    match fault {
        None => 0,
        Some(_) => 1,
    }
}

/// 1 if the block is malformed. One with an unknown way isn't.
fn is_unread(fault: Option<BlockFault>) -> u64
    ensures { result ≡ is_unread fault }
{
    match fault {
        None | Some(BlockFault::UnknownWay) => 0,
        Some(_) => 1,
    }
}

impl Tally {
    /// No blocks.
    pub fn new() -> Tally
        ensures { result ≡ no_blocks }
    {
        Tally {
            blocks: 0,
            faults: 0,
            unread: 0,
            guess: None,
        }
    }

    /// Counts another block, with this text, and this fault if it has one. `None` if there are more
    /// than can be counted, which no listing has; then it is no count any more.
    pub fn add(&mut self, text: &[u8], fault: Option<BlockFault>) -> Option<()>
        ensures { IfSome result (λ _. self.new ≡ counted self.old text.now fault) }
    {
        self.blocks = self.blocks.checked_add(1)?;
        self.faults = self.faults.checked_add(is_fault(fault))?;
        self.unread = self.unread.checked_add(is_unread(fault))?;
        if self.guess.is_none() {
            self.guess = Some(Guess::of(text));
        }
        Some(())
    }

    /// How the report ends.
    pub fn ending(self) -> Ending
        ensures { result ≡ ending_of self }
    {
        if self.blocks == 0 || self.faults != 0 {
            Ending::InPart
        } else {
            Ending::Answered
        }
    }

    /// Appends the line that guesses what the listing is.
    fn push_guess(self, name: &str, out: &mut Vec<u8>) -> Result<(), AllocError>
        ensures { OnOk result (out.new.items ≡ out.old.items ++ guess_line name.now self.guess) }
    {
        match self.guess {
            Some(guess) => push_line(name, guess.words(), out),
            None => Ok(()),
        }
    }

    /// Appends the line that counts the files that can't be evaluated.
    fn push_count(self, name: &str, out: &mut Vec<u8>) -> Result<(), AllocError>
        ensures { OnOk result (out.new.items ≡ out.old.items ++ count_line name.now self) }
    {
        push_start(name, out)?;
        out.extend_from_slice(b": ")?;
        push_number(self.faults, out)?;
        out.extend_from_slice(b" of ")?;
        push_number(self.blocks, out)?;
        out.extend_from_slice(b" files were not answered")?;
        out.push(b'\n')?;
        Ok(())
    }

    /// Appends the closing lines of the listing of this name.
    pub fn push_closing(self, name: &str, out: &mut Vec<u8>) -> Result<(), AllocError>
        ensures { OnOk result (out.new.items ≡ out.old.items ++ closing name.now self) }
    {
        if self.blocks == 0 {
            return push_line(name, "no file", out);
        }
        if self.faults == 0 {
            return Ok(());
        }
        if self.unread == self.blocks {
            self.push_guess(name, out)?;
        }
        self.push_count(name, out)
    }
}
