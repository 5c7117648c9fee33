//! How many blocks a listing has, and what is said of them at its end.
ghost use Rattle.std.specs.Prelude.{◌≡◌, ◌++◌, IfErr, OnOk, Option};
ghost use Rattle.acl_reports.specs.Listed.{counted, ending_of, last_lines, no_blocks};
ghost use Rattle.acl_reports.specs.Reporting.{IsListingFailure};
ghost use Rattle.acl_reports.specs.Strangers.{IsSighting, no_strangers, with_stranger};
ghost use Rattle.acl_reports.specs.declared.stranger.Stranger.{Stranger};

use crate::sighting::Sighting;
use crate::strangers::Strangers;
use crate::tally::Tally;
use acl_cli::{Ending, Failure};
use acl_listings::BlockFault;
use std::alloc::AllocError;

/// How many blocks there are, how many can't be evaluated, and how many name ids that no account
/// has.
#[derive(Clone, Copy)]
pub struct Counts {
    pub tally: Tally,
    pub strangers: Strangers,
}

impl Counts {
    /// No blocks.
    pub fn new() -> Counts
        ensures tally { result.tally ≡ no_blocks }
        ensures strangers { result.strangers ≡ no_strangers }
    {
        Counts {
            tally: Tally::new(),
            strangers: Strangers::new(),
        }
    }

    /// Counts another block of the listing of this name, with this text, whose first line has this
    /// number; with its fault, if it has one. `sighting` is what it has to do with ids that no
    /// account has. Fails with the name if there are more than can be counted, which no listing
    /// has.
    pub fn add<'n>(
        &mut self,
        name: &'n str,
        line: u64,
        text: &[u8],
        fault: Option<BlockFault>,
        sighting: Sighting,
    ) -> Result<(), Failure<'n>>
        ensures tally { OnOk result (self.new.tally ≡ counted self.old.tally text.now fault) }
        ensures strangers { (found : Option Stranger)
            → IsSighting self.old.strangers found sighting
            → OnOk result (self.new.strangers ≡ with_stranger self.old.strangers line found) }
        ensures failed { IfErr result (IsListingFailure name.entry.now) }
    {
        match (
            self.tally.add(text, fault),
            self.strangers.add(line, sighting),
        ) {
            (Some(()), Some(())) => Ok(()),
            _ => Err(Failure::Unread(name)),
        }
    }

    /// How the report ends.
    pub fn ending(self) -> Ending
        ensures { result ≡ ending_of self.tally }
    {
        self.tally.ending()
    }

    /// Appends the closing lines of the listing of this name.
    pub fn push_last(self, name: &str, out: &mut Vec<u8>) -> Result<(), AllocError>
        ensures { OnOk result (out.new.items
            ≡ out.old.items ++ last_lines name.now self.tally self.strangers) }
    {
        self.tally.push_closing(name, out)?;
        self.strangers.push_line(name, self.tally.blocks, out)
    }
}
