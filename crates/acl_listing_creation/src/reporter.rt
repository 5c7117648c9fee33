//! What `next` prints for a block of a listing.
ghost use Rattle.std.specs.Prelude.{◌≡◌, ◌++◌, OnOk};
ghost use Rattle.acl_listings.specs.Views.{view_file};
ghost use Rattle.acl_listing_creation.specs.Next.{as_it_stands, if_unknown, is_known_folder};
ghost use Rattle.acl_listing_creation.specs.Next.{reported_at, reported_before};
ghost use Rattle.acl_listing_creation.specs.NextSteps.{asking_of};

use crate::created::next_block;
use crate::creation::Creation;
use acl_listings::{File, FileFault, is_above, read_file, says_folder};
use acl_people::Host;
use acl_reports::{BlockReporter, Stranger};
use std::alloc::{AllocError, Global};
use std::marker::Model;

/// A file that may turn out to be a folder.
#[derive(Drop)]
pub(crate) struct Pending {
    path: Vec<u8>,
    /// The block to print if it is one.
    next: Vec<u8>,
}

impl Model for Pending {
    ghost use Rattle.acl_listing_creation.specs.Next.{Pending as PendingValue};

    ghost Value = { PendingValue };

    ghost view = { λ inside. record { path = inside.path.items; next = inside.next.items } };
}

/// Prints each block unchanged, and after a folder's what would be created in it.
#[derive(Drop)]
pub(crate) struct NextReporter<'t> {
    /// The users and groups whose names blocks have.
    pub host: &'t Host,
    pub creation: Creation,
    /// Whether each block is a folder's.
    pub folders_alone: bool,
    /// The file of the previous block, if the next block decides whether it is a folder.
    pub pending: Option<Pending>,
}

/// Appends what is to be reported for the file that is pending, before a block with this path.
fn push_pending(pending: &Option<Pending>, path: &[u8], out: &mut Vec<u8>) -> Result<(), AllocError>
    ensures { OnOk result (out.new.items ≡ out.old.items ++ reported_before pending.now path.now) }
{
    match pending {
        Some(pending) => {
            if is_above(pending.path.as_slice(), path) {
                out.extend_from_slice(pending.next.as_slice())?;
            }
            Ok(())
        }
        None => Ok(()),
    }
}

/// Appends a block unchanged, and an empty line.
fn push_as_it_stands(text: &[u8], out: &mut Vec<u8>) -> Result<(), AllocError>
    ensures { OnOk result (out.new.items ≡ out.old.items ++ as_it_stands text.now) }
{
    out.extend_from_slice(text)?;
    out.extend_from_slice(b"\n\n")
}

impl<'t> NextReporter<'t> {
    /// Appends what is printed for a block with this text, of this file.
    fn push_read(
        &mut self,
        alloc: Global,
        file: &File<'_>,
        next: Vec<u8>,
        text: &[u8],
        out: &mut Vec<u8>,
    ) -> Result<(), AllocError>
        ensures same { asking_of self.new ≡ asking_of self.old }
        ensures pending { OnOk result (self.new.pending
            ≡ if_unknown (is_known_folder (asking_of self.old)
            (record { file = view_file file.now; next = next.items }))
            (record { file = view_file file.now; next = next.items })) }
        ensures reported { OnOk result (out.new.items ≡ out.old.items
            ++ reported_at (asking_of self.old) self.old.pending text.now
            (record { file = view_file file.now; next = next.items })) }
    {
        push_pending(&self.pending, file.path, out)?;
        push_as_it_stands(text, out)?;
        if self.folders_alone || says_folder(file) {
            out.extend_from_slice(next.as_slice())?;
            self.pending = None;
            return Ok(());
        }
        let path = Vec::from_slice(alloc, file.path)?;
        self.pending = Some(Pending { path, next });
        Ok(())
    }
}

impl<'t> BlockReporter for NextReporter<'t> {
    ghost use Rattle.std.specs.Prelude.{false};
    ghost use Rattle.acl_listing_creation.specs.Next.{next_part};
    ghost use Rattle.acl_listing_creation.specs.NextSteps.{StandsBehind, asking_of};
    ghost use Rattle.acl_reports.specs.Strangers.{none_sought};

    ghost Stands = { StandsBehind };

    ghost part = { λ reporter. next_part (asking_of reporter) };

    ghost stranger = { λ reporter. none_sought };

    ghost found = { λ reporter. false };

    fn push(&mut self, alloc: Global, text: &[u8], out: &mut Vec<u8>) -> Result<(), FileFault> {
        let file = read_file(alloc, text, self.host)?;
        let next = next_block(alloc, &self.creation, &file)?;
        self.push_read(alloc, &file, next, text, out)?;
        Ok(())
    }

    fn names_stranger(&self) -> bool {
        false
    }

    fn stranger(&self, _text: &[u8]) -> Option<Stranger> {
        None
    }
}
