//! What `impact` prints for blocks.
ghost use Rattle.std.specs.Prelude.{◌≡◌, ◌++◌, OnOk};
ghost use Rattle.acl_listings.specs.Block.{file_by};
ghost use Rattle.acl_listings.specs.Views.{view_file};
ghost use Rattle.acl_listing_changes.specs.Concerns.{concern_of};
ghost use Rattle.acl_listing_changes.specs.ImpactSteps.{ReportsRead, asking_by};
ghost use Rattle.acl_listing_changes.specs.Impacting.{Reports, ReportsChange, reported_of};

use super::changed::{changed_between, push_changed};
use super::concerned::Concerned;
use crate::between::{ChangeReporter, Found, Known, found_by};
use crate::impact_lines::push_apart;
use acl_access::{PrintedPath, Rules};
use acl_bridge::FileAcl;
use acl_listings::{BlockFault, File, FileFault, faulty_line, read_file};
use acl_people::{Host, People};
use acl_reports::{Stranger, block_stranger, names_stranger, owners_and_list};
use std::alloc::{AllocError, Global};

/// Reports who gains or loses access by changes.
#[derive(Clone, Copy)]
pub(super) struct ImpactReporter<'t> {
    /// The users and groups whose names blocks have.
    pub host: &'t Host,
    pub people: &'t People,
    /// The rules by which POSIX lists are evaluated.
    pub rules: Rules,
    /// Whether each affected user has a line, and not only the first.
    pub each: bool,
    /// Whether somebody who is none of the users has a line, if no user is affected.
    pub somebody: bool,
    /// Whether a path whose block differs as read has a line.
    pub written: bool,
    /// Whether the exit status reports that there is a line.
    pub asks: bool,
}

impl<'t> ImpactReporter<'t> {
    /// The users to report on.
    fn concerned(&self) -> Concerned<'t>
        ensures { concern_of result ≡ (asking_by self.now).concern }
    {
        Concerned {
            people: self.people,
            each: self.each,
            somebody: self.somebody,
        }
    }

    /// Appends the report on a file that is gone, or new.
    fn push_file(
        &self,
        alloc: Global,
        gone: bool,
        file: File<'_>,
        out: &mut Vec<u8>,
    ) -> Result<(), AllocError>
        ensures { OnOk result (out.new.items
            ≡ out.old.items ++ reported_of gone (asking_by self.now) (view_file file.entry)) }
    {
        let path = PrintedPath::of(alloc, file.path)?;
        let (owners, list) = owners_and_list(alloc, self.rules, file)?;
        let acl = FileAcl {
            owners,
            list: list.as_ref(),
        };
        self.concerned().push_path(gone, &acl, path.bytes(), out)
    }

    /// Appends the report on a file before and after.
    fn push_files(
        &self,
        alloc: Global,
        before: File<'_>,
        after: File<'_>,
        out: &mut Vec<u8>,
    ) -> Result<(), AllocError>
        ensures { OnOk result (Reports (ReportsChange (asking_by self.now) (view_file before.entry)
            (view_file after.entry)) out.old.items out.new.items) }
    {
        let path = PrintedPath::of(alloc, after.path)?;
        let changed = changed_between(&before, &after);
        let (old_owners, old_list) = owners_and_list(alloc, self.rules, before)?;
        let (new_owners, new_list) = owners_and_list(alloc, self.rules, after)?;
        let old = FileAcl {
            owners: old_owners,
            list: old_list.as_ref(),
        };
        let new = FileAcl {
            owners: new_owners,
            list: new_list.as_ref(),
        };
        self.concerned()
            .push_impact(alloc, &old, &new, path.bytes(), out)?;
        push_changed(self.written, changed, path.bytes(), out)
    }
}

impl<'t> ImpactReporter<'t> {
    /// Appends the report on a file after whose block before has this text, unless that one has a
    /// fault.
    fn push_old(
        &self,
        alloc: Global,
        old: &[u8],
        after: File<'_>,
        out: &mut Vec<u8>,
    ) -> Result<(), AllocError>
        ensures { OnOk result (Reports (ReportsRead (asking_by self.now)
            (file_by (asking_by self.now).names old.now) (view_file after.entry)) out.old.items
            out.new.items) }
    {
        match read_file(alloc, old, self.host) {
            Ok(before) => self.push_files(alloc, before, after, out),
            Err(FileFault::Block(_)) => Ok(()),
            Err(FileFault::Memory) => Err(AllocError),
        }
    }
}

impl<'t> ChangeReporter for ImpactReporter<'t> {
    ghost use Rattle.acl_listing_changes.specs.ImpactSteps.{asking_by};
    ghost use Rattle.acl_listing_changes.specs.Impacting.{impacting};

    ghost wording = { λ reporter. impacting (asking_by reporter) };

    fn asks(&self) -> bool {
        self.asks
    }

    fn find(&self, alloc: Global, text: &[u8]) -> Result<Found, AllocError> {
        match read_file(alloc, text, self.host) {
            Ok(file) => Ok(Found {
                fault: None,
                strange: names_stranger(self.host, &file),
            }),
            Err(FileFault::Block(fault)) => Ok(Found {
                fault: Some(fault),
                strange: false,
            }),
            Err(FileFault::Memory) => Err(AllocError),
        }
    }

    fn stranger(&self, text: &[u8]) -> Option<Stranger> {
        block_stranger(self.host, text)
    }

    fn faulty_line<'a>(&self, text: &'a [u8], fault: BlockFault) -> (usize, &'a [u8]) {
        faulty_line(text, fault, self.host)
    }

    fn push_new(
        &self,
        alloc: Global,
        text: &[u8],
        out: &mut Vec<u8>,
        _beside: &mut Vec<u8>,
    ) -> Result<Found, AllocError> {
        match read_file(alloc, text, self.host) {
            Ok(file) => {
                let strange = names_stranger(self.host, &file);
                self.push_file(alloc, false, file, out)?;
                Ok(Found {
                    fault: None,
                    strange,
                })
            }
            Err(FileFault::Block(fault)) => Ok(Found {
                fault: Some(fault),
                strange: false,
            }),
            Err(FileFault::Memory) => Err(AllocError),
        }
    }

    fn push_changed(
        &self,
        alloc: Global,
        old: &[u8],
        known: Known,
        text: &[u8],
        out: &mut Vec<u8>,
        _beside: &mut Vec<u8>,
    ) -> Result<Found, AllocError> {
        // An unchanged block isn't read again.
        if old == text {
            if let Some(found) = found_by(known) {
                return Ok(found);
            }
        }
        match read_file(alloc, text, self.host) {
            Ok(after) => {
                let strange = names_stranger(self.host, &after);
                self.push_old(alloc, old, after, out)?;
                Ok(Found {
                    fault: None,
                    strange,
                })
            }
            Err(FileFault::Block(fault)) => Ok(Found {
                fault: Some(fault),
                strange: false,
            }),
            Err(FileFault::Memory) => Err(AllocError),
        }
    }

    fn push_gone(
        &self,
        alloc: Global,
        old: &[u8],
        out: &mut Vec<u8>,
        _beside: &mut Vec<u8>,
    ) -> Result<(), AllocError> {
        match read_file(alloc, old, self.host) {
            Ok(file) => self.push_file(alloc, true, file, out),
            Err(FileFault::Block(_)) => Ok(()),
            Err(FileFault::Memory) => Err(AllocError),
        }
    }

    fn push_apart(
        &self,
        first: &[u8],
        second: &[u8],
        beside: &mut Vec<u8>,
    ) -> Result<(), AllocError> {
        push_apart(first, second, beside)
    }
}
